//! Where an insert stands in an index.

use block_model::Spot;

/// What the next step of an insert in an index is to do.
#[derive(Clone, Copy, Debug, PartialEq, Eq)]
pub enum Stage {
    /// Read the map.
    Map,
    /// Copy the tuple at the spot that the map named.
    Copy(Spot),
    /// Have the tuple with the row take the place of the one that was copied there.
    Swap(Spot),
    /// Have the map name the tuple with the row, which was put at the second spot, in place of the old one.
    Set(Spot, Spot),
    /// Drop the old tuple there, which isn't named any more.
    Drop(Spot),
    /// Nothing: the index is complete.
    Complete,
}
