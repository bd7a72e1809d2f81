//! Where a summarise stands with a range.

use block_model::Spot;

/// What the next step of a summarise at a range is to do.
#[derive(Clone, Copy, Debug, PartialEq, Eq)]
pub enum Stage {
    /// Read the map.
    Map,
    /// Read the tuple at the spot that the map named: a final one ends the range, a placeholder is taken up.
    Tuple(Spot),
    /// Put the placeholder of a range for which the map has no entry; or first a step of the map's growth, where it has no page for the entry.
    Place,
    /// Have the map name the placeholder, which was put at the spot.
    Name(Spot),
    /// Read the extent of the table.
    Extent,
    /// Add the rows of the next block below the extent to the result; where all are passed, read the map again.
    Pass,
    /// Copy the placeholder at the spot that the map named, and unite it with the result.
    Copy(Spot),
    /// Have the final tuple take the place of the placeholder that was copied there.
    Swap(Spot),
    /// Have the map name the final tuple, which was put at the second spot, in place of the placeholder.
    Set(Spot, Spot),
    /// Drop the placeholder there, which isn't named any more.
    Drop(Spot),
    /// Nothing: the range had its final tuple.
    Had,
    /// Nothing: the range was given its final tuple.
    Made,
}
