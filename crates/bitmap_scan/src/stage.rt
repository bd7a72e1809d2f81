//! Where a scan stands while it judges ranges.

use block_model::Spot;

/// What the next step of a scan is to do. An index is named by its place among those of the table.
#[derive(Clone, Copy, Debug, PartialEq, Eq)]
pub enum Stage {
    /// Read how many blocks the table has.
    Extent,
    /// Read the map for the range.
    Map { at: usize, range: u32 },
    /// Read the tuple of the range, at the spot that the map named.
    Tuple { at: usize, range: u32, spot: Spot },
    /// Nothing: the ranges of all indexes are judged.
    Judged,
}
