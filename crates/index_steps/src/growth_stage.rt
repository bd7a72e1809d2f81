//! Where a growth of the map stands.

use block_model::Spot;

/// What the next step of a growth is to do.
#[derive(Clone, Copy, Debug, PartialEq, Eq)]
pub enum Stage {
    /// Judge the page behind the map anew.
    Judge,
    /// Have the metapage count the page, which is one of the map.
    Count,
    /// Have the map name the tuple that was put at the second spot, in place of the one at the first.
    Set { range: u32, from: Spot, to: Spot },
    /// Drop the tuple there, which isn't named any more.
    Drop { range: u32, from: Spot },
}
