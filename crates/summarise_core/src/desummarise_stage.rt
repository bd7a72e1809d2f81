//! Where a desummarise stands.

ghost use Rattle.std.specs.Prelude.{◌≡◌};
ghost use Rattle.summarise_core.specs.Desummarises.{count_at};

use block_model::Spot;

/// What the next step of a desummarise is to do.
#[derive(Clone, Copy, Debug, PartialEq, Eq)]
pub enum Stage {
    /// Take the summarise lock of the table.
    Right,
    /// Read the map.
    Map,
    /// Take the range's entry, which named this spot, out of the map.
    Clear(Spot),
    /// Drop the tuple there, which isn't named any more.
    Drop(Spot),
    /// Nothing: the range had no entry.
    Lacked,
    /// Nothing: the range has lost its entry, and its tuple is dropped.
    Cleared,
}

/// How many entries left the map by the desummarise that is at the stage.
pub(crate) fn count_at(stage: Stage) -> u64
    ensures { result ≡ count_at stage }
{
    match stage {
        Stage::Drop(_) => 1,
        Stage::Cleared => 1,
        Stage::Right => 0,
        Stage::Map => 0,
        Stage::Clear(_) => 0,
        Stage::Lacked => 0,
    }
}
