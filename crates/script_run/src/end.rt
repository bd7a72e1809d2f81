//! How a reader of lines comes to an end.

ghost use Rattle.std.specs.Prelude.{◌≡◌};

use io_traits::SourceFault;
use thiserror::Error;

/// Why there is no next line.
#[derive(Clone, Copy, Debug, PartialEq, Eq, Error)]
pub enum LinesEnd {
    /// A read of the source failed.
    #[error("a read failed")]
    Read,
    /// As many bytes as the limit says were taken, and another came.
    #[error("more than {taken} bytes came")]
    Spent { taken: u64 },
}

impl From<SourceFault> for LinesEnd {
    ghost use Rattle.script_run.specs.declared.end.LinesEnd.TheVariants as ends;

    ghost from_gives = { λ _ end. end ≡ ends.Read };

    fn from(_error: SourceFault) -> LinesEnd {
        LinesEnd::Read
    }
}

/// How far the source is known.
#[derive(Clone, Copy, Debug, PartialEq, Eq)]
pub enum Stage {
    /// More may come.
    Open,
    /// The end was seen.
    Ended,
    /// A byte past the limit was seen.
    Spent,
}
