//! Why a run ends before the end of its script.

ghost use Rattle.std.specs.Prelude.{◌≡◌};
ghost use Rattle.script_run.specs.declared.engine.AnswerFault.TheVariants as unanswered;
ghost use Rattle.script_run.specs.declared.fault.RunFault.TheVariants as faults;

use crate::LinesEnd;
use crate::engine::AnswerFault;
use block_model::NoMemory;
use io_traits::SinkFault;
use thiserror::Error;

/// Why a run ends before the end of its script.
#[derive(Clone, Copy, Debug, PartialEq, Eq, Error)]
pub enum RunFault {
    /// A read of the source failed.
    #[error("a read failed")]
    Read,
    /// As many bytes as the limit says were taken, and another came.
    #[error("the script is too long")]
    Spent,
    /// A write to the sink failed.
    #[error("a write failed")]
    Write,
    /// The engine didn't answer a line.
    #[error(transparent)]
    Unanswered(AnswerFault),
}

impl From<LinesEnd> for RunFault {
    ghost use Rattle.script_run.specs.Faults.{fault_of};

    ghost from_gives = { λ end fault. fault ≡ fault_of end };

    fn from(end: LinesEnd) -> RunFault {
        match end {
            LinesEnd::Read => RunFault::Read,
            LinesEnd::Spent { .. } => RunFault::Spent,
        }
    }
}

impl From<SinkFault> for RunFault {
    ghost from_gives = { λ _ fault. fault ≡ faults.Write };

    fn from(_error: SinkFault) -> RunFault {
        RunFault::Write
    }
}

impl From<AnswerFault> for RunFault {
    ghost from_gives = { λ error fault. fault ≡ faults.Unanswered error };

    fn from(error: AnswerFault) -> RunFault {
        RunFault::Unanswered(error)
    }
}

impl From<NoMemory> for RunFault {
    ghost from_gives = { λ _ fault. fault ≡ faults.Unanswered unanswered.Memory };

    fn from(error: NoMemory) -> RunFault {
        RunFault::Unanswered(AnswerFault::from(error))
    }
}
