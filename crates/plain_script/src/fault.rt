//! Why a script isn't read whole.

ghost use Rattle.std.specs.Prelude.{◌≡◌};
ghost use Rattle.plain_script.specs.ReadingFaults.{IsReadingFault, run_fault_of};

use script_run::{AnswerFault, RunFault};
use thiserror::Error;

/// Why a script isn't read whole.
#[derive(Clone, Copy, Debug, PartialEq, Eq, Error)]
pub enum ScriptFault {
    /// A read of the source failed.
    #[error("a read failed")]
    Read,
    /// As many bytes as the limit says were taken, and another came.
    #[error("the script is too long")]
    Spent,
    /// Memory ran out.
    #[error("out of memory")]
    Memory,
}

/// The same of a run that answers no line with a text, and stops at none but for want of memory.
pub(crate) fn script_fault(fault: RunFault) -> ScriptFault
    requires { IsReadingFault fault }
    ensures { fault ≡ run_fault_of result }
{
    match fault {
        RunFault::Read => ScriptFault::Read,
        RunFault::Spent => ScriptFault::Spent,
        RunFault::Unanswered(AnswerFault::Memory) => ScriptFault::Memory,
        RunFault::Write | RunFault::Unanswered(_) => unreachable!(),
    }
}
