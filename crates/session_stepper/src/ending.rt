//! Why no more lines are answered.

ghost use Rattle.std.specs.Prelude.{◌≡◌};

use script_run::AnswerFault;

/// Why no more lines are answered.
#[derive(Clone, Copy, Debug, PartialEq, Eq)]
pub enum Ending {
    /// The disk failed in a step.
    Disk,
    /// Memory is short for the text of an answer.
    Memory,
    /// A line was submitted that isn't its session's next one, or while one was in hand; or a step was asked for where none is.
    OutOfPlace,
    /// The journal has no room for a step.
    Spent,
    /// A page that a step read isn't of its form.
    Damaged,
}

impl Ending {
    ghost use Rattle.session_stepper.specs.Statuses.{status_of};
    ghost use Rattle.session_stepper.specs.Calls.{ending_of};

    /// The program's status: 6, 7, 7, 8 and 11.
    pub fn status(self) -> u8
        ensures { result ≡ status_of self }
    {
        match self {
            Ending::Disk => 6,
            Ending::Memory | Ending::OutOfPlace => 7,
            Ending::Spent => 8,
            Ending::Damaged => 11,
        }
    }

    /// How a fault of a step ends all.
    pub(crate) fn of(fault: AnswerFault) -> Ending
        ensures { result ≡ ending_of fault }
    {
        match fault {
            AnswerFault::Memory => Ending::Memory,
            AnswerFault::Full => Ending::Spent,
            AnswerFault::Disk => Ending::Disk,
            AnswerFault::Damaged => Ending::Damaged,
        }
    }
}
