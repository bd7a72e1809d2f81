//! What a line of a script is answered.

ghost use Rattle.std.specs.Prelude.{ℕ, List, IfOk, IfErr};

use block_model::{Point, Refusal, Reply};
use script_run::AnswerFault;

/// What an order of a session is answered: its statement is started; goes on behind a step of this name; ends with this reply; or this is why
/// it isn't taken, or isn't stepped.
#[derive(Debug, Drop)]
pub enum Answer {
    Started,
    Moved(Point),
    Ended(Reply),
    Refused(Refusal),
}

/// Answers the lines of a script, one after the other.
pub trait Answerer {
    ghost use Rattle.script_run.specs.declared.engine.AnswerFault.{AnswerFault};
    ghost use Rattle.demo_script.specs.declared.answer.Answer.{Answer};

    /// Whether one that is the first answers a line so, and is the second then.
    ghost answers: { Self → List ℕ → Answer → Self → Type 0 };

    /// Whether one that is the first doesn't answer a line for that reason, and is the second then.
    ghost stops: { Self → List ℕ → AnswerFault → Self → Type 0 };

    /// The answer to a line.
    fn ask(&mut self, line: &[u8]) -> Result<Answer, AnswerFault>
        ensures ok { IfOk result (λ answer. answers self.old line.now answer self.new) }
        ensures stops { IfErr result (λ fault. stops self.old line.now fault self.new) };
}
