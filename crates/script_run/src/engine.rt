//! What answers the lines of a script.

ghost use Rattle.std.specs.Prelude.{◌≡◌, ◌++◌, ℕ, List, OnOk, IfErr};

use block_model::NoMemory;
use std::alloc::AllocError;
use thiserror::Error;

/// Why a line isn't answered.
#[derive(Clone, Copy, Debug, PartialEq, Eq, Error)]
pub enum AnswerFault {
    /// Memory ran out.
    #[error("out of memory")]
    Memory,
    /// There is no room for what the line would have the engine keep.
    #[error("no room for what a line would keep")]
    Full,
    /// The disk failed.
    #[error("the disk failed")]
    Disk,
    /// What was read is damaged.
    #[error("what was read is damaged")]
    Damaged,
}

impl From<NoMemory> for AnswerFault {
    ghost use Rattle.script_run.specs.declared.engine.AnswerFault.TheVariants.{Memory};

    ghost from_gives = { λ _ fault. fault ≡ Memory };

    fn from(_error: NoMemory) -> AnswerFault {
        AnswerFault::Memory
    }
}

impl From<AllocError> for AnswerFault {
    ghost use Rattle.script_run.specs.declared.engine.AnswerFault.TheVariants.{Memory};

    ghost from_gives = { λ _ fault. fault ≡ Memory };

    fn from(_error: AllocError) -> AnswerFault {
        AnswerFault::Memory
    }
}

/// Answers the lines of a script, one after the other.
pub trait Engine {
    ghost use Rattle.script_run.specs.declared.engine.AnswerFault.{AnswerFault};

    /// Whether an engine that is the first answers a line with a text, and is the second then.
    ghost answers: { Self → List ℕ → List ℕ → Self → Type 0 };

    /// Whether an engine that is the first doesn't answer a line for that reason, and is the second then.
    ghost stops: { Self → List ℕ → AnswerFault → Self → Type 0 };

    /// Appends the text of a line. What was appended where it isn't answered is no text.
    fn answer(&mut self, line: &[u8], out: &mut Vec<u8>) -> Result<(), AnswerFault>
        ensures ok { OnOk result ((text : List ℕ) × (out.new.items ≡ out.old.items ++ text) × answers self.old line.now text self.new) }
        ensures stops { IfErr result (λ fault. stops self.old line.now fault self.new) };
}
