//! Values read from texts.

ghost use Rattle.std.specs.Prelude.{◌≡◌, ℕ, Result, Ok, Err, IfOk};
ghost use Rattle.value_text.specs.ValueTexts.{ValueText, IsTextOf, bytes_of, meaning, Denotes, Answers};
ghost use Rattle.value_text.specs.ValueStopsAt.{ValueStopsAt};

use crate::literal::read_literal;
use block_model::{Kind, Value};
use thiserror::Error;

/// Why a text has no value of its kind.
#[derive(Clone, Copy, Debug, PartialEq, Eq, Error)]
pub enum TextFault {
    /// It is no text of the kind: `at` is the first byte where no text of the kind goes on, the text's length where it
    /// could go on and ends.
    #[error("no text of the kind goes on at byte {at}")]
    Form { at: usize },
    /// It is, and its value isn't representable: `at` is the first byte of the number that doesn't fit, 0 where the lower
    /// bound of a range is above the upper one.
    #[error("the number at byte {at} doesn't fit")]
    Range { at: usize },
}

/// The value that a text of the kind denotes; `null` is a text of each kind. A fault names its place. Takes no memory.
pub fn read_value(kind: Kind, text: &[u8]) -> Result<Value, TextFault>
    // A text of the kind that denotes a value is read as that value, and nothing else is.
    ensures value { IfOk result (λ value. Denotes kind text.now (Ok value)) }
    ensures only { (written : ValueText) → IsTextOf kind written → text.now ≡ bytes_of written → Answers (meaning written) result }
    // A text of the kind whose number doesn't fit is refused where that number begins, and nothing else is.
    ensures range { (at : ℕ) → result ≡ Err (TextFault.Range at) → Denotes kind text.now (Err at) }
    // What is no text of the kind is refused at the first byte where none goes on, and nothing else is.
    ensures form { (at : ℕ) → result ≡ Err (TextFault.Form at) → ValueStopsAt kind text.now at }
{
    match read_literal(kind, text) {
        Ok((literal, _)) => match literal.value(kind) {
            Ok(value) => Ok(value),
            Err(at) => Err(TextFault::Range { at }),
        },
        Err(left) => Err(TextFault::Form {
            at: text.len() - left.len(),
        }),
    }
}
