//! The operator class of an indexed column.

ghost use Rattle.std.specs.Prelude.{◌≡◌};
ghost use Rattle.value_text.specs.TextReading.{Gives};
ghost use Rattle.command_line.specs.DeclarationReading.{m_class_at, bloom_at, other_class_at, class_at};
ghost use Rattle.command_line.specs.DeclaredSchema.{number_said, class_of};
ghost use Rattle.command_line.specs.Words.{class_text, said};

use crate::setting::{number_u8, number_u16, setting};
use block_model::Class;
use value_text::{Reading, byte, digits, word};

/// An operator class as it is written, with the digits of its numbers.
#[derive(Clone, Copy)]
pub enum ClassWord<'a> {
    MinMax,
    Multi { limit: Option<&'a [u8]> },
    Inclusion,
    Bloom { bits: &'a [u8], hashes: &'a [u8] },
}

/// How many values a range keeps in class multi where it isn't said.
const USUAL_LIMIT: u16 = 32;

/// A class.
#[tactic(auto, unfolding(crate::specs::DeclarationReading::class_at))]
pub fn class(text: &[u8]) -> Reading<'_, ClassWord<'_>>
    ensures { Gives (λ x. (class_text x.0, x.1.now)) result (class_at text.now) }
{
    match text {
        [b'm', rest @ ..] => m_class(rest),
        _ => other_class(text),
    }
}

/// `minmax` or `multi`, behind the `m` that both begin with.
#[tactic(auto, unfolding(crate::specs::DeclarationReading::m_class_at))]
fn m_class(text: &[u8]) -> Reading<'_, ClassWord<'_>>
    ensures { Gives (λ x. (class_text x.0, x.1.now)) result (m_class_at text.now) }
{
    match text {
        [b'u', ..] => {
            let rest = word(text, b"ulti")?;
            let (limit, rest) = setting(rest, b" ")?;
            Ok((ClassWord::Multi { limit }, rest))
        }
        _ => {
            let rest = word(text, b"inmax")?;
            Ok((ClassWord::MinMax, rest))
        }
    }
}

#[tactic(auto, unfolding(crate::specs::DeclarationReading::other_class_at))]
fn other_class(text: &[u8]) -> Reading<'_, ClassWord<'_>>
    ensures { Gives (λ x. (class_text x.0, x.1.now)) result (other_class_at text.now) }
{
    match text {
        [b'b', ..] => bloom(text),
        _ => {
            let rest = word(text, b"inclusion")?;
            Ok((ClassWord::Inclusion, rest))
        }
    }
}

#[tactic(auto, unfolding(crate::specs::DeclarationReading::bloom_at))]
fn bloom(text: &[u8]) -> Reading<'_, ClassWord<'_>>
    ensures { Gives (λ x. (class_text x.0, x.1.now)) result (bloom_at text.now) }
{
    let rest = word(text, b"bloom ")?;
    let (bits, rest) = digits(rest)?;
    let rest = byte(rest, b' ')?;
    let (hashes, rest) = digits(rest)?;
    Ok((ClassWord::Bloom { bits, hashes }, rest))
}

impl ClassWord<'_> {
    /// The class, its numbers what their digits say.
    pub fn operator_class(&self) -> Class
        ensures { result ≡ class_of (class_text self.now) }
    {
        match *self {
            ClassWord::MinMax => Class::MinMax,
            ClassWord::Multi { limit } => Class::Multi {
                limit: values_limit(limit),
            },
            ClassWord::Inclusion => Class::Inclusion,
            ClassWord::Bloom { bits, hashes } => Class::Bloom {
                bits: number_u16(bits),
                hashes: number_u8(hashes),
            },
        }
    }
}

/// How many values a range keeps in class multi: what the digits say, or the usual ones.
fn values_limit(limit: Option<&[u8]>) -> u16
    ensures { result ≡ number_said 16 32 (said limit.entry) }
{
    match limit {
        Some(digits) => number_u16(digits),
        None => USUAL_LIMIT,
    }
}
