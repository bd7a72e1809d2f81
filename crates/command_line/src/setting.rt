//! Settings of a table or an index.

ghost use Rattle.std.specs.Prelude.{◌≡◌};
ghost use Rattle.value_text.specs.TextReading.{Gives};
ghost use Rattle.command_line.specs.DeclarationReading.{setting_at, ending_at};
ghost use Rattle.command_line.specs.DeclaredSchema.{number_within};
ghost use Rattle.command_line.specs.Words.{said};

use value_text::{Reading, byte, digits, number_up_to, word};

/// The bracket behind the columns, and a setting with its digits or none.
#[tactic(auto, unfolding(crate::specs::DeclarationReading::ending_at))]
pub fn ending<'a>(text: &'a [u8], setting_word: &[u8]) -> Reading<'a, Option<&'a [u8]>>
    ensures { Gives (λ x. (said x.0, x.1.now)) result (ending_at setting_word.now text.now) }
{
    let rest = byte(text, b')')?;
    setting(rest, setting_word)
}

/// A setting with its digits or none.
#[tactic(auto, unfolding(crate::specs::DeclarationReading::setting_at))]
pub fn setting<'a>(text: &'a [u8], setting_word: &[u8]) -> Reading<'a, Option<&'a [u8]>>
    ensures { Gives (λ x. (said x.0, x.1.now)) result (setting_at setting_word.now text.now) }
{
    match text {
        [b' ', ..] => {
            let rest = word(text, setting_word)?;
            let (digits, rest) = digits(rest)?;
            Ok((Some(digits), rest))
        }
        _ => Ok((None, text)),
    }
}

/// The number of the digits, or the greatest of 8 bits where it is greater.
pub fn number_u8(digits: &[u8]) -> u8
    ensures { result ≡ number_within 8 digits.now }
{
    number_up_to(digits, u64::from(u8::MAX)) as u8
}

/// The number of the digits, or the greatest of 16 bits where it is greater.
pub fn number_u16(digits: &[u8]) -> u16
    ensures { result ≡ number_within 16 digits.now }
{
    number_up_to(digits, u64::from(u16::MAX)) as u16
}

/// The number of the digits, or the greatest of 32 bits where it is greater.
pub fn number_u32(digits: &[u8]) -> u32
    ensures { result ≡ number_within 32 digits.now }
{
    number_up_to(digits, u64::from(u32::MAX)) as u32
}
