//! The texts of int8.

ghost use Rattle.std.specs.Prelude.{◌≡◌, ◌+◌, ◌^◌, ◌≤◌, length};
ghost use Rattle.value_text.specs.IntTexts.{number_bytes, int8_of};
ghost use Rattle.value_text.specs.Parts.{number_text};
ghost use Rattle.value_text.specs.TextReading.{Gives};
ghost use Rattle.value_text.specs.Reading.{signed_at};

use crate::{Numeral, Reading, written_number};

/// A number as it is written.
#[derive(Clone, Copy)]
pub struct Number<'a> {
    pub negative: bool,
    pub numeral: Numeral<'a>,
}

/// An optional `-` and one or more digits.
#[tactic(auto, unfolding(crate::specs::Reading::signed_at))]
pub fn read_number(text: &[u8]) -> Reading<'_, Number<'_>>
    ensures { Gives (λ x. (number_text x.0, x.1.now)) result (signed_at text.now) }
{
    match text {
        [b'-', rest @ ..] => {
            let (numeral, rest) = written_number(rest)?;
            let negative = true;
            Ok((Number { negative, numeral }, rest))
        }
        _ => {
            let (numeral, rest) = written_number(text)?;
            let negative = false;
            Ok((Number { negative, numeral }, rest))
        }
    }
}

impl Number<'_> {
    /// How many bytes write it.
    pub fn len(&self) -> usize
        ensures bytes { result ≡ length (number_bytes (number_text self.now)) }
        ensures short { result ≤ 2 ^ 63 }
    {
        self.numeral.digits.len() + usize::from(self.negative)
    }

    /// Its value, where it is one of int8.
    pub fn value(&self) -> Option<i64>
        ensures { result ≡ int8_of (number_text self.now) }
    {
        match self.numeral.number {
            n if n < 1 << 63 => {
                let n = n as i64;
                Some(if self.negative { -n } else { n })
            }
            n if n == 1 << 63 && self.negative => Some(i64::MIN),
            _ => None,
        }
    }
}
