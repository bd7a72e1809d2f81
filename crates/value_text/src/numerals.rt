//! Digits, and the number that they are.

ghost use Rattle.std.specs.Prelude.{◌≡◌, ◌+◌, ◌-◌, ◌*◌, ◌^◌, ◌≤◌, ◌<◌, min, length, take};
ghost use Rattle.std.specs.List.{prefix_len};
ghost use Rattle.block_model.specs.Names.{is_digit};
ghost use Rattle.value_text.specs.Digits.{digits_from};
ghost use Rattle.value_text.specs.TextReading.{Gives, digits_at};

use crate::cursor::Reading;

/// A number up to which one digit more has a place in 64 bits.
const ROOM_FOR_A_DIGIT: u64 = 1_000_000_000_000_000_000;

/// Digits, and the number that they are, or the greatest of 64 bits where it is greater.
#[derive(Clone, Copy)]
pub struct Numeral<'a> {
    pub digits: &'a [u8],
    pub number: u64,
    ghost counted: { number ≡ min (digits_from 0 digits.now) (2 ^ 64 - 1) },
}

/// One or more digits, as many as there are.
#[tactic(auto, unfolding(crate::specs::TextReading::digits_at))]
pub fn digits(text: &[u8]) -> Reading<'_, &[u8]>
    ensures { Gives (λ x. (x.0.now, x.1.now)) result (digits_at text.now) }
{
    let count = digit_count(text);
    if count == 0 {
        return Err(text);
    }
    Ok(text.split_at(count))
}

/// How many digits stand at the front.
fn digit_count(text: &[u8]) -> usize
    ensures count { result ≡ prefix_len is_digit text.now }
    ensures within { result ≤ length text.now }
{
    text.iter().take_while(|c| c.is_ascii_digit()).count()
}

/// One or more digits, as many as there are, and their number.
#[tactic(auto, unfolding(crate::specs::TextReading::digits_at))]
pub fn written_number(text: &[u8]) -> Reading<'_, Numeral<'_>>
    ensures { Gives (λ x. (x.0.digits.now, x.1.now)) result (digits_at text.now) }
{
    let (length, number) = front_number(text);
    if length == 0 {
        return Err(text);
    }
    let (digits, rest) = text.split_at(length);
    Ok((Numeral { digits, number }, rest))
}

/// How many digits stand at the front, and their number, or the greatest of 64 bits where it is greater.
fn front_number(text: &[u8]) -> (usize, u64)
    ensures count { result.0 ≡ prefix_len is_digit text.now }
    ensures within { result.0 ≤ length text.now }
    ensures number { result.1 ≡ min (digits_from 0 (take result.0 text.now)) (2 ^ 64 - 1) }
{
    let mut number: u64 = 0;
    'digits: for (i, c) in text.iter().enumerate() {
        if !is_digit(*c) {
            return (i, number);
        }
        number = next_number(number, *c);
    }
    (text.len(), number)
}

fn is_digit(c: u8) -> bool
    ensures { result ≡ is_digit c }
{
    c >= b'0' && c <= b'9'
}

/// The number with one digit more, or the greatest of 64 bits where it is greater.
fn next_number(number: u64, digit: u8) -> u64
    ensures { result ≡ min (10 * number + (digit - 48)) (2 ^ 64 - 1) }
{
    let last = u64::from(digit.saturating_sub(b'0'));
    if number <= ROOM_FOR_A_DIGIT {
        10 * number + last
    } else {
        number.saturating_mul(10).saturating_add(last)
    }
}

/// The number of the digits, or the limit where it is greater.
pub fn number_up_to(digits: &[u8], limit: u64) -> u64
    ensures { result ≡ min (digits_from 0 digits.now) limit }
{
    let mut n: u64 = 0;
    'digits: for c in digits {
        let digit = u64::from(c.saturating_sub(b'0'));
        n = n.saturating_mul(10).saturating_add(digit).min(limit);
    }
    n
}
