//! The texts of int8range.

ghost use Rattle.std.specs.Prelude.{◌≡◌, ◌+◌, Some, None};
ghost use Rattle.value_text.specs.RangeTexts.{bound_of, written_range, upper_place, growth_place};
ghost use Rattle.value_text.specs.Parts.{side_text, bound_text};
ghost use Rattle.value_text.specs.TextReading.{Gives};
ghost use Rattle.value_text.specs.Reading.{bracket_at, side_at, lower_at, upper_at};

use crate::Reading;
use crate::number::{Number, read_number};
use block_model::{Span8, SpanFault};

/// A bound as it is written: its number, or none where that side is infinite, and whether its bracket is a square one.
#[derive(Clone, Copy)]
pub struct Bound<'a> {
    pub number: Option<Number<'a>>,
    pub inclusive: bool,
}

/// Where the number of a lower bound begins.
const LOWER_PLACE: usize = 1;

/// A bracket and an optional number.
#[tactic(auto, unfolding(crate::specs::Reading::lower_at))]
pub fn lower(text: &[u8]) -> Reading<'_, Bound<'_>>
    ensures { Gives (λ x. (bound_text x.0, x.1.now)) result (lower_at text.now) }
{
    let (inclusive, rest) = bracket(text, b'[', b'(')?;
    let (number, rest) = side(rest)?;
    Ok((Bound { number, inclusive }, rest))
}

/// An optional number and a bracket.
#[tactic(auto, unfolding(crate::specs::Reading::upper_at))]
pub fn upper(text: &[u8]) -> Reading<'_, Bound<'_>>
    ensures { Gives (λ x. (bound_text x.0, x.1.now)) result (upper_at text.now) }
{
    let (number, rest) = side(text)?;
    let (inclusive, rest) = bracket(rest, b']', b')')?;
    Ok((Bound { number, inclusive }, rest))
}

/// One of two brackets, and whether it is the first.
fn bracket(text: &[u8], square: u8, round: u8) -> Reading<'_, bool>
    ensures { Gives (λ x. (x.0, x.1.now)) result (bracket_at square round text.now) }
{
    match text {
        [first, rest @ ..] if *first == square => Ok((true, rest)),
        [first, rest @ ..] if *first == round => Ok((false, rest)),
        _ => Err(text),
    }
}

#[tactic(auto, unfolding(crate::specs::Reading::side_at))]
fn side(text: &[u8]) -> Reading<'_, Option<Number<'_>>>
    ensures { Gives (λ x. (side_text x.0, x.1.now)) result (side_at text.now) }
{
    match text {
        [b'-' | b'0'..=b'9', ..] => {
            let (n, rest) = read_number(text)?;
            Ok((Some(n), rest))
        }
        _ => Ok((None, text)),
    }
}

/// The range of the bounds, or where the first number begins that doesn't fit, 0 where they are out of order.
pub fn range_of(lower: &Bound<'_>, upper: &Bound<'_>) -> Result<Span8, usize>
    ensures { result ≡ written_range (bound_text lower.now) (bound_text upper.now) }
{
    let Some(l) = bound_of(lower) else {
        return Err(LOWER_PLACE);
    };
    let Some(h) = bound_of(upper) else {
        return Err(upper_place(lower));
    };
    match Span8::from_bounds(l, h) {
        Ok(span) => Ok(span),
        Err(SpanFault::Order) => Err(0),
        Err(SpanFault::Range) => Err(growth_place(lower, l)),
    }
}

/// A bound's number with its bracket, None where the number isn't one of int8.
fn bound_of(bound: &Bound<'_>) -> Option<Option<(i64, bool)>>
    ensures { result ≡ bound_of (bound_text bound.now) }
{
    let Some(number) = &bound.number else {
        return Some(None);
    };
    let n = number.value()?;
    Some(Some((n, bound.inclusive)))
}

/// Where the number of the upper bound begins.
fn upper_place(lower: &Bound<'_>) -> usize
    ensures { result ≡ upper_place (bound_text lower.now) }
{
    match &lower.number {
        None => LOWER_PLACE + 1,
        Some(number) => LOWER_PLACE + number.len() + 1,
    }
}

/// Where the number begins whose bound grows past int8.
fn growth_place(lower: &Bound<'_>, l: Option<(i64, bool)>) -> usize
    ensures { result ≡ growth_place (bound_text lower.now) l }
{
    match l {
        Some((i64::MAX, false)) => LOWER_PLACE,
        _ => upper_place(lower),
    }
}
