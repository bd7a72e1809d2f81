//! Ranges of whole numbers.

ghost use Rattle.std.specs.Prelude.{◌≡◌, ◌≢◌, ◌↔◌, pos, ◌+ℤ◌, IsTrue, MatchOption, IfOk, ◌||◌, if◌then◌else◌, None, Some};
ghost use Rattle.block_model.specs.Ranges.{Range, Empty, Between, lower_of, upper_of, leaves_room, touches, IsRange};
ghost use Rattle.block_model.specs.ValuesOfKind.{HasBounds};
ghost use Rattle.block_model.specs.RangeBounds.{grown_lower, grown_upper, canonical_range, within_int8, range_between, range_from_bounds, HasNumbersBetween};

use std::marker::Model;
use thiserror::Error;

/// Which bounds a range has.
#[derive(Clone, Copy, Debug, PartialEq, Eq)]
enum Shape {
    Empty,
    All,
    From,
    Below,
    Bounded,
}

/// Why bounds make no range: the lower one is above the upper one, or the canonical form has a bound past int8.
#[derive(Clone, Copy, Debug, Error, PartialEq, Eq)]
pub enum SpanFault {
    #[error("the lower bound is above the upper one")]
    Order,
    #[error("a bound of the canonical form is past int8")]
    Range,
}

/// A range of numbers in its canonical form: empty, or the numbers from `lower` on and below `upper`, either of which
/// may be infinite ("Range Types"). Seen as that range.
#[derive(Clone, Copy, Debug, PartialEq, Eq)]
pub struct Span8 {
    shape: Shape,
    lower: i64,
    upper: i64,
}

impl Model for Span8 {
    ghost use Rattle.block_model.specs.Ranges.{Range};

    ghost Value = { Range };

    ghost use Rattle.block_model.specs.Spans.{range_of, IsCanonical, span_of, span_of_range};

    ghost view = { range_of };

    ghost invariant = { IsCanonical };

    ghost inverse = { span_of };

    ghost inverse_ok = { span_of_range };
}

impl Span8 {
    /// The empty range.
    pub fn empty() -> Span8
        ensures { result ≡ Empty }
    {
        Span8 {
            shape: Shape::Empty,
            lower: 0,
            upper: 0,
        }
    }

    /// The range of these bounds, each a number and whether it is inclusive; a missing one is infinite. `Order` exactly
    /// where the lower number is above the upper one, `Range` exactly where the canonical form of a range that isn't empty
    /// needs a bound past int8. Takes no memory.
    pub fn from_bounds(
        lower: Option<(i64, bool)>,
        upper: Option<(i64, bool)>,
    ) -> Result<Span8, SpanFault>
        ensures range { result ≡ range_from_bounds lower upper }
        ensures numbers { IfOk result (HasNumbersBetween lower upper) }
    {
        match (lower, upper) {
            (Some(l), Some(h)) => Span8::between(l, h),
            _ => {
                let l = grown_lower(lower)?;
                let h = grown_upper(upper)?;
                Ok(Span8::canonical(l, h))
            }
        }
    }

    /// Every range that isn't empty has a number, and its bounds are numbers of int8. Does nothing.
    pub fn known(&self)
        ensures number { IsRange self.now }
        ensures bounds { HasBounds self.now }
    {
        let _lower = self.lower;
        let _upper = self.upper;
    }

    /// Whether no number is in it.
    pub fn is_empty(&self) -> bool
        ensures { IsTrue result ↔ (self.now ≡ Empty) }
    {
        match self.shape {
            Shape::Empty => true,
            Shape::All | Shape::From | Shape::Below | Shape::Bounded => false,
        }
    }

    /// The least number in it; None where it is empty or infinite on that side.
    pub fn lower(&self) -> Option<i64>
        ensures { result ≡ lower_of self.now }
    {
        match self.shape {
            Shape::From | Shape::Bounded => Some(self.lower),
            Shape::Empty | Shape::All | Shape::Below => None,
        }
    }

    /// The number behind its last one; None where it is empty or infinite on that side.
    pub fn upper(&self) -> Option<i64>
        ensures { result ≡ upper_of self.now }
    {
        match self.shape {
            Shape::Below | Shape::Bounded => Some(self.upper),
            Shape::Empty | Shape::All | Shape::From => None,
        }
    }

    /// Both bounds, where it isn't empty.
    pub(crate) fn bounds(&self) -> Option<(Option<i64>, Option<i64>)>
        ensures { MatchOption result (self.now ≡ Empty) (λ b. self.now ≡ Between b.0 b.1) }
    {
        match self.shape {
            Shape::Empty => None,
            Shape::All | Shape::From | Shape::Below | Shape::Bounded => {
                Some((self.lower(), self.upper()))
            }
        }
    }

    fn between(lower: (i64, bool), upper: (i64, bool)) -> Result<Span8, SpanFault>
        ensures { result ≡ range_between lower upper }
    {
        let (l, lower_inclusive) = lower;
        let (h, upper_inclusive) = upper;
        if h < l {
            return Err(SpanFault::Order);
        }
        if l == h && !(lower_inclusive && upper_inclusive) {
            return Ok(Span8::empty());
        }
        let l = grown_lower(Some(lower))?;
        let h = grown_upper(Some(upper))?;
        Ok(Span8::canonical(l, h))
    }

    /// The range of bounds that have grown and are in order.
    fn canonical(lower: Option<i64>, upper: Option<i64>) -> Span8
        requires { IsTrue (leaves_room lower upper || touches lower upper) }
        ensures { result ≡ (if touches lower upper then Empty else Between lower upper) }
    {
        let (shape, lower, upper) = match (lower, upper) {
            (None, None) => (Shape::All, 0, 0),
            (Some(l), None) => (Shape::From, l, 0),
            (None, Some(h)) => (Shape::Below, 0, h),
            (Some(l), Some(h)) => {
                if l == h {
                    return Span8::empty();
                }
                (Shape::Bounded, l, h)
            }
        };
        Span8 {
            shape,
            lower,
            upper,
        }
    }
}

fn grown_lower(bound: Option<(i64, bool)>) -> Result<Option<i64>, SpanFault>
    ensures { result ≡ within_int8 (grown_lower bound) }
{
    match bound {
        None => Ok(None),
        Some((l, true)) => Ok(Some(l)),
        Some((l, false)) => next_of(l),
    }
}

fn grown_upper(bound: Option<(i64, bool)>) -> Result<Option<i64>, SpanFault>
    ensures { result ≡ within_int8 (grown_upper bound) }
{
    match bound {
        None => Ok(None),
        Some((h, true)) => next_of(h),
        Some((h, false)) => Ok(Some(h)),
    }
}

fn next_of(n: i64) -> Result<Option<i64>, SpanFault>
    ensures { result ≡ within_int8 (Some (n +ℤ pos 1)) }
{
    match n.checked_add(1) {
        Some(next) => Ok(Some(next)),
        None => Err(SpanFault::Range),
    }
}
