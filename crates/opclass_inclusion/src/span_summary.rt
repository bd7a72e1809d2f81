//! The summary of ranges, and the smallest range that contains two.

ghost use Rattle.std.specs.Prelude.{◌≡◌, ◌≢◌, true, false, MatchOption};
ghost use Rattle.block_model.specs.Ranges.{Empty, Between, leaves_room};
ghost use Rattle.opclass_inclusion.specs.SpanHulls.{IsSummary, bracketed, hull_of, least_lower, greatest_upper, no_range, of_range, united};

use crate::span_keys::contains;
use block_model::Span8;

/// Whether an empty range was added, and the hull of the ranges that aren't empty: the smallest range that contains each
/// of them; it is empty where there is none.
#[derive(Clone, Copy, Debug, PartialEq, Eq)]
pub struct SpanSummary {
    pub(crate) empty_added: bool,
    pub(crate) hull: Span8,
}

/// The bounds of a range that isn't empty; a missing one is infinite.
#[derive(Clone, Copy, Debug, PartialEq, Eq)]
struct RangeBounds {
    lower: Option<i64>,
    upper: Option<i64>,
}

impl SpanSummary {
    /// The summary of no range. Takes no memory.
    pub fn new() -> SpanSummary
        ensures summary { result ≡ no_range }
        ensures of_class { IsSummary result }
    {
        SpanSummary {
            empty_added: false,
            hull: Span8::empty(),
        }
    }

    /// The summary of one range.
    pub(crate) fn of(range: &Span8) -> SpanSummary
        ensures summary { result ≡ of_range range.now }
        ensures of_class { IsSummary result }
    {
        range.known();
        // The calls bring what the proof cites of both bounds.
        let _ = (range.lower(), range.upper());
        SpanSummary {
            empty_added: range.is_empty(),
            hull: *range,
        }
    }

    /// Widens the summary to what another is of; answers whether it changed.
    pub(crate) fn unite(&mut self, other: &SpanSummary) -> bool
        ensures united { self.new ≡ united self.old other.now }
        ensures same { result ≡ false → self.new ≡ self.old }
        ensures changed { result ≡ true → self.new ≢ self.old }
    {
        if (self.empty_added || !other.empty_added) && contains(&self.hull, &other.hull) {
            return false;
        }
        self.empty_added = self.empty_added || other.empty_added;
        self.hull = hull_of(&self.hull, &other.hull);
        true
    }
}

/// The smallest range that contains both.
fn hull_of(first: &Span8, second: &Span8) -> Span8
    ensures { result ≡ hull_of first.now second.now }
{
    match (bounds(first), bounds(second)) {
        (None, _) => *second,
        (Some(_), None) => *first,
        (Some(a), Some(b)) => between(
            least_lower(a.lower, b.lower),
            greatest_upper(a.upper, b.upper),
        ),
    }
}

fn least_lower(a: Option<i64>, b: Option<i64>) -> Option<i64>
    ensures { result ≡ least_lower a b }
{
    match (a, b) {
        (Some(a), Some(b)) => Some(a.min(b)),
        _ => None,
    }
}

fn greatest_upper(a: Option<i64>, b: Option<i64>) -> Option<i64>
    ensures { result ≡ greatest_upper a b }
{
    match (a, b) {
        (Some(a), Some(b)) => Some(a.max(b)),
        _ => None,
    }
}

/// The bounds of a range that isn't empty. They have a number between them.
fn bounds(range: &Span8) -> Option<RangeBounds>
    ensures { MatchOption result (range.now ≡ Empty) (λ b. (range.now ≡ Between b.lower b.upper) × (leaves_room b.lower b.upper ≡ true)) }
{
    range.known();
    if range.is_empty() {
        return None;
    }
    Some(RangeBounds {
        lower: range.lower(),
        upper: range.upper(),
    })
}

/// The range from the first bound on and below the second, which have a number between them; a missing one is infinite.
pub(crate) fn between(lower: Option<i64>, upper: Option<i64>) -> Span8
    requires { leaves_room lower upper ≡ true }
    ensures { result ≡ Between lower upper }
{
    let Ok(range) = Span8::from_bounds(bracketed(lower, true), bracketed(upper, false)) else {
        unreachable!()
    };
    range
}

fn bracketed(bound: Option<i64>, inclusive: bool) -> Option<(i64, bool)>
    ensures { result ≡ bracketed bound inclusive }
{
    match bound {
        None => None,
        Some(number) => Some((number, inclusive)),
    }
}
