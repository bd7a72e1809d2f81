//! Conditions on ranges, judged by a summary of them.

ghost use Rattle.std.specs.Prelude.{◌≡◌, true, false};
ghost use Rattle.block_model.specs.declared.value.Value.{Value};
ghost use Rattle.block_model.specs.Matches.{matches, range_matches};
ghost use Rattle.block_model.specs.Ranges.{IsRange, lower_of, upper_of};
ghost use Rattle.opclass_api.specs.Conditions.{AllCompare, compares, meets_all};
ghost use Rattle.opclass_inclusion.specs.SpanConsistent.{any_hull_holds, bounded_key_holds, consistent, empty_key_holds, ends_after, hull_holds, key_holds, range_key_holds, starts_before};
ghost use Rattle.opclass_inclusion.specs.SpanIncludes.{Includes};

use crate::span_summary::SpanSummary;
use block_model::{Cond, Op, Span8, Value, matches};

impl SpanSummary {
    /// Whether each condition may be met by a range that the summary includes.
    pub(crate) fn hold(&self, conds: &[Cond]) -> bool
        requires comparisons { AllCompare conds.now }
        ensures answer { result ≡ consistent self.now conds.now }
        ensures misses_no_match { result ≡ false → (v : Value) → Includes self.now v → meets_all conds.now v ≡ false }
    {
        'conds: for cond in conds {
            if !self.holds(cond.op, &cond.key) {
                return false;
            }
        }
        true
    }

    fn holds(&self, op: Op, key: &Value) -> bool
        ensures answer { result ≡ key_holds self.now.empty_added self.now.hull op key.now }
        ensures misses_no_match { result ≡ false → compares op ≡ true → (v : Value) → Includes self.now v → matches v op key.now ≡ false }
    {
        match key {
            Value::Span(k) => self.range_key_holds(op, k),
            Value::Null | Value::Int(_) | Value::Net(_) => false,
        }
    }

    fn range_key_holds(&self, op: Op, k: &Span8) -> bool
        ensures answer { result ≡ range_key_holds self.now.empty_added self.now.hull op k.now }
        ensures known { IsRange k.now }
    {
        k.known();
        if k.is_empty() {
            self.empty_key_holds(op)
        } else {
            self.bounded_key_holds(op, k)
        }
    }

    fn empty_key_holds(&self, op: Op) -> bool
        ensures { result ≡ empty_key_holds self.now.empty_added self.now.hull op }
    {
        match op {
            Op::Eq | Op::Within => self.empty_added,
            Op::Contains => self.empty_added || !self.hull.is_empty(),
            _ => false,
        }
    }

    fn bounded_key_holds(&self, op: Op, k: &Span8) -> bool
        ensures { result ≡ bounded_key_holds self.now.empty_added self.now.hull op k.now }
    {
        if op == Op::Within && self.empty_added {
            return true;
        }
        !self.hull.is_empty() && hull_holds(&self.hull, op, k)
    }
}

/// Whether a range that isn't empty and is within the hull may meet a condition whose key isn't empty.
fn hull_holds(hull: &Span8, op: Op, k: &Span8) -> bool
    ensures { result ≡ hull_holds hull.now op k.now }
{
    match op {
        Op::Eq | Op::Contains => contains(hull, k),
        Op::Overlaps | Op::Within => overlaps(hull, k),
        Op::Before => starts_before(hull.lower(), k.lower()),
        Op::After => ends_after(hull.upper(), k.upper()),
        Op::NotAfter => !range_matches(hull, Op::After, k),
        Op::NotBefore => !range_matches(hull, Op::Before, k),
        Op::Adjacent => overlaps(hull, k) || range_matches(hull, Op::Adjacent, k),
        _ => false,
    }
}

fn starts_before(hull: Option<i64>, key: Option<i64>) -> bool
    ensures { result ≡ starts_before hull key }
{
    match (hull, key) {
        (_, None) => false,
        (None, Some(_)) => true,
        (Some(hull), Some(key)) => hull < key,
    }
}

fn ends_after(hull: Option<i64>, key: Option<i64>) -> bool
    ensures { result ≡ ends_after hull key }
{
    match (hull, key) {
        (_, None) => false,
        (None, Some(_)) => true,
        (Some(hull), Some(key)) => key < hull,
    }
}

/// Whether the first range contains the second.
pub(crate) fn contains(first: &Span8, second: &Span8) -> bool
    ensures { result ≡ range_matches first.now Op.Contains second.now }
{
    range_matches(first, Op::Contains, second)
}

fn overlaps(first: &Span8, second: &Span8) -> bool
    ensures { result ≡ range_matches first.now Op.Overlaps second.now }
{
    range_matches(first, Op::Overlaps, second)
}

fn range_matches(first: &Span8, op: Op, second: &Span8) -> bool
    requires { compares op ≡ true }
    ensures { result ≡ range_matches first.now op second.now }
{
    matches(&Value::Span(*first), op, &Value::Span(*second))
}
