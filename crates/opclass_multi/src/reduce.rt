//! Elements reduced to what a limit allows.

ghost use Rattle.std.specs.Prelude.{◌≡◌, ◌+◌, ◌≤◌, ◌<◌, ◌^◌, ◌&&◌, int_le, pos, length, vec_len, vec_capacity};
ghost use Rattle.opclass_multi.specs.Elements.{AreApart, count_of};
ghost use Rattle.opclass_multi.specs.Closing.{gap_between, closed, swept};
ghost use Rattle.opclass_multi.specs.Reduced.{gap_at, IsLeastGap, reduced};

use crate::element::Element;

/// While the elements count more than the limit, makes one interval of the two with the least gap, the lowest such pair.
/// The mergers are not made one by one: all that the narrowest gap allows come first, then all that must come.
pub(crate) fn reduce(elements: &mut Vec<Element>, limit: usize)
    requires some { 2 ≤ limit }
    requires few { vec_len elements.old ≤ 2 ^ 32 }
    requires apart { AreApart elements.old.items }
    ensures reduced { elements.new.items ≡ reduced limit elements.old.items }
    ensures room { vec_capacity elements.new ≡ vec_capacity elements.old }
{
    let mut counted = count(elements.as_slice());
    'rounds: while limit < counted {
        counted = close_narrowest(elements, limit, counted);
        counted = close_needed(elements, limit, counted);
    }
}

/// Closes gaps as narrow as the narrowest, from the lowest on, while the elements count more than the limit. Answers what
/// they count.
fn close_narrowest(elements: &mut Vec<Element>, limit: usize, counted: usize) -> usize
    requires some { 2 ≤ limit }
    requires few { vec_len elements.old ≤ 2 ^ 32 }
    requires apart { AreApart elements.old.items }
    requires counted { counted ≡ count_of elements.old.items }
    requires over { limit < counted }
    ensures apart { AreApart elements.new.items }
    ensures counted { result ≡ count_of elements.new.items }
    ensures reduced { reduced limit elements.new.items ≡ reduced limit elements.old.items }
    ensures fewer { vec_len elements.new < vec_len elements.old }
    ensures room { vec_capacity elements.new ≡ vec_capacity elements.old }
{
    let at = least_gap(elements.as_slice());
    let width = gap(elements.as_slice(), at);
    sweep(elements, limit, width, counted)
}

/// Where the elements count more than the limit, closes all gaps that are narrower than the last that has to go. Answers
/// what they count.
fn close_needed(elements: &mut Vec<Element>, limit: usize, counted: usize) -> usize
    requires some { 2 ≤ limit }
    requires few { vec_len elements.old ≤ 2 ^ 32 }
    requires apart { AreApart elements.old.items }
    requires counted { counted ≡ count_of elements.old.items }
    ensures apart { AreApart elements.new.items }
    ensures counted { result ≡ count_of elements.new.items }
    ensures reduced { reduced limit elements.new.items ≡ reduced limit elements.old.items }
    ensures size { vec_len elements.new ≤ vec_len elements.old }
    ensures room { vec_capacity elements.new ≡ vec_capacity elements.old }
{
    if counted <= limit {
        return counted;
    }
    let width = needed_width(elements.as_slice(), limit);
    sweep(elements, limit, i128::from(width), counted)
}

/// Closes the gaps that are no wider than the width, from the lowest on, while the elements count more than the limit.
/// Answers what they count.
fn sweep(elements: &mut Vec<Element>, limit: usize, width: i128, counted: usize) -> usize
    requires some { 0 < vec_len elements.old }
    requires few { vec_len elements.old ≤ 2 ^ 32 }
    requires apart { AreApart elements.old.items }
    requires counted { counted ≡ count_of elements.old.items }
    ensures swept { elements.new.items ≡ swept limit width counted elements.old.items }
    ensures counted { result ≡ count_of elements.new.items }
    ensures room { vec_capacity elements.new ≡ vec_capacity elements.old }
{
    let mut left = counted;
    let mut last = elements[0];
    let mut kept = 0;
    'places: for at in 1..elements.len() {
        let next = elements[at];
        if is_closed(last, next, width, limit < left) {
            // The interval that they become counts 2.
            left = left + 2 - last.weight() - next.weight();
            last = last.to(next);
        } else {
            elements[kept] = last;
            kept += 1;
            last = next;
        }
    }
    elements[kept] = last;
    elements.truncate(kept + 1);
    left
}

/// Whether the gap between an element and the next is closed: they count too much, and it is no wider than the width.
fn is_closed(element: Element, next: Element, width: i128, over: bool) -> bool
    ensures { result ≡ (over && int_le (gap_between element next) width) }
{
    over && element.gap_to(next) <= width
}

/// A width up to which all gaps have to go: with each of them closed, the elements count more than the limit still. It is
/// sought by halving.
fn needed_width(elements: &[Element], limit: usize) -> u64
    requires few { length elements.now ≤ 2 ^ 32 }
    requires apart { AreApart elements.now }
    requires over { limit < count_of elements.now }
    ensures needed { limit < count_of (closed (pos result) elements.now) }
{
    let mut below: u64 = 0;
    let mut above = share(elements, limit).saturating_add(1);
    'halves: while below + 1 < above {
        let middle = below + (above - below) / 2;
        if limit < count_closed(elements, middle) {
            below = middle;
        } else {
            above = middle;
        }
    }
    below
}

/// A width that no gap passes which has to go: more than a quarter of the limit stay.
fn share(elements: &[Element], limit: usize) -> u64 {
    match (elements.first(), elements.last()) {
        (Some(first), Some(last)) => first.greatest.abs_diff(last.least) / (limit as u64 / 4 + 1),
        _ => 0,
    }
}

/// What the elements count with each gap closed that is no wider than the width.
fn count_closed(elements: &[Element], width: u64) -> usize
    requires some { 0 < length elements.now }
    requires few { length elements.now ≤ 2 ^ 32 }
    ensures { result ≡ count_of (closed (pos width) elements.now) }
{
    let mut before: usize = 0;
    let mut last = elements[0];
    'places: for at in 1..elements.len() {
        let next = elements[at];
        if last.gap_to(next) <= i128::from(width) {
            last = last.to(next);
        } else {
            before += last.weight();
            last = next;
        }
    }
    before + last.weight()
}

/// What the elements count: a point 1, an interval 2.
fn count(elements: &[Element]) -> usize
    requires { length elements.now ≤ 2 ^ 32 }
    ensures { result ≡ count_of elements.now }
{
    elements.iter().map(|element| element.weight()).sum()
}

/// The place of the least gap, the lowest such place; there are two elements at least.
fn least_gap(elements: &[Element]) -> usize
    requires { 1 < length elements.now }
    ensures { IsLeastGap elements.now result }
{
    let mut least = 0;
    let mut narrowest = gap(elements, 0);
    'places: for at in 1..elements.len() - 1 {
        let here = gap(elements, at);
        if here < narrowest {
            narrowest = here;
            least = at;
        }
    }
    least
}

/// From the end of the element at a place to the start of the next. It may pass an `i64`.
fn gap(elements: &[Element], at: usize) -> i128
    requires { at + 1 < length elements.now }
    ensures { result ≡ gap_at elements.now at }
{
    elements[at].gap_to(elements[at + 1])
}
