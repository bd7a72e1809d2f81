//! Elements that are widened within a limit: by a number, and by the elements of another summary.

ghost use Rattle.std.specs.Prelude.{◌≡◌, ◌≢◌, ◌*◌, ◌≤◌, ◌<◌, ◌^◌, ℤ, ◌≤ℤ◌, true, false, if◌then◌else◌, length, drop, vec_capacity};
ghost use Rattle.std.specs.List.{list_all};
ghost use Rattle.opclass_multi.specs.Elements.{point, EndsFrom, AreApart, count_of, holds};
ghost use Rattle.opclass_multi.specs.Joined.{with_element, joined};
ghost use Rattle.opclass_multi.specs.Reduced.{reduced};

use crate::element::Element;
use crate::join::join;
use crate::reduce::reduce;

/// Widens elements by a number, and reduces them; answers whether they changed.
pub(crate) fn widen(elements: &mut Vec<Element>, limit: usize, v: i64) -> bool
    requires limit { (2 ≤ limit) × (limit < 2 ^ 16) }
    requires apart { AreApart elements.old.items }
    requires within { count_of elements.old.items ≤ limit }
    requires room { 2 * limit < vec_capacity elements.old }
    ensures widened { elements.new.items ≡ (if holds elements.old.items v v then elements.old.items else reduced limit (with_element (point v) elements.old.items)) }
    ensures apart { AreApart elements.new.items }
    ensures within { count_of elements.new.items ≤ limit }
    ensures room { vec_capacity elements.new ≡ vec_capacity elements.old }
    ensures same { result ≡ false → elements.new.items ≡ elements.old.items }
    ensures changed { result ≡ true → elements.new.items ≢ elements.old.items }
{
    if holds(elements.as_slice(), v, v) {
        return false;
    }
    join(elements, &[Element::point(v)]);
    reduce(elements, limit);
    true
}

/// Widens elements by those of another summary, and reduces them; answers whether they changed.
pub(crate) fn unite(elements: &mut Vec<Element>, limit: usize, others: &[Element]) -> bool
    requires limit { (2 ≤ limit) × (limit < 2 ^ 16) }
    requires apart { AreApart elements.old.items }
    requires within { count_of elements.old.items ≤ limit }
    requires room { 2 * limit < vec_capacity elements.old }
    requires others_apart { AreApart others.now }
    requires others_within { count_of others.now ≤ limit }
    ensures widened { elements.new.items ≡ reduced limit (joined elements.old.items others.now) }
    ensures apart { AreApart elements.new.items }
    ensures within { count_of elements.new.items ≤ limit }
    ensures room { vec_capacity elements.new ≡ vec_capacity elements.old }
    ensures same { result ≡ false → elements.new.items ≡ elements.old.items }
    ensures changed { result ≡ true → elements.new.items ≢ elements.old.items }
{
    if hold_all(elements.as_slice(), others) {
        return false;
    }
    join(elements, others);
    reduce(elements, limit);
    true
}

/// Whether an element holds the numbers from `p` to `q`.
fn holds(elements: &[Element], p: i64, q: i64) -> bool
    ensures { result ≡ holds elements.now p q }
{
    elements.iter().any(|element| element.covers(p, q))
}

/// Whether each of `others` lies in an element. One pass over both.
fn hold_all(elements: &[Element], others: &[Element]) -> bool
    requires apart { AreApart elements.now }
    requires others_apart { AreApart others.now }
    ensures { result ≡ list_all (λ other. holds elements.now other.least other.greatest) others.now }
{
    let mut from = 0;
    'others: for other in others {
        from = reach(elements, from, other.least);
        if !is_held(elements, from, *other) {
            return false;
        }
    }
    true
}

/// The place, from a place on, of the first element that ends at `v` or behind it, or the length. Those before it hold no
/// number from `v` on.
fn reach(elements: &[Element], from: usize, v: i64) -> usize
    requires place { from ≤ length elements.now }
    requires apart { AreApart (drop from elements.now) }
    ensures place { result ≤ length elements.now }
    ensures apart { AreApart (drop result elements.now) }
    ensures reached { EndsFrom v (drop result elements.now) }
    ensures passed { (p q : ℤ) → v ≤ℤ p → p ≤ℤ q → holds (drop result elements.now) p q ≡ holds (drop from elements.now) p q }
{
    let mut at = from;
    'places: while at < elements.len() {
        if v <= elements[at].greatest {
            return at;
        }
        at += 1;
    }
    at
}

/// Whether the elements from a place on hold all numbers of another, where none of them ends before it.
fn is_held(elements: &[Element], at: usize, other: Element) -> bool
    requires place { at ≤ length elements.now }
    requires apart { AreApart (drop at elements.now) }
    requires reached { EndsFrom other.least (drop at elements.now) }
    ensures { result ≡ holds (drop at elements.now) other.least other.greatest }
{
    if at == elements.len() {
        return false;
    }
    elements[at].covers(other.least, other.greatest)
}
