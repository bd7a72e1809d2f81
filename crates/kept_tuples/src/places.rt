//! Lists that have a place for all that was put into them, and blanks between.

ghost use Rattle.std.specs.Prelude.{◌≡◌, ◌-◌, ◌<◌, ◌≤◌, ◌^◌, ◌++◌, length, replicate, vec_capacity, vec_len, MatchResult, OnOk};
ghost use Rattle.kept_tuples.specs.Places.{placed};

use std::alloc::{AllocError, Global};

/// An element that stands where nothing was put.
pub trait Blank {
    ghost blank: { Self };

    /// Takes no memory.
    fn blank(alloc: Global) -> Self
        ensures { result ≡ blank };
}

impl Blank for u32 {
    ghost blank = { 0 };

    fn blank(_alloc: Global) -> u32 {
        0
    }
}

/// Puts the element at its place. After a refusal nothing is changed.
pub fn put_at<X: Blank + Drop>(
    alloc: Global,
    list: &mut Vec<X>,
    at: usize,
    x: X,
) -> Result<(), AllocError>
    requires { at < 2 ^ 32 }
    ensures { MatchResult result (λ _. list.new.items ≡ placed X.blank list.old.items at x) (λ _. list.new.items ≡ list.old.items) }
{
    make_room(list, at)?;
    put_within(alloc, list, at, x);
    Ok(())
}

/// Takes the memory of places up to that one. The list stays.
pub(crate) fn make_room<X>(list: &mut Vec<X>, at: usize) -> Result<(), AllocError>
    requires { at < 2 ^ 32 }
    ensures same { list.new.items ≡ list.old.items }
    ensures room { OnOk result (at < vec_capacity list.new) }
{
    if list.len() <= at {
        list.reserve(at - list.len() + 1)?;
    }
    Ok(())
}

/// Puts the element at its place, for which there is room. Takes no memory.
#[tactic(auto, using(crate::proofs::Placed::placed_inside, crate::proofs::Placed::placed_behind))]
pub(crate) fn put_within<X: Blank + Drop>(alloc: Global, list: &mut Vec<X>, at: usize, x: X)
    requires { at < vec_capacity list.old }
    ensures { list.new.items ≡ placed X.blank list.old.items at x }
{
    if at < list.len() {
        list[at] = x;
        return;
    }
    fill(alloc, list, at);
    list.push_reserved(x);
}

/// Adds blanks until there are so many places.
#[tactic(auto, using(crate::proofs::Placed::more_blanks))]
fn fill<X: Blank>(alloc: Global, list: &mut Vec<X>, count: usize)
    requires more { length list.old.items ≤ count }
    requires room { count ≤ vec_capacity list.old }
    ensures items { list.new.items ≡ list.old.items ++ replicate (count - length list.old.items) X.blank }
    ensures reached { vec_len list.new ≡ count }
    ensures room { vec_capacity list.new ≡ vec_capacity list.old }
{
    'places: for _at in list.len()..count {
        list.push_reserved(X::blank(alloc));
    }
}
