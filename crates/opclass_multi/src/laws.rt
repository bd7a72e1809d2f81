//! What the two rules of a union come to: elements are joined in one way, and reduced in one way.

ghost use Rattle.std.specs.Prelude.{◌≡◌, ◌≤◌, ◌++◌, ℕ, List, All, Contains};
ghost use Rattle.opclass_multi.specs.declared.element.Element.{Element};
ghost use Rattle.opclass_multi.specs.Elements.{AreApart, count_of};
ghost use Rattle.opclass_multi.specs.Joined.{AreJoined, joined, starts_of, ends_of};
ghost use Rattle.opclass_multi.specs.Reduced.{Reduces, reduced};

/// The elements of two summaries are joined, and no other list is. Each start and each end is one of an element of either.
pub fn joined_in_one_way()
    ensures joined { (es fs : List Element) → AreApart es → AreApart fs → AreJoined es fs (joined es fs) }
    ensures no_other { (es fs all : List Element) → AreApart es → AreApart fs → AreJoined es fs all → all ≡ joined es fs }
    ensures starts { (es fs : List Element) → All (Contains (starts_of es ++ starts_of fs)) (starts_of (joined es fs)) }
    ensures ends { (es fs : List Element) → All (Contains (ends_of es ++ ends_of fs)) (ends_of (joined es fs)) }
{}

/// Merger by merger, each of the least gap, elements come to one list that counts at most the limit.
pub fn reduced_in_one_way()
    ensures reduced { (limit : ℕ) (es : List Element) → 2 ≤ limit → Reduces limit es (reduced limit es) }
    ensures no_other { (limit : ℕ) (es all : List Element) → 2 ≤ limit → Reduces limit es all → all ≡ reduced limit es }
    ensures within { (limit : ℕ) (es : List Element) → 2 ≤ limit → count_of (reduced limit es) ≤ limit }
{}
