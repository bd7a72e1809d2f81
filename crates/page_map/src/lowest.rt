//! The lowest block that has room, or that isn't started.

ghost use Rattle.std.specs.Prelude.{◌≡◌, ◌≢◌, ◌<◌, ◌≤◌, ℕ, length, true, false};
ghost use Rattle.page_map.specs.Lowest.{IsLowest, is_sought};
ghost use Rattle.page_map.specs.PageFacts.{facts_in};

use crate::facts::PageFacts;
use page_redo::UNSTARTED;

/// What a block is looked for by.
#[derive(Clone, Copy)]
pub(crate) enum Sought {
    Room,
    Unstarted,
}

/// Whether a block with these facts is one that is looked for.
pub(crate) fn is_sought(facts: PageFacts, sought: Sought) -> bool
    ensures { result ≡ is_sought sought facts }
{
    match sought {
        Sought::Room => facts.lowest.is_some(),
        Sought::Unstarted => facts.kind == UNSTARTED,
    }
}

/// The lowest block that is sought, after the block `at` has changed; before, it was `lowest`. The limit where there is none.
pub(crate) fn lowest(
    facts: &[PageFacts],
    limit: usize,
    sought: Sought,
    lowest: usize,
    at: usize,
) -> usize
    requires few { length facts.now ≤ limit }
    requires at { at < length facts.now }
    requires within { lowest ≤ limit }
    requires lower { (other : ℕ) → other < lowest → other ≢ at → is_sought sought (facts_in facts.now other) ≡ false }
    requires found { lowest < limit → lowest ≢ at → is_sought sought (facts_in facts.now lowest) ≡ true }
    ensures { IsLowest sought facts.now limit result }
{
    let here = is_sought(facts[at], sought);
    if lowest < at {
        return lowest;
    }
    if here {
        return at;
    }
    if at < lowest {
        return lowest;
    }
    first_from(facts, limit, sought, at + 1)
}

/// The lowest block that is sought, where none before that one is.
fn first_from(facts: &[PageFacts], limit: usize, sought: Sought, from: usize) -> usize
    requires few { length facts.now ≤ limit }
    requires from { from ≤ length facts.now }
    requires lower { (other : ℕ) → other < from → is_sought sought (facts_in facts.now other) ≡ false }
    ensures { IsLowest sought facts.now limit result }
{
    'candidates: for n in from..facts.len() {
        if is_sought(facts[n], sought) {
            return n;
        }
    }
    match sought {
        Sought::Room => limit,
        Sought::Unstarted => facts.len(),
    }
}
