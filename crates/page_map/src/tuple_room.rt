//! The lowest page of an index that has room for a tuple. Of each group of blocks it is kept how much room no page exceeds, so
//! that groups without room are passed over.

ghost use Rattle.std.specs.Prelude.{◌≡◌, ◌≢◌, ◌+◌, ◌*◌, ◌/◌, ◌<◌, ◌≤◌, ◌⊎◌, ℕ, length, IfOk};
ghost use Rattle.page_map.specs.FactLists.{IsFoundBehind};
ghost use Rattle.page_map.specs.PageFacts.{facts_in};
ghost use Rattle.page_map.specs.TupleRoom.{AreBounded, IsFoundIn, bound_of, takes_bytes};
ghost use Rattle.page_map.specs.declared.tuple_room.TheConstants.{GROUP};

use crate::facts::PageFacts;
use block_model::NoMemory;
use page_redo::REGULAR;
use std::alloc::Global;

/// How many blocks a group has.
pub(crate) const GROUP: usize = 128;

/// The bounds of the groups of that many blocks, where no page has room. All memory is taken here.
pub(crate) fn no_room(alloc: Global, limit: u32) -> Result<Vec<u16>, NoMemory>
    ensures groups { IfOk result (λ most. limit / GROUP < length most.items) }
{
    Ok(vec![in alloc; 0; limit as usize / GROUP + 1]?)
}

/// Bounds the room of the pages in the group of that block, of which the page had that much room before. Costs a look at what is
/// kept of each page of the group, where the room has changed.
pub(crate) fn bound(most: &mut Vec<u16>, facts: &[PageFacts], at: usize, before: u16)
    requires at { at < length facts.now }
    requires group { at / GROUP < length most.old.items }
    requires before { before ≤ bound_of most.old.items at }
    requires others { (n : ℕ) → n ≢ at → (facts_in facts.now n).room ≤ bound_of most.old.items n }
    ensures bounded { AreBounded most.new.items facts.now }
    ensures groups { length most.new.items ≡ length most.old.items }
{
    if facts[at].room == before {
        return;
    }
    let group = at / GROUP;
    most[group] = most_room(facts, group);
}

/// The most room that a page of the group has.
fn most_room(facts: &[PageFacts], group: usize) -> u16
    requires group { group * GROUP ≤ length facts.now }
    ensures { (n : ℕ) → n / GROUP ≡ group → (facts_in facts.now n).room ≤ result }
{
    let start = group * GROUP;
    let end = end_of(facts, start);
    let mut most = 0;
    'pages: for n in start..end {
        most = most.max(facts[n].room);
    }
    most
}

/// Where the group that starts there ends, or the blocks do.
fn end_of(facts: &[PageFacts], start: usize) -> usize
    requires start { start ≤ length facts.now }
    ensures within { result ≤ length facts.now }
    ensures end { result ≤ start + GROUP }
    ensures whole { result ≡ length facts.now ⊎ result ≡ start + GROUP }
{
    start + GROUP.min(facts.len() - start)
}

/// The lowest block behind that one whose page takes a tuple of `need` bytes.
pub(crate) fn first_behind(facts: &[PageFacts], most: &[u16], need: u16, past: u32) -> Option<usize>
    requires groups { length facts.now / GROUP < length most.now }
    requires bounded { AreBounded most.now facts.now }
    ensures { IsFoundBehind facts.now need past result }
{
    let first = past as usize + 1;
    'groups: for group in first / GROUP..facts.len() / GROUP + 1 {
        if most[group] >= need {
            match first_in_group(facts, group, need, first) {
                Some(n) => return Some(n),
                None => {}
            }
        }
    }
    None
}

/// The lowest block of the group, not below the first one, whose page takes a tuple of `need` bytes.
fn first_in_group(facts: &[PageFacts], group: usize, need: u16, first: usize) -> Option<usize>
    requires group { group * GROUP ≤ length facts.now }
    ensures { IsFoundIn facts.now need first (group * GROUP) (group * GROUP + GROUP) result }
{
    let start = group * GROUP;
    let end = end_of(facts, start);
    'candidates: for n in first.max(start)..end {
        if takes_bytes(facts[n], need) {
            return Some(n);
        }
    }
    None
}

fn takes_bytes(facts: PageFacts, need: u16) -> bool
    ensures { result ≡ takes_bytes need facts }
{
    facts.kind == REGULAR && need <= facts.room
}
