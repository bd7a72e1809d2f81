//! The first tuple of a page.

ghost use Rattle.std.specs.Prelude.{◌≡◌, ◌≢◌, ◌<◌, ◌≤◌, ℕ, None, Some, length, take, IfOk, IfErr, IfSome};
ghost use Rattle.block_model.specs.declared.limits.TheConstants.{PAGE_SIZE};
ghost use Rattle.page_map.specs.Keeps.{Keeps, Tells, Untold};
ghost use Rattle.page_map.specs.Outcome.{NamesPage, Outcome};
ghost use Rattle.heap_rows.specs.Survives.{Survives};
ghost use Rattle.index_layout.specs.IndexPages.{IsIndexPage};
ghost use Rattle.index_contents.specs.IndexContents.{contents, tuple_on};
ghost use Rattle.range_store.specs.Tuples.{IsTupleSize};
ghost use Rattle.index_steps.specs.FirstTuples.{IsFirst, IsFirstOn, IsOf};
ghost use Rattle.index_steps.specs.NextPages.{place_in};

use block_model::{PAGE_SIZE, Place};
use disk_trait::Disk;
use heap_rows::PageStore;
use index_contents::{index_pages_are_known, relation_of};
use index_layout::{an_index_page_has_one_list, slots, tuple_at, tuple_range};
use page_layout::Page;
use page_map::StoreError;

/// How many bytes the number of a tuple's range has.
const RANGE_SIZE: usize = 4;

/// The tuple in the lowest slot of a page that has one.
#[derive(Clone, Copy, Debug, PartialEq, Eq)]
pub struct FirstTuple {
    pub slot: u16,
    /// How many bytes it has.
    pub size: usize,
    /// The range that it begins with; none where it is shorter than the number of a range.
    pub range: Option<u32>,
}

/// The tuple in the lowest slot of the block that has one; none where none has. `out` has its bytes at its front then. Takes no memory.
pub fn first_tuple<D: Disk + Drop>(
    pages: &mut PageStore<D>,
    index: u8,
    block: u32,
    out: &mut [u8],
) -> Result<Option<FirstTuple>, StoreError>
    requires index { index < length pages.old.layout.schema.indexes }
    requires block { block < pages.old.layout.sizes.index_blocks }
    requires room { PAGE_SIZE ≤ length out.old }
    ensures first { IfOk result (λ first. Tells D.told pages.old → IsFirst (contents pages.old.layout pages.old.pages index) block out.new first) }
    ensures size { IfOk result (λ first. IfSome first (λ tuple. IsTupleSize tuple.size)) }
    ensures same_room { length out.new ≡ length out.old }
    ensures kept { Keeps D.told pages.old pages.new }
    ensures survives { Survives D.told (λ passed. passed ≡ pages.old.pages) pages.old pages.new }
    ensures at { IfErr result (NamesPage pages.old.layout (place_in pages.old.layout index block)) }
    ensures outcome { Outcome D.told (Untold D.told pages.old) pages.old pages.new result }
{
    index_pages_are_known();
    let relation = relation_of(pages.layout(), index);
    match pages.read(Place { relation, block }) {
        Ok(page) => Ok(first_on(page, out)),
        Err(error) => Err(error),
    }
}

/// The same of a page.
fn first_on(page: &Page, out: &mut [u8]) -> Option<FirstTuple>
    requires page { IsIndexPage page.now }
    requires room { PAGE_SIZE ≤ length out.old }
    ensures first { IsFirstOn page.now out.new result }
    ensures size { IfSome result (λ tuple. IsTupleSize tuple.size) }
    ensures same_room { length out.new ≡ length out.old }
{
    an_index_page_has_one_list();
    let bytes = page.as_bytes();
    'slots: for slot in 0..slots(bytes) {
        match tuple_at(bytes, slot) {
            Some(tuple) => return Some(copied(tuple, slot, out)),
            None => {}
        }
    }
    None
}

/// The tuple of the slot, with its bytes at the front of `out`.
fn copied(tuple: &[u8], slot: u16, out: &mut [u8]) -> FirstTuple
    requires { length tuple.now ≤ length out.old }
    ensures slot { result.slot ≡ slot }
    ensures size { result.size ≡ length tuple.now }
    ensures bytes { take result.size out.new ≡ tuple.now }
    ensures of { IsOf tuple.now result.range }
    ensures same_room { length out.new ≡ length out.old }
{
    out[..tuple.len()].copy_from_slice(tuple);
    FirstTuple {
        slot,
        size: tuple.len(),
        range: range_of(tuple),
    }
}

/// The range of which the bytes are; none where they are fewer than the number of a range.
fn range_of(tuple: &[u8]) -> Option<u32>
    ensures { IsOf tuple.now result }
{
    if tuple.len() < RANGE_SIZE {
        return None;
    }
    Some(tuple_range(tuple))
}
