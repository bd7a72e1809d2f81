//! Which tuples of a page the map doesn't name.

ghost use Rattle.std.specs.Prelude.{◌≡◌, ◌≢◌, ◌↔◌, ◌++◌, ◌+◌, ◌<◌, ◌≤◌, ℕ, None, Some, true, false, length, vec_capacity, IfErr, IfOk, OnOk};
ghost use Rattle.std.specs.Int.{bytes_high_first};
ghost use Rattle.page_map.specs.Keeps.{Keeps, Tells, Untold};
ghost use Rattle.page_map.specs.Outcome.{Outcome};
ghost use Rattle.page_store.specs.Survives.{Survives};
ghost use Rattle.coverage.specs.Counts.{IsCountOf};
ghost use Rattle.index_layout.specs.IndexPages.{IsIndexPage};
ghost use Rattle.index_layout.specs.IndexReading.{slots_of};
ghost use Rattle.index_layout.specs.IndexWrites.{are_ascending};
ghost use Rattle.index_contents.specs.IndexContents.{contents};
ghost use Rattle.index_steps.specs.Readings.{NamesPageOf};
ghost use Rattle.vacuum_core.specs.declared.judging.TheConstants.{MAX_SLOT_BYTES};
ghost use Rattle.vacuum_core.specs.SweptPages.{IsListed, IsUnnamedOn, Judges};

use block_model::Spot;
use disk_trait::Disk;
use index_layout::{an_index_page_has_one_list, slots, tuple_at, tuple_range};
use index_steps::entry;
use page_map::StoreError;
use page_store::PageStore;

/// How many bytes the number of a tuple's range has.
const RANGE_SIZE: usize = 4;

/// How many bytes the numbers of a page's slots have at most: two for each slot, of which each takes four of 8160.
pub(crate) const MAX_SLOT_BYTES: usize = 4080;

/// `unnamed` becomes the slots of the block's tuples that the map doesn't name, in ascending order, two bytes each, the high one first;
/// `page` has the bytes of the block's page. Answers how many they are. Takes no memory.
pub(crate) fn list_unnamed<D: Disk + Drop>(
    pages: &mut PageStore<D>,
    index: u8,
    block: u32,
    page: &[u8],
    unnamed: &mut Vec<u8>,
) -> Result<u64, StoreError>
    requires ready { pages.old.failed ≡ None }
    requires index { index < length pages.old.layout.schema.indexes }
    requires page { IsIndexPage page.now }
    requires room { MAX_SLOT_BYTES ≤ vec_capacity unnamed.old }
    ensures listed { OnOk result (Tells D.told pages.old → (n : ℕ) → IsListed unnamed.new.items n ↔ IsUnnamedOn (contents pages.old.layout pages.old.pages index) page.now (record { block = block; slot = n })) }
    ensures counted { IfOk result (λ count. Tells D.told pages.old → IsCountOf (λ k. IsUnnamedOn (contents pages.old.layout pages.old.pages index) page.now (record { block = block; slot = k })) count) }
    ensures ascending { OnOk result (are_ascending 0 (length (slots_of page.now)) unnamed.new.items ≡ true) }
    ensures few { IfOk result (λ count. count ≤ 65536) }
    ensures capacity { vec_capacity unnamed.new ≡ vec_capacity unnamed.old }
    ensures kept { Keeps D.told pages.old pages.new }
    ensures survives { Survives D.told (λ passed. passed ≡ pages.old.pages) pages.old pages.new }
    ensures at { IfErr result (NamesPageOf pages.old.layout index) }
    ensures outcome { Outcome D.told (Untold D.told pages.old) pages.old pages.new result }
{
    an_index_page_has_one_list();
    pages.known();
    unnamed.clear();
    let mut count = 0;
    'slots: for slot in 0..slots(page) {
        match add_unnamed(pages, index, page, Spot { block, slot }, unnamed) {
            Ok(one) => count += one,
            Err(error) => return Err(error),
        }
    }
    Ok(count)
}

/// The slot of the spot comes behind the others, if a tuple stands there that the map doesn't name: 1 then, else 0.
fn add_unnamed<D: Disk + Drop>(
    pages: &mut PageStore<D>,
    index: u8,
    page: &[u8],
    spot: Spot,
    unnamed: &mut Vec<u8>,
) -> Result<u64, StoreError>
    requires ready { pages.old.failed ≡ None }
    requires index { index < length pages.old.layout.schema.indexes }
    requires page { IsIndexPage page.now }
    requires room { length unnamed.old.items + 2 ≤ vec_capacity unnamed.old }
    ensures judged { IfOk result (Judges (Tells D.told pages.old) (IsUnnamedOn (contents pages.old.layout pages.old.pages index) page.now spot) spot.slot unnamed.old.items unnamed.new.items) }
    ensures capacity { vec_capacity unnamed.new ≡ vec_capacity unnamed.old }
    ensures kept { Keeps D.told pages.old pages.new }
    ensures survives { Survives D.told (λ passed. passed ≡ pages.old.pages) pages.old pages.new }
    ensures at { IfErr result (NamesPageOf pages.old.layout index) }
    ensures outcome { Outcome D.told (Untold D.told pages.old) pages.old pages.new result }
{
    match is_unnamed(pages, index, page, spot) {
        Ok(true) => {
            push_slot(unnamed, spot.slot);
            Ok(1)
        }
        Ok(false) => Ok(0),
        Err(error) => Err(error),
    }
}

/// The slot behind the others.
fn push_slot(slots: &mut Vec<u8>, slot: u16)
    requires { length slots.old.items + 2 ≤ vec_capacity slots.old }
    ensures items { slots.new.items ≡ slots.old.items ++ bytes_high_first 2 slot }
    ensures capacity { vec_capacity slots.new ≡ vec_capacity slots.old }
{
    let [high, low] = slot.to_be_bytes();
    slots.push_reserved(high);
    slots.push_reserved(low);
}

/// Whether a tuple stands at the spot that the map doesn't name for its range; one of fewer than four bytes has no range. `page` has the bytes
/// of the spot's page.
fn is_unnamed<D: Disk + Drop>(
    pages: &mut PageStore<D>,
    index: u8,
    page: &[u8],
    spot: Spot,
) -> Result<bool, StoreError>
    requires ready { pages.old.failed ≡ None }
    requires index { index < length pages.old.layout.schema.indexes }
    requires page { IsIndexPage page.now }
    ensures unnamed { IfOk result (λ unnamed. unnamed ≡ true → Tells D.told pages.old → IsUnnamedOn (contents pages.old.layout pages.old.pages index) page.now spot) }
    ensures named { IfOk result (λ unnamed. unnamed ≡ false → Tells D.told pages.old → IsUnnamedOn (contents pages.old.layout pages.old.pages index) page.now spot → ⊥) }
    ensures kept { Keeps D.told pages.old pages.new }
    ensures survives { Survives D.told (λ passed. passed ≡ pages.old.pages) pages.old pages.new }
    ensures at { IfErr result (NamesPageOf pages.old.layout index) }
    ensures outcome { Outcome D.told (Untold D.told pages.old) pages.old pages.new result }
{
    pages.known();
    let Some(tuple) = tuple_at(page, spot.slot) else {
        return Ok(false);
    };
    if tuple.len() < RANGE_SIZE {
        return Ok(true);
    }
    match entry(pages, index, tuple_range(tuple)) {
        Ok(named) => Ok(!is_there(named, spot)),
        Err(error) => Err(error),
    }
}

/// Whether the entry names the spot.
fn is_there(named: Option<Spot>, spot: Spot) -> bool
    ensures there { result ≡ true → named ≡ Some spot }
    ensures elsewhere { result ≡ false → named ≢ Some spot }
{
    match named {
        Some(named) => named == spot,
        None => false,
    }
}
