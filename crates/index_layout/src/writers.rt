//! What is written to a page that passed its check.

ghost use Rattle.std.specs.Prelude.{◌≡◌, ◌+◌, ◌<◌, ◌≤◌, ◌++◌, ◌∷◌, [], length, set, take, replicate, slice_index, true, None, Some};
ghost use Rattle.block_model.specs.declared.limits.TheConstants.{PAGE_ROOM, PAGE_SIZE};
ghost use Rattle.index_layout.specs.declared.format.TheConstants.{EVACUATED, MAP, MAP_ENTRIES, META, REGULAR};
ghost use Rattle.index_layout.specs.IndexPages.{header, HasSlots, IsIndexPage, IsMap, IsMeta, IsRegular};
ghost use Rattle.index_layout.specs.IndexReading.{entries_of, free_of, slots_of};
ghost use Rattle.index_layout.specs.IndexWrites.{CanDrop, CanPut, CanReplace, are_ascending, dropped, entry_for, put_in, trimmed};

use crate::format::{COUNT, ENTRY_SIZE, ENTRY_SLOT, EVACUATED, HEADER, MAP, META, REGULAR};
use crate::moving::{clear, set_slot};
use crate::readers::{page_known, size_at, slots};
use block_model::{PAGE_SIZE, Spot};
use byte_fields::{put_u16, put_u32};

/// The tuple stands in the slot, which was free or is the next one.
pub fn put_tuple(page: &mut [u8], slot: u16, tuple: &[u8])
    requires page { IsIndexPage page.old }
    requires room { CanPut page.old slot (length tuple.now) }
    ensures put { IsRegular REGULAR (put_in (slots_of page.old) slot tuple.now) page.new }
{
    page_known(page);
    let count = slots(page);
    if slot < count {
        set_slot(page, count, slot, tuple);
    } else {
        put_next(page, count, tuple);
    }
}

/// The tuple stands in the next slot.
fn put_next(page: &mut [u8], count: u16, tuple: &[u8])
    requires page { HasSlots (slice_index page.old 0) (slots_of page.old) page.old }
    requires whole { length page.old ≡ PAGE_SIZE }
    requires count { count ≡ length (slots_of page.old) }
    requires some { 0 < length tuple.now }
    requires room { length tuple.now + 4 ≤ free_of (slots_of page.old) }
    ensures put { HasSlots (slice_index page.old 0) (slots_of page.old ++ Some tuple.now ∷ []) page.new }
{
    add_slot(page, count);
    set_slot(page, count + 1, count, tuple);
}

/// The tuple stands in the slot in the place of another.
pub fn replace_tuple(page: &mut [u8], slot: u16, tuple: &[u8])
    requires page { IsIndexPage page.old }
    requires room { CanReplace page.old slot (length tuple.now) }
    ensures replaced { IsRegular REGULAR (set (slots_of page.old) slot (Some tuple.now)) page.new }
{
    page_known(page);
    let count = slots(page);
    set_slot(page, count, slot, tuple);
}

/// The slots of two bytes each are free, and the directory ends with the last slot that isn't.
pub fn drop_tuples(page: &mut [u8], list: &[u8])
    requires page { IsIndexPage page.old }
    requires slots { CanDrop page.old list.now }
    ensures dropped { IsRegular (slice_index page.old 0) (trimmed (dropped (slots_of page.old) list.now)) page.new }
{
    page_known(page);
    let count = slots(page);
    free_slots(page, count, 0, list);
    let used = used_slots(page, count);
    put_u16(page, COUNT, used);
}

/// The next slot is there, and free.
fn add_slot(page: &mut [u8], count: u16)
    requires page { HasSlots (slice_index page.old 0) (slots_of page.old) page.old }
    requires whole { length page.old ≡ PAGE_SIZE }
    requires count { count ≡ length (slots_of page.old) }
    requires room { 4 ≤ free_of (slots_of page.old) }
    ensures added { HasSlots (slice_index page.old 0) (slots_of page.old ++ None ∷ []) page.new }
{
    put_u16(page, COUNT, count + 1);
}

/// The slots of two bytes each are free.
fn free_slots(page: &mut [u8], count: u16, least: u32, list: &[u8])
    requires page { HasSlots (slice_index page.old 0) (slots_of page.old) page.old }
    requires whole { length page.old ≡ PAGE_SIZE }
    requires count { count ≡ length (slots_of page.old) }
    requires ascending { are_ascending least count list.now ≡ true }
    ensures freed { HasSlots (slice_index page.old 0) (dropped (slots_of page.old) list.now) page.new }
{
    if let [high, low, list @ ..] = list {
        let slot = u16::from(*high) * 256 + u16::from(*low);
        set_slot(page, count, slot, &[]);
        free_slots(page, count, u32::from(slot) + 1, list);
    }
}

/// How many slots there are up to the last one that isn't free.
fn used_slots(page: &[u8], count: u16) -> u16
    requires page { HasSlots (slice_index page.now 0) (slots_of page.now) page.now }
    requires whole { length page.now ≡ PAGE_SIZE }
    requires count { count ≡ length (slots_of page.now) }
    ensures { result ≡ length (trimmed (slots_of page.now)) }
{
    for slot in (0..count).rev() {
        if size_at(page, slot) != 0 {
            return slot + 1;
        }
    }
    0
}

/// The page is being evacuated.
pub fn evacuate(page: &mut [u8])
    requires page { IsIndexPage page.old }
    requires kind { slice_index page.old 0 ≡ REGULAR }
    ensures evacuated { IsRegular EVACUATED (slots_of page.old) page.new }
{
    page_known(page);
    page[0] = EVACUATED;
}

/// A page that was evacuated becomes a page of the map without entries.
pub fn turn_to_map(page: &mut [u8])
    requires page { IsIndexPage page.old }
    requires kind { slice_index page.old 0 ≡ EVACUATED }
    requires empty { length (slots_of page.old) ≡ 0 }
    ensures map { IsMap (replicate MAP_ENTRIES None) page.new }
{
    page_known(page);
    page[0] = MAP;
}

/// That entry of a page of the map names the spot, or none where the spot is zeros.
pub fn set_entry(page: &mut [u8], entry: u16, spot: Spot)
    requires page { IsIndexPage page.old }
    requires kind { slice_index page.old 0 ≡ MAP }
    requires entry { entry < MAP_ENTRIES }
    ensures set { IsMap (set (entries_of page.old) entry (entry_for spot)) page.new }
{
    page_known(page);
    write_entry(page, entry, spot.block, spot.slot);
}

/// That entry has the block and the slot.
fn write_entry(page: &mut [u8], entry: u16, block: u32, slot: u16)
    requires page { IsMap (entries_of page.old) page.old }
    requires whole { length page.old ≡ PAGE_SIZE }
    requires entry { entry < MAP_ENTRIES }
    ensures set { IsMap (set (entries_of page.old) entry (entry_for (record { block = block; slot = slot }))) page.new }
{
    let at = HEADER + usize::from(entry) * ENTRY_SIZE;
    put_u32(page, at, block);
    put_u16(page, at + ENTRY_SLOT, slot);
}

/// The metapage has that number of map pages.
pub fn set_map_pages(page: &mut [u8], pages: u32)
    requires page { IsIndexPage page.old }
    requires kind { slice_index page.old 0 ≡ META }
    ensures set { IsMeta pages page.new }
{
    page_known(page);
    put_u32(page, HEADER, pages);
}

/// Whatever bytes stand there, they become a metapage with that number of map pages.
pub fn start_meta(page: &mut [u8], pages: u32)
    requires { length page.old ≡ PAGE_SIZE }
    ensures { IsMeta pages page.new }
{
    start(page, META);
    put_u32(page, HEADER, pages);
}

/// Whatever bytes stand there, they become a page of the map without entries.
pub fn start_map(page: &mut [u8])
    requires { length page.old ≡ PAGE_SIZE }
    ensures { IsMap (replicate MAP_ENTRIES None) page.new }
{
    start(page, MAP);
}

/// Whatever bytes stand there, they become a page of tuples without slots.
pub fn start_regular(page: &mut [u8])
    requires { length page.old ≡ PAGE_SIZE }
    ensures { IsRegular REGULAR [] page.new }
{
    start(page, REGULAR);
}

/// A page of the kind whose other bytes are zeros.
fn start(page: &mut [u8], kind: u8)
    requires { length page.old ≡ PAGE_SIZE }
    ensures { page.new ≡ header kind 0 ++ replicate PAGE_ROOM 0 }
{
    clear(page, 0, PAGE_SIZE);
    page[0] = kind;
}
