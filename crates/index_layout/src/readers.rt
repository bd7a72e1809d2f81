//! What stands on a page that passed its check.

ghost use Rattle.std.specs.Prelude.{◌≡◌, ◌+◌, ◌-◌, ◌*◌, ◌<◌, ◌≤◌, length, slice_index, slice_index_or, true, None};
ghost use Rattle.std.specs.Option.{option_map};
ghost use Rattle.block_model.specs.declared.limits.TheConstants.{PAGE_SIZE};
ghost use Rattle.byte_fields.specs.Fields.{field_at, number_of};
ghost use Rattle.index_layout.specs.declared.format.TheConstants.{MAP_ENTRIES};
ghost use Rattle.index_layout.specs.IndexPages.{HasSlots, IsIndexPage, IsRegular, tuple_bytes};
ghost use Rattle.index_layout.specs.IndexReading.{end_from, entries_of, free_of, free_slot_of, is_regular, map_pages_of, slots_of};

use crate::format::{
    COUNT, ENTRY_SIZE, ENTRY_SLOT, EVACUATED, HEADER, LENGTH, MAP, META, REGULAR, ROOM, SLOT_SIZE,
};
use block_model::{PAGE_SIZE, Spot};
use byte_fields::{get_u16, get_u32};

/// The kind of the page: 0 where it isn't started, else `META`, `MAP`, `REGULAR` or `EVACUATED`.
pub fn kind_of(page: &[u8]) -> u8
    requires { length page.now ≡ PAGE_SIZE }
    ensures { result ≡ slice_index page.now 0 }
{
    page[0]
}

/// How many slots the page has; one without tuples has none.
pub fn slots(page: &[u8]) -> u16
    requires { IsIndexPage page.now }
    ensures { result ≡ length (slots_of page.now) }
{
    page_known(page);
    if is_regular(page[0]) {
        return get_u16(page, COUNT);
    }
    0
}

/// The tuple in that slot, borrowed from the page. None where the slot is free, and where the page has no such slot.
pub fn tuple_at(page: &[u8], slot: u16) -> Option<&[u8]>
    requires { IsIndexPage page.now }
    ensures { option_map (λ tuple. tuple.now) result ≡ slice_index_or (slots_of page.now) slot None }
{
    page_known(page);
    if slot >= slots(page) {
        return None;
    }
    let size = size_at(page, slot);
    if size == 0 {
        return None;
    }
    let offset = offset_at(page, slot);
    Some(&page[offset..offset + size])
}

/// How many bytes of the page no slot takes, of which each takes 4 and the length of its tuple; one without slots has 8160.
pub fn free_bytes(page: &[u8]) -> u16
    requires { IsIndexPage page.now }
    ensures { result ≡ free_of (slots_of page.now) }
{
    page_known(page);
    let count = slots(page);
    if count == 0 {
        return ROOM;
    }
    let floor = HEADER + usize::from(count) * SLOT_SIZE;
    let begin = end_of(page, count);
    (begin - floor) as u16
}

/// The lowest slot that is free, else the next one.
pub fn free_slot(page: &[u8]) -> u16
    requires { IsIndexPage page.now }
    ensures { result ≡ free_slot_of (slots_of page.now) }
{
    page_known(page);
    let count = slots(page);
    for slot in 0..count {
        if size_at(page, slot) == 0 {
            return slot;
        }
    }
    count
}

/// That entry of a page of the map, which has `MAP_ENTRIES`. None where it names no spot, and where the page isn't of the map.
pub fn entry_at(page: &[u8], entry: u16) -> Option<Spot>
    requires page { IsIndexPage page.now }
    requires entry { entry < MAP_ENTRIES }
    ensures { result ≡ slice_index_or (entries_of page.now) entry None }
{
    page_known(page);
    if page[0] != MAP {
        return None;
    }
    let at = HEADER + usize::from(entry) * ENTRY_SIZE;
    let block = get_u32(page, at);
    let slot = get_u16(page, at + ENTRY_SLOT);
    if block == 0 && slot == 0 {
        return None;
    }
    Some(Spot { block, slot })
}

/// How many pages the map has, by its metapage; 0 where the page is another.
pub fn map_pages(page: &[u8]) -> u32
    requires { IsIndexPage page.now }
    ensures { result ≡ map_pages_of page.now }
{
    page_known(page);
    if page[0] != META {
        return 0;
    }
    get_u32(page, HEADER)
}

/// The number of the range that a tuple of 4 bytes or more is of.
pub fn tuple_range(bytes: &[u8]) -> u32
    requires { 4 ≤ length bytes.now }
    ensures { result ≡ number_of (field_at bytes.now 0 4) }
{
    get_u32(bytes, 0)
}

/// Whether a page of the kind has slots.
pub(crate) fn is_regular(kind: u8) -> bool
    ensures { result ≡ is_regular kind }
{
    kind == REGULAR || kind == EVACUATED
}

/// Does nothing; tells its caller how many bytes a page has, and that one of tuples has its slots.
pub(crate) fn page_known(page: &[u8])
    requires { IsIndexPage page.now }
    ensures whole { length page.now ≡ PAGE_SIZE }
    ensures regular { is_regular (slice_index page.now 0) ≡ true → IsRegular (slice_index page.now 0) (slots_of page.now) page.now }
    ensures has { 0 < length (slots_of page.now) → HasSlots (slice_index page.now 0) (slots_of page.now) page.now }
{}

/// The length of the tuple in that slot, 0 where it is free.
pub(crate) fn size_at(page: &[u8], slot: u16) -> usize
    requires page { HasSlots (slice_index page.now 0) (slots_of page.now) page.now }
    requires slot { slot < length (slots_of page.now) }
    requires whole { length page.now ≡ PAGE_SIZE }
    ensures read { result ≡ number_of (field_at page.now (32 + slot * 4 + 2) 2) }
    ensures size { result ≡ length (tuple_bytes (slice_index_or (slots_of page.now) slot None)) }
    ensures free { result ≡ 0 → slice_index_or (slots_of page.now) slot None ≡ None }
    ensures room { 32 + 4 * length (slots_of page.now) + result ≤ end_from PAGE_SIZE slot (slots_of page.now) }
    ensures within { end_from PAGE_SIZE slot (slots_of page.now) ≤ PAGE_SIZE }
{
    let at = HEADER + usize::from(slot) * SLOT_SIZE;
    usize::from(get_u16(page, at + LENGTH))
}

/// Where the tuple in that slot begins, 0 where it is free.
pub(crate) fn offset_at(page: &[u8], slot: u16) -> usize
    requires page { HasSlots (slice_index page.now 0) (slots_of page.now) page.now }
    requires slot { slot < length (slots_of page.now) }
    requires whole { length page.now ≡ PAGE_SIZE }
    ensures read { result ≡ number_of (field_at page.now (32 + slot * 4) 2) }
    ensures free { result ≡ 0 → end_from PAGE_SIZE (slot + 1) (slots_of page.now) ≡ end_from PAGE_SIZE slot (slots_of page.now) }
    ensures used { 0 < result → result ≡ end_from PAGE_SIZE (slot + 1) (slots_of page.now) }
    ensures begins { 0 < length (tuple_bytes (slice_index_or (slots_of page.now) slot None)) → result ≡ end_from PAGE_SIZE slot (slots_of page.now) - length (tuple_bytes (slice_index_or (slots_of page.now) slot None)) }
{
    let at = HEADER + usize::from(slot) * SLOT_SIZE;
    usize::from(get_u16(page, at))
}

/// Where the tuple of that slot ends, which is where those of the slots below it begin: the end of the page where there is
/// none.
pub(crate) fn end_of(page: &[u8], slot: u16) -> usize
    requires page { HasSlots (slice_index page.now 0) (slots_of page.now) page.now }
    requires slot { slot ≤ length (slots_of page.now) }
    requires whole { length page.now ≡ PAGE_SIZE }
    ensures { result ≡ end_from PAGE_SIZE slot (slots_of page.now) }
{
    for below in (0..slot).rev() {
        let offset = offset_at(page, below);
        if offset != 0 {
            return offset;
        }
    }
    PAGE_SIZE
}
