//! Whether a page that passed its check takes a change to its slots.

ghost use Rattle.std.specs.Prelude.{◌≡◌, ◌≤◌, length, true, false};
ghost use Rattle.index_layout.specs.IndexPages.{IsIndexPage};
ghost use Rattle.index_layout.specs.IndexReading.{slots_of};
ghost use Rattle.index_layout.specs.IndexWrites.{CanDrop, CanPut, CanReplace, are_ascending, room_on};

use crate::format::{REGULAR, SLOT_SIZE};
use crate::readers::{free_bytes, free_slot, is_regular, page_known, size_at, slots};

/// The bytes of the greatest further tuple that the page takes in a free slot or the next one: 0 where it takes none, as one
/// that isn't of tuples or is being evacuated.
pub fn room_for(page: &[u8]) -> u16
    requires { IsIndexPage page.now }
    ensures { result ≡ room_on page.now }
{
    page_known(page);
    if page[0] != REGULAR {
        return 0;
    }
    let free = free_bytes(page);
    if free_slot(page) < slots(page) {
        return free;
    }
    free.saturating_sub(4)
}

/// Whether the slot is free or the next one, on a page that isn't being evacuated, and a tuple of `size` bytes has room there.
pub fn can_put(page: &[u8], slot: u16, size: usize) -> bool
    requires { IsIndexPage page.now }
    ensures can { result ≡ true → CanPut page.now slot size }
    ensures cannot { result ≡ false → CanPut page.now slot size → ⊥ }
{
    page_known(page);
    if page[0] != REGULAR {
        return false;
    }
    if size == 0 {
        return false;
    }
    let count = slots(page);
    let free = usize::from(free_bytes(page));
    if slot < count {
        return size_at(page, slot) == 0 && size <= free;
    }
    slot == count && size <= free && free - size >= SLOT_SIZE
}

/// Whether the slot has a tuple, on a page that isn't being evacuated, and one of `size` bytes has room in its place.
pub fn can_replace(page: &[u8], slot: u16, size: usize) -> bool
    requires { IsIndexPage page.now }
    ensures can { result ≡ true → CanReplace page.now slot size }
    ensures cannot { result ≡ false → CanReplace page.now slot size → ⊥ }
{
    page_known(page);
    if page[0] != REGULAR {
        return false;
    }
    if size == 0 {
        return false;
    }
    if slot >= slots(page) {
        return false;
    }
    let old = size_at(page, slot);
    old != 0 && size <= usize::from(free_bytes(page)) + old
}

/// Whether these are slots of the page, in two bytes each and ascending.
pub fn can_drop(page: &[u8], dropped: &[u8]) -> bool
    requires { IsIndexPage page.now }
    ensures can { result ≡ true → CanDrop page.now dropped.now }
    ensures cannot { result ≡ false → CanDrop page.now dropped.now → ⊥ }
{
    page_known(page);
    if !is_regular(page[0]) {
        return false;
    }
    are_ascending(0, slots(page), dropped)
}

#[tactic(auto, unfolding(crate::specs::IndexWrites::are_ascending))]
fn are_ascending(least: u32, count: u16, slots: &[u8]) -> bool
    requires { least ≤ 65536 }
    ensures { result ≡ are_ascending least count slots.now }
{
    match slots {
        [] => true,
        [_] => false,
        [high, low, slots @ ..] => {
            let slot = u32::from(*high) * 256 + u32::from(*low);
            if slot < least {
                return false;
            }
            if slot >= u32::from(count) {
                return false;
            }
            are_ascending(slot + 1, count, slots)
        }
    }
}
