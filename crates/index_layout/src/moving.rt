//! How one slot of a page gets another tuple: the tuples of the slots behind it move, and their offsets with them.

ghost use Rattle.std.specs.Prelude.{◌≡◌, ◌+◌, ◌-◌, ◌*◌, ◌<◌, ◌≤◌, ◌++◌, ◌==◌, if◌then◌else◌, ℕ, List, length, take, drop, replicate, set, slice_index, slice_index_or, None};
ghost use Rattle.std.specs.List.{copy_within};
ghost use Rattle.block_model.specs.declared.limits.TheConstants.{PAGE_SIZE};
ghost use Rattle.index_layout.specs.IndexPages.{HasSlots, tuple_bytes};
ghost use Rattle.index_layout.specs.IndexReading.{free_of, slots_of};
ghost use Rattle.index_layout.specs.IndexWrites.{laid, lengths_in, slot_with};
ghost use borrow.Rule.Slice.PartMut.{put_mid};

use crate::format::{HEADER, LENGTH, SLOT_SIZE};
use crate::readers::{end_of, size_at};
use block_model::PAGE_SIZE;
use byte_fields::{get_u16, put_u16};

/// The slot has the tuple afterwards, or is free where the tuple is empty. The other slots stay. A tuple of the length of the
/// one before is copied to its place; else the tuples of the slots behind it move by the difference.
pub(crate) fn set_slot(page: &mut [u8], count: u16, slot: u16, tuple: &[u8])
    requires page { HasSlots (slice_index page.old 0) (slots_of page.old) page.old }
    requires whole { length page.old ≡ PAGE_SIZE }
    requires count { count ≡ length (slots_of page.old) }
    requires slot { slot < count }
    requires room { length tuple.now ≤ free_of (slots_of page.old) + length (tuple_bytes (slice_index_or (slots_of page.old) slot None)) }
    ensures set { HasSlots (slice_index page.old 0) (set (slots_of page.old) slot (slot_with tuple.now)) page.new }
{
    let size = size_at(page, slot);
    let end = end_of(page, slot);
    let low = end_of(page, count);
    place_tuple(page, low, end - size, end, tuple);
    if size == tuple.len() {
        return;
    }
    let at = HEADER + usize::from(slot) * SLOT_SIZE;
    put_u16(page, at + LENGTH, tuple.len() as u16);
    lay_offsets(page, at, count - slot, end);
}

/// The tuple stands up to `end` in the place of the bytes from `start` on, and the bytes from `low` to `start` stand before it.
fn place_tuple(page: &mut [u8], low: usize, start: usize, end: usize, tuple: &[u8])
    requires order { low ≤ start }
    requires ends { start ≤ end }
    requires within { end ≤ length page.old }
    requires whole { length page.old ≡ PAGE_SIZE }
    requires room { length tuple.now ≤ low + (end - start) }
    // By the bytes that stand there before, where zeros lie below `low`.
    ensures placed { (front others old behind : List ℕ) (zeros : ℕ) → page.old ≡ front ++ (replicate zeros 0 ++ (others ++ (old ++ behind))) → length front + zeros ≡ low → low + length others ≡ start → start + length old ≡ end → length tuple.now ≤ zeros + length old
        → page.new ≡ front ++ (replicate (zeros + length old - length tuple.now) 0 ++ (others ++ (tuple.now ++ behind))) }
{
    let to = low + (end - start) - tuple.len();
    move_bytes(page, low, start, to);
    page[end - tuple.len()..end].copy_from_slice(tuple);
}

/// The bytes from `low` to `start` stand from `to` on, and zeros where they stood below it.
fn move_bytes(page: &mut [u8], low: usize, start: usize, to: usize)
    requires order { low ≤ start }
    requires within { start ≤ length page.old }
    requires whole { length page.old ≡ PAGE_SIZE }
    requires room { to + (start - low) ≤ length page.old }
    // By the bytes that stand there before, where zeros lie below `low`.
    ensures moved { (front rest : List ℕ) (zeros : ℕ) → page.old ≡ front ++ (replicate zeros 0 ++ rest) → length front + zeros ≡ low → length front ≤ to
        → page.new ≡ front ++ (replicate (to - length front) 0 ++ (take (start - low) rest ++ drop (to + (start - low)) page.old)) }
{
    if to == low {
        return;
    }
    shift_bytes(page, low, start, to);
    if to < low {
        return;
    }
    clear(page, low, to);
}

/// The bytes from `low` to `start` stand from `to` on.
fn shift_bytes(page: &mut [u8], low: usize, start: usize, to: usize)
    requires order { low ≤ start }
    requires within { start ≤ length page.old }
    requires whole { length page.old ≡ PAGE_SIZE }
    requires room { to + (start - low) ≤ length page.old }
    ensures after { page.new ≡ copy_within page.old low start to }
{
    if low == start {
        return;
    }
    shift_some(page, low, start, to);
}

/// The same. They go by way of another place: that is two copies of many bytes at once, and `copy_within` would move one byte after
/// the other.
fn shift_some(page: &mut [u8], low: usize, start: usize, to: usize)
    requires order { low ≤ start }
    requires within { start ≤ length page.old }
    requires whole { length page.old ≡ PAGE_SIZE }
    requires room { to + (start - low) ≤ length page.old }
    ensures after { page.new ≡ copy_within page.old low start to }
{
    let size = start - low;
    let mut held = [0; PAGE_SIZE];
    held[..size].copy_from_slice(&page[low..start]);
    page[to..to + size].copy_from_slice(&held[..size]);
}

/// Zeros stand in the bytes from one place up to another.
pub(crate) fn clear(page: &mut [u8], from: usize, to: usize)
    requires order { from ≤ to }
    requires within { to ≤ length page.old }
    ensures cleared { page.new ≡ put_mid from (to - from) page.old (replicate (to - from) 0) }
{
    page[from..to].fill(0);
}

/// Writes anew the offsets of this many slots whose directory begins at the place, by their lengths and the end of the first
/// one's tuple.
fn lay_offsets(page: &mut [u8], at: usize, count: u16, end: usize)
    requires whole { length page.old ≡ PAGE_SIZE }
    requires within { at + count * 4 ≤ length page.old }
    requires lengths { lengths_in count (drop at page.old) ≤ end }
    requires end { end ≤ PAGE_SIZE }
    ensures laid { page.new ≡ take at page.old ++ laid end count (drop at page.old) }
{
    let mut begin = end;
    for slot in 0..count {
        let place = at + usize::from(slot) * SLOT_SIZE;
        let size = usize::from(get_u16(page, place + LENGTH));
        begin -= size;
        put_u16(page, place, offset_for(begin, size));
    }
}

/// The offset of a tuple that begins there: 0 where it is empty.
fn offset_for(begin: usize, size: usize) -> u16
    requires { begin ≤ PAGE_SIZE }
    ensures { result ≡ (if size == 0 then 0 else begin) }
{
    if size == 0 { 0 } else { begin as u16 }
}
