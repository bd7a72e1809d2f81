//! Whether bytes are a page of an index.

ghost use Rattle.std.specs.Prelude.{◌≡◌, ◌+◌, ◌*◌, ◌^◌, ◌≤◌, ◌<◌, drop, length, true, IfSome, None};
ghost use Rattle.block_model.specs.declared.limits.TheConstants.{PAGE_ROOM, PAGE_SIZE};
ghost use Rattle.byte_fields.specs.Fields.{AreBytes};
ghost use Rattle.index_layout.specs.IndexPages.{IsIndexPage};
ghost use Rattle.index_layout.specs.IndexFaults.{directory_fault, entries_fault, fault_unless, first_of, index_fault, map_fault, meta_fault, regular_fault, shifted, slot_fault, zeros_fault};

use crate::format::{
    COUNT, ENTRY_SIZE, ENTRY_ZEROS, EVACUATED, HEADER, LENGTH, MAP, MAP_ENTRIES, META, REGULAR,
    SLOT_SIZE, UNSTARTED,
};
use block_model::{PAGE_ROOM, PAGE_SIZE};
use byte_fields::get_u16;

/// The lowest place of a field whose rule is broken; None exactly where the bytes are a page of an index.
pub fn first_fault(page: &[u8]) -> Option<u16>
    requires whole { length page.now ≡ PAGE_SIZE }
    ensures place { result ≡ index_fault page.now }
    ensures within { IfSome result (λ at. at < PAGE_SIZE) }
    ensures passed { result ≡ None → IsIndexPage page.now }
    ensures refused { IsIndexPage page.now → result ≡ None }
{
    bytes_known(page);
    match index_fault(page) {
        Some(at) => Some(at as u16),
        None => None,
    }
}

/// A byte is below 256. Does nothing.
pub(crate) fn bytes_known(bytes: &[u8])
    ensures { AreBytes bytes.now }
{
    // Opens the bytes, so that what their type says of each is known.
    let _ = bytes;
}

#[tactic(auto, unfolding(crate::specs::IndexFaults::index_fault))]
fn index_fault(page: &[u8]) -> Option<usize>
    requires whole { length page.now ≡ PAGE_SIZE }
    ensures fault { result ≡ index_fault page.now }
    ensures within { IfSome result (λ at. at < PAGE_SIZE) }
{
    match page[0] {
        UNSTARTED => zeros_fault(page),
        META => meta_fault(page),
        MAP => map_fault(page),
        REGULAR | EVACUATED => regular_fault(page),
        _ => Some(0),
    }
}

/// The first byte that isn't zero. That there is none is told by one comparison.
pub fn zeros_fault(bytes: &[u8]) -> Option<usize>
    ensures fault { result ≡ zeros_fault bytes.now }
    ensures within { IfSome result (λ at. at < length bytes.now) }
{
    if are_zeros(bytes) {
        return None;
    }
    bytes.iter().position(|byte| *byte != 0)
}

/// As many zeros as a page has bytes.
const ZEROS: [u8; PAGE_SIZE] = [0; PAGE_SIZE];

/// Whether each byte is zero, of no more than a page has.
fn are_zeros(bytes: &[u8]) -> bool
    ensures { result ≡ true → zeros_fault bytes.now ≡ None }
{
    if bytes.len() > PAGE_SIZE {
        return false;
    }
    bytes == &ZEROS[..bytes.len()]
}

#[tactic(auto, unfolding(crate::specs::IndexFaults::meta_fault))]
fn meta_fault(page: &[u8]) -> Option<usize>
    requires whole { length page.now ≡ PAGE_SIZE }
    ensures fault { result ≡ meta_fault page.now }
    ensures within { IfSome result (λ at. at < PAGE_SIZE) }
{
    if let Some(at) = zeros_fault(&page[1..HEADER]) {
        return Some(1 + at);
    }
    let at = zeros_fault(&page[36..])?;
    Some(36 + at)
}

#[tactic(auto, unfolding(crate::specs::IndexFaults::map_fault))]
fn map_fault(page: &[u8]) -> Option<usize>
    requires whole { length page.now ≡ PAGE_SIZE }
    ensures fault { result ≡ map_fault page.now }
    ensures within { IfSome result (λ at. at < PAGE_SIZE) }
{
    if let Some(at) = zeros_fault(&page[1..HEADER]) {
        return Some(1 + at);
    }
    let at = entries_fault(&page[HEADER..])?;
    Some(HEADER + at)
}

/// The first field of the entries whose rule is broken.
fn entries_fault(body: &[u8]) -> Option<usize>
    requires whole { length body.now ≡ PAGE_ROOM }
    ensures fault { result ≡ entries_fault 1020 body.now }
    ensures within { IfSome result (λ at. at < PAGE_ROOM) }
{
    for entry in 0..MAP_ENTRIES {
        let at = usize::from(entry) * ENTRY_SIZE;
        if let Some(fault) = zeros_fault(&body[at + ENTRY_ZEROS..at + ENTRY_SIZE]) {
            return Some(at + ENTRY_ZEROS + fault);
        }
    }
    None
}

#[tactic(auto, unfolding(crate::specs::IndexFaults::regular_fault))]
fn regular_fault(page: &[u8]) -> Option<usize>
    requires whole { length page.now ≡ PAGE_SIZE }
    ensures fault { result ≡ regular_fault page.now }
    ensures within { IfSome result (λ at. at < PAGE_SIZE) }
{
    if page[1] != 0 {
        return Some(1);
    }
    let count = get_u16(page, COUNT);
    if usize::from(count) * SLOT_SIZE > PAGE_ROOM {
        return Some(COUNT);
    }
    if let Some(at) = zeros_fault(&page[4..HEADER]) {
        return Some(4 + at);
    }
    directory_fault(page, count)
}

/// The first field of the slots, or of the zeros behind the directory, whose rule is broken.
fn directory_fault(page: &[u8], count: u16) -> Option<usize>
    requires whole { length page.now ≡ PAGE_SIZE }
    requires room { count * 4 ≤ PAGE_ROOM }
    ensures fault { result ≡ shifted 32 (directory_fault (32 + count * 4) PAGE_SIZE count (drop 32 page.now)) }
    ensures within { IfSome result (λ at. at < PAGE_SIZE) }
{
    let floor = HEADER + usize::from(count) * SLOT_SIZE;
    let mut end = PAGE_SIZE;
    for slot in 0..count {
        let at = HEADER + usize::from(slot) * SLOT_SIZE;
        let offset = usize::from(get_u16(page, at));
        let size = usize::from(get_u16(page, at + LENGTH));
        if let Some(fault) = slot_fault(floor, end, slot + 1 == count, offset, size) {
            return Some(at + fault);
        }
        end -= size;
    }
    let fault = zeros_fault(&page[floor..end])?;
    Some(floor + fault)
}

/// The first field of a slot whose rule is broken, by where its tuple ends.
fn slot_fault(floor: usize, end: usize, last: bool, offset: usize, size: usize) -> Option<usize>
    requires small { offset + size < 2 ^ 32 }
    ensures fault { result ≡ slot_fault floor end last offset size }
    ensures within { IfSome result (λ at. at < 4) }
    ensures room { result ≡ None → floor ≤ end → floor + size ≤ end }
{
    if size == 0 {
        return first_of(fault_unless(offset == 0, 0), fault_unless(!last, LENGTH));
    }
    first_of(
        fault_unless(offset + size == end, 0),
        fault_unless(floor <= offset, LENGTH),
    )
}

/// The place of a field, unless its rule holds.
fn fault_unless(holds: bool, at: usize) -> Option<usize>
    ensures fault { result ≡ fault_unless holds at }
    ensures within { IfSome result (λ place. place ≡ at) }
{
    if holds { None } else { Some(at) }
}

/// The first fault, or the later one where there is none.
fn first_of(first: Option<usize>, later: Option<usize>) -> Option<usize>
    ensures { result ≡ first_of first later }
{
    first.or(later)
}
