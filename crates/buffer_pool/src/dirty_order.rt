//! The dirty pages in order of their numbers.

ghost use Rattle.std.specs.Prelude.{◌≡◌, ◌≢◌, ◌<◌, ◌≤◌, ◌^◌, ℕ, Option, Some, None, true, false, length, replicate, is_some, slice_index, IfOk, IfSome, if◌then◌else◌};
ghost use Rattle.std.specs.List.{Contains};
ghost use Rattle.buffer_pool.specs.InOrder.{IsAhead, IsInOrder, page_number};
ghost use Rattle.buffer_pool.specs.LowestDirty.{IsLowestDirty, dirty_page, logged_page};
ghost use Rattle.buffer_pool.specs.Slots.{AreApart, is_dirty, slot_at};
ghost use Rattle.buffer_pool.specs.Table.{AreInBuckets};

use crate::buckets::Buckets;
use crate::held::Held;
use crate::lookup::frame_of;
use block_model::NoMemory;
use std::alloc::Global;
use std::boxed::BoxedSlice;
use std::marker::Model;

/// The pages that were dirty when they were last put in order, and how far a walk has come. It needs no new order as long as it
/// goes up and no other page gets dirty.
#[derive(Debug, Drop)]
pub(crate) struct DirtyOrder {
    /// The first `count` are those pages.
    pages: BoxedSlice<u64>,
    count: u32,
    /// How many of them are passed.
    next: u32,
    /// The pages from that number on are in order. `None` where they aren't.
    from: Option<u64>,
}

impl Model for DirtyOrder {
    ghost use Rattle.std.specs.Prelude.{◌≤◌, length};
    ghost use Rattle.std.specs.Box.{boxed_slice_items};
    ghost use Rattle.buffer_pool.specs.InOrder.{Walk};

    ghost Value = { Walk };

    ghost view = { λ a. record { pages = boxed_slice_items a.pages; count = a.count; next = a.next; from = a.from } };

    ghost invariant = { λ a. a.count ≤ length (boxed_slice_items a.pages) };
}

impl DirtyOrder {
    /// Room for so many pages, of which none is dirty. `Err` is want of memory.
    pub fn new(alloc: Global, frames: u32) -> Result<DirtyOrder, NoMemory>
        ensures { IfOk result (λ order. order ≡ record { pages = replicate frames 0; count = 0; next = 0; from = None }) }
    {
        let pages = vec![in alloc; 0u64; frames as usize]?;
        Ok(DirtyOrder {
            pages: pages.into_boxed_slice(),
            count: 0,
            next: 0,
            from: None,
        })
    }

    /// A page is held that waits for the log change of that number, or a clean one.
    pub fn after_put(&mut self, log: Option<u64>)
        ensures { self.new ≡ record self.old { from = (if is_some log then None else self.old.from) } }
    {
        self.from = kept(self.from, log);
    }

    /// The pages of these frames from that number on are in order.
    pub fn prepare(&mut self, slots: &[Option<Held>], frames: &[u32], from: u64)
        requires order { IsInOrder slots.now self.old }
        requires room { length frames.now ≤ length self.old.pages }
        requires frames { (s : ℕ) → s < length frames.now → slice_index frames.now s < length slots.now }
        requires small { length frames.now < 2 ^ 32 }
        requires all { (k : ℕ) → is_dirty (slot_at slots.now k) ≡ true → Contains frames.now k }
        ensures order { IsInOrder slots.now self.new }
        ensures room { length self.new.pages ≡ length self.old.pages }
        ensures from { self.new.from ≡ Some from }
    {
        if reaches(self.from, from) {
            self.from = Some(from);
            return;
        }
        let pages = self.pages.as_mut_slice();
        self.count = refill(pages, slots, frames, from);
        self.next = 0;
        self.from = Some(from);
    }

    /// The lowest dirty page from that number on. Those below it are passed.
    pub fn skip(
        &mut self,
        slots: &[Option<Held>],
        buckets: &Buckets,
        mask: u32,
        from: u64,
    ) -> Option<u64>
        requires order { IsInOrder slots.now self.old }
        requires from { self.old.from ≡ Some from }
        requires apart { AreApart slots.now }
        requires buckets { AreInBuckets slots.now buckets.now mask }
        ensures lowest { IsLowestDirty slots.now from (length slots.now) result }
        ensures order { IsInOrder slots.now self.new }
        ensures room { length self.new.pages ≡ length self.old.pages }
    {
        let pages = self.pages.as_slice();
        let next = first_dirty(pages, self.next, self.count, slots, buckets, mask, from);
        self.next = next;
        if next < self.count {
            return Some(pages[next as usize]);
        }
        None
    }
}

/// From which number on the pages are in order still, after a page was held.
fn kept(from: Option<u64>, log: Option<u64>) -> Option<u64>
    ensures { result ≡ (if is_some log then None else from) }
{
    match log {
        Some(_) => None,
        None => from,
    }
}

/// Whether the pages from a number on are among those from a known one on.
fn reaches(known: Option<u64>, from: u64) -> bool
    ensures { result ≡ true → (low : ℕ) × (known ≡ Some low) × (low ≤ from) }
{
    match known {
        Some(low) => low <= from,
        None => false,
    }
}

/// The first of these pages that is dirty and has that number or a higher one, or the end.
fn first_dirty(
    pages: &[u64],
    next: u32,
    end: u32,
    slots: &[Option<Held>],
    buckets: &Buckets,
    mask: u32,
    from: u64,
) -> u32
    requires apart { AreApart slots.now }
    requires buckets { AreInBuckets slots.now buckets.now mask }
    requires end { end ≤ length pages.now }
    ensures passed { (s k : ℕ) → next ≤ s → s < result → dirty_page from (slot_at slots.now k) ≢ Some (slice_index pages.now s) }
    ensures found { result < end → (k : ℕ) × (dirty_page from (slot_at slots.now k) ≡ Some (slice_index pages.now result)) }
{
    'pages: for at in next..end {
        if is_dirty_page(pages[at as usize], slots, buckets, mask, from) {
            return at;
        }
    }
    end
}

/// Whether the page is dirty and has that number or a higher one.
fn is_dirty_page(page: u64, slots: &[Option<Held>], buckets: &Buckets, mask: u32, from: u64) -> bool
    requires apart { AreApart slots.now }
    requires buckets { AreInBuckets slots.now buckets.now mask }
    ensures found { result ≡ true → (k : ℕ) × (dirty_page from (slot_at slots.now k) ≡ Some page) }
    ensures none { result ≡ false → (k : ℕ) → dirty_page from (slot_at slots.now k) ≢ Some page }
{
    let Some(frame) = frame_of(buckets, slots, mask, page) else {
        return false;
    };
    dirty_page(&slots[frame as usize], from).is_some()
}

/// Puts the pages of these frames in order, as the first ones, and tells how many there are.
fn refill(pages: &mut [u64], slots: &[Option<Held>], frames: &[u32], from: u64) -> u32
    requires room { length frames.now ≤ length pages.old }
    requires frames { (s : ℕ) → s < length frames.now → slice_index frames.now s < length slots.now }
    requires small { length frames.now < 2 ^ 32 }
    requires all { (k : ℕ) → is_dirty (slot_at slots.now k) ≡ true → Contains frames.now k }
    ensures order { IsInOrder slots.now (record { pages = pages.new; count = result; next = 0; from = Some from }) }
    ensures within { result ≤ length pages.new }
{
    // The number is for the contract alone.
    let _ = from;
    put_in_order(&mut pages[..frames.len()], slots, frames);
    frames.len() as u32
}

/// Puts the pages of these frames in order.
fn put_in_order(pages: &mut [u64], slots: &[Option<Held>], frames: &[u32])
    requires long { length pages.old ≡ length frames.now }
    requires frames { (s : ℕ) → s < length frames.now → slice_index frames.now s < length slots.now }
    ensures rising { (i j : ℕ) → i ≤ j → j < length pages.new → slice_index pages.new i ≤ slice_index pages.new j }
    ensures all { (s : ℕ) → s < length frames.now → Contains pages.new (page_number (slot_at slots.now (slice_index frames.now s))) }
{
    fill(pages, slots, frames);
    pages.sort_unstable();
}

/// Writes the page of each of these frames.
fn fill(pages: &mut [u64], slots: &[Option<Held>], frames: &[u32])
    requires long { length pages.old ≡ length frames.now }
    requires frames { (s : ℕ) → s < length frames.now → slice_index frames.now s < length slots.now }
    ensures { (s : ℕ) → s < length frames.now → slice_index pages.new s ≡ page_number (slot_at slots.now (slice_index frames.now s)) }
{
    'frames: for at in 0..frames.len() {
        pages[at] = page_number(&slots[frames[at] as usize]);
    }
}

/// The number of the page in a frame.
fn page_number(slot: &Option<Held>) -> u64
    ensures { result ≡ page_number slot.now }
{
    match slot {
        Some(held) => held.page,
        None => 0,
    }
}

/// The page that the frame holds, where it is dirty and has that number or a higher one.
fn dirty_page(slot: &Option<Held>, from: u64) -> Option<u64>
    ensures { result ≡ dirty_page from slot.now }
{
    match slot {
        Some(held) => logged_page(held.log, held.page, from),
        None => None,
    }
}

fn logged_page(log: Option<u64>, page: u64, from: u64) -> Option<u64>
    ensures { result ≡ logged_page from log page }
{
    match log {
        Some(_) => { if from <= page { Some(page) } else { None } }
        None => None,
    }
}
