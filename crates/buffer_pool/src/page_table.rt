//! Which page stands in which frame.

ghost use Rattle.std.specs.Prelude.{◌≡◌, ◌≢◌, ◌<◌, ◌≤◌, ◌^◌, ℕ, true, false, None, Some, length, replicate, set, IfOk, IfSome, IfNone};
ghost use Rattle.std.specs.Box.{boxed_slice_items};
ghost use Rattle.buffer_pool.specs.declared.held.Wanted.TheVariants as wanted;
ghost use Rattle.buffer_pool.specs.Slots.{AreApart, IsAbsent, page_at, slot_at, suits};
ghost use Rattle.buffer_pool.specs.LowestDirty.{IsLowestDirty};

use crate::buckets::Buckets;
use crate::clock::Clock;
use crate::dirty_order::DirtyOrder;
use crate::held::{Held, Wanted, holds, suits};
use crate::lookup::{bucket, frame_of, mask_for};
use crate::uses::Uses;
use block_model::NoMemory;
use std::alloc::Global;
use std::boxed::BoxedSlice;
use std::marker::Model;

/// What each frame holds. A page is found through the bucket of its number.
#[derive(Debug, Drop)]
pub(crate) struct PageTable {
    slots: BoxedSlice<Option<Held>>,
    buckets: Buckets,
    /// One less than the number of buckets of pages, a power of two. Frames that hold nothing stand in a bucket of their own.
    mask: u32,
    clock: Clock,
    order: DirtyOrder,
}

impl Model for PageTable {
    ghost use Rattle.std.specs.Prelude.{List, Option};
    ghost use Rattle.std.specs.Box.{boxed_slice_items};
    ghost use Rattle.buffer_pool.specs.declared.held.Held.{Held as HeldPage};
    ghost use Rattle.buffer_pool.specs.Table.{IsTable};

    ghost Value = { List (Option HeldPage) };

    ghost view = { λ a. boxed_slice_items a.slots };

    ghost invariant = { λ a. IsTable (boxed_slice_items a.slots) a.buckets a.mask a.clock a.order };
}

impl PageTable {
    /// No frame holds a page. `Err` is want of memory.
    pub fn new(alloc: Global, frames: u32) -> Result<PageTable, NoMemory>
        ensures { IfOk result (λ table. table ≡ replicate frames None) }
    {
        let mask = mask_for(frames);
        let slots = empty_slots(alloc, frames)?;
        let buckets = Buckets::new(alloc, frames, mask + 1)?;
        let clock = Clock::new(alloc, frames)?;
        let order = DirtyOrder::new(alloc, frames)?;
        Ok(PageTable {
            slots,
            buckets,
            mask,
            clock,
            order,
        })
    }

    /// How many frames there are.
    pub fn frames(&self) -> u32
        ensures { result ≡ length self.now }
    {
        self.slots.len() as u32
    }

    /// Does nothing; tells its caller that no page is held twice.
    pub fn known(&self)
        ensures apart { AreApart self.now }
        ensures small { length self.now < 2 ^ 32 }
    {
        // Reads a field, so that the table is opened.
        let _ = &self.slots;
    }

    /// The frame that holds the page.
    pub fn frame_of(&self, page: u64) -> Option<u32>
        ensures within { IfSome result (λ frame. frame < length self.now) }
        ensures found { IfSome result (λ frame. page_at self.now frame ≡ Some page) }
        ensures absent { IfNone result (IsAbsent self.now page) }
    {
        frame_of(&self.buckets, self.slots.as_slice(), self.mask, page)
    }

    /// The frame that holds the page, where that one may well be it.
    #[inline(always)]
    pub fn frame_near(&self, guess: u32, page: u64) -> Option<u32>
        ensures within { IfSome result (λ frame. frame < length self.now) }
        ensures found { IfSome result (λ frame. page_at self.now frame ≡ Some page) }
        ensures absent { IfNone result (IsAbsent self.now page) }
    {
        if guess < self.frames() {
            if holds(&self.slots[guess as usize], page) {
                return Some(guess);
            }
        }
        self.frame_of(page)
    }

    /// A frame that holds nothing.
    pub fn empty(&self) -> Option<u32>
        ensures within { IfSome result (λ frame. frame < length self.now) }
        ensures found { IfSome result (λ frame. page_at self.now frame ≡ None) }
        ensures full { IfNone result ((k : ℕ) → k < length self.now → page_at self.now k ≢ None) }
    {
        match self.buckets.first(self.mask + 1) {
            0 => None,
            next => Some(next - 1),
        }
    }

    /// A frame whose page is wanted, or nothing where there is none.
    pub fn choose(&mut self, uses: &mut Uses, wanted: Wanted) -> Option<u32>
        requires { uses.old ≡ length self.old }
        ensures same { self.new ≡ self.old }
        ensures uses { uses.new ≡ uses.old }
        ensures found { IfSome result (λ frame. frame < length self.old) }
        ensures suits { IfSome result (λ frame. suits wanted (slot_at self.old frame) ≡ true) }
        ensures none { IfNone result ((k : ℕ) → k < length self.old → suits wanted (slot_at self.old k) ≡ false) }
    {
        self.clock.choose(uses, self.slots.as_slice(), wanted)
    }

    /// The frame that holds the page, where it is dirty and its log change's number is at most `durable`.
    pub fn cleanable(&self, page: u64, durable: u64) -> Option<u32>
        ensures within { IfSome result (λ frame. frame < length self.now) }
        ensures found { IfSome result (λ frame. page_at self.now frame ≡ Some page) }
        ensures suits { IfSome result (λ frame. suits (wanted.Cleanable durable) (slot_at self.now frame) ≡ true) }
        ensures none { IfNone result ((k : ℕ) → page_at self.now k ≡ Some page → suits (wanted.Cleanable durable) (slot_at self.now k) ≡ false) }
    {
        let frame = self.frame_of(page)?;
        if suits(&self.slots[frame as usize], Wanted::Cleanable { durable }) {
            return Some(frame);
        }
        None
    }

    /// What the frame holds.
    pub fn slot(&self, frame: u32) -> Option<Held>
        requires { frame < length self.now }
        ensures { result ≡ slot_at self.now frame }
    {
        self.slots[frame as usize]
    }

    /// The lowest dirty page from that number on.
    pub fn next_dirty(&mut self, from: u64) -> Option<u64>
        ensures same { self.new ≡ self.old }
        ensures lowest { IsLowestDirty self.old from (length self.old) result }
    {
        let slots = self.slots.as_slice();
        self.order.prepare(slots, self.clock.dirty_frames(), from);
        self.order.skip(slots, &self.buckets, self.mask, from)
    }

    /// The frame holds this page, in place of what it held.
    pub fn put(&mut self, frame: u32, held: Held)
        requires frame { frame < length self.old }
        requires apart { (k : ℕ) → page_at self.old k ≡ Some held.page → k ≡ frame }
        ensures { self.new ≡ set self.old frame (Some held) }
    {
        self.buckets.put(frame, bucket(held.page, self.mask));
        self.clock.place(frame, held.log);
        self.order.after_put(held.log);
        self.slots[frame as usize] = Some(held);
    }
}

/// So many frames that hold nothing. `Err` is want of memory.
fn empty_slots(alloc: Global, frames: u32) -> Result<BoxedSlice<Option<Held>>, NoMemory>
    ensures { IfOk result (λ slots. boxed_slice_items slots ≡ replicate frames None) }
{
    let slots = vec![in alloc; None; frames as usize]?;
    Ok(slots.into_boxed_slice())
}
