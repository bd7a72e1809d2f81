//! The hands that choose a frame.

ghost use Rattle.std.specs.Prelude.{◌≡◌, ◌<◌, ◌≤◌, ◌^◌, ℕ, Option, None, true, false, length, replicate, set, is_some, slice_index, IfOk, IfSome, IfNone};
ghost use Rattle.std.specs.List.{Contains};
ghost use Rattle.buffer_pool.specs.declared.held.Wanted.TheVariants as wanted;
ghost use Rattle.buffer_pool.specs.Rings.{IsIn, Standing, standing_of};
ghost use Rattle.buffer_pool.specs.Slots.{is_dirty, log_suits, slot_at, suits};

use crate::held::{Held, Wanted};
use crate::ring::Ring;
use crate::uses::Uses;
use block_model::NoMemory;
use std::alloc::Global;
use std::marker::Model;

/// A ring of the frames that hold a clean page, and one of those that hold a dirty one.
#[derive(Debug, Drop)]
pub(crate) struct Clock {
    clean: Ring,
    dirty: Ring,
}

impl Model for Clock {
    ghost use Rattle.buffer_pool.specs.Rings.{Standing};

    ghost Value = { Standing };

    ghost view = { λ a. record { clean = a.clean; dirty = a.dirty } };
}

impl Clock {
    /// No frame holds a page. `Err` is want of memory.
    pub fn new(alloc: Global, frames: u32) -> Result<Clock, NoMemory>
        ensures { IfOk result (λ clock. clock ≡ record { clean = replicate frames false; dirty = replicate frames false }) }
    {
        let clean = Ring::new(alloc, frames)?;
        let dirty = Ring::new(alloc, frames)?;
        Ok(Clock { clean, dirty })
    }

    /// The frame holds a page that waits for the log change of that number, or a clean one.
    pub fn place(&mut self, frame: u32, log: Option<u64>)
        requires clean { frame < length self.old.clean }
        requires dirty { frame < length self.old.dirty }
        ensures { self.new ≡ record { clean = set self.old.clean frame (log_suits wanted.Clean log); dirty = set self.old.dirty frame (is_some log) } }
    {
        match log {
            Some(_) => {
                self.clean.leave(frame);
                self.dirty.join(frame);
            }
            None => {
                self.dirty.leave(frame);
                self.clean.join(frame);
            }
        }
    }

    /// A frame whose page is wanted, or nothing where there is none. Only frames of the one ring that may have such are looked
    /// at.
    pub fn choose(&mut self, uses: &mut Uses, slots: &[Option<Held>], wanted: Wanted) -> Option<u32>
        requires rings { self.old ≡ standing_of slots.now }
        requires uses { uses.old ≡ length slots.now }
        ensures same { self.new ≡ self.old }
        ensures uses { uses.new ≡ uses.old }
        ensures found { IfSome result (λ frame. frame < length slots.now) }
        ensures suits { IfSome result (λ frame. suits wanted (slot_at slots.now frame) ≡ true) }
        ensures none { IfNone result ((k : ℕ) → k < length slots.now → suits wanted (slot_at slots.now k) ≡ false) }
    {
        match wanted {
            Wanted::Clean => self.clean.choose(uses, slots, wanted),
            Wanted::Cleanable { durable: _ } => self.dirty.choose(uses, slots, wanted),
        }
    }

    /// The frames that hold a dirty page.
    pub fn dirty_frames(&self) -> &[u32]
        ensures within { length result.now ≤ length self.now.dirty }
        ensures frames { (s : ℕ) → s < length result.now → slice_index result.now s < length self.now.dirty }
        ensures all { (k : ℕ) → k < length self.now.dirty → IsIn self.now.dirty k → Contains result.now k }
    {
        self.dirty.members()
    }
}
