//! A ring of frames.

ghost use Rattle.std.specs.Prelude.{◌≡◌, ◌≢◌, ◌<◌, ◌≤◌, ◌+◌, ◌^◌, ℕ, true, false, length, replicate, set, slice_index, slice_index_or, IfOk, IfSome, IfNone};
ghost use Rattle.std.specs.Box.{boxed_slice_items};
ghost use Rattle.std.specs.List.{Contains};
ghost use Rattle.buffer_pool.specs.Rings.{ArePaired, IsIn, IsRing};
ghost use Rattle.buffer_pool.specs.Slots.{slot_at, suits};

use crate::held::{Held, Wanted, suits};
use crate::uses::Uses;
use block_model::NoMemory;
use std::alloc::Global;
use std::boxed::BoxedSlice;
use std::marker::Model;

/// Some of the frames, and a hand that goes round them. Seen as whether each frame is one of them.
#[derive(Debug, Drop)]
pub(crate) struct Ring {
    marks: BoxedSlice<bool>,
    /// The frame in each seat. Those of the ring sit in the first `count`.
    members: BoxedSlice<u32>,
    /// The seat of each frame.
    seats: BoxedSlice<u32>,
    count: u32,
    /// The seat at which the hand is.
    hand: u32,
}

impl Model for Ring {
    ghost use Rattle.std.specs.Prelude.{Bool, List};
    ghost use Rattle.std.specs.Box.{boxed_slice_items};
    ghost use Rattle.buffer_pool.specs.Rings.{IsRing};

    ghost Value = { List Bool };

    ghost view = { λ a. boxed_slice_items a.marks };

    ghost invariant = { λ a. IsRing (boxed_slice_items a.marks) (boxed_slice_items a.members) (boxed_slice_items a.seats) a.count };
}

impl Ring {
    /// No frame stands in it. `Err` is want of memory.
    pub fn new(alloc: Global, frames: u32) -> Result<Ring, NoMemory>
        ensures { IfOk result (λ ring. ring ≡ replicate frames false) }
    {
        let marks = vec![in alloc; false; frames as usize]?;
        let members = row(alloc, frames)?;
        let seats = row(alloc, frames)?;
        Ok(Ring {
            marks: marks.into_boxed_slice(),
            members,
            seats,
            count: 0,
            hand: 0,
        })
    }

    /// Puts the frame into the ring, where it doesn't stand in it already.
    #[inline]
    pub fn join(&mut self, frame: u32)
        requires { frame < length self.old }
        ensures { self.new ≡ set self.old frame true }
    {
        let marks = self.marks.as_mut_slice();
        let members = self.members.as_mut_slice();
        let seats = self.seats.as_mut_slice();
        self.count = join(marks, members, seats, self.count, frame);
    }

    /// Takes the frame out of the ring, where it stands in it.
    #[inline]
    pub fn leave(&mut self, frame: u32)
        requires { frame < length self.old }
        ensures { self.new ≡ set self.old frame false }
    {
        let marks = self.marks.as_mut_slice();
        let members = self.members.as_mut_slice();
        let seats = self.seats.as_mut_slice();
        self.count = leave(marks, members, seats, self.count, frame);
    }

    /// The frames of the ring.
    pub fn members(&self) -> &[u32]
        ensures within { length result.now ≤ length self.now }
        ensures frames { (s : ℕ) → s < length result.now → slice_index result.now s < length self.now }
        ensures all { (k : ℕ) → k < length self.now → IsIn self.now k → Contains result.now k }
    {
        let members = self.members.as_slice();
        &members[..self.count as usize]
    }

    /// A frame of the ring that suits, or nothing where there is none. The hand goes round once and passes each such frame that
    /// was used, which then counts as not used; where every one was, it takes the next one. It stays at the frame.
    pub fn choose(&mut self, uses: &mut Uses, slots: &[Option<Held>], wanted: Wanted) -> Option<u32>
        requires uses { uses.old ≡ length self.old }
        requires slots { length slots.now ≡ length self.old }
        ensures same { self.new ≡ self.old }
        ensures uses { uses.new ≡ uses.old }
        ensures found { IfSome result (λ frame. frame < length self.old) }
        ensures suits { IfSome result (λ frame. suits wanted (slot_at slots.now frame) ≡ true) }
        ensures none { IfNone result ((k : ℕ) → k < length self.old → IsIn self.old k → suits wanted (slot_at slots.now k) ≡ false) }
    {
        let members = self.members.as_slice();
        let seat = sweep(members, self.count, uses, slots, wanted, self.hand)?;
        self.hand = seat;
        Some(members[seat as usize])
    }
}

/// The seat of a frame that suits, by one round from the hand on over so many seats.
fn sweep(
    members: &[u32],
    count: u32,
    uses: &mut Uses,
    slots: &[Option<Held>],
    wanted: Wanted,
    hand: u32,
) -> Option<u32>
    requires uses { uses.old ≡ length slots.now }
    requires frames { (s : ℕ) → s < length members.now → slice_index members.now s < length slots.now }
    requires count { count ≤ length members.now }
    ensures uses { uses.new ≡ uses.old }
    ensures found { IfSome result (λ seat. seat < count) }
    ensures suits { IfSome result (λ seat. suits wanted (slot_at slots.now (slice_index members.now seat)) ≡ true) }
    ensures none { IfNone result ((s : ℕ) → s < count → suits wanted (slot_at slots.now (slice_index members.now s)) ≡ false) }
{
    let hand = hand.min(count);
    if let Some(seat) = unused(members, uses, slots, wanted, hand, count) {
        return Some(seat);
    }
    if let Some(seat) = unused(members, uses, slots, wanted, 0, hand) {
        return Some(seat);
    }
    if let Some(seat) = suitable(members, slots, wanted, hand, count) {
        return Some(seat);
    }
    suitable(members, slots, wanted, 0, hand)
}

/// The first of the seats whose frame suits and wasn't used. Frames that suit and were used count as not used.
fn unused(
    members: &[u32],
    uses: &mut Uses,
    slots: &[Option<Held>],
    wanted: Wanted,
    from: u32,
    to: u32,
) -> Option<u32>
    requires uses { uses.old ≡ length slots.now }
    requires frames { (s : ℕ) → s < length members.now → slice_index members.now s < length slots.now }
    requires within { to ≤ length members.now }
    ensures uses { uses.new ≡ uses.old }
    ensures found { IfSome result (λ seat. seat < to) }
    ensures suits { IfSome result (λ seat. suits wanted (slot_at slots.now (slice_index members.now seat)) ≡ true) }
{
    'seats: for seat in from..to {
        let frame = members[seat as usize];
        if suits(&slots[frame as usize], wanted) {
            if !uses.pass(frame) {
                return Some(seat);
            }
        }
    }
    None
}

/// The first of the seats whose frame suits.
fn suitable(
    members: &[u32],
    slots: &[Option<Held>],
    wanted: Wanted,
    from: u32,
    to: u32,
) -> Option<u32>
    requires frames { (s : ℕ) → s < length members.now → slice_index members.now s < length slots.now }
    requires within { to ≤ length members.now }
    ensures found { IfSome result (λ seat. seat < to) }
    ensures suits { IfSome result (λ seat. suits wanted (slot_at slots.now (slice_index members.now seat)) ≡ true) }
    ensures none { IfNone result ((s : ℕ) → from ≤ s → s < to → suits wanted (slot_at slots.now (slice_index members.now s)) ≡ false) }
{
    'seats: for seat in from..to {
        if suits(&slots[members[seat as usize] as usize], wanted) {
            return Some(seat);
        }
    }
    None
}

/// Puts the frame into the seat behind the ring's last one, and tells how many stand in it then.
fn join(marks: &mut [bool], members: &mut [u32], seats: &mut [u32], count: u32, frame: u32) -> u32
    requires ring { IsRing marks.old members.old seats.old count }
    requires frame { frame < length marks.old }
    ensures marks { marks.new ≡ set marks.old frame true }
    ensures ring { IsRing marks.new members.new seats.new result }
{
    if marks[frame as usize] {
        return count;
    }
    exchange(members, seats, frame, count);
    marks[frame as usize] = true;
    count + 1
}

/// Puts the frame into the ring's last seat, and tells how many stand in it without that one.
fn leave(marks: &mut [bool], members: &mut [u32], seats: &mut [u32], count: u32, frame: u32) -> u32
    requires ring { IsRing marks.old members.old seats.old count }
    requires frame { frame < length marks.old }
    ensures marks { marks.new ≡ set marks.old frame false }
    ensures ring { IsRing marks.new members.new seats.new result }
{
    if !marks[frame as usize] {
        return count;
    }
    let last = count - 1;
    exchange(members, seats, frame, last);
    marks[frame as usize] = false;
    last
}

/// Puts the frame into that seat, and the one that sat there into its own.
#[inline(never)]
fn exchange(members: &mut [u32], seats: &mut [u32], frame: u32, seat: u32)
    requires paired { ArePaired (length members.old) members.old seats.old }
    requires frame { frame < length members.old }
    requires seat { seat < length members.old }
    ensures paired { ArePaired (length members.old) members.new seats.new }
    ensures here { slice_index seats.new frame ≡ seat }
    ensures there { slice_index seats.new (slice_index members.old seat) ≡ slice_index seats.old frame }
    ensures others { (k : ℕ) → k ≢ frame → k ≢ slice_index members.old seat → slice_index seats.new k ≡ slice_index seats.old k }
{
    let own = seats[frame as usize];
    let other = members[seat as usize];
    members[own as usize] = other;
    members[seat as usize] = frame;
    seats[other as usize] = own;
    seats[frame as usize] = seat;
}

/// The numbers from 0 on. `Err` is want of memory.
fn row(alloc: Global, frames: u32) -> Result<BoxedSlice<u32>, NoMemory>
    ensures long { IfOk result (λ row. length (boxed_slice_items row) ≡ frames) }
    ensures own { IfOk result (λ row. (k : ℕ) → k < frames → slice_index (boxed_slice_items row) k ≡ k) }
{
    let mut row = Vec::with_capacity(alloc, frames as usize)?;
    'frames: for frame in 0..frames {
        row.push(frame)?;
    }
    Ok(row.into_boxed_slice())
}
