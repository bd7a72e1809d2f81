//! The buffer of changes.

ghost use Rattle.std.specs.Prelude.{◌≡◌, ◌≤◌, ◌<◌, ◌+◌, ◌*◌, ◌++◌, [], length, take, true, false, IfOk};
ghost use Rattle.wal_record.specs.Changes.{HasSizes, IsChange, logged};
ghost use Rattle.wal_record.specs.ChangeBytes.{bytes_of};
ghost use Rattle.wal_record.specs.Waiting.{no_changes, with_change};
ghost use Rattle.wal_record.specs.declared.buffer.TheConstants.{BUFFER_SIZE};

use crate::{Change, encode};
use block_model::NoMemory;
use std::alloc::Global;
use std::boxed::BoxedSlice;
use std::marker::Model;

/// The bytes that a buffer has room for.
pub const BUFFER_SIZE: usize = 65536;

/// Changes that wait, one behind the other.
#[derive(Debug, Drop)]
pub struct ChangeBuffer {
    room: BoxedSlice<u8>,
    used: usize,
    count: u16,
}

impl Model for ChangeBuffer {
    ghost use Rattle.std.specs.Prelude.{◌≡◌, ◌≤◌, ◌*◌, length, take};
    ghost use Rattle.std.specs.Box.{boxed_slice_items};
    ghost use Rattle.wal_record.specs.Waiting.{Waiting};

    ghost Value = { Waiting };

    ghost view = { λ b. record { bytes = take b.used (boxed_slice_items b.room); count = b.count } };

    ghost invariant = { λ b. (length (boxed_slice_items b.room) ≡ 65536) × (b.used ≤ 65536) × (6 * b.count ≤ b.used) };
}

impl ChangeBuffer {
    /// No change waits. All memory is taken here. `Err` is want of memory.
    pub fn new(alloc: Global) -> Result<ChangeBuffer, NoMemory>
        ensures { IfOk result (λ buffer. buffer ≡ no_changes) }
    {
        let room = vec![in alloc; 0u8; BUFFER_SIZE]?;
        Ok(ChangeBuffer {
            room: room.into_boxed_slice(),
            used: 0,
            count: 0,
        })
    }

    /// The change waits behind the others. Takes no memory.
    pub fn add(&mut self, change: &Change<'_>)
        requires sizes { HasSizes (logged change.now) }
        requires room { length self.old.bytes + length (bytes_of (logged change.now)) ≤ BUFFER_SIZE }
        ensures added { self.new ≡ with_change self.old (logged change.now) }
        // So its bytes tell it again.
        ensures change { IsChange (logged change.now) }
    {
        let room = self.room.as_mut_slice();
        self.used = put(room, self.used, change);
        self.count += 1;
    }

    /// The bytes of the changes, in the order in which they came.
    pub fn bytes(&self) -> &[u8]
        ensures bytes { result.now ≡ self.now.bytes }
        ensures few { length result.now ≤ BUFFER_SIZE }
    {
        &self.room.as_slice()[..self.used]
    }

    /// How many bytes wait.
    pub fn len(&self) -> usize
        ensures bytes { result ≡ length self.now.bytes }
        ensures few { result ≤ BUFFER_SIZE }
    {
        self.used
    }

    /// Whether no change waits.
    pub fn is_empty(&self) -> bool
        ensures empty { result ≡ true → self.now ≡ no_changes }
        ensures some { result ≡ false → 0 < length self.now.bytes }
    {
        self.used == 0
    }

    /// How many changes wait.
    pub fn count(&self) -> u16
        ensures count { result ≡ self.now.count }
        ensures few { 6 * result ≤ length self.now.bytes }
    {
        self.count
    }

    /// No change waits any more.
    pub fn clear(&mut self)
        ensures { self.new ≡ no_changes }
    {
        self.used = 0;
        self.count = 0;
    }
}

/// Puts the bytes of the change behind those that are used, and answers how many are used then.
fn put(room: &mut [u8], used: usize, change: &Change<'_>) -> usize
    requires sizes { HasSizes (logged change.now) }
    requires room { used + length (bytes_of (logged change.now)) ≤ length room.old }
    ensures used { result ≡ used + length (bytes_of (logged change.now)) }
    ensures least { used + 6 ≤ result }
    ensures bytes { take result room.new ≡ take used room.old ++ bytes_of (logged change.now) }
    ensures room { length room.new ≡ length room.old }
    ensures change { IsChange (logged change.now) }
{
    used + encode(change, &mut room[used..])
}
