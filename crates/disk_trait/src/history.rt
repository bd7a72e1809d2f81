//! The record of a disk's writes and syncs.

ghost use Rattle.std.specs.Prelude.{◌≡◌, ◌↔◌, ◌+◌, ◌<◌, [], length, IsTrue, OnOk, OnErr};
ghost use Rattle.disk_trait.specs.Recorded.{RecordHasRoom, with_room, with_write, with_sync};
ghost use Rattle.disk_trait.specs.AreWithin.{AreWithin};
ghost use Rattle.disk_trait.specs.Undone.{undone};
ghost use Rattle.disk_trait.specs.Noted.{events_onto, replaced_count};

use crate::bytes::overwrite;
use block_model::NoMemory;
use std::alloc::Global;
use std::marker::Model;

/// A write at an offset, of so many bytes, or a sync that succeeded.
#[derive(Clone, Copy, Debug)]
pub(crate) enum Call {
    Wrote { at: u64, count: usize },
    Synced,
}

/// The calls in their order and the bytes that the writes replaced, one write after another, in room that was taken before.
#[derive(Debug, Drop)]
pub(crate) struct History {
    calls: Vec<Call>,
    replaced: Vec<u8>,
    calls_left: usize,
    bytes_left: usize,
}

impl Model for History {
    ghost use Rattle.std.specs.Prelude.{[]};
    ghost use Rattle.disk_trait.specs.Recorded.{Recorded};

    ghost Value = { Recorded };

    ghost use Rattle.disk_trait.specs.Noted.{events_onto};
    ghost use Rattle.disk_trait.specs.IsNoted.{IsNoted};

    ghost view = { λ h. record { events = events_onto [] h.calls.items h.replaced.items; calls_left = h.calls_left; bytes_left = h.bytes_left } };

    ghost invariant = { IsNoted };
}

impl History {
    /// Nothing so far, and no room.
    pub fn new(alloc: Global) -> History
        ensures { result ≡ record { events = []; calls_left = 0; bytes_left = 0 } }
    {
        History {
            calls: Vec::new(alloc),
            replaced: Vec::new(alloc),
            calls_left: 0,
            bytes_left: 0,
        }
    }

    /// Takes room for so many calls more, and for so many bytes more that they replace. After a refusal nothing is changed.
    pub fn room(&mut self, calls: u64, bytes: u64) -> Result<(), NoMemory>
        ensures ok { OnOk result (self.new ≡ with_room self.old calls bytes) }
        ensures err { OnErr result (self.new ≡ self.old) }
    {
        let Some(calls_left) = self.calls_left.checked_add(calls as usize) else {
            return Err(NoMemory);
        };
        let Some(bytes_left) = self.bytes_left.checked_add(bytes as usize) else {
            return Err(NoMemory);
        };
        self.calls.reserve_exact(calls_left)?;
        self.replaced.reserve_exact(bytes_left)?;
        self.calls_left = calls_left;
        self.bytes_left = bytes_left;
        Ok(())
    }

    /// Whether there is room for a call that replaces so many bytes.
    pub fn has_room(&self, count: usize) -> bool
        ensures { IsTrue result ↔ RecordHasRoom self.now count }
    {
        self.calls_left > 0 && self.bytes_left >= count
    }

    /// Records a write at an offset that replaced these bytes.
    pub fn note_write(&mut self, at: u64, replaced: &[u8])
        requires { RecordHasRoom self.old (length replaced.now) }
        ensures { self.new ≡ with_write self.old at replaced.now }
    {
        let count = replaced.len();
        let Ok(()) = self.calls.push(Call::Wrote { at, count }) else {
            unreachable!()
        };
        let Ok(()) = self.replaced.extend_from_slice(replaced) else {
            unreachable!()
        };
        self.calls_left -= 1;
        self.bytes_left -= count;
    }

    /// Records a sync that succeeded.
    pub fn note_sync(&mut self)
        requires { RecordHasRoom self.old 0 }
        ensures { self.new ≡ with_sync self.old }
    {
        let Ok(()) = self.calls.push(Call::Synced) else {
            unreachable!()
        };
        self.calls_left -= 1;
    }

    /// Puts back what the writes since the last sync replaced.
    pub fn undo(&self, image: &mut Vec<u8>)
        requires { AreWithin (length image.old.items) self.now.events }
        ensures { image.new.items ≡ undone image.old.items self.now.events }
    {
        put_back(self.calls.as_slice(), self.replaced.as_slice(), image);
    }
}

/// Puts back what the writes since the last sync replaced, the newest first.
fn put_back(calls: &[Call], replaced: &[u8], image: &mut Vec<u8>)
    requires whole { replaced_count calls.now ≡ length replaced.now }
    requires within { AreWithin (length image.old.items) (events_onto [] calls.now replaced.now) }
    ensures { image.new.items ≡ undone image.old.items (events_onto [] calls.now replaced.now) }
{
    let mut left = calls;
    let mut kept = replaced;
    'writes: while let Some((call, earlier)) = left.split_last() {
        let Call::Wrote { at, count } = *call else {
            return;
        };
        let (before, bytes) = kept.split_at(kept.len() - count);
        overwrite(image, at as usize, bytes);
        left = earlier;
        kept = before;
    }
}
