//! A disk in memory that fails where it is told to, and tells what a crash may leave.

ghost use Rattle.std.specs.Prelude.{◌≡◌, ◌↔◌, ◌⊎◌, ◌<◌, ◌≤◌, IsTrue, IfOk, OnOk, OnErr, IsErr};
ghost use Rattle.std.specs.Prelude.{ℕ, ◌+◌, Some, List, [], ◌∷◌, ◌++◌, length, vec_len, take, drop, replicate};
ghost use Rattle.std.specs.Bool.{OnTrue, OnFalse};
ghost use Rattle.block_model.specs.Causes.{HasCause};
ghost use Rattle.disk_trait.specs.Spliced.{spliced};
ghost use Rattle.disk_trait.specs.Torn.{Torn};
ghost use Rattle.disk_trait.specs.Follows.{Follows};
ghost use Rattle.disk_trait.specs.IsStable.{IsStable};
ghost use Rattle.disk_trait.specs.GoesOn.{GoesOn};
ghost use Rattle.disk_trait.specs.Calls.{FailsNext, after_call, first_stop};
ghost use Rattle.disk_trait.specs.Recorded.{RecordHasRoom, RecordLacksRoom, with_room, with_write, with_sync};
ghost use Rattle.disk_trait.specs.Memory.{made_of, written, told_by_memory};
ghost use Rattle.disk_trait.specs.Undone.{undone};
ghost use Rattle.disk_trait.specs.IsStriped.{IsStriped};
ghost use Rattle.disk_trait.specs.CrashImageLaws.{contents_crash_image, length-crash_image, was_crash_image_now, was_crash_image_latest};

use crate::Calls;
use crate::bytes::overwrite;
use crate::disk::{Disk, DiskFault};
use crate::history::History;
use block_model::NoMemory;
use std::alloc::Global;
use std::marker::Model;

/// A disk that records its writes and syncs, and so tells at each moment what a crash may leave. The record needs room, of
/// which a new disk has none; no call of `Disk` takes memory.
#[derive(Debug, Drop)]
pub struct MemoryDisk {
    bytes: Vec<u8>,
    past: History,
    calls: Calls,
}

impl Model for MemoryDisk {
    ghost use Rattle.std.specs.Prelude.{length};
    ghost use Rattle.disk_trait.specs.Memory.{Recording};
    ghost use Rattle.disk_trait.specs.AreWithin.{AreWithin};

    ghost Value = { Recording };

    ghost view = { λ d. record { contents = d.bytes.items; past = d.past; calls = d.calls } };

    ghost invariant = { λ d. AreWithin (length d.bytes.items) d.past.events };
}

impl MemoryDisk {
    /// A disk of so many bytes, each 0. `Err` is want of memory.
    pub fn new(alloc: Global, size: u64) -> Result<MemoryDisk, NoMemory>
        ensures zeros { IfOk result (λ d. d ≡ made_of (replicate size 0)) }
        ensures stable { IfOk result (λ d. IsStable (told_by_memory d)) }
    {
        let bytes = vec![in alloc; 0u8; size as usize]?;
        Ok(MemoryDisk::from_image(bytes))
    }

    /// A disk of these bytes, all of them sure. It takes no memory.
    pub fn from_image(bytes: Vec<u8>) -> MemoryDisk
        ensures bytes { result ≡ made_of bytes.items }
        ensures stable { IsStable (told_by_memory result) }
    {
        let alloc = *bytes.allocator();
        MemoryDisk {
            bytes,
            past: History::new(alloc),
            calls: Calls::new(Vec::new(alloc)),
        }
    }

    /// Lets the call of that number fail. Reads, writes and syncs count, from 1 on since the disk was made. After a refusal
    /// nothing is changed.
    pub fn fail(&mut self, call: u64) -> Result<(), NoMemory>
        ensures ok { OnOk result (self.new ≡ record self.old { calls = record self.old.calls { fails = self.old.calls.fails ++ call ∷ [] } }) }
        ensures err { OnErr result (self.new ≡ self.old) }
    {
        self.calls.fail(call)
    }

    /// Lets the call of that number and all later ones fail. Of several numbers the first counts.
    pub fn stop_at(&mut self, call: u64)
        ensures { self.new ≡ record self.old { calls = record self.old.calls { stop = Some (first_stop self.old.calls.stop call) } } }
    {
        self.calls.stop_at(call);
    }

    /// Takes room for the record of so many calls more, and of so many bytes more that they write. A write takes a call and
    /// its bytes, a sync a call. After a refusal nothing is changed.
    pub fn room(&mut self, calls: u64, bytes: u64) -> Result<(), NoMemory>
        ensures ok { OnOk result (self.new ≡ record self.old { past = with_room self.old.past calls bytes }) }
        ensures err { OnErr result (self.new ≡ self.old) }
    {
        self.past.room(calls, bytes)
    }

    /// One of its images: 0 picks the old bytes of every write since the last sync, 1 the new bytes, and a greater number
    /// stripes of so many bytes of the old and the new ones in turn. `Err` is want of memory.
    pub fn image(&self, pick: u64) -> Result<Vec<u8>, NoMemory>
        ensures image { IfOk result (λ v. IsTrue ((told_by_memory self.now).now v.items)) }
        ensures old { IfOk result (λ v. pick ≡ 0 → v.items ≡ undone self.now.contents self.now.past.events) }
        ensures new { IfOk result (λ v. pick ≡ 1 → v.items ≡ self.now.contents) }
        ensures mixture { IfOk result (λ v. 1 < pick → IsStriped pick (undone self.now.contents self.now.past.events) self.now.contents v.items) }
    {
        let mut image = Vec::from_slice(*self.bytes.allocator(), self.bytes.as_slice())?;
        if pick == 1 {
            return Ok(image);
        }
        self.past.undo(&mut image);
        if pick == 0 {
            return Ok(image);
        }
        stripe(&mut image, self.bytes.as_slice(), pick as usize);
        Ok(image)
    }
}

/// Leaves a stripe of so many bytes as it is, fills the next one with the new bytes, and so on.
fn stripe(mixed: &mut Vec<u8>, new: &[u8], width: usize)
    requires some { 0 < width }
    requires length { vec_len mixed.old ≡ length new.now }
    ensures { IsStriped width mixed.old.items new.now mixed.new.items }
{
    'bytes: for k in 0..new.len() {
        if k / width % 2 != 0 {
            mixed[k] = new[k];
        }
    }
}

/// Writes with a record, where there is room for it.
fn record_write(held: &mut Vec<u8>, past: &mut History, at: u64, bytes: &[u8]) -> bool
    requires { at + length bytes.now ≤ vec_len held.old }
    ensures written { OnTrue result (held.new.items ≡ spliced held.old.items at bytes.now) }
    ensures room { OnTrue result (RecordHasRoom past.old (length bytes.now)) }
    ensures recorded { OnTrue result (past.new ≡ with_write past.old at (take (length bytes.now) (drop at held.old.items))) }
    ensures lacking { OnFalse result (RecordLacksRoom past.old (length bytes.now)) }
    ensures same { OnFalse result ((held.new.items ≡ held.old.items) × (past.new ≡ past.old)) }
{
    if !past.has_room(bytes.len()) {
        return false;
    }
    let from = at as usize;
    past.note_write(at, &held[from..from + bytes.len()]);
    overwrite(held, from, bytes);
    true
}

/// Records a sync, where there is room for it.
fn record_sync(past: &mut History) -> bool
    ensures room { OnTrue result (RecordHasRoom past.old 0) }
    ensures recorded { OnTrue result (past.new ≡ with_sync past.old) }
    ensures lacking { OnFalse result (RecordLacksRoom past.old 0) }
    ensures same { OnFalse result (past.new ≡ past.old) }
{
    if !past.has_room(0) {
        return false;
    }
    past.note_sync();
    true
}

impl Disk for MemoryDisk {
    ghost use Rattle.std.specs.Prelude.{refl};
    ghost use Rattle.disk_trait.specs.Memory.{told_by_memory};
    ghost use Rattle.disk_trait.specs.CrashImageLaws.{contents_crash_image, length-crash_image, was_crash_image_now, was_crash_image_latest};

    ghost told = { told_by_memory };

    ghost contents_fit = { λ d h. refl };

    ghost images_fit = { λ d c h. length-crash_image d.contents d.past.events c h };

    ghost images_need_contents = { λ d c h. refl };

    ghost contents_are_an_image = { λ d h. contents_crash_image d.contents d.past.events };

    ghost now_is_since = { λ d t c le h. was_crash_image_now t d.contents d.past.events c h };

    ghost since_now_is_now = { λ d c h. was_crash_image_latest d.contents d.past.events c h };

    fn size(&self) -> u64 {
        self.bytes.len() as u64
    }

    fn read(&mut self, at: u64, into: &mut [u8]) -> Result<(), DiskFault>
        requires { at + length into.old ≤ (told_by_memory self.old).size }
        ensures bytes { OnOk result (IsTrue (told_by_memory self.old).tells_contents → into.new ≡ take (length into.old) (drop at (told_by_memory self.old).contents)) }
        ensures same { told_by_memory self.new ≡ record (told_by_memory self.old) { faults = (told_by_memory self.new).faults } }
        ensures cause { HasCause (told_by_memory self.old).faults (told_by_memory self.new).faults result }

        // It fails exactly where it is told to.
        ensures fails { IsErr result ↔ FailsNext self.old.calls }
        ensures kept { self.new ≡ record self.old { calls = after_call self.old.calls result } }
    {
        if self.calls.fails_now() {
            self.calls.count_fault();
            return Err(DiskFault);
        }
        let from = at as usize;
        into.copy_from_slice(&self.bytes[from..from + into.len()]);
        Ok(())
    }

    #[tactic(auto, using(crate::specs::TornLaws::torn_spliced))]
    fn write(&mut self, at: u64, bytes: &[u8]) -> Result<(), DiskFault>
        requires { at + length bytes.now ≤ (told_by_memory self.old).size }
        ensures written { OnOk result (IsTrue (told_by_memory self.old).tells_contents → (told_by_memory self.new).contents ≡ spliced (told_by_memory self.old).contents at bytes.now) }
        ensures others { IsTrue (told_by_memory self.old).tells_contents → Torn at (length bytes.now) (told_by_memory self.old).contents (told_by_memory self.new).contents }
        ensures images { Follows (Torn at (length bytes.now)) (told_by_memory self.old) (told_by_memory self.new) }
        ensures moments { GoesOn (told_by_memory self.old) (told_by_memory self.new) }
        ensures cause { HasCause (told_by_memory self.old).faults (told_by_memory self.new).faults result }

        // It fails exactly where it is told to or has no room. With room it is made also where it fails, without room never.
        ensures fails { IsErr result ↔ (FailsNext self.old.calls ⊎ RecordLacksRoom self.old.past (length bytes.now)) }
        ensures made { RecordHasRoom self.old.past (length bytes.now) → self.new ≡ record (written self.old at bytes.now) { calls = after_call self.old.calls result } }
        ensures refused { RecordLacksRoom self.old.past (length bytes.now) → self.new ≡ record self.old { calls = after_call self.old.calls result } }
    {
        let fails = self.calls.fails_now();
        if !record_write(&mut self.bytes, &mut self.past, at, bytes) {
            self.calls.count_fault();
            return Err(DiskFault);
        }
        if fails {
            self.calls.count_fault();
            return Err(DiskFault);
        }
        Ok(())
    }

    fn sync(&mut self) -> Result<(), DiskFault>
        ensures stable { OnOk result (IsStable (told_by_memory self.new)) }
        ensures same { (told_by_memory self.new).contents ≡ (told_by_memory self.old).contents }
        ensures images { (c : List ℕ) → IsTrue ((told_by_memory self.new).now c) → IsTrue ((told_by_memory self.old).now c) }
        ensures moments { GoesOn (told_by_memory self.old) (told_by_memory self.new) }
        ensures cause { HasCause (told_by_memory self.old).faults (told_by_memory self.new).faults result }

        // It fails exactly where it is told to or has no room, and then makes nothing sure.
        ensures fails { IsErr result ↔ (FailsNext self.old.calls ⊎ RecordLacksRoom self.old.past 0) }
        ensures ok { OnOk result (self.new ≡ record self.old { past = with_sync self.old.past; calls = after_call self.old.calls result }) }
        ensures err { OnErr result (self.new ≡ record self.old { calls = after_call self.old.calls result }) }
    {
        let fails = self.calls.fails_now();
        if fails || !record_sync(&mut self.past) {
            self.calls.count_fault();
            return Err(DiskFault);
        }
        Ok(())
    }

    fn faults(&self) -> u64 {
        self.calls.faults()
    }
}
