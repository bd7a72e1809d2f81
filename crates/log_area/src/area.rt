//! The two areas of a log, and the frames of the chosen one.

ghost use Rattle.std.specs.Prelude.{◌≡◌, ◌≤◌, ◌+◌, ◌*◌, ◌^◌, ◌<◌, IsTrue, IfOk, IfErr, OnOk, OnErr, length, slice_index};
ghost use Rattle.block_model.specs.Causes.{HasCause};
ghost use Rattle.disk_trait.specs.Throughout.{Throughout};
ghost use Rattle.disk_trait.specs.Follows.{Follows};
ghost use Rattle.disk_trait.specs.IsStable.{IsStable};
ghost use Rattle.store_layout.specs.DiskLayout.{area_size, disk_size};
ghost use Rattle.log_area.specs.Frames.{LogFrame, row_of};
ghost use Rattle.log_area.specs.Log.{Log, Stands, ComesBy, area_start, areas_end};
ghost use Rattle.log_area.specs.Appended.{Appended, KeptOrAppended, AppendAnswers, grown, left_in};
ghost use Rattle.log_area.specs.Switched.{Switched, KeptOrSwitched, switched};
ghost use Rattle.log_area.specs.Started.{StartCause};

use crate::frame::{CLOSED, HEAD, MOST, publish};
use crate::frames::Frames;
use crate::opening::{AREA_BYTE, Area, LogFault, area_byte, read_frames};
use block_model::PAGE_SIZE;
use disk_trait::{Disk, DiskFault, write_and_sync};
use std::alloc::Global;
use std::marker::Model;
use store_layout::Layout;
use thiserror::Error;

/// Why a frame isn't appended.
#[derive(Clone, Copy, Debug, Eq, Error, PartialEq)]
pub enum AppendFault {
    /// The frame and the next gate need that many bytes, and so many are left. Nothing was done.
    #[error("a frame needs {need} bytes of the log and {left} are left")]
    NoRoom { need: u64, left: u64 },
    #[error("the disk failed")]
    Disk,
}

/// A log that goes on behind the frames of its chosen area.
#[derive(Debug, Drop)]
pub struct LogArea {
    room: u64,
    byte: u8,
    used: u64,
    buffer: Vec<u8>,
}

impl Model for LogArea {
    ghost use Rattle.std.specs.Prelude.{◌≡◌, length};
    ghost use Rattle.log_area.specs.Log.{Log};
    ghost use Rattle.log_area.specs.Kept.{IsLog};

    ghost Value = { Log };

    ghost view = { λ a. record { room = a.room; byte = a.byte; used = a.used } };

    ghost invariant = { λ a. IsLog (record { room = a.room; byte = a.byte; used = a.used }) × (length a.buffer.items ≡ 65543) };
}

/// The byte of the disk at which the area begins that an area byte chooses.
#[tactic(auto, unfolding(crate::specs::Log::area_start))]
fn start_of_area(room: u64, byte: u8) -> u64
    requires { room ≤ 2 ^ 25 }
    ensures { result ≡ area_start room byte }
{
    PAGE_SIZE as u64 + room * u64::from(byte % 2)
}

impl LogArea {
    /// Opens the area that the disk chooses: its frames in order, and the log that goes on behind them. Takes memory for the
    /// frames and for one buffer. `Damaged` where an opened frame leaves the area no byte for the next gate, `Disk` where
    /// the disk failed in this call, `Memory` is want of memory.
    pub fn start<D: Disk>(
        alloc: Global,
        disk: &mut D,
        layout: &Layout,
    ) -> Result<(LogArea, Frames), LogFault>
        requires size { disk_size layout.now ≤ (D.told disk.old).size }
        ensures areas { IfOk result (λ r. (r.0.room ≡ area_size layout.now) × (areas_end r.0.room ≤ disk_size layout.now)) }
        ensures within { IfOk result (λ r. length (row_of r.1) < r.0.room) }
        ensures byte { IfOk result (λ r. IsTrue (D.told disk.old).tells_contents → r.0.byte ≡ slice_index (D.told disk.old).contents 1) }
        ensures stands { IfOk result (λ r. IsTrue (D.told disk.old).tells_contents → Stands r.0 r.1 (D.told disk.old).contents) }
        ensures refused { IfErr result (StartCause (area_size layout.now) (D.told disk.old) (D.told disk.new)) }
        // Only the disk's count of faults may change.
        ensures same { D.told disk.new ≡ record (D.told disk.old) { faults = (D.told disk.new).faults } }
        ensures later { (D.told disk.old).faults ≤ (D.told disk.new).faults }
    {
        layout.known();
        let _size = disk.size();
        let room = layout.area_size();
        let Ok(byte) = area_byte(disk) else {
            return Err(LogFault::Disk);
        };
        let area = Area {
            start: start_of_area(room, byte),
            room: room as usize,
        };
        let (frames, used) = match read_frames(alloc, disk, area) {
            Ok(read) => read,
            Err(fault) => return Err(fault),
        };
        let Ok(buffer) = vec![in alloc; 0u8; MOST + HEAD] else {
            return Err(LogFault::Memory);
        };
        let log = LogArea {
            room,
            byte,
            used: used as u64,
            buffer,
        };
        Ok((log, frames))
    }

    /// How many bytes of the chosen area the frames take.
    pub fn used(&self) -> u64
        ensures used { result ≡ self.now.used }
        ensures within { result < self.now.room }
        ensures small { result < 2 ^ 25 }
    {
        self.used
    }

    /// How many bytes of the chosen area are left for frames, from the closed gate on.
    pub fn left(&self) -> u64
        ensures left { result ≡ left_in self.now }
    {
        self.room - self.used
    }

    /// Appends a frame of these changes: writes it behind the closed gate with a closed gate behind it, syncs, opens the gate
    /// and syncs. Takes no memory. `NoRoom` exactly where it needs more than is left, and then nothing is done; `Disk` where
    /// the disk failed in this call.
    pub fn append<D: Disk>(
        &mut self,
        disk: &mut D,
        changes: &[u8],
        count: u16,
    ) -> Result<(), AppendFault>
        requires { areas_end self.old.room ≤ (D.told disk.old).size }
        ensures grown { OnOk result (self.new ≡ grown self.old (record { changes = changes.now; count = count })) }
        ensures kept { OnErr result (self.new ≡ self.old) }
        // What a crash leaves after Ok, and what it leaves at any moment of the call.
        ensures appended { OnOk result (Follows (Appended self.old (record { changes = changes.now; count = count })) (D.told disk.old) (D.told disk.new)) }
        ensures any_moment { Throughout (D.told disk.old) (D.told disk.new) (ComesBy (KeptOrAppended self.old (record { changes = changes.now; count = count })) (D.told disk.old)) }
        ensures sure { OnOk result (IsStable (D.told disk.new)) }
        // The same of what a read gives.
        ensures written { OnOk result (IsTrue (D.told disk.old).tells_contents → Appended self.old (record { changes = changes.now; count = count }) (D.told disk.old).contents (D.told disk.new).contents) }
        ensures contents { IsTrue (D.told disk.old).tells_contents → KeptOrAppended self.old (record { changes = changes.now; count = count }) (D.told disk.old).contents (D.told disk.new).contents }
        ensures answers { AppendAnswers self.old (length changes.now) (D.told disk.old).faults (D.told disk.new).faults result }
        ensures later { (D.told disk.old).faults ≤ (D.told disk.new).faults }
    {
        let need = (HEAD + changes.len() + 1) as u64;
        let left = self.room - self.used;
        if need > left {
            return Err(AppendFault::NoRoom { need, left });
        }
        let gate = start_of_area(self.room, self.byte) + self.used;
        match publish(disk, &mut self.buffer, gate, changes, count) {
            Ok(()) => {
                self.used += need - 1;
                Ok(())
            }
            Err(DiskFault) => Err(AppendFault::Disk),
        }
    }

    /// Chooses the other area, without frames: closes its first gate, syncs, writes the next area byte and syncs. A fault comes
    /// where the disk failed in this call.
    pub fn switch<D: Disk>(&mut self, disk: &mut D) -> Result<(), DiskFault>
        requires { areas_end self.old.room ≤ (D.told disk.old).size }
        ensures switched { OnOk result (self.new ≡ switched self.old) }
        ensures kept { OnErr result (self.new ≡ self.old) }
        // What a crash leaves after Ok, and what it leaves at any moment of the call.
        ensures chosen { OnOk result (Follows (Switched self.old) (D.told disk.old) (D.told disk.new)) }
        ensures any_moment { Throughout (D.told disk.old) (D.told disk.new) (ComesBy (KeptOrSwitched self.old) (D.told disk.old)) }
        ensures sure { OnOk result (IsStable (D.told disk.new)) }
        // The same of what a read gives.
        ensures written { OnOk result (IsTrue (D.told disk.old).tells_contents → Switched self.old (D.told disk.old).contents (D.told disk.new).contents) }
        ensures contents { IsTrue (D.told disk.old).tells_contents → KeptOrSwitched self.old (D.told disk.old).contents (D.told disk.new).contents }
        ensures cause { HasCause (D.told disk.old).faults (D.told disk.new).faults result }
    {
        let _size = disk.size();
        let next = self.byte.wrapping_add(1);
        let gate = start_of_area(self.room, next);
        write_and_sync(disk, gate, &[CLOSED])?;
        write_and_sync(disk, AREA_BYTE, &[next])?;
        self.byte = next;
        self.used = 0;
        Ok(())
    }
}
