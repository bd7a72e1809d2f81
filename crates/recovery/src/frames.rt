//! The frames of a log, one after the other.

ghost use Rattle.std.specs.Prelude.{◌≡◌, ◌+◌, ◌*◌, ◌<◌, ◌^◌, OnOk, length};
ghost use Rattle.log_area.specs.Frames.{row_of};
ghost use Rattle.recovery.specs.PooledPages.{IsReady};
ghost use Rattle.block_model.specs.declared.limits.TheConstants.{PAGE_SIZE};
ghost use Rattle.store_layout.specs.DiskLayout.{disk_size};
ghost use Rattle.recovery.specs.RedoesFrame.{FrameCause, KeepsMomentsOfFrame, KeepsMomentsOfLog, LogCause, RedoesFrame, RedoesLog, fault_of};

use crate::change::redo_change;
use crate::redo_fault::{RedoFault, Stop};
use buffer_pool::Pool;
use disk_trait::Disk;
use log_area::Frames;
use store_layout::Layout;
use wal_record::{decode, no_change_begins_another};

/// The bytes of a frame in front of its changes.
const HEAD: u64 = 7;

/// Redoes the changes of the frames, in their order, on the pages of the pool, which holds none at first. `area` is the byte of the
/// disk at which the frames begin, and `marks` has a mark for each page, by its number: those that a change names are marked.
/// Takes no memory, and reads no page that no change names. `Damaged` where a frame isn't of its form: its changes aren't as
/// long or as many as it says, one is of no page of the layout or doesn't fit, or the first one of a page doesn't make it whole.
/// `Disk` where the disk failed in this call.
pub fn redo<D: Disk>(
    disk: &mut D,
    layout: &Layout,
    area: u64,
    frames: &Frames,
    pool: &mut Pool,
    marks: &mut [bool],
) -> Result<(), RedoFault>
    requires ready { IsReady layout.now (D.told disk.old).size pool.old }
    requires marks { PAGE_SIZE * length marks.old ≡ disk_size layout.now }
    requires row { area + length (row_of frames.now) < 2 ^ 32 }
    ensures ready { IsReady layout.now (D.told disk.new).size pool.new }
    ensures frames { pool.new.frames ≡ pool.old.frames }
    // The pages are those of the frames' changes, made one after the other.
    ensures redone { OnOk result (RedoesLog layout.now frames.now (D.told disk.old) pool.old marks.old (D.told disk.new) pool.new marks.new) }
    // Also where a frame is damaged, or the disk fails.
    ensures any_moment { KeepsMomentsOfLog layout.now frames.now (D.told disk.old) pool.old marks.old (D.told disk.new) }
    ensures cause { LogCause layout.now area frames.now (D.told disk.old) pool.old marks.old (D.told disk.new) result }
{
    let mut gate = area;
    'frames: for at in 0..frames.len() {
        let (changes, count) = frames.frame(at);
        match redo_frame(disk, layout, pool, marks, changes, count) {
            Ok(()) => {}
            Err(stop) => return Err(fault_at(stop, gate)),
        }
        gate += HEAD + changes.len() as u64;
    }
    Ok(())
}

/// The fault of a frame whose gate is that byte.
fn fault_at(stop: Stop, gate: u64) -> RedoFault
    ensures { result ≡ fault_of stop gate }
{
    match stop {
        Stop::Amiss => RedoFault::Damaged { at: gate },
        Stop::Disk => RedoFault::Disk,
    }
}

/// Redoes the changes of a frame, whose bytes these are, and which are so many.
fn redo_frame<D: Disk>(
    disk: &mut D,
    layout: &Layout,
    pool: &mut Pool,
    marks: &mut [bool],
    changes: &[u8],
    count: u16,
) -> Result<(), Stop>
    requires ready { IsReady layout.now (D.told disk.old).size pool.old }
    requires marks { PAGE_SIZE * length marks.old ≡ disk_size layout.now }
    ensures ready { IsReady layout.now (D.told disk.new).size pool.new }
    ensures frames { pool.new.frames ≡ pool.old.frames }
    ensures redone { OnOk result (RedoesFrame layout.now (record { changes = changes.now; count = count }) (D.told disk.old) pool.old marks.old (D.told disk.new) pool.new marks.new) }
    ensures any_moment { KeepsMomentsOfFrame layout.now (record { changes = changes.now; count = count }) (D.told disk.old) pool.old marks.old (D.told disk.new) }
    ensures cause { FrameCause layout.now (record { changes = changes.now; count = count }) (D.told disk.old) pool.old marks.old (D.told disk.new) result }
{
    no_change_begins_another();
    let mut at = 0usize;
    let mut left = count;
    'changes: while at < changes.len() {
        let Ok(read) = decode(&changes[at..]) else {
            return Err(Stop::Amiss);
        };
        if left == 0 {
            return Err(Stop::Amiss);
        }
        match redo_change(disk, layout, pool, marks, &read.0) {
            Ok(()) => {}
            Err(stop) => return Err(stop),
        }
        at += read.1;
        left -= 1;
    }
    if left > 0 {
        return Err(Stop::Amiss);
    }
    Ok(())
}
