//! The redo of a log that was read.

ghost use Rattle.std.specs.Prelude.{◌≡◌, ◌+◌, ◌*◌, ◌^◌, ◌<◌, OnOk, length};
ghost use Rattle.block_model.specs.declared.limits.TheConstants.{PAGE_SIZE};
ghost use Rattle.store_layout.specs.DiskLayout.{disk_size};
ghost use Rattle.log_area.specs.Frames.{row_of};
ghost use Rattle.recovery.specs.PooledPages.{IsReady};
ghost use Rattle.recovery.specs.RedoesFrame.{KeepsMomentsOfLog, RedoesLog};
ghost use Rattle.recovery.specs.StartCauses.{RedoCause};

use crate::fault::StartFault;
use crate::frames::redo;
use crate::redo_fault::RedoFault;
use buffer_pool::Pool;
use disk_trait::Disk;
use log_area::Frames;
use store_layout::Layout;

/// Redoes the changes of the frames.
pub fn redo_log<D: Disk>(
    disk: &mut D,
    layout: &Layout,
    area: u64,
    frames: &Frames,
    pool: &mut Pool,
    marks: &mut Vec<bool>,
) -> Result<(), StartFault>
    requires ready { IsReady layout.now (D.told disk.old).size pool.old }
    requires marks { PAGE_SIZE * length marks.old.items ≡ disk_size layout.now }
    requires row { area + length (row_of frames.now) < 2 ^ 32 }
    ensures ready { IsReady layout.now (D.told disk.new).size pool.new }
    ensures frames { pool.new.frames ≡ pool.old.frames }
    ensures marks { length marks.new.items ≡ length marks.old.items }
    ensures redone { OnOk result (RedoesLog layout.now frames.now (D.told disk.old) pool.old marks.old.items (D.told disk.new) pool.new marks.new.items) }
    ensures any_moment { KeepsMomentsOfLog layout.now frames.now (D.told disk.old) pool.old marks.old.items (D.told disk.new) }
    ensures cause { RedoCause layout.now area frames.now (D.told disk.old) pool.old marks.old.items (D.told disk.new) result }
{
    match redo(disk, layout, area, frames, pool, marks) {
        Ok(()) => Ok(()),
        Err(RedoFault::Damaged { at }) => Err(StartFault::Damaged { at }),
        Err(RedoFault::Disk) => Err(StartFault::Disk),
    }
}
