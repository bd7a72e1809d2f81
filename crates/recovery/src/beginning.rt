//! What is read of a disk before its pages.

ghost use Rattle.std.specs.Prelude.{◌≡◌, ◌*◌, ◌<◌, ℕ, IsTrue, IfOk, length, slice_index_or, false};
ghost use Rattle.std.specs.FinMap as map;
ghost use Rattle.block_model.specs.declared.limits.TheConstants.{PAGE_SIZE};
ghost use Rattle.store_layout.specs.DiskLayout.{area_size, disk_size};
ghost use Rattle.log_area.specs.Frames.{row_of};
ghost use Rattle.log_area.specs.Log.{Stands};
ghost use Rattle.recovery.specs.Begun.{IsBegun};
ghost use Rattle.recovery.specs.StartCauses.{LogStartCause, StartCause};

use crate::control::read_control;
use crate::fault::StartFault;
use block_model::{NoMemory, PAGE_SIZE};
use buffer_pool::Pool;
use disk_trait::Disk;
use log_area::{Frames, LogArea, LogFault};
use std::alloc::Global;
use store_layout::Layout;

/// The layout of a store, the byte at which the chosen area of its log begins, that log and its frames; a pool without pages, and a
/// mark for each page of the disk.
#[derive(Drop)]
pub struct Begun {
    pub layout: Layout,
    pub area: u64,
    pub log: LogArea,
    pub frames: Frames,
    pub pool: Pool,
    pub marks: Vec<bool>,
}

/// Reads the control page and the chosen area of the log, and takes the memory for pages and marks.
pub fn begin<D: Disk>(alloc: Global, disk: &mut D) -> Result<Begun, StartFault>
    ensures begun { IfOk result (λ begun. IsBegun begun (D.told disk.old)) }
    // Only the disk's count of faults may change.
    ensures same { D.told disk.new ≡ record (D.told disk.old) { faults = (D.told disk.new).faults } }
    ensures cause { StartCause (D.told disk.old) (D.told disk.new) result }
{
    let (layout, area) = match read_control(alloc, disk) {
        Ok(read) => read,
        Err(fault) => return Err(fault),
    };
    let (log, frames) = match start_log(alloc, disk, &layout) {
        Ok(started) => started,
        Err(fault) => return Err(fault),
    };
    let (pool, marks) = match room_for_pages(alloc, &layout) {
        Ok(room) => room,
        Err(NoMemory) => return Err(StartFault::Memory),
    };
    Ok(Begun {
        layout,
        area,
        log,
        frames,
        pool,
        marks,
    })
}

/// The log of the disk, and the frames of its chosen area.
fn start_log<D: Disk>(
    alloc: Global,
    disk: &mut D,
    layout: &Layout,
) -> Result<(LogArea, Frames), StartFault>
    requires size { (D.told disk.old).size ≡ disk_size layout.now }
    ensures area { IfOk result (λ r. r.0.room ≡ area_size layout.now) }
    ensures within { IfOk result (λ r. length (row_of r.1) < area_size layout.now) }
    ensures stands { IfOk result (λ r. IsTrue (D.told disk.old).tells_contents → Stands r.0 r.1 (D.told disk.old).contents) }
    ensures same { D.told disk.new ≡ record (D.told disk.old) { faults = (D.told disk.new).faults } }
    ensures cause { LogStartCause layout.now (D.told disk.old) (D.told disk.new) result }
{
    match LogArea::start(alloc, disk, layout) {
        Ok(started) => Ok(started),
        Err(LogFault::Damaged { at }) => Err(StartFault::Damaged { at }),
        Err(LogFault::Disk) => Err(StartFault::Disk),
        Err(LogFault::Memory) => Err(StartFault::Memory),
    }
}

/// A pool without pages, and a mark for each page of the disk.
fn room_for_pages(alloc: Global, layout: &Layout) -> Result<(Pool, Vec<bool>), NoMemory>
    ensures pool { IfOk result (λ r. r.0 ≡ record { frames = layout.now.sizes.frames; pages = map.empty }) }
    ensures marks { IfOk result (λ r. PAGE_SIZE * length r.1.items ≡ disk_size layout.now) }
    ensures clear { IfOk result (λ r. (number : ℕ) → slice_index_or r.1.items number false ≡ false) }
{
    let pool = Pool::new(alloc, layout.sizes().frames)?;
    let count = layout.disk_size() / PAGE_SIZE as u64;
    let marks = vec![in alloc; false; count as usize]?;
    Ok((pool, marks))
}
