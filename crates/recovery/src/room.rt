//! Room in a pool.

ghost use Rattle.std.specs.Prelude.{◌≡◌, ◌≤◌, OnOk, OnErr};
ghost use Rattle.block_model.specs.Causes.{HasCause};
ghost use Rattle.buffer_pool.specs.WritesPage.{LieWithin};
ghost use Rattle.recovery.specs.Holds.{AreDurable, Holds, MayWrite};

use buffer_pool::Pool;
use disk_trait::{Disk, DiskFault};
use page_layout::Page;

/// The number of each log change that is redone: all are durable.
pub(crate) const DURABLE: u64 = 0;

/// The byte of the disk at which page 0 begins.
const FIRST: u64 = 0;

/// Holds the page of that number as a dirty one whose log is durable. Where each frame holds a dirty page, one is written to its
/// place first. A fault comes where the disk failed in this call, and then the pool is as it was.
pub(crate) fn hold<D: Disk>(
    disk: &mut D,
    pool: &mut Pool,
    number: u64,
    page: &Page,
) -> Result<(), DiskFault>
    requires within { LieWithin pool.old 0 (D.told disk.old).size }
    requires durable { AreDurable pool.old }
    requires frames { 1 ≤ pool.old.frames }
    ensures held { OnOk result (Holds number page.now (D.told disk.old) pool.old (D.told disk.new) pool.new) }
    ensures frames { pool.new.frames ≡ pool.old.frames }
    ensures same { OnErr result (pool.new ≡ pool.old) }
    // What a crash leaves, also after a fault.
    ensures writes { MayWrite (D.told disk.old) pool.old (D.told disk.new) }
    ensures cause { HasCause (D.told disk.old).faults (D.told disk.new).faults result }
{
    pool.known();
    match pool.set(number, page, Some(DURABLE)) {
        Ok(()) => return Ok(()),
        Err(_) => {}
    }
    pool.clean_one(disk, FIRST, DURABLE)?;
    match pool.set(number, page, Some(DURABLE)) {
        Ok(()) => Ok(()),
        Err(_) => unreachable!(),
    }
}
