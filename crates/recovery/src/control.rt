//! The control page of a disk.

ghost use Rattle.std.specs.Prelude.{◌≡◌, ◌≤◌, ◌^◌, IsTrue, IfOk, IfErr, slice_index, take};
ghost use Rattle.block_model.specs.declared.limits.TheConstants.{PAGE_SIZE};
ghost use Rattle.store_format.specs.ControlPage.{HasControl};
ghost use Rattle.log_area.specs.Log.{area_start};
ghost use Rattle.store_layout.specs.DiskLayout.{area_size, disk_size};
ghost use Rattle.recovery.specs.StartCauses.{ControlCause};

use crate::fault::StartFault;
use block_model::PAGE_SIZE;
use disk_trait::Disk;
use std::alloc::Global;
use store_format::{ControlFault, area_of, read};
use store_layout::Layout;

/// The layout of the store on the disk, and the byte at which the chosen area of its log begins. `NoStore` exactly where the control
/// page isn't a store's, or the disk hasn't its size.
pub fn read_control<D: Disk>(alloc: Global, disk: &mut D) -> Result<(Layout, u64), StartFault>
    ensures control { IfOk result (λ r. IsTrue (D.told disk.old).tells_contents → HasControl r.0 (take PAGE_SIZE (D.told disk.old).contents)) }
    ensures size { IfOk result (λ r. (D.told disk.old).size ≡ disk_size r.0) }
    ensures area { IfOk result (λ r. IsTrue (D.told disk.old).tells_contents → r.1 ≡ area_start (area_size r.0) (slice_index (D.told disk.old).contents 1)) }
    ensures low { IfOk result (λ r. r.1 ≤ 2 ^ 26) }
    ensures cause { ControlCause (D.told disk.old) (D.told disk.new) result }
    // Only the disk's count of faults may change.
    ensures same { D.told disk.new ≡ record (D.told disk.old) { faults = (D.told disk.new).faults } }
{
    let size = disk.size();
    if size < PAGE_SIZE as u64 {
        return Err(StartFault::NoStore);
    }
    let mut page = [0u8; PAGE_SIZE];
    let Ok(()) = disk.read(0, &mut page) else {
        return Err(StartFault::Disk);
    };
    match read(alloc, &page, size) {
        Ok(layout) => {
            layout.known();
            let area = layout.area_at(area_of(&page));
            Ok((layout, area))
        }
        Err(ControlFault::NoStore) => Err(StartFault::NoStore),
        Err(ControlFault::Memory) => Err(StartFault::Memory),
    }
}
