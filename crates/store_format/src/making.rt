//! A disk made a store.

ghost use Rattle.std.specs.Prelude.{◌≡◌, ◌-◌, List, ℕ, IsTrue, length, take, drop, OnOk};
ghost use Rattle.block_model.specs.Causes.{HasCause};
ghost use Rattle.block_model.specs.declared.limits.TheConstants.{PAGE_SIZE};
ghost use Rattle.disk_trait.specs.IsStable.{IsStable};
ghost use Rattle.disk_trait.specs.Throughout.{Throughout};
ghost use Rattle.store_layout.specs.DiskLayout.{disk_size};
ghost use Rattle.store_format.specs.Blank.{HasRest, HasNoFrames, IsBlank};
ghost use Rattle.store_format.specs.FormatAnswers.{FormatAnswers};
ghost use Rattle.store_format.specs.FreshStore.{IsClosed, IsFormatted, IsOldOrNew};
ghost use Rattle.store_format.specs.Gate.{AreClosed};

use crate::fault::FormatFault;
use crate::gate::{CLOSED, close_gate, open_gate, put_behind};
use crate::pages::write_pages;
use crate::{OPEN, write};
use block_model::PAGE_SIZE;
use disk_trait::{Disk, DiskFault};
use store_layout::{Layout, pages_fill_the_disk};

/// Where the control page goes on behind its gate.
const BEHIND_GATE: u64 = 1;

/// Makes an empty store of the disk, whatever it holds. `Size` exactly where the disk hasn't the layout's size, and then nothing
/// is done; `Disk` where the disk failed in this call. Takes no memory.
pub fn format<D: Disk>(disk: &mut D, layout: &Layout) -> Result<(), FormatFault>
    ensures answers { FormatAnswers (disk_size layout.now) (D.told disk.old) (D.told disk.new) result }
    // What a read gives afterwards, and what a crash leaves.
    ensures bytes { OnOk result (IsTrue (D.told disk.old).tells_contents → IsFormatted layout.now (D.told disk.new).contents) }
    ensures made { OnOk result ((image : List ℕ) → IsTrue ((D.told disk.new).now image) → IsFormatted layout.now image) }
    // What a crash leaves at any moment of the call, also of one that fails.
    ensures any_moment { Throughout (D.told disk.old) (D.told disk.new) (IsOldOrNew layout.now (D.told disk.old)) }
{
    let wanted = layout.disk_size();
    let found = disk.size();
    if found != wanted {
        return Err(FormatFault::Size { wanted, found });
    }
    match make(disk, layout) {
        Ok(()) => Ok(()),
        Err(DiskFault) => Err(FormatFault::Disk),
    }
}

/// Makes an empty store of a disk of the layout's size.
fn make<D: Disk>(disk: &mut D, layout: &Layout) -> Result<(), DiskFault>
    requires size { (D.told disk.old).size ≡ disk_size layout.now }
    ensures bytes { OnOk result (IsTrue (D.told disk.old).tells_contents → IsFormatted layout.now (D.told disk.new).contents) }
    ensures made { OnOk result ((image : List ℕ) → IsTrue ((D.told disk.new).now image) → IsFormatted layout.now image) }
    ensures any_moment { Throughout (D.told disk.old) (D.told disk.new) (IsOldOrNew layout.now (D.told disk.old)) }
    ensures cause { HasCause (D.told disk.old).faults (D.told disk.new).faults result }
{
    pages_fill_the_disk(layout);
    close_gate(disk)?;
    write_rest(disk, layout)?;
    open_gate(disk)?;
    Ok(())
}

/// Writes all but the gate, behind a closed one, and makes it sure.
fn write_rest<D: Disk>(disk: &mut D, layout: &Layout) -> Result<(), DiskFault>
    requires size { (D.told disk.old).size ≡ disk_size layout.now }
    requires closed { AreClosed (D.told disk.old) }
    ensures any_moment { Throughout (D.told disk.old) (D.told disk.new) IsClosed }
    ensures blank { OnOk result (IsTrue (D.told disk.old).tells_contents → IsBlank layout.now (D.told disk.new).contents) }
    ensures stable { OnOk result (IsStable (D.told disk.new)) }
    ensures cause { HasCause (D.told disk.old).faults (D.told disk.new).faults result }
{
    layout.known();
    write_control(disk, layout)?;
    close_areas(disk, layout)?;
    write_pages(disk, layout)?;
    disk.sync()?;
    Ok(())
}

/// Writes the control page but for its gate.
fn write_control<D: Disk>(disk: &mut D, layout: &Layout) -> Result<(), DiskFault>
    requires size { (D.told disk.old).size ≡ disk_size layout.now }
    requires closed { AreClosed (D.told disk.old) }
    ensures closed { AreClosed (D.told disk.new) }
    ensures any_moment { Throughout (D.told disk.old) (D.told disk.new) IsClosed }
    ensures rest { OnOk result (IsTrue (D.told disk.old).tells_contents → HasRest layout.now (D.told disk.new).contents) }
    ensures cause { HasCause (D.told disk.old).faults (D.told disk.new).faults result }
{
    let mut page = [0u8; PAGE_SIZE];
    write(layout, OPEN, 0, &mut page);
    put_behind(disk, BEHIND_GATE, behind_gate(&page))?;
    Ok(())
}

/// The bytes of a control page behind its gate.
fn behind_gate(page: &[u8]) -> &[u8]
    requires { length page.now ≡ PAGE_SIZE }
    ensures bytes { result.now ≡ drop 1 page.now }
    ensures count { length result.now ≡ PAGE_SIZE - 1 }
{
    &page[1..]
}

/// Closes the first gate of both areas of the log.
fn close_areas<D: Disk>(disk: &mut D, layout: &Layout) -> Result<(), DiskFault>
    requires size { (D.told disk.old).size ≡ disk_size layout.now }
    requires closed { AreClosed (D.told disk.old) }
    ensures closed { AreClosed (D.told disk.new) }
    ensures any_moment { Throughout (D.told disk.old) (D.told disk.new) IsClosed }
    ensures areas { OnOk result (IsTrue (D.told disk.old).tells_contents → HasNoFrames layout.now (D.told disk.new).contents) }
    ensures front { IsTrue (D.told disk.old).tells_contents → take PAGE_SIZE (D.told disk.new).contents ≡ take PAGE_SIZE (D.told disk.old).contents }
    ensures cause { HasCause (D.told disk.old).faults (D.told disk.new).faults result }
{
    layout.known();
    put_behind(disk, layout.area_at(0), &[CLOSED])?;
    put_behind(disk, layout.area_at(1), &[CLOSED])?;
    Ok(())
}
