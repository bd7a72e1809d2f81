//! The gate of a control page, and writes behind it.

ghost use Rattle.std.specs.Prelude.{◌≡◌, ◌⊎◌, ◌≤◌, ◌+◌, ◌∷◌, [], List, ℕ, IsTrue, length, OnOk};
ghost use Rattle.block_model.specs.Causes.{HasCause};
ghost use Rattle.store_format.specs.declared.page.TheConstants.{OPEN};
ghost use Rattle.disk_trait.specs.IsStable.{IsStable};
ghost use Rattle.disk_trait.specs.Spliced.{spliced};
ghost use Rattle.disk_trait.specs.Throughout.{Throughout};
ghost use Rattle.disk_trait.specs.Torn.{Torn};
ghost use Rattle.store_format.specs.FreshStore.{IsClosed};
ghost use Rattle.store_format.specs.Gate.{AreClosed, WasOrIsClosed, HasGate};

use crate::{OPEN, is_open};
use disk_trait::{Disk, DiskFault, write_and_sync};

/// The byte of the disk that is the gate.
const GATE: u64 = 0;

/// The byte of a closed gate, also of the first one of an area of the log.
pub const CLOSED: u8 = 0;

/// Makes all writes sure, and closes the gate where it is open. A gate that is closed isn't written.
pub fn close_gate<D: Disk>(disk: &mut D) -> Result<(), DiskFault>
    requires size { 1 ≤ (D.told disk.old).size }
    ensures closed { OnOk result (AreClosed (D.told disk.new)) }
    ensures any_moment { Throughout (D.told disk.old) (D.told disk.new) (WasOrIsClosed (D.told disk.old)) }
    ensures cause { HasCause (D.told disk.old).faults (D.told disk.new).faults result }
{
    let _size = disk.size();
    disk.sync()?;
    let mut gate = [CLOSED; 1];
    disk.read(GATE, &mut gate)?;
    if !is_open(&gate) {
        return Ok(());
    }
    write_and_sync(disk, GATE, &[CLOSED])?;
    Ok(())
}

/// Opens the gate of a disk on which no write is pending.
pub fn open_gate<D: Disk>(disk: &mut D) -> Result<(), DiskFault>
    requires size { 1 ≤ (D.told disk.old).size }
    ensures any_moment { Throughout (D.told disk.old) (D.told disk.new) (λ image. IsClosed image ⊎ HasGate (D.told disk.old) image) }
    ensures opened { OnOk result (IsTrue (D.told disk.old).tells_contents → (D.told disk.new).contents ≡ spliced (D.told disk.old).contents 0 (OPEN ∷ [])) }
    ensures stable { OnOk result (IsStable (D.told disk.new)) }
    ensures cause { HasCause (D.told disk.old).faults (D.told disk.new).faults result }
{
    write_and_sync(disk, GATE, &[OPEN])?;
    Ok(())
}

/// Writes behind a closed gate.
pub fn put_behind<D: Disk>(disk: &mut D, at: u64, bytes: &[u8]) -> Result<(), DiskFault>
    requires size { at + length bytes.now ≤ (D.told disk.old).size }
    requires behind { 1 ≤ at }
    requires closed { AreClosed (D.told disk.old) }
    ensures closed { AreClosed (D.told disk.new) }
    ensures any_moment { Throughout (D.told disk.old) (D.told disk.new) IsClosed }
    ensures written { OnOk result (IsTrue (D.told disk.old).tells_contents → (D.told disk.new).contents ≡ spliced (D.told disk.old).contents at bytes.now) }
    ensures others { IsTrue (D.told disk.old).tells_contents → Torn at (length bytes.now) (D.told disk.old).contents (D.told disk.new).contents }
    ensures cause { HasCause (D.told disk.old).faults (D.told disk.new).faults result }
{
    disk.write(at, bytes)
}
