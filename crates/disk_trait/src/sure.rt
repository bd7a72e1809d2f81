//! Bytes that are written and made sure.

ghost use Rattle.std.specs.Prelude.{◌≡◌, ◌≤◌, ◌+◌, IsTrue, length, OnOk};
ghost use Rattle.block_model.specs.Causes.{HasCause};
ghost use Rattle.disk_trait.specs.Told.{Told};
ghost use Rattle.disk_trait.specs.Spliced.{spliced};
ghost use Rattle.disk_trait.specs.Torn.{Torn};
ghost use Rattle.disk_trait.specs.TornImage.{IsTornImage};
ghost use Rattle.disk_trait.specs.Throughout.{Throughout};
ghost use Rattle.disk_trait.specs.IsStable.{IsStable};

use crate::disk::{Disk, DiskFault};

/// Puts the bytes over those from an offset on, and makes them sure, with all that was written before. After a fault their
/// range holds any bytes, and nothing is sure.
pub fn write_and_sync<D: Disk>(disk: &mut D, at: u64, bytes: &[u8]) -> Result<(), DiskFault>
    requires { at + length bytes.now ≤ (D.told disk.old).size }
    ensures written { OnOk result (IsTrue (D.told disk.old).tells_contents → (D.told disk.new).contents ≡ spliced (D.told disk.old).contents at bytes.now) }
    ensures others { IsTrue (D.told disk.old).tells_contents → Torn at (length bytes.now) (D.told disk.old).contents (D.told disk.new).contents }
    ensures stable { OnOk result (IsStable (D.told disk.new)) }
    // At every moment each image is one from before with any bytes in the range.
    ensures any_moment { Throughout (D.told disk.old) (D.told disk.new) (IsTornImage (D.told disk.old) at (length bytes.now)) }
    ensures cause { HasCause (D.told disk.old).faults (D.told disk.new).faults result }
{
    disk.write(at, bytes)?;
    disk.sync()
}
