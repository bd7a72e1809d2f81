//! One frame, written behind its gate.

ghost use Rattle.std.specs.Prelude.{◌≡◌, ◌≤◌, ◌+◌, ◌++◌, ◌∷◌, [], ◌^◌, ◌<◌, IsTrue, length, take, drop, OnOk};
ghost use Rattle.block_model.specs.Causes.{HasCause};
ghost use Rattle.disk_trait.specs.Torn.{Torn};
ghost use Rattle.disk_trait.specs.Follows.{Follows};
ghost use Rattle.disk_trait.specs.Throughout.{Throughout};
ghost use Rattle.disk_trait.specs.IsStable.{IsStable};
ghost use Rattle.disk_trait.specs.Spliced.{spliced};
ghost use Rattle.disk_trait.specs.TornImage.{IsTornImage};
ghost use Rattle.log_area.specs.Frames.{LogFrame, numbers_of};
ghost use Rattle.log_area.specs.Log.{ComesBy};
ghost use Rattle.log_area.specs.Published.{Published, PublishedOrTorn, closed_frame};

use byte_fields::{put_u16, put_u32};
use disk_trait::{Disk, DiskFault, write_and_sync};

/// The gate of a valid frame; any other byte is a closed gate.
pub const OPEN: u8 = 1;

/// A closed gate, as it is written.
pub const CLOSED: u8 = 0;

/// The bytes of a frame in front of its changes: the gate, their length and their count.
pub const HEAD: usize = 7;

/// The most bytes of changes that are written as one piece.
pub const MOST: usize = 65536;

/// Puts the length of the changes of a frame and their count to the front of the bytes.
#[tactic(auto, unfolding(byte_fields::specs::Fields::put_at))]
fn put_numbers(bytes: &mut [u8], size: usize, count: u16)
    requires room { 6 ≤ length bytes.old }
    requires small { size < 256 ^ 4 }
    ensures { bytes.new ≡ numbers_of size count ++ drop 2 (drop 4 bytes.old) }
{
    put_u32(bytes, 0, size as u32);
    put_u16(bytes, 4, count);
}

/// Puts into a buffer what stands behind the gate of a frame, and a closed gate behind it.
fn fill(buffer: &mut [u8], changes: &[u8], count: u16)
    requires room { length changes.now + 7 ≤ length buffer.old }
    requires small { length changes.now < 256 ^ 4 }
    ensures { take (length changes.now + 7) buffer.new ≡ closed_frame (record { changes = changes.now; count = count }) }
{
    put_numbers(buffer, changes.len(), count);
    let end = 6 + changes.len();
    buffer[6..end].copy_from_slice(changes);
    buffer[end] = CLOSED;
}

/// Writes what stands behind the gate of a frame from an offset on, a closed gate behind it, and makes them sure: in three
/// pieces, without a copy.
fn write_pieces<D: Disk>(disk: &mut D, at: u64, changes: &[u8], count: u16) -> Result<(), DiskFault>
    requires room { at + (length changes.now + 7) ≤ (D.told disk.old).size }
    requires small { length changes.now < 256 ^ 4 }
    ensures written { OnOk result (IsTrue (D.told disk.old).tells_contents → (D.told disk.new).contents ≡ spliced (D.told disk.old).contents at (closed_frame (record { changes = changes.now; count = count }))) }
    ensures others { IsTrue (D.told disk.old).tells_contents → Torn at (length changes.now + 7) (D.told disk.old).contents (D.told disk.new).contents }
    ensures stable { OnOk result (IsStable (D.told disk.new)) }
    ensures any_moment { Throughout (D.told disk.old) (D.told disk.new) (IsTornImage (D.told disk.old) at (length changes.now + 7)) }
    ensures cause { HasCause (D.told disk.old).faults (D.told disk.new).faults result }
{
    let _size = disk.size();
    let mut numbers = [0u8; 6];
    put_numbers(&mut numbers, changes.len(), count);
    disk.write(at, &numbers)?;
    disk.write(at + 6, changes)?;
    write_and_sync(disk, at + 6 + changes.len() as u64, &[CLOSED])?;
    Ok(())
}

/// Writes what stands behind the gate of a frame from an offset on, a closed gate behind it, and makes them sure. Up to 65536
/// bytes of changes are copied into the buffer and written as one piece.
fn write_frame<D: Disk>(
    disk: &mut D,
    buffer: &mut [u8],
    at: u64,
    changes: &[u8],
    count: u16,
) -> Result<(), DiskFault>
    requires room { at + (length changes.now + 7) ≤ (D.told disk.old).size }
    requires buffer { length buffer.old ≡ 65543 }
    requires small { length changes.now < 256 ^ 4 }
    ensures written { OnOk result (IsTrue (D.told disk.old).tells_contents → (D.told disk.new).contents ≡ spliced (D.told disk.old).contents at (closed_frame (record { changes = changes.now; count = count }))) }
    ensures others { IsTrue (D.told disk.old).tells_contents → Torn at (length changes.now + 7) (D.told disk.old).contents (D.told disk.new).contents }
    ensures stable { OnOk result (IsStable (D.told disk.new)) }
    ensures any_moment { Throughout (D.told disk.old) (D.told disk.new) (IsTornImage (D.told disk.old) at (length changes.now + 7)) }
    ensures cause { HasCause (D.told disk.old).faults (D.told disk.new).faults result }
{
    if changes.len() > MOST {
        return write_pieces(disk, at, changes, count);
    }
    fill(buffer, changes, count);
    write_and_sync(disk, at, &buffer[..changes.len() + 7])?;
    Ok(())
}

/// Writes a frame behind a closed gate, makes it sure, and opens the gate.
pub fn publish<D: Disk>(
    disk: &mut D,
    buffer: &mut [u8],
    gate: u64,
    changes: &[u8],
    count: u16,
) -> Result<(), DiskFault>
    requires room { gate + 1 + (length changes.now + 7) ≤ (D.told disk.old).size }
    requires buffer { length buffer.old ≡ 65543 }
    requires small { length changes.now < 256 ^ 4 }
    ensures published { OnOk result (Follows (Published gate (closed_frame (record { changes = changes.now; count = count }))) (D.told disk.old) (D.told disk.new)) }
    ensures written { OnOk result (IsTrue (D.told disk.old).tells_contents → Published gate (closed_frame (record { changes = changes.now; count = count })) (D.told disk.old).contents (D.told disk.new).contents) }
    ensures any_moment { Throughout (D.told disk.old) (D.told disk.new) (ComesBy (PublishedOrTorn gate (closed_frame (record { changes = changes.now; count = count }))) (D.told disk.old)) }
    ensures told { IsTrue (D.told disk.old).tells_contents → PublishedOrTorn gate (closed_frame (record { changes = changes.now; count = count })) (D.told disk.old).contents (D.told disk.new).contents }
    ensures stable { OnOk result (IsStable (D.told disk.new)) }
    ensures cause { HasCause (D.told disk.old).faults (D.told disk.new).faults result }
{
    let _size = disk.size();
    write_frame(disk, buffer, gate + 1, changes, count)?;
    write_and_sync(disk, gate, &[OPEN])?;
    Ok(())
}
