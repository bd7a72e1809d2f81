//! What a disk promises.

ghost use Rattle.std.specs.Prelude.{◌≡◌, ◌+◌, ◌≤◌, ℕ, List, IsTrue, length, take, drop, OnOk};
ghost use Rattle.block_model.specs.Causes.{HasCause};
ghost use Rattle.disk_trait.specs.Told.{Told};
ghost use Rattle.disk_trait.specs.Spliced.{spliced};
ghost use Rattle.disk_trait.specs.Torn.{Torn};
ghost use Rattle.disk_trait.specs.Follows.{Follows};
ghost use Rattle.disk_trait.specs.IsStable.{IsStable};
ghost use Rattle.disk_trait.specs.GoesOn.{GoesOn};

use thiserror::Error;

/// A read, a write or a sync failed.
#[derive(Clone, Copy, Debug, Eq, Error, PartialEq)]
#[error("the disk failed")]
pub struct DiskFault;

/// Bytes in a fixed number, read and written by their offset. A crash may leave any bytes where a write came since the last
/// sync that succeeded, and leaves all others as they were.
pub trait Disk {
    /// What the disk tells of itself.
    ghost told: { Self → Told };

    /// How many bytes it holds.
    fn size(&self) -> u64
        ensures { result ≡ (told self.now).size };

    /// Fills the piece with the bytes from an offset on. After a fault the piece holds any bytes.
    fn read(&mut self, at: u64, into: &mut [u8]) -> Result<(), DiskFault>
        requires { at + length into.old ≤ (told self.old).size }
        ensures bytes { OnOk result (IsTrue (told self.old).tells_contents → into.new ≡ take (length into.old) (drop at (told self.old).contents)) }
        // Only the count may change.
        ensures same { told self.new ≡ record (told self.old) { faults = (told self.new).faults } }
        ensures cause { HasCause (told self.old).faults (told self.new).faults result };

    /// Puts the bytes over those from an offset on. After a fault their range holds any bytes.
    fn write(&mut self, at: u64, bytes: &[u8]) -> Result<(), DiskFault>
        requires { at + length bytes.now ≤ (told self.old).size }
        ensures written { OnOk result (IsTrue (told self.old).tells_contents → (told self.new).contents ≡ spliced (told self.old).contents at bytes.now) }
        ensures others { IsTrue (told self.old).tells_contents → Torn at (length bytes.now) (told self.old).contents (told self.new).contents }
        // Also after a fault a crash may leave any bytes in the range.
        ensures images { Follows (Torn at (length bytes.now)) (told self.old) (told self.new) }
        ensures moments { GoesOn (told self.old) (told self.new) }
        ensures cause { HasCause (told self.old).faults (told self.new).faults result };

    /// Makes all writes so far sure.
    fn sync(&mut self) -> Result<(), DiskFault>
        ensures stable { OnOk result (IsStable (told self.new)) }
        ensures same { (told self.new).contents ≡ (told self.old).contents }
        ensures images { (c : List ℕ) → IsTrue ((told self.new).now c) → IsTrue ((told self.old).now c) }
        ensures moments { GoesOn (told self.old) (told self.new) }
        ensures cause { HasCause (told self.old).faults (told self.new).faults result };

    /// How often a read, a write or a sync has failed.
    fn faults(&self) -> u64
        ensures { result ≡ (told self.now).faults };

    /// The contents have the disk's size.
    ghost contents_fit: { (disk : Self) → IsTrue (told disk).tells_contents → length (told disk).contents ≡ (told disk).size };

    /// Each image has the disk's size.
    ghost images_fit: { (disk : Self) (c : List ℕ) → IsTrue ((told disk).now c) → length c ≡ (told disk).size };

    /// A disk that has an image tells its contents.
    ghost images_need_contents: { (disk : Self) (c : List ℕ) → IsTrue ((told disk).now c) → IsTrue (told disk).tells_contents };

    /// The contents are an image, where images are told.
    ghost contents_are_an_image: { (disk : Self) → IsTrue (told disk).tells_images → IsTrue ((told disk).now (told disk).contents) };

    /// This moment is one of those from any earlier one on.
    ghost now_is_since: { (disk : Self) (t : ℕ) (c : List ℕ) → t ≤ (told disk).moment → IsTrue ((told disk).now c) → IsTrue ((told disk).since t c) };

    /// From this moment on there is no other yet.
    ghost since_now_is_now: { (disk : Self) (c : List ℕ) → IsTrue ((told disk).since (told disk).moment c) → IsTrue ((told disk).now c) };
}
