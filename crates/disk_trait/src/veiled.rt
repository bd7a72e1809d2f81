//! A disk that tells nothing of what it holds, over any other. What a store promises of its answers is said of bytes that a store wrote. Whoever opens
//! bytes that anybody may have written puts the veil over them: each call is safe then, and no answer of it is promised. It stands on disk_trait.

ghost use Rattle.std.specs.Prelude.{◌≡◌};
ghost use Rattle.std.proofs.lemmas.Bool.{false≢true};
ghost use Rattle.disk_trait.specs.File.{told_by_file};

use crate::{Disk, DiskFault};

/// A disk that tells its size and its count of faults alone.
#[derive(Drop)]
pub struct VeiledDisk<D: Disk + Drop> {
    disk: D,
}

impl<D: Disk + Drop> VeiledDisk<D> {
    /// The disk under the veil.
    pub fn over(disk: D) -> VeiledDisk<D>
        ensures { ⟦<VeiledDisk<D> as Disk>⟧.told result ≡ told_by_file (D.told disk).size (D.told disk).faults }
    {
        VeiledDisk { disk }
    }

    /// The disk that it was put over, as it is now.
    pub fn into_inner(self) -> D {
        self.disk
    }
}

impl<D: Disk + Drop> Disk for VeiledDisk<D> {
    ghost told = { λ d. told_by_file (D.told d.disk).size (D.told d.disk).faults };

    ghost contents_fit = { λ d h. absurd (false≢true h) };

    ghost images_fit = { λ d c h. absurd (false≢true h) };

    ghost images_need_contents = { λ d c h. absurd (false≢true h) };

    ghost contents_are_an_image = { λ d h. absurd (false≢true h) };

    ghost now_is_since = { λ d t c le h. absurd (false≢true h) };

    ghost since_now_is_now = { λ d c h. absurd (false≢true h) };

    fn size(&self) -> u64 {
        self.disk.size()
    }

    fn read(&mut self, at: u64, into: &mut [u8]) -> Result<(), DiskFault> {
        self.disk.read(at, into)
    }

    fn write(&mut self, at: u64, bytes: &[u8]) -> Result<(), DiskFault> {
        self.disk.write(at, bytes)
    }

    fn sync(&mut self) -> Result<(), DiskFault> {
        self.disk.sync()
    }

    fn faults(&self) -> u64 {
        self.disk.faults()
    }
}
