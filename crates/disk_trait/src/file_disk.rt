//! A file as a disk.

ghost use Rattle.std.specs.Prelude.{◌≡◌};
ghost use Rattle.std.proofs.lemmas.Bool.{false≢true};
ghost use Rattle.disk_trait.specs.File.{told_by_file};

use crate::counted;
use crate::disk::{Disk, DiskFault};
use std::fs::File;
use std::os::unix::fs::FileExt;

/// A file of std as a disk. It tells nothing of what it holds, and counts each call that failed. A sync makes the bytes of the file
/// sure, as fdatasync does: its size stays.
#[derive(Drop)]
pub struct FileDisk {
    file: File,
    size: u64,
    faults: u64,
}

impl FileDisk {
    /// A disk of the file's first `size` bytes, on which no call has failed so far.
    pub fn on(file: File, size: u64) -> FileDisk
        ensures { ⟦<FileDisk as Disk>⟧.told result ≡ told_by_file size 0 }
    {
        FileDisk {
            file,
            size,
            faults: 0,
        }
    }
}

impl Disk for FileDisk {
    ghost told = { λ d. told_by_file d.size d.faults };

    ghost contents_fit = { λ d h. absurd (false≢true h) };

    ghost images_fit = { λ d c h. absurd (false≢true h) };

    ghost images_need_contents = { λ d c h. absurd (false≢true h) };

    ghost contents_are_an_image = { λ d h. absurd (false≢true h) };

    ghost now_is_since = { λ d t c le h. absurd (false≢true h) };

    ghost since_now_is_now = { λ d c h. absurd (false≢true h) };

    fn size(&self) -> u64 {
        self.size
    }

    fn read(&mut self, at: u64, into: &mut [u8]) -> Result<(), DiskFault> {
        let outcome = self.file.read_exact_at(into, at);
        counted(outcome.ok(), DiskFault, &mut self.faults)
    }

    fn write(&mut self, at: u64, bytes: &[u8]) -> Result<(), DiskFault> {
        let outcome = self.file.write_all_at(bytes, at);
        counted(outcome.ok(), DiskFault, &mut self.faults)
    }

    fn sync(&mut self) -> Result<(), DiskFault> {
        let outcome = self.file.sync_data();
        counted(outcome.ok(), DiskFault, &mut self.faults)
    }

    fn faults(&self) -> u64 {
        self.faults
    }
}
