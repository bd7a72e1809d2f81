//! A disk in memory that never fails.

ghost use Rattle.std.specs.Prelude.{◌≡◌, IfOk, replicate, refl};
ghost use Rattle.std.proofs.lemmas.Bool.{false≢true};
ghost use Rattle.disk_trait.specs.Steady.{told_by_steady};

use crate::bytes::overwrite;
use crate::disk::{Disk, DiskFault};
use block_model::NoMemory;
use std::alloc::Global;
use std::marker::Model;

/// A disk that never fails, seen as its bytes. It tells these and no images.
#[derive(Debug, Drop)]
pub struct SteadyDisk {
    bytes: Vec<u8>,
}

impl Model for SteadyDisk {
    ghost use Rattle.std.specs.Prelude.{List, ℕ};

    ghost Value = { List ℕ };

    ghost view = { λ d. d.bytes.items };
}

impl SteadyDisk {
    /// A disk of so many bytes, each 0. `Err` is want of memory.
    pub fn new(alloc: Global, size: u64) -> Result<SteadyDisk, NoMemory>
        ensures { IfOk result (λ d. d ≡ replicate size 0) }
    {
        let bytes = vec![in alloc; 0u8; size as usize]?;
        Ok(SteadyDisk { bytes })
    }

    /// A disk of these bytes. It takes no memory.
    pub fn from_image(bytes: Vec<u8>) -> SteadyDisk
        ensures { result ≡ bytes.items }
    {
        SteadyDisk { bytes }
    }
}

impl Disk for SteadyDisk {
    ghost told = { told_by_steady };

    ghost contents_fit = { λ d h. refl };

    ghost images_fit = { λ d c h. absurd (false≢true h) };

    ghost images_need_contents = { λ d c h. absurd (false≢true h) };

    ghost contents_are_an_image = { λ d h. absurd (false≢true h) };

    ghost now_is_since = { λ d t c le h. absurd (false≢true h) };

    ghost since_now_is_now = { λ d c h. absurd (false≢true h) };

    fn size(&self) -> u64 {
        self.bytes.len() as u64
    }

    fn read(&mut self, at: u64, into: &mut [u8]) -> Result<(), DiskFault> {
        let from = at as usize;
        into.copy_from_slice(&self.bytes[from..from + into.len()]);
        Ok(())
    }

    #[tactic(auto, using(crate::specs::TornLaws::torn_spliced))]
    fn write(&mut self, at: u64, bytes: &[u8]) -> Result<(), DiskFault> {
        overwrite(&mut self.bytes, at as usize, bytes);
        Ok(())
    }

    fn sync(&mut self) -> Result<(), DiskFault> {
        Ok(())
    }

    fn faults(&self) -> u64 {
        0
    }
}
