//! A disk that notes where it is read.

ghost use Rattle.std.specs.Prelude.{◌≡◌};

use disk_trait::{Disk, DiskFault, SteadyDisk};

/// How many reads are noted.
const ROOM: usize = 512;

/// The first bytes of the reads, in their order.
#[derive(Clone, Copy)]
pub struct Reads {
    at: [u64; ROOM],
    count: usize,
}

impl Reads {
    /// As far as there is room.
    fn note(&mut self, at: u64) {
        if self.count < ROOM {
            self.at[self.count] = at;
            self.count += 1;
        }
    }

    pub fn as_slice(&self) -> &[u64] {
        if self.count <= ROOM {
            &self.at[..self.count]
        } else {
            &self.at
        }
    }
}

/// A disk in memory that never fails, and notes where it is read.
#[derive(Drop)]
pub struct WatchedDisk {
    disk: SteadyDisk,
    reads: Reads,
}

impl WatchedDisk {
    /// Nothing is read so far.
    pub fn on(disk: SteadyDisk) -> WatchedDisk {
        let reads = Reads {
            at: [0; ROOM],
            count: 0,
        };
        WatchedDisk { disk, reads }
    }

    pub fn reads(&self) -> Reads {
        self.reads
    }
}

impl Disk for WatchedDisk {
    ghost use Rattle.std.specs.Prelude.{refl};
    ghost use Rattle.std.proofs.lemmas.Bool.{false≢true};
    ghost use Rattle.disk_trait.specs.Steady.{told_by_steady};

    ghost told = { λ d. told_by_steady d.disk };

    ghost contents_fit = { λ d h. refl };

    ghost images_fit = { λ d c h. absurd (false≢true h) };

    ghost images_need_contents = { λ d c h. absurd (false≢true h) };

    ghost contents_are_an_image = { λ d h. absurd (false≢true h) };

    ghost now_is_since = { λ d t c le h. absurd (false≢true h) };

    ghost since_now_is_now = { λ d c h. absurd (false≢true h) };

    fn size(&self) -> u64 {
        self.disk.size()
    }

    fn read(&mut self, at: u64, into: &mut [u8]) -> Result<(), DiskFault> {
        self.reads.note(at);
        self.disk.read(at, into)
    }

    fn write(&mut self, at: u64, bytes: &[u8]) -> Result<(), DiskFault> {
        self.disk.write(at, bytes)
    }

    fn sync(&mut self) -> Result<(), DiskFault> {
        self.disk.sync()
    }

    fn faults(&self) -> u64 {
        self.disk.faults()
    }
}
