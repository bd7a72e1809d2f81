//! A disk behind the name of a call.

ghost use Rattle.std.specs.Prelude.{◌≡◌};
ghost use Rattle.session_stepper.specs.NamedLaws.{contents_fit, contents_here, has_contents, images_fit, is_now, is_since};
ghost use Rattle.session_stepper.specs.NamedTold.{told_to};

use crate::names::Names;
use disk_trait::{Disk, DiskFault};
use std::marker::PhantomData;

/// A disk that tells what the one in it tells exactly where the name is honest; over any other name it tells its size and its count of faults alone. So a store
/// may be opened over any bytes behind a name that isn't honest: each call is safe, and nothing is promised of them.
#[derive(Drop)]
pub struct NamedDisk<N: Names, D: Disk + Drop> {
    disk: D,
    of: PhantomData<N>,
}

impl<N: Names, D: Disk + Drop> NamedDisk<N, D> {
    /// The disk behind the name.
    pub fn new(disk: D) -> NamedDisk<N, D>
        ensures { result.disk ≡ disk }
    {
        NamedDisk {
            disk,
            of: PhantomData,
        }
    }

    /// The disk itself, as it is now.
    pub fn into_inner(self) -> D
        ensures { result ≡ self.disk }
    {
        self.disk
    }
}

impl<N: Names, D: Disk + Drop> Disk for NamedDisk<N, D> {
    ghost told = { λ d. told_to N.honest (D.told d.disk) };

    ghost contents_fit = { λ d. contents_fit N.honest (D.told d.disk) (D.contents_fit d.disk) };

    ghost images_fit = { λ d c. images_fit N.honest (D.told d.disk) c (D.images_fit d.disk c) };

    ghost images_need_contents = { λ d c. has_contents N.honest (D.told d.disk) c (D.images_need_contents d.disk c) };

    ghost contents_are_an_image = { λ d. contents_here N.honest (D.told d.disk) (D.contents_are_an_image d.disk) };

    ghost now_is_since = { λ d t c. is_since N.honest (D.told d.disk) t c (D.now_is_since d.disk t c) };

    ghost since_now_is_now = { λ d c. is_now N.honest (D.told d.disk) c (D.since_now_is_now d.disk c) };

    fn size(&self) -> u64 {
        self.disk.size()
    }

    fn read(&mut self, at: u64, into: &mut [u8]) -> Result<(), DiskFault> {
        self.disk.read(at, into)
    }

    fn write(&mut self, at: u64, bytes: &[u8]) -> Result<(), DiskFault> {
        self.disk.write(at, bytes)
    }

    fn sync(&mut self) -> Result<(), DiskFault> {
        self.disk.sync()
    }

    fn faults(&self) -> u64 {
        self.disk.faults()
    }
}
