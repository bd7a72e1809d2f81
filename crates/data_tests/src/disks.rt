//! A disk over a file: a list of calls, each with whether it goes well.

ghost use Rattle.std.specs.Prelude.{◌≡◌, ◌+◌, ◌≤◌, true};

use disk_trait::{Disk, DiskFault, FileDisk};
use std::fs;
use std::fs::OpenOptions;
use std::test::Fail;

/// A call of a disk.
#[derive(Clone, Copy)]
enum Call {
    Write(u64, &'static [u8]),
    Sync,
    /// It goes well where these bytes are read, which are eight at most.
    Read(u64, &'static [u8]),
    /// It goes well where the disk has this size and so many faults.
    Tell(u64, u64),
}

/// Whether the disk has so many bytes there.
fn has<D: Disk>(disk: &D, at: u64, count: usize) -> bool
    ensures { result ≡ true → at + count ≤ (D.told disk.now).size }
{
    let size = disk.size();
    if at > size {
        return false;
    }
    count as u64 <= size - at
}

fn writes<D: Disk>(disk: &mut D, at: u64, bytes: &[u8]) -> bool {
    if !has(disk, at, bytes.len()) {
        return false;
    }
    disk.write(at, bytes).is_ok()
}

fn reads<D: Disk>(disk: &mut D, at: u64, bytes: &[u8]) -> bool {
    if bytes.len() > 8 {
        return false;
    }
    if !has(disk, at, bytes.len()) {
        return false;
    }
    let mut piece = [7u8; 8];
    let into = &mut piece[..bytes.len()];
    match disk.read(at, into) {
        Ok(()) => &piece[..bytes.len()] == bytes,
        Err(DiskFault) => false,
    }
}

fn goes_well<D: Disk>(disk: &mut D, call: Call) -> bool {
    match call {
        Call::Write(at, bytes) => writes(disk, at, bytes),
        Call::Sync => disk.sync().is_ok(),
        Call::Read(at, bytes) => reads(disk, at, bytes),
        Call::Tell(size, faults) => disk.size() == size && disk.faults() == faults,
    }
}

/// The place in the list of the first call that doesn't go so, on a disk that other threads may be handed.
fn first_other<D: Disk + Send>(disk: &mut D, calls: &[(Call, bool)]) -> Option<usize> {
    for (at, (call, well)) in calls.iter().enumerate() {
        if goes_well(disk, *call) != *well {
            return Some(at);
        }
    }
    None
}

/// The file ends at its sixth byte.
const OF_FILE: [(Call, bool); 8] = [
    (Call::Write(0, b"abcd"), true),
    (Call::Sync, true),
    (Call::Read(1, b"bc"), true),
    (Call::Write(5, b"z"), true),
    (Call::Read(3, b"d\0z"), true),
    (Call::Tell(8, 0), true),
    (Call::Read(5, b"z\0"), false),
    (Call::Tell(8, 1), true),
];

#[test]
fn file_disk_writes_and_reads_at_offsets(rt: HostRuntime) -> Result<(), Fail> {
    let file = OpenOptions::new()
        .read(true)
        .write(true)
        .create(true)
        .open(&rt, "disk")?;
    let found = first_other(&mut FileDisk::on(file, 8), &OF_FILE);
    fs::remove_file(&rt, "disk")?;
    assert_eq!(rt; found, None);
    Ok(())
}
