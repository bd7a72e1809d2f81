//! The disk of a run: which it is, and what is done to it before.

ghost use Rattle.std.specs.Prelude.{◌<◌};

use crate::difference::{Difference, numbers_differ};
use crate::row::{Change, Command};
use block_model::NoMemory;
use brin_app::wanted_size;
use disk_trait::{Disk, SteadyDisk};
use std::alloc::Global;

/// A disk of zeros of the size that the words want; of none, where they want none.
pub fn new_disk(alloc: Global, command: &Command<'_>) -> Result<SteadyDisk, NoMemory> {
    let size = wanted_size(alloc, &command.words)?.unwrap_or(0);
    SteadyDisk::new(alloc, size)
}

/// The bytes of the disk.
pub fn bytes_of(alloc: Global, disk: &mut SteadyDisk) -> Result<Vec<u8>, NoMemory> {
    let mut bytes = vec![in alloc; 0u8; disk.size() as usize]?;
    let _ = disk.read(0, bytes.as_mut_slice());
    Ok(bytes)
}

/// The disk after a change.
pub fn changed(
    alloc: Global,
    mut disk: SteadyDisk,
    change: Change,
) -> Result<SteadyDisk, NoMemory> {
    match change {
        Change::Size(size) => SteadyDisk::new(alloc, size),
        Change::Cut(size) => cut(alloc, disk, size),
        Change::Becomes { at, value } => {
            put(&mut disk, at, value);
            Ok(disk)
        }
        Change::Is { .. } => Ok(disk),
    }
}

/// The disk of the first bytes.
fn cut(alloc: Global, mut disk: SteadyDisk, size: u64) -> Result<SteadyDisk, NoMemory> {
    let mut bytes = bytes_of(alloc, &mut disk)?;
    bytes.truncate(size as usize);
    Ok(SteadyDisk::from_image(bytes))
}

/// Puts a byte, where there is that place.
pub fn put(disk: &mut SteadyDisk, at: u64, value: u8) {
    if at < disk.size() {
        let _ = disk.write(at, &[value]);
    }
}

/// The byte at a place, where there is one.
pub fn byte_at(disk: &mut SteadyDisk, at: u64) -> Option<u8> {
    if at >= disk.size() {
        return None;
    }
    let mut byte = [0u8];
    let _ = disk.read(at, &mut byte);
    Some(byte[0])
}

/// Where the disk isn't as a row says.
pub fn disk_differs(
    alloc: Global,
    disk: &mut SteadyDisk,
    change: Change,
) -> Result<Option<Difference>, NoMemory> {
    let (Change::Is { at, value } | Change::Becomes { at, value }) = change else {
        return Ok(None);
    };
    let got = match byte_at(disk, at) {
        Some(byte) => u64::from(byte),
        None => 256,
    };
    let place = format!(in alloc; "byte {at}")?;
    numbers_differ(alloc, place.as_str(), u64::from(value), got)
}
