//! The calls of the disk that make a store, in their order.

use disk_trait::{Disk, MemoryDisk};
use std::alloc::Global;
use store_format::{FormatFault, format};
use store_layout::{LEAST, Layout, indexed_layout};

/// An offset on the disk, the byte that a new store has there, and a letter for it: the gate, the format of the control page, the
/// first byte of each area of the log, and the kind of each page: of the statuses, of the table, and three of the index.
const MARKS: [(usize, u8, u8); 9] = [
    (0, 1, b'g'),
    (11, 1, b'c'),
    (8192, 0, b'a'),
    (139264, 0, b'b'),
    (270336, 1, b's'),
    (278528, 0, b't'),
    (286720, 3, b'm'),
    (294912, 4, b'p'),
    (303104, 0, b'u'),
];

/// What is sure and what was written when each call fails that makes a store of a disk with an open gate.
const OPEN: [(&[u8], &[u8]); 15] = [
    // All is made sure, and the gate is read.
    (b"g", b"g"),
    (b"g", b"g"),
    // The gate is closed, and that is made sure.
    (b"g", b""),
    (b"g", b""),
    // All else is written, in ascending places of the relations, and made sure.
    (b"", b"c"),
    (b"", b"ca"),
    (b"", b"cab"),
    (b"", b"cabs"),
    (b"", b"cabst"),
    (b"", b"cabstm"),
    (b"", b"cabstmp"),
    (b"", b"cabstmpu"),
    (b"", b"cabstmpu"),
    // The gate is opened, and that is made sure.
    (b"cabstmpu", b"gcabstmpu"),
    (b"cabstmpu", b"gcabstmpu"),
];

/// A disk of so many bytes, each 7 but the first, on which so many calls may be recorded, and so many bytes that they write.
fn used_disk(alloc: Global, size: u64, gate: u8, calls: u64, bytes: u64) -> Option<MemoryDisk> {
    let mut held = vec![in alloc; 7u8; size as usize].ok()?;
    if let Some(first) = held.as_mut_slice().first_mut() {
        *first = gate;
    }
    let mut disk = MemoryDisk::from_image(held);
    disk.room(calls, bytes).ok()?;
    Some(disk)
}

/// The letters of what an image has of a new store.
fn marks(alloc: Global, image: &[u8]) -> Option<Vec<u8>> {
    let mut letters = Vec::new(alloc);
    for (at, byte, letter) in MARKS {
        if image.get(at) == Some(&byte) {
            letters.push(letter).ok()?;
        }
    }
    Some(letters)
}

/// Whether the disk's sure bytes have the one marks, and those that were written the other.
fn shows(alloc: Global, disk: &MemoryDisk, sure: &[u8], written: &[u8]) -> Option<bool> {
    let old = disk.image(0).ok()?;
    let new = disk.image(1).ok()?;
    let old_marks = marks(alloc, old.as_slice())?;
    let new_marks = marks(alloc, new.as_slice())?;
    Some(old_marks.as_slice() == sure && new_marks.as_slice() == written)
}

/// A disk with an open gate of which a store was made up to a call that failed.
fn stopped_at(alloc: Global, layout: &Layout, call: u64) -> Option<MemoryDisk> {
    let mut disk = used_disk(alloc, layout.disk_size(), 1, 100, 100000)?;
    disk.stop_at(call);
    match format(&mut disk, layout) {
        Err(FormatFault::Disk) => Some(disk),
        _ => None,
    }
}

/// How many calls at the front of the list, each of which fails, leave what the list says.
fn calls_shown(alloc: Global) -> Option<usize> {
    let layout = indexed_layout(alloc, 1, LEAST)?;
    for (at, (sure, written)) in OPEN.iter().enumerate() {
        let disk = stopped_at(alloc, &layout, at as u64 + 1)?;
        if !shows(alloc, &disk, sure, written)? {
            return Some(at);
        }
    }
    Some(OPEN.len())
}

#[test]
fn a_store_is_made_in_order_behind_a_closed_gate(rt: HostRuntime) {
    assert_eq!(rt; calls_shown(rt.alloc()), Some(15));
}

/// Whether a store is made on a disk with a closed gate, on which so many writes and syncs may be made and so many bytes written, and whether
/// it stands then.
fn made(alloc: Global, calls: u64, bytes: u64) -> Option<(bool, bool)> {
    let layout = indexed_layout(alloc, 1, LEAST)?;
    let mut disk = used_disk(alloc, layout.disk_size(), 7, calls, bytes)?;
    let is_made = format(&mut disk, &layout).is_ok();
    let stands = shows(alloc, &disk, b"gcabstmpu", b"gcabstmpu")?;
    Some((is_made, stands))
}

#[test]
fn each_byte_is_written_once(rt: HostRuntime) {
    // The control page behind its gate, the first byte of both areas, five pages and the gate; and three syncs.
    let bytes = 8191 + 2 + 5 * 8192 + 1;
    let found = [made(rt.alloc(), 12, bytes), made(rt.alloc(), 11, bytes)];
    assert_eq!(rt; found, [Some((true, true)), Some((false, false))]);
}
