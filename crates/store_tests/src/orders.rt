//! The calls of the disk that a store makes, in their order.

use crate::stores::{disk_of, formatted, layout, set_status, start_heap};
use disk_trait::MemoryDisk;
use page_store::PageStore;
use std::alloc::Global;

/// An offset on the disk, the byte that stands there once it is written, and a letter for it: the first change of the log, the gate
/// in front of it, the page of statuses, the first two blocks of the table, and the byte that chooses the other area.
const MARKS: [(usize, u8, u8); 6] = [
    (8199, 1, b'c'),
    (8192, 1, b'g'),
    (270368, 4, b's'),
    (278528, 2, b'h'),
    (286720, 2, b'i'),
    (1, 1, b'a'),
];

/// What is sure and what was written after each write and each sync.
const CHECKPOINT: [(&[u8], &[u8]); 14] = [
    (b"", b""),
    // The start syncs.
    (b"", b""),
    // The flush writes the frame and syncs, opens its gate and syncs.
    (b"", b"c"),
    (b"c", b"c"),
    (b"c", b"cg"),
    (b"cg", b"cg"),
    // The second flush makes no call. The checkpoint writes each dirty page once, in order of place, and syncs.
    (b"cg", b"cgs"),
    (b"cg", b"cgsh"),
    (b"cg", b"cgshi"),
    (b"cgshi", b"cgshi"),
    // It closes the first gate of the other area and syncs, and chooses that area and syncs.
    (b"cgshi", b"cgshi"),
    (b"cgshi", b"cgshi"),
    (b"cgshi", b"cgshia"),
    (b"cgshia", b"cgshia"),
];

/// The letters of what an image has.
fn letters(alloc: Global, image: &[u8]) -> Option<Vec<u8>> {
    let mut found = Vec::new(alloc);
    for (at, byte, letter) in MARKS {
        if image.get(at) == Some(&byte) {
            found.push(letter).ok()?;
        }
    }
    Some(found)
}

/// The letters of what is sure on the disk, and of what was written.
fn shown(alloc: Global, disk: &MemoryDisk) -> Option<(Vec<u8>, Vec<u8>)> {
    let old = disk.image(0).ok()?;
    let new = disk.image(1).ok()?;
    Some((
        letters(alloc, old.as_slice())?,
        letters(alloc, new.as_slice())?,
    ))
}

/// Three pages are changed, one of them twice; two flushes and a checkpoint.
fn three_pages(store: &mut PageStore<MemoryDisk>) -> Option<()> {
    set_status(store, 1)?;
    start_heap(store, 1)?;
    start_heap(store, 0)?;
    set_status(store, 1)?;
    store.flush().ok()?;
    store.flush().ok()?;
    store.checkpoint().ok()
}

/// A disk of this image on which these steps were made with so many writes and syncs, and whether all of them were.
fn stopped_after(alloc: Global, image: &[u8], calls: u64) -> Option<(MemoryDisk, bool)> {
    let held = Vec::from_slice(alloc, image).ok()?;
    let disk = disk_of(held, calls)?;
    let mut store = match PageStore::start(alloc, disk) {
        Ok(store) => store,
        Err((_, disk)) => return Some((disk, false)),
    };
    let done = three_pages(&mut store).is_some();
    Some((store.into_disk(), done))
}

/// Whether these steps, with so many writes and syncs, leave these letters; and whether all of them were made.
fn leaves(
    alloc: Global,
    image: &[u8],
    calls: u64,
    sure: &[u8],
    written: &[u8],
) -> Option<(bool, bool)> {
    let (disk, done) = stopped_after(alloc, image, calls)?;
    let (old, new) = shown(alloc, &disk)?;
    Some((old.as_slice() == sure && new.as_slice() == written, done))
}

/// How many calls at the front of the list leave what it says, and whether the last one alone makes all steps.
fn calls_shown(alloc: Global) -> Option<(usize, bool)> {
    let layout = layout(alloc, 2)?;
    let image = formatted(alloc, &layout)?;
    let mut whole = false;
    for (at, (sure, written)) in CHECKPOINT.iter().enumerate() {
        let (is_left, done) = leaves(alloc, image.as_slice(), at as u64, sure, written)?;
        if whole || !is_left {
            return Some((at, whole));
        }
        whole = done;
    }
    Some((CHECKPOINT.len(), whole))
}

#[test]
fn a_checkpoint_writes_pages_behind_their_log(rt: HostRuntime) {
    assert_eq!(rt; calls_shown(rt.alloc()), Some((14, true)));
}
