//! Stores over a disk in memory.

ghost use Rattle.std.specs.Prelude.{◌≡◌};
ghost use Rattle.wal_record.specs.Changes.{logged, place_of};

use block_model::{Place, Sizes};
use disk_trait::MemoryDisk;
use page_layout::HEAP;
use page_redo::fits;
use page_store::PageStore;
use recovery::is_place;
use std::alloc::Global;
use store_format::format;
use store_layout::{LEAST, Layout, table_layout};
use wal_record::Change;

/// More writes and syncs than a test makes, and more bytes than they write.
const MANY: u64 = 100;

const BYTES: u64 = 1_000_000;

/// The page of statuses.
const STATUSES: Place = Place {
    relation: 0,
    block: 0,
};

/// A block of the table.
fn heap_block(block: u32) -> Place {
    Place { relation: 1, block }
}

/// The layout of the table `t(a int8)` of one row a page and so many blocks. An area of the log has 131072 bytes, the pages begin at byte
/// 270336 with that of the statuses, and the pool has 16 frames.
pub fn layout(alloc: Global, heap_blocks: u32) -> Option<Layout> {
    let sizes = Sizes {
        heap_blocks,
        ..LEAST
    };
    table_layout(alloc, 1, sizes)
}

/// A disk of this image that makes so many writes and syncs, and then fails.
pub fn disk_of(image: Vec<u8>, calls: u64) -> Option<MemoryDisk> {
    let mut disk = MemoryDisk::from_image(image);
    disk.room(calls, BYTES).ok()?;
    Some(disk)
}

/// The bytes of a new store.
pub fn formatted(alloc: Global, layout: &Layout) -> Option<Vec<u8>> {
    let mut disk = MemoryDisk::new(alloc, layout.disk_size()).ok()?;
    disk.room(MANY, BYTES).ok()?;
    format(&mut disk, layout).ok()?;
    disk.image(1).ok()
}

/// Makes the change of the page at the place. `None` where there is no such page, where the change doesn't fit it, or where the
/// store refuses.
fn make(store: &mut PageStore<MemoryDisk>, place: Place, change: &Change<'_>) -> Option<()>
    requires own { place_of (logged change.now) ≡ place }
{
    if !is_place(store.layout(), place) {
        return None;
    }
    let form = store.form(place.relation);
    let fitting = match store.read(place) {
        Ok(page) => fits(page, change, form),
        Err(_) => false,
    };
    if !fitting {
        return None;
    }
    store.change(place, change).ok()
}

/// The transaction of that number is begun.
pub fn set_status(store: &mut PageStore<MemoryDisk>, entry: u16) -> Option<()> {
    let place = STATUSES;
    let status = 1;
    make(
        store,
        place,
        &Change::StatusSet {
            place,
            entry,
            status,
        },
    )
}

/// Starts the block of the table.
pub fn start_heap(store: &mut PageStore<MemoryDisk>, block: u32) -> Option<()> {
    let place = heap_block(block);
    make(store, place, &Change::PageStart { place, kind: HEAP })
}
