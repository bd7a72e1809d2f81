//! Disks with pages of statuses.

use block_model::Sizes;
use disk_trait::{Disk, SteadyDisk};
use std::alloc::Global;
use store_format::format;
use store_layout::{LEAST, table_layout};

/// A disk with a new store of so many blocks of statuses.
pub fn new_disk(alloc: Global, status_blocks: u32) -> Option<SteadyDisk> {
    let sizes = Sizes {
        status_blocks,
        ..LEAST
    };
    let layout = table_layout(alloc, 1, sizes)?;
    let mut disk = SteadyDisk::new(alloc, layout.disk_size()).ok()?;
    format(&mut disk, &layout).ok()?;
    Some(disk)
}
