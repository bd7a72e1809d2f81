//! The number of a page.

ghost use Rattle.std.specs.Prelude.{◌≡◌, ◌*◌, ◌+◌, ◌≤◌};
ghost use Rattle.block_model.specs.declared.limits.TheConstants.{PAGE_SIZE};
ghost use Rattle.store_layout.specs.DiskLayout.{IsPlace, disk_size};
ghost use Rattle.recovery.specs.PageNumbers.{page_number};

use block_model::{PAGE_SIZE, Place};
use store_layout::{Layout, pages_fill_the_disk};

/// The number of the page at the place, among all pages of the disk.
pub fn number_of(layout: &Layout, place: Place) -> u64
    requires place { IsPlace layout.now place }
    ensures number { result ≡ page_number layout.now place }
    ensures within { PAGE_SIZE * result + PAGE_SIZE ≤ disk_size layout.now }
{
    pages_fill_the_disk(layout);
    layout.page_at(place) / PAGE_SIZE as u64
}
