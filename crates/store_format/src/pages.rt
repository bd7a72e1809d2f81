//! The pages of a new store.

ghost use Rattle.std.specs.Prelude.{◌≡◌, ◌<◌, ◌≤◌, IsTrue, take, replicate, length, OnOk};
ghost use Rattle.block_model.specs.Causes.{HasCause};
ghost use Rattle.block_model.specs.declared.limits.TheConstants.{PAGE_SIZE};
ghost use Rattle.disk_trait.specs.Throughout.{Throughout};
ghost use Rattle.store_layout.specs.DiskLayout.{IsPlace, disk_size, first_offset, relation_blocks};
ghost use Rattle.store_format.specs.Blank.{Freshens, HasFreshPages};
ghost use Rattle.store_format.specs.FreshStore.{IsClosed, fresh_page};
ghost use Rattle.store_format.specs.Gate.{AreClosed};

use crate::gate::put_behind;
use block_model::{PAGE_SIZE, Place};
use disk_trait::{Disk, DiskFault};
use index_layout::{start_map, start_meta};
use page_layout::STATUS;
use store_layout::{Layout, blocks_of, count_relations, pages_fill_the_disk};

/// The block of an index that is its metapage.
const META_BLOCK: u32 = 0;

/// The block of an index that is its first page of the map.
const MAP_BLOCK: u32 = 1;

/// Writes every page of the relations, in ascending order.
pub fn write_pages<D: Disk>(disk: &mut D, layout: &Layout) -> Result<(), DiskFault>
    requires size { (D.told disk.old).size ≡ disk_size layout.now }
    requires closed { AreClosed (D.told disk.old) }
    ensures closed { AreClosed (D.told disk.new) }
    ensures any_moment { Throughout (D.told disk.old) (D.told disk.new) IsClosed }
    ensures pages { OnOk result (IsTrue (D.told disk.old).tells_contents → HasFreshPages layout.now (D.told disk.new).contents) }
    ensures front { IsTrue (D.told disk.old).tells_contents → take (first_offset layout.now) (D.told disk.new).contents ≡ take (first_offset layout.now) (D.told disk.old).contents }
    ensures cause { HasCause (D.told disk.old).faults (D.told disk.new).faults result }
{
    'relations: for relation in 0..count_relations(layout) {
        write_relation(disk, layout, relation)?;
    }
    Ok(())
}

/// Writes every page of a relation.
fn write_relation<D: Disk>(disk: &mut D, layout: &Layout, relation: u8) -> Result<(), DiskFault>
    requires size { (D.told disk.old).size ≡ disk_size layout.now }
    requires relation { relation < length (relation_blocks layout.now) }
    requires closed { AreClosed (D.told disk.old) }
    ensures closed { AreClosed (D.told disk.new) }
    ensures any_moment { Throughout (D.told disk.old) (D.told disk.new) IsClosed }
    ensures pages { OnOk result (IsTrue (D.told disk.old).tells_contents → Freshens layout.now (λ place. place.relation ≡ relation) (D.told disk.old).contents (D.told disk.new).contents) }
    ensures front { IsTrue (D.told disk.old).tells_contents → take (first_offset layout.now) (D.told disk.new).contents ≡ take (first_offset layout.now) (D.told disk.old).contents }
    ensures cause { HasCause (D.told disk.old).faults (D.told disk.new).faults result }
{
    'places: for block in 0..blocks_of(layout, relation) {
        write_page(disk, layout, Place { relation, block })?;
    }
    Ok(())
}

/// Writes the page of a place.
fn write_page<D: Disk>(disk: &mut D, layout: &Layout, place: Place) -> Result<(), DiskFault>
    requires size { (D.told disk.old).size ≡ disk_size layout.now }
    requires place { IsPlace layout.now place }
    requires closed { AreClosed (D.told disk.old) }
    ensures closed { AreClosed (D.told disk.new) }
    ensures any_moment { Throughout (D.told disk.old) (D.told disk.new) IsClosed }
    ensures pages { OnOk result (IsTrue (D.told disk.old).tells_contents → Freshens layout.now (λ other. other ≡ place) (D.told disk.old).contents (D.told disk.new).contents) }
    ensures front { IsTrue (D.told disk.old).tells_contents → take (first_offset layout.now) (D.told disk.new).contents ≡ take (first_offset layout.now) (D.told disk.old).contents }
    ensures cause { HasCause (D.told disk.old).faults (D.told disk.new).faults result }
{
    let mut page = [0u8; PAGE_SIZE];
    fill_page(layout, place, &mut page);
    pages_fill_the_disk(layout);
    put_behind(disk, layout.page_at(place), &page)?;
    Ok(())
}

/// Makes of a page of zeros the one that a new store has at a place.
#[tactic(auto, unfolding(crate::specs::FreshStore::unstarted_page))]
pub fn fill_page(layout: &Layout, place: Place, page: &mut [u8])
    requires { page.old ≡ replicate PAGE_SIZE 0 }
    ensures page { page.new ≡ fresh_page layout.now place }
    ensures whole { length page.new ≡ PAGE_SIZE }
{
    if place.relation == 0 {
        page[0] = STATUS;
        return;
    }
    if usize::from(place.relation) <= layout.schema().tables.len() {
        return;
    }
    if place.block == META_BLOCK {
        start_meta(page, 1);
        return;
    }
    if place.block == MAP_BLOCK {
        start_map(page);
    }
}
