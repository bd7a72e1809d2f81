//! Dropping the unnamed tuples of a page.

ghost use Rattle.std.specs.Prelude.{◌≡◌, ◌<◌, ◌≤◌, length, vec_capacity, IfErr, IfOk, OnOk, OnErr};
ghost use Rattle.block_model.specs.declared.limits.TheConstants.{PAGE_SIZE};
ghost use Rattle.page_map.specs.Keeps.{Keeps, Tells, Untold};
ghost use Rattle.page_map.specs.Outcome.{Outcome};
ghost use Rattle.page_store.specs.Survives.{Survives};
ghost use Rattle.coverage.specs.Counts.{IsCountOf};
ghost use Rattle.index_layout.specs.IndexPages.{IsIndexPage};
ghost use Rattle.index_contents.specs.IndexContents.{contents, index_page, relation_of};
ghost use Rattle.index_contents.specs.IndexChanges.{LeavesOtherPages};
ghost use Rattle.index_contents.specs.KeepsOrder.{KeepsOrder};
ghost use Rattle.index_steps.specs.Readings.{NamesPageOf};
ghost use Rattle.vacuum_core.specs.declared.judging.TheConstants.{MAX_SLOT_BYTES};
ghost use Rattle.vacuum_core.specs.SweptPages.{IsUnnamedAt, SweepsPage};

use crate::dropping::drop_tuples;
use crate::judging::list_unnamed;
use block_model::Place;
use disk_trait::Disk;
use index_contents::{index_pages_are_known, relation_of};
use index_layout::{a_put_changes_one_slot, an_index_page_has_one_list};
use page_layout::Page;
use page_map::StoreError;
use page_store::PageStore;

/// Drops the tuples of the block that the map doesn't name, and answers how many they are. They are judged and dropped in one: reads the
/// block's page once, and changes it once; not at all where each tuple is named. `page` has room for a page. After an error nothing is
/// changed. Takes no memory.
pub(crate) fn sweep<D: Disk + Drop>(
    pages: &mut PageStore<D>,
    index: u8,
    block: u32,
    page: &mut [u8],
    unnamed: &mut Vec<u8>,
) -> Result<u64, StoreError>
    requires index { index < length pages.old.layout.schema.indexes }
    requires block { block < pages.old.layout.sizes.index_blocks }
    requires page { length page.old ≡ PAGE_SIZE }
    requires room { MAX_SLOT_BYTES ≤ vec_capacity unnamed.old }
    ensures swept { OnOk result (Tells D.told pages.old → SweepsPage (contents pages.old.layout pages.old.pages index) (contents pages.old.layout pages.new.pages index) block) }
    ensures counted { IfOk result (λ count. Tells D.told pages.old → IsCountOf (λ k. IsUnnamedAt (contents pages.old.layout pages.old.pages index) (record { block = block; slot = k })) count) }
    ensures few { IfOk result (λ count. count ≤ 65536) }
    ensures same_page { length page.new ≡ length page.old }
    ensures capacity { vec_capacity unnamed.new ≡ vec_capacity unnamed.old }
    ensures kept { OnErr result (Keeps D.told pages.old pages.new) }
    ensures others { LeavesOtherPages D.told (record { relation = relation_of pages.old.layout index; block = block }) pages.old pages.new }
    ensures order { KeepsOrder D.told index pages.old pages.new }
    ensures survives { Survives D.told (λ passed. passed ≡ pages.old.pages) pages.old pages.new }
    ensures at { IfErr result (NamesPageOf pages.old.layout index) }
    ensures outcome { Outcome D.told (Untold D.told pages.old) pages.old pages.new result }
{
    an_index_page_has_one_list();
    a_put_changes_one_slot();
    match copy_page(pages, index, block, page) {
        Ok(()) => {}
        Err(error) => return Err(error),
    }
    let count = match list_unnamed(pages, index, block, page, unnamed) {
        Ok(count) => count,
        Err(error) => return Err(error),
    };
    if unnamed.is_empty() {
        return Ok(count);
    }
    let relation = relation_of(pages.layout(), index);
    match drop_tuples(pages, Place { relation, block }, unnamed.as_slice()) {
        Ok(()) => Ok(count),
        Err(error) => Err(error),
    }
}

/// `out` becomes the bytes of the block's page.
fn copy_page<D: Disk + Drop>(
    pages: &mut PageStore<D>,
    index: u8,
    block: u32,
    out: &mut [u8],
) -> Result<(), StoreError>
    requires index { index < length pages.old.layout.schema.indexes }
    requires block { block < pages.old.layout.sizes.index_blocks }
    requires room { length out.old ≡ PAGE_SIZE }
    ensures page { OnOk result (Tells D.told pages.old → out.new ≡ index_page pages.old.layout pages.old.pages index block) }
    ensures form { OnOk result (IsIndexPage out.new) }
    ensures same_room { length out.new ≡ length out.old }
    ensures kept { Keeps D.told pages.old pages.new }
    ensures survives { Survives D.told (λ passed. passed ≡ pages.old.pages) pages.old pages.new }
    ensures at { IfErr result (NamesPageOf pages.old.layout index) }
    ensures outcome { Outcome D.told (Untold D.told pages.old) pages.old pages.new result }
{
    index_pages_are_known();
    let relation = relation_of(pages.layout(), index);
    match pages.read(Place { relation, block }) {
        Ok(page) => {
            copy(page, out);
            Ok(())
        }
        Err(error) => Err(error),
    }
}

/// `out` becomes the bytes of the page.
fn copy(page: &Page, out: &mut [u8])
    requires { length out.old ≡ PAGE_SIZE }
    ensures { out.new ≡ page.now }
{
    out.copy_from_slice(page.as_bytes());
}
