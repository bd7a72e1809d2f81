//! Putting a tuple on a page.

ghost use Rattle.std.specs.Prelude.{◌≡◌, ◌<◌, length, IfOk, IfErr, OnErr};
ghost use Rattle.store_layout.specs.DiskLayout.{IsPlace};
ghost use Rattle.page_layout.specs.declared.page.Form.TheVariants as forms;
ghost use Rattle.page_map.specs.Forms.{form_of};
ghost use Rattle.page_map.specs.Keeps.{Keeps, Tells, Untold};
ghost use Rattle.page_map.specs.Outcome.{NamesPage, Outcome};
ghost use Rattle.page_map.specs.PageMap.{page_at};
ghost use Rattle.page_store.specs.Survives.{Survives};
ghost use Rattle.index_contents.specs.IndexPages.{IsIndexPage};
ghost use Rattle.index_contents.specs.IndexContents.{contents, relation_of};
ghost use Rattle.index_contents.specs.IndexChanges.{LeavesOtherPages, LeavesOthers, PutsBytes};
ghost use Rattle.range_store.specs.PageTuples.{PutsOn, TakesOn};
ghost use Rattle.index_contents.specs.KeepsOrder.{KeepsOrder};
ghost use Rattle.range_store.specs.Tuples.{IsFirstUnstarted, IsTupleSize, TakesBytes, opening_of};

use crate::changes::{put_tuple, start_with};
use block_model::{Place, Spot};
use disk_trait::Disk;
use index_contents::{
    REGULAR, UNSTARTED, a_put_changes_one_slot, an_index_page_has_one_list, free_slot,
    index_pages_are_known, kind_of, relation_of, the_lowest_free_slot_has_room,
};
use page_layout::Page;
use page_map::StoreError;
use page_store::PageStore;

/// Where a further tuple may stand on a page.
#[derive(Clone, Copy, Debug)]
enum Opening {
    /// In this slot, the lowest free one, else the next one.
    Slot(u16),
    /// In the first slot of a page that is started for it.
    NewPage,
    /// Nowhere: the page is of the map, or is emptied for it.
    Closed,
}

/// Puts a tuple into the lowest free slot of a page that takes it, else into its next one, and answers where it stands. A page that
/// isn't started is started in the same change. The pages of the index stay in order, where a page that isn't started is the first such
/// one. After an error nothing is changed.
pub fn put<D: Disk + Drop>(
    pages: &mut PageStore<D>,
    index: u8,
    block: u32,
    bytes: &[u8],
) -> Result<Spot, StoreError>
    requires index { index < length pages.old.layout.schema.indexes }
    requires block { block < pages.old.layout.sizes.index_blocks }
    requires size { IsTupleSize (length bytes.now) }
    requires room { Tells D.told pages.old → TakesBytes (contents pages.old.layout pages.old.pages index).pages (contents pages.old.layout pages.old.pages index).bytes (length bytes.now) block }
    ensures block { IfOk result (λ spot. spot.block ≡ block) }
    ensures put { IfOk result (λ spot. Tells D.told pages.old → PutsBytes (contents pages.old.layout pages.old.pages index) (contents pages.old.layout pages.new.pages index) spot bytes.now) }
    ensures kept { OnErr result (Keeps D.told pages.old pages.new) }
    ensures others { LeavesOthers D.told index pages.old pages.new }
    ensures pages { LeavesOtherPages D.told (record { relation = relation_of pages.old.layout index; block = block }) pages.old pages.new }
    ensures order { (Tells D.told pages.old → IsFirstUnstarted (contents pages.old.layout pages.old.pages index).pages block) → KeepsOrder D.told index pages.old pages.new }
    // The change itself isn't sure before the next flush.
    ensures survives { Survives D.told (λ passed. passed ≡ pages.old.pages) pages.old pages.new }
    ensures at { IfErr result (NamesPage pages.old.layout (record { relation = relation_of pages.old.layout index; block = block })) }
    ensures outcome { Outcome D.told (Untold D.told pages.old) pages.old pages.new result }
{
    pages.known();
    let relation = relation_of(pages.layout(), index);
    match put_on(pages, Place { relation, block }, bytes) {
        Ok(slot) => Ok(Spot { block, slot }),
        Err(error) => Err(error),
    }
}

/// Puts a tuple into the lowest free slot of the page, else into its next one, and answers the slot.
fn put_on<D: Disk + Drop>(
    pages: &mut PageStore<D>,
    place: Place,
    bytes: &[u8],
) -> Result<u16, StoreError>
    requires place { IsPlace pages.old.layout place }
    requires form { form_of pages.old.layout place.relation ≡ forms.Index }
    requires size { IsTupleSize (length bytes.now) }
    requires room { Tells D.told pages.old → TakesOn (page_at pages.old.pages place) (length bytes.now) }
    ensures put { IfOk result (λ slot. Tells D.told pages.old → PutsOn (page_at pages.old.pages place) (page_at pages.new.pages place) slot bytes.now) }
    ensures kept { OnErr result (Keeps D.told pages.old pages.new) }
    ensures others { LeavesOtherPages D.told place pages.old pages.new }
    ensures survives { Survives D.told (λ passed. passed ≡ pages.old.pages) pages.old pages.new }
    ensures at { IfErr result (NamesPage pages.old.layout place) }
    ensures outcome { Outcome D.told (Untold D.told pages.old) pages.old pages.new result }
{
    an_index_page_has_one_list();
    a_put_changes_one_slot();
    the_lowest_free_slot_has_room();
    match opening_at(pages, place) {
        Ok(Opening::Slot(slot)) => match put_tuple(pages, place, slot, bytes) {
            Ok(()) => Ok(slot),
            Err(error) => Err(error),
        },
        Ok(Opening::NewPage) => match start_with(pages, place, bytes) {
            Ok(()) => Ok(0),
            Err(error) => Err(error),
        },
        // No page of another kind is started anew.
        Ok(Opening::Closed) => Err(StoreError::Damaged {
            at: pages.layout().page_at(place),
        }),
        Err(error) => Err(error),
    }
}

/// Where a further tuple may stand on the page.
fn opening_at<D: Disk + Drop>(pages: &mut PageStore<D>, place: Place) -> Result<Opening, StoreError>
    requires place { IsPlace pages.old.layout place }
    requires form { form_of pages.old.layout place.relation ≡ forms.Index }
    ensures opening { IfOk result (λ opening. Tells D.told pages.old → opening ≡ opening_of (page_at pages.old.pages place)) }
    ensures kept { Keeps D.told pages.old pages.new }
    ensures survives { Survives D.told (λ passed. passed ≡ pages.old.pages) pages.old pages.new }
    ensures at { IfErr result (NamesPage pages.old.layout place) }
    ensures outcome { Outcome D.told (Untold D.told pages.old) pages.old pages.new result }
{
    index_pages_are_known();
    match pages.read(place) {
        Ok(page) => Ok(opening_of(page)),
        Err(error) => Err(error),
    }
}

/// The same of a page.
fn opening_of(page: &Page) -> Opening
    requires page { IsIndexPage page.now }
    ensures { result ≡ opening_of page.now }
{
    let bytes = page.as_bytes();
    match kind_of(bytes) {
        REGULAR => Opening::Slot(free_slot(bytes)),
        UNSTARTED => Opening::NewPage,
        _ => Opening::Closed,
    }
}
