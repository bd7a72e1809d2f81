//! Dropping the tuple at a spot.

ghost use Rattle.std.specs.Prelude.{◌≡◌, ◌≢◌, ◌<◌, ◌≤◌, Bool, true, false, None, length, slice_index, IfOk, IfErr, OnOk, OnErr};
ghost use Rattle.store_layout.specs.DiskLayout.{IsPlace};
ghost use Rattle.page_layout.specs.declared.page.Form.TheVariants as forms;
ghost use Rattle.page_map.specs.Forms.{form_of};
ghost use Rattle.page_map.specs.Keeps.{Keeps, Tells, Untold};
ghost use Rattle.page_map.specs.Outcome.{IsReopen, NamesPage, Outcome};
ghost use Rattle.page_map.specs.PageMap.{page_at};
ghost use Rattle.page_store.specs.Survives.{Survives};
ghost use Rattle.index_contents.specs.IndexPages.{IsIndexPage};
ghost use Rattle.index_contents.specs.IndexReading.{is_regular, slots_of};
ghost use Rattle.index_contents.specs.IndexContents.{contents, index_page, relation_of, tuple_on};
ghost use Rattle.index_contents.specs.IndexChanges.{DropsBytes, LeavesOtherPages, LeavesOthers};
ghost use Rattle.index_contents.specs.KeepsOrder.{KeepsOrder};
ghost use Rattle.range_store.specs.PageTuples.{DropsOn, StaysWithoutTuples};

use crate::changes::drop_tuple;
use block_model::{Place, Spot};
use disk_trait::Disk;
use index_contents::{
    a_put_changes_one_slot, an_index_page_has_one_list, index_pages_are_known, relation_of,
    tuple_at,
};
use page_layout::Page;
use page_map::StoreError;
use page_store::PageStore;

/// The spot has no tuple any more, whatever stood there. Where none did, and after an error, nothing is changed; so a page that isn't
/// one of tuples stays as it is. Damage is the page's; where the index can't have the page, Reopen is the only error.
pub fn drop_at<D: Disk + Drop>(
    pages: &mut PageStore<D>,
    index: u8,
    spot: Spot,
) -> Result<(), StoreError>
    requires index { index < length pages.old.layout.schema.indexes }
    ensures dropped { OnOk result (Tells D.told pages.old → DropsBytes (contents pages.old.layout pages.old.pages index) (contents pages.old.layout pages.new.pages index) spot) }
    ensures free { OnOk result (Tells D.told pages.old → (contents pages.old.layout pages.old.pages index).bytes spot ≡ None → index_page pages.old.layout pages.new.pages index spot.block ≡ index_page pages.old.layout pages.old.pages index spot.block) }
    ensures alone { OnOk result (Tells D.told pages.old → StaysWithoutTuples (index_page pages.old.layout pages.old.pages index spot.block) (index_page pages.old.layout pages.new.pages index spot.block)) }
    ensures kept { OnErr result (Keeps D.told pages.old pages.new) }
    ensures others { LeavesOthers D.told index pages.old pages.new }
    ensures pages { LeavesOtherPages D.told (record { relation = relation_of pages.old.layout index; block = spot.block }) pages.old pages.new }
    ensures order { KeepsOrder D.told index pages.old pages.new }
    // The change itself isn't sure before the next flush.
    ensures survives { Survives D.told (λ passed. passed ≡ pages.old.pages) pages.old pages.new }
    ensures at { IfErr result (NamesPage pages.old.layout (record { relation = relation_of pages.old.layout index; block = spot.block })) }
    ensures reopen { IfErr result (λ error. pages.old.layout.sizes.index_blocks ≤ spot.block → IsReopen error) }
    ensures outcome { Outcome D.told (Untold D.told pages.old) pages.old pages.new result }
{
    pages.known();
    let relation = relation_of(pages.layout(), index);
    let block = spot.block;
    if block >= pages.layout().sizes().index_blocks {
        // A page that the index can't have isn't started.
        return match pages.ready() {
            Ok(()) => Ok(()),
            Err(error) => Err(error),
        };
    }
    let place = Place { relation, block };
    match drop_on(pages, place, spot.slot) {
        Ok(()) => Ok(()),
        Err(error) => Err(error),
    }
}

/// The slot of the page has no tuple any more.
fn drop_on<D: Disk + Drop>(
    pages: &mut PageStore<D>,
    place: Place,
    slot: u16,
) -> Result<(), StoreError>
    requires place { IsPlace pages.old.layout place }
    requires form { form_of pages.old.layout place.relation ≡ forms.Index }
    ensures dropped { OnOk result (Tells D.told pages.old → DropsOn (page_at pages.old.pages place) (page_at pages.new.pages place) slot) }
    ensures kept { OnErr result (Keeps D.told pages.old pages.new) }
    ensures others { LeavesOtherPages D.told place pages.old pages.new }
    ensures survives { Survives D.told (λ passed. passed ≡ pages.old.pages) pages.old pages.new }
    ensures at { IfErr result (NamesPage pages.old.layout place) }
    ensures outcome { Outcome D.told (Untold D.told pages.old) pages.old pages.new result }
{
    an_index_page_has_one_list();
    a_put_changes_one_slot();
    match has_tuple(pages, place, slot) {
        Ok(true) => match drop_tuple(pages, place, slot) {
            Ok(()) => Ok(()),
            Err(error) => Err(error),
        },
        Ok(false) => Ok(()),
        Err(error) => Err(error),
    }
}

/// Whether the slot of the page has a tuple.
fn has_tuple<D: Disk + Drop>(
    pages: &mut PageStore<D>,
    place: Place,
    slot: u16,
) -> Result<bool, StoreError>
    requires place { IsPlace pages.old.layout place }
    requires form { form_of pages.old.layout place.relation ≡ forms.Index }
    ensures there { IfOk result (λ there. Tells D.told pages.old → there ≡ true → tuple_on (page_at pages.old.pages place) slot ≢ None) }
    ensures absent { IfOk result (λ there. Tells D.told pages.old → there ≡ false → tuple_on (page_at pages.old.pages place) slot ≡ None) }
    ensures kept { Keeps D.told pages.old pages.new }
    ensures survives { Survives D.told (λ passed. passed ≡ pages.old.pages) pages.old pages.new }
    ensures at { IfErr result (NamesPage pages.old.layout place) }
    ensures outcome { Outcome D.told (Untold D.told pages.old) pages.old pages.new result }
{
    index_pages_are_known();
    match pages.read(place) {
        Ok(page) => Ok(tuple_at(page.as_bytes(), slot).is_some()),
        Err(error) => Err(error),
    }
}
