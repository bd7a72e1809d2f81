//! The changes of a page onto which the map grows.

ghost use Rattle.std.specs.Prelude.{◌≡◌, ◌<◌, None, length, IfErr, OnOk, OnErr};
ghost use Rattle.page_map.specs.Keeps.{Keeps, Tells, Untold};
ghost use Rattle.page_map.specs.Outcome.{NamesPage, Outcome};
ghost use Rattle.heap_rows.specs.Survives.{Survives};
ghost use Rattle.block_model.specs.declared.place.Spot.{Spot};
ghost use Rattle.coverage.specs.IndexView.{Emptying, Mapping};
ghost use Rattle.index_contents.specs.IndexContents.{contents};
ghost use Rattle.index_contents.specs.IndexChanges.{LeavesOtherPages, LeavesOthers};
ghost use Rattle.index_steps.specs.declared.next.PageState.TheVariants as states;
ghost use Rattle.index_contents.specs.KeepsOrder.{KeepsOrder};
ghost use Rattle.index_steps.specs.MapChanges.{CountsBlock, TurnsBlock};
ghost use Rattle.index_steps.specs.NextPages.{StandsNext, place_in};

use crate::next::METAPAGE;
use block_model::Place;
use disk_trait::Disk;
use heap_rows::PageStore;
use index_contents::{index_pages_are_known, relation_of};
use index_layout::{MAP, an_index_page_has_one_list};
use page_map::StoreError;
use wal_record::Change;

/// The page behind the map, which isn't started, becomes a page of the map without entries. After an error nothing is changed.
pub fn start_map_page<D: Disk + Drop>(
    pages: &mut PageStore<D>,
    index: u8,
    block: u32,
) -> Result<(), StoreError>
    requires index { index < length pages.old.layout.schema.indexes }
    requires block { block < pages.old.layout.sizes.index_blocks }
    requires next { Tells D.told pages.old → StandsNext pages.old.layout pages.old.pages index block states.Unstarted }
    ensures turned { OnOk result (Tells D.told pages.old → TurnsBlock (contents pages.old.layout pages.old.pages index) (contents pages.old.layout pages.new.pages index) block Mapping) }
    ensures order { KeepsOrder D.told index pages.old pages.new }
    ensures kept { OnErr result (Keeps D.told pages.old pages.new) }
    ensures others { LeavesOthers D.told index pages.old pages.new }
    ensures pages { LeavesOtherPages D.told (place_in pages.old.layout index block) pages.old pages.new }
    // The change itself isn't sure before the next flush.
    ensures survives { Survives D.told (λ passed. passed ≡ pages.old.pages) pages.old pages.new }
    ensures at { IfErr result (NamesPage pages.old.layout (place_in pages.old.layout index block)) }
    ensures outcome { Outcome D.told (Untold D.told pages.old) pages.old pages.new result }
{
    an_index_page_has_one_list();
    let relation = relation_of(pages.layout(), index);
    let place = Place { relation, block };
    match pages.change(place, &Change::PageStart { place, kind: MAP }) {
        Ok(()) => Ok(()),
        Err(error) => Err(error),
    }
}

/// The page behind the map, which takes tuples, takes none any more. After an error nothing is changed.
pub fn flag_page<D: Disk + Drop>(
    pages: &mut PageStore<D>,
    index: u8,
    block: u32,
) -> Result<(), StoreError>
    requires index { index < length pages.old.layout.schema.indexes }
    requires block { block < pages.old.layout.sizes.index_blocks }
    requires next { Tells D.told pages.old → StandsNext pages.old.layout pages.old.pages index block states.Regular }
    ensures turned { OnOk result (Tells D.told pages.old → TurnsBlock (contents pages.old.layout pages.old.pages index) (contents pages.old.layout pages.new.pages index) block Emptying) }
    ensures order { KeepsOrder D.told index pages.old pages.new }
    ensures kept { OnErr result (Keeps D.told pages.old pages.new) }
    ensures others { LeavesOthers D.told index pages.old pages.new }
    ensures pages { LeavesOtherPages D.told (place_in pages.old.layout index block) pages.old pages.new }
    // The change itself isn't sure before the next flush.
    ensures survives { Survives D.told (λ passed. passed ≡ pages.old.pages) pages.old pages.new }
    ensures at { IfErr result (NamesPage pages.old.layout (place_in pages.old.layout index block)) }
    ensures outcome { Outcome D.told (Untold D.told pages.old) pages.old pages.new result }
{
    an_index_page_has_one_list();
    pages.known();
    let relation = relation_of(pages.layout(), index);
    let place = Place { relation, block };
    match pages.change(place, &Change::Evacuate { place }) {
        Ok(()) => Ok(()),
        Err(error) => Err(error),
    }
}

/// The page behind the map, which is emptied and has no tuple left, becomes a page of the map without entries. After an error nothing
/// is changed.
pub fn turn_page<D: Disk + Drop>(
    pages: &mut PageStore<D>,
    index: u8,
    block: u32,
) -> Result<(), StoreError>
    requires index { index < length pages.old.layout.schema.indexes }
    requires block { block < pages.old.layout.sizes.index_blocks }
    requires next { Tells D.told pages.old → StandsNext pages.old.layout pages.old.pages index block states.Emptying }
    requires empty { Tells D.told pages.old → (x : Spot) → x.block ≡ block → (contents pages.old.layout pages.old.pages index).bytes x ≡ None }
    ensures turned { OnOk result (Tells D.told pages.old → TurnsBlock (contents pages.old.layout pages.old.pages index) (contents pages.old.layout pages.new.pages index) block Mapping) }
    ensures order { KeepsOrder D.told index pages.old pages.new }
    ensures kept { OnErr result (Keeps D.told pages.old pages.new) }
    ensures others { LeavesOthers D.told index pages.old pages.new }
    ensures pages { LeavesOtherPages D.told (place_in pages.old.layout index block) pages.old pages.new }
    // The change itself isn't sure before the next flush.
    ensures survives { Survives D.told (λ passed. passed ≡ pages.old.pages) pages.old pages.new }
    ensures at { IfErr result (NamesPage pages.old.layout (place_in pages.old.layout index block)) }
    ensures outcome { Outcome D.told (Untold D.told pages.old) pages.old pages.new result }
{
    an_index_page_has_one_list();
    index_pages_are_known();
    pages.known();
    let relation = relation_of(pages.layout(), index);
    let place = Place { relation, block };
    match pages.change(place, &Change::MapPage { place }) {
        Ok(()) => Ok(()),
        Err(error) => Err(error),
    }
}

/// The metapage counts the page behind the map, which is one of the map without entries. After an error nothing is changed.
pub fn count_page<D: Disk + Drop>(
    pages: &mut PageStore<D>,
    index: u8,
    block: u32,
) -> Result<(), StoreError>
    requires index { index < length pages.old.layout.schema.indexes }
    requires block { block < pages.old.layout.sizes.index_blocks }
    requires next { Tells D.told pages.old → StandsNext pages.old.layout pages.old.pages index block states.LeftOver }
    ensures counted { OnOk result (Tells D.told pages.old → CountsBlock (contents pages.old.layout pages.old.pages index) (contents pages.old.layout pages.new.pages index)) }
    ensures order { KeepsOrder D.told index pages.old pages.new }
    ensures kept { OnErr result (Keeps D.told pages.old pages.new) }
    ensures others { LeavesOthers D.told index pages.old pages.new }
    ensures pages { LeavesOtherPages D.told (place_in pages.old.layout index 0) pages.old pages.new }
    // The change itself isn't sure before the next flush.
    ensures survives { Survives D.told (λ passed. passed ≡ pages.old.pages) pages.old pages.new }
    ensures at { IfErr result (NamesPage pages.old.layout (place_in pages.old.layout index 0)) }
    ensures outcome { Outcome D.told (Untold D.told pages.old) pages.old pages.new result }
{
    an_index_page_has_one_list();
    pages.known();
    let relation = relation_of(pages.layout(), index);
    let place = Place {
        relation,
        block: METAPAGE,
    };
    match pages.change(place, &Change::MetaSet { place, maps: block }) {
        Ok(()) => Ok(()),
        Err(error) => Err(error),
    }
}
