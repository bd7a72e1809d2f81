//! Entries of the map.

ghost use Rattle.std.specs.Prelude.{◌≡◌, ◌≢◌, ◌*◌, ◌/◌, ◌%◌, ◌+◌, ◌<◌, ◌≤◌, Option, true, false, length, IfOk, IfErr, OnOk, OnErr};
ghost use Rattle.store_layout.specs.DiskLayout.{IsPlace, page_offset};
ghost use Rattle.page_layout.specs.declared.page.Form.TheVariants as forms;
ghost use Rattle.page_map.specs.Forms.{form_of};
ghost use Rattle.page_map.specs.Keeps.{Keeps, Tells, Untold};
ghost use Rattle.page_map.specs.Outcome.{IsReopen, NamesPage, Outcome, Refused};
ghost use Rattle.page_map.specs.PageMap.{page_at};
ghost use Rattle.page_store.specs.Survives.{Survives};
ghost use Rattle.index_contents.specs.IndexContents.{contents, relation_of};
ghost use Rattle.index_contents.specs.IndexChanges.{LeavesOtherPages, LeavesOthers, SetsEntry};
ghost use Rattle.index_layout.specs.declared.format.TheConstants.{MAP_ENTRIES};
ghost use Rattle.coverage.specs.IndexView.{map_page_of};
ghost use Rattle.index_contents.specs.KeepsOrder.{KeepsOrder};
ghost use Rattle.revmap.specs.MapEntries.{FaultNamesMap, HoldsRange, IsNameable, NamesMap, SetOutcome, SetsOnPage, ShowsOther, map_place};

use crate::faults::SetFault;
use crate::map_pages::{entry_at, set_entry};
use block_model::{Place, Spot};
use disk_trait::Disk;
use index_contents::relation_of;
use index_layout::{MAP_ENTRIES, an_index_page_has_one_list};
use page_map::StoreError;
use page_store::PageStore;

/// The block of the page that counts the pages of the map.
const METAPAGE: u32 = 0;

/// The entry of a range. None where the map names no spot for it, and where no counted page of the map holds it. Damage is the
/// page's; where the index can't have the page, Reopen is the only error.
pub fn entry<D: Disk + Drop>(
    pages: &mut PageStore<D>,
    index: u8,
    range: u32,
) -> Result<Option<Spot>, StoreError>
    requires index { index < length pages.old.layout.schema.indexes }
    ensures entry { IfOk result (λ entry. Tells D.told pages.old → (contents pages.old.layout pages.old.pages index).entry range ≡ entry) }
    ensures kept { Keeps D.told pages.old pages.new }
    ensures survives { Survives D.told (λ passed. passed ≡ pages.old.pages) pages.old pages.new }
    ensures at { IfErr result (NamesPage pages.old.layout (map_place pages.old.layout index range)) }
    ensures reopen { IfErr result (λ error. pages.old.layout.sizes.index_blocks ≤ map_page_of range → IsReopen error) }
    ensures outcome { Outcome D.told (Untold D.told pages.old) pages.old pages.new result }
{
    match pages.ready() {
        Ok(()) => {}
        Err(error) => return Err(error),
    }
    pages.known();
    let relation = relation_of(pages.layout(), index);
    let block = map_page_of(range);
    if block > pages.map_pages(relation) {
        return Ok(None);
    }
    if block >= pages.layout().sizes().index_blocks {
        // A page that the index can't have isn't started, and has no entry.
        return Ok(None);
    }
    match entry_at(pages, Place { relation, block }, entry_of(range)) {
        Ok(entry) => Ok(entry),
        Err(error) => Err(error),
    }
}

/// The entry of a range becomes this one, which names no spot of the metapage. Changed exactly where the entry isn't the expected
/// one; where it is, a counted page of the map has to hold it. No other entry changes, and no other page, counted or not. After an
/// error nothing is changed. Damage is the page's, or the metapage's where the index can't have the page.
pub fn set<D: Disk + Drop>(
    pages: &mut PageStore<D>,
    index: u8,
    range: u32,
    expect: Option<Spot>,
    spot: Option<Spot>,
) -> Result<(), SetFault>
    requires index { index < length pages.old.layout.schema.indexes }
    requires map { Tells D.told pages.old → (contents pages.old.layout pages.old.pages index).entry range ≡ expect → HoldsRange (contents pages.old.layout pages.old.pages index).pages range }
    requires spot { Tells D.told pages.old → IsNameable spot }
    ensures set { OnOk result (Tells D.told pages.old → SetsEntry (contents pages.old.layout pages.old.pages index) (contents pages.old.layout pages.new.pages index) range expect spot) }
    ensures changed { IfErr result (λ fault. Tells D.told pages.old → ShowsOther (contents pages.old.layout pages.old.pages index) range expect fault) }
    ensures kept { OnErr result (Keeps D.told pages.old pages.new) }
    ensures others { LeavesOthers D.told index pages.old pages.new }
    ensures page { OnOk result (Tells D.told pages.old → SetsOnPage range spot (page_at pages.old.pages (map_place pages.old.layout index range)) (page_at pages.new.pages (map_place pages.old.layout index range))) }
    ensures pages { LeavesOtherPages D.told (map_place pages.old.layout index range) pages.old pages.new }
    ensures order { KeepsOrder D.told index pages.old pages.new }
    // The change itself isn't sure before the next flush.
    ensures survives { Survives D.told (λ passed. passed ≡ pages.old.pages) pages.old pages.new }
    ensures at { IfErr result (FaultNamesMap pages.old.layout index range) }
    ensures outcome { SetOutcome D.told pages.old pages.new result }
{
    match entry(pages, index, range) {
        Ok(now) => {
            if now != expect {
                return Err(SetFault::Changed { now });
            }
            match set_found(pages, index, range, spot) {
                Ok(()) => Ok(()),
                Err(error) => Err(SetFault::Store(error)),
            }
        }
        Err(error) => Err(SetFault::Store(error)),
    }
}

/// The entry of a range, which a counted page of the map holds, becomes this one.
fn set_found<D: Disk + Drop>(
    pages: &mut PageStore<D>,
    index: u8,
    range: u32,
    spot: Option<Spot>,
) -> Result<(), StoreError>
    requires index { index < length pages.old.layout.schema.indexes }
    requires map { Tells D.told pages.old → HoldsRange (contents pages.old.layout pages.old.pages index).pages range }
    requires spot { Tells D.told pages.old → IsNameable spot }
    ensures set { OnOk result (Tells D.told pages.old → SetsEntry (contents pages.old.layout pages.old.pages index) (contents pages.old.layout pages.new.pages index) range ((contents pages.old.layout pages.old.pages index).entry range) spot) }
    ensures kept { OnErr result (Keeps D.told pages.old pages.new) }
    ensures others { LeavesOthers D.told index pages.old pages.new }
    ensures page { OnOk result (Tells D.told pages.old → SetsOnPage range spot (page_at pages.old.pages (map_place pages.old.layout index range)) (page_at pages.new.pages (map_place pages.old.layout index range))) }
    ensures pages { LeavesOtherPages D.told (map_place pages.old.layout index range) pages.old pages.new }
    ensures order { KeepsOrder D.told index pages.old pages.new }
    ensures survives { Survives D.told (λ passed. passed ≡ pages.old.pages) pages.old pages.new }
    ensures at { IfErr result (NamesMap pages.old.layout index range) }
    ensures outcome { Outcome D.told (Untold D.told pages.old) pages.old pages.new result }
{
    an_index_page_has_one_list();
    pages.known();
    let relation = relation_of(pages.layout(), index);
    let block = map_page_of(range);
    if block >= pages.layout().sizes().index_blocks {
        return Err(no_such_page(pages, index));
    }
    match set_entry(pages, Place { relation, block }, entry_of(range), spot) {
        Ok(()) => Ok(()),
        Err(error) => Err(error),
    }
}

/// The block of the page of the map that holds the range.
fn map_page_of(range: u32) -> u32
    ensures { result ≡ map_page_of range }
{
    range / u32::from(MAP_ENTRIES) + 1
}

/// The number of the range's entry on its page.
fn entry_of(range: u32) -> u16
    ensures within { result < MAP_ENTRIES }
    ensures number { result ≡ range % MAP_ENTRIES }
{
    (range % u32::from(MAP_ENTRIES)) as u16
}

/// That the metapage counts a page which the index can't have, or that the disk failed before.
fn no_such_page<D: Disk + Drop>(pages: &PageStore<D>, index: u8) -> StoreError
    requires index { index < length pages.now.layout.schema.indexes }
    requires untold { Untold D.told pages.now }
    ensures at { NamesPage pages.now.layout (record { relation = relation_of pages.now.layout index; block = 0 }) result }
    ensures outcome { Refused D.told (Untold D.told pages.now) pages.now pages.now result }
{
    pages.layout().known();
    let relation = relation_of(pages.layout(), index);
    match pages.ready() {
        Ok(()) => StoreError::Damaged {
            at: pages.layout().page_at(Place {
                relation,
                block: METAPAGE,
            }),
        },
        Err(error) => error,
    }
}
