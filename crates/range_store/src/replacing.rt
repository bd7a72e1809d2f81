//! Replacing the tuple at a spot.

ghost use Rattle.std.specs.Prelude.{◌≡◌, ◌≢◌, ◌<◌, ◌≤◌, ℕ, List, Option, None, Some, length, IfOk, IfErr, OnOk, OnErr};
ghost use Rattle.block_model.specs.declared.limits.TheConstants.{PAGE_SIZE};
ghost use Rattle.store_layout.specs.DiskLayout.{IsPlace};
ghost use Rattle.page_layout.specs.declared.page.Form.TheVariants as forms;
ghost use Rattle.page_map.specs.Forms.{form_of};
ghost use Rattle.page_map.specs.Keeps.{Keeps, Tells, Untold};
ghost use Rattle.page_map.specs.Outcome.{NamesPage, Outcome};
ghost use Rattle.page_map.specs.PageMap.{page_at};
ghost use Rattle.page_store.specs.Survives.{Survives};
ghost use Rattle.index_contents.specs.IndexPages.{IsIndexPage};
ghost use Rattle.index_contents.specs.IndexContents.{contents, index_page, relation_of, room_in_place, tuple_on};
ghost use Rattle.index_contents.specs.IndexChanges.{LeavesOtherPages, LeavesOthers, ReplacesBytes};
ghost use Rattle.index_contents.specs.KeepsOrder.{KeepsOrder};
ghost use Rattle.range_store.specs.PageTuples.{ReplacesOn};
ghost use Rattle.range_store.specs.Tuples.{FaultNamesPlace, IsFound, IsMisfit, IsTupleSize, MisfitsOn, ShowsMisfit, StandsWithin, SwapOutcome, TakesInPlace, size_of};

use crate::changes::replace_tuple;
use crate::faults::SwapFault;
use block_model::{Place, Spot};
use byte_fields::get_u16;
use disk_trait::Disk;
use index_contents::{
    REGULAR, an_index_page_has_one_list, free_bytes, index_pages_are_known, kind_of, relation_of,
    slots,
};
use page_layout::Page;
use page_map::StoreError;
use page_store::PageStore;

/// Where the directory of a page of tuples begins, and how many bytes each slot has.
const DIRECTORY: usize = 32;

const SLOT_SIZE: usize = 4;

/// The tuple at the spot, which is the expected one, gives way to this one in its place. Changed exactly where other bytes stand
/// there, or none; Full exactly where the expected ones do, and the new ones have no room in their place, or the page takes no
/// tuples any more. After an error nothing is changed. Damage is the page's, which the index can have.
pub fn replace<D: Disk + Drop>(
    pages: &mut PageStore<D>,
    index: u8,
    spot: Spot,
    expect: &[u8],
    bytes: &[u8],
) -> Result<(), SwapFault>
    requires index { index < length pages.old.layout.schema.indexes }
    requires size { IsTupleSize (length bytes.now) }
    ensures replaced { OnOk result (Tells D.told pages.old → ReplacesBytes (contents pages.old.layout pages.old.pages index) (contents pages.old.layout pages.new.pages index) spot expect.now bytes.now) }
    ensures within { OnOk result (spot.block < pages.old.layout.sizes.index_blocks) }
    ensures page { IfErr result (StandsWithin pages.old.layout.sizes.index_blocks spot.block) }
    ensures misfit { IfErr result (λ fault. Tells D.told pages.old → ShowsMisfit (contents pages.old.layout pages.old.pages index) (index_page pages.old.layout pages.old.pages index spot.block) spot expect.now (length bytes.now) fault) }
    ensures kept { OnErr result (Keeps D.told pages.old pages.new) }
    ensures others { LeavesOthers D.told index pages.old pages.new }
    ensures pages { LeavesOtherPages D.told (record { relation = relation_of pages.old.layout index; block = spot.block }) pages.old pages.new }
    ensures order { KeepsOrder D.told index pages.old pages.new }
    // The change itself isn't sure before the next flush.
    ensures survives { Survives D.told (λ passed. passed ≡ pages.old.pages) pages.old pages.new }
    ensures at { IfErr result (FaultNamesPlace pages.old.layout (record { relation = relation_of pages.old.layout index; block = spot.block })) }
    ensures outcome { SwapOutcome D.told pages.old pages.new result }
{
    pages.known();
    let relation = relation_of(pages.layout(), index);
    let block = spot.block;
    if block >= pages.layout().sizes().index_blocks {
        // A page that the index can't have isn't started.
        return match pages.ready() {
            Ok(()) => Err(SwapFault::Changed { size: 0, at: 0 }),
            Err(error) => Err(SwapFault::Store(error)),
        };
    }
    let place = Place { relation, block };
    match replace_on(pages, place, spot.slot, expect, bytes) {
        Ok(()) => Ok(()),
        Err(fault) => Err(fault),
    }
}

/// The tuple in the slot of the page, which is the expected one, gives way to this one.
fn replace_on<D: Disk + Drop>(
    pages: &mut PageStore<D>,
    place: Place,
    slot: u16,
    expect: &[u8],
    bytes: &[u8],
) -> Result<(), SwapFault>
    requires place { IsPlace pages.old.layout place }
    requires form { form_of pages.old.layout place.relation ≡ forms.Index }
    requires size { IsTupleSize (length bytes.now) }
    ensures replaced { OnOk result (Tells D.told pages.old → TakesInPlace (page_at pages.old.pages place) slot expect.now (length bytes.now) × ReplacesOn (page_at pages.old.pages place) (page_at pages.new.pages place) slot expect.now bytes.now) }
    ensures misfit { IfErr result (λ fault. Tells D.told pages.old → MisfitsOn (page_at pages.old.pages place) slot expect.now (length bytes.now) fault) }
    ensures kept { OnErr result (Keeps D.told pages.old pages.new) }
    ensures others { LeavesOtherPages D.told place pages.old pages.new }
    ensures survives { Survives D.told (λ passed. passed ≡ pages.old.pages) pages.old pages.new }
    ensures at { IfErr result (FaultNamesPlace pages.old.layout place) }
    ensures outcome { SwapOutcome D.told pages.old pages.new result }
{
    an_index_page_has_one_list();
    match misfit_at(pages, place, slot, expect, bytes.len() as u16) {
        Ok(None) => match replace_tuple(pages, place, slot, bytes) {
            Ok(()) => Ok(()),
            Err(error) => Err(SwapFault::Store(error)),
        },
        Ok(Some(fault)) => Err(fault),
        Err(error) => Err(SwapFault::Store(error)),
    }
}

/// Why the tuple in the slot of the page can't give way to one of so many bytes, if it can't.
fn misfit_at<D: Disk + Drop>(
    pages: &mut PageStore<D>,
    place: Place,
    slot: u16,
    expect: &[u8],
    need: u16,
) -> Result<Option<SwapFault>, StoreError>
    requires place { IsPlace pages.old.layout place }
    requires form { form_of pages.old.layout place.relation ≡ forms.Index }
    requires some { 0 < need }
    ensures none { IfOk result (λ fault. fault ≡ None → Tells D.told pages.old → TakesInPlace (page_at pages.old.pages place) slot expect.now need) }
    ensures some { IfOk result (λ fault. (f : SwapFault) → fault ≡ Some f → Tells D.told pages.old → MisfitsOn (page_at pages.old.pages place) slot expect.now need f) }
    ensures misfit { IfOk result (λ fault. (f : SwapFault) → fault ≡ Some f → IsMisfit f) }
    ensures kept { Keeps D.told pages.old pages.new }
    ensures survives { Survives D.told (λ passed. passed ≡ pages.old.pages) pages.old pages.new }
    ensures at { IfErr result (NamesPage pages.old.layout place) }
    ensures outcome { Outcome D.told (Untold D.told pages.old) pages.old pages.new result }
{
    index_pages_are_known();
    match pages.read(place) {
        Ok(page) => Ok(misfit_on(page, slot, expect, need)),
        Err(error) => Err(error),
    }
}

/// The same of a page.
fn misfit_on(page: &Page, slot: u16, expect: &[u8], need: u16) -> Option<SwapFault>
    requires page { IsIndexPage page.now }
    requires some { 0 < need }
    ensures none { result ≡ None → TakesInPlace page.now slot expect.now need }
    ensures some { (fault : SwapFault) → result ≡ Some fault → MisfitsOn page.now slot expect.now need fault }
    ensures misfit { (fault : SwapFault) → result ≡ Some fault → IsMisfit fault }
{
    let bytes = page.as_bytes();
    let same = match index_contents::tuple_at(bytes, slot) {
        Some(tuple) => tuple == expect,
        None => false,
    };
    if !same {
        return Some(found_at(bytes, slot));
    }
    let most_free = room_in_place(bytes, slot, expect);
    if need > most_free {
        return Some(SwapFault::Full { need, most_free });
    }
    None
}

/// How many bytes may stand in the slot of the page in place of the tuple that is there.
fn room_in_place(page: &[u8], slot: u16, tuple: &[u8]) -> u16
    requires page { IsIndexPage page.now }
    requires whole { length page.now ≡ PAGE_SIZE }
    requires tuple { tuple_on page.now slot ≡ Some tuple.now }
    ensures { result ≡ room_in_place page.now slot }
{
    if kind_of(page) != REGULAR {
        return 0;
    }
    an_index_page_has_one_list();
    let free = usize::from(free_bytes(page));
    (free + tuple.len()) as u16
}

/// That the tuple in the slot is another, with its length and its place on the page.
fn found_at(page: &[u8], slot: u16) -> SwapFault
    requires page { IsIndexPage page.now }
    requires whole { length page.now ≡ PAGE_SIZE }
    ensures { IsFound page.now slot result }
{
    if slot >= slots(page) {
        return SwapFault::Changed { size: 0, at: 0 };
    }
    an_index_page_has_one_list();
    SwapFault::Changed {
        size: size_at(page, slot),
        at: get_u16(page, DIRECTORY + usize::from(slot) * SLOT_SIZE),
    }
}

/// How many bytes the tuple in the slot has: none where the slot is free.
fn size_at(page: &[u8], slot: u16) -> u16
    requires page { IsIndexPage page.now }
    ensures { result ≡ size_of (tuple_on page.now slot) }
{
    an_index_page_has_one_list();
    match index_contents::tuple_at(page, slot) {
        Some(tuple) => tuple.len() as u16,
        None => 0,
    }
}
