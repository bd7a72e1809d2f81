//! Putting a row into the lowest free slot.

ghost use Rattle.std.specs.Prelude.{◌≡◌, ◌<◌, None, length, IfOk, IfErr, OnOk, OnErr};
ghost use Rattle.store_layout.specs.DiskLayout.{IsPlace};
ghost use Rattle.page_layout.specs.FreeSlots.{slot_count};
ghost use Rattle.page_layout.specs.PageContents.{HasSlot, IsForm, IsRowOf};
ghost use Rattle.page_layout.specs.PageWrites.{IsOfHeap};
ghost use Rattle.page_layout.specs.RowBytes.{HaveKinds};
ghost use Rattle.page_map.specs.Forms.{form_of};
ghost use Rattle.page_map.specs.Keeps.{Keeps, Tells, Untold};
ghost use Rattle.page_map.specs.Outcome.{NamesPage, Outcome};
ghost use Rattle.page_map.specs.PageMap.{page_at};
ghost use Rattle.page_store.specs.Survives.{Survives};
ghost use Rattle.heap_rows.specs.Heaps.{kinds_at};
ghost use Rattle.heap_rows.specs.LeavesOthers.{LeavesOtherPages, LeavesOthers};
ghost use Rattle.heap_rows.specs.PutAnswers.{NamesTable, PutOutcome, SaysFull};
ghost use Rattle.heap_rows.specs.RoomOnPage.{PageTakesRow, PutsBytesAt};
ghost use Rattle.heap_rows.specs.RowPlaces.{new_row};
ghost use Rattle.heap_rows.specs.RowPut.{FillsFreeSlot, HasNoPlace, HasPlace, IsNextSpot, IsSpotOf, TakesRow};

use crate::heap::{known, relation_of, slots_in_all, write_new};
use block_model::{Place, RowId, Spot, Value};
use disk_trait::Disk;
use page_layout::{HEAP, MAX_ROW, slots_are_read};
use page_map::{MachineFault, Room, StoreError};
use page_store::PageStore;
use store_layout::Layout;
use wal_record::Change;

/// Puts a row, which no transaction deleted, into the lowest free slot of the lowest block of the table that has one, else
/// into the first slot of the next block, and answers where it stands. Full exactly where each slot of each block that
/// the table may have is in use; never Memory. After an error nothing is changed.
pub fn put<D: Disk + Drop>(
    pages: &mut PageStore<D>,
    table: u8,
    id: RowId,
    values: &[Value],
) -> Result<Spot, MachineFault>
    requires table { table < length pages.old.layout.schema.tables }
    requires kinds { HaveKinds (kinds_at pages.old.layout table) values.now }
    ensures place { IfOk result (IsNextSpot D.told pages.old table) }
    ensures put { IfOk result (TakesRow D.told table (new_row id values.now) pages.old pages.new) }
    ensures slots { IfOk result (FillsFreeSlot D.told pages.old table (new_row id values.now)) }
    ensures full { IfErr result (λ fault. SaysFull fault → HasNoPlace D.told pages.old table) }
    ensures room { OnOk result (HasPlace D.told pages.old table) }
    ensures kept { OnErr result (Keeps D.told pages.old pages.new) }
    ensures within { IfOk result (IsSpotOf pages.old.layout table) }
    ensures others { LeavesOthers D.told table pages.old pages.new }
    // The row isn't sure before the next flush.
    ensures survives { Survives D.told (λ now. now ≡ pages.old.pages) pages.old pages.new }
    ensures names { IfErr result (NamesTable pages.old.layout table) }
    ensures outcome { PutOutcome D.told pages.old pages.new result }
{
    match pages.ready() {
        Ok(()) => {}
        Err(error) => return Err(MachineFault::Store(error)),
    }
    slots_are_read();
    let relation = relation_of(pages.layout(), table);
    known(pages.layout(), table);
    let Some(block) = pages.first_room(relation, 0, 0) else {
        return Err(full(pages.layout(), table));
    };
    let mut row = [0; MAX_ROW];
    let size = write_new(pages.form(relation), id, values, &mut row);
    match put_bytes(pages, Place { relation, block }, &row[..size]) {
        Ok(slot) => Ok(Spot { block, slot }),
        Err(error) => Err(MachineFault::Store(error)),
    }
}

/// That the table is full, with the number of its slots.
fn full(layout: &Layout, table: u8) -> MachineFault
    requires { table < length layout.now.schema.tables }
    ensures full { SaysFull result }
    ensures names { NamesTable layout.now table result }
{
    MachineFault::Full {
        relation: relation_of(layout, table),
        number: slots_in_all(layout, table),
    }
}

/// Puts the row of these bytes into the lowest free slot of the page, which is started where it isn't, and answers the
/// slot.
fn put_bytes<D: Disk + Drop>(
    pages: &mut PageStore<D>,
    place: Place,
    bytes: &[u8],
) -> Result<u16, StoreError>
    requires place { IsPlace pages.old.layout place }
    requires form { IsForm (form_of pages.old.layout place.relation) }
    requires heap { IsOfHeap (form_of pages.old.layout place.relation) }
    requires some { 0 < slot_count (form_of pages.old.layout place.relation) }
    requires row { IsRowOf (form_of pages.old.layout place.relation) bytes.now }
    requires ready { pages.old.failed ≡ None }
    requires room { Tells D.told pages.old → PageTakesRow (form_of pages.old.layout place.relation) (page_at pages.old.pages place) }
    ensures put { IfOk result (λ slot. Tells D.told pages.old → PutsBytesAt pages.old.layout place bytes.now pages.old.pages pages.new.pages slot) }
    ensures within { IfOk result (HasSlot (form_of pages.old.layout place.relation)) }
    ensures kept { OnErr result (Keeps D.told pages.old pages.new) }
    ensures others { LeavesOtherPages D.told place pages.old pages.new }
    ensures survives { Survives D.told (λ now. now ≡ pages.old.pages) pages.old pages.new }
    ensures at { IfErr result (NamesPage pages.old.layout place) }
    ensures outcome { Outcome D.told (Untold D.told pages.old) pages.old pages.new result }
{
    match pages.room_at(place) {
        Room::Free(slot) => {
            pages.change(place, &Change::RowPut { place, slot, bytes })?;
            Ok(slot)
        }
        Room::NotStarted => {
            let slot = 0;
            pages.start_with(place, HEAP, &Change::RowPut { place, slot, bytes })?;
            Ok(slot)
        }
        Room::Full => Err(StoreError::Damaged {
            at: pages.layout().page_at(place),
        }),
    }
}
