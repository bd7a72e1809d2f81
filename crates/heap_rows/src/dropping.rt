//! Dropping rows, whose slots become free.

ghost use Rattle.std.specs.Prelude.{◌≡◌, ◌*◌, ◌<◌, ◌≤◌, [], length, take, IfErr, OnOk, OnErr};
ghost use Rattle.page_map.specs.Keeps.{Keeps, Tells, Untold};
ghost use Rattle.page_map.specs.Outcome.{NamesPage, Outcome};
ghost use Rattle.page_store.specs.Survives.{Survives};
ghost use Rattle.heap_rows.specs.declared.dropping.TheConstants.{MAX_BYTES};
ghost use Rattle.heap_rows.specs.Heaps.{relation_of, slots_a_page};
ghost use Rattle.heap_rows.specs.HeapBlocks.{OfBlocks};
ghost use Rattle.heap_rows.specs.LeavesOthers.{LeavesOthers};
ghost use Rattle.heap_rows.specs.DroppedRows.{AreAscending, AreInUse, DropsRows, FreesSlots, HasFewerRows, slots_bytes};

use crate::heap::{MAX_SLOTS, known, relation_of};
use block_model::Place;
use disk_trait::Disk;
use page_layout::slots_are_read;
use page_map::StoreError;
use page_store::PageStore;
use wal_record::Change;

/// How many bytes the numbers of a page's slots have at most.
const MAX_BYTES: usize = 2 * MAX_SLOTS;

/// Drops the rows in these slots of the block, in ascending order: the slots are free. No slots: nothing is changed, and no
/// page is written. After an error nothing is changed. Takes no memory.
pub fn drop_dead<D: Disk + Drop>(
    pages: &mut PageStore<D>,
    table: u8,
    block: u32,
    slots: &[u16],
) -> Result<(), StoreError>
    requires table { table < length pages.old.layout.schema.tables }
    requires block { block < pages.old.layout.sizes.heap_blocks }
    requires ascending { AreAscending 0 (slots_a_page pages.old.layout table) slots.now }
    requires used { Tells D.told pages.old → AreInUse pages.old.layout pages.old.pages table block slots.now }
    // By the blocks that the table has.
    ensures dropped { OnOk result (OfBlocks D.told pages.old table (DropsRows pages.old.layout pages.new.pages table block slots.now)) }
    ensures slots { OnOk result (OfBlocks D.told pages.old table (FreesSlots block slots.now)) }
    ensures rows { OnOk result (OfBlocks D.told pages.old table (HasFewerRows block slots.now)) }
    ensures nothing { slots.now ≡ [] → pages.new ≡ pages.old }
    ensures kept { OnErr result (Keeps D.told pages.old pages.new) }
    ensures others { LeavesOthers D.told table pages.old pages.new }
    // The drop isn't sure before the next flush.
    ensures survives { Survives D.told (λ now. now ≡ pages.old.pages) pages.old pages.new }
    ensures at { IfErr result (NamesPage pages.old.layout (record { relation = relation_of table; block = block })) }
    ensures outcome { Outcome D.told (Untold D.told pages.old) pages.old pages.new result }
{
    slots_are_read();
    if slots.is_empty() {
        return pages.ready();
    }
    let relation = relation_of(pages.layout(), table);
    let place = Place { relation, block };
    known(pages.layout(), table);
    let mut bytes = [0; MAX_BYTES];
    let size = write_slots(slots, &mut bytes);
    let slots = &bytes[..size];
    pages.change(place, &Change::RowsDrop { place, slots })
}

/// Writes the numbers of the slots, two bytes each, into the front of `out`, and answers how many bytes they have.
fn write_slots(slots: &[u16], out: &mut [u8]) -> usize
    requires few { 2 * length slots.now ≤ MAX_BYTES }
    requires room { length out.old ≡ MAX_BYTES }
    ensures within { result ≤ MAX_BYTES }
    ensures bytes { take result out.new ≡ slots_bytes slots.now }
{
    let size = 2 * slots.len();
    fill(slots, &mut out[..size]);
    size
}

/// The numbers of the slots, two bytes each, the high one first.
#[tactic(auto, unfolding(crate::specs::DroppedRows::slots_bytes))]
fn fill(slots: &[u16], out: &mut [u8])
    requires { length out.old ≡ 2 * length slots.now }
    ensures { out.new ≡ slots_bytes slots.now }
{
    if let [slot, slots @ ..] = slots {
        out[..2].copy_from_slice(&slot.to_be_bytes());
        fill(slots, &mut out[2..]);
    }
}
