//! Marking a row as deleted.

ghost use Rattle.std.specs.Prelude.{◌≡◌, ◌<◌, length, IfErr, OnOk, OnErr};
ghost use Rattle.page_map.specs.Keeps.{Keeps, Tells, Untold};
ghost use Rattle.page_map.specs.Outcome.{NamesPage, Outcome};
ghost use Rattle.page_store.specs.Survives.{Survives};
ghost use Rattle.heap_rows.specs.Heaps.{relation_of};
ghost use Rattle.heap_rows.specs.HeapBlocks.{OfBlocks};
ghost use Rattle.heap_rows.specs.LeavesOthers.{LeavesOthers};
ghost use Rattle.heap_rows.specs.RowPlaces.{IsInUse, MarksRow, MarksSlot};

use crate::heap::{known, relation_of};
use block_model::{Place, Spot};
use disk_trait::Disk;
use page_map::StoreError;
use page_store::PageStore;
use wal_record::Change;

/// The transaction becomes the deleter of the row at the spot, in place of an earlier one. After an error nothing is
/// changed.
pub fn mark<D: Disk + Drop>(
    pages: &mut PageStore<D>,
    table: u8,
    spot: Spot,
    deleter: u64,
) -> Result<(), StoreError>
    requires table { table < length pages.old.layout.schema.tables }
    requires block { spot.block < pages.old.layout.sizes.heap_blocks }
    requires used { Tells D.told pages.old → IsInUse pages.old.layout pages.old.pages table spot }
    // By the blocks that the table has.
    ensures marked { OnOk result (OfBlocks D.told pages.old table (MarksRow pages.old.layout pages.new.pages table spot deleter)) }
    ensures slots { OnOk result (OfBlocks D.told pages.old table (MarksSlot spot deleter)) }
    ensures kept { OnErr result (Keeps D.told pages.old pages.new) }
    ensures others { LeavesOthers D.told table pages.old pages.new }
    // The mark isn't sure before the next flush.
    ensures survives { Survives D.told (λ now. now ≡ pages.old.pages) pages.old pages.new }
    ensures at { IfErr result (NamesPage pages.old.layout (record { relation = relation_of table; block = spot.block })) }
    ensures outcome { Outcome D.told (Untold D.told pages.old) pages.old pages.new result }
{
    let relation = relation_of(pages.layout(), table);
    let place = Place {
        relation,
        block: spot.block,
    };
    let mark = Change::RowMark {
        place,
        slot: spot.slot,
        deleter,
    };
    known(pages.layout(), table);
    pages.change(place, &mark)
}
