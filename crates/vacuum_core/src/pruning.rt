//! Dropping the dead rows of a block.

ghost use Rattle.std.specs.Prelude.{◌≡◌, ◌<◌, ◌≤◌, length, vec_capacity, IfErr, IfOk, OnOk, OnErr};
ghost use Rattle.page_map.specs.Keeps.{Keeps, Tells, Untold};
ghost use Rattle.page_map.specs.Outcome.{Outcome};
ghost use Rattle.page_store.specs.Survives.{Survives};
ghost use Rattle.heap_rows.specs.DroppedRows.{with_slots_free};
ghost use Rattle.heap_rows.specs.HeapBlocks.{HasBlocks, OfBlocks};
ghost use Rattle.heap_rows.specs.Heaps.{slots_a_page};
ghost use Rattle.heap_rows.specs.LeavesOthers.{LeavesOthers};
ghost use Rattle.tx_table.specs.Statuses.{OfStatuses};
ghost use Rattle.vacuum_core.specs.DeadRows.{DropsFrom, DropsTheDead, living};
ghost use Rattle.vacuum_core.specs.Vacuums.{HasHeap, NamesPageRead};

use crate::dead_rows::list_dead;
use disk_trait::Disk;
use heap_rows::{PageRows, drop_dead, rows_of};
use page_map::{StoreError, tables_have_forms};
use page_store::PageStore;
use snapshot_core::Snapshot;
use tx_table::TxTable;

/// Drops the rows of the block that are dead to all, whose slots `dead` has then, and answers how many they are. Reads the block's page once,
/// and changes it once; not at all where no row is dead. After an error nothing is changed. Takes no memory.
pub(crate) fn prune<D: Disk + Drop>(
    pages: &mut PageStore<D>,
    tx: &TxTable,
    live: &[Snapshot],
    table: u8,
    block: u32,
    rows: &mut PageRows,
    dead: &mut Vec<u16>,
) -> Result<u64, StoreError>
    requires table { table < length pages.old.layout.schema.tables }
    requires block { block < pages.old.layout.sizes.heap_blocks }
    requires room { slots_a_page pages.old.layout table ≤ rows.old.room }
    requires dead_room { slots_a_page pages.old.layout table ≤ vec_capacity dead.old }
    requires heap { Tells D.told pages.old → HasHeap pages.old.layout pages.old.pages table }
    // By the blocks that the table has.
    ensures blocks { OnOk result (OfBlocks D.told pages.old table (λ blocks. HasBlocks pages.old.layout pages.new.pages table (with_slots_free blocks block dead.new.items))) }
    ensures drops { IfOk result (λ count. OfBlocks D.told pages.old table (λ blocks. DropsFrom blocks (with_slots_free blocks block dead.new.items) block count)) }
    // By the statuses that the pages have.
    ensures pruned { OnOk result (OfStatuses D.told pages.old (λ statuses. OfBlocks D.told pages.old table (λ blocks. DropsTheDead (living live.now tx.now.first statuses) blocks (with_slots_free blocks block dead.new.items) block))) }
    ensures few { IfOk result (λ count. count ≤ 65536) }
    ensures room { rows.new.room ≡ rows.old.room }
    ensures capacity { vec_capacity dead.new ≡ vec_capacity dead.old }
    ensures kept { OnErr result (Keeps D.told pages.old pages.new) }
    ensures others { LeavesOthers D.told table pages.old pages.new }
    ensures survives { Survives D.told (λ passed. passed ≡ pages.old.pages) pages.old pages.new }
    ensures at { IfErr result (NamesPageRead pages.old.layout table) }
    ensures outcome { Outcome D.told (Untold D.told pages.old) pages.old pages.new result }
{
    tables_have_forms(pages.layout());
    match rows_of(pages, table, block, rows) {
        Ok(()) => {}
        Err(error) => return Err(error),
    }
    match list_dead(pages, tx, live, rows.as_slice(), dead) {
        Ok(()) => {}
        Err(error) => return Err(error),
    }
    match drop_dead(pages, table, block, dead.as_slice()) {
        Ok(()) => Ok(dead.len() as u64),
        Err(error) => Err(error),
    }
}
