//! Which rows of a block are dead to all.

ghost use Rattle.std.specs.Prelude.{◌≡◌, ◌++◌, ◌∷◌, ◌<◌, ◌≤◌, List, None, [], length, vec_capacity, IfErr, IfOk, OnOk};
ghost use Rattle.page_map.specs.Keeps.{Keeps, Untold};
ghost use Rattle.page_map.specs.Outcome.{Outcome};
ghost use Rattle.page_store.specs.Survives.{Survives};
ghost use Rattle.heap_rows.specs.StoredRows.{row_of};
ghost use Rattle.tx_table.specs.LeavesRest.{NamesStatuses};
ghost use Rattle.tx_table.specs.Statuses.{OfStatuses};
ghost use Rattle.snapshot_core.specs.declared.snapshots.Snapshot.{Snapshot as AnySnapshot};
ghost use Rattle.vacuum_core.specs.DeadRows.{AddsAtMost, IsPicked, dead_slots, is_dead, living};

use disk_trait::Disk;
use heap_rows::Stored;
use page_map::StoreError;
use page_store::PageStore;
use snapshot_core::{Snapshot, Status, dead_to_all};
use tx_table::TxTable;

/// `dead` becomes the slots of the rows that are dead to all, in order; `live` are the snapshots by which a row is judged. Takes no memory.
pub(crate) fn list_dead<D: Disk + Drop>(
    pages: &mut PageStore<D>,
    tx: &TxTable,
    live: &[Snapshot],
    rows: &[Stored],
    dead: &mut Vec<u16>,
) -> Result<(), StoreError>
    requires ready { pages.old.failed ≡ None }
    requires room { length rows.now ≤ vec_capacity dead.old }
    ensures dead { OnOk result (OfStatuses D.told pages.old (λ statuses. dead.new.items ≡ dead_slots (living live.now tx.now.first statuses) rows.now)) }
    // Also where the disk doesn't tell its contents.
    ensures picked { OnOk result (IsPicked dead.new.items rows.now) }
    ensures capacity { vec_capacity dead.new ≡ vec_capacity dead.old }
    ensures kept { Keeps D.told pages.old pages.new }
    ensures survives { Survives D.told (λ passed. passed ≡ pages.old.pages) pages.old pages.new }
    ensures at { IfErr result (NamesStatuses pages.old.layout) }
    ensures outcome { Outcome D.told (Untold D.told pages.old) pages.old pages.new result }
{
    pages.known();
    dead.clear();
    'rows: for row in rows {
        match add_dead(pages, tx, live, row, dead) {
            Ok(()) => {}
            Err(error) => return Err(error),
        }
    }
    Ok(())
}

/// The slot of the row comes behind the others, if the row is dead to all.
fn add_dead<D: Disk + Drop>(
    pages: &mut PageStore<D>,
    tx: &TxTable,
    live: &[Snapshot],
    row: &Stored,
    dead: &mut Vec<u16>,
) -> Result<(), StoreError>
    requires ready { pages.old.failed ≡ None }
    requires room { length dead.old.items < vec_capacity dead.old }
    ensures dead { OnOk result (OfStatuses D.told pages.old (λ statuses. dead.new.items ≡ dead.old.items ++ dead_slots (living live.now tx.now.first statuses) (row.now ∷ []))) }
    ensures added { OnOk result (AddsAtMost row.now.slot dead.old.items dead.new.items) }
    ensures capacity { vec_capacity dead.new ≡ vec_capacity dead.old }
    ensures kept { Keeps D.told pages.old pages.new }
    ensures survives { Survives D.told (λ passed. passed ≡ pages.old.pages) pages.old pages.new }
    ensures at { IfErr result (NamesStatuses pages.old.layout) }
    ensures outcome { Outcome D.told (Untold D.told pages.old) pages.old pages.new result }
{
    match is_dead(pages, tx, live, row) {
        Ok(true) => {
            dead.push_reserved(row.slot);
            Ok(())
        }
        Ok(false) => Ok(()),
        Err(error) => Err(error),
    }
}

/// Whether the row is dead to all.
fn is_dead<D: Disk + Drop>(
    pages: &mut PageStore<D>,
    tx: &TxTable,
    live: &[Snapshot],
    row: &Stored,
) -> Result<bool, StoreError>
    requires ready { pages.old.failed ≡ None }
    ensures dead { IfOk result (λ dead. OfStatuses D.told pages.old (λ statuses. dead ≡ is_dead (living live.now tx.now.first statuses) (row_of row.now))) }
    ensures kept { Keeps D.told pages.old pages.new }
    ensures survives { Survives D.told (λ passed. passed ≡ pages.old.pages) pages.old pages.new }
    ensures at { IfErr result (NamesStatuses pages.old.layout) }
    ensures outcome { Outcome D.told (Untold D.told pages.old) pages.old pages.new result }
{
    let put = match status_of(pages, tx, row.id.t) {
        Ok(put) => put,
        Err(error) => return Err(error),
    };
    match status_of(pages, tx, row.deleter) {
        Ok(gone) => Ok(dead_to_all(live, row.id.t, row.deleter, put, gone)),
        Err(error) => Err(error),
    }
}

/// How the transaction stands. The number 0 is none's, and stays unused.
fn status_of<D: Disk + Drop>(
    pages: &mut PageStore<D>,
    tx: &TxTable,
    t: u64,
) -> Result<Status, StoreError>
    requires ready { pages.old.failed ≡ None }
    ensures status { IfOk result (λ status. (live : List AnySnapshot) → OfStatuses D.told pages.old (λ statuses. status ≡ (living live tx.now.first statuses).status t)) }
    ensures kept { Keeps D.told pages.old pages.new }
    ensures survives { Survives D.told (λ passed. passed ≡ pages.old.pages) pages.old pages.new }
    ensures at { IfErr result (NamesStatuses pages.old.layout) }
    ensures outcome { Outcome D.told (Untold D.told pages.old) pages.old pages.new result }
{
    pages.known();
    if t == 0 {
        return Ok(Status::Unused);
    }
    tx.status(pages, t)
}
