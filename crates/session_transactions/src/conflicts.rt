//! Whether another transaction keeps the session's from deleting a row.

ghost use Rattle.std.specs.Prelude.{◌≡◌, ◌<◌, List, None, Some, IsSome, length, IfErr, IfOk};
ghost use Rattle.page_store.specs.Survives.{Survives};
ghost use Rattle.page_layout.specs.PageContents.{Slot};
ghost use Rattle.page_layout.specs.RowBytes.{StoredRow};
ghost use Rattle.page_map.specs.Keeps.{Keeps, Tells, Untold};
ghost use Rattle.page_map.specs.Outcome.{Outcome};
ghost use Rattle.page_map.specs.PageMap.{View};
ghost use Rattle.heap_rows.specs.HeapBlocks.{HasBlocks};
ghost use Rattle.heap_rows.specs.RowPlaces.{IsInUse, slot_at};
ghost use Rattle.snapshot_core.specs.Marks.{holds};
ghost use Rattle.snapshot_core.specs.StoredVersions.{transaction_of};
ghost use Rattle.snapshot_core.specs.declared.statuses.Status.{Status as AnyStatus};
ghost use Rattle.tx_table.specs.Durable.{IsBefore};
ghost use Rattle.transactions.specs.TransactionsState.{OfOpen};
ghost use Rattle.session_parts.specs.DamagedPages.{NamesAPage};
ghost use Rattle.session_transactions.specs.HitConflicts.{HitConflicts};

use disk_trait::Disk;
use heap_rows::deleter_of;
use page_map::StoreError;
use page_store::PageStore;
use session_parts::Hit;
use snapshot_core::Status;
use transactions::Transactions;

/// Whether the session's transaction can't delete the row of the hit: it is another's, and a third one, which is under way or has committed, has
/// deleted it. Reads at most one page of rows and one of statuses, and changes none.
pub(crate) fn hit_conflicts<D: Disk + Drop>(
    pages: &mut PageStore<D>,
    transactions: &Transactions,
    session: u32,
    table: u8,
    hit: Hit,
) -> Result<bool, StoreError>
    requires open { IsSome (transaction_of transactions.now.opens session) }
    requires ready { pages.old.failed ≡ None }
    requires stays { Survives D.told (λ passed. ⊥) pages.old pages.old }
    requires table { table < length pages.old.layout.schema.tables }
    requires block { hit.spot.block < pages.old.layout.sizes.heap_blocks }
    requires used { Tells D.told pages.old → IsInUse pages.old.layout pages.old.pages table hit.spot }
    ensures conflicts { IfOk result (λ conflicts. OfOpen transactions.now session (λ o. HitConflicts D.told pages.old transactions.now.tx.first table hit o.t conflicts)) }
    ensures kept { Keeps D.told pages.old pages.new }
    ensures survives { Survives D.told (IsBefore pages.old) pages.old pages.new }
    ensures names { IfErr result (NamesAPage pages.old.layout) }
    ensures outcome { Outcome D.told (Untold D.told pages.old) pages.old pages.new result }
{
    let own = transactions.open(session).t;
    if hit.id.t == own {
        return Ok(false);
    }
    match deleter_of(pages, table, hit.spot) {
        Ok(deleter) => {
            if deleter == own {
                return Ok(false);
            }
            if deleter == 0 {
                return Ok(false);
            }
            match transactions.tx().status(pages, deleter) {
                Ok(status) => Ok(holds(status)),
                Err(error) => Err(error),
            }
        }
        Err(error) => Err(error),
    }
}

/// A deleter that stands so keeps others from deleting the row.
fn holds(status: Status) -> bool
    ensures { result ≡ holds status }
{
    match status {
        Status::Begun | Status::Committed => true,
        Status::Unused | Status::RolledBack => false,
    }
}
