//! The parts of a store, over pages that were opened.

ghost use Rattle.std.specs.Prelude.{◌≡◌, ◌<◌, ℕ, None, [], length, IfOk, IfErr, MatchResult};
ghost use Rattle.store_layout.specs.declared.limits.TheConstants.{MAX_SESSIONS};
ghost use Rattle.page_store.specs.Survives.{Survives};
ghost use Rattle.page_map.specs.Keeps.{Keeps, Tells};
ghost use Rattle.tx_table.specs.Durable.{IsBefore};
ghost use Rattle.transactions.specs.StartAnswers.{FaultNamesStatuses};
ghost use Rattle.session_starts.specs.FreshPages.{fresh_pages};
ghost use Rattle.session_parts.specs.HandFits.{FitsStore};
ghost use Rattle.session_parts.specs.StoreStates.{store_of};
ghost use Rattle.session_starts.specs.OpenedParts.{AreOpened, IsDone, IsRefused, ShowsStart};

use crate::opening_laws::{a_new_store_is_at_its_start, opened_parts_fit};
use disk_trait::Disk;
use page_locks::{Locks, Rights};
use page_map::MachineFault;
use page_store::PageStore;
use session_parts::{DroppedRequests, Journal, MAX_LOCKS, Parts, Queue};
use std::alloc::Global;
use store_layout::Layout;
use transactions::Transactions;

/// The parts of a store over pages that were opened: no transaction is open, nobody has a lock, and nothing was asked. Each page of statuses is
/// read, and no other. The pages come back with each refusal; want of memory leaves them as they were.
pub fn open_parts<D: Disk + Drop>(
    alloc: Global,
    mut pages: PageStore<D>,
) -> Result<Parts<D>, (MachineFault, PageStore<D>)>
    ensures opened { IfOk result (AreOpened D.told) }
    ensures fits { IfOk result (λ parts. (n : ℕ) → n < MAX_SESSIONS → FitsStore D.told (store_of parts [] []) n) }
    // Of a new store.
    ensures starts { IfOk result (λ parts. Tells D.told pages → pages.pages ≡ fresh_pages pages.layout → ShowsStart pages.layout (store_of parts [] [])) }
    ensures kept { MatchResult result (λ parts. Keeps D.told pages parts.pages) (λ e. Keeps D.told pages e.1) }
    ensures survives { MatchResult result (λ parts. Survives D.told (IsBefore pages) pages parts.pages) (λ e. Survives D.told (IsBefore pages) pages e.1) }
    ensures at { IfErr result (λ e. FaultNamesStatuses pages.layout e.0) }
    ensures outcome { MatchResult result (λ parts. IsDone D.told pages parts.pages) (λ e. IsRefused D.told pages e.1 e.0) }
{
    match pages.ready() {
        Ok(()) => {}
        Err(error) => return Err((MachineFault::Store(error), pages)),
    }
    pages.known();
    let Ok(locks) = Locks::new(alloc, MAX_LOCKS) else {
        return Err((MachineFault::Memory, pages));
    };
    let Ok(rights) = Rights::new(alloc, count_tables(pages.layout())) else {
        return Err((MachineFault::Memory, pages));
    };
    let Ok(queue) = Queue::new(alloc) else {
        return Err((MachineFault::Memory, pages));
    };
    let Ok(dropped) = DroppedRequests::new(alloc) else {
        return Err((MachineFault::Memory, pages));
    };
    locks.known();
    match Transactions::start(alloc, &mut pages) {
        Ok(transactions) => {
            let parts = Parts {
                alloc,
                pages,
                transactions,
                locks,
                rights,
                journal: Journal::new(alloc),
                queue,
                dropped,
            };
            opened_parts_fit(&parts);
            a_new_store_is_at_its_start(parts.pages.layout());
            Ok(parts)
        }
        Err(fault) => Err((fault, pages)),
    }
}

/// How many tables there are.
fn count_tables(layout: &Layout) -> u8
    ensures { result ≡ length layout.now.schema.tables }
{
    layout.known();
    layout.schema().tables.as_slice().len() as u8
}
