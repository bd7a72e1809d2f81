//! A table of transactions over a store of its own.

ghost use Rattle.std.specs.Prelude.{◌≡◌, ◌<◌, ◌≤◌, true, IfOk};
ghost use Rattle.recovery.specs.PageOrder.{AreInOrder};
ghost use Rattle.page_map.specs.Keeps.{Keeps, Tells};
ghost use Rattle.snapshot_core.specs.declared.statuses.Status.TheVariants.{Begun as BegunStatus};
ghost use Rattle.tx_table.specs.LeavesRest.{AreStarted};
ghost use Rattle.tx_table.specs.Statuses.{OfStatuses, status_of};
ghost use Rattle.tx_table.specs.TxState.{IsOver, IsOwn};

use block_model::Place;
use disk_trait::Disk;
use page_map::StoreError;
use page_store::PageStore;
use snapshot_core::Status;
use std::alloc::Global;
use std::marker::Model;
use tx_table::{BeginFault, TxTable, pages_in_order_are_started};

/// The table and its store.
#[derive(Drop)]
pub struct Trial<D: Disk + Drop> {
    store: PageStore<D>,
    table: TxTable,
}

impl<D: Disk + Drop> Model for Trial<D> {
    ghost use Rattle.std.specs.Prelude.{ℕ};
    ghost use Rattle.page_map.specs.Keeps.{Tells};
    ghost use Rattle.tx_table.specs.LeavesRest.{AreStarted};
    ghost use Rattle.tx_table.specs.TxState.{IsOver};

    ghost Value = { ℕ };

    ghost view = { λ a. 0 };

    ghost invariant = { λ a. IsOver D.told a.table a.store × (Tells D.told a.store → AreStarted a.store.layout a.store.pages) };
}

/// The table over the store on the disk, which is opened.
pub fn opened<D: Disk + Drop>(alloc: Global, disk: D) -> Option<Trial<D>> {
    match PageStore::start(alloc, disk) {
        Ok(store) => over(store),
        Err(_) => None,
    }
}

/// The table over a store that was opened: its pages are in order and pass their checks, so each page of statuses is started.
fn over<D: Disk + Drop>(store: PageStore<D>) -> Option<Trial<D>>
    requires order { Tells D.told store → AreInOrder store.layout store.pages }
{
    let mut store = store;
    store.known();
    pages_in_order_are_started();
    match TxTable::start(&mut store) {
        Ok(table) => Some(Trial { store, table }),
        Err(_) => None,
    }
}

impl<D: Disk + Drop> Trial<D> {
    pub fn begin(&mut self) -> Result<u64, BeginFault> {
        self.table.begin(&mut self.store)
    }

    /// Commits a transaction that is begun, and says whether it did.
    pub fn commit(&mut self, t: u64) -> bool {
        if !is_begun(&self.table, &mut self.store, t) {
            return false;
        }
        self.table.commit(&mut self.store, t).is_ok()
    }

    /// Rolls a transaction back that is begun, and says whether it did.
    pub fn rollback(&mut self, t: u64) -> bool {
        if !is_begun(&self.table, &mut self.store, t) {
            return false;
        }
        self.table.rollback(&mut self.store, t).is_ok()
    }

    /// The byte of the page of the first block.
    pub fn byte(&mut self, at: usize) -> Option<u8> {
        first_byte(&mut self.store, at)
    }
}

/// The byte of the page of the first block.
#[tactic(auto, unfolding(store_layout::specs::DiskLayout::relation_blocks))]
fn first_byte<D: Disk + Drop>(store: &mut PageStore<D>, at: usize) -> Option<u8>
    requires { 0 < store.old.layout.sizes.status_blocks }
    ensures { Keeps D.told store.old store.new }
{
    let place = Place {
        relation: 0,
        block: 0,
    };
    match store.read(place) {
        Ok(page) => page.as_bytes().get(at).copied(),
        Err(_) => None,
    }
}

/// How the transaction stands, as the table tells it.
fn told_status<D: Disk + Drop>(
    table: &TxTable,
    store: &mut PageStore<D>,
    t: u64,
) -> Result<Status, StoreError>
    requires over { IsOver D.told table.now store.old }
    requires started { Tells D.told store.old → AreStarted store.old.layout store.old.pages }
    ensures over { IsOver D.told table.now store.new }
    ensures started { Tells D.told store.new → AreStarted store.new.layout store.new.pages }
    ensures kept { Keeps D.told store.old store.new }
    ensures own { IfOk result (λ status. status ≡ BegunStatus → table.now.first ≤ t) }
    ensures begun { IfOk result (λ status. status ≡ BegunStatus → OfStatuses D.told store.new (λ statuses. status_of statuses t ≡ BegunStatus)) }
{
    table.status(store, t)
}

/// Whether the transaction began since the opening and hasn't ended.
fn is_begun<D: Disk + Drop>(table: &TxTable, store: &mut PageStore<D>, t: u64) -> bool
    requires over { IsOver D.told table.now store.old }
    requires started { Tells D.told store.old → AreStarted store.old.layout store.old.pages }
    ensures over { IsOver D.told table.now store.new }
    ensures started { Tells D.told store.new → AreStarted store.new.layout store.new.pages }
    ensures kept { Keeps D.told store.old store.new }
    ensures own { result ≡ true → IsOwn table.now t }
    ensures begun { result ≡ true → OfStatuses D.told store.new (λ statuses. status_of statuses t ≡ BegunStatus) }
{
    match told_status(table, store, t) {
        Ok(Status::Begun) => t < table.next(),
        _ => false,
    }
}
