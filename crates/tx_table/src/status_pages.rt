//! The pages of statuses.

ghost use Rattle.std.specs.Prelude.{◌≡◌, ◌/◌, ◌<◌, ◌≤◌, ℕ, IfOk, IfErr, OnOk, OnErr, set, take};
ghost use Rattle.std.specs.List.{All};
ghost use Rattle.page_layout.specs.declared.format.TheConstants.{STATUS_ENTRIES};
ghost use Rattle.page_store.specs.Survives.{Survives};
ghost use Rattle.page_map.specs.Keeps.{Keeps, Tells, Untold};
ghost use Rattle.page_map.specs.Outcome.{Outcome};
ghost use Rattle.snapshot_core.specs.declared.statuses.Status.TheVariants.{Unused as UnusedStatus};
ghost use Rattle.store_layout.specs.DiskLayout.{IsPlace};
ghost use Rattle.tx_table.specs.Durable.{HasPart, IsBefore, IsDurable};
ghost use Rattle.tx_table.specs.LeavesRest.{KeepsUnlessDisk, LeavesRest, NamesStatuses};
ghost use Rattle.tx_table.specs.Statuses.{HasStatuses, IsStartedBlock, OfStatuses, number_limit, status_named, status_of, status_relation, with_all};

use block_model::Place;
use disk_trait::Disk;
use page_layout::{STATUS_ENTRIES, status_at};
use page_map::StoreError;
use page_store::PageStore;
use snapshot_core::Status;
use store_layout::Layout;
use wal_record::Change;

/// The relation of the statuses.
pub(crate) const RELATION: u8 = 0;

/// How many statuses a page has.
pub(crate) const ENTRIES: u64 = STATUS_ENTRIES as u64;

/// How many transactions the pages have a status of.
pub(crate) fn number_limit(layout: &Layout) -> u64
    ensures { result ≡ number_limit layout.now }
{
    layout.known();
    u64::from(layout.sizes().status_blocks) * ENTRIES
}

/// The page of the transaction's status.
fn place_of(layout: &Layout, t: u64) -> Place
    requires { t < number_limit layout.now }
    ensures place { IsPlace layout.now result }
    ensures relation { result.relation ≡ status_relation }
    ensures block { result.block ≡ t / STATUS_ENTRIES }
{
    layout.known();
    Place {
        relation: RELATION,
        block: (t / ENTRIES) as u32,
    }
}

/// The status that a page names so.
fn status_named(number: u8) -> Status
    ensures { result ≡ status_named number }
{
    match number {
        0 => Status::Unused,
        1 => Status::Begun,
        2 => Status::Committed,
        _ => Status::RolledBack,
    }
}

/// How a page names the status.
fn number_of(status: Status) -> u8
    ensures small { result < 4 }
    ensures named { status_named result ≡ status }
{
    match status {
        Status::Unused => 0,
        Status::Begun => 1,
        Status::Committed => 2,
        Status::RolledBack => 3,
    }
}

/// The status of a transaction on its page; unused where it is past the pages.
pub(crate) fn stored_status<D: Disk + Drop>(
    pages: &mut PageStore<D>,
    t: u64,
) -> Result<Status, StoreError>
    ensures status { IfOk result (λ status. OfStatuses D.told pages.old (λ statuses. status ≡ status_of statuses t)) }
    ensures past { number_limit pages.old.layout ≤ t → IfOk result (λ status. status ≡ UnusedStatus) }
    ensures kept { Keeps D.told pages.old pages.new }
    ensures survives { Survives D.told (IsBefore pages.old) pages.old pages.new }
    ensures at { IfErr result (NamesStatuses pages.old.layout) }
    ensures outcome { Outcome D.told (Untold D.told pages.old) pages.old pages.new result }
{
    match pages.ready() {
        Ok(()) => {}
        Err(error) => return Err(error),
    }
    if t >= number_limit(pages.layout()) {
        return Ok(Status::Unused);
    }
    let place = place_of(pages.layout(), t);
    match pages.read(place) {
        Ok(page) => Ok(status_named(status_at(page, (t % ENTRIES) as u16))),
        Err(error) => Err(error),
    }
}

/// The transaction, whose page is started, has the status.
pub(crate) fn set_status<D: Disk + Drop>(
    pages: &mut PageStore<D>,
    t: u64,
    status: Status,
) -> Result<(), StoreError>
    requires number { t < number_limit pages.old.layout }
    requires started { Tells D.told pages.old → IsStartedBlock pages.old.pages (t / STATUS_ENTRIES) }
    ensures set { OnOk result (OfStatuses D.told pages.old (λ statuses. HasStatuses pages.old.layout pages.new.pages (set statuses t status))) }
    ensures kept { OnErr result (Keeps D.told pages.old pages.new) }
    ensures survives { Survives D.told (IsBefore pages.old) pages.old pages.new }
    ensures rest { LeavesRest D.told pages.old pages.new }
    ensures at { IfErr result (NamesStatuses pages.old.layout) }
    ensures outcome { Outcome D.told (Untold D.told pages.old) pages.old pages.new result }
{
    let place = place_of(pages.layout(), t);
    let change = Change::StatusSet {
        place,
        entry: (t % ENTRIES) as u16,
        status: number_of(status),
    };
    pages.change(place, &change)
}

/// The transactions, whose pages are started, have the status. At an error a first part of them has it.
pub(crate) fn set_each<D: Disk + Drop>(
    pages: &mut PageStore<D>,
    list: &[u64],
    status: Status,
) -> Result<(), StoreError>
    requires numbers { All (λ t. t < number_limit pages.old.layout) list.now }
    requires started { Tells D.told pages.old → All (λ t. IsStartedBlock pages.old.pages (t / STATUS_ENTRIES)) list.now }
    ensures set { OnOk result (OfStatuses D.told pages.old (λ statuses. HasStatuses pages.old.layout pages.new.pages (with_all statuses list.now status))) }
    ensures some { OfStatuses D.told pages.old (λ statuses. (n : ℕ) × HasStatuses pages.old.layout pages.new.pages (with_all statuses (take n list.now) status)) }
    ensures kept { IfErr result (KeepsUnlessDisk D.told pages.old pages.new) }
    ensures survives { Survives D.told (HasPart pages.old.layout pages.old.pages list.now status) pages.old pages.new }
    ensures rest { LeavesRest D.told pages.old pages.new }
    ensures at { IfErr result (NamesStatuses pages.old.layout) }
    ensures outcome { Outcome D.told (Untold D.told pages.old) pages.old pages.new result }
{
    match pages.ready() {
        Ok(()) => {}
        Err(error) => return Err(error),
    }
    'list: for t in list {
        match set_status(pages, *t, status) {
            Ok(()) => {}
            Err(error) => return Err(error),
        }
    }
    Ok(())
}

/// Makes every change so far durable.
pub(crate) fn flush<D: Disk + Drop>(pages: &mut PageStore<D>) -> Result<(), StoreError>
    ensures durable { OnOk result (IsDurable D.told pages.new) }
    ensures kept { Keeps D.told pages.old pages.new }
    ensures survives { Survives D.told (IsBefore pages.old) pages.old pages.new }
    ensures at { IfErr result (NamesStatuses pages.old.layout) }
    ensures outcome { Outcome D.told (Untold D.told pages.old) pages.old pages.new result }
{
    pages.flush()
}
