//! The table of transactions.

ghost use Rattle.std.specs.Prelude.{◌≡◌, ◌+◌, ◌/◌, ◌≤◌, ◌∷◌, ℕ, [], IfOk, IfErr, OnOk, OnErr, set, take};
ghost use Rattle.std.specs.List.{All};
ghost use Rattle.page_layout.specs.declared.format.TheConstants.{STATUS_ENTRIES};
ghost use Rattle.page_store.specs.Survives.{Survives};
ghost use Rattle.page_map.specs.Keeps.{Keeps, Tells, Untold};
ghost use Rattle.page_map.specs.Outcome.{Outcome};
ghost use Rattle.snapshot_core.specs.declared.statuses.Status.TheVariants.{Begun as BegunStatus, Committed as CommittedStatus, RolledBack as RolledBackStatus, Unused as UnusedStatus};
ghost use Rattle.tx_table.specs.Durable.{HasPart, IsBefore, IsDurable};
ghost use Rattle.tx_table.specs.BeginAnswers.{BeginOutcome, NamesStatusPage};
ghost use Rattle.tx_table.specs.LeavesRest.{AreStarted, KeepsUnlessDisk, LeavesRest, NamesStatuses};
ghost use Rattle.tx_table.specs.Statuses.{HasStatuses, OfStatuses, after_stop, number_limit, shown_status, status_of, with_all};
ghost use Rattle.tx_table.specs.TxState.{IsOver, IsOwn};

use crate::faults::BeginFault;
use crate::opening::next_number;
use crate::status_pages::{flush, number_limit, set_each, set_status, stored_status};
use disk_trait::Disk;
use page_map::StoreError;
use page_store::PageStore;
use snapshot_core::Status;
use std::marker::Model;

/// The numbers of the transactions of a store. Seen as the first number of this opening and the next number.
#[derive(Debug, Drop)]
pub struct TxTable {
    first: u64,
    next: u64,
}

impl Model for TxTable {
    ghost use Rattle.tx_table.specs.TxState.{TxState};

    ghost Value = { TxState };

    ghost view = { λ a. record { first = a.first; next = a.next } };
}

impl TxTable {
    /// The table of a store that was opened: the next number is one above the greatest that isn't unused. Reads each page of
    /// statuses once, and no other. Takes no memory.
    pub fn start<D: Disk + Drop>(pages: &mut PageStore<D>) -> Result<TxTable, StoreError>
        ensures over { IfOk result (λ table. IsOver D.told table pages.new) }
        ensures opened { IfOk result (λ table. table.first ≡ table.next) }
        ensures kept { Keeps D.told pages.old pages.new }
        ensures survives { Survives D.told (IsBefore pages.old) pages.old pages.new }
        ensures at { IfErr result (NamesStatuses pages.old.layout) }
        ensures outcome { Outcome D.told (Untold D.told pages.old) pages.old pages.new result }
    {
        match next_number(pages) {
            Ok(next) => Ok(TxTable { first: next, next }),
            Err(error) => Err(error),
        }
    }

    /// Begins a transaction, and answers its number, the next one. Spent exactly where each number has been given. After an
    /// error nothing is changed.
    pub fn begin<D: Disk + Drop>(&mut self, pages: &mut PageStore<D>) -> Result<u64, BeginFault>
        requires over { IsOver D.told self.old pages.old }
        requires started { Tells D.told pages.old → AreStarted pages.old.layout pages.old.pages }
        ensures number { IfOk result (λ t. (t ≡ self.old.next) × (self.new.next ≡ t + 1)) }
        // By the statuses that the pages have: the number was unused.
        ensures unused { OnOk result (OfStatuses D.told pages.old (λ statuses. status_of statuses self.old.next ≡ UnusedStatus)) }
        ensures begun { OnOk result (OfStatuses D.told pages.old (λ statuses. HasStatuses pages.old.layout pages.new.pages (set statuses self.old.next BegunStatus))) }
        ensures opening { self.new.first ≡ self.old.first }
        ensures over { IsOver D.told self.new pages.new }
        ensures same { OnErr result (self.new ≡ self.old) }
        ensures kept { OnErr result (Keeps D.told pages.old pages.new) }
        ensures survives { Survives D.told (IsBefore pages.old) pages.old pages.new }
        ensures rest { LeavesRest D.told pages.old pages.new }
        ensures names { IfErr result (NamesStatusPage pages.old.layout) }
        ensures outcome { BeginOutcome D.told self.old.next pages.old pages.new result }
    {
        match pages.ready() {
            Ok(()) => {}
            Err(error) => return Err(BeginFault::Store(error)),
        }
        let number = self.next;
        if number == number_limit(pages.layout()) {
            return Err(BeginFault::Spent { number });
        }
        match set_status(pages, number, Status::Begun) {
            Ok(()) => {
                self.next = number + 1;
                Ok(number)
            }
            Err(error) => Err(BeginFault::Store(error)),
        }
    }

    /// Commits the transaction, which began since the opening and hasn't ended. Ok comes only behind a flush. After
    /// an error nothing is changed, but for a disk fault: it may come between the change and the end of the flush.
    pub fn commit<D: Disk + Drop>(
        &mut self,
        pages: &mut PageStore<D>,
        t: u64,
    ) -> Result<(), StoreError>
        requires over { IsOver D.told self.old pages.old }
        requires own { IsOwn self.old t }
        requires begun { OfStatuses D.told pages.old (λ statuses. status_of statuses t ≡ BegunStatus) }
        // By the statuses that the pages have.
        ensures committed { OnOk result (OfStatuses D.told pages.old (λ statuses. HasStatuses pages.old.layout pages.new.pages (set statuses t CommittedStatus))) }
        ensures durable { OnOk result (IsDurable D.told pages.new) }
        ensures some { OfStatuses D.told pages.old (λ statuses. (n : ℕ) × HasStatuses pages.old.layout pages.new.pages (with_all statuses (take n (t ∷ [])) CommittedStatus)) }
        ensures kept { IfErr result (KeepsUnlessDisk D.told pages.old pages.new) }
        // At every moment of the call each image opens to what one did before it, or to these.
        ensures survives { Survives D.told (HasPart pages.old.layout pages.old.pages (t ∷ []) CommittedStatus) pages.old pages.new }
        ensures same { self.new ≡ self.old }
        ensures over { IsOver D.told self.new pages.new }
        ensures rest { LeavesRest D.told pages.old pages.new }
        ensures at { IfErr result (NamesStatuses pages.old.layout) }
        ensures outcome { Outcome D.told (Untold D.told pages.old) pages.old pages.new result }
    {
        self.commit_all(pages, &[t])
    }

    /// Commits the transactions, each of which began since the opening and hasn't ended, and whose statuses stand on one
    /// page. Ok comes only behind a flush. After an error nothing is changed, but for a disk fault: it may come
    /// between the changes and the end of the flush.
    pub fn commit_all<D: Disk + Drop>(
        &mut self,
        pages: &mut PageStore<D>,
        list: &[u64],
    ) -> Result<(), StoreError>
        requires over { IsOver D.told self.old pages.old }
        requires own { All (IsOwn self.old) list.now }
        requires begun { OfStatuses D.told pages.old (λ statuses. All (λ t. status_of statuses t ≡ BegunStatus) list.now) }
        requires page { (block : ℕ) × All (λ t. t / STATUS_ENTRIES ≡ block) list.now }
        // By the statuses that the pages have.
        ensures committed { OnOk result (OfStatuses D.told pages.old (λ statuses. HasStatuses pages.old.layout pages.new.pages (with_all statuses list.now CommittedStatus))) }
        ensures durable { OnOk result (IsDurable D.told pages.new) }
        // At an error too: those of a first part of the list.
        ensures some { OfStatuses D.told pages.old (λ statuses. (n : ℕ) × HasStatuses pages.old.layout pages.new.pages (with_all statuses (take n list.now) CommittedStatus)) }
        ensures kept { IfErr result (KeepsUnlessDisk D.told pages.old pages.new) }
        // At every moment of the call each image opens to what one did before it, or to these.
        ensures survives { Survives D.told (HasPart pages.old.layout pages.old.pages list.now CommittedStatus) pages.old pages.new }
        ensures same { self.new ≡ self.old }
        ensures over { IsOver D.told self.new pages.new }
        ensures rest { LeavesRest D.told pages.old pages.new }
        ensures at { IfErr result (NamesStatuses pages.old.layout) }
        ensures outcome { Outcome D.told (Untold D.told pages.old) pages.old pages.new result }
    {
        match set_each(pages, list, Status::Committed) {
            Ok(()) => flush(pages),
            Err(error) => Err(error),
        }
    }

    /// Rolls the transaction back, which began since the opening and hasn't ended. After an error nothing is changed.
    pub fn rollback<D: Disk + Drop>(
        &mut self,
        pages: &mut PageStore<D>,
        t: u64,
    ) -> Result<(), StoreError>
        requires over { IsOver D.told self.old pages.old }
        requires own { IsOwn self.old t }
        requires begun { OfStatuses D.told pages.old (λ statuses. status_of statuses t ≡ BegunStatus) }
        // By the statuses that the pages have.
        ensures rolled_back { OnOk result (OfStatuses D.told pages.old (λ statuses. HasStatuses pages.old.layout pages.new.pages (set statuses t RolledBackStatus))) }
        ensures kept { OnErr result (Keeps D.told pages.old pages.new) }
        ensures survives { Survives D.told (IsBefore pages.old) pages.old pages.new }
        ensures same { self.new ≡ self.old }
        ensures over { IsOver D.told self.new pages.new }
        ensures rest { LeavesRest D.told pages.old pages.new }
        ensures at { IfErr result (NamesStatuses pages.old.layout) }
        ensures outcome { Outcome D.told (Untold D.told pages.old) pages.old pages.new result }
    {
        set_status(pages, t, Status::RolledBack)
    }

    /// How the transaction stands: one that began before the opening and never ended was rolled back, and one past the pages
    /// of statuses is unused. Copies no page.
    pub fn status<D: Disk + Drop>(
        &self,
        pages: &mut PageStore<D>,
        t: u64,
    ) -> Result<Status, StoreError>
        // By the statuses that the pages have.
        ensures shown { IfOk result (λ status. OfStatuses D.told pages.old (λ statuses. status ≡ shown_status self.now.first statuses t)) }
        // Also where the disk doesn't tell its contents.
        ensures past { number_limit pages.old.layout ≤ t → IfOk result (λ status. status ≡ UnusedStatus) }
        ensures own { IfOk result (λ status. status ≡ BegunStatus → self.now.first ≤ t) }
        ensures kept { Keeps D.told pages.old pages.new }
        ensures survives { Survives D.told (IsBefore pages.old) pages.old pages.new }
        ensures at { IfErr result (NamesStatuses pages.old.layout) }
        ensures outcome { Outcome D.told (Untold D.told pages.old) pages.old pages.new result }
    {
        match stored_status(pages, t) {
            Ok(status) => Ok(after_stop(t < self.first, status)),
            Err(error) => Err(error),
        }
    }

    /// The number that the next transaction gets.
    pub fn next(&self) -> u64
        ensures { result ≡ self.now.next }
    {
        self.next
    }
}

/// How a transaction stands that has this status on its page, where it began before the opening or since.
fn after_stop(earlier: bool, status: Status) -> Status
    ensures { result ≡ after_stop earlier status }
{
    match status {
        Status::Begun if earlier => Status::RolledBack,
        _ => status,
    }
}
