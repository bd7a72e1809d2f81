//! The open transactions of the sessions.

ghost use Rattle.std.specs.Prelude.{◌≡◌, ◌+◌, ◌^◌, ◌<◌, ◌≤◌, ◌∷◌, ℕ, [], not, true, None, Some, IsSome, IsSomeAnd, IfOk, IfErr, IfSome, OnOk, OnErr, replicate, set, take, vec_capacity, false, if◌then◌else◌};
ghost use Rattle.std.specs.Option.{option_copied};
ghost use Rattle.block_model.specs.declared.request.Request.TheVariants as requests;
ghost use Rattle.block_model.specs.RequestEffect.{Begun, Committed, RolledBack};
ghost use Rattle.store_layout.specs.declared.limits.TheConstants.{MAX_SESSIONS};
ghost use Rattle.store_layout.specs.StatementRequests.{request_entry};
ghost use Rattle.heap_rows.specs.Survives.{Survives};
ghost use Rattle.page_map.specs.Keeps.{Keeps, Tells, Untold};
ghost use Rattle.page_map.specs.Outcome.{Outcome};
ghost use Rattle.snapshot_core.specs.OldestOpen.{oldest_of};
ghost use Rattle.snapshot_core.specs.StoredVersions.{transaction_of};
ghost use Rattle.snapshot_core.specs.declared.statuses.Status.TheVariants.{Begun as BegunStatus, Committed as CommittedStatus, RolledBack as RolledBackStatus};
ghost use Rattle.tx_table.specs.BeginAnswers.{BeginOutcome, NamesStatusPage};
ghost use Rattle.tx_table.specs.Durable.{HasPart, IsBefore, IsDurable};
ghost use Rattle.tx_table.specs.LeavesRest.{KeepsUnlessDisk, LeavesRest, NamesStatuses};
ghost use Rattle.tx_table.specs.Statuses.{HasStatuses, OfStatuses, with_all};
ghost use Rattle.tx_table.specs.TxState.{IsOver, IsOwn};
ghost use Rattle.transactions.specs.BeginAnswers.{without_list};
ghost use Rattle.transactions.specs.Sessions.{committed_by, next_row_of, open_standing};
ghost use Rattle.transactions.specs.ShowsDatabase.{DoesRequest, OfDatabase, ShowsSome};
ghost use Rattle.transactions.specs.StartAnswers.{FaultNamesStatuses, StartOutcome};
ghost use Rattle.transactions.specs.TransactionsState.{AreOpen, OfOpen, next_open, with_begun, with_failed, with_open, with_row_counted};

use crate::faults::Unbegun;
use block_model::{Numbers, RowId};
use disk_trait::Disk;
use heap_rows::PageStore;
use page_map::{MachineFault, StoreError};
use snapshot_core::{
    Open, Snapshot, Standing, count_row, fail_open, no_transactions, numbers_of, oldest_of,
    open_of, set_open, take_open, transaction_of,
};
use std::alloc::Global;
use std::marker::Model;
use tx_table::TxTable;

/// The place that no row of a transaction has: its rows have the `u32` places below it.
const NO_PLACE: u32 = u32::MAX;

/// The numbers of transactions, and the open transaction of each session.
#[derive(Drop)]
pub struct Transactions {
    tx: TxTable,
    /// At the place of each session.
    sessions: Vec<Option<Open>>,
}

impl Model for Transactions {
    ghost use Rattle.transactions.specs.TransactionsState.{AreOpen, TransactionsState};

    ghost Value = { TransactionsState };

    ghost view = { λ a. record { tx = a.tx; opens = a.sessions.items } };

    ghost invariant = { λ a. AreOpen (record { tx = a.tx; opens = a.sessions.items }) };
}

impl Transactions {
    /// No open transactions, over the pages of a store that was opened. Reads each page of statuses once, and no other. Takes memory
    /// for the places of the sessions, first.
    pub fn start<D: Disk + Drop>(
        alloc: Global,
        pages: &mut PageStore<D>,
    ) -> Result<Transactions, MachineFault>
        ensures over { IfOk result (λ t. IsOver D.told t.tx pages.new) }
        ensures opened { IfOk result (λ t. t.tx.first ≡ t.tx.next) }
        ensures opens { IfOk result (λ t. t.opens ≡ replicate MAX_SESSIONS None) }
        ensures kept { Keeps D.told pages.old pages.new }
        ensures survives { Survives D.told (IsBefore pages.old) pages.old pages.new }
        ensures at { IfErr result (FaultNamesStatuses pages.old.layout) }
        ensures outcome { StartOutcome D.told pages.old pages.new result }
    {
        match pages.ready() {
            Ok(()) => {}
            Err(error) => return Err(MachineFault::Store(error)),
        }
        let Ok(sessions) = no_transactions(alloc) else {
            return Err(MachineFault::Memory);
        };
        match TxTable::start(pages) {
            Ok(tx) => Ok(Transactions { tx, sessions }),
            Err(error) => Err(MachineFault::Store(error)),
        }
    }

    /// Does nothing; tells its caller what holds of the open transactions on any disk.
    pub fn known(&self)
        ensures { AreOpen self.now }
    {
        // The toolchain opens the invariant where a field is read.
        let _ = &self.sessions;
    }

    /// The numbers of transactions, and how each stands.
    pub fn tx(&self) -> &TxTable
        ensures { result.now ≡ self.now.tx }
    {
        &self.tx
    }

    /// How the session stands.
    pub fn standing(&self, session: u32) -> Standing
        ensures { result ≡ open_standing (transaction_of self.now.opens session) }
    {
        match transaction_of(self.sessions.as_slice(), session) {
            Some(open) => {
                if open.failed {
                    Standing::Failed
                } else {
                    Standing::UnderWay
                }
            }
            None => Standing::Idle,
        }
    }

    /// The session's open transaction.
    pub fn open(&self, session: u32) -> &Open
        requires { IsSome (transaction_of self.now.opens session) }
        ensures { transaction_of self.now.opens session ≡ Some result.now }
    {
        open_of(self.sessions.as_slice(), session)
    }

    /// The open transaction whose view was taken first, if one is open. What had ended then had ended when each other view was taken.
    pub fn oldest(&self) -> Option<&Open>
        ensures { option_copied result ≡ oldest_of self.now.opens }
    {
        oldest_of(self.sessions.as_slice())
    }

    /// The id of the row that the session's transaction puts next: none where it has put as many as its numbers reach.
    pub fn next_row(&self, session: u32) -> Option<RowId>
        requires { IsSome (transaction_of self.now.opens session) }
        ensures id { OfOpen self.now session (λ o. result ≡ next_row_of o) }
        ensures room { IfSome result (λ id. id.k + 1 < 2 ^ 32) }
    {
        let open = open_of(self.sessions.as_slice(), session);
        if open.next_k == NO_PLACE {
            return None;
        }
        Some(RowId {
            t: open.t,
            k: open.next_k,
        })
    }

    /// Begins a transaction of the session, and answers its number, the next one. Spent exactly where each number has been given.
    /// `active` is empty, with room for a number of each session. After an error nothing is changed, and `active` comes back. Takes no
    /// memory.
    pub fn begin<D: Disk + Drop>(
        &mut self,
        pages: &mut PageStore<D>,
        session: u32,
        active: Vec<u64>,
    ) -> Result<u64, Unbegun>
        requires over { IsOver D.told self.old.tx pages.old }
        requires shown { ShowsSome D.told pages.old self.old }
        requires session { session < MAX_SESSIONS }
        requires idle { transaction_of self.old.opens session ≡ None }
        requires empty { active.items ≡ [] }
        requires room { MAX_SESSIONS ≤ vec_capacity active }
        ensures number { IfOk result (λ t. t ≡ self.old.tx.next) }
        ensures begun { OnOk result (self.new ≡ with_begun self.old session) }
        ensures same { OnErr result (self.new ≡ self.old) }
        ensures database { IfOk result (λ t. OfDatabase D.told pages.old self.old (λ s. DoesRequest pages.old.layout pages.new.pages self.new s (request_entry session 0 requests.Begin) (Begun t))) }
        // By the statuses that the pages have.
        ensures statuses { OnOk result (OfStatuses D.told pages.old (λ stored. HasStatuses pages.old.layout pages.new.pages (set stored self.old.tx.next BegunStatus))) }
        ensures shown { ShowsSome D.told pages.new self.new }
        ensures over { IsOver D.told self.new.tx pages.new }
        ensures kept { OnErr result (Keeps D.told pages.old pages.new) }
        ensures survives { Survives D.told (IsBefore pages.old) pages.old pages.new }
        ensures rest { LeavesRest D.told pages.old pages.new }
        ensures back { IfErr result (λ unbegun. unbegun.active ≡ active) }
        ensures names { IfErr result (λ unbegun. NamesStatusPage pages.old.layout unbegun.fault) }
        ensures outcome { BeginOutcome D.told self.old.tx.next pages.old pages.new (without_list result) }
    {
        match self.tx.begin(pages) {
            Ok(t) => {
                let numbers = numbers_of(self.sessions.as_slice(), active);
                set_open(&mut self.sessions, session, new_open(t, numbers));
                Ok(t)
            }
            Err(fault) => Err(Unbegun { fault, active }),
        }
    }

    /// The session's transaction has put one row more.
    pub fn count_row(&mut self, session: u32)
        requires { IsSomeAnd (transaction_of self.old.opens session) (λ o. o.next_k + 1 < 2 ^ 32) }
        ensures { OfOpen self.old session (λ o. self.new ≡ with_row_counted self.old session o) }
    {
        count_row(&mut self.sessions, session);
    }

    /// The session's transaction fails: from now on it can only end.
    pub fn fail(&mut self, session: u32)
        requires { IsSome (transaction_of self.old.opens session) }
        ensures { OfOpen self.old session (λ o. self.new ≡ with_failed self.old session o) }
    {
        fail_open(&mut self.sessions, session);
    }

    /// Commits the session's transaction, or rolls it back where it has failed; whether it was committed, which it is only behind
    /// a flush. After an error the transaction is open as before, and nothing is changed, but for a disk fault: it may come
    /// between the change and the end of the flush. Takes no memory.
    pub fn commit<D: Disk + Drop>(
        &mut self,
        pages: &mut PageStore<D>,
        session: u32,
    ) -> Result<bool, StoreError>
        requires over { IsOver D.told self.old.tx pages.old }
        requires shown { ShowsSome D.told pages.old self.old }
        requires open { IsSome (transaction_of self.old.opens session) }
        ensures answer { IfOk result (λ committed. OfOpen self.old session (λ o. committed ≡ not o.failed)) }
        ensures ended { OnOk result (self.new ≡ with_open self.old session None) }
        ensures same { OnErr result (self.new ≡ self.old) }
        ensures database { IfOk result (λ committed. OfDatabase D.told pages.old self.old (λ s. DoesRequest pages.old.layout pages.new.pages self.new s (request_entry session 0 requests.Commit) (if committed then Committed else RolledBack))) }
        ensures durable { IfOk result (λ committed. committed ≡ true → IsDurable D.told pages.new) }
        // By the statuses that the pages have.
        ensures statuses { IfOk result (λ committed. OfOpen self.old session (λ o. OfStatuses D.told pages.old (λ stored. HasStatuses pages.old.layout pages.new.pages (set stored o.t (if committed then CommittedStatus else RolledBackStatus))))) }
        ensures shown { OnOk result (ShowsSome D.told pages.new self.new) }
        ensures over { IsOver D.told self.new.tx pages.new }
        ensures kept { IfErr result (KeepsUnlessDisk D.told pages.old pages.new) }
        // At every moment of the call each image opens to what one did before it, or to these: where it has failed, to no others.
        ensures survives { OfOpen self.old session (λ o. Survives D.told (HasPart pages.old.layout pages.old.pages (committed_by o) CommittedStatus) pages.old pages.new) }
        ensures rest { LeavesRest D.told pages.old pages.new }
        ensures at { IfErr result (NamesStatuses pages.old.layout) }
        ensures outcome { Outcome D.told (Untold D.told pages.old) pages.old pages.new result }
    {
        if open_of(self.sessions.as_slice(), session).failed {
            match self.rollback(pages, session) {
                Ok(()) => Ok(false),
                Err(error) => Err(error),
            }
        } else {
            match self.commit_unfailed(pages, session) {
                Ok(()) => Ok(true),
                Err(error) => Err(error),
            }
        }
    }

    /// Commits the session's transaction, which hasn't failed.
    fn commit_unfailed<D: Disk + Drop>(
        &mut self,
        pages: &mut PageStore<D>,
        session: u32,
    ) -> Result<(), StoreError>
        requires over { IsOver D.told self.old.tx pages.old }
        requires shown { ShowsSome D.told pages.old self.old }
        requires open { IsSome (transaction_of self.old.opens session) }
        requires unfailed { OfOpen self.old session (λ o. o.failed ≡ false) }
        ensures ended { OnOk result (self.new ≡ with_open self.old session None) }
        ensures same { OnErr result (self.new ≡ self.old) }
        ensures database { OnOk result (OfDatabase D.told pages.old self.old (λ s. DoesRequest pages.old.layout pages.new.pages self.new s (request_entry session 0 requests.Commit) Committed)) }
        ensures durable { OnOk result (IsDurable D.told pages.new) }
        ensures statuses { OnOk result (OfOpen self.old session (λ o. OfStatuses D.told pages.old (λ stored. HasStatuses pages.old.layout pages.new.pages (set stored o.t CommittedStatus)))) }
        ensures shown { OnOk result (ShowsSome D.told pages.new self.new) }
        ensures over { IsOver D.told self.new.tx pages.new }
        ensures kept { IfErr result (KeepsUnlessDisk D.told pages.old pages.new) }
        ensures survives { OfOpen self.old session (λ o. Survives D.told (HasPart pages.old.layout pages.old.pages (committed_by o) CommittedStatus) pages.old pages.new) }
        ensures rest { LeavesRest D.told pages.old pages.new }
        ensures at { IfErr result (NamesStatuses pages.old.layout) }
        ensures outcome { Outcome D.told (Untold D.told pages.old) pages.old pages.new result }
    {
        let t = open_of(self.sessions.as_slice(), session).t;
        match self.tx.commit(pages, t) {
            Ok(()) => {
                take_open(&mut self.sessions, session);
                Ok(())
            }
            Err(error) => Err(error),
        }
    }

    /// Rolls the session's transaction back. After an error nothing is changed. Takes no memory.
    pub fn rollback<D: Disk + Drop>(
        &mut self,
        pages: &mut PageStore<D>,
        session: u32,
    ) -> Result<(), StoreError>
        requires over { IsOver D.told self.old.tx pages.old }
        requires shown { ShowsSome D.told pages.old self.old }
        requires open { IsSome (transaction_of self.old.opens session) }
        ensures ended { OnOk result (self.new ≡ with_open self.old session None) }
        ensures same { OnErr result (self.new ≡ self.old) }
        ensures database { OnOk result (OfDatabase D.told pages.old self.old (λ s. DoesRequest pages.old.layout pages.new.pages self.new s (request_entry session 0 requests.Rollback) RolledBack)) }
        // By the statuses that the pages have.
        ensures statuses { OnOk result (OfOpen self.old session (λ o. OfStatuses D.told pages.old (λ stored. HasStatuses pages.old.layout pages.new.pages (set stored o.t RolledBackStatus)))) }
        ensures shown { ShowsSome D.told pages.new self.new }
        ensures over { IsOver D.told self.new.tx pages.new }
        ensures kept { OnErr result (Keeps D.told pages.old pages.new) }
        ensures survives { Survives D.told (IsBefore pages.old) pages.old pages.new }
        ensures rest { LeavesRest D.told pages.old pages.new }
        ensures at { IfErr result (NamesStatuses pages.old.layout) }
        ensures outcome { Outcome D.told (Untold D.told pages.old) pages.old pages.new result }
    {
        let t = open_of(self.sessions.as_slice(), session).t;
        match self.tx.rollback(pages, t) {
            Ok(()) => {
                take_open(&mut self.sessions, session);
                Ok(())
            }
            Err(error) => Err(error),
        }
    }
}

/// A transaction that begins with the number, where these are under way.
fn new_open(t: u64, active: Vec<u64>) -> Open
    ensures { result ≡ record { t = t; next_k = 0; snapshot = record { next = t; active = active.items }; failed = false } }
{
    Open {
        t,
        next_k: 0,
        snapshot: Snapshot {
            next: t,
            active: Numbers::from_vec(active),
        },
        failed: false,
    }
}
