//! The later steps of an insert.

ghost use Rattle.std.specs.Prelude.{◌≡◌, ℕ, ◌+◌, ◌<◌, ◌≤◌, ◌∷◌, ◌++◌, [], Some, Ok, length, slice_get, IsSome};
ghost use Rattle.block_model.specs.declared.request.Request.TheVariants as requests;
ghost use Rattle.index_steps.specs.ShownTable.{indexes_of};
ghost use Rattle.page_store.specs.Survives.{Survives};
ghost use Rattle.tx_table.specs.Durable.{IsBefore};
ghost use Rattle.script_semantics.specs.Names.{index_name};
ghost use Rattle.page_locks.specs.LockChanges.{GivesAll};
ghost use Rattle.page_locks.specs.LockCounts.{AddsAtMost, locks_of};
ghost use Rattle.page_locks.specs.LockHolders.{count_of, holder};
ghost use Rattle.snapshot_core.specs.StoredVersions.{transaction_of};
ghost use Rattle.store_layout.specs.StatementRequests.{tagged_entry};
ghost use Rattle.transactions.specs.TransactionsState.{OfOpen, with_failed};
ghost use Rattle.brin_insert.specs.Inserts.{IsInsertFor};
ghost use Rattle.session_parts.specs.declared.limits.TheConstants.{LOCKS_A_SESSION, MAX_LOCKS};
ghost use Rattle.session_parts.specs.StepAnswers.{HasCause};
ghost use Rattle.session_parts.specs.StepIs.{stepped_in};
ghost use Rattle.session_parts.specs.Stepping.{IsFit, IsShown, LeavesTheOthers, MakesItsStep, StaysFit, StaysUndone};

use crate::entering::{done, refuse};
use crate::laws::steps_of_an_insert;
use block_model::{Refusal, Reply, Row, Tag};
use brin_insert::Insert;
use disk_trait::Disk;
use page_locks::Did;
use page_map::MachineFault;
use session_parts::{
    Hand, Parts, Step, StoreFault, an_undone_step_changes_nothing, fault_of, index_named,
    one_hand_changes, page_waited_for, spent,
};

/// A later step of an insert: in an index of its table. Where it has to ask for a summary first, the request joins the queue, or is kept among
/// those that the session asked for in vain. With the last step the insert is done, and its machine may begin another row. It waits where
/// another session locks a page that the step changes. Where no page of the index is left for the tuple with the row, the put is entered
/// anew so, and the session's transaction fails; `Spent` comes where the journal has no room for that.
#[tactic(none)]
pub fn insert_on<D: Disk + Drop>(
    parts: &mut Parts<D>,
    session: u32,
    insert: &mut Insert,
) -> Result<Step, StoreFault>
    requires fit { IsFit D.told parts.old session (Hand.Inserts insert.old) }
    requires few { count_of parts.old.locks + LOCKS_A_SESSION ≤ MAX_LOCKS }
    requires shown { IsShown D.told parts.old session (Hand.Inserts insert.old) }
    ensures steps { MakesItsStep D.told parts.old parts.new session (Hand.Inserts insert.old) (stepped_in (Hand.Inserts insert.new) result) }
    ensures fit { StaysFit D.told parts.old parts.new session (Hand.Inserts insert.old) (stepped_in (Hand.Inserts insert.new) result) }
    ensures others { LeavesTheOthers D.told parts.old parts.new session (Hand.Inserts insert.old) (stepped_in (Hand.Inserts insert.new) result) }
    ensures stays { StaysUndone D.told parts.old parts.new session (Hand.Inserts insert.old) (stepped_in (Hand.Inserts insert.new) result) }
    ensures cause { HasCause D.told parts.old.pages parts.new.pages (stepped_in (Hand.Inserts insert.new) result) }
    // At every moment of the step an image opens to what one did before it, or to the pages as they were.
    ensures survives { Survives D.told (IsBefore parts.old.pages) parts.old.pages parts.new.pages }
    ensures spare { IsInsertFor parts.old.pages.layout insert.new }
{
    steps_of_an_insert();
    one_hand_changes();
    an_undone_step_changes_nothing(parts);
    match parts.pages.ready() {
        Ok(()) => {}
        Err(error) => return Err(fault_of(error)),
    }
    let index = insert.index();
    match insert.step(
        &mut parts.pages,
        &mut parts.locks,
        &mut parts.queue,
        session,
    ) {
        Ok(Did::Moved(point)) => {
            let layout = parts.pages.layout();
            parts.dropped.set(session, layout, insert.dropped());
            Ok(Step::Moved(point))
        }
        Ok(Did::Finished(_)) => done(insert.row()),
        Ok(Did::Blocked(held)) => Ok(Step::Blocked {
            what: page_waited_for(parts.pages.layout(), index, &held),
            holder: held.by,
        }),
        Ok(Did::NoRight { .. }) => unreachable!(),
        Err(MachineFault::Full { number, .. }) => {
            if !parts.journal.fits(1) {
                return Err(spent(&parts.journal));
            }
            full_index(parts, session, insert.row(), index, number)
        }
        Err(MachineFault::Store(error)) => {
            parts.locks.drop_all(session);
            Err(fault_of(error))
        }
        Err(MachineFault::Memory) => unreachable!(),
    }
}

/// The index is full for the row: the insert is refused.
fn full_index<D: Disk + Drop>(
    parts: &mut Parts<D>,
    session: u32,
    row: &Row,
    index: u8,
    number: u64,
) -> Result<Step, StoreFault>
    requires index { index < length parts.old.pages.layout.schema.indexes }
    requires promised { 0 < parts.old.journal.promised }
    requires open { IsSome (transaction_of parts.old.transactions.opens session) }
    ensures failed { OfOpen parts.old.transactions session (λ o. parts.new.transactions ≡ with_failed parts.old.transactions session o) }
    ensures entries { parts.new.journal.entries ≡ parts.old.journal.entries ++ tagged_entry session row.now.table (requests.Put row.now.values) Tag.Full ∷ [] }
    ensures promised { parts.new.journal.promised + 1 ≡ parts.old.journal.promised }
    ensures given { GivesAll (holder parts.old.locks) (holder parts.new.locks) session }
    ensures none { locks_of parts.new.locks session ≡ 0 }
    ensures limit { parts.new.locks.limit ≡ parts.old.locks.limit }
    ensures counts { AddsAtMost parts.old.locks parts.new.locks session 0 }
    ensures rest { parts.new ≡ record parts.old { transactions = parts.new.transactions; locks = parts.new.locks; journal = parts.new.journal } }
    ensures reply { (table at : ℕ) → slice_get (indexes_of parts.old.pages.layout table) at ≡ Some index → result ≡ Ok (Step.Done (Reply.Refused (Refusal.Full (index_name parts.old.pages.layout table at) number))) }
{
    let relation = index_named(parts.pages.layout(), index);
    let refusal = Refusal::Full { relation, number };
    let reply = refuse(parts, session, row.table, &row.values, Tag::Full, refusal);
    Ok(Step::Done(reply))
}
