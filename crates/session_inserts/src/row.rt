//! The first step of an insert.

ghost use Rattle.std.specs.Prelude.{◌≡◌, ◌+◌, ◌^◌, ◌<◌, ◌≤◌, ◌∷◌, ◌++◌, [], None, Some, Ok, length, IfSome, IsSome, IsSomeAnd};
ghost use Rattle.block_model.specs.declared.request.Request.TheVariants as requests;
ghost use Rattle.page_store.specs.Survives.{Survives};
ghost use Rattle.tx_table.specs.Durable.{IsBefore};
ghost use Rattle.script_semantics.specs.Names.{table_name};
ghost use Rattle.page_locks.specs.LockChanges.{GivesAll};
ghost use Rattle.page_locks.specs.LockCounts.{AddsAtMost, locks_of};
ghost use Rattle.store_layout.specs.StatementRequests.{tagged_entry};
ghost use Rattle.store_layout.specs.declared.limits.TheConstants.{MAX_ENTRIES};
ghost use Rattle.snapshot_core.specs.StoredVersions.{transaction_of};
ghost use Rattle.transactions.specs.Sessions.{next_row_of};
ghost use Rattle.transactions.specs.TransactionsState.{OfOpen, with_failed};
ghost use Rattle.session_parts.specs.declared.hand.Hand.TheVariants as hands;
ghost use Rattle.session_inserts.specs.Promised.{unpromised};
ghost use Rattle.session_inserts.specs.Settling.{SettlesSo};
ghost use Rattle.session_inserts.specs.SparePut.{OfItsPut, left_behind};
ghost use Rattle.page_locks.specs.LockHolders.{count_of, holder};
ghost use Rattle.brin_insert.specs.Inserts.{IsInsertFor};
ghost use Rattle.session_parts.specs.declared.limits.TheConstants.{LOCKS_A_SESSION, MAX_LOCKS};
ghost use Rattle.session_parts.specs.Stepping.{IsFit, IsShown};

use crate::entering::{done, enter_row, refuse};
use crate::laws::steps_of_an_insert;
use crate::machines::machine_for;
use block_model::{Refusal, Reply, Row, Tag, Values};
use brin_insert::Insert;
use disk_trait::Disk;
use page_locks::Did;
use page_map::MachineFault;
use session_parts::{
    Parts, Step, StoreFault, an_undone_step_changes_nothing, fault_of, one_hand_changes, spent,
    table_named,
};

/// The first step of an insert: its row is put, by the session's machine, which goes on with it where the table has an index. Where memory is
/// short for the step, or the table is full, the put is entered so and the session's transaction fails; `Spent` comes where the journal has
/// no room for the put.
#[tactic(none)]
pub fn put_row<D: Disk + Drop>(
    parts: &mut Parts<D>,
    session: u32,
    table: u8,
    values: &Values,
    machine: &mut Option<Insert>,
) -> Result<Step, StoreFault>
    requires fit { IsFit D.told parts.old session (hands.Puts table values.now) }
    requires few { count_of parts.old.locks + LOCKS_A_SESSION ≤ MAX_LOCKS }
    requires shown { IsShown D.told parts.old session (hands.Puts table values.now) }
    requires machine { IfSome machine.old (IsInsertFor parts.old.pages.layout) }
    ensures so { SettlesSo D.told parts.old parts.new session (hands.Puts table values.now) (left_behind (hands.Puts table values.now) machine.new result) result }
    // At every moment of the step an image opens to what one did before it, or to the pages as they were.
    ensures survives { Survives D.told (IsBefore parts.old.pages) parts.old.pages parts.new.pages }
    ensures machine { IfSome machine.new (IsInsertFor parts.old.pages.layout) }
{
    steps_of_an_insert();
    one_hand_changes();
    an_undone_step_changes_nothing(parts);
    match parts.pages.ready() {
        Ok(()) => {}
        Err(error) => return Err(fault_of(error)),
    }
    if !parts.journal.fits(1) {
        return Err(spent(&parts.journal));
    }
    match machine_for(parts, session, table, values, machine) {
        Ok(()) => first_step(parts, session, machine),
        Err(_) => lacks_memory(parts, session, table, values),
    }
}

/// The machine's first step, for which one entry of the journal is promised beside those of the session.
#[tactic(none)]
fn first_step<D: Disk + Drop>(
    parts: &mut Parts<D>,
    session: u32,
    machine: &mut Option<Insert>,
) -> Result<Step, StoreFault>
    requires made { IsSomeAnd machine.old (IsInsertFor parts.old.pages.layout) }
    requires nowhere { IfSome machine.old (λ insert. insert.place ≡ None) }
    requires id { IfSome machine.old (λ insert. OfOpen parts.old.transactions session (λ o. next_row_of o ≡ Some insert.row.id)) }
    requires number { IsSomeAnd (transaction_of parts.old.transactions.opens session) (λ o. o.next_k + 1 < 2 ^ 32) }
    requires promised { 0 < parts.old.journal.promised }
    requires fits { length parts.old.journal.entries < MAX_ENTRIES }
    requires ready { parts.old.pages.failed ≡ None }
    requires fit { OfItsPut machine.old (λ hand. IsFit D.told (unpromised parts.old) session hand) }
    requires shown { OfItsPut machine.old (λ hand. IsShown D.told (unpromised parts.old) session hand) }
    ensures so { OfItsPut machine.old (λ hand. SettlesSo D.told (unpromised parts.old) parts.new session hand (left_behind hand machine.new result) result) }
    ensures survives { Survives D.told (IsBefore parts.old.pages) parts.old.pages parts.new.pages }
    ensures machine { IfSome machine.new (IsInsertFor parts.old.pages.layout) }
{
    steps_of_an_insert();
    one_hand_changes();
    an_undone_step_changes_nothing(parts);
    let Some(insert) = machine else {
        unreachable!()
    };
    match insert.step(
        &mut parts.pages,
        &mut parts.locks,
        &mut parts.queue,
        session,
    ) {
        Ok(Did::Moved(point)) => {
            enter_row(parts, session, insert.row());
            Ok(Step::Moved(point))
        }
        Ok(Did::Finished(_)) => {
            enter_row(parts, session, insert.row());
            done(insert.row())
        }
        Ok(Did::Blocked(_)) => unreachable!(),
        Ok(Did::NoRight { .. }) => unreachable!(),
        Err(MachineFault::Full { number, .. }) => {
            parts.journal.release(1);
            full_table(parts, session, insert.row(), number)
        }
        Err(MachineFault::Store(error)) => {
            parts.journal.release(1);
            parts.locks.drop_all(session);
            Err(fault_of(error))
        }
        Err(MachineFault::Memory) => unreachable!(),
    }
}

/// Memory is short for the machine: the insert is refused.
fn lacks_memory<D: Disk + Drop>(
    parts: &mut Parts<D>,
    session: u32,
    table: u8,
    values: &Values,
) -> Result<Step, StoreFault>
    requires promised { 0 < parts.old.journal.promised }
    requires open { IsSome (transaction_of parts.old.transactions.opens session) }
    ensures failed { OfOpen parts.old.transactions session (λ o. parts.new.transactions ≡ with_failed parts.old.transactions session o) }
    ensures entries { parts.new.journal.entries ≡ parts.old.journal.entries ++ tagged_entry session table (requests.Put values.now) Tag.NoMemory ∷ [] }
    ensures promised { parts.new.journal.promised + 1 ≡ parts.old.journal.promised }
    ensures given { GivesAll (holder parts.old.locks) (holder parts.new.locks) session }
    ensures none { locks_of parts.new.locks session ≡ 0 }
    ensures limit { parts.new.locks.limit ≡ parts.old.locks.limit }
    ensures counts { AddsAtMost parts.old.locks parts.new.locks session 0 }
    ensures rest { parts.new ≡ record parts.old { transactions = parts.new.transactions; locks = parts.new.locks; journal = parts.new.journal } }
    ensures reply { result ≡ Ok (Step.Done (Reply.Refused Refusal.Memory)) }
{
    let refusal = Refusal::Memory;
    let reply = refuse(parts, session, table, values, Tag::NoMemory, refusal);
    Ok(Step::Done(reply))
}

/// The row's table is full: the insert is refused.
fn full_table<D: Disk + Drop>(
    parts: &mut Parts<D>,
    session: u32,
    row: &Row,
    number: u64,
) -> Result<Step, StoreFault>
    requires table { row.now.table < length parts.old.pages.layout.schema.tables }
    requires promised { 0 < parts.old.journal.promised }
    requires open { IsSome (transaction_of parts.old.transactions.opens session) }
    ensures failed { OfOpen parts.old.transactions session (λ o. parts.new.transactions ≡ with_failed parts.old.transactions session o) }
    ensures entries { parts.new.journal.entries ≡ parts.old.journal.entries ++ tagged_entry session row.now.table (requests.Put row.now.values) Tag.Full ∷ [] }
    ensures promised { parts.new.journal.promised + 1 ≡ parts.old.journal.promised }
    ensures given { GivesAll (holder parts.old.locks) (holder parts.new.locks) session }
    ensures none { locks_of parts.new.locks session ≡ 0 }
    ensures limit { parts.new.locks.limit ≡ parts.old.locks.limit }
    ensures counts { AddsAtMost parts.old.locks parts.new.locks session 0 }
    ensures rest { parts.new ≡ record parts.old { transactions = parts.new.transactions; locks = parts.new.locks; journal = parts.new.journal } }
    ensures reply { result ≡ Ok (Step.Done (Reply.Refused (Refusal.Full (table_name parts.old.pages.layout row.now.table) number))) }
{
    let relation = table_named(parts.pages.layout(), row.table);
    let refusal = Refusal::Full { relation, number };
    let reply = refuse(parts, session, row.table, &row.values, Tag::Full, refusal);
    Ok(Step::Done(reply))
}
