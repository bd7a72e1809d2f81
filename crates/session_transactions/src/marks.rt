//! A mark of a delete.

ghost use Rattle.std.specs.Prelude.{◌≡◌, true, false, ◌+◌, ◌<◌, ◌≤◌, ◌++◌, None, Some, Ok, IsSome, IfSome, length, slice_get};
ghost use Rattle.heap_rows.specs.RowPlaces.{IsInUse};
ghost use Rattle.page_store.specs.Survives.{Survives};
ghost use Rattle.page_map.specs.Keeps.{Tells};
ghost use Rattle.snapshot_core.specs.StoredVersions.{transaction_of};
ghost use Rattle.store_layout.specs.declared.limits.TheConstants.{MAX_ENTRIES};
ghost use Rattle.tx_table.specs.Durable.{IsBefore};
ghost use Rattle.transactions.specs.TransactionsState.{OfOpen};
ghost use Rattle.session_transactions.specs.HitConflicts.{HitConflicts};
ghost use Rattle.session_transactions.specs.Looks.{look_entries, stepped_behind};
ghost use Rattle.session_parts.specs.Shares.{look_share};
ghost use Rattle.session_parts.specs.StepAnswers.{HasCause};
ghost use Rattle.session_parts.specs.StepIs.{stepped_in};
ghost use Rattle.session_parts.specs.Stepping.{IsFit, IsShown, LeavesTheOthers, MakesItsStep, StaysFit, StaysUndone};

use crate::conflicts::hit_conflicts;
use crate::laws::laws_of_marks;
use block_model::{Point, Query, Refusal, Reply, Request, Tag};
use disk_trait::Disk;
use session_parts::{Hand, Hit, Journal, Marking, Parts, Step, StoreFault, fault_of, spent};

/// Marks the next row of the delete, and goes on where one is left; else it replies how many are marked. At a conflict the session's transaction
/// fails, and that is replied. Where it isn't done nothing is changed.
pub fn mark<D: Disk + Drop>(
    parts: &mut Parts<D>,
    session: u32,
    marking: &mut Marking,
) -> Result<Step, StoreFault>
    requires fit { IsFit D.told parts.old session (Hand.Marks marking.old) }
    requires shown { IsShown D.told parts.old session (Hand.Marks marking.old) }
    ensures steps { MakesItsStep D.told parts.old parts.new session (Hand.Marks marking.old) (stepped_in (Hand.Marks marking.new) result) }
    ensures fit { StaysFit D.told parts.old parts.new session (Hand.Marks marking.old) (stepped_in (Hand.Marks marking.new) result) }
    ensures others { LeavesTheOthers D.told parts.old parts.new session (Hand.Marks marking.old) (stepped_in (Hand.Marks marking.new) result) }
    ensures stays { StaysUndone D.told parts.old parts.new session (Hand.Marks marking.old) (stepped_in (Hand.Marks marking.new) result) }
    ensures cause { HasCause D.told parts.old.pages parts.new.pages (stepped_in (Hand.Marks marking.new) result) }
    // At every moment of the step an image opens to what one did before it, or to the pages as they were.
    ensures survives { Survives D.told (IsBefore parts.old.pages) parts.old.pages parts.new.pages }
{
    laws_of_marks();
    match parts.pages.ready() {
        Ok(()) => {}
        Err(error) => return Err(fault_of(error)),
    }
    if !parts.journal.fits(look_count(&marking.look) + 1) {
        return no_room(parts, session, marking);
    }
    let hit = next_hit(marking);
    match hit_conflicts(
        &mut parts.pages,
        &parts.transactions,
        session,
        marking.query.table,
        hit,
    ) {
        Ok(true) => refuse(parts, session, marking),
        Ok(false) => mark_hit(parts, session, marking),
        Err(error) => Err(fault_of(error)),
    }
}

/// How many entries its look still takes.
fn look_count(look: &Option<Query>) -> usize
    ensures { result ≡ look_share look.now }
{
    match look {
        Some(_) => 1,
        None => 0,
    }
}

/// The row that is marked next.
fn next_hit(marking: &Marking) -> Hit
    requires { marking.now.next < length marking.now.hits.items }
    ensures { slice_get marking.now.hits.items marking.now.next ≡ Some result }
{
    marking.hits.as_slice()[marking.next]
}

/// How many rows are left to mark.
fn hits_left(marking: &Marking) -> usize
    requires { marking.now.next < length marking.now.hits.items }
    ensures { result + marking.now.next ≡ length marking.now.hits.items }
{
    marking.hits.len() - marking.next
}

/// Enters the look, if it isn't entered yet.
fn enter_look(journal: &mut Journal, session: u32, look: &mut Option<Query>)
    requires { look_share look.old ≤ journal.old.promised }
    ensures entries { journal.new.entries ≡ journal.old.entries ++ look_entries session look.old }
    ensures promised { journal.new.promised + look_share look.old ≡ journal.old.promised }
    ensures looked { look.new ≡ None }
{
    if let Some(query) = look.take() {
        let table = query.table;
        journal.enter(session, table, Request::Look(query), Tag::Ok);
    }
}

/// The journal has no room for the mark, and for its look.
fn no_room<D: Disk + Drop>(
    parts: &Parts<D>,
    session: u32,
    marking: &Marking,
) -> Result<Step, StoreFault>
    requires fit { IsFit D.told parts.now session (Hand.Marks marking.now) }
    requires ready { parts.now.pages.failed ≡ None }
    requires full { MAX_ENTRIES < length parts.now.journal.entries + (look_share marking.now.look + 1) }
    ensures steps { MakesItsStep D.told parts.now parts.now session (Hand.Marks marking.now) (stepped_in (Hand.Marks marking.now) result) }
    ensures fit { StaysFit D.told parts.now parts.now session (Hand.Marks marking.now) (stepped_in (Hand.Marks marking.now) result) }
    ensures others { LeavesTheOthers D.told parts.now parts.now session (Hand.Marks marking.now) (stepped_in (Hand.Marks marking.now) result) }
    ensures stays { StaysUndone D.told parts.now parts.now session (Hand.Marks marking.now) (stepped_in (Hand.Marks marking.now) result) }
    ensures cause { HasCause D.told parts.now.pages parts.now.pages (stepped_in (Hand.Marks marking.now) result) }
{
    laws_of_marks();
    Err(spent(&parts.journal))
}

/// The next row is in conflict: the mark is entered, and the session's transaction fails. What the other marks were promised isn't needed.
fn refuse<D: Disk + Drop>(
    parts: &mut Parts<D>,
    session: u32,
    marking: &mut Marking,
) -> Result<Step, StoreFault>
    requires fit { IsFit D.told parts.old session (Hand.Marks marking.old) }
    requires ready { parts.old.pages.failed ≡ None }
    requires room { length parts.old.journal.entries + (look_share marking.old.look + 1) ≤ MAX_ENTRIES }
    requires conflict { IfSome (slice_get marking.old.hits.items marking.old.next) (λ hit. OfOpen parts.old.transactions session (λ o. HitConflicts D.told parts.old.pages parts.old.transactions.tx.first marking.old.query.table hit o.t true)) }
    ensures steps { MakesItsStep D.told parts.old parts.new session (Hand.Marks marking.old) (stepped_in (Hand.Marks marking.new) result) }
    ensures fit { StaysFit D.told parts.old parts.new session (Hand.Marks marking.old) (stepped_in (Hand.Marks marking.new) result) }
    ensures others { LeavesTheOthers D.told parts.old parts.new session (Hand.Marks marking.old) (stepped_in (Hand.Marks marking.new) result) }
    ensures stays { StaysUndone D.told parts.old parts.new session (Hand.Marks marking.old) (stepped_in (Hand.Marks marking.new) result) }
    ensures cause { HasCause D.told parts.old.pages parts.new.pages (stepped_in (Hand.Marks marking.new) result) }
    ensures pages { parts.new.pages ≡ parts.old.pages }
{
    laws_of_marks();
    let hit = next_hit(marking);
    let left = hits_left(marking);
    let table = marking.query.table;
    enter_look(&mut parts.journal, session, &mut marking.look);
    parts
        .journal
        .enter(session, table, Request::Mark(hit.id), Tag::Ok);
    parts.journal.release(left);
    parts.transactions.fail(session);
    Ok(Step::Done(Reply::Refused(Refusal::Conflict { id: hit.id })))
}

/// The next row is marked, and that is entered.
fn mark_hit<D: Disk + Drop>(
    parts: &mut Parts<D>,
    session: u32,
    marking: &mut Marking,
) -> Result<Step, StoreFault>
    requires fit { IsFit D.told parts.old session (Hand.Marks marking.old) }
    requires ready { parts.old.pages.failed ≡ None }
    requires room { length parts.old.journal.entries + (look_share marking.old.look + 1) ≤ MAX_ENTRIES }
    requires used { Tells D.told parts.old.pages → IfSome (slice_get marking.old.hits.items marking.old.next) (λ hit. IsInUse parts.old.pages.layout parts.old.pages.pages marking.old.query.table hit.spot) }
    requires free { IfSome (slice_get marking.old.hits.items marking.old.next) (λ hit. OfOpen parts.old.transactions session (λ o. HitConflicts D.told parts.old.pages parts.old.transactions.tx.first marking.old.query.table hit o.t false)) }
    ensures steps { MakesItsStep D.told parts.old parts.new session (Hand.Marks marking.old) (stepped_in (Hand.Marks marking.new) result) }
    ensures fit { StaysFit D.told parts.old parts.new session (Hand.Marks marking.old) (stepped_in (Hand.Marks marking.new) result) }
    ensures others { LeavesTheOthers D.told parts.old parts.new session (Hand.Marks marking.old) (stepped_in (Hand.Marks marking.new) result) }
    ensures stays { StaysUndone D.told parts.old parts.new session (Hand.Marks marking.old) (stepped_in (Hand.Marks marking.new) result) }
    ensures cause { HasCause D.told parts.old.pages parts.new.pages (stepped_in (Hand.Marks marking.new) result) }
    ensures survives { Survives D.told (IsBefore parts.old.pages) parts.old.pages parts.new.pages }
{
    laws_of_marks();
    let hit = next_hit(marking);
    let table = marking.query.table;
    let own = parts.transactions.open(session).t;
    match heap_rows::mark(&mut parts.pages, table, hit.spot, own) {
        Ok(()) => {
            enter_look(&mut parts.journal, session, &mut marking.look);
            parts
                .journal
                .enter(session, table, Request::Mark(hit.id), Tag::Ok);
            Ok(behind(marking))
        }
        Err(error) => Err(fault_of(error)),
    }
}

/// One row more is marked: the delete goes on where one is left.
fn behind(marking: &mut Marking) -> Step
    requires looked { marking.old.look ≡ None }
    requires left { marking.old.next < length marking.old.hits.items }
    ensures { stepped_in (Hand.Marks marking.new) (Ok result) ≡ stepped_behind marking.old.query marking.old.hits (marking.old.next + 1) }
{
    marking.next += 1;
    if marking.next == marking.hits.len() {
        return Step::Done(Reply::Deleted {
            count: marking.next as u64,
        });
    }
    Step::Moved(Point::Mark)
}
