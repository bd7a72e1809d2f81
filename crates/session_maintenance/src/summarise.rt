//! The steps of a summarise: of the statement itself, and of work.

ghost use Rattle.std.specs.Prelude.{◌≡◌, ◌≢◌, ℕ, ◌+◌, ◌<◌, ◌≤◌, Some, None, length, slice_get, slice_set};
ghost use Rattle.index_steps.specs.ShownTable.{indexes_of};
ghost use Rattle.script_semantics.specs.Names.{index_name};
ghost use Rattle.page_store.specs.Survives.{Survives};
ghost use Rattle.page_locks.specs.LockChanges.{GivesAll};
ghost use Rattle.page_locks.specs.LockCounts.{AddsAtMost, locks_of};
ghost use Rattle.page_locks.specs.LockHolders.{count_of, holder};
ghost use Rattle.page_locks.specs.RightHolders.{right_of};
ghost use Rattle.session_parts.specs.declared.limits.TheConstants.{LOCKS_A_SESSION, MAX_LOCKS};
ghost use Rattle.session_parts.specs.StepAnswers.{HasCause};
ghost use Rattle.session_parts.specs.StepIs.{stepped_in};
ghost use Rattle.session_parts.specs.Stepping.{IsFit, IsShown, LeavesTheOthers, MakesItsStep, StaysFit, StaysUndone};
ghost use Rattle.session_parts.specs.UndoneLaws.{StepsSo};
ghost use Rattle.session_maintenance.specs.Askers.{hand_for};

use crate::asker::{Asker, told};
use block_model::{Refusal, Reply};
use disk_trait::Disk;
use page_locks::Did;
use page_map::MachineFault;
use session_parts::{
    Hand, Parts, Step, StoreFault, fault_of, index_named, lock_waited_for, page_waited_for,
};
use summarise_core::{
    Summarise, a_kept_table_takes_a_summarise, a_summarise_steps_in_its_table, table_of,
};
use transactions::other_pages_show_alike;

/// A step of a summarise. The first one takes the summarise lock of its table, and with the last one, where no range is left, it replies and
/// gives the lock. It waits where another session has that lock, or locks a page that the step changes. Where no page of the index is left for
/// a tuple it is refused, and gives its locks. Enters nothing, and takes no memory.
pub fn summarise_on<D: Disk + Drop>(
    parts: &mut Parts<D>,
    session: u32,
    summarise: &mut Summarise,
) -> Result<Step, StoreFault>
    requires fit { IsFit D.told parts.old session (Hand.Summarises summarise.old) }
    requires few { count_of parts.old.locks + LOCKS_A_SESSION ≤ MAX_LOCKS }
    requires shown { IsShown D.told parts.old session (Hand.Summarises summarise.old) }
    ensures steps { MakesItsStep D.told parts.old parts.new session (Hand.Summarises summarise.old) (stepped_in (Hand.Summarises summarise.new) result) }
    ensures fit { StaysFit D.told parts.old parts.new session (Hand.Summarises summarise.old) (stepped_in (Hand.Summarises summarise.new) result) }
    ensures others { LeavesTheOthers D.told parts.old parts.new session (Hand.Summarises summarise.old) (stepped_in (Hand.Summarises summarise.new) result) }
    ensures stays { StaysUndone D.told parts.old parts.new session (Hand.Summarises summarise.old) (stepped_in (Hand.Summarises summarise.new) result) }
    ensures cause { HasCause D.told parts.old.pages parts.new.pages (stepped_in (Hand.Summarises summarise.new) result) }
    ensures survives { Survives D.told (λ passed. passed ≡ parts.old.pages.pages) parts.old.pages parts.new.pages }
{
    summary_on(parts, session, Asker::Line, summarise)
}

/// The step, of the statement that makes the summarise for whom asked for it.
#[tactic(none)]
pub(crate) fn summary_on<D: Disk + Drop>(
    parts: &mut Parts<D>,
    session: u32,
    asker: Asker,
    summarise: &mut Summarise,
) -> Result<Step, StoreFault>
    requires fit { IsFit D.told parts.old session (hand_for asker summarise.old) }
    requires few { count_of parts.old.locks + LOCKS_A_SESSION ≤ MAX_LOCKS }
    requires shown { IsShown D.told parts.old session (hand_for asker summarise.old) }
    ensures so { StepsSo D.told parts.old parts.new session (hand_for asker summarise.old) (stepped_in (hand_for asker summarise.new) result) }
    ensures survives { Survives D.told (λ passed. passed ≡ parts.old.pages.pages) parts.old.pages parts.new.pages }
{
    a_summarise_steps_in_its_table();
    a_kept_table_takes_a_summarise();
    other_pages_show_alike();
    match parts.pages.ready() {
        Ok(()) => {}
        Err(error) => return Err(fault_of(error)),
    }
    let index = summarise.index();
    let table = table_of(parts.pages.layout(), index);
    match summarise.step(
        &mut parts.pages,
        &mut parts.locks,
        &mut parts.rights,
        session,
    ) {
        Ok(Did::Moved(point)) => Ok(Step::Moved(point)),
        Ok(Did::Finished(_)) => {
            parts.rights.give(table, session);
            Ok(Step::Done(told(asker, parts.pages.layout(), summarise)))
        }
        Ok(Did::Blocked(held)) => {
            let what = page_waited_for(parts.pages.layout(), index, &held);
            Ok(Step::Blocked {
                what,
                holder: held.by,
            })
        }
        Ok(Did::NoRight { by }) => {
            let what = lock_waited_for(parts.pages.layout(), table);
            Ok(Step::Blocked { what, holder: by })
        }
        Err(MachineFault::Full { number, .. }) => {
            Ok(Step::Done(refused(parts, session, index, table, number)))
        }
        Err(MachineFault::Store(error)) => {
            parts.locks.drop_all(session);
            Err(fault_of(error))
        }
        Err(MachineFault::Memory) => unreachable!(),
    }
}

/// The index is full: the session gives its page locks and the table's summarise lock.
pub(crate) fn refused<D: Disk + Drop>(
    parts: &mut Parts<D>,
    session: u32,
    index: u8,
    table: u8,
    number: u64,
) -> Reply
    requires index { index < length parts.old.pages.layout.schema.indexes }
    requires table { table < length parts.old.rights }
    ensures all { GivesAll (holder parts.old.locks) (holder parts.new.locks) session }
    ensures none { locks_of parts.new.locks session ≡ 0 }
    ensures limit { parts.new.locks.limit ≡ parts.old.locks.limit }
    ensures counts { AddsAtMost parts.old.locks parts.new.locks session 0 }
    ensures given { right_of parts.old.rights table ≡ Some session → parts.new.rights ≡ slice_set parts.old.rights table None }
    ensures kept { right_of parts.old.rights table ≢ Some session → parts.new.rights ≡ parts.old.rights }
    ensures rest { parts.new ≡ record parts.old { locks = parts.new.locks; rights = parts.new.rights } }
    ensures reply { (number_of at : ℕ) → slice_get (indexes_of parts.old.pages.layout number_of) at ≡ Some index → result ≡ Reply.Refused (Refusal.Full (index_name parts.old.pages.layout number_of at) number) }
{
    let relation = index_named(parts.pages.layout(), index);
    parts.locks.drop_all(session);
    parts.rights.give(table, session);
    Reply::Refused(Refusal::Full { relation, number })
}
