//! The steps of a vacuum's summaries.

ghost use Rattle.std.specs.Prelude.{◌≡◌, ◌+◌, ◌≤◌};
ghost use Rattle.page_store.specs.Survives.{Survives};
ghost use Rattle.page_locks.specs.LockHolders.{count_of};
ghost use Rattle.session_parts.specs.declared.limits.TheConstants.{LOCKS_A_SESSION, MAX_LOCKS};
ghost use Rattle.session_parts.specs.StepAnswers.{HasCause};
ghost use Rattle.session_parts.specs.StepIs.{stepped_in};
ghost use Rattle.session_parts.specs.Stepping.{IsFit, IsShown, LeavesTheOthers, MakesItsStep, StaysFit, StaysUndone};

use crate::complete_answers::{end_index, indexes_are_listed};
use crate::summarise::refused;
use disk_trait::Disk;
use page_locks::Did;
use page_map::MachineFault;
use session_parts::{
    Completing, Hand, Parts, Step, StoreFault, fault_of, lock_waited_for, page_waited_for,
};
use summarise_core::{a_kept_table_takes_a_summarise, a_summarise_steps_in_its_table};
use transactions::other_pages_show_alike;

/// A step of a vacuum's summaries: of the index that it is at, over the ranges whose blocks are all below the extent, as a summarise makes it,
/// under the summarise lock that the vacuum holds. Behind an index's last range comes the next index; behind the last index it replies, and
/// gives the lock. It waits where another session locks a page that the step changes. Where no page of the index is left for a tuple it is
/// refused, and gives its locks. Enters nothing, and takes no memory.
#[tactic(none)]
pub fn complete_on<D: Disk + Drop>(
    parts: &mut Parts<D>,
    session: u32,
    completing: &mut Completing,
) -> Result<Step, StoreFault>
    requires fit { IsFit D.told parts.old session (Hand.Completes completing.old) }
    requires few { count_of parts.old.locks + LOCKS_A_SESSION ≤ MAX_LOCKS }
    requires shown { IsShown D.told parts.old session (Hand.Completes completing.old) }
    ensures steps { MakesItsStep D.told parts.old parts.new session (Hand.Completes completing.old) (stepped_in (Hand.Completes completing.new) result) }
    ensures fit { StaysFit D.told parts.old parts.new session (Hand.Completes completing.old) (stepped_in (Hand.Completes completing.new) result) }
    ensures others { LeavesTheOthers D.told parts.old parts.new session (Hand.Completes completing.old) (stepped_in (Hand.Completes completing.new) result) }
    ensures stays { StaysUndone D.told parts.old parts.new session (Hand.Completes completing.old) (stepped_in (Hand.Completes completing.new) result) }
    ensures cause { HasCause D.told parts.old.pages parts.new.pages (stepped_in (Hand.Completes completing.new) result) }
    ensures survives { Survives D.told (λ passed. passed ≡ parts.old.pages.pages) parts.old.pages parts.new.pages }
{
    a_summarise_steps_in_its_table();
    a_kept_table_takes_a_summarise();
    other_pages_show_alike();
    indexes_are_listed(parts.pages.layout());
    match parts.pages.ready() {
        Ok(()) => {}
        Err(error) => return Err(fault_of(error)),
    }
    let table = completing.table;
    let at = completing.next;
    let summary = &mut completing.summaries[at];
    let index = summary.index();
    match summary.step(
        &mut parts.pages,
        &mut parts.locks,
        &mut parts.rights,
        session,
    ) {
        Ok(Did::Moved(point)) => Ok(Step::Moved(point)),
        Ok(Did::Finished(point)) => Ok(end_index(&mut parts.rights, session, point, completing)),
        Ok(Did::Blocked(held)) => {
            let what = page_waited_for(parts.pages.layout(), index, &held);
            Ok(Step::Blocked {
                what,
                holder: held.by,
            })
        }
        Ok(Did::NoRight { by }) => {
            let what = lock_waited_for(parts.pages.layout(), table);
            Ok(Step::Blocked { what, holder: by })
        }
        Err(MachineFault::Full { number, .. }) => {
            Ok(Step::Done(refused(parts, session, index, table, number)))
        }
        Err(MachineFault::Store(error)) => {
            parts.locks.drop_all(session);
            Err(fault_of(error))
        }
        Err(MachineFault::Memory) => unreachable!(),
    }
}
