//! The steps of a desummarise.

ghost use Rattle.std.specs.Prelude.{◌≡◌, ◌+◌, ◌≤◌};
ghost use Rattle.summarise_core.specs.Desummarises.{count_at as desummarised_at};
ghost use Rattle.page_store.specs.Survives.{Survives};
ghost use Rattle.page_locks.specs.LockHolders.{count_of};
ghost use Rattle.session_parts.specs.declared.limits.TheConstants.{LOCKS_A_SESSION, MAX_LOCKS};
ghost use Rattle.session_parts.specs.StepAnswers.{HasCause};
ghost use Rattle.session_parts.specs.StepIs.{stepped_in};
ghost use Rattle.session_parts.specs.Stepping.{IsFit, IsShown, LeavesTheOthers, MakesItsStep, StaysFit, StaysUndone};

use crate::settle::{Came, settle};
use block_model::Reply;
use disk_trait::Disk;
use session_parts::{Hand, Parts, Step, StoreFault};
use summarise_core::{
    Desummarise, a_desummarise_steps_in_its_table, a_kept_table_takes_a_desummarise, table_of,
};

/// A step of a desummarise. The first one takes the summarise lock of its table, and with the last one, which drops the range's tuple or finds
/// none, it replies and gives the lock. It waits where another session has that lock, or locks a page that the step changes. Enters nothing, and
/// takes no memory.
#[tactic(none)]
pub fn desummarise_on<D: Disk + Drop>(
    parts: &mut Parts<D>,
    session: u32,
    desummarise: &mut Desummarise,
) -> Result<Step, StoreFault>
    requires fit { IsFit D.told parts.old session (Hand.Desummarises desummarise.old) }
    requires few { count_of parts.old.locks + LOCKS_A_SESSION ≤ MAX_LOCKS }
    requires shown { IsShown D.told parts.old session (Hand.Desummarises desummarise.old) }
    ensures steps { MakesItsStep D.told parts.old parts.new session (Hand.Desummarises desummarise.old) (stepped_in (Hand.Desummarises desummarise.new) result) }
    ensures fit { StaysFit D.told parts.old parts.new session (Hand.Desummarises desummarise.old) (stepped_in (Hand.Desummarises desummarise.new) result) }
    ensures others { LeavesTheOthers D.told parts.old parts.new session (Hand.Desummarises desummarise.old) (stepped_in (Hand.Desummarises desummarise.new) result) }
    ensures stays { StaysUndone D.told parts.old parts.new session (Hand.Desummarises desummarise.old) (stepped_in (Hand.Desummarises desummarise.new) result) }
    ensures cause { HasCause D.told parts.old.pages parts.new.pages (stepped_in (Hand.Desummarises desummarise.new) result) }
    ensures survives { Survives D.told (λ passed. passed ≡ parts.old.pages.pages) parts.old.pages parts.new.pages }
{
    a_desummarise_steps_in_its_table();
    a_kept_table_takes_a_desummarise();
    let table = table_of(parts.pages.layout(), desummarise.index());
    let came = desummarise.step(
        &mut parts.pages,
        &mut parts.locks,
        &mut parts.rights,
        session,
    );
    let came = match settle(parts, session, table, came) {
        Ok(came) => came,
        Err(fault) => return Err(fault),
    };
    match came {
        Came::Goes(step) => Ok(step),
        Came::Ends(_) => {
            parts.rights.give(table, session);
            Ok(Step::Done(told(desummarise)))
        }
    }
}

/// One range, if the desummarise took out its entry.
fn told(desummarise: &Desummarise) -> Reply
    ensures { result ≡ Reply.Desummarized (desummarised_at desummarise.now.stage) }
{
    Reply::Desummarized {
        count: desummarise.count(),
    }
}
