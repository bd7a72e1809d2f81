//! The steps of work, which makes the summary that an insert asked for first.

ghost use Rattle.std.specs.Prelude.{◌≡◌, ◌≢◌, ◌+◌, ◌<◌, ◌≤◌, ℕ, None, Some, length, slice_get, IfSome};
ghost use Rattle.summarise_core.specs.Summarises.{IsSummariseOf};
ghost use Rattle.page_store.specs.Survives.{Survives};
ghost use Rattle.page_locks.specs.LockHolders.{count_of};
ghost use Rattle.page_locks.specs.RightHolders.{right_of};
ghost use Rattle.summarise_core.specs.SummariseHands.{table_of};
ghost use Rattle.session_parts.specs.declared.limits.TheConstants.{LOCKS_A_SESSION, MAX_LOCKS};
ghost use Rattle.session_parts.specs.StepAnswers.{HasCause};
ghost use Rattle.session_parts.specs.StepIs.{stepped_in};
ghost use Rattle.session_parts.specs.Stepping.{IsFit, IsShown, LeavesTheOthers, MakesItsStep, StaysFit, StaysUndone};
ghost use Rattle.session_parts.specs.UndoneLaws.{StepsSo};
ghost use Rattle.session_maintenance.specs.FirstRequests.{IsFirstRequest, IsOfRange};

use crate::asker::{Asker, told};
use crate::first_request::{FirstRequest, first_request};
use crate::summarise::{refused, summary_on};
use block_model::{Refusal, Reply, What};
use disk_trait::Disk;
use page_locks::{Did, Rights};
use page_map::MachineFault;
use session_parts::{Hand, Parts, Requested, Step, Stepped, StoreFault, fault_of, lock_waited_for};
use summarise_core::{Standing, Summarise, Wish, a_summarise_steps_in_its_table, table_of};
use transactions::other_pages_show_alike;

/// The first step of work: it looks at the request that came first. Where none is held it replies so; where another session has the summarise
/// lock of the request's table it waits; where it lacks the memory for the summary it is refused, and the request stays. Else the step takes
/// the summarise lock, and the request out of the queue; where no range is left it replies at once and gives the lock. Enters nothing.
#[tactic(none)]
pub fn begin_work<D: Disk + Drop>(parts: &mut Parts<D>, session: u32) -> Stepped
    requires fit { IsFit D.told parts.old session Hand.Working }
    ensures steps { MakesItsStep D.told parts.old parts.new session Hand.Working result }
    ensures fit { StaysFit D.told parts.old parts.new session Hand.Working result }
    ensures others { LeavesTheOthers D.told parts.old parts.new session Hand.Working result }
    ensures stays { StaysUndone D.told parts.old parts.new session Hand.Working result }
    ensures cause { HasCause D.told parts.old.pages parts.new.pages result }
    ensures survives { Survives D.told (λ passed. passed ≡ parts.old.pages.pages) parts.old.pages parts.new.pages }
{
    other_pages_show_alike();
    match parts.pages.ready() {
        Ok(()) => {}
        Err(error) => return undone(Hand::Working, fault_of(error)),
    }
    match first_request(&parts.queue, parts.pages.layout()) {
        Some(request) => take_up(parts, session, request),
        None => Stepped::Done(Reply::Idle),
    }
}

/// A further step of work, at the range of its request, as a summarise makes it. With the last one it replies with the index, the range and
/// how many ranges got a final tuple, and gives the lock.
pub fn work_on<D: Disk + Drop>(
    parts: &mut Parts<D>,
    session: u32,
    requested: &mut Requested,
) -> Result<Step, StoreFault>
    requires fit { IsFit D.told parts.old session (Hand.Works requested.old) }
    requires few { count_of parts.old.locks + LOCKS_A_SESSION ≤ MAX_LOCKS }
    requires shown { IsShown D.told parts.old session (Hand.Works requested.old) }
    ensures steps { MakesItsStep D.told parts.old parts.new session (Hand.Works requested.old) (stepped_in (Hand.Works requested.new) result) }
    ensures fit { StaysFit D.told parts.old parts.new session (Hand.Works requested.old) (stepped_in (Hand.Works requested.new) result) }
    ensures others { LeavesTheOthers D.told parts.old parts.new session (Hand.Works requested.old) (stepped_in (Hand.Works requested.new) result) }
    ensures stays { StaysUndone D.told parts.old parts.new session (Hand.Works requested.old) (stepped_in (Hand.Works requested.new) result) }
    ensures cause { HasCause D.told parts.old.pages parts.new.pages (stepped_in (Hand.Works requested.new) result) }
    ensures survives { Survives D.told (λ passed. passed ≡ parts.old.pages.pages) parts.old.pages parts.new.pages }
{
    let asker = Asker::Insert {
        range: requested.range,
    };
    summary_on(parts, session, asker, &mut requested.summarise)
}

/// Work takes up the request, unless another session has the summarise lock of its table, or memory is short.
#[tactic(none)]
fn take_up<D: Disk + Drop>(parts: &mut Parts<D>, session: u32, request: FirstRequest) -> Stepped
    requires fit { IsFit D.told parts.old session Hand.Working }
    requires ready { parts.old.pages.failed ≡ None }
    requires first { IsFirstRequest parts.old.pages.layout parts.old.queue request }
    ensures so { StepsSo D.told parts.old parts.new session Hand.Working result }
    ensures survives { Survives D.told (λ passed. passed ≡ parts.old.pages.pages) parts.old.pages parts.new.pages }
{
    other_pages_show_alike();
    parts.pages.known();
    let layout = parts.pages.layout();
    let table = table_of(layout, request.index);
    match another_holder(&parts.rights, table, session) {
        None => {}
        Some(by) => return waits(Hand::Working, lock_waited_for(layout, table), by),
    }
    match Summarise::new(
        parts.alloc,
        request.index,
        Wish::Block(request.block),
        layout,
    ) {
        Ok(summarise) => begin_summary(parts, session, request.range, summarise),
        Err(_) => Stepped::Done(Reply::Refused(Refusal::Memory)),
    }
}

/// Another session that has the summarise lock of the table.
fn another_holder(rights: &Rights, table: u8, session: u32) -> Option<u32>
    requires { table < length rights.now }
    ensures holds { IfSome result (λ by. right_of rights.now table ≡ Some by) }
    ensures another { IfSome result (λ by. by ≢ session) }
    ensures free { result ≡ None → (m : ℕ) → right_of rights.now table ≡ Some m → m ≡ session }
{
    match rights.holder(table) {
        Some(by) if by != session => Some(by),
        _ => None,
    }
}

/// The first step of the summary that was asked for: it takes the summarise lock, and the request out of the queue.
#[tactic(none)]
fn begin_summary<D: Disk + Drop>(
    parts: &mut Parts<D>,
    session: u32,
    range: u32,
    mut summarise: Summarise,
) -> Stepped
    requires fit { IsFit D.told parts.old session Hand.Working }
    requires begins { summarise.standing ≡ Standing.Begins }
    requires of { IsSummariseOf parts.old.pages.layout summarise }
    requires range { IsOfRange parts.old.pages.layout summarise range }
    requires first { slice_get parts.old.queue 0 ≡ Some (summarise.index, range) }
    requires free { (m : ℕ) → right_of parts.old.rights (table_of parts.old.pages.layout summarise.index) ≡ Some m → m ≡ session }
    ensures so { StepsSo D.told parts.old parts.new session Hand.Working result }
    ensures survives { Survives D.told (λ passed. passed ≡ parts.old.pages.pages) parts.old.pages parts.new.pages }
{
    a_summarise_steps_in_its_table();
    other_pages_show_alike();
    let index = summarise.index();
    let table = table_of(parts.pages.layout(), index);
    match summarise.step(
        &mut parts.pages,
        &mut parts.locks,
        &mut parts.rights,
        session,
    ) {
        Ok(Did::Moved(point)) => {
            parts.queue.take();
            Stepped::Moved {
                point,
                hand: Hand::Works(Requested { summarise, range }),
            }
        }
        Ok(Did::Finished(_)) => {
            parts.queue.take();
            parts.rights.give(table, session);
            let asker = Asker::Insert { range };
            Stepped::Done(told(asker, parts.pages.layout(), &summarise))
        }
        Ok(Did::Blocked(_)) => unreachable!(),
        Ok(Did::NoRight { .. }) => unreachable!(),
        // Where the disk tells its contents this can't come: no tuple is put yet.
        Err(MachineFault::Full { number, .. }) => {
            Stepped::Done(refused(parts, session, index, table, number))
        }
        Err(MachineFault::Store(error)) => {
            parts.locks.drop_all(session);
            undone(Hand::Working, fault_of(error))
        }
        Err(MachineFault::Memory) => unreachable!(),
    }
}

/// It waits for what that session holds.
fn waits(hand: Hand, what: What, holder: u32) -> Stepped
    ensures { result ≡ Stepped.Blocked what holder hand }
{
    Stepped::Blocked { what, holder, hand }
}

/// It isn't done, and the statement stays in hand.
fn undone(hand: Hand, fault: StoreFault) -> Stepped
    ensures { result ≡ Stepped.Undone fault hand }
{
    Stepped::Undone { fault, hand }
}
