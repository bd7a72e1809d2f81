//! Which crate makes a statement's step, and what comes of it.

ghost use Rattle.std.specs.Prelude.{◌≡◌, ◌+◌, ◌≤◌, None, Some, IfSome, IsSome};
ghost use Rattle.page_locks.specs.LockHolders.{count_of};
ghost use Rattle.session_parts.specs.declared.limits.TheConstants.{LOCKS_A_SESSION, MAX_LOCKS};
ghost use Rattle.session_parts.specs.StepIs.{answer_of, hand_after, stepped_in};
ghost use Rattle.session_parts.specs.Stepping.{IsFit, IsShown};
ghost use Rattle.session_parts.specs.UndoneLaws.{StepsSo};
ghost use Rattle.session_inserts.specs.Settling.{SettlesSo};
ghost use Rattle.session_core.specs.Slots.{IsElsewhere, IsKeptSlot, hand_of};
ghost use Rattle.session_inserts.specs.SparePut.{insert_of};
ghost use Rattle.session_core.specs.SteppedWhere.{IsSteppedThere, IsTakenOut};
ghost use Rattle.session_starts.specs.Stops.{StopsSo};

use crate::sessions::taken;
use crate::slots::{Held, Slot, held_after};
use disk_trait::Disk;
use session_inserts::{insert_on, put_row};
use session_maintenance::{
    begin_work, clean_on, complete_on, desummarise_on, explain_on, summarise_on, work_on,
};
use session_parts::{Hand, Parts, Step, Stepped, StoreFault};
use session_scans::{begin_delete, begin_select, delete_on, select_on};
use session_transactions::{begin, commit, mark, roll_back};

/// Makes the next step of the statement in hand; what is left of it stays there.
#[tactic(none)]
pub(crate) fn step_of<D: Disk + Drop>(
    parts: &mut Parts<D>,
    session: u32,
    slot: &mut Slot,
) -> Result<Step, StoreFault>
    requires hand { IsSome (hand_of slot.old) }
    requires fit { IfSome (hand_of slot.old) (λ was. IsFit D.told parts.old session was) }
    requires few { count_of parts.old.locks + LOCKS_A_SESSION ≤ MAX_LOCKS }
    requires shown { IfSome (hand_of slot.old) (λ was. IsShown D.told parts.old session was) }
    requires slot { IsKeptSlot parts.old.pages.layout slot.old }
    ensures so { IfSome (hand_of slot.old) (λ was. SettlesSo D.told parts.old parts.new session was (hand_of slot.new) result) }
    ensures survives { IfSome (hand_of slot.old) (λ was. StopsSo D.told parts.old.transactions session parts.old.pages parts.new.pages was result) }
    ensures slot { IsKeptSlot parts.old.pages.layout slot.new }
{
    match slot.held {
        Held::Nothing => unreachable!(),
        Held::Put => put(parts, session, slot),
        Held::Insert => insert_in(parts, session, slot),
        Held::Other => other_in(parts, session, &mut slot.other),
    }
}

/// The first step of an insert.
#[tactic(none)]
fn put<D: Disk + Drop>(
    parts: &mut Parts<D>,
    session: u32,
    slot: &mut Slot,
) -> Result<Step, StoreFault>
    requires held { slot.old.held ≡ Held.Put }
    requires fit { IsFit D.told parts.old session (Hand.Puts slot.old.put.table slot.old.put.values) }
    requires few { count_of parts.old.locks + LOCKS_A_SESSION ≤ MAX_LOCKS }
    requires shown { IsShown D.told parts.old session (Hand.Puts slot.old.put.table slot.old.put.values) }
    requires slot { IsKeptSlot parts.old.pages.layout slot.old }
    ensures so { SettlesSo D.told parts.old parts.new session (Hand.Puts slot.old.put.table slot.old.put.values) (hand_of slot.new) result }
    ensures survives { StopsSo D.told parts.old.transactions session parts.old.pages parts.new.pages (Hand.Puts slot.old.put.table slot.old.put.values) result }
    ensures slot { IsKeptSlot parts.old.pages.layout slot.new }
{
    let put = &slot.put;
    let answer = put_row(parts, session, put.table, &put.values, &mut slot.machine);
    slot.held = held_after(Held::Put, &answer);
    answer
}

/// A later step of an insert.
#[tactic(none)]
fn insert_in<D: Disk + Drop>(
    parts: &mut Parts<D>,
    session: u32,
    slot: &mut Slot,
) -> Result<Step, StoreFault>
    requires held { slot.old.held ≡ Held.Insert }
    requires hand { IsSome (insert_of slot.old.machine) }
    requires fit { IfSome (insert_of slot.old.machine) (λ was. IsFit D.told parts.old session was) }
    requires few { count_of parts.old.locks + LOCKS_A_SESSION ≤ MAX_LOCKS }
    requires shown { IfSome (insert_of slot.old.machine) (λ was. IsShown D.told parts.old session was) }
    requires slot { IsKeptSlot parts.old.pages.layout slot.old }
    ensures so { IfSome (insert_of slot.old.machine) (λ was. SettlesSo D.told parts.old parts.new session was (hand_of slot.new) result) }
    ensures survives { IfSome (insert_of slot.old.machine) (λ was. StopsSo D.told parts.old.transactions session parts.old.pages parts.new.pages was result) }
    ensures slot { IsKeptSlot parts.old.pages.layout slot.new }
{
    let Some(insert) = &mut slot.machine else {
        unreachable!()
    };
    let answer = insert_on(parts, session, insert);
    slot.held = held_after(Held::Insert, &answer);
    answer
}

/// The next step of a statement that is no insert.
fn other_in<D: Disk + Drop>(
    parts: &mut Parts<D>,
    session: u32,
    hand: &mut Option<Hand>,
) -> Result<Step, StoreFault>
    requires hand { IsSome hand.old }
    requires elsewhere { IfSome hand.old IsElsewhere }
    requires fit { IfSome hand.old (λ was. IsFit D.told parts.old session was) }
    requires few { count_of parts.old.locks + LOCKS_A_SESSION ≤ MAX_LOCKS }
    requires shown { IfSome hand.old (λ was. IsShown D.told parts.old session was) }
    ensures so { IfSome hand.old (λ was. SettlesSo D.told parts.old parts.new session was hand.new result) }
    ensures survives { IfSome hand.old (λ was. StopsSo D.told parts.old.transactions session parts.old.pages parts.new.pages was result) }
{
    let Some(own) = hand else { unreachable!() };
    match own {
        Hand::Puts { .. } => unreachable!(),
        Hand::Inserts(_) => unreachable!(),
        Hand::Begins(_)
        | Hand::Commits
        | Hand::RollsBack
        | Hand::Selecting(_)
        | Hand::Deleting(_)
        | Hand::Working => once(parts, session, hand),
        _ => step_in(parts, session, hand),
    }
}

/// The step of a statement that is taken out of the hand for it; what comes back is in hand again.
fn once<D: Disk + Drop>(
    parts: &mut Parts<D>,
    session: u32,
    hand: &mut Option<Hand>,
) -> Result<Step, StoreFault>
    requires hand { IsSome hand.old }
    requires once { IfSome hand.old IsTakenOut }
    requires fit { IfSome hand.old (λ was. IsFit D.told parts.old session was) }
    requires shown { IfSome hand.old (λ was. IsShown D.told parts.old session was) }
    ensures so { IfSome hand.old (λ was. SettlesSo D.told parts.old parts.new session was hand.new result) }
    ensures survives { IfSome hand.old (λ was. StopsSo D.told parts.old.transactions session parts.old.pages parts.new.pages was result) }
{
    let statement = taken(hand);
    settle(step_out(parts, session, statement), hand)
}

/// Makes the step of a statement that was taken out of the hand.
fn step_out<D: Disk + Drop>(parts: &mut Parts<D>, session: u32, hand: Hand) -> Stepped
    requires once { IsTakenOut hand }
    requires fit { IsFit D.told parts.old session hand }
    requires shown { IsShown D.told parts.old session hand }
    ensures so { StepsSo D.told parts.old parts.new session hand result }
    ensures survives { StopsSo D.told parts.old.transactions session parts.old.pages parts.new.pages hand (answer_of result) }
{
    match hand {
        Hand::Begins(numbers) => begin(parts, session, numbers),
        Hand::Commits => commit(parts, session),
        Hand::RollsBack => roll_back(parts, session),
        Hand::Selecting(query) => begin_select(parts, session, query),
        Hand::Deleting(query) => begin_delete(parts, session, query),
        Hand::Working => begin_work(parts, session),
        _ => unreachable!(),
    }
}

/// The step of a statement that is stepped where it stands.
fn step_in<D: Disk + Drop>(
    parts: &mut Parts<D>,
    session: u32,
    hand: &mut Option<Hand>,
) -> Result<Step, StoreFault>
    requires hand { IsSome hand.old }
    requires there { IfSome hand.old IsSteppedThere }
    requires fit { IfSome hand.old (λ was. IsFit D.told parts.old session was) }
    requires few { count_of parts.old.locks + LOCKS_A_SESSION ≤ MAX_LOCKS }
    requires shown { IfSome hand.old (λ was. IsShown D.told parts.old session was) }
    ensures so { IfSome hand.old (λ was. SettlesSo D.told parts.old parts.new session was hand.new result) }
    ensures survives { IfSome hand.old (λ was. StopsSo D.told parts.old.transactions session parts.old.pages parts.new.pages was result) }
{
    let Some(own) = hand else { unreachable!() };
    let answer = step_on(parts, session, own);
    clear_when_done(&answer, hand);
    answer
}

/// Makes the step of a statement where it stands.
fn step_on<D: Disk + Drop>(
    parts: &mut Parts<D>,
    session: u32,
    hand: &mut Hand,
) -> Result<Step, StoreFault>
    requires there { IsSteppedThere hand.old }
    requires fit { IsFit D.told parts.old session hand.old }
    requires few { count_of parts.old.locks + LOCKS_A_SESSION ≤ MAX_LOCKS }
    requires shown { IsShown D.told parts.old session hand.old }
    ensures so { StepsSo D.told parts.old parts.new session hand.old (stepped_in hand.new result) }
    ensures survives { StopsSo D.told parts.old.transactions session parts.old.pages parts.new.pages hand.old result }
{
    match hand {
        Hand::Selects(_) => select_on(parts, session, hand),
        Hand::Deletes(_) => delete_on(parts, session, hand),
        Hand::Marks(marking) => mark(parts, session, marking),
        Hand::Explains(_) => explain_on(parts, session, hand),
        Hand::Summarises(summarise) => summarise_on(parts, session, summarise),
        Hand::Desummarises(desummarise) => desummarise_on(parts, session, desummarise),
        Hand::Cleans(_) => clean_on(parts, session, hand),
        Hand::Completes(completing) => complete_on(parts, session, completing),
        Hand::Works(requested) => work_on(parts, session, requested),
        _ => unreachable!(),
    }
}

/// Behind its reply nothing is in hand.
fn clear_when_done(answer: &Result<Step, StoreFault>, hand: &mut Option<Hand>)
    ensures { IfSome hand.old (λ now. hand.new ≡ hand_after (stepped_in now answer.now)) }
{
    match answer {
        Ok(Step::Done(_)) => drop(hand.take()),
        Ok(Step::Moved(_)) => {}
        Ok(Step::Blocked { .. }) => {}
        Err(_) => {}
    }
}

/// The answer of a step. The statement that it gives back, if there is one, is in hand again.
fn settle(stepped: Stepped, hand: &mut Option<Hand>) -> Result<Step, StoreFault>
    requires { hand.old ≡ None }
    ensures answer { result ≡ answer_of stepped }
    ensures hand { hand.new ≡ hand_after stepped }
{
    match stepped {
        Stepped::Moved { point, hand: left } => {
            leave(hand, left);
            Ok(Step::Moved(point))
        }
        Stepped::Done(reply) => Ok(Step::Done(reply)),
        Stepped::Blocked {
            what,
            holder,
            hand: left,
        } => {
            leave(hand, left);
            Ok(Step::Blocked { what, holder })
        }
        Stepped::Undone { fault, hand: left } => {
            leave(hand, left);
            Err(fault)
        }
    }
}

/// The statement is in hand. It stands apart from the match above, whose check wouldn't end otherwise.
fn leave(hand: &mut Option<Hand>, left: Hand)
    ensures { hand.new ≡ Some left }
{
    drop(hand.replace(left));
}
