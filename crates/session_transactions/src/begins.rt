//! The begin of a transaction.

ghost use Rattle.std.specs.Prelude.{◌≡◌, ◌+◌, ◌<◌, ◌≤◌, ◌↔◌, IsTrue, None, codes, length};
ghost use Rattle.store_layout.specs.declared.limits.TheConstants.{MAX_ENTRIES};
ghost use Rattle.tx_table.specs.Statuses.{number_limit};
ghost use Rattle.session_parts.specs.StepAnswers.{HasCause};
ghost use Rattle.session_parts.specs.Stepping.{IsFit, IsShown, LeavesTheOthers, MakesItsStep, StaysFit, StaysUndone};
ghost use Rattle.transactions.specs.Passes.{PassesNothing};

use crate::laws::laws_of_transactions;
use block_model::{Name, Refusal, Reply, Request, Tag};
use disk_trait::Disk;
use page_layout::STATUS_ENTRIES;
use session_parts::{ENTRIES_A_BEGIN, Hand, Parts, Stepped, fault_of, spent};
use store_layout::Layout;
use tx_table::BeginFault;

/// Begins a transaction of the session, and replies its number; it is refused where each number has been given. `numbers` is empty, with room for a
/// number of each session. Where it isn't done nothing is changed.
pub fn begin<D: Disk + Drop>(parts: &mut Parts<D>, session: u32, numbers: Vec<u64>) -> Stepped
    requires fit { IsFit D.told parts.old session (Hand.Begins numbers) }
    requires shown { IsShown D.told parts.old session (Hand.Begins numbers) }
    ensures steps { MakesItsStep D.told parts.old parts.new session (Hand.Begins numbers) result }
    ensures fit { StaysFit D.told parts.old parts.new session (Hand.Begins numbers) result }
    ensures others { LeavesTheOthers D.told parts.old parts.new session (Hand.Begins numbers) result }
    ensures stays { StaysUndone D.told parts.old parts.new session (Hand.Begins numbers) result }
    ensures cause { HasCause D.told parts.old.pages parts.new.pages result }
    ensures survives { PassesNothing D.told parts.old.pages parts.new.pages }
{
    match parts.pages.ready() {
        Ok(()) => {}
        Err(error) => {
            return Stepped::Undone {
                fault: fault_of(error),
                hand: Hand::Begins(numbers),
            };
        }
    }
    if parts.transactions.tx().next() == number_limit(parts.pages.layout()) {
        return refused(parts, session, numbers);
    }
    if !parts.journal.fits(1) {
        return no_room(parts, session, numbers);
    }
    begin_now(parts, session, numbers)
}

/// How many transactions have a number.
fn number_limit(layout: &Layout) -> u64
    ensures { result ≡ number_limit layout.now }
{
    layout.known();
    u64::from(layout.sizes().status_blocks) * u64::from(STATUS_ENTRIES)
}

/// No number is left: nothing is entered, and what the begin was promised isn't needed.
fn refused<D: Disk + Drop>(parts: &mut Parts<D>, session: u32, numbers: Vec<u64>) -> Stepped
    requires fit { IsFit D.told parts.old session (Hand.Begins numbers) }
    requires ready { parts.old.pages.failed ≡ None }
    requires spent { parts.old.transactions.tx.next ≡ number_limit parts.old.pages.layout }
    ensures steps { MakesItsStep D.told parts.old parts.new session (Hand.Begins numbers) result }
    ensures fit { StaysFit D.told parts.old parts.new session (Hand.Begins numbers) result }
    ensures others { LeavesTheOthers D.told parts.old parts.new session (Hand.Begins numbers) result }
    ensures stays { StaysUndone D.told parts.old parts.new session (Hand.Begins numbers) result }
    ensures cause { HasCause D.told parts.old.pages parts.new.pages result }
    ensures survives { PassesNothing D.told parts.old.pages parts.new.pages }
{
    laws_of_transactions();
    parts.pages.known();
    let number = parts.transactions.tx().next();
    parts.journal.release(ENTRIES_A_BEGIN);
    Stepped::Done(Reply::Refused(Refusal::Full {
        relation: status_name(),
        number,
    }))
}

/// The name under which the statuses are told.
fn status_name() -> Name
    ensures { result ≡ codes "status" }
{
    let Some(name) = Name::new(b"status") else {
        unreachable!()
    };
    name
}

/// The journal has no room for the begin.
fn no_room<D: Disk + Drop>(parts: &Parts<D>, session: u32, numbers: Vec<u64>) -> Stepped
    requires fit { IsFit D.told parts.now session (Hand.Begins numbers) }
    requires ready { parts.now.pages.failed ≡ None }
    requires some { parts.now.transactions.tx.next < number_limit parts.now.pages.layout }
    requires full { MAX_ENTRIES ≤ length parts.now.journal.entries }
    ensures steps { MakesItsStep D.told parts.now parts.now session (Hand.Begins numbers) result }
    ensures fit { StaysFit D.told parts.now parts.now session (Hand.Begins numbers) result }
    ensures others { LeavesTheOthers D.told parts.now parts.now session (Hand.Begins numbers) result }
    ensures stays { StaysUndone D.told parts.now parts.now session (Hand.Begins numbers) result }
    ensures cause { HasCause D.told parts.now.pages parts.now.pages result }
    ensures survives { PassesNothing D.told parts.now.pages parts.now.pages }
{
    laws_of_transactions();
    parts.pages.known();
    Stepped::Undone {
        fault: spent(&parts.journal),
        hand: Hand::Begins(numbers),
    }
}

/// A number is left, and there is room for the begin.
fn begin_now<D: Disk + Drop>(parts: &mut Parts<D>, session: u32, numbers: Vec<u64>) -> Stepped
    requires fit { IsFit D.told parts.old session (Hand.Begins numbers) }
    requires shown { IsShown D.told parts.old session (Hand.Begins numbers) }
    requires ready { parts.old.pages.failed ≡ None }
    requires some { parts.old.transactions.tx.next < number_limit parts.old.pages.layout }
    requires room { length parts.old.journal.entries + 1 ≤ MAX_ENTRIES }
    ensures steps { MakesItsStep D.told parts.old parts.new session (Hand.Begins numbers) result }
    ensures fit { StaysFit D.told parts.old parts.new session (Hand.Begins numbers) result }
    ensures others { LeavesTheOthers D.told parts.old parts.new session (Hand.Begins numbers) result }
    ensures stays { StaysUndone D.told parts.old parts.new session (Hand.Begins numbers) result }
    ensures cause { HasCause D.told parts.old.pages parts.new.pages result }
    ensures survives { PassesNothing D.told parts.old.pages parts.new.pages }
{
    laws_of_transactions();
    parts.transactions.known();
    match parts.transactions.begin(&mut parts.pages, session, numbers) {
        Ok(t) => {
            parts.journal.enter(session, 0, Request::Begin, Tag::Ok);
            Stepped::Done(Reply::Begun { t })
        }
        Err(unbegun) => match unbegun.fault {
            BeginFault::Store(error) => Stepped::Undone {
                fault: fault_of(error),
                hand: Hand::Begins(unbegun.active),
            },
            BeginFault::Spent { .. } => unreachable!(),
        },
    }
}
