//! The end of a transaction.

ghost use Rattle.std.specs.Prelude.{◌≡◌, ◌+◌, ◌<◌, ◌≤◌, IsSome, None, Some, length, if◌then◌else◌};
ghost use Rattle.store_layout.specs.declared.limits.TheConstants.{MAX_ENTRIES};
ghost use Rattle.snapshot_core.specs.StoredVersions.{transaction_of};
ghost use Rattle.transactions.specs.TransactionsState.{OfOpen};
ghost use Rattle.session_parts.specs.Shares.{open_share};
ghost use Rattle.session_parts.specs.StepAnswers.{HasCause};
ghost use Rattle.session_parts.specs.Stepping.{IsFit, IsShown, LeavesTheOthers, MakesItsStep, StaysFit, StaysUndone};
ghost use Rattle.transactions.specs.Passes.{PassesCommit, PassesNothing};
ghost use Rattle.session_transactions.specs.Stops.{IsSureThen};

use crate::laws::laws_of_transactions;
use block_model::{Reply, Request, Tag};
use disk_trait::Disk;
use session_parts::{Hand, Parts, Stepped, fault_of, spent};
use snapshot_core::Standing;
use transactions::Transactions;

/// How many entries a session with an open transaction was promised beside that of its end.
fn entries_unneeded(transactions: &Transactions, session: u32) -> usize
    requires open { IsSome (transaction_of transactions.now.opens session) }
    ensures { OfOpen transactions.now session (λ o. result + 1 ≡ open_share (Some o)) }
{
    match transactions.standing(session) {
        Standing::UnderWay => 1,
        Standing::Failed | Standing::Idle => 0,
    }
}

/// The reply to a commit, which is a rollback where the transaction had failed.
fn end_reply(committed: bool) -> Reply
    ensures { result ≡ (if committed then Reply.Committed else Reply.RolledBack) }
{
    if committed {
        Reply::Committed
    } else {
        Reply::RolledBack
    }
}

/// Commits the session's transaction, and replies so behind the flush that makes it sure; one that has failed is rolled back, and that is replied.
/// Where it isn't done the transaction is open as before.
pub fn commit<D: Disk + Drop>(parts: &mut Parts<D>, session: u32) -> Stepped
    requires fit { IsFit D.told parts.old session Hand.Commits }
    requires shown { IsShown D.told parts.old session Hand.Commits }
    ensures steps { MakesItsStep D.told parts.old parts.new session Hand.Commits result }
    ensures fit { StaysFit D.told parts.old parts.new session Hand.Commits result }
    ensures others { LeavesTheOthers D.told parts.old parts.new session Hand.Commits result }
    ensures stays { StaysUndone D.told parts.old parts.new session Hand.Commits result }
    ensures cause { HasCause D.told parts.old.pages parts.new.pages result }
    ensures survives { PassesCommit D.told parts.old.transactions session parts.old.pages parts.new.pages }
    ensures sure { IsSureThen D.told parts.old.pages parts.new.pages result }
{
    match parts.pages.ready() {
        Ok(()) => {}
        Err(error) => {
            return Stepped::Undone {
                fault: fault_of(error),
                hand: Hand::Commits,
            };
        }
    }
    if !parts.journal.fits(1) {
        return no_commit(parts, session);
    }
    commit_now(parts, session)
}

/// The journal has no room for the commit.
fn no_commit<D: Disk + Drop>(parts: &Parts<D>, session: u32) -> Stepped
    requires fit { IsFit D.told parts.now session Hand.Commits }
    requires ready { parts.now.pages.failed ≡ None }
    requires full { MAX_ENTRIES ≤ length parts.now.journal.entries }
    ensures steps { MakesItsStep D.told parts.now parts.now session Hand.Commits result }
    ensures fit { StaysFit D.told parts.now parts.now session Hand.Commits result }
    ensures others { LeavesTheOthers D.told parts.now parts.now session Hand.Commits result }
    ensures stays { StaysUndone D.told parts.now parts.now session Hand.Commits result }
    ensures cause { HasCause D.told parts.now.pages parts.now.pages result }
    ensures survives { PassesCommit D.told parts.now.transactions session parts.now.pages parts.now.pages }
    ensures sure { IsSureThen D.told parts.now.pages parts.now.pages result }
{
    laws_of_transactions();
    parts.pages.known();
    Stepped::Undone {
        fault: spent(&parts.journal),
        hand: Hand::Commits,
    }
}

/// There is room for the commit.
fn commit_now<D: Disk + Drop>(parts: &mut Parts<D>, session: u32) -> Stepped
    requires fit { IsFit D.told parts.old session Hand.Commits }
    requires shown { IsShown D.told parts.old session Hand.Commits }
    requires ready { parts.old.pages.failed ≡ None }
    requires room { length parts.old.journal.entries + 1 ≤ MAX_ENTRIES }
    ensures steps { MakesItsStep D.told parts.old parts.new session Hand.Commits result }
    ensures fit { StaysFit D.told parts.old parts.new session Hand.Commits result }
    ensures others { LeavesTheOthers D.told parts.old parts.new session Hand.Commits result }
    ensures stays { StaysUndone D.told parts.old parts.new session Hand.Commits result }
    ensures cause { HasCause D.told parts.old.pages parts.new.pages result }
    ensures survives { PassesCommit D.told parts.old.transactions session parts.old.pages parts.new.pages }
    ensures sure { IsSureThen D.told parts.old.pages parts.new.pages result }
{
    laws_of_transactions();
    let unneeded = entries_unneeded(&parts.transactions, session);
    match parts.transactions.commit(&mut parts.pages, session) {
        Ok(committed) => {
            parts.journal.enter(session, 0, Request::Commit, Tag::Ok);
            parts.journal.release(unneeded);
            Stepped::Done(end_reply(committed))
        }
        Err(error) => Stepped::Undone {
            fault: fault_of(error),
            hand: Hand::Commits,
        },
    }
}

/// Rolls the session's transaction back. Where it isn't done the transaction is open as before.
pub fn roll_back<D: Disk + Drop>(parts: &mut Parts<D>, session: u32) -> Stepped
    requires fit { IsFit D.told parts.old session Hand.RollsBack }
    requires shown { IsShown D.told parts.old session Hand.RollsBack }
    ensures steps { MakesItsStep D.told parts.old parts.new session Hand.RollsBack result }
    ensures fit { StaysFit D.told parts.old parts.new session Hand.RollsBack result }
    ensures others { LeavesTheOthers D.told parts.old parts.new session Hand.RollsBack result }
    ensures stays { StaysUndone D.told parts.old parts.new session Hand.RollsBack result }
    ensures cause { HasCause D.told parts.old.pages parts.new.pages result }
    ensures survives { PassesNothing D.told parts.old.pages parts.new.pages }
{
    match parts.pages.ready() {
        Ok(()) => {}
        Err(error) => {
            return Stepped::Undone {
                fault: fault_of(error),
                hand: Hand::RollsBack,
            };
        }
    }
    if !parts.journal.fits(1) {
        return no_rollback(parts, session);
    }
    roll_back_now(parts, session)
}

/// The journal has no room for the rollback.
fn no_rollback<D: Disk + Drop>(parts: &Parts<D>, session: u32) -> Stepped
    requires fit { IsFit D.told parts.now session Hand.RollsBack }
    requires ready { parts.now.pages.failed ≡ None }
    requires full { MAX_ENTRIES ≤ length parts.now.journal.entries }
    ensures steps { MakesItsStep D.told parts.now parts.now session Hand.RollsBack result }
    ensures fit { StaysFit D.told parts.now parts.now session Hand.RollsBack result }
    ensures others { LeavesTheOthers D.told parts.now parts.now session Hand.RollsBack result }
    ensures stays { StaysUndone D.told parts.now parts.now session Hand.RollsBack result }
    ensures cause { HasCause D.told parts.now.pages parts.now.pages result }
    ensures survives { PassesNothing D.told parts.now.pages parts.now.pages }
{
    laws_of_transactions();
    parts.pages.known();
    Stepped::Undone {
        fault: spent(&parts.journal),
        hand: Hand::RollsBack,
    }
}

/// There is room for the rollback.
fn roll_back_now<D: Disk + Drop>(parts: &mut Parts<D>, session: u32) -> Stepped
    requires fit { IsFit D.told parts.old session Hand.RollsBack }
    requires shown { IsShown D.told parts.old session Hand.RollsBack }
    requires ready { parts.old.pages.failed ≡ None }
    requires room { length parts.old.journal.entries + 1 ≤ MAX_ENTRIES }
    ensures steps { MakesItsStep D.told parts.old parts.new session Hand.RollsBack result }
    ensures fit { StaysFit D.told parts.old parts.new session Hand.RollsBack result }
    ensures others { LeavesTheOthers D.told parts.old parts.new session Hand.RollsBack result }
    ensures stays { StaysUndone D.told parts.old parts.new session Hand.RollsBack result }
    ensures cause { HasCause D.told parts.old.pages parts.new.pages result }
    ensures survives { PassesNothing D.told parts.old.pages parts.new.pages }
{
    laws_of_transactions();
    let unneeded = entries_unneeded(&parts.transactions, session);
    match parts.transactions.rollback(&mut parts.pages, session) {
        Ok(()) => {
            parts.journal.enter(session, 0, Request::Rollback, Tag::Ok);
            parts.journal.release(unneeded);
            Stepped::Done(Reply::RolledBack)
        }
        Err(error) => Stepped::Undone {
            fault: fault_of(error),
            hand: Hand::RollsBack,
        },
    }
}
