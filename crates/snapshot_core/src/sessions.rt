//! The open transactions of the sessions, each at the place of its session.

ghost use Rattle.std.specs.Prelude.{◌≡◌, ◌+◌, ◌^◌, ◌<◌, ◌≤◌, [], length, slice_set, None, Some, IsSome, IsSomeAnd, IfSome, IfOk, replicate, vec_capacity};
ghost use Rattle.std.specs.Option.{option_copied};
ghost use Rattle.store_layout.specs.declared.limits.TheConstants.{MAX_SESSIONS};
ghost use Rattle.snapshot_core.specs.StoredVersions.{transaction_of};
ghost use Rattle.snapshot_core.specs.SessionChanges.{numbers_of, with_next_k, failed_open};

use crate::Snapshot;
use block_model::NoMemory;
use std::alloc::Global;
use store_layout::MAX_SESSIONS;

/// A session's transaction that is under way: its number, the place of its next row, what it sees of others, and whether
/// it has failed.
#[derive(Debug, Drop)]
pub struct Open {
    pub t: u64,
    pub next_k: u32,
    pub snapshot: Snapshot,
    pub failed: bool,
}

/// No transactions.
pub fn no_transactions(alloc: Global) -> Result<Vec<Option<Open>>, NoMemory>
    ensures { IfOk result (λ sessions. sessions.items ≡ replicate MAX_SESSIONS None) }
{
    let mut sessions = Vec::with_capacity(alloc, MAX_SESSIONS)?;
    'sessions: for _ in 0..MAX_SESSIONS {
        sessions.push_reserved(None);
    }
    Ok(sessions)
}

/// The session's transaction.
pub fn transaction_of(sessions: &[Option<Open>], session: u32) -> Option<&Open>
    ensures { option_copied result ≡ transaction_of sessions.now session }
{
    match sessions.get(session as usize) {
        Some(Some(open)) => Some(open),
        _ => None,
    }
}

/// The session's transaction, which is under way.
pub fn open_of(sessions: &[Option<Open>], session: u32) -> &Open
    requires { IsSome (transaction_of sessions.now session) }
    ensures { transaction_of sessions.now session ≡ Some result.now }
{
    let Some(open) = transaction_of(sessions, session) else {
        unreachable!()
    };
    open
}

/// Appends the numbers of the open transactions to an empty list with room for as many as there are sessions. Takes no
/// memory.
pub fn numbers_of(sessions: &[Option<Open>], empty: Vec<u64>) -> Vec<u64>
    requires empty { empty.items ≡ [] }
    requires room { length sessions.now ≤ vec_capacity empty }
    ensures { result.items ≡ numbers_of sessions.now }
{
    let mut numbers = empty;
    'sessions: for session in sessions {
        if let Some(open) = session {
            numbers.push_reserved(open.t);
        }
    }
    numbers
}

/// The session gets the transaction.
pub fn set_open(sessions: &mut Vec<Option<Open>>, session: u32, new: Open)
    requires { session < length sessions.old.items }
    ensures { sessions.new.items ≡ slice_set sessions.old.items session (Some new) }
{
    sessions[session as usize] = Some(new);
}

/// The session's transaction ends, and is answered.
pub fn take_open(sessions: &mut Vec<Option<Open>>, session: u32) -> Open
    requires { IsSome (transaction_of sessions.old.items session) }
    ensures was { transaction_of sessions.old.items session ≡ Some result }
    ensures gone { sessions.new.items ≡ slice_set sessions.old.items session None }
{
    let Some(open) = sessions[session as usize].take() else {
        unreachable!()
    };
    open
}

/// The session's transaction has put one row more.
pub fn count_row(sessions: &mut Vec<Option<Open>>, session: u32)
    requires { IsSomeAnd (transaction_of sessions.old.items session) (λ o. o.next_k + 1 < 2 ^ 32) }
    ensures { IfSome (transaction_of sessions.old.items session) (λ o. sessions.new.items ≡ slice_set sessions.old.items session (Some (with_next_k o (o.next_k + 1)))) }
{
    if let Some(open) = &mut sessions[session as usize] {
        open.next_k += 1;
    }
}

/// The session's transaction fails.
pub fn fail_open(sessions: &mut Vec<Option<Open>>, session: u32)
    requires { IsSome (transaction_of sessions.old.items session) }
    ensures { IfSome (transaction_of sessions.old.items session) (λ o. sessions.new.items ≡ slice_set sessions.old.items session (Some (failed_open o))) }
{
    if let Some(open) = &mut sessions[session as usize] {
        open.failed = true;
    }
}
