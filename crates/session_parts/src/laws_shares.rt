//! Laws of what sessions share: room in the journal, and locks.

ghost use Rattle.std.specs.Prelude.{◌≡◌, ◌+◌, ◌≤◌, ℕ};
ghost use Rattle.page_locks.specs.LockCounts.{locks_of};
ghost use Rattle.page_locks.specs.LockHolders.{count_of};
ghost use Rattle.store_layout.specs.declared.limits.TheConstants.{MAX_SESSIONS as SESSIONS};
ghost use Rattle.session_parts.specs.ShareLaws.{FewLocksEach, HolderHasLock, PromisesStay, ShareIsWithin, SharesChange};

use crate::limits::{LOCKS_A_SESSION, MAX_LOCKS};
use page_locks::{Locks, few_locks_are_held as few_locks};
use store_layout::MAX_SESSIONS;

/// Where the share of one session changes, the sum of all changes by as much, and holds each of them; so what is promised stays that sum. Does
/// nothing.
pub fn shares_are_summed()
    ensures change { SharesChange }
    ensures within { ShareIsWithin }
    ensures promised { PromisesStay }
{}

/// No statement in hand holds more page locks than a session may. Does nothing.
pub fn each_session_holds_few_locks()
    ensures { FewLocksEach }
{}

/// A session that locks a page holds a lock. Does nothing.
pub fn a_holder_has_a_lock()
    ensures { HolderHasLock }
{}

/// Where no session holds more locks than one may, there is room for the locks of one more move. Does nothing.
pub fn few_locks_are_held(locks: &Locks)
    requires none { (actor : ℕ) → SESSIONS ≤ actor → locks_of locks.now actor ≡ 0 }
    requires few { (actor : ℕ) → locks_of locks.now actor ≤ LOCKS_A_SESSION }
    ensures { count_of locks.now + LOCKS_A_SESSION ≤ MAX_LOCKS }
{
    few_locks(locks, MAX_SESSIONS as u32, LOCKS_A_SESSION as u32);
}
