//! What the changes of locks mean, as laws on their definitions.

ghost use Rattle.std.specs.Prelude.{◌≡◌, ◌≤◌, ◌*◌, ℕ, None};
ghost use Rattle.page_locks.specs.LockHolders.{holder, count_of, with_lock, without_lock};
ghost use Rattle.page_locks.specs.LockCounts.{locks_of};

use crate::locks::Locks;
use block_model::Place;

/// A free page that is taken and then given is free again, and all is as it was.
pub fn a_taken_lock_is_given_back(locks: &Locks, page: Place, actor: u32)
    requires { holder locks.now page ≡ None }
    ensures { without_lock (with_lock locks.now page actor) page ≡ locks.now }
{}

/// Where actors from that number on hold nothing, and each holds at most so many locks, no more are held than these together.
pub fn few_locks_are_held(locks: &Locks, actors: u32, each: u32)
    requires none { (actor : ℕ) → actors ≤ actor → locks_of locks.now actor ≡ 0 }
    requires few { (actor : ℕ) → locks_of locks.now actor ≤ each }
    ensures { count_of locks.now ≤ actors * each }
{}
