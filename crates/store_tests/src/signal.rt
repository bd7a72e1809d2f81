//! Waits for other threads, which end.

use std::sync::atomic::{AtomicU64, Ordering};
use std::thread;

/// The turns of a wait.
const TURNS: u64 = 100_000_000;

/// The steps that a session makes without moving on, while it waits for another.
pub const STALE_TURNS: u64 = 1_000_000;

/// Waits until the count has come so far, for so many turns at most. It tells whether it has.
pub fn await_count(count: &AtomicU64, least: u64) -> bool {
    for turn in 0..TURNS {
        if count.load(Ordering::SeqCst) >= least {
            return true;
        }
        if turn % 64 == 0 {
            thread::yield_now();
        }
    }
    false
}

/// Adds one, and tells how many there are then.
pub fn count_one(count: &AtomicU64) -> u64 {
    count.fetch_add(1, Ordering::SeqCst).saturating_add(1)
}
