//! A summarise that is held behind its placeholder until another session's insert is answered.

use crate::veiled::{Ran, run_veiled};
use disk_trait::SteadyDisk;
use io_traits::{Gate, OpenGate};
use std::alloc::Global;
use std::sync::Wait;
use std::sync::atomic::{AtomicU64, Ordering};
use std::thread;
use std::thread::Threads;

/// A hold lasts so many turns at most. At each of them the other threads may go on.
const TURNS: u64 = 1_000_000;

/// The bytes of the small store.
const SIZE: u64 = 376832;

const MAKING: [&[u8]; 7] = [
    b"run",
    b"--heap-blocks=8",
    b"--index-blocks=4",
    b"--status-blocks=1",
    b"--log-pages=16",
    b"table t(a int8) rows_per_page 2",
    b"index i on t(a minmax) pages_per_range 1",
];

/// A row is there before, and its range has no summary.
const BEFORE: &[u8] = b"s1 begin\ns1 insert t 5\ns1 commit\n";

/// The session m is made first, so its number is 0, and that of s1 is 1.
const WORKERS: &[u8] = b"m summarize i\ns1 begin\ns1 insert t 9\ns1 commit\n";

const KEEPER: u32 = 0;

const WRITER: u32 = 1;

const COMMITTED_LAST: &[u8] = b"s1 begun 2\ns1 inserted 2.0\nm summarized 1\ns1 committed\n";

const SUMMARIZED_LAST: &[u8] = b"s1 begun 2\ns1 inserted 2.0\ns1 committed\nm summarized 1\n";

/// Holds the writer before its insert's first step until the placeholder stands, and the keeper there, before it reads the table's extent, until the insert is answered.
#[derive(Drop)]
struct Holds {
    placed: AtomicU64,
    answered: AtomicU64,
    late: AtomicU64,
}

impl Holds {
    fn new() -> Holds {
        Holds {
            placed: AtomicU64::new(0),
            answered: AtomicU64::new(0),
            late: AtomicU64::new(0),
        }
    }

    /// Waits for the event. It is noted where that takes too long.
    fn hold(&self, event: &AtomicU64) {
        if !comes(event) {
            note(&self.late);
        }
    }
}

impl Gate for Holds {
    // The keeper's steps 0 to 3 are right, map, put and set. The writer's step 0 is its begin; its insert has the steps 1 to 4: row, map, copy and swap.
    fn before(&self, session: u32, step: u64) {
        match (session, step) {
            (KEEPER, 4) => {
                note(&self.placed);
                self.hold(&self.answered);
            }
            (WRITER, 1) => self.hold(&self.placed),
            (WRITER, 5) => note(&self.answered),
            _ => {}
        }
    }
}

fn note(event: &AtomicU64) {
    event.fetch_add(1, Ordering::SeqCst);
}

/// Waits for the event, for so many turns at most. It tells whether it came.
fn comes(event: &AtomicU64) -> bool {
    for _ in 0..TURNS {
        if event.load(Ordering::SeqCst) > 0 {
            return true;
        }
        thread::yield_now();
    }
    false
}

/// Whether all is answered, in either order of the last answer of each session.
fn is_answered(ran: &Ran) -> bool {
    let texts = ran.texts.bytes();
    ran.status == 0 && (texts == COMMITTED_LAST || texts == SUMMARIZED_LAST)
}

/// A store with a row on a new disk. `None` is want of memory.
fn prepared<R: Threads + Wait + Sync>(rt: &R, alloc: Global) -> Option<SteadyDisk> {
    let disk = SteadyDisk::new(alloc, SIZE).ok()?;
    let ran = run_veiled(rt, alloc, &MAKING, BEFORE, disk, &OpenGate)?;
    Some(ran.disk)
}

/// Whether both workers are answered, and how many holds were too long. `None` is want of memory.
fn held<R: Threads + Wait + Sync>(rt: &R, alloc: Global) -> Option<(bool, u64)> {
    let disk = prepared(rt, alloc)?;
    let gate = Holds::new();
    let ran = run_veiled(rt, alloc, &[b"threads"], WORKERS, disk, &gate)?;
    Some((is_answered(&ran), gate.late.load(Ordering::SeqCst)))
}

#[test]
fn lock_is_free_between_summarise_steps(rt: HostRuntime) {
    assert_eq!(rt; held(&rt, rt.alloc()), Some((true, 0)));
}
