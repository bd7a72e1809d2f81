//! Workers, one a session.

ghost use Rattle.std.specs.Prelude.{◌≡◌, ◌≤◌, ◌<◌, ◌+◌, ◌-◌, ◌^◌, min, ℕ, List, length, true, false, All, slice_index_or};
ghost use Rattle.std.specs.Bool.{OnTrue, OnFalse};
ghost use Rattle.session_threads.specs.Workers.{one_if};

use crate::floor::{Floor, Place};
use block_model::Numbers;
use io_traits::{Gate, Stepper, Turn};
use std::sync::ledger::{Ledger, Share};
use std::sync::{Condvar, Mutex, Wait};
use std::thread;
use std::thread::Threads;

/// A worker: its session and the numbers of its lines, how many of them were answered, whether it was answered Ended, and its
/// shares of the two books.
#[derive(Drop)]
pub struct WorkerEnd<L: Ledger, E: Ledger> {
    pub session: u32,
    pub lines: Numbers,
    pub done: u64,
    pub ended: bool,
    pub share: Share<L>,
    pub end: Share<E>,
}

/// Runs all workers, each in a thread of its own where one can be made. It takes no memory. It may wait: what is said holds if
/// it returns.
pub fn run_all<
    L: Ledger + Send,
    E: Ledger + Send,
    R: Threads + Wait + Sync,
    S: Stepper<L, E> + Send,
    G: Gate + Sync,
>(rt: &R, store: &Mutex<S>, bell: &Condvar, workers: &mut [WorkerEnd<L, E>], gate: &G)
    requires parts { All (λ w. (0 < w.share.parts) × (0 < w.end.parts)) workers.old }
    requires fresh { All (λ w. (w.done ≡ 0) × (w.ended ≡ false) × (w.share.amount ≡ 0) × (w.end.amount ≡ 0)) workers.old }
    ensures done { All (λ w. w.share.amount ≡ w.done) workers.new }
    ensures ended { All (λ w. w.end.amount ≡ one_if w.ended) workers.new }
    ensures all { All (λ w. w.ended ≡ false → w.done ≡ length w.lines) workers.new }
    ensures part { All (λ w. w.ended ≡ true → w.done < length w.lines) workers.new }
    ensures same { (i : ℕ) (d : _) → i < length workers.old → ((slice_index_or workers.new i d).session ≡ (slice_index_or workers.old i d).session) × ((slice_index_or workers.new i d).lines ≡ (slice_index_or workers.old i d).lines) }
    ensures same_parts { (i : ℕ) (d : _) → i < length workers.old → ((slice_index_or workers.new i d).share.parts ≡ (slice_index_or workers.old i d).share.parts) × ((slice_index_or workers.new i d).end.parts ≡ (slice_index_or workers.old i d).end.parts) }
{
    let floor = Floor {
        rt,
        store,
        bell,
        gate,
    };
    run_at(rt, workers, &floor);
}

/// Runs all workers at that place.
fn run_at<L: Ledger + Send, E: Ledger + Send, R: Threads + Wait + Sync, P: Place<L, E> + Sync>(
    rt: &R,
    workers: &mut [WorkerEnd<L, E>],
    place: &P,
)
    requires parts { All (λ w. (0 < w.share.parts) × (0 < w.end.parts)) workers.old }
    requires fresh { All (λ w. (w.done ≡ 0) × (w.ended ≡ false) × (w.share.amount ≡ 0) × (w.end.amount ≡ 0)) workers.old }
    ensures done { All (λ w. w.share.amount ≡ w.done) workers.new }
    ensures ended { All (λ w. w.end.amount ≡ one_if w.ended) workers.new }
    ensures all { All (λ w. w.ended ≡ false → w.done ≡ length w.lines) workers.new }
    ensures part { All (λ w. w.ended ≡ true → w.done < length w.lines) workers.new }
    ensures same { (i : ℕ) (d : _) → i < length workers.old → ((slice_index_or workers.new i d).session ≡ (slice_index_or workers.old i d).session) × ((slice_index_or workers.new i d).lines ≡ (slice_index_or workers.old i d).lines) }
    ensures same_parts { (i : ℕ) (d : _) → i < length workers.old → ((slice_index_or workers.new i d).share.parts ≡ (slice_index_or workers.old i d).share.parts) × ((slice_index_or workers.new i d).end.parts ≡ (slice_index_or workers.old i d).end.parts) }
{
    let threads = workers.len().max(1);
    thread::for_each_mut(
        rt,
        workers,
        threads,
        &|_, worker: &mut WorkerEnd<L, E>| { work(rt, place, worker) },
    );
}

/// Has the lines of a worker answered, in order, until all are or it is answered Ended.
fn work<L: Ledger, E: Ledger, R: Wait, P: Place<L, E>>(
    rt: &R,
    place: &P,
    worker: &mut WorkerEnd<L, E>,
)
    requires parts { (0 < worker.old.share.parts) × (0 < worker.old.end.parts) }
    requires fresh { (worker.old.done ≡ 0) × (worker.old.ended ≡ false) × (worker.old.share.amount ≡ 0) × (worker.old.end.amount ≡ 0) }
    ensures done { worker.new.share.amount ≡ worker.new.done }
    ensures ended { worker.new.end.amount ≡ one_if worker.new.ended }
    ensures all { worker.new.ended ≡ false → worker.new.done ≡ length worker.old.lines }
    ensures part { worker.new.ended ≡ true → worker.new.done < length worker.old.lines }
    ensures same { (worker.new.session ≡ worker.old.session) × (worker.new.lines ≡ worker.old.lines) }
    ensures same_parts { (worker.new.share.parts ≡ worker.old.share.parts) × (worker.new.end.parts ≡ worker.old.end.parts) }
{
    let mut steps = 0;
    for at in 0..worker.lines.len() {
        let line = line_number(worker.lines.as_slice()[at]);
        if !answer(
            rt,
            place,
            worker.session,
            line,
            &mut steps,
            &mut worker.share,
            &mut worker.end,
        ) {
            worker.ended = true;
            return;
        }
        worker.done += 1;
    }
}

/// The number by which a line is submitted: a script has no line behind the greatest such number.
fn line_number(line: u64) -> u32
    ensures { result ≡ min line (2 ^ 32 - 1) }
{
    line.min(u64::from(u32::MAX)) as u32
}

/// Submits a line, and makes steps until it is answered. It tells whether it is; else an Ended came.
fn answer<L: Ledger, E: Ledger, R: Wait, P: Place<L, E>>(
    rt: &R,
    place: &P,
    session: u32,
    line: u32,
    steps: &mut u64,
    share: &mut Share<L>,
    end: &mut Share<E>,
) -> bool
    requires share { 0 < share.old.parts }
    requires end { 0 < end.old.parts }
    ensures answered { OnTrue result ((share.new.amount ≡ share.old.amount + 1) × (end.new.amount ≡ end.old.amount)) }
    ensures ended { OnFalse result ((share.new.amount ≡ share.old.amount) × (end.new.amount ≡ end.old.amount + 1)) }
    ensures parts { (share.new.parts ≡ share.old.parts) × (end.new.parts ≡ end.old.parts) }
{
    match place.submit(session, line, share, end) {
        Turn::Done => true,
        Turn::Ended => false,
        Turn::Moved | Turn::Blocked | Turn::Stale => {
            finish(rt, place, session, steps, share, end)
        }
    }
}

/// Makes steps until the line in hand is answered. It tells whether it is; else an Ended came.
fn finish<L: Ledger, E: Ledger, R: Wait, P: Place<L, E>>(
    rt: &R,
    place: &P,
    session: u32,
    steps: &mut u64,
    share: &mut Share<L>,
    end: &mut Share<E>,
) -> bool
    requires share { 0 < share.old.parts }
    requires end { 0 < end.old.parts }
    ensures answered { OnTrue result ((share.new.amount ≡ share.old.amount + 1) × (end.new.amount ≡ end.old.amount)) }
    ensures ended { OnFalse result ((share.new.amount ≡ share.old.amount) × (end.new.amount ≡ end.old.amount + 1)) }
    ensures parts { (share.new.parts ≡ share.old.parts) × (end.new.parts ≡ end.old.parts) }
{
    for _ in rt.forever() {
        match place.step(session, steps, share, end) {
            Turn::Done => return true,
            Turn::Ended => return false,
            Turn::Moved | Turn::Blocked | Turn::Stale => {}
        }
    }
    unreachable!()
}
