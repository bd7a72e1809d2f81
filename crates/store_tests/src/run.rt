//! A plan that is run.

ghost use Rattle.std.specs.Prelude.{◌≡◌, ◌<◌, ◌≤◌, false};

use crate::planned::{Plan, Planned};
use block_model::{NoMemory, Numbers};
use io_traits::{Gate, Stepper};
use session_threads::{WorkerEnd, run_all};
use std::alloc::Global;
use std::marker::Brand;
use std::sync::ledger::{Blank, Ledger, Share};
use std::sync::{Condvar, Mutex, Wait};
use std::thread::Threads;

/// What became of a plan with two sessions, 0 and 1: how many lines of each were answered, and whether each was ended.
#[derive(Drop)]
pub struct Outcome<P> {
    pub plan: P,
    pub done: [u64; 2],
    pub ended: [bool; 2],
    pub status: Option<u8>,
}

/// A list of those numbers.
pub fn numbers(alloc: Global, items: &[u64]) -> Result<Numbers, NoMemory> {
    let mut list = Numbers::new(alloc);
    for at in 0..items.len() {
        list.push(items[at])?;
    }
    Ok(list)
}

/// Runs a plan, one worker for session 0 and one for session 1, each with lines of those numbers.
pub fn run_plan<P: Plan + Send + Drop, G: Gate + Sync, R: Threads + Wait + Sync>(
    rt: &R,
    plan: P,
    gate: &G,
    first: Numbers,
    second: Numbers,
) -> Outcome<P> {
    with_books::<P, Brand, Brand, G, R>(rt, plan, gate, first, second, Blank::new(2), Blank::new(2))
}

fn with_books<
    P: Plan + Send + Drop,
    L: Ledger + Send,
    E: Ledger + Send,
    G: Gate + Sync,
    R: Threads + Wait + Sync,
>(
    rt: &R,
    plan: P,
    gate: &G,
    first: Numbers,
    second: Numbers,
    answers: Blank,
    ends: Blank,
) -> Outcome<P>
    requires answers { (answers.name ≡ L.name) × (answers.parts ≡ L.parts) × (2 ≤ L.parts) }
    requires ends { (ends.name ≡ E.name) × (ends.parts ≡ E.parts) × (2 ≤ E.parts) }
{
    let (answers, mut share) = answers.open::<L>();
    let (ends, mut end) = ends.open::<E>();
    let first = fresh(0, first, share.split_off(1, 0), end.split_off(1, 0));
    let second = fresh(1, second, share, end);
    let mut workers = [first, second];
    let store = Mutex::new(Planned::new(plan, answers, ends));
    run_all(rt, &store, &Condvar::new(), &mut workers, gate);
    let done = [workers[0].done, workers[1].done];
    let ended = [workers[0].ended, workers[1].ended];
    let store = store.into_inner();
    let status = store.status();
    Outcome {
        plan: store.into_plan(),
        done,
        ended,
        status,
    }
}

/// A worker that hasn't begun.
fn fresh<L: Ledger, E: Ledger>(
    session: u32,
    lines: Numbers,
    share: Share<L>,
    end: Share<E>,
) -> WorkerEnd<L, E>
    ensures parts { (result.share.parts ≡ share.parts) × (result.end.parts ≡ end.parts) }
    ensures amounts { (result.share.amount ≡ share.amount) × (result.end.amount ≡ end.amount) }
    ensures fresh { (result.done ≡ 0) × (result.ended ≡ false) }
{
    WorkerEnd {
        session,
        lines,
        done: 0,
        ended: false,
        share,
        end,
    }
}
