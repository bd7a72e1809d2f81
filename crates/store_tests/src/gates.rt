//! Gates.

use crate::planned::{Answer, Plan};
use crate::run::{numbers, run_plan};
use crate::signal::{STALE_TURNS, await_count, count_one};
use io_traits::Gate;
use std::alloc::Global;
use std::sync::Wait;
use std::sync::atomic::{AtomicU64, Ordering};
use std::thread;
use std::thread::Threads;

/// Session 0 has the lines 3, 5 and 8. The first takes two steps, and the job of the second of these is once too old; the second
/// line is refused; the third takes one step.
#[derive(Drop)]
struct ThreeLines {
    turns: u64,
    wrong: bool,
    lines: u64,
}

impl Plan for ThreeLines {
    type Job = ();

    fn submit(&mut self, session: u32, line: u32) -> Answer {
        self.lines = self.lines.saturating_add(1);
        match (session, self.lines, line) {
            (0, 1, 3) | (0, 3, 8) => Answer::Moved,
            (0, 2, 5) => Answer::Done,
            _ => {
                self.wrong = true;
                Answer::Done
            }
        }
    }

    fn job(&mut self, _session: u32) -> Result<(), u8> {
        Ok(())
    }

    fn work(_job: &mut ()) {}

    fn step(&mut self, _session: u32, _job: ()) -> Answer {
        self.turns = self.turns.saturating_add(1);
        match self.turns {
            1 => Answer::Moved,
            2 => Answer::Stale,
            _ => Answer::Done,
        }
    }
}

/// Compares its calls with the steps that are wanted of session 0.
#[derive(Drop)]
struct Wanted {
    calls: AtomicU64,
    wrong: AtomicU64,
}

/// Each step comes twice: before its job is taken, and before it is handed back. The stale one doesn't count.
const WANTED: [u64; 8] = [0, 0, 1, 1, 1, 1, 2, 2];

impl Gate for Wanted {
    fn before(&self, session: u32, step: u64) {
        let at = count_one(&self.calls).saturating_sub(1);
        let wanted = match usize::try_from(at) {
            Ok(at) => WANTED.get(at).copied(),
            Err(_) => None,
        };
        if session != 0 || wanted != Some(step) {
            count_one(&self.wrong);
        }
    }
}

/// How many lines of each session were answered, whether each was ended, whether a line was wrong, and how many turns, calls of the gate
/// and wrong ones of these there were.
type Told = ([u64; 2], [bool; 2], bool, [u64; 3]);

/// `None` is want of memory.
fn three_lines<R: Threads + Wait + Sync>(rt: &R, alloc: Global) -> Option<Told> {
    let plan = ThreeLines {
        turns: 0,
        wrong: false,
        lines: 0,
    };
    let gate = Wanted {
        calls: AtomicU64::new(0),
        wrong: AtomicU64::new(0),
    };
    let lines = numbers(alloc, &[3, 5, 8]).ok()?;
    let outcome = run_plan(rt, plan, &gate, lines, numbers(alloc, &[]).ok()?);
    let calls = gate.calls.load(Ordering::SeqCst);
    let wrong = gate.wrong.load(Ordering::SeqCst);
    Some((
        outcome.done,
        outcome.ended,
        outcome.plan.wrong,
        [outcome.plan.turns, calls, wrong],
    ))
}

#[test]
fn a_gate_is_told_the_steps_that_were_made(rt: HostRuntime) {
    let found = three_lines(&rt, rt.alloc());
    assert_eq!(rt; found, Some(([3, 0], [false, false], false, [4, 8, 0])));
}

/// How often session 1 came to the gate, how many steps session 0 has made, and how many waits were too long.
#[derive(Drop)]
struct Counts {
    came: AtomicU64,
    made: AtomicU64,
    late: AtomicU64,
}

/// Session 0 has a line of two steps, and makes each once session 1 has come to the gate for it. Session 1 has a line of one step.
#[derive(Drop)]
struct InTurn<'a> {
    counts: &'a Counts,
    turns: u64,
}

impl<'a> Plan for InTurn<'a> {
    type Job = ();

    fn submit(&mut self, _session: u32, _line: u32) -> Answer {
        Answer::Moved
    }

    fn job(&mut self, _session: u32) -> Result<(), u8> {
        Ok(())
    }

    fn work(_job: &mut ()) {
        thread::yield_now();
    }

    fn step(&mut self, session: u32, _job: ()) -> Answer {
        if session == 1 {
            return Answer::Done;
        }
        let made = self.counts.made.load(Ordering::SeqCst);
        if self.counts.came.load(Ordering::SeqCst) > made {
            count_one(&self.counts.made);
            return if made == 0 {
                Answer::Moved
            } else {
                Answer::Done
            };
        }
        if self.turns >= STALE_TURNS {
            return Answer::Ended(7);
        }
        self.turns += 1;
        Answer::Stale
    }
}

/// Holds session 1 each time until session 0 has made a step more.
#[derive(Drop)]
struct HoldsSecond<'a> {
    counts: &'a Counts,
}

impl<'a> Gate for HoldsSecond<'a> {
    fn before(&self, session: u32, _step: u64) {
        if session == 1 {
            let came = count_one(&self.counts.came);
            if !await_count(&self.counts.made, came) {
                count_one(&self.counts.late);
            }
        }
    }
}

/// How many lines of each session were answered, whether each was ended, the status, and how often session 1 came to the gate and
/// waited too long there.
type Held = ([u64; 2], [bool; 2], Option<u8>, [u64; 2]);

/// `None` is want of memory.
fn in_turn<R: Threads + Wait + Sync>(rt: &R, alloc: Global) -> Option<Held> {
    let counts = Counts {
        came: AtomicU64::new(0),
        made: AtomicU64::new(0),
        late: AtomicU64::new(0),
    };
    let plan = InTurn {
        counts: &counts,
        turns: 0,
    };
    let gate = HoldsSecond { counts: &counts };
    let first = numbers(alloc, &[0]).ok()?;
    let outcome = run_plan(rt, plan, &gate, first, numbers(alloc, &[1]).ok()?);
    let came = counts.came.load(Ordering::SeqCst);
    let late = counts.late.load(Ordering::SeqCst);
    Some((outcome.done, outcome.ended, outcome.status, [came, late]))
}

#[test]
fn a_session_held_at_the_gate_holds_no_other(rt: HostRuntime) {
    let found = in_turn(&rt, rt.alloc());
    assert_eq!(rt; found, Some(([1, 1], [false, false], None, [2, 0])));
}
