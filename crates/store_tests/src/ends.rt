//! Workers that are ended, and workers that wait.

use crate::planned::{Answer, Plan};
use crate::run::{numbers, run_plan};
use crate::signal::{STALE_TURNS, count_one};
use io_traits::{Gate, OpenGate};
use std::alloc::Global;
use std::sync::Wait;
use std::sync::atomic::{AtomicU64, Ordering};
use std::thread;
use std::thread::Threads;

/// The call that an end comes of.
#[derive(Clone, Copy, PartialEq)]
enum Call {
    Submit,
    Job,
    Step,
}

/// Answers each line in one step, but ends at the third, with status 6.
#[derive(Drop)]
struct EndsThird {
    ends_at: Call,
    lines: u32,
}

impl EndsThird {
    fn ends(&self, call: Call) -> bool {
        self.lines == 3 && self.ends_at == call
    }
}

impl Plan for EndsThird {
    type Job = ();

    fn submit(&mut self, _session: u32, _line: u32) -> Answer {
        self.lines = self.lines.saturating_add(1);
        if self.ends(Call::Submit) {
            return Answer::Ended(6);
        }
        Answer::Moved
    }

    fn job(&mut self, _session: u32) -> Result<(), u8> {
        if self.ends(Call::Job) {
            return Err(6);
        }
        Ok(())
    }

    fn work(_job: &mut ()) {}

    fn step(&mut self, _session: u32, _job: ()) -> Answer {
        if self.ends(Call::Step) {
            return Answer::Ended(6);
        }
        Answer::Done
    }
}

/// How many lines of each session were answered, whether each was ended, the status, and how many lines were submitted.
type Ended = ([u64; 2], [bool; 2], Option<u8>, u32);

/// `None` is want of memory.
fn ended_at<R: Threads + Wait + Sync>(rt: &R, alloc: Global, ends_at: Call) -> Option<Ended> {
    let plan = EndsThird { ends_at, lines: 0 };
    let lines = numbers(alloc, &[4, 5, 6, 7]).ok()?;
    let outcome = run_plan(rt, plan, &OpenGate, lines, numbers(alloc, &[]).ok()?);
    Some((
        outcome.done,
        outcome.ended,
        outcome.status,
        outcome.plan.lines,
    ))
}

#[test]
fn a_worker_is_ended_at_the_third_line(rt: HostRuntime) {
    let found = [
        ended_at(&rt, rt.alloc(), Call::Submit),
        ended_at(&rt, rt.alloc(), Call::Job),
        ended_at(&rt, rt.alloc(), Call::Step),
    ];
    assert_eq!(rt; found, [Some(([2, 0], [true, false], Some(6), 3)); 3]);
}

/// What session 0 does once session 1 waits.
#[derive(Clone, Copy, PartialEq)]
enum Wakes {
    Moves,
    Answers,
    EndsAtJob,
    EndsAtStep,
}

/// Each session has one line. Session 1 is blocked until session 0 has made a step, and session 0 makes none before session 1 was
/// blocked. A step that only moves is followed by its answer once session 1 has its own.
#[derive(Drop)]
struct Waits {
    wakes: Wakes,
    blocked: bool,
    freed: bool,
    answered: bool,
    turns: u64,
}

impl Waits {
    /// A turn of session 0 without a step.
    fn wait(&mut self) -> Answer {
        if self.turns >= STALE_TURNS {
            return Answer::Ended(7);
        }
        self.turns += 1;
        Answer::Stale
    }

    /// The step of session 0 that session 1 waits for.
    fn wake(&mut self) -> Answer {
        self.freed = true;
        match self.wakes {
            Wakes::Moves => Answer::Moved,
            Wakes::Answers => Answer::Done,
            Wakes::EndsAtJob | Wakes::EndsAtStep => Answer::Ended(6),
        }
    }
}

impl Plan for Waits {
    type Job = ();

    fn submit(&mut self, _session: u32, _line: u32) -> Answer {
        Answer::Moved
    }

    fn job(&mut self, session: u32) -> Result<(), u8> {
        if session == 0 && self.blocked && self.wakes == Wakes::EndsAtJob {
            return Err(6);
        }
        Ok(())
    }

    fn work(_job: &mut ()) {
        thread::yield_now();
    }

    fn step(&mut self, session: u32, _job: ()) -> Answer {
        if session == 1 {
            if self.freed {
                self.answered = true;
                return Answer::Done;
            }
            self.blocked = true;
            return Answer::Blocked;
        }
        if self.freed && self.answered {
            return Answer::Done;
        }
        if !self.freed && self.blocked {
            return self.wake();
        }
        self.wait()
    }
}

/// Counts the calls for session 1, and those of them that aren't before its first step.
#[derive(Drop)]
struct BeforeFirst {
    calls: AtomicU64,
    wrong: AtomicU64,
}

impl Gate for BeforeFirst {
    fn before(&self, session: u32, step: u64) {
        if session == 1 {
            count_one(&self.calls);
            if step != 0 {
                count_one(&self.wrong);
            }
        }
    }
}

/// How many lines of each session were answered, whether each was ended, the status, and whether the gate was asked often enough for
/// session 1, and never for a later step.
type Woken = ([u64; 2], [bool; 2], Option<u8>, bool);

/// `None` is want of memory.
fn woken_by<R: Threads + Wait + Sync>(rt: &R, alloc: Global, wakes: Wakes) -> Option<Woken> {
    let plan = Waits {
        wakes,
        blocked: false,
        freed: false,
        answered: false,
        turns: 0,
    };
    let gate = BeforeFirst {
        calls: AtomicU64::new(0),
        wrong: AtomicU64::new(0),
    };
    let first = numbers(alloc, &[0]).ok()?;
    let outcome = run_plan(rt, plan, &gate, first, numbers(alloc, &[1]).ok()?);
    let calls = gate.calls.load(Ordering::SeqCst);
    let wrong = gate.wrong.load(Ordering::SeqCst);
    let is_asked = calls >= 3 && wrong == 0;
    Some((outcome.done, outcome.ended, outcome.status, is_asked))
}

#[test]
fn a_waiting_worker_is_woken(rt: HostRuntime) {
    let found = [
        woken_by(&rt, rt.alloc(), Wakes::Moves),
        woken_by(&rt, rt.alloc(), Wakes::Answers),
        woken_by(&rt, rt.alloc(), Wakes::EndsAtJob),
        woken_by(&rt, rt.alloc(), Wakes::EndsAtStep),
    ];
    let answered = Some(([1, 1], [false, false], None, true));
    let ended = Some(([0, 0], [true, true], Some(6), true));
    assert_eq!(rt; found, [answered, answered, ended, ended]);
}
