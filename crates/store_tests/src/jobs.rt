//! Jobs that wait for other threads.

use crate::planned::{Answer, Plan};
use crate::run::{numbers, run_plan};
use crate::signal::{await_count, count_one};
use io_traits::{Gate, OpenGate};
use std::alloc::Global;
use std::sync::Wait;
use std::sync::atomic::{AtomicU64, Ordering};
use std::thread::Threads;

/// What the jobs share: a flag of session 0, one of session 1, and how many waits were too long.
#[derive(Drop)]
struct Flags {
    first: AtomicU64,
    second: AtomicU64,
    late: AtomicU64,
}

impl Flags {
    fn new() -> Flags {
        Flags {
            first: AtomicU64::new(0),
            second: AtomicU64::new(0),
            late: AtomicU64::new(0),
        }
    }

    /// Waits for a flag.
    fn await_flag(&self, flag: &AtomicU64) {
        if !await_count(flag, 1) {
            count_one(&self.late);
        }
    }
}

/// Each session has one line of one step. The job of session 0 sets the first flag and waits for the second. The step of session 1
/// sets the second, or its job does where the jobs meet; that one then waits for the first.
#[derive(Drop)]
struct Meeting<'a> {
    flags: &'a Flags,
    jobs_meet: bool,
}

#[derive(Drop)]
struct MeetingJob<'a> {
    flags: &'a Flags,
    session: u32,
    meets: bool,
}

impl<'a> Plan for Meeting<'a> {
    type Job = MeetingJob<'a>;

    fn submit(&mut self, _session: u32, _line: u32) -> Answer {
        Answer::Moved
    }

    fn job(&mut self, session: u32) -> Result<MeetingJob<'a>, u8> {
        Ok(MeetingJob {
            flags: self.flags,
            session,
            meets: session == 0 || self.jobs_meet,
        })
    }

    fn work(job: &mut MeetingJob<'a>) {
        let flags = job.flags;
        if !job.meets {
            return;
        }
        if job.session == 0 {
            count_one(&flags.first);
            flags.await_flag(&flags.second);
        } else {
            count_one(&flags.second);
            flags.await_flag(&flags.first);
        }
    }

    fn step(&mut self, session: u32, _job: MeetingJob<'a>) -> Answer {
        if session == 1 && !self.jobs_meet {
            count_one(&self.flags.second);
        }
        Answer::Done
    }
}

/// Holds session 1 before its first step until the first flag is set.
#[derive(Drop)]
struct AfterFirst<'a> {
    flags: &'a Flags,
}

impl<'a> Gate for AfterFirst<'a> {
    fn before(&self, session: u32, step: u64) {
        if session == 1 && step == 0 {
            self.flags.await_flag(&self.flags.first);
        }
    }
}

/// How many lines of each session were answered, whether each was ended, and how many waits were too long.
type Meetings = ([u64; 2], [bool; 2], u64);

/// What became of a plan with those flags. `None` is want of memory.
fn met<G: Gate + Sync, R: Threads + Wait + Sync>(
    rt: &R,
    alloc: Global,
    flags: &Flags,
    jobs_meet: bool,
    gate: &G,
) -> Option<Meetings> {
    let plan = Meeting { flags, jobs_meet };
    let first = numbers(alloc, &[0]).ok()?;
    let outcome = run_plan(rt, plan, gate, first, numbers(alloc, &[1]).ok()?);
    let late = flags.late.load(Ordering::SeqCst);
    Some((outcome.done, outcome.ended, late))
}

#[test]
fn lock_is_free_while_a_job_works(rt: HostRuntime) {
    let flags = Flags::new();
    let gate = AfterFirst { flags: &flags };
    let found = met(&rt, rt.alloc(), &flags, false, &gate);
    assert_eq!(rt; found, Some(([1, 1], [false, false], 0)));
}

#[test]
fn jobs_of_two_sessions_meet(rt: HostRuntime) {
    let flags = Flags::new();
    let found = met(&rt, rt.alloc(), &flags, true, &OpenGate);
    assert_eq!(rt; found, Some(([1, 1], [false, false], 0)));
}
