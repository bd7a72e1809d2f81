//! The calls that a worker makes of a Stepper, each under the lock for no longer than the call.

ghost use Rattle.std.specs.Prelude.{◌≡◌, ◌<◌, ◌+◌};
ghost use Rattle.io_traits.specs.Turns.{count_done, count_ended};

use io_traits::{Gate, Stepper, Turn};
use std::sync::ledger::{Ledger, Share};
use std::sync::{Condvar, Mutex, Wait};

/// Where workers submit lines and make steps. It is a trait for the sake of `run_all`: a closure that names a Stepper, whose
/// jobs are of an associated type, gets no proof there.
pub trait Place<L: Ledger, E: Ledger> {
    /// Submits a line.
    fn submit(&self, session: u32, line: u32, share: &mut Share<L>, end: &mut Share<E>) -> Turn
        requires share { 0 < share.old.parts }
        requires end { 0 < end.old.parts }
        ensures share { share.new.amount ≡ share.old.amount + count_done result }
        ensures end { end.new.amount ≡ end.old.amount + count_ended result }
        ensures parts { (share.new.parts ≡ share.old.parts) × (end.new.parts ≡ end.old.parts) };

    /// Makes a step, and waits where it is blocked. It counts the steps that were made.
    fn step(&self, session: u32, steps: &mut u64, share: &mut Share<L>, end: &mut Share<E>) -> Turn
        requires share { 0 < share.old.parts }
        requires end { 0 < end.old.parts }
        ensures share { share.new.amount ≡ share.old.amount + count_done result }
        ensures end { end.new.amount ≡ end.old.amount + count_ended result }
        ensures parts { (share.new.parts ≡ share.old.parts) × (end.new.parts ≡ end.old.parts) };
}

/// A Stepper behind its lock, with its bell and its gate.
#[derive(Drop)]
pub struct Floor<'a, R: Wait, S, G> {
    pub rt: &'a R,
    pub store: &'a Mutex<S>,
    pub bell: &'a Condvar,
    pub gate: &'a G,
}

impl<'a, L: Ledger, E: Ledger, R: Wait, S: Stepper<L, E>, G: Gate> Place<L, E>
    for Floor<'a, R, S, G> {
    fn submit(&self, session: u32, line: u32, share: &mut Share<L>, end: &mut Share<E>) -> Turn {
        let turn = self
            .store
            .lock(self.rt)
            .take_line(session, line, share, end);
        if turn == Turn::Ended {
            self.bell.notify_all();
        }
        turn
    }

    // The type would let `work` be called with the guard in hand, and no clause refuses it: tests do.
    fn step(
        &self,
        session: u32,
        steps: &mut u64,
        share: &mut Share<L>,
        end: &mut Share<E>,
    ) -> Turn {
        self.gate.before(session, *steps);
        let taken = self.store.lock(self.rt).take(session, end);
        let Some(mut job) = taken else {
            self.bell.notify_all();
            return Turn::Ended;
        };
        S::work(&mut job);
        self.gate.before(session, *steps);
        let mut guard = self.store.lock(self.rt);
        let turn = guard.turn(session, job, share, end);
        match turn {
            Turn::Moved | Turn::Done => {
                *steps = steps.saturating_add(1);
                self.bell.notify_all();
            }
            Turn::Ended => self.bell.notify_all(),
            Turn::Blocked => {
                let _guard = self.bell.wait(self.rt, guard);
            }
            Turn::Stale => {}
        }
        turn
    }
}
