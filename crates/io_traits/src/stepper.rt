//! What a worker sees of a store behind a lock.

ghost use Rattle.std.specs.Prelude.{◌≡◌, ◌<◌, ◌+◌, ◌↔◌, ℕ, Bool, true, false, IsSome, IsNone, IfSome};
ghost use Rattle.std.specs.declared.option.Option.{Option};
ghost use Rattle.io_traits.specs.Turns.{count_done, count_ended, count_none};

use std::sync::ledger::{Ledger, Share};

/// What a call of a `Stepper` came to.
#[derive(Clone, Copy, Debug, PartialEq, Eq)]
pub enum Turn {
    /// The line is in hand, or a step of it was made. It isn't answered yet.
    Moved,
    /// The line is answered.
    Done,
    /// The step waits for another session. None was made.
    Blocked,
    /// No more lines are answered.
    Ended,
    /// What the job copied has changed since. No step was made.
    Stale,
}

/// Takes lines of sessions and makes their steps, one call at a time. A step has three parts: a job is taken, worked, and
/// handed back. It keeps two books: of the answers Done, and of the answers Ended, a job that isn't given among them.
pub trait Stepper<L: Ledger, E: Ledger> {
    /// What of a step is done without the Stepper.
    type Job: Send;

    /// The total of the first book: how many lines were answered.
    ghost answers: { Self → ℕ };
    /// The total of the second book: how many calls answered Ended.
    ghost ends: { Self → ℕ };
    /// The status that it ended with, where it has.
    ghost status: { Self → Option ℕ };
    /// Whether a job was worked.
    ghost is_worked: { Self.Job → Bool };

    /// Submits the line of that number.
    fn take_line(
        &mut self,
        session: u32,
        line: u32,
        share: &mut Share<L>,
        end: &mut Share<E>,
    ) -> Turn
        requires share { 0 < share.old.parts }
        requires end { 0 < end.old.parts }
        ensures answers { answers self.new ≡ answers self.old + count_done result }
        ensures share { share.new.amount ≡ share.old.amount + count_done result }
        ensures ends { ends self.new ≡ ends self.old + count_ended result }
        ensures end { end.new.amount ≡ end.old.amount + count_ended result }
        ensures parts { (share.new.parts ≡ share.old.parts) × (end.new.parts ≡ end.old.parts) }
        ensures over { 0 < ends self.old → result ≡ Turn.Ended }
        ensures status { IsSome (status self.old) → status self.new ≡ status self.old };

    /// Gives the job of the session's next step, which isn't worked yet. None counts as an Ended.
    fn take(&mut self, session: u32, end: &mut Share<E>) -> Option<Self::Job>
        requires end { 0 < end.old.parts }
        ensures job { IfSome result (λ job. is_worked job ≡ false) }
        ensures answers { answers self.new ≡ answers self.old }
        ensures ends { ends self.new ≡ ends self.old + count_none result }
        ensures end { end.new.amount ≡ end.old.amount + count_none result }
        ensures parts { end.new.parts ≡ end.old.parts }
        ensures over { 0 < ends self.old → IsNone result }
        ensures status { IsSome (status self.old) → status self.new ≡ status self.old };

    /// Works a job.
    fn work(job: &mut Self::Job)
        ensures { is_worked job.new ≡ true };

    /// Makes the session's next step with its job, which was worked.
    fn turn(
        &mut self,
        session: u32,
        job: Self::Job,
        share: &mut Share<L>,
        end: &mut Share<E>,
    ) -> Turn
        requires worked { is_worked job ≡ true }
        requires share { 0 < share.old.parts }
        requires end { 0 < end.old.parts }
        ensures answers { answers self.new ≡ answers self.old + count_done result }
        ensures share { share.new.amount ≡ share.old.amount + count_done result }
        ensures ends { ends self.new ≡ ends self.old + count_ended result }
        ensures end { end.new.amount ≡ end.old.amount + count_ended result }
        ensures parts { (share.new.parts ≡ share.old.parts) × (end.new.parts ≡ end.old.parts) }
        ensures over { 0 < ends self.old → result ≡ Turn.Ended }
        ensures status { IsSome (status self.old) → status self.new ≡ status self.old };

    /// The status that it ended with. None comes exactly where no call has answered Ended.
    fn status(&self) -> Option<u8>
        ensures status { result ≡ status self.now }
        ensures none { IsNone result ↔ (ends self.now ≡ 0) };
}
