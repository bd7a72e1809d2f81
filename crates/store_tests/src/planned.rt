//! A Stepper in memory.

ghost use Rattle.std.specs.Prelude.{◌≡◌, ◌<◌, ◌+◌, ◌↔◌, true, false, IsSome, IsNone};
ghost use Rattle.io_traits.specs.Turns.{count_done, count_ended, count_none};

use io_traits::{Stepper, Turn};
use std::marker::Model;
use std::sync::ledger::{Book, Ledger, Share};

/// What a plan answers. It ends with a status.
#[derive(Clone, Copy)]
pub enum Answer {
    Moved,
    Done,
    Blocked,
    Stale,
    Ended(u8),
}

/// What a Stepper in memory does. Its books are kept for it.
pub trait Plan {
    type Job: Send + Drop;

    /// Takes a line of a session.
    fn submit(&mut self, session: u32, line: u32) -> Answer;

    /// Gives the job of a session's next step.
    fn job(&mut self, session: u32) -> Result<Self::Job, u8>;

    /// Works a job.
    fn work(job: &mut Self::Job);

    /// Makes a session's next step.
    fn step(&mut self, session: u32, job: Self::Job) -> Answer;
}

/// A plan's job, with whether it was worked.
#[derive(Drop)]
pub struct PlannedJob<J> {
    pub job: J,
    pub worked: bool,
}

/// A plan, with its books.
#[derive(Drop)]
pub struct Planned<P: Plan, L: Ledger, E: Ledger> {
    plan: P,
    answers: Book<L>,
    ends: Book<E>,
    status: Option<u8>,
}

impl<P: Plan, L: Ledger, E: Ledger> Model for Planned<P, L, E> {
    ghost use Rattle.std.specs.Prelude.{◌≡◌, ◌↔◌, IsNone};
    ghost use Rattle.store_tests.specs.Books.{Books};

    ghost Value = { Books };

    ghost view = { λ s. record { answers = s.answers.total; ends = s.ends.total; status = s.status } };

    ghost invariant = { λ s. IsNone s.status ↔ (s.ends.total ≡ 0) };
}

impl<P: Plan, L: Ledger, E: Ledger> Planned<P, L, E> {
    /// A plan whose books are empty.
    pub fn new(plan: P, answers: Book<L>, ends: Book<E>) -> Planned<P, L, E>
        requires answers { answers.total ≡ 0 }
        requires ends { ends.total ≡ 0 }
    {
        Planned {
            plan,
            answers,
            ends,
            status: None,
        }
    }

    /// The plan alone.
    pub fn into_plan(self) -> P {
        let Planned {
            plan,
            answers: _,
            ends: _,
            status: _,
        } = self;
        plan
    }
}

impl<P: Plan, L: Ledger, E: Ledger> Stepper<L, E> for Planned<P, L, E> {
    type Job = PlannedJob<P::Job>;

    ghost answers = { λ s. s.answers };

    ghost ends = { λ s. s.ends };

    ghost status = { λ s. s.status };

    ghost is_worked = { λ job. job.worked };

    fn take_line(
        &mut self,
        session: u32,
        line: u32,
        share: &mut Share<L>,
        end: &mut Share<E>,
    ) -> Turn {
        if let Some(code) = self.status {
            enter_end(&mut self.ends, &mut self.status, code, end);
            return Turn::Ended;
        }
        let answer = self.plan.submit(session, line);
        enter(
            &mut self.answers,
            &mut self.ends,
            &mut self.status,
            answer,
            share,
            end,
        )
    }

    fn take(&mut self, session: u32, end: &mut Share<E>) -> Option<PlannedJob<P::Job>> {
        if let Some(code) = self.status {
            enter_end(&mut self.ends, &mut self.status, code, end);
            return None;
        }
        match self.plan.job(session) {
            Ok(job) => Some(PlannedJob { job, worked: false }),
            Err(code) => {
                enter_end(&mut self.ends, &mut self.status, code, end);
                None
            }
        }
    }

    fn work(job: &mut PlannedJob<P::Job>) {
        P::work(&mut job.job);
        job.worked = true;
    }

    fn turn(
        &mut self,
        session: u32,
        job: PlannedJob<P::Job>,
        share: &mut Share<L>,
        end: &mut Share<E>,
    ) -> Turn {
        let PlannedJob { job, worked: _ } = job;
        if let Some(code) = self.status {
            enter_end(&mut self.ends, &mut self.status, code, end);
            return Turn::Ended;
        }
        let answer = self.plan.step(session, job);
        enter(
            &mut self.answers,
            &mut self.ends,
            &mut self.status,
            answer,
            share,
            end,
        )
    }

    fn status(&self) -> Option<u8> {
        self.status
    }
}

/// Enters an answer into the books.
fn enter<L: Ledger, E: Ledger>(
    answers: &mut Book<L>,
    ends: &mut Book<E>,
    status: &mut Option<u8>,
    answer: Answer,
    share: &mut Share<L>,
    end: &mut Share<E>,
) -> Turn
    requires share { 0 < share.old.parts }
    requires end { 0 < end.old.parts }
    requires status { IsNone status.old ↔ (ends.old.total ≡ 0) }
    ensures answers { answers.new.total ≡ answers.old.total + count_done result }
    ensures share { share.new.amount ≡ share.old.amount + count_done result }
    ensures ends { ends.new.total ≡ ends.old.total + count_ended result }
    ensures end { end.new.amount ≡ end.old.amount + count_ended result }
    ensures parts { (share.new.parts ≡ share.old.parts) × (end.new.parts ≡ end.old.parts) }
    ensures status { IsSome status.old → status.new ≡ status.old }
    ensures none { IsNone status.new ↔ (ends.new.total ≡ 0) }
{
    match answer {
        Answer::Moved => Turn::Moved,
        Answer::Blocked => Turn::Blocked,
        Answer::Stale => Turn::Stale,
        Answer::Done => {
            answers.add(share, 1);
            Turn::Done
        }
        Answer::Ended(code) => {
            enter_end(ends, status, code, end);
            Turn::Ended
        }
    }
}

/// Enters an Ended into its book. The first one's status stays.
fn enter_end<E: Ledger>(ends: &mut Book<E>, status: &mut Option<u8>, code: u8, end: &mut Share<E>)
    requires { 0 < end.old.parts }
    ensures ends { ends.new.total ≡ ends.old.total + 1 }
    ensures end { end.new.amount ≡ end.old.amount + 1 }
    ensures parts { end.new.parts ≡ end.old.parts }
    ensures status { IsSome status.old → status.new ≡ status.old }
    ensures some { IsSome status.new }
{
    ends.add(end, 1);
    if status.is_none() {
        *status = Some(code);
    }
}
