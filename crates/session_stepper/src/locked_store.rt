//! What lies behind the lock of the workers.

ghost use Rattle.std.specs.Prelude.{◌≡◌, ◌≤◌, ◌+◌, ◌↔◌, ◌<◌, ℕ, length, None, Some, IsTrue, IsSome, IsNone, IfErr, IfOk, IfSome};
ghost use Rattle.io_traits.specs.Turns.{count_done, count_ended};
ghost use Rattle.plain_script.specs.PlainScripts.{plain_script};
ghost use Rattle.script_run.specs.Script.{script_lines};
ghost use Rattle.session_stepper.specs.Calls.{IsAdvanced, IsSubmitted};
ghost use Rattle.session_stepper.specs.Locked.{HasEnded, IsKnown};
ghost use Rattle.session_stepper.specs.Beginning.{IsBegun, IsFresh, IsGiven};

use crate::ending::Ending;
use crate::names::Names;
use crate::said::Said;
use crate::transcribed_store::TranscribedStore;
use disk_trait::Disk;
use io_traits::{EmptyJob, Stepper, Turn};
use plain_script::ScriptLines;
use script_semantics::a_step_enters;
use session_core::Store;
use std::alloc::Global;
use std::marker::{Model, PhantomData};
use std::sync::ledger::{Book, Ledger, Share};
use store_layout::the_first_broken_rule_is_the_least;
use transcript_laws::{answers_are_in_place, schedules_are_transcripts};

/// The store of sessions with the script, the transcript and both books, behind the name of the call that made it. Its first book counts the entries of the transcript,
/// its second the calls that were answered Ended.
#[derive(Drop)]
pub struct LockedStore<N: Names, D: Disk + Drop, L: Ledger, E: Ledger> {
    kept: TranscribedStore<D>,
    answers: Book<L>,
    ends: Book<E>,
    of: PhantomData<N>,
}

impl<N: Names, D: Disk + Drop, L: Ledger, E: Ledger> Model for LockedStore<N, D, L, E> {
    ghost use Rattle.std.specs.Prelude.{IsTrue};
    ghost use Rattle.plain_script.specs.PlainScripts.{plain_script};
    ghost use Rattle.script_run.specs.Script.{script_lines};
    ghost use Rattle.session_stepper.specs.Locked.{IsLocked, IsWatchedSomewhere, LockedState};
    ghost use Rattle.session_stepper.specs.StateCode.{coded_locked};

    ghost Value = { LockedState D };

    ghost coded = { coded_locked D.code };

    ghost view = { λ a. record { kept = a.kept; ends = a.ends.total } };

    ghost invariant = { λ a. IsLocked D.told N.faults a.answers.total (record { kept = a.kept; ends = a.ends.total })
        × (IsTrue N.honest → IsWatchedSomewhere D.told N.opening N.layout (plain_script N.layout.schema (script_lines N.script)) a.kept) };
}

impl<N: Names, D: Disk + Drop, L: Ledger, E: Ledger> LockedStore<N, D, L, E> {
    /// Before the first line, over a store that was opened and a script that was read for its tables; the sessions are made here. `Err` is want of memory, with the disk as
    /// it is.
    pub fn new(
        alloc: Global,
        store: Store<D>,
        script: ScriptLines,
        answers: Book<L>,
        ends: Book<E>,
    ) -> Result<LockedStore<N, D, L, E>, D>
        requires fresh { IsFresh store script }
        requires faults { N.faults ≤ (D.told store.pages.disk).faults }
        requires given { IsTrue N.honest → IsGiven D.told N.opening N.layout (plain_script N.layout.schema (script_lines N.script)) store script.script }
        requires books { (answers.total ≡ 0) × (ends.total ≡ 0) }
        ensures ok { IfOk result (λ s. IsBegun D.told store script s.kept × (s.ends ≡ 0)) }
        ensures err { IfErr result (λ disk. disk ≡ store.pages.disk) }
    {
        let kept = match TranscribedStore::new(alloc, store, script) {
            Ok(kept) => kept,
            Err(disk) => return Err(disk),
        };
        Ok(LockedStore {
            kept,
            answers,
            ends,
            of: PhantomData,
        })
    }

    /// What holds whenever the lock is taken. Does nothing.
    pub fn known(&self)
        ensures none { IsNone self.now.kept.ended ↔ (self.now.ends ≡ 0) }
        ensures cause { IfSome self.now.kept.ended (HasEnded D.told N.faults self.now.kept.store) }
        // Where the name is honest the transcript is right and tells the journal's replies, and each image has the table to which it leads, or that with a commit in hand where
        // all ended.
        ensures watched { IsTrue N.honest → IsKnown D.told N.opening N.layout (plain_script N.layout.schema (script_lines N.script)) self.now.kept }
    {
        let layout = self.kept.layout();
        layout.known();
        the_first_broken_rule_is_the_least(layout.schema(), layout.sizes());
        a_step_enters();
        answers_are_in_place();
        schedules_are_transcripts();
        self.kept.known();
    }

    /// Submits the line of that number.
    pub fn submit_line(
        &mut self,
        session: u32,
        line: u32,
        share: &mut Share<L>,
        end: &mut Share<E>,
    ) -> Turn
        requires share { 0 < share.old.parts }
        requires end { 0 < end.old.parts }
        ensures submitted { IsSubmitted D.told self.old.kept self.new.kept session line result }
        ensures answers { length self.new.kept.said ≡ length self.old.kept.said + count_done result }
        ensures share { share.new.amount ≡ share.old.amount + count_done result }
        ensures ends { self.new.ends ≡ self.old.ends + count_ended result }
        ensures end { end.new.amount ≡ end.old.amount + count_ended result }
        ensures parts { (share.new.parts ≡ share.old.parts) × (end.new.parts ≡ end.old.parts) }
        ensures over { 0 < self.old.ends → result ≡ Turn.Ended }
        ensures status { IsSome self.old.kept.ended → self.new.kept.ended ≡ self.old.kept.ended }
    {
        let turn = self.kept.submit(session, line);
        count(turn, &mut self.answers, &mut self.ends, share, end);
        turn
    }

    /// Makes one step of the line that the session has in hand.
    pub fn advance(&mut self, session: u32, share: &mut Share<L>, end: &mut Share<E>) -> Turn
        requires share { 0 < share.old.parts }
        requires end { 0 < end.old.parts }
        ensures advanced { IsAdvanced D.told self.old.kept self.new.kept session result }
        ensures answers { length self.new.kept.said ≡ length self.old.kept.said + count_done result }
        ensures share { share.new.amount ≡ share.old.amount + count_done result }
        ensures ends { self.new.ends ≡ self.old.ends + count_ended result }
        ensures end { end.new.amount ≡ end.old.amount + count_ended result }
        ensures parts { (share.new.parts ≡ share.old.parts) × (end.new.parts ≡ end.old.parts) }
        ensures over { 0 < self.old.ends → result ≡ Turn.Ended }
        ensures status { IsSome self.old.kept.ended → self.new.kept.ended ≡ self.old.kept.ended }
    {
        let turn = self.kept.step(session);
        count(turn, &mut self.answers, &mut self.ends, share, end);
        turn
    }

    /// Where the share has all parts of the first book, it counts the transcript.
    pub fn audit(&mut self, share: &mut Share<L>)
        requires { share.old.parts ≡ L.parts }
        ensures said { length self.new.kept.said ≡ share.new.amount }
        ensures same { self.new ≡ self.old }
        ensures share { (share.new.amount ≡ share.old.amount) × (share.new.parts ≡ share.old.parts) }
    {
        self.answers.audit(share);
    }

    /// Where the share has all parts of the second book, it counts the calls that were answered Ended.
    pub fn audit_ends(&mut self, end: &mut Share<E>)
        requires { end.old.parts ≡ E.parts }
        ensures ends { self.new.ends ≡ end.new.amount }
        ensures same { self.new ≡ self.old }
        ensures end { (end.new.amount ≡ end.old.amount) × (end.new.parts ≡ end.old.parts) }
    {
        self.ends.audit(end);
    }

    /// The disk as it is, the script, the transcript, and why no more lines were answered, where it ended. Makes no device call.
    pub fn into_parts(self) -> (D, ScriptLines, Vec<Said>, Option<Ending>)
        ensures disk { result.0 ≡ self.kept.store.pages.disk }
        ensures script { result.1 ≡ self.kept.script }
        ensures said { result.2.items ≡ self.kept.said }
        ensures ended { result.3 ≡ self.kept.ended }
    {
        self.kept.into_parts()
    }
}

impl<N: Names, D: Disk + Drop, L: Ledger, E: Ledger> Stepper<L, E> for LockedStore<N, D, L, E> {
    ghost use Rattle.std.specs.Prelude.{length};
    ghost use Rattle.session_stepper.specs.Statuses.{status_in};

    type Job = EmptyJob;

    ghost answers = { λ s. length s.kept.said };

    ghost ends = { λ s. s.ends };

    ghost status = { λ s. status_in s.kept.ended };

    ghost is_worked = { λ job. job };

    fn take_line(
        &mut self,
        session: u32,
        line: u32,
        share: &mut Share<L>,
        end: &mut Share<E>,
    ) -> Turn {
        self.submit_line(session, line, share, end)
    }

    fn take(&mut self, _session: u32, end: &mut Share<E>) -> Option<EmptyJob> {
        if self.kept.ended().is_some() {
            self.ends.add(end, 1);
            return None;
        }
        Some(EmptyJob::new())
    }

    fn work(job: &mut EmptyJob) {
        job.work();
    }

    fn turn(
        &mut self,
        session: u32,
        _job: EmptyJob,
        share: &mut Share<L>,
        end: &mut Share<E>,
    ) -> Turn {
        self.advance(session, share, end)
    }

    fn status(&self) -> Option<u8> {
        match self.kept.ended() {
            Some(ending) => Some(ending.status()),
            None => None,
        }
    }
}

/// Adds a call's answer to the books.
fn count<L: Ledger, E: Ledger>(
    turn: Turn,
    answers: &mut Book<L>,
    ends: &mut Book<E>,
    share: &mut Share<L>,
    end: &mut Share<E>,
)
    requires share { 0 < share.old.parts }
    requires end { 0 < end.old.parts }
    ensures answers { answers.new.total ≡ answers.old.total + count_done turn }
    ensures ends { ends.new.total ≡ ends.old.total + count_ended turn }
    ensures share { share.new.amount ≡ share.old.amount + count_done turn }
    ensures end { end.new.amount ≡ end.old.amount + count_ended turn }
    ensures parts { (share.new.parts ≡ share.old.parts) × (end.new.parts ≡ end.old.parts) }
{
    match turn {
        Turn::Done => answers.add(share, 1),
        Turn::Ended => ends.add(end, 1),
        Turn::Moved | Turn::Blocked | Turn::Stale => {}
    }
}

/// It may stand behind a lock that threads share where its parts may go to another thread. Does nothing: it compiles only where that is so.
pub fn a_locked_store_goes_to_threads<
    N: Names + Send,
    D: Disk + Send + Drop,
    L: Ledger + Send,
    E: Ledger + Send,
>(store: &LockedStore<N, D, L, E>) {
    in_threads(store);
}

fn in_threads<T: Send>(_value: &T) {}
