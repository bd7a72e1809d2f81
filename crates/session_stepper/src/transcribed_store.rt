//! A store of sessions with the script of their lines and the transcript of their answers.

ghost use Rattle.std.specs.Prelude.{◌≡◌, [], IfOk, IfErr, OnOk};
ghost use Rattle.plain_script.specs.PlainScripts.{HasItsSessions};
ghost use Rattle.transcript_laws.specs.ScheduleLaws.{FitsSchema};
ghost use Rattle.session_stepper.specs.TranscribedState.{lines_in};
ghost use Rattle.session_stepper.specs.Calls.{IsAdvanced, IsSubmitted};
ghost use Rattle.session_stepper.specs.Beginning.{HasAllSessions, IsBegun, IsFresh};

use crate::ending::Ending;
use crate::keeping::{keep_reply, line_in_hand, told_by_idle};
use crate::said::Said;
use block_model::{NoMemory, Reply};
use demo_script::Answer;
use disk_trait::Disk;
use io_traits::Turn;
use plain_script::ScriptLines;
use session_core::Store;
use session_orders::step;
use std::alloc::Global;
use std::marker::Model;
use store_layout::Layout;

/// A store of sessions, and what they said so far: seen as the store, the script with the statements that are still held, the transcript, by session the line in hand, and
/// why no more lines are answered.
#[derive(Drop)]
pub(crate) struct TranscribedStore<D: Disk + Drop> {
    alloc: Global,
    store: Store<D>,
    script: ScriptLines,
    said: Vec<Said>,
    /// By session: how many of its lines were told.
    counts: Vec<u64>,
    /// By session: the number of the line that it has in hand.
    in_hand: Vec<Option<u32>>,
    ended: Option<Ending>,
}

impl<D: Disk + Drop> Model for TranscribedStore<D> {
    ghost use Rattle.session_stepper.specs.StateCode.{coded_transcribed};
    ghost use Rattle.session_stepper.specs.TranscribedState.{TranscribedState};
    ghost use Rattle.session_stepper.specs.Transcribed.{IsTranscribed};

    ghost Value = { TranscribedState D };

    ghost coded = { coded_transcribed D.code };

    ghost view = { λ a. record { store = a.store; script = a.script; said = a.said.items; in_hand = a.in_hand.items; ended = a.ended } };

    ghost invariant = { λ a. IsTranscribed (record { store = a.store; script = a.script; said = a.said.items; in_hand = a.in_hand.items; ended = a.ended }) a.counts.items };
}

impl<D: Disk + Drop> TranscribedStore<D> {
    /// Before the first line, over a store that was opened and a script for its tables; the sessions are made here. `Err` is want of memory, with the disk as it is.
    pub(crate) fn new(
        alloc: Global,
        store: Store<D>,
        script: ScriptLines,
    ) -> Result<TranscribedStore<D>, D>
        requires { IsFresh store script }
        ensures ok { IfOk result (IsBegun D.told store script) }
        ensures err { IfErr result (λ disk. disk ≡ store.pages.disk) }
    {
        let mut store = store;
        let Ok(()) = make_sessions(&mut store, &script) else {
            return Err(store.into_disk());
        };
        let Ok(counts) = vec![in alloc; 0u64; script.sessions()] else {
            return Err(store.into_disk());
        };
        let Ok(in_hand) = vec![in alloc; None; script.sessions()] else {
            return Err(store.into_disk());
        };
        Ok(TranscribedStore {
            alloc,
            store,
            script,
            said: Vec::new(alloc),
            counts,
            in_hand,
            ended: None,
        })
    }

    /// Submits the line of that number, which is to be the session's next one.
    #[tactic(none)]
    pub(crate) fn submit(&mut self, session: u32, number: u32) -> Turn
        ensures { IsSubmitted D.told self.old self.new session number result }
    {
        if self.ended.is_some() {
            return Turn::Ended;
        }
        let Some(count) = told_by_idle(self.counts.as_slice(), self.in_hand.as_slice(), session)
        else {
            self.ended = Some(Ending::OutOfPlace);
            return Turn::Ended;
        };
        let Some(statement) = self.script.take(session, number, count) else {
            self.ended = Some(Ending::OutOfPlace);
            return Turn::Ended;
        };
        match self.store.submit(session, statement) {
            Ok(()) => {
                self.in_hand[session as usize] = Some(number);
                Turn::Moved
            }
            Err(refusal) => {
                let name = self.store.name_of(session);
                let reply = Reply::Refused(refusal);
                let Ok(()) = keep_reply(
                    self.alloc,
                    &mut self.said,
                    &mut self.counts,
                    session,
                    number,
                    &name,
                    &[],
                    &reply,
                ) else {
                    self.ended = Some(Ending::Memory);
                    return Turn::Ended;
                };
                Turn::Done
            }
        }
    }

    /// Makes one step of the line that the session has in hand.
    #[tactic(none)]
    pub(crate) fn step(&mut self, session: u32) -> Turn
        ensures { IsAdvanced D.told self.old self.new session result }
    {
        if self.ended.is_some() {
            return Turn::Ended;
        }
        let Some(number) = line_in_hand(self.in_hand.as_slice(), session) else {
            self.ended = Some(Ending::OutOfPlace);
            return Turn::Ended;
        };
        match step(&mut self.store, session) {
            Ok(Answer::Moved(_)) => Turn::Moved,
            Ok(Answer::Refused(_)) => Turn::Blocked,
            Ok(Answer::Ended(reply)) => {
                let name = self.store.name_of(session);
                let Ok(()) = keep_reply(
                    self.alloc,
                    &mut self.said,
                    &mut self.counts,
                    session,
                    number,
                    &name,
                    self.store.dropped(session),
                    &reply,
                ) else {
                    self.ended = Some(Ending::Memory);
                    return Turn::Ended;
                };
                self.in_hand[session as usize] = None;
                Turn::Done
            }
            Ok(Answer::Started) => unreachable!(),
            Err(fault) => {
                self.ended = Some(Ending::of(fault));
                Turn::Ended
            }
        }
    }

    /// The tables, indexes and sizes.
    pub(crate) fn layout(&self) -> &Layout
        ensures { result.now ≡ self.now.store.pages.layout }
    {
        self.store.layout()
    }

    /// Does nothing; tells its caller that the script's lines are for these tables.
    pub(crate) fn known(&self)
        ensures { FitsSchema self.now.store.pages.layout.schema (lines_in self.now) }
    {
        let _ = &self.said;
    }

    /// Why no more lines are answered, where it ended.
    pub(crate) fn ended(&self) -> Option<Ending>
        ensures { result ≡ self.now.ended }
    {
        self.ended
    }

    /// The disk, the script, the transcript, and why it ended.
    pub(crate) fn into_parts(self) -> (D, ScriptLines, Vec<Said>, Option<Ending>)
        ensures disk { result.0 ≡ self.store.pages.disk }
        ensures script { result.1 ≡ self.script }
        ensures said { result.2.items ≡ self.said }
        ensures ended { result.3 ≡ self.ended }
    {
        let ended = self.ended;
        (self.store.into_disk(), self.script, self.said, ended)
    }
}

/// Makes a session of each name of the script, in a store that has none. After a refusal some are made.
fn make_sessions<D: Disk + Drop>(store: &mut Store<D>, script: &ScriptLines) -> Result<(), NoMemory>
    requires none { (store.old.names ≡ []) × (store.old.hands ≡ []) }
    requires sessions { HasItsSessions script.now.script }
    ensures ok { OnOk result (HasAllSessions D.told store.old store.new script.now.script.names) }
    ensures pages { store.new.pages ≡ store.old.pages }
{
    'names: for session in 0..script.sessions() as u32 {
        let Ok(_) = store.session(script.name(session)) else {
            return Err(NoMemory);
        };
    }
    Ok(())
}
