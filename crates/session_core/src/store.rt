//! The store of sessions.

ghost use Rattle.std.specs.Prelude.{◌≡◌, ◌≤◌, ◌<◌, ℕ, [], length, slice_index_or, None, Err, IfOk, IfErr, IfSome, IsTrue, MatchResult, OnOk, OnErr, IsSome};
ghost use Rattle.std.specs.Option.{is_some};
ghost use Rattle.store_layout.specs.StatementFits.{IsStatementFor};
ghost use Rattle.recovery.specs.Opens.{OpensAs};
ghost use Rattle.recovery.specs.StartCauses.{HasStore};
ghost use Rattle.recovery.specs.Untouched.{IsUntouched, KeepsFront};
ghost use Rattle.page_store.specs.Refused.{IsRefused};
ghost use Rattle.page_map.specs.Keeps.{Leaves, Tells};
ghost use Rattle.session_starts.specs.FreshPages.{fresh_pages};
ghost use Rattle.script_semantics.specs.LineTexts.{Submits, dropped_at, named};
ghost use Rattle.script_semantics.specs.Place.{Place};
ghost use Rattle.session_parts.specs.ShowsPlace.{ShowsPlace};
ghost use Rattle.session_parts.specs.StepAnswers.{HasFaultCause, StaysReady};
ghost use Rattle.session_parts.specs.StepIs.{LeadsOn, StepIs};
ghost use Rattle.session_parts.specs.StoreStates.{hand_at};
ghost use Rattle.session_starts.specs.OpenedParts.{ShowsStart};
ghost use Rattle.session_starts.specs.Started.{HoldsImage, ImagesStay, OpensTable};
ghost use Rattle.session_starts.specs.StopRule.{AllHaveTable, StopsWhole};
ghost use Rattle.session_core.specs.Ending.{EndsSoon};
ghost use Rattle.session_core.specs.Sessions.{HasSession, IsInHandThen, IsSameStatement, LeavesTheRest, NamesASession, StaysStill, TellsJournal, WaitsForAnother, refusal_in};
ghost use Rattle.session_starts.specs.Stops.{StopsSo};
ghost use Rattle.session_core.specs.Submitting.{IsJudged, IsTakenUp, refusal_here};

use crate::faults::SessionFault;
use crate::laws::laws_of_sessions;
use crate::sessions::{Session, add_session, has_hand, known_hand, number_of};
use crate::steps::step_of;
use crate::submitting::{block_refusal, standing_refusal, take_up};
use block_model::{Name, Refusal};
use disk_trait::Disk;
use heap_rows::blocks;
use recovery::StartFault;
use reply_texts::Dropped;
use script_semantics::shown_tables_are_bounded;
use session_parts::{EntryReader, Parts, Step, StoreFault, fault_of, few_locks_are_held};
use session_starts::{a_step_stops_whole, start_parts};
use std::alloc::Global;
use std::marker::Model;
use store_layout::{Layout, MAX_SESSIONS, Statement};

/// A store of sessions over pages on a disk.
#[derive(Drop)]
pub struct Store<D: Disk + Drop> {
    parts: Parts<D>,
    /// The sessions by their numbers.
    sessions: Vec<Session>,
}

impl<D: Disk + Drop> Model for Store<D> {
    ghost use Rattle.session_parts.specs.StoreStates.{StoreState, store_of};
    ghost use Rattle.session_core.specs.SessionLists.{hands_of, names_of, slots_of};
    ghost use Rattle.session_core.specs.StoreCode.{coded_store};
    ghost use Rattle.session_core.specs.StoreKept.{IsStoreKept};

    ghost Value = { StoreState D };

    ghost coded = { coded_store D.code };

    ghost view = { λ a. store_of a.parts (names_of a.sessions.items) (hands_of a.sessions.items) };

    ghost invariant = { λ a. IsStoreKept D.told (store_of a.parts (names_of a.sessions.items) (hands_of a.sessions.items)) (slots_of a.sessions.items) };
}

impl<D: Disk + Drop> Store<D> {
    /// Opens the store on the disk: it replays the log, reads the statuses, and has no sessions. A transaction that was under way at a stop counts as rolled
    /// back. `NoStore` exactly where the control page isn't a store's, or the disk hasn't its size; `Damaged` where a frame or a page that was read isn't of its
    /// form, or breaks the order of pages, at that byte of the disk; `Disk` where the disk failed in this call; `Memory` is want of memory. The disk comes back
    /// with each. A disk that tells its contents holds bytes that a stop of a store left, or ones that don't open; bytes that anybody else wrote are for a disk
    /// that doesn't tell them, as `FileDisk`: each call is safe then.
    pub fn start(alloc: Global, disk: D) -> Result<Store<D>, (StartFault, D)>
        requires image { HoldsImage (D.told disk) }
        ensures there { IfOk result (λ store. IsTrue (D.told disk).tells_contents → HasStore store.pages.layout (D.told disk).size (D.told disk).contents) }
        ensures pages { IfOk result (λ store. IsTrue (D.told disk).tells_contents → OpensAs store.pages.layout (D.told disk).contents store.pages.pages) }
        ensures tells { IfOk result (λ store. (D.told store.pages.disk).tells_contents ≡ (D.told disk).tells_contents) }
        ensures later { IfOk result (λ store. (D.told disk).faults ≤ (D.told store.pages.disk).faults) }
        // The table that the pages have, whatever statements a stop came amid.
        ensures opens { IfOk result (OpensTable D.told) }
        // Of a new store, whose tables are new as well.
        ensures starts { IfOk result (λ store. Tells D.told store.pages → store.pages.pages ≡ fresh_pages store.pages.layout → ShowsStart store.pages.layout store) }
        ensures ready { IfOk result (λ store. store.pages.failed ≡ None) }
        ensures fresh { IfOk result (λ store. (store.names ≡ []) × (store.hands ≡ []) × (store.journal.entries ≡ [])) }
        // At every moment, also of a call that refuses.
        ensures any_moment { MatchResult result (λ store. ImagesStay (D.told disk) (D.told store.pages.disk)) (λ e. ImagesStay (D.told disk) (D.told e.1)) }
        // Where no store is there, nothing was written.
        ensures untouched { IfErr result (λ e. e.0 ≡ StartFault.NoStore → IsUntouched (D.told disk) (D.told e.1)) }
        // Of a damaged store only pages were written back.
        ensures front { IfErr result (λ e. (at : ℕ) → e.0 ≡ StartFault.Damaged at → IsTrue (D.told disk).tells_contents → KeepsFront (D.told disk) (D.told e.1)) }
        ensures refused { IfErr result (λ e. IsRefused (D.told disk) (D.told e.1) e.0) }
    {
        let parts = start_parts(alloc, disk)?;
        let sessions = Vec::new(alloc);
        Ok(Store { parts, sessions })
    }

    /// Does nothing; tells its caller what every store shows where its disk tells its contents and no disk fault was kept.
    pub fn known(&self)
        ensures shown { Tells D.told self.now.pages → self.now.pages.failed ≡ None → (p : Place) × ShowsPlace self.now p }
    {
        // The toolchain opens the invariant where a field is read.
        let _ = &self.parts;
    }

    /// Does nothing; tells its caller that the statement that the session has in hand comes to its reply, or to a step that waits, behind few steps.
    pub fn known_to_end(&self, session: u32)
        requires { session < length self.now.names }
        ensures { EndsSoon D.told self.now session }
    {
        shown_tables_are_bounded();
        self.parts.pages.known();
        self.parts.pages.layout().known();
        known_hand(self.sessions.as_slice(), session);
    }

    /// The tables, indexes and sizes.
    pub fn layout(&self) -> &Layout
        ensures { result.now ≡ self.now.pages.layout }
    {
        self.parts.pages.layout()
    }

    /// The number of the session of that name, from 0 in the order in which they were made; it is made where it is new. `Limit`
    /// comes exactly where it would be one more than there may be. After a refusal nothing is changed.
    pub fn session(&mut self, name: Name) -> Result<u32, SessionFault>
        ensures named { HasSession self.old name self.new result }
        ensures places { IfOk result (λ n. LeadsOn D.told self.old self.new (λ p q. q ≡ named p name)) }
    {
        laws_of_sessions(&self.parts);
        let number = number_of(self.sessions.as_slice(), &name);
        if number >= MAX_SESSIONS {
            return Err(SessionFault::Limit {
                limit: MAX_SESSIONS as u64,
            });
        }
        if number == self.sessions.len() {
            let Ok(()) = add_session(&mut self.sessions, name) else {
                return Err(SessionFault::Memory);
            };
        }
        Ok(number as u32)
    }

    /// Takes a statement of the session, whose steps do it then. It is refused where one is in hand, where its block isn't below the greatest
    /// number of blocks, or where its transaction doesn't allow it; a begin, an explain and maintenance also for want of memory. Nothing is
    /// changed then.
    pub fn submit(&mut self, session: u32, statement: Statement) -> Result<(), Refusal>
        requires session { session < length self.old.names }
        requires statement { IsStatementFor self.old.pages.layout.schema statement }
        ensures submits { LeadsOn D.told self.old self.new (λ p q. Submits p session statement (refusal_in result) q) }
        ensures pages { self.new.pages ≡ self.old.pages }
        ensures names { self.new.names ≡ self.old.names }
        ensures same { OnErr result (self.new ≡ self.old) }
        ensures in_hand { OnOk result (IsSome (hand_at self.new session)) }
        ensures judged { IsJudged self.old session statement result }
        ensures taken { OnOk result (IsTakenUp self.old self.new session statement) }
    {
        laws_of_sessions(&self.parts);
        if let Some(refusal) = self.refusal(session, &statement) {
            return Err(refusal);
        }
        let own = &mut self.sessions[session as usize];
        let Ok(()) = take_up(&mut self.parts, &mut own.slot, statement) else {
            return Err(Refusal::Memory);
        };
        self.parts.dropped.clear(session);
        Ok(())
    }

    /// Makes one step of the statement that the session has in hand. `Spent` comes exactly where the requests that it would enter don't
    /// all fit into the journal, that of a refusal for want of memory among them; nothing is changed then, nor where it is blocked. Where a page is refused the statement stays in hand too. `Disk` comes where
    /// the disk failed in this step; each step behind it is `Reopen`, changes nothing and makes no device call.
    pub fn step(&mut self, session: u32) -> Result<Step, StoreFault>
        requires { IsSome (hand_at self.old session) }
        ensures steps { LeadsOn D.told self.old self.new (λ p q. StepIs p session result q) }
        ensures hand { IsInHandThen result (hand_at self.new session) }
        ensures holder { IfOk result (NamesASession (length self.old.names)) }
        ensures waits { IfOk result (WaitsForAnother self.old session) }
        ensures names { self.new.names ≡ self.old.names }
        ensures others { LeavesTheRest D.told self.old self.new session }
        ensures statement { IsSameStatement (hand_at self.old session) (hand_at self.new session) }
        ensures still { StaysStill D.told self.old self.new result }
        ensures survives { IfSome (hand_at self.old session) (λ hand. StopsSo D.told self.old.transactions session self.old.pages self.new.pages hand result) }
        ensures leaves { Leaves D.told self.old.pages self.new.pages }
        ensures journal { OnErr result (self.new.journal.entries ≡ self.old.journal.entries) }
        ensures ready { OnOk result (StaysReady self.old.pages self.new.pages) }
        ensures cause { IfErr result (HasFaultCause D.told self.old.pages self.new.pages) }
        ensures journal_told { IfErr result (TellsJournal self.old (hand_at self.old session)) }
        ensures reopen { IfSome self.old.pages.failed (λ faults. (result ≡ Err (StoreFault.Reopen faults)) × (self.new ≡ self.old)) }
        // At every moment each image has the table of the journal, or that with the commit in hand; once that is answered each has it.
        ensures stops { (p : Place) → ShowsPlace self.old p → AllHaveTable D.told self.old.pages p → StopsWhole D.told self.old self.new p session result }
    {
        a_step_stops_whole::<D>();
        match self.parts.pages.ready() {
            Ok(()) => self.step_ready(session),
            Err(error) => Err(fault_of(error)),
        }
    }

    /// The step of a store in which no disk fault was kept.
    fn step_ready(&mut self, session: u32) -> Result<Step, StoreFault>
        requires ready { self.old.pages.failed ≡ None }
        requires hand { IsSome (hand_at self.old session) }
        ensures steps { LeadsOn D.told self.old self.new (λ p q. StepIs p session result q) }
        ensures hand { IsInHandThen result (hand_at self.new session) }
        ensures holder { IfOk result (NamesASession (length self.old.names)) }
        ensures waits { IfOk result (WaitsForAnother self.old session) }
        ensures names { self.new.names ≡ self.old.names }
        ensures others { LeavesTheRest D.told self.old self.new session }
        ensures statement { IsSameStatement (hand_at self.old session) (hand_at self.new session) }
        ensures still { StaysStill D.told self.old self.new result }
        ensures survives { IfSome (hand_at self.old session) (λ hand. StopsSo D.told self.old.transactions session self.old.pages self.new.pages hand result) }
        ensures leaves { Leaves D.told self.old.pages self.new.pages }
        ensures journal { OnErr result (self.new.journal.entries ≡ self.old.journal.entries) }
        ensures ready { OnOk result (StaysReady self.old.pages self.new.pages) }
        ensures cause { IfErr result (HasFaultCause D.told self.old.pages self.new.pages) }
        ensures journal_told { IfErr result (TellsJournal self.old (hand_at self.old session)) }
    {
        laws_of_sessions(&self.parts);
        few_locks_are_held(&self.parts.locks);
        let own = &mut self.sessions[session as usize];
        let parts = &mut self.parts;
        step_of(parts, session, &mut own.slot)
    }

    /// Whether the session has a statement in hand.
    pub fn in_hand(&self, session: u32) -> bool
        requires { session < length self.now.names }
        ensures { result ≡ is_some (hand_at self.now session) }
    {
        has_hand(self.sessions.as_slice(), session)
    }

    /// The session's name.
    pub fn name_of(&self, session: u32) -> Name
        requires { session < length self.now.names }
        ensures { result ≡ slice_index_or self.now.names session [] }
    {
        self.sessions[session as usize].name
    }

    /// The summaries for which the session's last statement asked in vain, so far.
    pub fn dropped(&self, session: u32) -> &[Dropped]
        requires { session < length self.now.names }
        ensures { (p : Place) → ShowsPlace self.now p → result.now ≡ dropped_at p session }
    {
        self.parts.dropped.of(session)
    }

    /// How many blocks of the table are started.
    pub fn block_count(&self, table: u8) -> u32
        requires { table < length self.now.pages.layout.schema.tables }
        ensures { Tells D.told self.now.pages → (p : Place) → ShowsPlace self.now p → result ≡ (p.tables table).blocks }
    {
        blocks(&self.parts.pages, table)
    }

    /// Reads the requests of all statements so far, in their order. Only tests ask for them.
    pub fn journal(&self) -> EntryReader<'_>
        ensures { result ≡ self.now.journal.entries }
    {
        self.parts.journal.reader()
    }

    /// The disk, as it is: open transactions are dropped as by a stop. Makes no device call.
    pub fn into_disk(self) -> D
        ensures { result ≡ self.pages.disk }
    {
        self.parts.pages.into_disk()
    }

    /// Why a statement of the session isn't taken.
    fn refusal(&self, session: u32, statement: &Statement) -> Option<Refusal>
        requires { session < length self.now.names }
        ensures { result ≡ refusal_here self.now session statement.now }
    {
        if has_hand(self.sessions.as_slice(), session) {
            return Some(Refusal::InHand);
        }
        if let Some(refusal) = block_refusal(self.parts.pages.layout(), statement) {
            return Some(refusal);
        }
        standing_refusal(self.parts.transactions.standing(session), statement)
    }
}
