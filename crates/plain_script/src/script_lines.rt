//! A script that is held by session.

ghost use Rattle.std.specs.Prelude.{◌≡◌, ◌<◌, ◌++◌, IfOk, IfSome, IfNone, length, slice_get, slice_set, Some, true, false, if◌then◌else◌};
ghost use Rattle.std.specs.Option.{is_some};

use crate::kept::{ScriptLine, ScriptSession, numbers_of, take_out};
use block_model::{Name, NoMemory, Numbers};
use std::alloc::Global;
use std::marker::Model;
use std::snapshot::Snapshot;
use store_layout::Statement;

/// A script that was read whole, by session: seen as what it says, and of which of its lines the statement is still there.
#[derive(Drop)]
pub struct ScriptLines {
    sessions: Vec<ScriptSession>,
    lines: Vec<ScriptLine>,
    unread: Vec<u8>,
    /// The lines as they were read.
    whole: Snapshot<Vec<ScriptLine>>,
}

impl Model for ScriptLines {
    ghost use Rattle.plain_script.specs.HeldScripts.{HeldScript};
    ghost use Rattle.plain_script.specs.KeptLines.{IsHeld};
    ghost use Rattle.plain_script.specs.Gathering.{held_script};

    ghost Value = { HeldScript };

    ghost view = { λ s. held_script s.sessions.items s.whole.value.items s.lines.items s.unread.items };

    ghost invariant = { λ s. IsHeld s.whole.value.items s.lines.items };
}

impl ScriptLines {
    ghost use Rattle.plain_script.specs.HeldScripts.{IsLineOf, held_whole};
    ghost use Rattle.plain_script.specs.KeptLines.{AreRead};
    ghost use Rattle.plain_script.specs.Gathering.{script_kept};
    ghost use Rattle.plain_script.specs.SessionLines.{numbers_of};
    ghost use Rattle.store_layout.specs.declared.statement.Statement.{Statement as OneStatement};

    /// What was read, with all of its statements. Takes no memory.
    pub(crate) fn new(
        sessions: Vec<ScriptSession>,
        lines: Vec<ScriptLine>,
        unread: Vec<u8>,
    ) -> ScriptLines
        requires { AreRead lines.items }
        ensures { result ≡ held_whole (script_kept sessions.items lines.items unread.items) }
    {
        let whole = Snapshot::of(&lines);
        ScriptLines {
            sessions,
            lines,
            unread,
            whole,
        }
    }

    /// How many sessions there are.
    pub fn sessions(&self) -> usize
        ensures { result ≡ length self.now.script.names }
    {
        self.sessions.len()
    }

    /// The name of the session of that number.
    pub fn name(&self, session: u32) -> Name
        requires { session < length self.now.script.names }
        ensures { slice_get self.now.script.names session ≡ Some result }
    {
        let sessions = &self.sessions;
        sessions[session as usize].name
    }

    /// How many lines the workers have.
    pub fn lines(&self) -> usize
        ensures { result ≡ length self.now.script.lines }
    {
        self.lines.len()
    }

    /// The texts of the lines that no worker has.
    pub fn unread(&self) -> &[u8]
        ensures { result.now ≡ self.now.script.unread }
    {
        self.unread.as_slice()
    }

    /// The numbers of a session's lines, in their order.
    pub fn lines_of_session(&self, alloc: Global, session: u32) -> Result<Numbers, NoMemory>
        ensures { IfOk result (λ numbers. numbers ≡ numbers_of session self.now.script.lines) }
    {
        numbers_of(alloc, self.lines.as_slice(), session)
    }

    /// Takes the statement out of the line of that number, where it is that session's, as many of the session's lines stand before it as
    /// `rank` says, and the statement is still there. Takes no memory.
    pub fn take(&mut self, session: u32, number: u32, rank: u64) -> Option<Statement>
        ensures script { self.new.script ≡ self.old.script }
        ensures taken { IfSome result (λ statement. IsLineOf self.old.script.lines session number rank statement) }
        ensures there { IfSome result (λ _. slice_get self.old.held number ≡ Some true) }
        ensures held { self.new.held ≡ (if is_some result then slice_set self.old.held number false else self.old.held) }
        ensures none { IfNone result ((statement : OneStatement) → IsLineOf self.old.script.lines session number rank statement → slice_get self.old.held number ≡ Some false) }
    {
        take_out(self.lines.as_mut_slice(), session, number as usize, rank)
    }
}
