//! What gathers the lines of a script as they are read.

ghost use Rattle.std.specs.Prelude.{◌≡◌, ◌++◌, [], OnOk, Ok, Err, IfErr};
ghost use Rattle.store_layout.specs.StatementFits.{IsStatementFor};
ghost use Rattle.query_words.specs.LineRefusals.{refusal_of};
ghost use Rattle.plain_script.specs.PlainScripts.{no_lines, with_line};

use crate::kept::{ScriptLine, ScriptSession, keep_line, make_session, number_of};
use crate::plain_line::{PlainLine, read_plain_line};
use crate::script_lines::ScriptLines;
use block_model::{Name, Refusal, Reply};
use query_words::LineFault;
use reply_texts::{render, render_refusal};
use script_run::{AnswerFault, Engine};
use std::alloc::Global;
use std::marker::Model;
use store_layout::{Layout, MAX_SESSIONS, Statement};

/// The sessions, the workers' lines and the texts of all other lines so far. Seen as the script that they are, and the tables that are declared.
#[derive(Drop)]
pub(crate) struct Gatherer<'a> {
    alloc: Global,
    layout: &'a Layout,
    sessions: Vec<ScriptSession>,
    lines: Vec<ScriptLine>,
    unread: Vec<u8>,
}

impl<'a> Model for Gatherer<'a> {
    ghost use Rattle.plain_script.specs.Gathering.{Gathered, IsGathered, script_kept};

    ghost Value = { Gathered };

    ghost view = { λ s. record { schema = s.layout.now.schema; script = script_kept s.sessions.items s.lines.items s.unread.items } };

    ghost invariant = { λ s. IsGathered s.layout.now.schema s.sessions.items s.lines.items };
}

impl<'a> Engine for Gatherer<'a> {
    ghost use Rattle.plain_script.specs.Gathering.{Gathers, LacksMemory};

    ghost answers = { Gathers };

    ghost stops = { LacksMemory };

    fn answer(&mut self, line: &[u8], _out: &mut Vec<u8>) -> Result<(), AnswerFault> {
        match read_plain_line(self.alloc, line, self.layout) {
            Ok(read) => self.gather(read),
            Err(fault) => self.refuse(fault),
        }
    }
}

impl<'a> Gatherer<'a> {
    ghost use Rattle.plain_script.specs.HeldScripts.{held_whole};
    ghost use Rattle.plain_script.specs.Gathering.{AreFor, LacksMemory};
    ghost use Rattle.plain_script.specs.PlainLines.{IsPlainLineFor};
    ghost use Rattle.plain_script.specs.declared.plain_line.PlainLine.TheVariants as plain;

    /// No line so far. Takes no memory.
    pub fn new(alloc: Global, layout: &'a Layout) -> Gatherer<'a>
        ensures { result ≡ record { schema = layout.now.schema; script = no_lines } }
    {
        Gatherer {
            alloc,
            layout,
            sessions: Vec::new(alloc),
            lines: Vec::new(alloc),
            unread: Vec::new(alloc),
        }
    }

    /// The script of the lines so far.
    pub fn into_lines(self) -> ScriptLines
        ensures whole { result ≡ held_whole self.entry.script }
        ensures fit { AreFor self.entry.schema self.entry.script.lines }
    {
        let Gatherer {
            alloc: _,
            layout: _,
            sessions,
            lines,
            unread,
        } = self;
        ScriptLines::new(sessions, lines, unread)
    }

    /// Keeps what a line says.
    fn gather(&mut self, read: PlainLine) -> Result<(), AnswerFault>
        requires { IsPlainLineFor self.old.schema read }
        ensures ok { OnOk result (self.new ≡ record self.old { script = with_line self.old.script (Ok read) }) }
        ensures stops { IfErr result (λ fault. LacksMemory self.old [] fault self.new) }
    {
        match read {
            PlainLine::Nothing => Ok(()),
            PlainLine::Say { session, statement } => self.keep(session, statement),
        }
    }

    /// Keeps a line of the session of that name, or the text of its refusal where there are as many sessions as there may be.
    fn keep(&mut self, name: Name, statement: Statement) -> Result<(), AnswerFault>
        requires { IsStatementFor self.old.schema statement }
        ensures ok { OnOk result (self.new ≡ record self.old { script = with_line self.old.script (Ok (plain.Say name statement)) }) }
        ensures stops { IfErr result (λ fault. LacksMemory self.old [] fault self.new) }
    {
        let number = number_of(self.sessions.as_slice(), &name);
        if number >= MAX_SESSIONS {
            let limit = MAX_SESSIONS as u64;
            let reply = Reply::Refused(Refusal::Limit { limit });
            render(&name, &reply, &mut self.unread)?;
            return Ok(());
        }
        make_session(&mut self.sessions, name, number)?;
        keep_line(
            self.sessions.as_mut_slice(),
            &mut self.lines,
            number,
            statement,
        )?;
        Ok(())
    }

    /// Keeps the text of a line that isn't read.
    fn refuse(&mut self, fault: LineFault) -> Result<(), AnswerFault>
        ensures ok { OnOk result (self.new ≡ record self.old { script = with_line self.old.script (Err fault) }) }
        ensures read { OnOk result (fault ≡ LineFault.Memory → ⊥) }
        ensures stops { IfErr result (λ fault. LacksMemory self.old [] fault self.new) }
    {
        let Some(refusal) = fault.refusal() else {
            return Err(AnswerFault::Memory);
        };
        render_refusal(&refusal, &mut self.unread)?;
        Ok(())
    }
}
