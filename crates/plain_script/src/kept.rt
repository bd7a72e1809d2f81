//! The sessions and the lines of a script, as they are kept.

ghost use Rattle.std.specs.Prelude.{◌≡◌, ℕ, ◌≤◌, ◌<◌, ◌+◌, [], ◌∷◌, ◌++◌, IfOk, OnOk, OnErr, length};
ghost use Rattle.store_layout.specs.SessionNumbers.{session_number, with_session};
ghost use Rattle.store_layout.specs.declared.limits.TheConstants.{MAX_SESSIONS};
ghost use Rattle.plain_script.specs.KeptLines.{AreCounted, TakesOut, count_kept, lines_kept, names_kept, next_kept};
ghost use Rattle.plain_script.specs.SessionLines.{numbers_of};

use block_model::{Name, NoMemory, Numbers};
use std::alloc::Global;
use store_layout::Statement;

/// A session: its name, and how many lines it has.
#[derive(Clone, Copy, Debug)]
pub struct ScriptSession {
    pub name: Name,
    pub lines: u64,
}

/// A line: its session, how many lines of the session stand before it, and its statement until it is taken out.
#[derive(Debug, Drop)]
pub struct ScriptLine {
    pub session: u32,
    pub rank: u64,
    pub statement: Option<Statement>,
}

/// The number of the session of that name, or the next number where it is new.
pub(crate) fn number_of(sessions: &[ScriptSession], name: &Name) -> usize
    ensures is { result ≡ session_number (names_kept sessions.now) name.now }
    ensures within { result ≤ length sessions.now }
{
    'sessions: for (i, session) in sessions.iter().enumerate() {
        if session.name.as_bytes() == name.as_bytes() {
            return i;
        }
    }
    sessions.len()
}

/// The session of that number and name is there.
pub(crate) fn make_session(
    sessions: &mut Vec<ScriptSession>,
    name: Name,
    number: usize,
) -> Result<(), NoMemory>
    requires number { number ≡ session_number (names_kept sessions.old.items) name }
    requires within { number ≤ length sessions.old.items }
    ensures names { OnOk result (names_kept sessions.new.items ≡ with_session (names_kept sessions.old.items) name) }
    ensures there { OnOk result (number < length sessions.new.items) }
    ensures counts { (n : ℕ) → count_kept sessions.new.items n ≡ count_kept sessions.old.items n }
    ensures err { OnErr result (sessions.new.items ≡ sessions.old.items) }
{
    if number < sessions.len() {
        return Ok(());
    }
    sessions.push(ScriptSession { name, lines: 0 })?;
    Ok(())
}

/// Keeps a line of a session behind the others. After a refusal nothing is changed.
pub(crate) fn keep_line(
    sessions: &mut [ScriptSession],
    lines: &mut Vec<ScriptLine>,
    number: usize,
    statement: Statement,
) -> Result<(), NoMemory>
    requires there { number < length sessions.old }
    requires few { number < MAX_SESSIONS }
    requires counted { AreCounted sessions.old lines.old.items }
    ensures lines { OnOk result (lines.new.items ≡ lines.old.items ++ next_kept lines.old.items number statement ∷ []) }
    ensures counted { AreCounted sessions.new lines.new.items }
    ensures names { names_kept sessions.new ≡ names_kept sessions.old }
    ensures err { OnErr result (lines.new.items ≡ lines.old.items) }
{
    let rank = sessions[number].lines;
    lines.push(ScriptLine {
        session: number as u32,
        rank,
        statement: Some(statement),
    })?;
    sessions[number].lines = one_more(rank, lines.len());
    Ok(())
}

/// One more, of no more than there are.
fn one_more(count: u64, many: usize) -> u64
    requires { count < many }
    ensures { result ≡ count + 1 }
{
    count + 1
}

/// The numbers of a session's lines, in their order.
pub(crate) fn numbers_of(
    alloc: Global,
    lines: &[ScriptLine],
    session: u32,
) -> Result<Numbers, NoMemory>
    ensures { IfOk result (λ numbers. numbers ≡ numbers_of session (lines_kept lines.now)) }
{
    let mut numbers = Numbers::new(alloc);
    'lines: for (i, line) in lines.iter().enumerate() {
        if line.session == session {
            numbers.push(i as u64)?;
        }
    }
    Ok(numbers)
}

/// Takes the statement out of the line of that number, where it is that session's, of that rank and still there.
pub(crate) fn take_out(
    lines: &mut [ScriptLine],
    session: u32,
    number: usize,
    rank: u64,
) -> Option<Statement>
    ensures { TakesOut lines.old lines.new session number rank result }
{
    if number >= lines.len() {
        return None;
    }
    let line = &mut lines[number];
    if line.session != session {
        return None;
    }
    if line.rank != rank {
        return None;
    }
    line.statement.take()
}
