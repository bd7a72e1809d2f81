//! The lines behind the last round.

ghost use Rattle.std.specs.Prelude.{◌≡◌, ◌≤◌, IfOk, IfErr};
ghost use Rattle.demo_script.specs.Conversation.{Says, last_lines, selects};
ghost use Rattle.demo_script.specs.Saying.{HasFound, HasLooked, IsCut};

use crate::answer::Answerer;
use crate::heard::say;
use crate::lines::{make_explain, make_select};
use crate::round::say_all;
use script_run::AnswerFault;

const PREPARES: [&[u8]; 3] = [b"m summarize di", b"m vacuum d", b"d0 begin"];

/// How many rows each of the four selects found, and how many blocks the explain named.
#[derive(Clone, Copy)]
pub struct Looks {
    pub found: [u64; 4],
    pub read: u64,
}

/// Says the last lines. Those that are made of numbers are made in `line`.
pub fn say_last<A: Answerer>(
    answerer: &mut A,
    line: &mut String,
    rows: u32,
) -> Result<Looks, AnswerFault>
    requires { rows ≤ 200000 }
    ensures said { IfOk result (λ looks. HasLooked A.answers rows answerer.old answerer.new looks.found looks.read) }
    ensures cut { IfErr result (IsCut A.answers A.stops (Says (last_lines rows)) answerer.old answerer.new) }
{
    say_all(answerer, &PREPARES)?;
    let found = select_all(answerer, line, rows)?;
    make_explain(line, rows)?;
    let explained = say(answerer, line.as_bytes())?;
    say(answerer, b"d0 commit")?;
    Ok(Looks {
        found,
        read: explained.read,
    })
}

/// Says the selects, and counts what each finds.
fn select_all<A: Answerer>(
    answerer: &mut A,
    line: &mut String,
    rows: u32,
) -> Result<[u64; 4], AnswerFault>
    requires { rows ≤ 200000 }
    ensures said { IfOk result (HasFound A.answers rows answerer.old answerer.new) }
    ensures cut { IfErr result (IsCut A.answers A.stops (Says (selects rows)) answerer.old answerer.new) }
{
    make_select(line, rows)?;
    let first = say(answerer, line.as_bytes())?;
    let second = say(answerer, b"d0 select d where v = 7")?;
    let third = say(answerer, b"d0 select d where r @> [500,501)")?;
    let fourth = say(answerer, b"d0 select d where a = 10.0.0.7")?;
    Ok([first.found, second.found, third.found, fourth.found])
}
