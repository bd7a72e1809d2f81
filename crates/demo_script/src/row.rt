//! One row: a session inserts it, and the keeper steps on.

ghost use Rattle.std.specs.Prelude.{◌≡◌, ◌≤◌, IfOk, IfErr};
ghost use Rattle.demo_script.specs.Conversation.{IsRow, Puts, StepsOn};
ghost use Rattle.demo_script.specs.Saying.{IsCut, IsSaid, LeavesKeeper};

use crate::answer::Answerer;
use crate::heard::say;
use crate::lines::{make_finish, make_insert};
use script_run::AnswerFault;

/// What a part of the conversation leaves: whether the keeper has a statement in hand, and how many rows were inserted.
#[derive(Clone, Copy)]
pub struct Ending {
    pub busy: bool,
    pub rows: u64,
}

/// Puts a row, and has the keeper step on. Each line is made in `line`.
pub fn say_row<A: Answerer>(
    answerer: &mut A,
    line: &mut String,
    seed: u32,
    row: u32,
    busy: bool,
) -> Result<Ending, AnswerFault>
    requires seed { seed ≤ 1000000 }
    requires row { row ≤ 200000 }
    ensures said { IfOk result (λ end. IsSaid A.answers (λ said. IsRow seed row busy said end.busy) answerer.old answerer.new end.rows) }
    ensures few { IfOk result (λ end. end.rows ≤ 4) }
    ensures cut { IfErr result (IsCut A.answers A.stops (LeavesKeeper (IsRow seed row busy)) answerer.old answerer.new) }
{
    let put = put_row(answerer, line, seed, row, busy)?;
    let stepped = step_keeper(answerer, put.busy)?;
    Ok(Ending {
        busy: stepped.busy,
        rows: put.rows + stepped.rows,
    })
}

/// Inserts a row. An insert that is blocked is followed by the finish of the keeper's statement, and then by its own.
fn put_row<A: Answerer>(
    answerer: &mut A,
    line: &mut String,
    seed: u32,
    row: u32,
    busy: bool,
) -> Result<Ending, AnswerFault>
    requires seed { seed ≤ 1000000 }
    requires row { row ≤ 200000 }
    ensures said { IfOk result (λ end. IsSaid A.answers (λ said. Puts seed row busy said end.busy) answerer.old answerer.new end.rows) }
    ensures few { IfOk result (λ end. end.rows ≤ 3) }
    ensures cut { IfErr result (IsCut A.answers A.stops (LeavesKeeper (Puts seed row busy)) answerer.old answerer.new) }
{
    make_insert(line, seed, row)?;
    let first = say(answerer, line.as_bytes())?;
    if !first.blocked {
        return Ok(Ending {
            busy,
            rows: first.rows,
        });
    }
    let kept = say(answerer, b"m finish")?;
    make_finish(line, row)?;
    let own = say(answerer, line.as_bytes())?;
    Ok(Ending {
        busy: kept.busy,
        rows: first.rows + kept.rows + own.rows,
    })
}

/// Has the keeper make a step, where it has a statement in hand.
fn step_keeper<A: Answerer>(answerer: &mut A, busy: bool) -> Result<Ending, AnswerFault>
    ensures said { IfOk result (λ end. IsSaid A.answers (λ said. StepsOn busy said end.busy) answerer.old answerer.new end.rows) }
    ensures few { IfOk result (λ end. end.rows ≤ 1) }
    ensures cut { IfErr result (IsCut A.answers A.stops (LeavesKeeper (StepsOn busy)) answerer.old answerer.new) }
{
    if !busy {
        return Ok(Ending { busy, rows: 0 });
    }
    let heard = say(answerer, b"m step")?;
    Ok(Ending {
        busy: heard.busy,
        rows: heard.rows,
    })
}
