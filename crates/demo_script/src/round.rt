//! Rounds of 400 rows.

ghost use Rattle.std.specs.Prelude.{◌≡◌, ◌+◌, ◌*◌, ◌≤◌, ◌<◌, IfOk, IfErr, length, map};
ghost use Rattle.demo_script.specs.Conversation.{AreRounds, AreRows, Closes, IsRound, Opens, Says, rounds_of};
ghost use Rattle.demo_script.specs.Saying.{IsCut, IsSaid, LeavesKeeper};

use crate::answer::Answerer;
use crate::heard::say;
use crate::row::{Ending, say_row};
use script_run::AnswerFault;

/// The rows of a round.
const ROUND_ROWS: u32 = 400;

const BEGINS: [&[u8]; 4] = [b"d0 begin", b"d1 begin", b"d2 begin", b"d3 begin"];

const COMMITS: [&[u8]; 4] = [b"d0 commit", b"d1 commit", b"d2 commit", b"d3 commit"];

/// Says all rounds, and counts the rows that are inserted. Each line of a row is made in `line`.
pub fn say_rounds<A: Answerer>(
    answerer: &mut A,
    line: &mut String,
    seed: u32,
    rows: u32,
) -> Result<u64, AnswerFault>
    requires seed { seed ≤ 1000000 }
    requires rows { rows ≤ 200000 }
    ensures said { IfOk result (IsSaid A.answers (AreRounds seed rows 0 (rounds_of rows)) answerer.old answerer.new) }
    ensures cut { IfErr result (IsCut A.answers A.stops (AreRounds seed rows 0 (rounds_of rows)) answerer.old answerer.new) }
{
    let mut inserted = 0;
    'rounds: for round in 0..rows.div_ceil(ROUND_ROWS) {
        inserted += say_round(answerer, line, seed, rows, round)?;
    }
    Ok(inserted)
}

/// Says a round.
fn say_round<A: Answerer>(
    answerer: &mut A,
    line: &mut String,
    seed: u32,
    rows: u32,
    round: u32,
) -> Result<u64, AnswerFault>
    requires seed { seed ≤ 1000000 }
    requires rows { rows ≤ 200000 }
    requires round { 400 * round < rows }
    ensures said { IfOk result (IsSaid A.answers (IsRound seed rows round) answerer.old answerer.new) }
    ensures few { IfOk result (λ inserted. inserted ≤ 2000) }
    ensures cut { IfErr result (IsCut A.answers A.stops (IsRound seed rows round) answerer.old answerer.new) }
{
    let opened = open_round(answerer, round)?;
    let begun = say_all(answerer, &BEGINS)?;
    let first = ROUND_ROWS * round;
    let count = ROUND_ROWS.min(rows - first);
    let put = say_rows(answerer, line, seed, first, count, opened.busy)?;
    let closed = close_round(answerer, put.busy)?;
    let committed = say_all(answerer, &COMMITS)?;
    Ok(opened.rows + begun + put.rows + closed + committed)
}

/// From the second round on, starts the keeper's summarize.
fn open_round<A: Answerer>(answerer: &mut A, round: u32) -> Result<Ending, AnswerFault>
    ensures said { IfOk result (λ end. IsSaid A.answers (λ said. Opens round said end.busy) answerer.old answerer.new end.rows) }
    ensures few { IfOk result (λ end. end.rows ≤ 1) }
    ensures cut { IfErr result (IsCut A.answers A.stops (LeavesKeeper (Opens round)) answerer.old answerer.new) }
{
    if round == 0 {
        return Ok(Ending {
            busy: false,
            rows: 0,
        });
    }
    let heard = say(answerer, b"m start summarize di")?;
    Ok(Ending {
        busy: heard.busy,
        rows: heard.rows,
    })
}

/// Says so many rows, from the first on.
fn say_rows<A: Answerer>(
    answerer: &mut A,
    line: &mut String,
    seed: u32,
    first: u32,
    count: u32,
    busy: bool,
) -> Result<Ending, AnswerFault>
    requires seed { seed ≤ 1000000 }
    requires rows { first + count ≤ 200000 }
    ensures said { IfOk result (λ end. IsSaid A.answers (λ said. AreRows seed first count busy said end.busy) answerer.old answerer.new end.rows) }
    ensures few { IfOk result (λ end. end.rows ≤ 4 * count) }
    ensures cut { IfErr result (IsCut A.answers A.stops (LeavesKeeper (AreRows seed first count busy)) answerer.old answerer.new) }
{
    let mut busy = busy;
    let mut inserted = 0;
    'rows: for row in first..first + count {
        let end = say_row(answerer, line, seed, row, busy)?;
        busy = end.busy;
        inserted += end.rows;
    }
    Ok(Ending {
        busy,
        rows: inserted,
    })
}

/// Finishes what the keeper has in hand.
fn close_round<A: Answerer>(answerer: &mut A, busy: bool) -> Result<u64, AnswerFault>
    ensures said { IfOk result (IsSaid A.answers (Closes busy) answerer.old answerer.new) }
    ensures few { IfOk result (λ inserted. inserted ≤ 1) }
    ensures cut { IfErr result (IsCut A.answers A.stops (Closes busy) answerer.old answerer.new) }
{
    if !busy {
        return Ok(0);
    }
    let heard = say(answerer, b"m finish")?;
    Ok(heard.rows)
}

/// Says the lines one after the other, and counts the rows that are inserted.
pub fn say_all<A: Answerer>(answerer: &mut A, lines: &[&[u8]]) -> Result<u64, AnswerFault>
    requires { length lines.now ≤ 9 }
    ensures said { IfOk result (IsSaid A.answers (Says (map (λ line. line.now) lines.now)) answerer.old answerer.new) }
    ensures few { IfOk result (λ inserted. inserted ≤ length lines.now) }
    ensures cut { IfErr result (IsCut A.answers A.stops (Says (map (λ line. line.now) lines.now)) answerer.old answerer.new) }
{
    let mut inserted = 0;
    'lines: for line in lines {
        let heard = say(answerer, line)?;
        inserted += heard.rows;
    }
    Ok(inserted)
}
