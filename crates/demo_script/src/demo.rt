//! The lines of the demo, said to whatever answers them.

ghost use Rattle.std.specs.Prelude.{◌≡◌, ◌≤◌, IfOk, IfErr};
ghost use Rattle.demo_script.specs.Played.{HasPlayed, HasStopped};

use crate::answer::Answerer;
use crate::counts::Counts;
use crate::last::say_last;
use crate::round::say_rounds;
use script_run::AnswerFault;
use std::alloc::Global;

/// Says the demo of this seed and of so many rows, and counts what it is answered.
pub fn play<A: Answerer>(
    alloc: Global,
    seed: u32,
    rows: u32,
    answerer: &mut A,
) -> Result<Counts, AnswerFault>
    requires seed { seed ≤ 1000000 }
    requires rows { rows ≤ 200000 }
    ensures played { IfOk result (HasPlayed A.answers seed rows answerer.old answerer.new) }
    ensures stopped { IfErr result (HasStopped A.answers A.stops seed rows answerer.old answerer.new) }
{
    let mut line = String::new(alloc);
    let inserted = say_rounds(answerer, &mut line, seed, rows)?;
    let last = say_last(answerer, &mut line, rows)?;
    let found = last.found;
    Ok(Counts {
        rows: inserted,
        found,
        read: last.read,
    })
}
