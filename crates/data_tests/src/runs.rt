//! Runs of scripts over an engine that answers each line with itself, and the lines of a script without end.

ghost use Rattle.std.specs.Prelude.{◌≡◌, ◌<◌, None, codes};

use block_model::NoMemory;
use io_traits::{MemorySink, MemorySource, Source, SourceFault};
use script_run::{AnswerFault, Engine, Lines, LinesEnd, RunFault, run};
use std::alloc::Global;

/// Answers each line with itself, runs out of memory at the line `!`, and of room at `?`.
#[derive(Drop)]
struct Echo;

impl Engine for Echo {
    ghost answers = { λ _ line text _. text ≡ line };

    ghost stops = { λ _ _ _ _. Unit {0} };

    fn answer(&mut self, line: &[u8], out: &mut Vec<u8>) -> Result<(), AnswerFault> {
        if line == b"!".as_slice() {
            return Err(AnswerFault::Memory);
        }
        if line == b"?".as_slice() {
            return Err(AnswerFault::Full);
        }
        out.extend_from_slice(line)?;
        Ok(())
    }
}

/// A script, its limit, the sink's room and the calls that fail; how the run ends, and what it writes.
type Case = (
    &'static str,
    u64,
    usize,
    (u64, u64),
    Result<(), RunFault>,
    &'static str,
);

const CASES: [Case; 8] = [
    // The limit is reached exactly, and passed by one byte.
    ("ab\ncd", 5, 9, (0, 0), Ok(()), "abcd"),
    ("ab\ncd", 4, 9, (0, 0), Err(RunFault::Spent), "ab"),
    // A line is undone whose end wasn't read.
    ("ab\ncd\n", 9, 9, (2, 0), Err(RunFault::Read), "ab"),
    // An empty answer makes no call of the sink.
    ("\n\nab", 9, 9, (0, 2), Ok(()), "ab"),
    ("ab\ncd", 9, 9, (0, 2), Err(RunFault::Write), "ab"),
    ("ab\ncd", 9, 3, (0, 0), Err(RunFault::Write), "abc"),
    (
        "ab\n!\ncd",
        9,
        9,
        (0, 0),
        Err(RunFault::Unanswered(AnswerFault::Memory)),
        "ab",
    ),
    (
        "ab\n?\ncd",
        9,
        9,
        (0, 0),
        Err(RunFault::Unanswered(AnswerFault::Full)),
        "ab",
    ),
];

/// Whether the run over the script ends so and writes this, where the source and the sink move `piece` bytes a call.
fn holds(alloc: Global, case: &Case, piece: usize) -> Result<bool, NoMemory>
    requires { 0 < piece }
{
    let (script, limit, room, fails, end, output) = *case;
    let script = Vec::from_slice(alloc, script.as_bytes())?;
    let mut source = MemorySource::new(script, piece, Vec::from_slice(alloc, &[fails.0])?);
    let mut sink = MemorySink::new(alloc, room, piece, Vec::from_slice(alloc, &[fails.1])?)?;
    let ended = run(alloc, limit, &mut Echo, &mut source, &mut sink);
    Ok(ended == end && sink.bytes() == output.as_bytes())
}

fn first_wrong(alloc: Global) -> Option<&'static Case> {
    for case in &CASES {
        if holds(alloc, case, 4) != Ok(true) {
            return Some(case);
        }
    }
    None
}

#[test]
fn each_end_comes_where_it_should(rt: HostRuntime) {
    assert_eq!(rt; first_wrong(rt.alloc()), None);
}

/// Line feeds without end.
#[derive(Drop)]
struct Endless;

impl Source for Endless {
    ghost left = { λ _. None };

    ghost faults = { λ _. 0 };

    fn read(&mut self, into: &mut [u8]) -> Result<usize, SourceFault> {
        into.fill(b'\n');
        Ok(into.len())
    }

    fn faults(&self) -> u64 {
        0
    }
}

/// How many lines come of it up to the limit, and what ends them. `None` is want of memory, or no end.
fn endless_lines(alloc: Global, limit: u64) -> Option<(u64, LinesEnd)> {
    let mut lines = Lines::new(alloc, limit).ok()?;
    for count in 0..2000 {
        if let Err(end) = lines.next(&mut Endless) {
            return Some((count, end));
        }
    }
    None
}

#[test]
fn a_script_without_end_is_spent(rt: HostRuntime) {
    let spent = LinesEnd::Spent { taken: 1000 };
    assert_eq!(rt; endless_lines(rt.alloc(), 1000), Some((1000, spent)));
}
