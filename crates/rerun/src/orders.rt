//! Sessions that each put a row, and look for it in a further transaction, beside a session that summarises.

use crate::veiled::words_of;
use crate::{Room, Streams, run_beside};
use io_traits::{Gate, MemorySink, MemorySource, OpenGate};
use std::alloc::Global;
use std::sync::Wait;
use std::thread::Threads;
use std::{str, thread};

/// How often the script is run.
const TURNS: u64 = 20;

/// More calls than such a script makes, and more bytes than they write.
const ROOM: Room = Room {
    calls: 5000,
    bytes: 1 << 23,
};

const MAKING: [&[u8]; 7] = [
    b"threads",
    b"--heap-blocks=8",
    b"--index-blocks=4",
    b"--status-blocks=1",
    b"--log-pages=16",
    b"table t(a int8) rows_per_page 2",
    b"index i on t(a minmax) pages_per_range 1",
];

const SCRIPT: &[u8] = b"s1 begin
s2 begin
s3 begin
s1 insert t 1
s2 insert t 2
s3 insert t 3
s1 commit
s2 commit
s3 commit
s1 begin
s2 begin
s3 begin
s1 select t where a = 1
s2 select t where a = 2
s3 select t where a = 3
s1 commit
s2 commit
s3 commit
m summarize i
m summarize i
";

/// The lines of all texts: seven of each session, and two of m.
const LINES: usize = 23;

/// Lets the other threads go on before each step.
#[derive(Drop)]
struct Yields;

impl Gate for Yields {
    fn before(&self, _session: u32, _step: u64) {
        thread::yield_now();
    }
}

/// Runs the script over a new store, and answers the status and the texts. `None` is want of memory.
fn ran<R: Threads + Wait + Sync, G: Gate + Sync>(
    rt: &R,
    alloc: Global,
    gate: &G,
) -> Option<(u8, MemorySink)> {
    let words = words_of(alloc, &MAKING)?;
    let bytes = Vec::from_slice(alloc, SCRIPT).ok()?;
    let script = MemorySource::new(bytes, 1000, Vec::new(alloc));
    let texts = MemorySink::new(alloc, 4096, 1000, Vec::new(alloc)).ok()?;
    let mut streams = Streams { script, texts };
    let (status, _) = run_beside(rt, alloc, &words, ROOM, &mut streams, gate).ok()?;
    Some((status, streams.texts))
}

/// The lines of the session, in their order. `None` is want of memory.
fn told_to(alloc: Global, texts: &str, session: &str) -> Option<String> {
    let mut told = String::new(alloc);
    for line in texts.split('\n') {
        if line.starts_with(session) {
            told.push_str(line).ok()?;
            told.push('\n').ok()?;
        }
    }
    Some(told)
}

/// The number of the session's transaction of that place, from 0.
fn begun(told: &str, session: &str, place: usize) -> Option<u64> {
    let mut left = place;
    for line in told.split('\n') {
        if let Some(rest) = line.strip_prefix(session)
            && let Some(number) = rest.strip_prefix("begun ")
        {
            if left == 0 {
                return number.parse::<u64>().ok();
            }
            left -= 1;
        }
    }
    None
}

/// What a session is told that puts the value and looks for it, where its transactions have these numbers. `None` is want of memory.
fn wanted(alloc: Global, session: &str, value: u64, first: u64, second: u64) -> Option<String> {
    let put = format!(in alloc;
        "{session}begun {first}\n{session}inserted {first}.0\n{session}committed\n"
    ).ok()?;
    let looked = format!(in alloc;
        "{session}begun {second}\n{session}row {first}.0 {value}\n{session}rows 1\n{session}committed\n"
    ).ok()?;
    format!(in alloc; "{}{}", put.as_str(), looked.as_str()).ok()
}

/// Whether the session is told all of it in its order, and the second transaction has the greater number. `None` is want of memory, or of a number.
fn is_in_order(alloc: Global, texts: &str, session: &str, value: u64) -> Option<bool> {
    let told = told_to(alloc, texts, session)?;
    let first = begun(told.as_str(), session, 0)?;
    let second = begun(told.as_str(), session, 1)?;
    let wanted = wanted(alloc, session, value, first, second)?;
    Some(first < second && told.as_str() == wanted.as_str())
}

/// Whether m is told of two summaries.
fn has_summaries(alloc: Global, texts: &str) -> Option<bool> {
    let told = told_to(alloc, texts, "m summarized ")?;
    Some(told.as_str().matches('\n').count() == 2)
}

/// Whether each session is told all of it in its order, and nothing else is told.
fn are_in_order(alloc: Global, texts: &str) -> Option<bool> {
    Some(
        is_in_order(alloc, texts, "s1 ", 1)?
            && is_in_order(alloc, texts, "s2 ", 2)?
            && is_in_order(alloc, texts, "s3 ", 3)?
            && has_summaries(alloc, texts)?
            && texts.matches('\n').count() == LINES,
    )
}

/// Runs the script, and tells whether all went well.
fn runs_well<R: Threads + Wait + Sync, G: Gate + Sync>(
    rt: &R,
    alloc: Global,
    gate: &G,
) -> Option<bool> {
    let (status, texts) = ran(rt, alloc, gate)?;
    let text = str::from_utf8(texts.bytes()).unwrap_or("");
    Some(status == 0 && are_in_order(alloc, text)?)
}

/// Whether all runs go well, half of them with a gate that lets the other threads go on.
fn all_run_well<R: Threads + Wait + Sync>(rt: &R, alloc: Global) -> bool {
    for _ in 0..TURNS {
        if runs_well(rt, alloc, &OpenGate) != Some(true) {
            return false;
        }
        if runs_well(rt, alloc, &Yields) != Some(true) {
            return false;
        }
    }
    true
}

#[test]
fn threads_keep_each_session_in_order(rt: HostRuntime) {
    assert_eq!(rt; all_run_well(&rt, rt.alloc()), true);
}
