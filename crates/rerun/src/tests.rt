//! Two short scripts.

use crate::veiled::words_of;
use crate::{Room, Streams, run_twice};
use io_traits::{MemorySink, MemorySource};
use std::alloc::Global;
use std::sync::Wait;
use std::thread::Threads;

/// A store of one table, on a small disk.
const MAKING: [&[u8]; 6] = [
    b"init",
    b"--heap-blocks=1",
    b"--index-blocks=3",
    b"--status-blocks=1",
    b"--log-pages=16",
    b"table t(a int8)",
];

const RUNNING: [&[u8]; 1] = [b"run"];

const PUTS: &[u8] = b"a begin\na insert t 7\na commit\n";

const LOOKS: &[u8] = b"a begin\na select t\n";

const FOUND: &[u8] = b"a begun 2\na row 1.0 7\na rows 1\n";

/// More calls than two such scripts make, and more bytes than they write.
const ROOM: Room = Room {
    calls: 5000,
    bytes: 1 << 23,
};

fn streams(alloc: Global, script: &[u8]) -> Option<Streams> {
    let bytes = Vec::from_slice(alloc, script).ok()?;
    let script = MemorySource::new(bytes, 1000, Vec::new(alloc));
    let texts = MemorySink::new(alloc, 1000, 1000, Vec::new(alloc)).ok()?;
    Some(Streams { script, texts })
}

/// The statuses of the two runs, and whether the second script finds the row that the first one put. `None` where no store is made.
fn found<R: Threads + Wait + Sync>(rt: &R, alloc: Global) -> Option<(u8, u8, bool)> {
    let making = words_of(alloc, &MAKING)?;
    let running = words_of(alloc, &RUNNING)?;
    let mut puts = streams(alloc, PUTS)?;
    let mut looks = streams(alloc, LOOKS)?;
    let ends = run_twice(rt, alloc, &making, &running, ROOM, &mut puts, &mut looks).ok()?;
    Some((ends.first, ends.second, looks.texts.bytes() == FOUND))
}

#[test]
fn the_second_script_finds_the_row_of_the_first(rt: HostRuntime) {
    assert_eq!(rt; found(&rt, rt.alloc()), Some((0, 0, true)));
}
