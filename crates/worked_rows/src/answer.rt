//! A run of the program over a disk.

ghost use Rattle.std.specs.Prelude.{◌≡◌, ◌<◌, IfOk, true};
ghost use Rattle.brin_app.specs.Tasks.{AsksForThreads};

use block_model::{NoMemory, Words};
use brin_app::{DISK_FAULT, Stranger, asks_for_threads, brin_main};
use disk_trait::{Disk, VeiledDisk};
use io_traits::{MemorySink, MemorySource, OpenGate};
use std::alloc::Global;
use std::str;
use std::sync::Wait;
use std::thread::Threads;

/// How many bytes come or go in one call: one, or a large piece.
#[derive(Clone, Copy, Debug, PartialEq, Eq)]
pub enum Piece {
    Byte,
    Large,
}

impl Piece {
    fn bytes(self) -> usize
        ensures { 0 < result }
    {
        match self {
            Piece::Byte => 1,
            Piece::Large => 65536,
        }
    }
}

/// How a run reads its script and writes its replies: by which pieces, which call of each fails, and how many bytes of replies there is room for.
#[derive(Clone, Copy, Debug)]
pub struct Streams {
    pub piece: Piece,
    pub read_fault: Option<u64>,
    pub write_fault: Option<u64>,
    pub room: usize,
}

impl Streams {
    /// Large pieces, and no faults, for replies of about that length.
    pub fn large(length: usize) -> Streams {
        Streams {
            piece: Piece::Large,
            read_fault: None,
            write_fault: None,
            room: length.saturating_add(4096),
        }
    }
}

/// What a run came to: its status, and what it wrote.
#[derive(Drop)]
pub struct Answer {
    pub status: u8,
    sink: MemorySink,
}

impl Answer {
    /// The bytes that were written.
    pub fn bytes(&self) -> &[u8] {
        self.sink.bytes()
    }

    /// The same as text; none where it is no text.
    pub fn text(&self) -> &str {
        match str::from_utf8(self.sink.bytes()) {
            Ok(text) => text,
            Err(_) => "",
        }
    }
}

/// Runs the words and the script over the disk, and answers it. No row has to show what its disk holds, so it is veiled. Words of `threads` are for a disk on which no
/// call has failed so far; over another one the status is `DISK_FAULT`.
pub fn run_on<R: Threads + Wait + Sync, D: Disk + Send + Drop>(
    rt: &R,
    alloc: Global,
    words: &Words,
    script: &[u8],
    streams: &Streams,
    disk: D,
) -> Result<(Answer, D), NoMemory> {
    let script = Vec::from_slice(alloc, script)?;
    let piece = streams.piece.bytes();
    let reads = calls(alloc, streams.read_fault)?;
    let writes = calls(alloc, streams.write_fault)?;
    let mut source = MemorySource::new(script, piece, reads);
    let mut sink = MemorySink::new(alloc, streams.room, piece, writes)?;
    let veiled = VeiledDisk::over(disk);
    if !may_run(alloc, words, veiled.faults())? {
        let status = DISK_FAULT;
        return Ok((Answer { status, sink }, veiled.into_inner()));
    }
    let (status, veiled) = brin_main::<Stranger, _, _, _, _, _>(
        rt,
        alloc,
        words,
        veiled,
        &mut source,
        &mut sink,
        &OpenGate,
    );
    Ok((Answer { status, sink }, veiled.into_inner()))
}

/// Whether the words may be run over a disk with so many faults: those of `threads` where it has none.
fn may_run(alloc: Global, words: &Words, faults: u64) -> Result<bool, NoMemory>
    ensures { IfOk result (λ may. may ≡ true → AsksForThreads words.now → 0 ≡ faults) }
{
    if faults == 0 {
        return Ok(true);
    }
    let threads = asks_for_threads(alloc, words)?;
    Ok(!threads)
}

/// The list of the call, if there is one.
fn calls(alloc: Global, call: Option<u64>) -> Result<Vec<u64>, NoMemory> {
    let mut list = Vec::new(alloc);
    if let Some(call) = call {
        list.push(call)?;
    }
    Ok(list)
}
