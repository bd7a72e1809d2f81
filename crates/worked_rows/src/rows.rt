//! A row, and its runs.

use crate::answer::{Piece, Streams, run_on};
use crate::bytes::check_bytes;
use crate::calls::{check_calls, check_trouble};
use crate::difference::{Difference, answer_differs, numbers_differ};
use crate::disks::{bytes_of, changed, disk_differs, new_disk};
use crate::orders::check_orders;
use crate::row::{Command, Row, Run, Start, Way};
use block_model::NoMemory;
use brin_app::wanted_size;
use disk_trait::SteadyDisk;
use std::alloc::Global;
use std::mem;
use std::sync::Wait;
use std::thread::Threads;

/// What a run differs in, if it does, and the disk that it left.
pub type Outcome = (Option<Difference>, SteadyDisk);

/// Where the row doesn't hold, with bytes one by one or in large pieces.
pub fn check_row<R: Threads + Wait + Sync>(
    rt: &R,
    alloc: Global,
    row: &Row<'_>,
) -> Result<Option<Difference>, NoMemory> {
    for piece in [Piece::Byte, Piece::Large] {
        if is_made_by(row, piece)
            && let Some(difference) = check_runs(rt, alloc, row, piece)?
        {
            return Ok(Some(difference));
        }
    }
    Ok(None)
}

/// Whether the row's runs are made by such pieces: where a read or a write fails by single bytes, where all are plain by both, and else by large pieces.
fn is_made_by(row: &Row<'_>, piece: Piece) -> bool {
    let has_fault = row.runs.iter().any(|run| is_stream_fault(run.way));
    match piece {
        Piece::Byte => has_fault || row.runs.iter().all(|run| is_plain(run.way)),
        Piece::Large => !has_fault,
    }
}

fn is_stream_fault(way: Way) -> bool {
    matches!(way, Way::Read(_) | Way::Write(_))
}

fn is_plain(way: Way) -> bool {
    matches!(way, Way::Plain)
}

fn check_runs<R: Threads + Wait + Sync>(
    rt: &R,
    alloc: Global,
    row: &Row<'_>,
    piece: Piece,
) -> Result<Option<Difference>, NoMemory> {
    let mut disks = Disks {
        alloc,
        left: SteadyDisk::new(alloc, 0)?,
        before: Vec::new(alloc),
    };
    for run in row.runs.iter() {
        disks.keep(row, run)?;
        for command in run.commands.iter() {
            if let Some(difference) = disks.check(rt, run, command, piece)? {
                return Ok(Some(difference));
            }
        }
    }
    Ok(None)
}

/// The disk that the run before left, and the bytes that it had before that run, where a run of the row wants them.
#[derive(Drop)]
struct Disks {
    alloc: Global,
    left: SteadyDisk,
    before: Vec<u8>,
}

impl Disks {
    /// Keeps the disk's bytes before a run that isn't the first one, where another run begins with them.
    fn keep(&mut self, row: &Row<'_>, run: &Run<'_>) -> Result<(), NoMemory> {
        if run.start == Start::Left && has_second_start(row) {
            self.before = bytes_of(self.alloc, &mut self.left)?;
        }
        Ok(())
    }

    /// Makes a run.
    fn check<R: Threads + Wait + Sync>(
        &mut self,
        rt: &R,
        run: &Run<'_>,
        command: &Command<'_>,
        piece: Piece,
    ) -> Result<Option<Difference>, NoMemory> {
        let mut disk = self.disk_for(run, command)?;
        for change in run.changes.iter() {
            disk = changed(self.alloc, disk, *change)?;
            if let Some(difference) = disk_differs(self.alloc, &mut disk, *change)? {
                return Ok(Some(difference));
            }
        }
        let (difference, disk) = outcome(rt, self.alloc, run, command, piece, disk)?;
        self.left = disk;
        Ok(difference)
    }

    fn disk_for(&mut self, run: &Run<'_>, command: &Command<'_>) -> Result<SteadyDisk, NoMemory> {
        match run.start {
            Start::New => {
                // One disk at a time: some are large.
                self.left = SteadyDisk::from_image(Vec::new(self.alloc));
                new_disk(self.alloc, command)
            }
            Start::Left => {
                let none = SteadyDisk::from_image(Vec::new(self.alloc));
                Ok(mem::replace(&mut self.left, none))
            }
            Start::Before => {
                let bytes = Vec::from_slice(self.alloc, self.before.as_slice())?;
                Ok(SteadyDisk::from_image(bytes))
            }
        }
    }
}

/// Whether a run of the row begins with what the run before it began with.
fn has_second_start(row: &Row<'_>) -> bool {
    row.runs.iter().any(|run| run.start == Start::Before)
}

/// Makes a run in its way.
fn outcome<R: Threads + Wait + Sync>(
    rt: &R,
    alloc: Global,
    run: &Run<'_>,
    command: &Command<'_>,
    piece: Piece,
    disk: SteadyDisk,
) -> Result<Outcome, NoMemory> {
    match run.way {
        Way::Plain | Way::Large | Way::Read(_) | Way::Write(_) => {
            check_plain(rt, alloc, run, command, piece, disk)
        }
        Way::Call(trouble, call) => check_trouble(rt, alloc, run, command, disk, trouble, call),
        Way::EachCall(choice) => check_calls(rt, alloc, run, command, disk, choice),
        Way::EachOrder => Ok((check_orders(rt, alloc, run, command)?, disk)),
        Way::EachByte(stretch) => check_bytes(rt, alloc, run, command, disk, stretch),
        Way::Wants(size) => Ok((check_wanted(alloc, command, size)?, disk)),
    }
}

/// Makes a run on whose disk no call fails.
fn check_plain<R: Threads + Wait + Sync>(
    rt: &R,
    alloc: Global,
    run: &Run<'_>,
    command: &Command<'_>,
    piece: Piece,
    disk: SteadyDisk,
) -> Result<Outcome, NoMemory> {
    let (read_fault, write_fault) = faults(run.way);
    let replies = wanted_front(run.lines.replies.as_slice(), write_fault);
    let streams = Streams {
        piece,
        read_fault,
        write_fault,
        ..Streams::large(replies.len())
    };
    let script = run.lines.script.as_slice();
    let (answer, disk) = run_on(rt, alloc, &command.words, script, &streams, disk)?;
    let difference = answer_differs(alloc, command.text, replies, run.status, &answer)?;
    Ok((difference, disk))
}

/// Which read and which write fails.
fn faults(way: Way) -> (Option<u64>, Option<u64>) {
    match way {
        Way::Read(call) => (Some(call), None),
        Way::Write(call) => (None, Some(call)),
        _ => (None, None),
    }
}

/// What is written byte by byte before the write that fails.
fn wanted_front(replies: &[u8], write_fault: Option<u64>) -> &[u8] {
    let Some(call) = write_fault else {
        return replies;
    };
    let count = call.saturating_sub(1) as usize;
    match replies.split_at_checked(count) {
        Some((front, _)) => front,
        None => replies,
    }
}

/// Where the words want another size of a disk.
fn check_wanted(
    alloc: Global,
    command: &Command<'_>,
    size: Option<u64>,
) -> Result<Option<Difference>, NoMemory> {
    let got = wanted_size(alloc, &command.words)?;
    if got.is_some() != size.is_some() {
        let difference = Difference::new(alloc, command.text, "a size, or none", "the other")?;
        return Ok(Some(difference));
    }
    numbers_differ(alloc, command.text, size.unwrap_or(0), got.unwrap_or(0))
}
