//! Runs over a disk one byte of which is another one.

use crate::answer::{Answer, Streams, run_on};
use crate::difference::Difference;
use crate::disks::{byte_at, bytes_of, put};
use crate::row::{Command, Run, Stretch};
use crate::rows::Outcome;
use block_model::NoMemory;
use brin_app::{DAMAGED, DONE, NO_STORE};
use disk_trait::{Disk, SteadyDisk};
use std::alloc::Global;
use std::sync::Wait;
use std::thread::Threads;

/// Makes a run for each byte of the stretch. It is answered something, and its status is one of those that the row says, or that of a store, of none, or of
/// a damaged one.
pub fn check_bytes<R: Threads + Wait + Sync>(
    rt: &R,
    alloc: Global,
    run: &Run<'_>,
    command: &Command<'_>,
    mut disk: SteadyDisk,
    stretch: Stretch,
) -> Result<Outcome, NoMemory> {
    if stretch.to < stretch.from || disk.size() <= stretch.to {
        let difference = Difference::new(alloc, "bytes", "places of the disk", "others")?;
        return Ok((Some(difference), disk));
    }
    let bytes = bytes_of(alloc, &mut disk)?;
    for at in stretch.from..=stretch.to {
        let mut turned = SteadyDisk::from_image(Vec::from_slice(alloc, bytes.as_slice())?);
        turn(&mut turned, at, stretch.value);
        let script = run.lines.script.as_slice();
        let streams = Streams::large(65536);
        let (answer, _) = run_on(rt, alloc, &command.words, script, &streams, turned)?;
        if let Some(difference) = check_answer(alloc, run, at, &answer)? {
            return Ok((Some(difference), disk));
        }
    }
    Ok((None, disk))
}

/// Puts the value at a place, or what the byte there lacks to 255.
fn turn(disk: &mut SteadyDisk, at: u64, value: Option<u8>) {
    if let Some(byte) = byte_at(disk, at) {
        put(disk, at, value.unwrap_or(255 - byte));
    }
}

fn check_answer(
    alloc: Global,
    run: &Run<'_>,
    at: u64,
    answer: &Answer,
) -> Result<Option<Difference>, NoMemory> {
    let status = answer.status;
    let (fits, wanted) = match run.either {
        Some((first, second)) => (status == first || status == second, "a status of the row's"),
        None => (
            status == DONE || status == NO_STORE || status == DAMAGED,
            "status 0, 9 or 11",
        ),
    };
    if fits {
        return Ok(None);
    }
    let place = format!(in alloc; "another byte at {at}")?;
    let got = format!(in alloc; "status {status}")?;
    let difference = Difference::new(alloc, place.as_str(), wanted, got.as_str())?;
    Ok(Some(difference))
}
