//! Runs in which calls of the disk fail.

use crate::answer::{Answer, Streams, run_on};
use crate::difference::{Difference, answer_differs};
use crate::disks::bytes_of;
use crate::looks::{NO_STORE, has_rows, look};
use crate::row::{Choice, Command, Run, Trouble};
use crate::rows::Outcome;
use block_model::NoMemory;
use brin_app::{DISK_FAULT, DONE};
use disk_trait::{MemoryDisk, SteadyDisk};
use std::alloc::Global;
use std::str;
use std::sync::Wait;
use std::thread::Threads;

/// More calls of the disk than are tried of a run.
const MANY: u64 = 500;

/// How many calls a disk has room to record, and how many bytes.
const RECORD: (u64, u64) = (5000, 1 << 23);

/// A disk of these bytes on which there is trouble at that call.
fn troubled(
    alloc: Global,
    bytes: &[u8],
    trouble: Trouble,
    call: u64,
) -> Result<MemoryDisk, NoMemory> {
    let mut disk = MemoryDisk::from_image(Vec::from_slice(alloc, bytes)?);
    let (calls, room) = RECORD;
    disk.room(calls, room)?;
    match trouble {
        Trouble::Stop => disk.stop_at(call),
        Trouble::Fault => disk.fail(call)?,
    }
    Ok(disk)
}

/// Makes a run with trouble at a call, and leaves the image that the row picks.
pub fn check_trouble<R: Threads + Wait + Sync>(
    rt: &R,
    alloc: Global,
    run: &Run<'_>,
    command: &Command<'_>,
    mut disk: SteadyDisk,
    trouble: Trouble,
    call: u64,
) -> Result<Outcome, NoMemory> {
    let bytes = bytes_of(alloc, &mut disk)?;
    let disk = troubled(alloc, bytes.as_slice(), trouble, call)?;
    let streams = Streams::large(run.lines.replies.len());
    let script = run.lines.script.as_slice();
    let (answer, disk) = run_on(rt, alloc, &command.words, script, &streams, disk)?;
    let replies = run.lines.replies.as_slice();
    let difference = answer_differs(alloc, command.text, replies, run.status, &answer)?;
    Ok((difference, SteadyDisk::from_image(disk.image(run.image)?)))
}

/// A run over a disk of these bytes, with one trouble.
#[derive(Clone, Copy)]
struct Case<'a, 'b> {
    alloc: Global,
    run: &'a Run<'a>,
    command: &'a Command<'a>,
    bytes: &'b [u8],
    trouble: Trouble,
    choice: Choice,
}

/// What a run with trouble at a call came to, and its disk.
type Ran = (Answer, MemoryDisk);

/// Makes a run with each trouble at each call that is chosen, and without it. The disk that is left is that of the last one.
pub fn check_calls<'a, R: Threads + Wait + Sync>(
    rt: &R,
    alloc: Global,
    run: &'a Run<'a>,
    command: &'a Command<'a>,
    mut disk: SteadyDisk,
    choice: Choice,
) -> Result<Outcome, NoMemory> {
    let bytes = bytes_of(alloc, &mut disk)?;
    for trouble in [Trouble::Stop, Trouble::Fault] {
        let case = Case {
            alloc,
            run,
            command,
            bytes: bytes.as_slice(),
            trouble,
            choice,
        };
        if let Some(difference) = case.check(rt, &mut disk)? {
            return Ok((Some(difference), disk));
        }
    }
    Ok((None, disk))
}

impl Case<'_, '_> {
    fn check<R: Threads + Wait + Sync>(
        &self,
        rt: &R,
        left: &mut SteadyDisk,
    ) -> Result<Option<Difference>, NoMemory> {
        for turn in 1..MANY {
            let call = turn.saturating_mul(self.choice.every);
            let ran = self.ran(rt, call)?;
            if ran.0.status == DONE {
                *left = SteadyDisk::from_image(ran.1.image(1)?);
                return self.check_end(rt, &ran, call);
            }
            if let Some(difference) = self.check_call(rt, &ran, call)? {
                return Ok(Some(difference));
            }
        }
        self.differs(MANY, 0, "fewer calls", "more")
    }

    /// Makes the run with the trouble at that call.
    fn ran<R: Threads + Wait + Sync>(&self, rt: &R, call: u64) -> Result<Ran, NoMemory> {
        let disk = troubled(self.alloc, self.bytes, self.trouble, call)?;
        let streams = Streams::large(self.run.lines.replies.len());
        let script = self.run.lines.script.as_slice();
        run_on(rt, self.alloc, &self.command.words, script, &streams, disk)
    }

    /// A run whose call failed has status 6, and writes a front of the replies. Each image of its disk has the rows of the commits that were answered, or
    /// of one more where one was in hand. Where nothing was answered and the words make a store, it may be none.
    fn check_call<R: Threads + Wait + Sync>(
        &self,
        rt: &R,
        ran: &Ran,
        call: u64,
    ) -> Result<Option<Difference>, NoMemory> {
        let (answer, disk) = ran;
        if answer.status != DISK_FAULT {
            return self.differs(call, 0, "status 6", "another one");
        }
        if !self.run.lines.replies.starts_with(answer.bytes()) {
            return self.differs(call, 0, "a front of the replies", answer.text());
        }
        for pick in 0..count_images(disk, self.choice)? {
            let seen = look(rt, self.alloc, disk.image(pick)?)?;
            if !self.may_see(answer, seen.as_str()) {
                return self.differs(call, pick, "the rows of its commits", seen.as_str());
            }
        }
        Ok(None)
    }

    /// Whether this may be seen of an image of the disk that the answer left.
    fn may_see(&self, answer: &Answer, seen: &str) -> bool {
        let text = answer.text();
        if text.is_empty() && seen == NO_STORE && makes_store(self.command) {
            return true;
        }
        let commits = text.matches(" committed\n").count();
        let tables = if self.has_commit_in_hand(answer) {
            2
        } else {
            1
        };
        let found = self.run.found.iter().skip(commits).take(tables);
        for rows in found {
            if has_rows(seen.as_bytes(), rows.as_slice()) {
                return true;
            }
        }
        false
    }

    /// Whether the first line that wasn't answered is a commit, as its reply tells. A run without replies is an init, which counts as one.
    fn has_commit_in_hand(&self, answer: &Answer) -> bool {
        let replies = self.run.lines.replies.as_slice();
        if replies.is_empty() {
            return true;
        }
        match replies.strip_prefix(answer.bytes()) {
            Some(rest) => tells_commit(str::from_utf8(rest).unwrap_or("")),
            None => false,
        }
    }

    /// A run without trouble answers its replies, and leaves the rows of all commits. It makes as many calls as the row says.
    fn check_end<R: Threads + Wait + Sync>(
        &self,
        rt: &R,
        ran: &Ran,
        call: u64,
    ) -> Result<Option<Difference>, NoMemory> {
        let (answer, disk) = ran;
        let replies = self.run.lines.replies.as_slice();
        let text = self.command.text;
        if let Some(difference) = answer_differs(self.alloc, text, replies, DONE, answer)? {
            return Ok(Some(difference));
        }
        if call <= self.run.calls {
            return self.differs(call, 0, "more calls", "fewer");
        }
        for pick in 0..count_images(disk, self.choice)? {
            let seen = look(rt, self.alloc, disk.image(pick)?)?;
            if !self.is_last(seen.as_str()) {
                return self.differs(call, pick, "the rows of all commits", seen.as_str());
            }
        }
        Ok(None)
    }

    /// Whether the rows of all commits are seen.
    fn is_last(&self, seen: &str) -> bool {
        match self.run.found.last() {
            Some(rows) => has_rows(seen.as_bytes(), rows.as_slice()),
            None => false,
        }
    }

    fn differs(
        &self,
        call: u64,
        pick: u64,
        wanted: &str,
        got: &str,
    ) -> Result<Option<Difference>, NoMemory> {
        let trouble = self.trouble;
        let place = format!(in self.alloc; "{trouble:?} at call {call}, image by pick {pick}")?;
        let difference = Difference::new(self.alloc, place.as_str(), wanted, got)?;
        Ok(Some(difference))
    }
}

/// Whether the words make a store: those of these rows that don't are one word alone.
fn makes_store(command: &Command<'_>) -> bool {
    command.text != "run" && command.text != "threads"
}

/// Whether the first of these lines is the reply to a commit.
fn tells_commit(replies: &str) -> bool {
    match replies.split_once('\n') {
        Some((first, _)) => first.ends_with(" committed"),
        None => false,
    }
}

/// How many images are looked at: one where no write is pending that changed a byte, since all images are the same then.
fn count_images(disk: &MemoryDisk, choice: Choice) -> Result<u64, NoMemory> {
    let old = disk.image(0)?;
    let new = disk.image(1)?;
    if old.as_slice() == new.as_slice() {
        return Ok(1);
    }
    Ok(choice.picks)
}
