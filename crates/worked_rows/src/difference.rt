//! What differs from a row.

use crate::answer::Answer;
use block_model::NoMemory;
use std::alloc::Global;

/// Where a run differs from its row, what was wanted there, and what came.
#[derive(Drop)]
pub struct Difference {
    pub place: String,
    pub wanted: String,
    pub got: String,
}

impl Difference {
    pub fn new(
        alloc: Global,
        place: &str,
        wanted: &str,
        got: &str,
    ) -> Result<Difference, NoMemory> {
        Ok(Difference {
            place: String::from_str(alloc, place)?,
            wanted: String::from_str(alloc, wanted)?,
            got: String::from_str(alloc, got)?,
        })
    }
}

/// A difference at that place, between numbers.
pub fn numbers_differ(
    alloc: Global,
    place: &str,
    wanted: u64,
    got: u64,
) -> Result<Option<Difference>, NoMemory> {
    if wanted == got {
        return Ok(None);
    }
    let wanted = format!(in alloc; "{wanted}")?;
    let got = format!(in alloc; "{got}")?;
    let difference = Difference::new(alloc, place, wanted.as_str(), got.as_str())?;
    Ok(Some(difference))
}

/// The first line in which an answer differs from these replies and that status.
pub fn answer_differs(
    alloc: Global,
    place: &str,
    replies: &[u8],
    status: u8,
    answer: &Answer,
) -> Result<Option<Difference>, NoMemory> {
    if let Some(difference) = replies_differ(alloc, place, replies, answer.bytes())? {
        return Ok(Some(difference));
    }
    let place = format!(in alloc; "{place}: status")?;
    numbers_differ(
        alloc,
        place.as_str(),
        u64::from(status),
        u64::from(answer.status),
    )
}

/// The first line in which replies differ.
pub fn replies_differ(
    alloc: Global,
    place: &str,
    wanted: &[u8],
    got: &[u8],
) -> Result<Option<Difference>, NoMemory> {
    if wanted == got {
        return Ok(None);
    }
    let wanted = String::from_utf8_lossy(alloc, wanted)?;
    let got = String::from_utf8_lossy(alloc, got)?;
    let (wanted, got) = first_lines(wanted.as_str(), got.as_str());
    let difference = Difference::new(alloc, place, wanted, got)?;
    Ok(Some(difference))
}

/// The first lines that differ.
fn first_lines<'a>(wanted: &'a str, got: &'a str) -> (&'a str, &'a str) {
    for (wanted, got) in wanted.split('\n').zip(got.split('\n')) {
        if wanted != got {
            return (shown(wanted), shown(got));
        }
    }
    ("a line feed, or none, at the end", "the other")
}

/// The line, or that there is none.
fn shown(line: &str) -> &str {
    if line.is_empty() { "(no line)" } else { line }
}
