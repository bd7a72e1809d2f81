//! What is seen of the bytes of a disk.

use crate::answer::{Streams, run_on};
use block_model::{NoMemory, Words};
use brin_app::DONE;
use disk_trait::SteadyDisk;
use std::alloc::Global;
use std::sync::Wait;
use std::thread::Threads;

/// What is seen of bytes that are no store.
pub const NO_STORE: &str = "status 9";

/// Selects all rows three times: before the index was summarised and the table vacuumed, behind that, and by the index.
const LOOK: &str = "z begin
z select t
m summarize i
m vacuum t
z select t
z select t where a >= 0
z commit
";

/// What a run over the bytes tells: the status where it isn't 0, all texts where a line was refused, and else the texts of its selects without their
/// session.
pub fn look<R: Threads + Wait + Sync>(
    rt: &R,
    alloc: Global,
    bytes: Vec<u8>,
) -> Result<String, NoMemory> {
    let mut words = Words::new(alloc);
    words.push(b"run")?;
    let streams = Streams::large(65536);
    let disk = SteadyDisk::from_image(bytes);
    let (answer, _) = run_on(rt, alloc, &words, LOOK.as_bytes(), &streams, disk)?;
    let status = answer.status;
    if status != DONE {
        return Ok(format!(in alloc; "status {status}")?);
    }
    let text = answer.text();
    if text.contains(" error ") {
        return Ok(String::from_str(alloc, text)?);
    }
    rows_in(alloc, text)
}

/// The texts of the selects without their session.
fn rows_in(alloc: Global, text: &str) -> Result<String, NoMemory> {
    let mut rows = String::new(alloc);
    for line in text.split('\n') {
        if let Some(told) = line.strip_prefix("z row") {
            rows.push_str("row")?;
            rows.push_str(told)?;
            rows.push('\n')?;
        }
    }
    Ok(rows)
}

/// Whether these rows are seen, three times.
pub fn has_rows(seen: &[u8], rows: &[u8]) -> bool {
    let Some(rest) = seen.strip_prefix(rows) else {
        return false;
    };
    match rest.strip_prefix(rows) {
        Some(rest) => rest == rows,
        None => false,
    }
}
