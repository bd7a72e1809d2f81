//! What the demo sums up.

ghost use Rattle.std.specs.Prelude.{◌≡◌, ◌++◌, OnOk};
ghost use Rattle.demo_script.specs.Summary.{summary_text};

use block_model::NoMemory;
use std::io::Write;

/// How many rows were inserted, how many each of the four selects found, and how many blocks the explain named.
#[derive(Clone, Copy, Debug, PartialEq, Eq)]
pub struct Counts {
    pub rows: u64,
    pub found: [u64; 4],
    pub read: u64,
}

/// Appends the five lines of the summary, of these counts and of so many blocks of the table.
pub fn render_summary(counts: &Counts, blocks: u32, out: &mut Vec<u8>) -> Result<(), NoMemory>
    ensures { OnOk result (out.new.items ≡ out.old.items ++ summary_text counts.now blocks) }
{
    let rows = counts.rows;
    let ranges = (u64::from(blocks) + 15) / 16;
    let [first, second, third, fourth] = counts.found;
    let read = counts.read;
    match write!(
        out,
        "rows {rows}\nblocks {blocks}\nranges {ranges}\nfound {first} {second} {third} {fourth}\nread {read}\n"
    ) {
        Ok(()) => Ok(()),
        Err(_) => Err(NoMemory),
    }
}
