//! Statements in hand, each as the machine that makes its steps.

use crate::faults::StoreFault;
use bitmap_scan::{Explain, Scan};
use block_model::{Point, Query, Reply, RowId, Spot, Values, What};
use brin_insert::Insert;
use summarise_core::{Desummarise, Summarise};
use vacuum_core::Vacuum;

/// A row that a delete found: its id, and where it stands.
#[derive(Clone, Copy, Debug, PartialEq, Eq)]
pub struct Hit {
    pub id: RowId,
    pub spot: Spot,
}

/// A delete that marks what it found, in order of the ids: which row is next; and, until its look is entered with the first mark, a copy of
/// the query for the journal.
#[derive(Debug, Drop)]
pub struct Marking {
    pub query: Query,
    pub look: Option<Query>,
    pub hits: Vec<Hit>,
    pub next: usize,
}

/// The summary of a range that an insert asked for, and that range: work took the request out of the queue with its first step.
#[derive(Debug, Drop)]
pub struct Requested {
    pub summarise: Summarise,
    pub range: u32,
}

/// A vacuum that cleans its table; and the summaries that come then, one of each index of the table in their order, over its complete ranges.
#[derive(Debug, Drop)]
pub struct Cleaning {
    pub vacuum: Vacuum,
    pub summaries: Vec<Summarise>,
}

/// A vacuum that has cleaned its table, with how many rows and unnamed tuples it dropped; the summaries of the table's indexes, in their order;
/// which of them is made now, or next; and how many ranges those before it gave a final tuple.
#[derive(Debug, Drop)]
pub struct Completing {
    pub table: u8,
    pub rows: u64,
    pub unnamed: u64,
    pub summaries: Vec<Summarise>,
    pub next: usize,
    pub ranges: u64,
}

/// A statement in hand. An insert and work take their memory with their first step, a select and a delete in the steps of their scan; the
/// others have taken it.
#[derive(Debug, Drop)]
pub enum Hand {
    /// A begin, with an empty list that has room for the number of a transaction of each session.
    Begins(Vec<u64>),
    Commits,
    RollsBack,
    /// An insert before its first step, and one whose row is put.
    Puts { table: u8, values: Values },
    Inserts(Insert),
    /// A select before its first step, and its scan.
    Selecting(Query),
    Selects(Scan),
    /// A delete before its first step, its scan, and its marks.
    Deleting(Query),
    Deletes(Scan),
    Marks(Marking),
    Explains(Explain),
    Summarises(Summarise),
    Desummarises(Desummarise),
    /// A vacuum: its cleaning, and its summaries.
    Cleans(Cleaning),
    Completes(Completing),
    /// Work before its first step, and at the range of the request that it took up.
    Working,
    Works(Requested),
}

/// What came of a step of a statement in hand: it goes on behind a step of this name; it is done, with its reply; it waits for what that
/// session holds, and nothing was changed; or the step isn't done. The statement comes back where it stays in hand.
#[derive(Debug, Drop)]
pub enum Stepped {
    Moved { point: Point, hand: Hand },
    Done(Reply),
    Blocked { what: What, holder: u32, hand: Hand },
    Undone { fault: StoreFault, hand: Hand },
}
