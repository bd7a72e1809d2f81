//! What a session is answered.

use crate::name::Name;
use crate::place::Blocks;
use crate::row::{RowId, Rows};
use crate::sequence::Sequence;

/// A text, seen as its bytes.
pub type Text = Sequence<u8>;

/// What another session holds: the lock of a page, or the right to summarise a table.
#[derive(Clone, Copy, Debug, PartialEq, Eq)]
pub enum What {
    Page { relation: Name, block: u32 },
    Work { table: Name },
}

/// Why a line was refused, in the order of the numbers that are printed, from 1 to 14.
#[derive(Clone, Copy, Debug, PartialEq, Eq)]
pub enum Refusal {
    Syntax { at: usize },
    NoTable { at: usize },
    NoColumn { at: usize },
    NoTransaction,
    UnderWay,
    Doomed,
    Conflict { id: RowId },
    Full { relation: Name, number: u64 },
    NoIndex { at: usize },
    Limit { limit: u64 },
    Blocked { what: What, holder: Name },
    InHand,
    Memory,
    NothingStarted,
}

/// What a step of a statement did, where the statement goes on.
#[derive(Clone, Copy, Debug, PartialEq, Eq)]
pub enum Point {
    Row,
    Ask,
    Map,
    Copy,
    Again,
    Swap,
    Put,
    Set,
    Drop,
    Extent,
    Tuple,
    Page,
    Mark,
    Right,
    Pass,
    Clear,
    Prune,
    Sweep,
    Grow,
    Meta,
    Flag,
    Turn,
}

/// What ends a statement.
#[derive(Debug, Drop)]
pub enum Reply {
    Begun {
        t: u64,
    },
    Inserted {
        id: RowId,
    },
    Found(Rows),
    Deleted {
        count: u64,
    },
    Committed,
    RolledBack,
    Kept(Blocks),
    Summarized {
        count: u64,
    },
    Desummarized {
        count: u64,
    },
    Vacuumed {
        rows: u64,
        orphans: u64,
        ranges: u64,
    },
    Worked {
        index: Name,
        range: u32,
        count: u64,
    },
    Idle,
    Refused(Refusal),
}
