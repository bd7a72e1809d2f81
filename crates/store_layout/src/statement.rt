//! What a session may ask for.

use block_model::{Query, Values};

/// A statement of a session. Tables and indexes go by their numbers.
#[derive(Debug, Drop)]
pub enum Statement {
    Begin,
    Commit,
    Rollback,
    Insert { table: u8, values: Values },
    Select(Query),
    Delete(Query),
    Explain(Query),
    Summarize { index: u8, block: Option<u32> },
    Desummarize { index: u8, block: u32 },
    Vacuum { table: u8 },
    Work,
}
