//! What sessions ask of the tables.

use crate::row::{Query, RowId};
use crate::value::Values;

/// One request of a transaction.
#[derive(Debug, Drop)]
pub enum Request {
    Begin,
    Put(Values),
    Look(Query),
    Mark(RowId),
    Commit,
    Rollback,
}

/// How a request went where room and memory decide.
#[derive(Clone, Copy, Debug, PartialEq, Eq)]
pub enum Tag {
    Ok,
    Full,
    NoMemory,
}

/// A request of the session of that number, with its tag; the table's number is that of a put, look or mark, and else 0.
#[derive(Debug, Drop)]
pub struct Entry {
    pub session: u32,
    pub table: u8,
    pub request: Request,
    pub tag: Tag,
}
