//! Tables, their columns and indexes, and the sizes of a store.

use crate::name::Name;
use crate::sequence::Sequence;
use crate::value::Kind;

/// A column of a table.
#[derive(Clone, Copy, Debug, PartialEq, Eq)]
pub struct Column {
    pub name: Name,
    pub kind: Kind,
}

/// Columns, seen as their list.
pub type Columns = Sequence<Column>;

/// A table.
#[derive(Debug, Drop)]
pub struct Table {
    pub name: Name,
    pub rows_per_page: u16,
    pub columns: Columns,
}

/// Tables, seen as their list.
pub type Tables = Sequence<Table>;

/// The operator class of an indexed column, with its parameters ("Built-in Operator Classes" of BRIN indexes).
#[derive(Clone, Copy, Debug, PartialEq, Eq)]
pub enum Class {
    MinMax,
    Multi { limit: u16 },
    Inclusion,
    Bloom { bits: u16, hashes: u8 },
}

/// An indexed column: its number in the table, and its class.
#[derive(Clone, Copy, Debug, PartialEq, Eq)]
pub struct Part {
    pub column: u8,
    pub class: Class,
}

/// Indexed columns, seen as their list.
pub type Parts = Sequence<Part>;

/// A BRIN index on the table of that number.
#[derive(Debug, Drop)]
pub struct Index {
    pub name: Name,
    pub table: u8,
    pub pages_per_range: u32,
    pub auto: bool,
    pub parts: Parts,
}

/// Indexes, seen as their list.
pub type Indexes = Sequence<Index>;

/// The tables and indexes of a store.
#[derive(Debug, Drop)]
pub struct Schema {
    pub tables: Tables,
    pub indexes: Indexes,
}

/// How many blocks a table, an index and the status relation may have, the pages of the log, and the frames of the
/// buffer pool.
#[derive(Clone, Copy, Debug, PartialEq, Eq)]
pub struct Sizes {
    pub heap_blocks: u32,
    pub index_blocks: u32,
    pub status_blocks: u32,
    pub log_pages: u32,
    pub frames: u32,
}
