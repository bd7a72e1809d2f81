//! What an entry is, without what it brings.

use block_model::Tag;

/// Which request an entry is, and how many values are put.
#[derive(Clone, Copy, Debug, PartialEq, Eq)]
pub(crate) enum Asked {
    Begin,
    Put(u8),
    Look,
    Mark,
    Commit,
    Rollback,
}

/// An entry without its values, row id and query.
#[derive(Clone, Copy, Debug, PartialEq, Eq)]
pub(crate) struct Head {
    pub session: u32,
    pub table: u8,
    pub asked: Asked,
    pub tag: Tag,
}
