//! Numbers that several layers share.

/// How many columns a table has at most, and an index.
pub const MAX_COLUMNS: usize = 8;

/// How many conditions a query has at most.
pub const MAX_CONDITIONS: usize = 16;

/// How many bytes a name has at most.
pub const MAX_NAME: usize = 16;

/// The bytes of a page.
pub const PAGE_SIZE: usize = 8192;

/// The bytes of a page behind its header.
pub const PAGE_ROOM: usize = 8160;

/// The bytes of the greatest range tuple that a page takes.
pub const MAX_TUPLE: u64 = 8156;
