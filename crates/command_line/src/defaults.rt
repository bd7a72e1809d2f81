//! The sizes of a store where no option gives another.

/// Pages of tables.
pub const HEAP_BLOCKS: u32 = 4096;

/// Pages of indexes.
pub const INDEX_BLOCKS: u32 = 1024;

/// Pages of the states of transactions.
pub const STATUS_BLOCKS: u32 = 4;

/// Pages of the log.
pub const LOG_PAGES: u32 = 128;

/// Pages that are kept in memory.
pub const FRAMES: u32 = 256;
