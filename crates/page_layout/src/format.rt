//! Numbers of the format of pages.

/// The kind of a page of statuses.
pub const STATUS: u8 = 1;

/// The kind of a heap page.
pub const HEAP: u8 = 2;

/// How many statuses stand in a byte.
pub const STATUSES_A_BYTE: u16 = 4;

/// How many statuses a page has.
pub const STATUS_ENTRIES: u16 = 32640;

/// How many bytes a row has at most: 22, and eight ranges of 17.
pub const MAX_ROW: usize = 158;
