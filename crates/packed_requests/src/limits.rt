//! The room that an entry may need.

/// How many numbers a value has at most: both bounds of a range.
pub const NUMBERS_A_VALUE: usize = 2;

/// How many numbers an entry has at most: those of eight ranges.
pub const NUMBERS_AN_ENTRY: usize = 16;
