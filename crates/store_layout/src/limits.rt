//! How much a store takes.

/// How many sessions there are at most.
pub const MAX_SESSIONS: usize = 64;

/// How many requests the journal has at most.
pub const MAX_ENTRIES: usize = 1 << 20;
