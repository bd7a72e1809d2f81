//! How much is held and promised at most.

/// How many page locks a session holds at most: those of a move.
pub const LOCKS_A_SESSION: usize = 3;

/// How many page locks are held at once at most.
pub const MAX_LOCKS: u32 = 320;

/// How many entries of the journal a begin is promised: its own, one for the request at which its transaction may fail, and one for the
/// transaction's end.
pub const ENTRIES_A_BEGIN: usize = 3;

/// How many requests for summaries an insert asks for in vain at most: one for each index that a store may have.
pub const DROPPED_A_SESSION: usize = 8;
