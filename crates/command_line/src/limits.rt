//! How far the numbers of a demo go.

/// The greatest seed.
pub const MAX_SEED: u32 = 1_000_000;

/// The fewest rows.
pub const MIN_ROWS: u32 = 1;

/// The most rows.
pub const MAX_ROWS: u32 = 200_000;
