//! Limits of lines.

use block_model::MAX_CONDITIONS;

/// How many conditions may follow the first.
pub const MORE_CONDITIONS: u8 = MAX_CONDITIONS as u8 - 1;
