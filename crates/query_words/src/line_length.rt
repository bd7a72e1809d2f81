//! The limit of lines.

/// How many bytes a line has at most.
pub const MAX_LINE: usize = 65535;
