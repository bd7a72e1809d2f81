//! The statuses with which the program ends.

/// The script was read to its end.
pub const DONE: u8 = 0;

/// The words are no command, or a limit is passed.
pub const USAGE: u8 = 2;

/// A read of the source failed.
pub const READ_FAULT: u8 = 4;

/// A write to the sink failed.
pub const WRITE_FAULT: u8 = 5;

/// The disk failed.
pub const DISK_FAULT: u8 = 6;

/// Memory ran out.
pub const MEMORY: u8 = 7;

/// A limit of a run is reached: the requests of a line don't fit into the journal, or `SCRIPT_LIMIT` bytes of script were
/// taken and another came.
pub const LIMIT: u8 = 8;

/// The disk has no store, or one that is to be made wants a disk of another size.
pub const NO_STORE: u8 = 9;

/// A page or a frame of the log that was read isn't of its form.
pub const DAMAGED: u8 = 11;

/// How many bytes of script are taken.
pub const SCRIPT_LIMIT: u64 = 1 << 30;
