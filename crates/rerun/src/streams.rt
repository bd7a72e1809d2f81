//! What two runs over one store are given, and what they leave.

use disk_trait::MemoryDisk;
use io_traits::{MemorySink, MemorySource};

/// How many calls a disk has room to record, and how many bytes that they write.
#[derive(Clone, Copy, Debug)]
pub struct Room {
    pub calls: u64,
    pub bytes: u64,
}

/// A script, and what takes its texts.
#[derive(Debug, Drop)]
pub struct Streams {
    pub script: MemorySource,
    pub texts: MemorySink,
}

/// The statuses of two runs over one store, and the store's disk behind them.
#[derive(Debug, Drop)]
pub struct Ends {
    pub first: u8,
    pub second: u8,
    pub disk: MemoryDisk,
}
