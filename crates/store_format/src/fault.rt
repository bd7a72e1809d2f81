//! Why no store is made.

use thiserror::Error;

/// Why no store is made of a disk.
#[derive(Clone, Copy, Debug, Eq, Error, PartialEq)]
pub enum FormatFault {
    /// The layout wants a disk of `wanted` bytes, and this one has `found`. Nothing was done.
    #[error("a store of this layout takes {wanted} bytes and the disk has {found}")]
    Size { wanted: u64, found: u64 },
    #[error("the disk failed")]
    Disk,
    /// Want of memory. Making a store takes none, so it is never answered.
    #[error("out of memory")]
    Memory,
}
