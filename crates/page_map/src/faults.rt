//! Why a call of the store, or of a machine over it, isn't done.

use thiserror::Error;

/// Why a call of a store of pages isn't done. Nothing is changed then.
#[derive(Clone, Copy, Debug, Error, PartialEq, Eq)]
pub enum StoreError {
    /// The disk failed in this call.
    #[error("the disk failed")]
    Disk,
    /// The disk failed in an earlier call, when its count of faults was this. Only opening it anew helps.
    #[error("the disk failed before, at fault {faults}")]
    Reopen { faults: u64 },
    /// The page that begins at this byte of the disk isn't as it should be.
    #[error("the page at byte {at} is damaged")]
    Damaged { at: u64 },
}

/// Why a step of a machine over pages isn't done.
#[derive(Clone, Copy, Debug, Error, PartialEq, Eq)]
pub enum MachineFault {
    /// The relation has no room; it has that many slots or blocks.
    #[error("relation {relation} is full at {number}")]
    Full { relation: u8, number: u64 },
    /// The page store refused.
    #[error("{0}")]
    Store(StoreError),
    /// Want of memory.
    #[error("out of memory")]
    Memory,
}
