//! Why a log isn't redone.

use thiserror::Error;

/// Why a log isn't redone.
#[derive(Clone, Copy, Debug, Eq, Error, PartialEq)]
pub enum RedoFault {
    /// The opened frame whose gate is this byte of the disk isn't of its form.
    #[error("an opened frame at byte {at} is damaged")]
    Damaged { at: u64 },
    #[error("the disk failed")]
    Disk,
}

/// Why a change isn't redone.
#[derive(Clone, Copy, Debug)]
pub(crate) enum Stop {
    /// It can't stand where it does.
    Amiss,
    Disk,
}
