//! Why a disk isn't opened.

use thiserror::Error;

/// Why a disk isn't opened.
#[derive(Clone, Copy, Debug, Eq, Error, PartialEq)]
pub enum StartFault {
    /// The control page isn't a store's, or the disk hasn't the size that it says.
    #[error("no store")]
    NoStore,
    /// The opened frame whose gate is this byte of the disk isn't of its form, or the page that begins there isn't, or it breaks the
    /// order of pages.
    #[error("the store is damaged at byte {at}")]
    Damaged { at: u64 },
    #[error("the disk failed")]
    Disk,
    #[error("out of memory")]
    Memory,
}
