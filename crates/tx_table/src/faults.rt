//! Why a transaction isn't begun.

use page_map::StoreError;
use thiserror::Error;

/// Why a transaction isn't begun.
#[derive(Clone, Copy, Debug, Error, PartialEq, Eq)]
pub enum BeginFault {
    /// No number is left: the next one would be this.
    #[error("no number below {number} is left")]
    Spent { number: u64 },
    /// The page store refused.
    #[error("{0}")]
    Store(StoreError),
}
