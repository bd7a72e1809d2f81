//! Why an entry isn't set.

use block_model::Spot;
use page_map::StoreError;
use thiserror::Error;

/// Why an entry of the map isn't set. Nothing is changed then.
#[derive(Clone, Copy, Debug, Error, PartialEq, Eq)]
pub enum SetFault {
    /// The entry is another than the expected one.
    #[error("the entry has changed")]
    Changed { now: Option<Spot> },
    /// The page store refused.
    #[error("{0}")]
    Store(StoreError),
}
