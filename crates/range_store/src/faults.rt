//! Why a tuple isn't replaced.

use page_map::StoreError;
use thiserror::Error;

/// Why a tuple doesn't give way to another. Nothing is changed then.
#[derive(Clone, Copy, Debug, Error, PartialEq, Eq)]
pub enum SwapFault {
    /// Other bytes stand at the spot: so many from that byte of its page on, or none.
    #[error("the tuple has changed")]
    Changed { size: u16, at: u16 },
    /// The tuple stands there, and the page has no room for so many bytes in its place, but for that many; none where the page
    /// takes no tuples any more.
    #[error("{need} bytes don't fit in place, where {most_free} do")]
    Full { need: u16, most_free: u16 },
    /// The page store refused.
    #[error("{0}")]
    Store(StoreError),
}
