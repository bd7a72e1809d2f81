//! What a session is answered.

use thiserror::Error;

/// Why there is no session of a name: `Limit` exactly where it would be one more than the limit, `Memory` for want of memory.
#[derive(Clone, Copy, Debug, PartialEq, Eq, Error)]
pub enum SessionFault {
    #[error("there are {limit} sessions already")]
    Limit { limit: u64 },
    #[error("out of memory")]
    Memory,
}
