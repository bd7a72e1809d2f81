//! What a step of a session is answered.

ghost use Rattle.std.specs.Prelude.{◌≡◌};
ghost use Rattle.session_parts.specs.StoreFaults.{fault_of};

use block_model::{Point, Reply, What};
use page_map::StoreError;
use thiserror::Error;

/// What a step did: the statement goes on behind a step of this name; it is done, with its reply; or nothing was changed, since that
/// session holds what the step needs.
#[derive(Debug, Drop)]
pub enum Step {
    Moved(Point),
    Done(Reply),
    Blocked { what: What, holder: u32 },
}

/// Why a step didn't do its work. The statement stays in hand.
#[derive(Clone, Copy, Debug, PartialEq, Eq, Error)]
pub enum StoreFault {
    /// The disk failed in this step.
    #[error("the disk failed")]
    Disk,
    /// The disk failed in an earlier step, when its count of faults was this. Only opening the store anew helps.
    #[error("the disk failed before, at fault {faults}")]
    Reopen { faults: u64 },
    /// The page that begins at this byte of the disk isn't as it should be.
    #[error("the page at byte {at} is damaged")]
    Damaged { at: u64 },
    /// The requests that it would enter don't all fit into the journal, which has so many entries.
    #[error("the requests don't fit into the journal, which has {entries}")]
    Spent { entries: u64 },
}

/// The fault of a step whose pages are refused so.
pub fn fault_of(error: StoreError) -> StoreFault
    ensures { result ≡ fault_of error }
{
    match error {
        StoreError::Disk => StoreFault::Disk,
        StoreError::Reopen { faults } => StoreFault::Reopen { faults },
        StoreError::Damaged { at } => StoreFault::Damaged { at },
    }
}
