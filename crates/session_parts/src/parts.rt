//! The parts of a store but for its sessions.

use crate::dropped_requests::DroppedRequests;
use crate::journal::Journal;
use brin_insert::Queue;
use disk_trait::Disk;
use heap_rows::PageStore;
use page_locks::{Locks, Rights};
use std::alloc::Global;
use transactions::Transactions;

/// The pages, the transactions over them, who locks which page of an index and who holds the summarise lock of which table, the journal, the
/// requests for summaries, and what each session's latest insert asked for in vain.
#[derive(Drop)]
pub struct Parts<D: Disk + Drop> {
    pub alloc: Global,
    pub pages: PageStore<D>,
    pub transactions: Transactions,
    pub locks: Locks,
    pub rights: Rights,
    pub journal: Journal,
    pub queue: Queue,
    pub dropped: DroppedRequests,
}
