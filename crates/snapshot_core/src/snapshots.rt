//! Snapshots.

use block_model::Numbers;

/// What a transaction knew of the others when it took the snapshot: the number that the next transaction was to have,
/// and the numbers of those that were under way.
#[derive(Debug, Drop)]
pub struct Snapshot {
    pub next: u64,
    pub active: Numbers,
}
