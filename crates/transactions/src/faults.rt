//! Why a transaction isn't begun.

use tx_table::BeginFault;

/// A transaction that isn't begun, and why. The list of numbers comes back as it was handed in.
#[derive(Debug, Drop)]
pub struct Unbegun {
    pub fault: BeginFault,
    pub active: Vec<u64>,
}
