//! The version of a row in its table.

use block_model::Row;

/// A row, and the number of the transaction that deleted it, 0 where none has. The deletes of a transaction that has rolled
/// back are void, and the next deleter's number takes its place.
#[derive(Debug, PartialEq, Drop)]
pub struct Version {
    pub row: Row,
    pub deleter: u64,
}
