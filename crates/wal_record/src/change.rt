//! Changes of pages.

use block_model::{Place, Spot};
use thiserror::Error;

/// A change of the page at its place. `bytes` and `slots` are borrowed; `slots` holds two bytes per slot, as logged.
#[derive(Clone, Copy, Debug, PartialEq, Eq)]
pub enum Change<'a> {
    /// The page holds these 8192 bytes.
    FullPage {
        place: Place,
        bytes: &'a [u8],
    },
    /// The page is an empty one of that kind.
    PageStart {
        place: Place,
        kind: u8,
    },
    /// A row of at most 65535 bytes stands in the slot.
    RowPut {
        place: Place,
        slot: u16,
        bytes: &'a [u8],
    },
    /// The row in the slot is deleted by that transaction.
    RowMark {
        place: Place,
        slot: u16,
        deleter: u64,
    },
    /// The rows in these slots are gone: at most 65535 slots.
    RowsDrop {
        place: Place,
        slots: &'a [u8],
    },
    /// A tuple of at most 65535 bytes stands in the slot.
    TuplePut {
        place: Place,
        slot: u16,
        bytes: &'a [u8],
    },
    /// A tuple of at most 65535 bytes stands in the slot in place of the one before.
    TupleReplace {
        place: Place,
        slot: u16,
        bytes: &'a [u8],
    },
    /// The tuples in these slots are gone: at most 65535 slots.
    TupleDrop {
        place: Place,
        slots: &'a [u8],
    },
    /// The page takes no more tuples.
    Evacuate {
        place: Place,
    },
    /// The page is an empty page of the map.
    MapPage {
        place: Place,
    },
    /// The entry of the map names the tuple at the spot. A spot of zeros is no entry.
    MapSet {
        place: Place,
        entry: u16,
        spot: Spot,
    },
    /// The map has that many pages.
    MetaSet {
        place: Place,
        maps: u32,
    },
    /// The entry of the table of transactions has that status.
    StatusSet {
        place: Place,
        entry: u16,
        status: u8,
    },
}

/// No change begins the bytes. `at` is the first byte at which no change can go on: 0 at a tag that none has, and the
/// length where bytes are missing.
#[derive(Clone, Copy, Debug, Eq, Error, PartialEq)]
#[error("no change goes on at byte {at}")]
pub struct Malformed {
    pub at: usize,
}
