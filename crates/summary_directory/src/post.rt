//! What a store posts.

use kept_tuples::TupleBytes;

/// A change of what an index or a table shows, by their numbers: a range has these bytes as its tuple, or none; the table has so many blocks.
#[derive(Debug, Drop)]
pub enum Post {
    Set {
        index: u8,
        range: u32,
        bytes: TupleBytes,
    },
    Clear {
        index: u8,
        range: u32,
    },
    Extent {
        table: u8,
        blocks: u32,
    },
}
