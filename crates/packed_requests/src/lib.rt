//! The requests of a store at run time, packed: an entry is taken apart into a head of eight bytes and, in lists that all entries share, a
//! byte for each value of a put, the numbers of values and row ids, and the queries of looks. A reader gives each entry anew. Room is
//! taken ahead, so that an entry can be added without memory. It stands on block_model; session_parts keeps its journal so.
#![tactic(auto)]

mod adding;
mod head;
mod limits;
mod packed;
mod queries;
mod reader;
mod reading;
mod shape;

pub use packed::PackedEntries;
pub use reader::EntryReader;
