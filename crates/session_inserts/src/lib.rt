//! The steps of an insert over the parts of a store (session_parts): the first one puts its row, and each later one is a step in an index
//! of its table, or asks for the summary of the range before its row's. Memory is taken with the first step alone, before it changes
//! anything: the insert's machine, which another insert into the table may have left, and one entry of the journal. Each step leads from
//! every place that was shown before to one that is shown after it, by the definition's step. It stands on session_parts, and on the
//! machine of brin_insert.
#![tactic(auto)]

mod entering;
mod in_index;
mod laws;
mod machines;
mod row;

pub use in_index::insert_on;
pub use row::put_row;
