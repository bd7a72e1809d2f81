//! The steps of a select, and of the scan of a delete, over the parts of a store (session_parts): the extent of the table, the ranges of its indexes,
//! and the candidate blocks. With its last step a select tells the rows that it found, in order of their ids, and its look is entered; a delete goes
//! on to its marks (session_transactions), or is done where it found none. No step waits, none changes a page, and memory is taken before anything is
//! entered. Each leads from every place that was shown before to one that is shown after it, by the definition's step. It stands on session_parts,
//! on the machine of bitmap_scan, and on transactions.
#![tactic(auto)]

mod begins;
mod finishing;
mod keeping;
mod laws;
mod lists;
mod looking;
mod refusing;
mod scanning;
mod selects;

pub use selects::{begin_delete, begin_select, delete_on, select_on};
