//! An insert of a row, by steps (`Insert`): it puts the row into the heap; then, in each index of the table, in the order of their
//! declarations, it reads the map, copies the tuple of its row's range, adds the row, and has the tuple with the row take the old one's
//! place, if that still stands there; else it reads the map again. Before that it asks for a summary of the range before its row's, where
//! the index has autosummarize, the row is at the first place of its range, and the one before has no entry; `Queue` holds these requests,
//! first come first taken. Each step is one of coverage's insert in the table that the pages and the page locks show, under its point. No
//! step takes memory, and one copies a tuple at most. An insert that is stepped alone ends or waits within a number of steps. It stands on
//! index_steps and heap_rows.
#![tactic(auto)]

mod in_index;
mod index_insert;
mod indexes;
mod insert;
mod laws;
mod queue;
mod stage;

pub use index_insert::IndexInsert;
pub use insert::Insert;
pub use laws::{
    an_ask_is_of_the_accounts, an_insert_ends_alone, an_insert_is_a_machine_of_its_table,
    an_insert_steps_in_its_table,
};
pub use queue::{MAX_REQUESTS, Queue};
pub use stage::Stage;
