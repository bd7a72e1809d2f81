//! Keeps the rows of tables in the slots of heap pages. The layer above uses six calls, with a `PageRows` that it makes
//! once, and sees a table as its blocks, each a list of slots (specs/HeapBlocks.antt). `put` takes the lowest free slot of
//! the lowest block that has one, else the first slot of the next block; it is full exactly where each slot of each block
//! that the table may have is in use. `mark` sets the deleter of a row, `deleter_of` tells it, and `drop_dead` makes the
//! slots of rows free. `rows_of` reads the rows of a block without taking memory, and `blocks` says how many there are. A
//! call that answers an error leaves every page as it was. At every moment of a call, what a crash may leave opens to the
//! pages from before it: a row, a mark or a drop is sure once the store is flushed. The crate stands on page_store.
#![tactic(auto)]

mod deleters;
mod dropping;
mod heap;
mod laws;
mod marking;
mod putting;
mod reading;
mod rows;

pub use deleters::deleter_of;
pub use dropping::drop_dead;
pub use laws::{blocks_of_a_table_are_one_list, unstarted_tables_have_no_blocks};
pub use marking::mark;
pub use page_store::PageStore;
pub use putting::put;
pub use reading::{blocks, rows_of};
pub use rows::{PageRows, Stored};
