//! What a store shows of its indexes, published to readers that wait for nobody: so an explain finds its blocks with the store's lock free.
//!
//! What is shown is the bytes of each range's tuple, and how many blocks each table has (specs/Shown). By that alone it is told which blocks a query has to
//! read (specs/GivenBlocks). Pages show it (specs/ShownByPages), and so do posts. Laws say which tuple leaves a block out, and that an explain which judged
//! each range by the tuple that is shown tells the given blocks.
//!
//! The store posts each tuple and each extent that changes. A publishing puts the posts that wait behind those that readers see, all at once. A reader is
//! told, under the lock, of all posts that are published then; it answers by the fold of one list of posts, which begins with these
//! (specs/PublishedState, specs/Rule). Two copies of the shelf are kept: one for readers, and one for the writer. It stands on left_right. The layer above
//! uses `Directory`, `Told` and `Post`.
#![tactic(auto)]

mod directory;
mod judge;
mod kept;
mod laws;
mod listing;
mod post;
mod reader;
mod rule;
mod shelf;
#[cfg(test)]
mod tests;
mod verdicts;

pub use directory::Directory;
pub use kept_tuples::TupleBytes;
pub use laws::{
    a_block_is_left_out_by_a_tuple, an_explain_tells_the_given_blocks,
    pages_show_the_blocks_of_a_table,
};
pub use post::Post;
pub use reader::{GivenFault, Told};
