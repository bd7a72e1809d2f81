//! Operator classes: how a summary of values is built, asked and written. The contract of `OpClass` says which values a
//! summary includes, that no call loses one, and that a summary which can't hold a match is the only one that says so.
//! It stands on block_model. A class is one impl of the trait; the layers above rest on the trait alone. What classes
//! share stands here too: conditions judged by a least and a greatest number.
#![tactic(auto)]

mod bounds;
mod class;
mod summary;

pub use bounds::key_holds;
pub use class::{Malformed, OpClass};
pub use summary::{add_all, may_match, summary_of};
