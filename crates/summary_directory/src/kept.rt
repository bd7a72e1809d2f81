//! What both copies of a shelf have in common, and what a seat at them knows. No value of either is made: a clause reads an array as a list of
//! any length.

use crate::post::Post;
use kept_tuples::TupleBytes;

/// The tuples by index and range, the blocks by table, and how many posts were taken in.
pub struct Kept {
    pub tuples: [[Option<TupleBytes>; 0]; 0],
    pub extents: [u32; 0],
    pub posts: u64,
}

/// The posts of which a seat has seen the fold, and those that it was told of.
pub struct Learnt {
    pub seen: [Post; 0],
    pub told: [Post; 0],
}
