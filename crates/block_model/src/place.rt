//! Places in relations.

use crate::sequence::Sequence;

/// Numbers of blocks, seen as their list.
pub type Blocks = Sequence<u32>;

/// Numbers, seen as their list.
pub type Numbers = Sequence<u64>;

/// A block of the relation of that number.
#[derive(Clone, Copy, Debug, PartialEq, Eq)]
pub struct Place {
    pub relation: u8,
    pub block: u32,
}

/// A slot of a block.
#[derive(Clone, Copy, Debug, PartialEq, Eq)]
pub struct Spot {
    pub block: u32,
    pub slot: u16,
}
