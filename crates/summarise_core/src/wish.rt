//! What a summarise is asked for.

/// Which ranges of its index a summarise goes over.
#[derive(Clone, Copy, Debug, PartialEq, Eq)]
pub enum Wish {
    /// Those whose first block is below the extent.
    New,
    /// The range of this block alone, if its first block is below the extent.
    Block(u32),
    /// Those whose blocks are all below the extent, as a vacuum asks for.
    Complete,
}
