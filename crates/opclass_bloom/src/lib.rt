//! The bloom class of int8 and inet: a summary keeps one bit for each of its positions, and a value is some positions made
//! from its hash. `Bloom` meets the laws of `OpClass`; a value sets its positions and no other, and from a list of values the
//! summary is exactly their positions, whatever the order. It stands on block_model and opclass_api. Layers above name the
//! class by its trait.
#![tactic(auto)]

mod bits;
mod class;
mod exact;
mod hash;
mod summary;

pub use class::Bloom;
pub use exact::{
    a_union_sets_the_positions_of_either, a_value_sets_its_positions, exact_summary, union_is_exact,
};
pub use summary::Summary;
