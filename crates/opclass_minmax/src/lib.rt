//! The minmax class of int8: a summary keeps the least and the greatest value, and is asked by them alone. `MinMax` meets
//! the laws of `OpClass`, and from a list of values the summary is exactly their least and greatest, whatever the order.
//! It stands on block_model, opclass_api and byte_fields. Layers above name the class by its trait.
#![tactic(auto)]

mod bytes;
mod class;
mod exact;
mod laws;
mod summary;

pub use class::MinMax;
pub use exact::{exact_summary, summaries_include_their_values, union_is_exact};
pub use laws::a_summary_misses_no_match;
pub use summary::Summary;
