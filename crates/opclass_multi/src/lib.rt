//! The multi-minmax class of int8, as BRIN's: a summary keeps a few points and intervals, and where they count too much it
//! loses the least gaps between them, the lowest first. `Multi` meets the laws of `OpClass`. Which elements a summary has is
//! exact: those with a common number are joined in one way and reduced in one way (`laws`), and bytes are refused exactly
//! where they encode no summary, at their first field out of form. A list of values gives what adding them in order gives.
//! It stands on block_model, opclass_api and byte_fields. Layers above name the class by its trait.
#![tactic(auto)]

mod bytes;
mod class;
mod conditions;
mod element;
mod exact;
mod join;
mod laws;
mod reduce;
mod summary;
mod widen;

pub use class::Multi;
pub use element::Element;
pub use exact::exact_summary;
pub use laws::{joined_in_one_way, reduced_in_one_way};
pub use summary::Summary;
