//! The inclusion classes: a summary keeps the smallest range or network that includes all values. `SpanHull` over int8range
//! and `NetHull` over inet meet the laws of `OpClass`, and from a list of values each summary is exact, whatever the order.
//! They stand on block_model, opclass_api and byte_fields. Layers above name a class by its trait.
#![tactic(auto)]

mod fields;
mod net_bytes;
mod net_class;
mod net_exact;
mod net_keys;
mod net_summary;
mod span_bytes;
mod span_class;
mod span_exact;
mod span_keys;
mod span_summary;

pub use net_class::NetHull;
pub use net_exact::{net_exact_summary, net_union_is_exact};
pub use net_summary::NetSummary;
pub use span_class::SpanHull;
pub use span_exact::{span_exact_summary, span_union_is_exact};
pub use span_summary::SpanSummary;
