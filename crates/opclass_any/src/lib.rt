//! The five forms of operator class as one class: an enum of classes, one of their summaries, and the trait of classes met by
//! both together. It stands on opclass_api and the four crates of classes, and alone names them. The layer above uses `AnyClass`
//! by the laws of the trait, and the words in specs/.
#![tactic(auto)]

mod classes;

pub use classes::{AnyClass, AnySummary};
