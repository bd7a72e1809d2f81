//! What a store is made for, and what sessions ask of it. A layout is tables, indexes and sizes within twelve limits, and the byte of the
//! disk at which each page begins. A statement is what a line asks: here stands which statements fit a schema, which requests of a
//! transaction each is and what it is answered, how sessions get their numbers, and how many rows a table has room for. It stands on
//! block_model. The layers above make a `Layout` once, by `Layout::new`, and take from `known` that every limit is kept; small layouts
//! serve tests.
#![tactic(auto)]

mod layout;
mod limits;
mod relations;
mod small;
mod statement;

pub use layout::{
    FORMAT, Layout, OverLimit, pages_fill_the_disk, the_first_broken_rule_is_the_least,
};
pub use limits::{MAX_ENTRIES, MAX_SESSIONS};
pub use relations::{blocks_of, count_relations};
pub use small::{LEAST, indexed_layout, table_layout};
pub use statement::Statement;
