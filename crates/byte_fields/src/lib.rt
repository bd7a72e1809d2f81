//! Numbers in fields of bytes, the highest byte first: each `put_*` changes the bytes of its field alone and makes them spell
//! the number, each `get_*` reads exactly them. What was put is got, and bytes that were got and are put again are the same
//! bytes. It stands on byteorder. The words are in specs/Fields.antt, with the laws for fields of any number of bytes, on
//! which pages, changes and tuples rest.
#![tactic(auto)]

mod get;
mod laws;
mod put;

pub use get::{get_i64, get_u16, get_u32, get_u64};
pub use laws::a_put_keeps_the_rest;
pub use put::{put_i64, put_u16, put_u32, put_u64};
