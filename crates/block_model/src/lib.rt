//! The vocabulary of the engine: values, rows, queries, schemas, requests and replies, and the definitions that every
//! contract cites. It stands on std alone; each crate above stands on it. The layer above uses the types as the lists,
//! ranges and networks that contracts see, `matches` and `row_matches`, and the definitions of private copies in specs/.
#![tactic(auto)]

mod limits;
mod memory;
mod name;
mod net;
mod place;
mod reply;
mod request;
mod row;
mod schema;
mod sequence;
mod sizes;
mod span;
mod value;
mod words;

pub use limits::{MAX_COLUMNS, MAX_CONDITIONS, MAX_NAME, MAX_TUPLE, PAGE_ROOM, PAGE_SIZE};
pub use memory::NoMemory;
pub use name::Name;
pub use net::Net;
pub use place::{Blocks, Numbers, Place, Spot};
pub use reply::{Point, Refusal, Reply, Text, What};
pub use request::{Entry, Request, Tag};
pub use row::{Cond, Conds, Query, Row, RowId, Rows, row_matches};
pub use schema::{
    Class, Column, Columns, Index, Indexes, Part, Parts, Schema, Sizes, Table, Tables,
};
pub use sequence::Sequence;
pub use sizes::{columns_of, kind_at, most_rows, tuple_size};
pub use span::{Span8, SpanFault};
pub use value::{Kind, Kinds, Op, Value, Values, matches};
pub use words::Words;
