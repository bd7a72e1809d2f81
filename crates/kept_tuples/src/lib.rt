//! The tuples of an index's ranges in memory, as their bytes, and what is known of them without reading: so a scan over many ranges compares two
//! numbers for each, if the index is on one minmax column.
//!
//! `Ranges` has the tuple of each range, if it has one, and beside it the bounds of a minmax column, if its bytes are those of a final tuple of one
//! such column with values (`Tells`). What conditions want of such a column is gathered once (`Wanted`): a tuple with these bounds keeps the conditions
//! exactly if it may have what they want (`IsWanted`). It stands on byte_fields, opclass_minmax and range_tuple. The layer above uses `Ranges`,
//! `TupleBytes`, `Bounds` and `Wanted`, and `put_at` for other lists with blanks between.
#![tactic(auto)]

mod bounds;
mod places;
mod ranges;
mod tuple_bytes;
mod wanted;

pub use bounds::Bounds;
pub use places::{Blank, put_at};
pub use ranges::{Ranges, put_tuple};
pub use tuple_bytes::TupleBytes;
pub use wanted::Wanted;
