//! Range tuples: what an index keeps of a range of blocks. For each indexed column a tuple has which of nulls and values rows had there,
//! and a summary of the values; it is a placeholder or final. No call loses a row, and a final tuple that doesn't keep conditions has no
//! row that matches them. Laws say the same of all tuples and all bytes, whichever class a column has (`tuples_are_sound`), as the protocol
//! of an index asks. It stands on byte_fields, opclass_api and the classes. The layers above use `RangeTuple`, which is made once an index
//! and read from bytes, `ListedTuple` in lists, `ScanKeys` for the conditions of a scan, the laws, and the words in specs/.
#![tactic(auto)]

mod column;
mod columns;
mod head;
mod laws;
mod listed;
mod scan_keys;
mod soundness;
mod spare;
mod state;
mod tuple;

pub use laws::{
    a_row_is_included_as_tested, a_union_adds_what_the_other_had, bytes_begin_with_the_range,
    rows_leave_exact_summaries, values_of_a_kind_are_taken,
};
pub use listed::ListedTuple;
pub use scan_keys::ScanKeys;
pub use soundness::{
    a_tuple_excludes_what_it_does_not_keep, a_union_adds_the_rows, classes_are_sound,
    lawful_classes_are_within_limits, tuples_are_sound,
};
pub use state::NullState;
pub use tuple::RangeTuple;
