//! Summaries made and taken away, by steps. `Summarise` takes the table's summarise lock, reads the extent, and goes over the ranges of an
//! index, or of a vacuum's complete ranges, one after the other. At a range `RangeSummarise` has the map grow where it must, puts a
//! placeholder or takes one up, reads the extent, adds the rows of the range's blocks to a running tuple, and has both, united, take the
//! placeholder's place if that still stands as it was copied. `Desummarise` takes a range's entry out of the map where it still names the
//! same tuple, and drops the tuple. Each step is one of coverage's (specs/SummariseTable, specs/DesummariseTable), and what is made of a
//! range is exact. No step takes memory, and one copies a tuple at most. It stands on index_steps and heap_rows.
#![tactic(auto)]

mod course;
mod desummarise;
mod desummarise_indexes;
mod desummarise_laws;
mod desummarise_stage;
mod desummarise_steps;
mod growing;
mod in_range;
mod range_laws;
mod range_stage;
mod range_summarise;
mod rows;
mod summarise;
mod summarise_laws;
mod wish;
mod work;

pub use course::Standing;
pub use desummarise::Desummarise;
pub use desummarise_laws::{
    a_desummarise_ends_alone, a_desummarise_keeps_its_table, a_desummarise_steps_in_its_table,
    a_kept_table_takes_a_desummarise,
};
pub use desummarise_stage::Stage as DesummariseStage;
pub use range_laws::{
    a_final_tuple_is_exact, a_kept_index_takes_a_summarise, a_running_tuple_is_exact,
};
pub use range_stage::Stage;
pub use range_summarise::RangeSummarise;
pub use rows::{blocks_a_range, first_block, table_of};
pub use summarise::Summarise;
pub use summarise_laws::{
    a_kept_table_takes_a_summarise, a_summarise_ends_alone, a_summarise_keeps_its_table,
    a_summarise_steps_in_its_table,
};
pub use wish::Wish;
