//! The cleaning part of a vacuum of a table, by steps. It takes the table's summarise lock and reads the extent; drops of each heap block below
//! it the rows that are dead to all; and then, of each page of the table's indexes with tuples, the tuples that the map doesn't name, under
//! that page's lock. Each step is one of the table (specs/TableSteps). Behind it the vacuum goes on with summaries of the complete ranges,
//! which are summarise_core's. No step takes memory. It stands on heap_rows, snapshot_core, tx_table, revmap, index_steps and coverage.
#![tactic(auto)]

mod dead_rows;
mod dropping;
mod indexes;
mod judging;
mod law_table;
mod next_page;
mod pruning;
mod standing;
mod sweeping;
mod vacuum;

pub use law_table::{
    a_kept_table_takes_a_vacuum, a_vacuum_ends_alone, a_vacuum_keeps_its_table,
    a_vacuum_steps_in_its_table,
};
pub use standing::Standing;
pub use vacuum::Vacuum;
