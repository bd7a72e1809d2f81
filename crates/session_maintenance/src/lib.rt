//! The steps of statements that keep the indexes and tables of a store, and tell what they leave out, over its parts (session_parts): of an explain, a
//! summarise, a desummarise, of work, which makes the summaries that inserts ask for, and of a vacuum. A vacuum cleans its table first: it takes the
//! summarise lock, drops the rows that are dead to all, block by block, and the tuples of the table's indexes that their maps don't name, page by
//! page; then it makes the summaries of one index after the other. Each step leads from every place that was shown before to one that is shown after
//! it, by the definition's step; after a step that drops rows the store shows the same database, since nobody sees them. It stands on session_parts, on
//! session_parts, which says which rows are dead, and on the machines of bitmap_scan, summarise_core, summarise_core and vacuum_core.
#![tactic(auto)]

mod asker;
mod cleaning;
mod complete;
mod complete_answers;
mod dead_rows;
mod desummarise;
mod explain;
mod first_request;
mod settle;
mod summarise;
mod work;

pub use cleaning::clean_on;
pub use complete::complete_on;
pub use dead_rows::{
    a_table_is_watched, dead_to_all_is_dead, oldest_speaks_for_all, rows_of_a_delete,
};
pub use desummarise::desummarise_on;
pub use explain::explain_on;
pub use summarise::summarise_on;
pub use work::{begin_work, work_on};
