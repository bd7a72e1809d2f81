//! Scans of a table by its block range indexes, by steps: the block count; for each range of each index the map, and the tuple
//! that it names; then the candidate blocks. An explain tells these, a scan reads them. Each step is one of coverage's scan of the table that the
//! pages show (specs/ScanSteps), under its point, so coverage's law holds of it: no scan loses a row to a summary. No step
//! waits, and none changes a page. It stands on index_steps, heap_rows, index_steps and coverage.
#![tactic(auto)]

mod explain;
mod honesty;
mod judging;
mod laws;
mod ranges;
mod readers;
mod scan;
mod sight;
mod stage;

pub use explain::Explain;
pub use honesty::scans_are_honest;
pub use laws::{
    a_kept_table_is_scanned, a_scan_finds_what_its_session_sees, a_scan_steps_in_its_table,
    a_seen_row_stays_in_its_place, what_is_remembered_stands, what_is_seen_stays,
};
pub use scan::Scan;
pub use stage::Stage;
