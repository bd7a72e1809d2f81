//! No scan loses a row to a summary, whatever the order in which inserts, summarisers, vacuums and scans take their steps: the definitions
//! of a covered index and of a covered table, and the laws of their changes. specs/Steps has the steps in one index, specs/TableSteps those
//! of statements over all indexes of a table. Each change keeps the view of rows, tuples, range map and locks sound, and leaves to all
//! other sessions what they know (`GoesOn`); so every list of steps keeps each index covered. It stands on block_model's rows and on how
//! much room slots take (index_layout): on no operator class and no machine. A layer above shows of each of its steps which one of these it is, and has the rest from
//! here.
#![tactic(auto)]

mod index_laws;
mod table_laws;

pub use index_laws::{
    a_map_grows, a_page_with_room_is_not_full, a_range_is_summarised, an_insert_moves_a_tuple,
    changes_are_sound, counts_are_exact, each_step_is_the_next_one, index_stays_covered,
    knowledge_is_stable, opened_index_is_kept, others_go_on, results_are_exact, scans_miss_nothing,
    settled_is_accounted, some_step_comes, steps_are_of_the_index, verdicts_are_exact,
};
pub use table_laws::{
    a_row_begins_its_insert, a_table_steps_with_its_index, a_vacuum_ends, accounts_are_exact,
    an_ask_is_taken_up, blocked_statements_wait, machines_in_one_index, machines_keep,
    nothing_is_skipped, ranges_are_exact, refusals_have_their_cause, scans_are_exact,
    statements_end, statements_go_on, statements_go_on_in_one_way, summarises_end,
    table_scans_miss_nothing, table_stays_covered,
};
