//! The open transactions of all sessions, over statuses that stand on pages, and which database they show: one whose transactions each work
//! on a copy of the tables (specs/ShowsDatabase.antt). The pages are handed to each call; the layer above puts and marks rows itself. Laws
//! say what each such change is in the database, what a session sees of the rows in their slots, what no other session sees, and which
//! table each image of a disk opens to after a stop: the one of before, until a commit is sure. It stands on tx_table, on heap_rows, whose
//! rows are the versions (specs/ShownVersions.antt), and on snapshot_core.
#![tactic(auto)]

mod faults;
mod laws;
mod stop_laws;
mod transactions;

pub use faults::Unbegun;
pub use laws::{
    a_conflict_is_shown, a_failure_is_shown, a_look_is_shown, a_mark_is_shown,
    a_new_store_shows_nothing, a_put_is_shown, a_refusal_is_a_failure, a_row_is_of_transactions,
    a_row_of_a_copy_stands_once, a_session_has_its_transaction, a_session_sees_its_copy,
    a_stopped_commit_is_whole, an_opening_ends_all, ids_of_rows_differ, one_database,
    other_pages_show_alike, others_see_alike, rows_found_are_what_stands, which_rows_count,
};
pub use stop_laws::{
    a_commit_finds_either, a_shown_table_is_found, a_stop_leaves_a_whole_table,
    a_stop_leaves_what_was_passed, an_image_has_one_table, one_table_is_found,
    only_commits_change_the_table,
};
pub use transactions::Transactions;
