//! The parts of a store of sessions and the words in which its steps are said: pages, transactions, locks, journal, requests for summaries,
//! and what each session has in hand, as the machine that makes its steps. Which place of script_semantics they show stands in
//! specs/ShowsPlace.antt; a step of a session leads from each place that is shown before it to one that is shown after it
//! (specs/StepIs.antt). How statuses and snapshots stand to the journal is specs/FrontsStand.antt, with laws of what each step keeps of it.
//! The crates above each make the steps of one kind of statement, and session_core hands them out. It stands on script_semantics,
//! transactions and the machines of statements.
#![tactic(auto)]

mod dropped_requests;
mod faults;
mod hand;
mod journal;
mod laws_answers;
mod laws_leads;
mod laws_opening;
mod laws_places;
mod laws_refusals;
mod laws_requests;
mod laws_shares;
mod laws_steps;
mod laws_stores;
mod laws_submits;
mod laws_tables;
mod laws_undone;
mod limits;
mod names;
mod parts;
mod status_fronts;

pub use bitmap_scan::Explain;
pub use brin_insert::Queue;
pub use dropped_requests::DroppedRequests;
pub use faults::{Step, StoreFault, fault_of};
pub use hand::{Cleaning, Completing, Hand, Hit, Marking, Requested, Stepped};
pub use journal::Journal;
pub use laws_answers::answers_are_in_place;
pub use laws_leads::{
    a_request_leads, a_scan_saw_its_rows, few_rows_come_to_count, others_see_on, transactions_go_on,
};
pub use laws_opening::an_opened_store_is_shown;
pub use laws_places::{a_step_is_shown, places_after_a_step};
pub use laws_refusals::{a_refusal_is_shown, a_refusal_turns};
pub use laws_requests::{one_more_request, others_copies_stay, requests_are_legal};
pub use laws_shares::{
    a_holder_has_a_lock, each_session_holds_few_locks, few_locks_are_held, shares_are_summed,
};
pub use laws_steps::{a_machine_asks, a_machine_turns, a_turn_is_a_step, one_request_is_a_step};
pub use laws_stores::{a_fit_step_fits_everywhere, one_hand_changes, other_sessions_stay_fit};
pub use laws_submits::a_submitted_statement_is_shown;
pub use laws_tables::{
    another_table_stays, quiet_statements_lock_nothing, slots_stay_for_others,
    the_own_table_goes_on,
};
pub use laws_undone::an_undone_step_changes_nothing;
pub use limits::{DROPPED_A_SESSION, ENTRIES_A_BEGIN, LOCKS_A_SESSION, MAX_LOCKS};
pub use names::{index_named, lock_waited_for, page_waited_for, spent, table_named};
pub use packed_requests::EntryReader;
pub use parts::Parts;
pub use status_fronts::{
    a_begin_stands, a_start_stands, a_step_within_stands, an_end_stands, any_statuses_stand,
    rows_follow, seen_rows_stay,
};
pub use vacuum_core::Vacuum;
