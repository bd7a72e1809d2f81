//! Laws of script_semantics, for a reader to believe the definition by: of the texts of lines at every place to which a script comes,
//! however its sessions interleave; and of worked rows with maintenance, whose lines have these texts, step by step, and what they count,
//! take out of the queue or wait for is this (specs/); and how many requests they make at most, so that a caller can tell which scripts fit the
//! journal. It stands on script_semantics and coverage. brin_app cites what is said of requests. Each function does nothing.
#![tactic(auto)]

mod asking;
mod fullness;
mod lines_waiting;
mod looking;
mod maintaining;
mod maintenance_texts;
mod requests;
mod scripts;
mod waiting;
mod working;

pub use asking::an_ask_beyond_64_is_dropped;
pub use fullness::an_index_with_room_is_never_full;
pub use lines_waiting::{
    a_session_without_statement_rests, a_step_waits_for_a_statement_in_hand,
    answered_lines_lead_there,
};
pub use looking::a_select_misses_nothing;
pub use maintaining::{
    a_range_is_desummarized, a_range_is_summarized, a_vacuum_counts_what_it_drops,
};
pub use maintenance_texts::{a_desummarize_answers_its_range, a_summarize_leaves_no_range_out};
pub use requests::{
    a_step_enters_few_requests, short_scripts_have_room, the_requests_of_lines_are_bounded,
    words_bound_requests,
};
pub use scripts::a_script_summarizes_its_row;
pub use waiting::a_step_is_told_its_holder;
pub use working::work_takes_the_first;
