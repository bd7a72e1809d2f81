//! What the program does, as a definition: the text of each line of a script, and where it leads, where statements run in steps that
//! sessions interleave (specs/). A place has the sessions' names, the journal of their requests, the statement that each has in hand and
//! the state of each table. A line submits a statement, makes one step of it or all that are left, or does both; a step is one of
//! coverage's, and the requests of a statement and its reply are those of its session's own copy, whatever the indexes do on the way. Laws
//! say what the lines are answered, what a journal has where its open transactions took their views, and that a statement which is stepped alone ends
//! or waits. No program stands in it. It stands on coverage's steps, the words of lines and the texts of replies.
#![tactic(auto)]

mod bounds;
mod journal_fronts;
mod laws;

pub use bounds::{a_finished_statement_ends, moves_are_counted, shown_tables_are_bounded};
pub use journal_fronts::{
    commits_stand, commits_take_marked, copies_are_of_their_fronts, dead_by_oldest_front,
    dead_rows_are_unseen, gone_rows_stay_gone, new_is_opening, numbers_rise, oldest_front_stands,
    rows_are_of_commits, views_are_taken,
};
pub use laws::{
    a_blocked_step_waits, a_plain_line_is_a_start_and_steps, a_step_enters,
    a_summarize_counts_its_ranges,
    answers_are_of_the_copy, lines_are_answered, maintenance_waits_for_the_summarise_lock,
    refusals_come_in_order, requests_are_entered_in_place, work_answers_the_queue,
};
