//! The demo: a script of rows that four sessions put, of a keeper that summarizes beside them, and of selects at its end. Which line comes next hangs on
//! what the lines before it were answered (specs/Conversation.antt); `play` says them to whatever answers lines, and counts, and `demo_layout` is the
//! layout of the store that they speak of. It stands on block_model, command_line, store_layout and script_run. The layer above gives it the sessions of
//! a store, and writes the summary.
#![tactic(auto)]

mod answer;
mod counts;
mod demo;
mod heard;
mod last;
mod layout;
mod lines;
mod round;
mod row;

pub use answer::{Answer, Answerer};
pub use counts::{Counts, render_summary};
pub use demo::play;
pub use layout::demo_layout;
