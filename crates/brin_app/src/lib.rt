//! The program: a script of sessions over tables with BRIN indexes, whose statements run in steps. `brin_main` does all of it, and its
//! contract says which status comes when, and that what it writes are the texts of the script's lines (script_semantics), from a place at which
//! a script starts on; the demo's five lines are the counts of the answers to its script (demo_script). It stands on the words of the command
//! line (command_line, command_line), the lines (query_words), their texts (reply_texts), the loop over them (script_run), the making of a
//! store (store_format), the store of sessions over a disk (session_core) and what orders of sessions do to it (session_orders).
//! A script of `threads` is run by one worker a session (threads_run): over a name that says what the call was given (session_stepper) it has a right transcript, which
//! is written (specs/Threads.antt).
//! Each line has moments of its own: in them each image of the disk has the table before the line, or that with its commit, and behind them, and at the
//! end, that of all requests so far (CrashRule of session_orders). Behind a fault of the disk the commit that was in hand may be in it as well.
#![tactic(auto)]

mod answers;
mod asking;
mod asks;
mod demo;
mod laws;
mod sessions;
mod status;
mod threads;
mod top;
mod wanted;

pub use asks::{asks_for_threads, threads_layout};
pub use laws::{every_script_has_a_start, short_scripts_fit, the_lines_of_a_run_hold_throughout};
pub use session_stepper::{Names, Stranger};
pub use status::{
    DAMAGED, DISK_FAULT, DONE, LIMIT, MEMORY, NO_STORE, READ_FAULT, SCRIPT_LIMIT, USAGE,
    WRITE_FAULT,
};
pub use store_layout::Layout;
pub use top::{Task, brin_main};
pub use wanted::wanted_size;
