//! The run of a script by one worker a session, each in a thread of its own. The script is read whole and its sessions are made; then each worker has its lines answered
//! over the locked store (session_stepper), whatever the order; and then the texts of all lines are written, those of the lines that no worker has first. What is
//! promised, over a name that says what the call was given, is a right transcript of the script (specs/Output.antt). It stands on plain_script for the script, on
//! session_stepper for the locked store, and on session_threads for the workers. The layer above uses `run_threads`.
#![tactic(auto)]

mod threads;
mod workers;
mod writing;

pub use threads::run_threads;
