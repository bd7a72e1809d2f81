//! One worker a session, over any `Stepper` behind a lock. A worker submits its lines in order and makes the steps of each until
//! it is answered, or until the Stepper answers no more lines; shares of the Stepper's two books tell how many lines were answered
//! and which workers were ended, whatever the schedule. The lock is free between steps and while a job is worked; that it is so,
//! and that workers run at once, is tested and not proved. It stands on block_model's numbers and io_traits. The layer above
//! uses `run_all`.
#![tactic(auto)]

mod floor;
mod worker;

pub use worker::{WorkerEnd, run_all};
