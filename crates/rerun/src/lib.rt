//! Two runs over one store, as a caller of the program's theorem makes them: a store is made on a new disk in memory, a script is run over it, and then
//! another one. The second script starts from the table that the first one left (specs/Turns.antt). Each call of `brin_main` has what it requires from
//! what the call before it ensures, and no premise is left. And a script is run by one worker a session, over a name that says what the call is given: again no premise is
//! left. It stands on brin_app; nothing stands on it.
#![tactic(auto)]

mod beside;
#[cfg(test)]
mod held;
mod making;
#[cfg(test)]
mod orders;
mod streams;
#[cfg(test)]
mod tests;
mod turns;
#[cfg(test)]
mod veiled;

pub use beside::run_beside;
pub use streams::{Ends, Room, Streams};
pub use turns::run_twice;
