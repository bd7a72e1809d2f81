//! What an order of a session does to the store of sessions: a submission, one step, all steps that are left, or a statement as a whole. Each
//! call leads from every place that the store showed to one that it shows then (specs/Leading.antt), as the definition of texts says, and tells at
//! which place it stopped where it isn't done. By the requests between the two places each image of the disk has a table at every moment
//! (specs/CrashRule.antt). It stands on session_core and on the definitions of script_semantics; the program and the workers of the sessions use it.
#![tactic(auto)]

mod orders;

pub use orders::{act, start, step};
