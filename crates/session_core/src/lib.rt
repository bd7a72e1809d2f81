//! The store of sessions: it takes the statements of its sessions, makes them step by step, in any order of the sessions, and keeps the
//! journal of their requests. Contracts see it by its parts; where the disk of the pages tells its contents it shows a place of the
//! definition of texts (session_parts/specs/ShowsPlace.antt), and each call leads from each place that is shown before it to one that is shown
//! after it, as the definition says. It stands on session_parts, and on the crates of the steps of each kind of statement. The layer above uses
//! `Store`.
#![tactic(auto)]

mod faults;
mod laws;
mod sessions;
mod slots;
mod steps;
mod store;
mod submitting;
mod threads;
mod vacuuming;

pub use faults::SessionFault;
pub use recovery::StartFault;
pub use session_parts::{Step, StoreFault};
pub use session_starts::{
    a_commit_makes_its_table, a_format_leaves_old_or_none_or_new, a_new_store_is_an_image,
    a_new_store_opens_to_fresh_pages, a_shown_store_is_an_image,
};
pub use store::Store;
pub use threads::a_store_goes_to_threads;
