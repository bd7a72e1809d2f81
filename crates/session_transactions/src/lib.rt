//! The begin, the marks of a delete, the commit and the rollback of a session's transaction, over the parts of a store. A begin and an end are one
//! step each: the pages of statuses are changed, and after that the request is entered; a commit is entered after the flush that makes it sure. A mark
//! is a step of its own: what the scan found is marked in order of the ids. Who deleted the row is read anew in each step, since others may have
//! marked it after the scan; where a third transaction did that is under way or has committed, that is a conflict, and the session's transaction
//! fails. The look is entered with the first mark. Each is a step of the definition of texts. It stands on heap_rows and transactions, for what these
//! do, and on session_parts, for the words in which a step is said.
#![tactic(auto)]

mod begins;
mod conflicts;
mod ends;
mod laws;
mod marks;

pub use begins::begin;
pub use ends::{commit, roll_back};
pub use marks::mark;
