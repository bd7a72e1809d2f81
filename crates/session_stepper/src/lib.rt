//! The store of sessions as it stands behind a lock: beside it the script of the sessions' lines, the transcript of their answers, and two books that count the answers
//! and the ends. `LockedStore` is the Stepper of the program's workers: a call submits a line, or makes one step, and keeps the text of an answer under the same lock.
//! What a lock's value is known by is its type alone, so a name (`Names`) carries into the type what the caller was given; over an honest one the transcript that is kept is always
//! that of a schedule (transcript_laws), and so a right one, whose texts are the replies of the journal. It stands on session_core, session_orders and plain_script. The
//! program runs its workers over it.
#![tactic(auto)]

mod ending;
mod keeping;
mod locked_store;
mod named_disk;
mod names;
mod said;
mod transcribed_store;

pub use ending::Ending;
pub use locked_store::{LockedStore, a_locked_store_goes_to_threads};
pub use named_disk::NamedDisk;
pub use names::{Names, Stranger};
pub use said::Said;
