//! What a transaction sees of row versions: the snapshot that it takes when it begins, the status of each transaction, the rule that
//! decides from both whether a version is seen (`sees`), and the one that decides whether nobody sees it any more (`dead_to_all`). Beside
//! it stand the versions of all rows with the sessions' open transactions, and which database they show. It stands on block_model and
//! store_layout. The definitions are specs/Visibility.antt and specs/Dead.antt; the laws beside them say what they mean. Only lists of open
//! transactions take memory.
#![tactic(auto)]

mod dead;
mod laws;
mod oldest;
mod sessions;
mod snapshots;
mod standing;
mod statuses;
mod table;
mod visibility;

pub use dead::dead_to_all;
pub use laws::{
    a_dead_row_is_not_seen, a_deleted_row_is_not_seen, a_row_at_rest_may_have_any_deleter,
    an_own_row_is_seen, an_unfinished_delete_hides_nothing, an_unfinished_row_is_not_seen,
    rows_that_are_dead_with_no_snapshot, rows_that_nobody_deleted,
};
pub use oldest::oldest_of;
pub use sessions::{
    Open, count_row, fail_open, no_transactions, numbers_of, open_of, set_open, take_open,
    transaction_of,
};
pub use snapshots::Snapshot;
pub use standing::Standing;
pub use statuses::Status;
pub use table::Version;
pub use visibility::sees;
