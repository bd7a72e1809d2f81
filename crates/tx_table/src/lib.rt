//! Numbers of transactions, and the status of each on the pages of statuses. The layer above makes a table once, over the
//! pages of a store that was opened, and sees it as the first number of this opening and the next number; it sees the pages
//! of statuses as one list, by number (specs/Statuses.antt). `begin` gives the next number, `commit` and `commit_all` answer Ok
//! only once their statuses are sure, `rollback` needs no flush, and `status` copies no page. What a stop in the midst of a call
//! leaves is told with each call (specs/Durable.antt). A caller that needs the status of one transaction several times keeps the
//! answer; the table has no cache. It stands on page_store and snapshot_core.
#![tactic(auto)]

mod faults;
mod laws;
mod opening;
mod status_pages;
mod table;

pub use faults::BeginFault;
pub use laws::{next_numbers_are_one, pages_in_order_are_started, statuses_are_one_list};
pub use table::TxTable;
