//! A pool of pages in a fixed number of frames, seen as a finite map from page numbers to a page, and to the number of the
//! log change that it waits for where it is dirty. `set` lets go at most one page, a clean one; `clean_one` and `clean` write one
//! whose log is durable. A page is found through buckets of frames, hands that go round the clean and the dirty frames choose
//! one, and dirty pages are put in order for a checkpoint. All memory is taken by `new`. It stands on page_layout and a disk; the
//! layer above reads and changes its pages through the pool. It sees the pool as the record of specs/PoolState.antt.
#![tactic(auto)]

mod buckets;
mod clock;
mod dirty_order;
mod held;
mod lookup;
mod page_table;
mod pool;
mod ring;
mod uses;

pub use pool::{AllDirty, Pool};
