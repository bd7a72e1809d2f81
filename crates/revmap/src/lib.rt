//! The range map of an index on its pages: which spot it names for a range. The layer above reads an entry by `entry`, and
//! gives it another by `set`, which compares it first. It sees an index as what its pages have, a function of the pages of
//! the store (index_contents). An entry that no counted page of the map holds is none. A call that answers an error leaves
//! every page as it was, and none takes memory or copies a page. A crash in the middle of a call leaves an image that opens to
//! the pages from before it, or as one of that time did. The crate stands on index_contents and page_store.
#![tactic(auto)]

mod entries;
mod faults;
mod laws;
mod map_pages;

pub use entries::{entry, set};
pub use faults::SetFault;
pub use laws::entries_stand_on_counted_pages;
