//! The tuples of an index at their spots. The layer above puts a tuple into the lowest free slot of a page by `put`, which page
//! `room_for` finds; has one give way to another in its place by `replace`, which compares it first; drops it by `drop_at`; and
//! borrows it from its page by `tuple_at`: a `Scratch`, whose memory is taken once, holds its bytes for longer. It sees an index as what
//! its pages have, a function of the pages of the store (index_contents). A call that answers an error leaves every page as it was, and none
//! takes memory or copies a page. A crash in the middle of a call leaves an image that opens to the pages from before it, or as
//! one of that time did. The crate stands on index_contents and page_store.
#![tactic(auto)]

mod changes;
mod dropping;
mod faults;
mod putting;
mod reading;
mod replacing;
mod room;
mod scratch;

pub use dropping::drop_at;
pub use faults::SwapFault;
pub use putting::put;
pub use reading::tuple_at;
pub use replacing::replace;
pub use room::{a_target_takes_its_tuple, room_for};
pub use scratch::Scratch;
