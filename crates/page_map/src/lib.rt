//! A store's pages as a map of places to pages, the record of specs/PageMap.antt, and the words in which calls over pages speak of it: a
//! read gives what the changes made, in order, and a call that answers an error leaves the map as it was. Here stands too what memory keeps
//! of each page of a relation beside the page itself, so that `FactList` answers which block has room without reading one: a look at one
//! number for each 128 blocks, and at what is kept of the pages of those that may have room. It stands on page_layout, page_redo and a
//! disk.
#![tactic(auto)]

mod fact_list;
mod facts;
mod faults;
mod forms;
mod laws;
mod lowest;
mod page_room;
mod tuple_room;

pub use fact_list::FactList;
pub use facts::{NO_FACTS, PageFacts, facts_after, facts_of};
pub use faults::{MachineFault, StoreError};
pub use forms::tables_have_forms;
pub use laws::maps_with_the_same_pages_are_equal;
pub use page_redo::{
    Misfit, redo, redo_checked, redo_forgets_a_page_begun_anew, redo_goes_on, redo_is_a_function,
};
pub use page_room::Room;
