//! What the pages of an index have, as one function of the pages of a store: the spot that the map names for each range, the bytes of the
//! tuple at each spot, and the kind of each page; a page's room follows from its tuples (specs/IndexContents). What calls change of it stands in specs/IndexChanges,
//! by the words of coverage, and that they keep the order of the index's pages, which an opening judges, in specs/KeepsOrder. revmap and
//! range_store above speak of an index by these alone. It stands on page_map, recovery, index_layout and coverage's definitions.
#![tactic(auto)]

mod index;
mod laws;

pub use index::{index_pages_are_known, relation_of};
pub use index_layout::{
    REGULAR, UNSTARTED, a_put_changes_one_slot, an_index_page_has_one_list, free_bytes, free_slot,
    kind_of, slots, the_lowest_free_slot_has_room, tuple_at, tuple_range,
};
pub use laws::{a_store_in_order_has_its_indexes_in_order, one_page_keeps_the_order};
