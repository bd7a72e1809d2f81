//! The pages of an index as lists: the metapage with its number of map pages, pages of the map with their entries, and pages
//! of tuples with their slots. `first_fault` finds none exactly where bytes are such a page, and names the first field
//! whose rule is broken; the readers give what stands on a page that passed, without a copy; the writers make of one list
//! the next and move only the bytes that must move. A page has one list of slots or entries, a function of its bytes
//! ([laws.rt](laws.rt)). It stands on block_model and byte_fields.
#![tactic(auto)]

mod checking;
mod format;
mod laws;
mod moving;
mod readers;
mod room;
mod writers;

pub use byte_fields::{get_i64, get_u32, get_u64, put_i64, put_u32, put_u64};
pub use checking::{first_fault, zeros_fault};
pub use format::{EVACUATED, MAP, MAP_ENTRIES, META, REGULAR, UNSTARTED};
pub use laws::{a_put_changes_one_slot, an_index_page_has_one_list, the_lowest_free_slot_has_room};
pub use readers::{
    entry_at, free_bytes, free_slot, kind_of, map_pages, slots, tuple_at, tuple_range,
};
pub use room::{can_drop, can_put, can_replace, room_for};
pub use writers::{
    drop_tuples, evacuate, put_tuple, replace_tuple, set_entry, set_map_pages, start_map,
    start_meta, start_regular, turn_to_map,
};
