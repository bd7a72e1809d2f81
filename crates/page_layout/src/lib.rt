//! Pages as lists: `check` passes exactly the bytes of a page of its form, a page of statuses, of heap slots or of an index,
//! and names the first field whose rule is broken; the readers give the statuses, rows, tuples and entries of a page that
//! passed. Rows are written to their bytes and read from them, the same row both ways. A page has one list of slots, which
//! is a function of its bytes ([laws.rt](laws.rt)). It stands on block_model, store_layout, byte_fields and, for the pages of
//! an index, index_layout. The layer above sees a page as its bytes, and the bytes as the lists of specs/.
#![tactic(auto)]

mod checking;
mod column;
mod format;
mod free;
mod index_readers;
mod index_writers;
mod laws;
mod page;
mod readers;
mod row;
mod slot;
mod writers;

pub use checking::{check, is_page};
pub use format::{HEAP, MAX_ROW, STATUS, STATUS_ENTRIES, STATUSES_A_BYTE};
pub use free::{first_free, first_free_from, free_slots, slot_count};
pub use index_layout::{EVACUATED, MAP, MAP_ENTRIES, META, REGULAR, UNSTARTED, tuple_range};
pub use index_readers::{
    can_drop, can_put, can_replace, entry_at, free_bytes, free_slot, is_index, map_pages, room_for,
    slots, tuple_at,
};
pub use index_writers::{
    drop_tuples, evacuate, put_tuple, replace_tuple, set_entry, set_map_pages, start_map,
    start_regular, turn_to_map,
};
pub use laws::slots_are_read;
pub use page::{Form, Page, PageFault};
pub use readers::{kind_of, row_at, status_at};
pub use row::{decode_row, encode_row, heap_form, kinds_of, row_in, row_size, write_row};
pub use store_layout::Layout;
pub use writers::{clear_slot, is_row, mark_row, put_row, set_status, start_heap};
