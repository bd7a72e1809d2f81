//! The bytes of a new store. `write` makes the control page of a layout, and `read` answers the one layout whose control page the bytes
//! are, or that there is none. `format` makes a store of a disk: the control page, two areas of the log without frames, all pages of
//! statuses started, and of each index a metapage with one page of the map. At every moment a crash leaves what the disk held before, or no
//! store, or the new one. Nothing takes memory. The bytes are specs/ControlBytes.antt and specs/FreshStore.antt. It stands on store_layout,
//! byte_fields, index_layout, page_layout and a disk; the layer above opens what was made.
#![tactic(auto)]

mod bytes;
mod control_fault;
mod fault;
mod fields;
mod gate;
mod index;
mod laws;
mod making;
mod page;
mod pages;
mod schema;
mod stored;
mod table;

pub use control_fault::ControlFault;
pub use fault::FormatFault;
pub use laws::{a_closed_gate_is_no_store, a_new_store_has_its_control_page};
pub use making::format;
pub use page::{OPEN, area_of, is_open, one_layout, read, write};
pub use pages::fill_page;
