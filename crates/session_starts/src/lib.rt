//! What a store of sessions begins with, and what a stop leaves of one. A new store opens to fresh pages, which show a new database and new
//! tables. The pages of a store that shows a place are those of a store with the committed table (specs/StoreImage.antt): whatever
//! statements were in hand, nobody is at work in them once they are opened, every index is covered, and a placeholder, an unnamed tuple, a
//! page under evacuation or an uncounted page of the map may be left over. At every moment of a step each image of the disk opens to such
//! pages, with the table of the journal before the step or that with the commit in hand. A store begins with its parts over pages that were
//! opened (`open_parts`, `start_parts`): nobody has a lock, no transaction is open and nothing was asked. It stands on session_parts,
//! store_format and recovery; the store of sessions stands on it.
#![tactic(auto)]

mod fresh_page_laws;
mod fresh_table_laws;
mod image_laws;
mod opening_laws;
mod parts;
mod start;

pub use fresh_page_laws::{a_format_leaves_old_or_none_or_new, a_new_store_opens_to_fresh_pages};
pub use fresh_table_laws::{fresh_pages_show_a_new_database, fresh_pages_show_new_tables};
pub use image_laws::{
    a_commit_makes_its_table, a_new_store_is_an_image, a_shown_store_is_an_image,
    a_step_leaves_the_table, a_step_stops_whole, a_stopped_commit_is_an_image, an_image_is_shown,
};
pub use opening_laws::{a_new_store_is_at_its_start, opened_parts_fit};
pub use parts::open_parts;
pub use start::start_parts;
