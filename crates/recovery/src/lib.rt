//! Opens a store, and says what the images of its disk open to, as every clause on crashes cites them. The parts:
//!
//! * words: what an image opens to (specs/Opens, specs/Reaches, specs/PageOrder), and, for pages of which some are held in a pool,
//!   their numbers, what the store shows, and when an image that a crash may leave loses nothing (specs/PageNumbers,
//!   specs/ShownPages, specs/Safe). An image opens to one map of pages; a page that the log begins anew may hold any bytes.
//! * redo: the changes of the opened frames, in their order, each made on its page in a pool, which writes pages back where they
//!   don't all fit. Damage is answered exactly at a frame that isn't of its form (specs/Redoing has a log of which the first changes
//!   are redone).
//! * opening: makes all that is pending on the disk sure, reads the control page and the opened frames of the chosen area, redoes
//!   them, and judges each page and the order in which pages stand. The layer above makes a store of the parts that it hands over
//!   (specs/Opened). Which disks are damaged is specs/Damaged.
//!
//! At every moment each image of the disk opens as one of before did, also where a page is written back for want of frames. It
//! stands on store_format, log_area, wal_record, page_redo, page_map and buffer_pool.
#![tactic(auto)]

mod beginning;
mod change;
mod control;
mod fault;
mod frames;
mod image_laws;
mod judging;
mod laws;
mod number;
mod opening;
mod order;
mod page;
mod place;
mod redo_fault;
mod redoing;
mod room;

pub use fault::StartFault;
pub use image_laws::{a_page_begun_anew_may_be_torn, an_image_opens_to_one_map};
pub use laws::a_store_is_not_damaged;
pub use log_area::{AppendFault, LogArea};
pub use number::number_of;
pub use opening::{Opened, open};
pub use page_map::{
    Misfit, redo, redo_checked, redo_forgets_a_page_begun_anew, redo_goes_on, tables_have_forms,
};
pub use place::is_place;
