//! What each change of the log does to a page: `fits` says whether the page, as it stands, can take the change, and `redo`
//! makes exactly the change's meaning there, or leaves the page as it was. A whole page and the start of a page fit
//! whatever bytes stand there, so the log also mends pages that a stop tore. Laws say what lists of changes do. It stands on
//! wal_record, page_layout and, for the pages of an index, index_layout. The table of the meanings is specs/Redo.antt.
#![tactic(auto)]

mod fitting;
mod index_fitting;
mod laws;
mod redoing;
mod tag;

pub use fitting::fits;
pub use laws::{
    a_changed_page_is_of_its_form, redo_forgets_a_page_begun_anew, redo_goes_on, redo_is_a_function,
};
pub use page_layout::{
    Form, Layout, Page, REGULAR, UNSTARTED, first_free, first_free_from, is_index, kind_of,
    map_pages, room_for, slots_are_read,
};
pub use redoing::{Misfit, redo, redo_checked};
pub use wal_record::Change;
