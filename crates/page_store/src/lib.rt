//! The pages of a store over its log and its pool: some pages are held in memory, the others stand on the disk, and both are one
//! map of places to pages that is read and changed. At every moment of every call each image that a crash may leave opens to the
//! pages after a prefix of all changes, and after a flush to those of now. A page is written only once its log is durable, a
//! page's first change since the last checkpoint is logged with the whole page, and no call after the start takes memory. The
//! layer above sees the record of page_map's specs/PageMap.antt and the words of its specs/Keeps.antt, and of what crashes leave
//! specs/Survives.antt, a word that composes. It stands on recovery, which makes the parts of a store of its disk, and on
//! log_area, buffer_pool and wal_record.
#![tactic(auto)]

mod change;
mod facts;
mod forms;
mod logged;
mod places;
mod start;
mod store;

pub use store::PageStore;
