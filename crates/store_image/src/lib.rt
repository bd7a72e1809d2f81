//! What the pages of a store are while nobody is at work, as each stop leaves them and each opening finds them (specs/StoreImage.antt): they
//! show the database of their commits, each table rests, each index is covered, and pages stand in their order. Beside it stands the same
//! told flatly, row by row and entry by entry (specs/SoundStore.antt), and the law that both are one. It stands on what pages show: on
//! transactions, coverage and index_steps, and on no machine; the sessions stand on it.
#![tactic(auto)]

mod laws;

pub use laws::a_sound_store_is_an_image;
