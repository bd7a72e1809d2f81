//! The thirteen changes of the write-ahead log as bytes, both ways: `encode` writes exactly the bytes of a change, and `decode` answers the
//! one change whose bytes are the first of the given ones, or where no change can go on. No change's bytes begin another's. `ChangeBuffer`
//! holds the changes that wait for the log, as the bytes of one frame, in room for 65536 bytes that is taken once. It stands on block_model
//! and byte_fields. The table of the bytes is specs/ChangeBytes.antt.
#![tactic(auto)]

mod buffer;
mod change;
mod laws;
mod reading;
mod tag;
mod writing;

pub use buffer::{BUFFER_SIZE, ChangeBuffer};
pub use change::{Change, Malformed};
pub use laws::no_change_begins_another;
pub use reading::decode;
pub use writing::{encode, size};
