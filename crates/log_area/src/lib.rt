//! The log area of a write-ahead log: two areas behind the control page of a disk, one of which that page chooses, and in it a
//! row of frames, each behind a gate that is opened once the frame is sure. A crash at any moment of `append` leaves the frames
//! from before, or these and the new one; at any moment of `switch` the chosen area with its frames, or the other one without
//! any. What else is on the disk stays. `LogArea::start` reads the frames, and answers damage exactly where an opened frame
//! leaves its area no byte for the next gate. What the changes of a frame say is judged by the layer above, which decodes and
//! counts them. It stands on store_layout, which says where the areas are, on byte_fields and on a disk. The words are those of
//! specs/Frames.antt (what an area holds), specs/Log.antt (what an image of a log is), and specs/Appended.antt and
//! specs/Switched.antt (what a call makes of an image).
#![tactic(auto)]

mod area;
mod frame;
mod frames;
mod laws;
mod opening;

pub use area::{AppendFault, LogArea};
pub use frames::Frames;
pub use laws::an_area_opens_in_one_way;
pub use opening::LogFault;
