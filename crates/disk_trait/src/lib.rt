//! Disks of bytes whose writes are sure only once a sync has succeeded. A contract names what a read gives and what a crash may leave,
//! where the disk tells them; a fault is answered only where the disk's count rose. Laws say what holds at every moment of a run of calls.
//! The layers above are written over the trait alone. A program uses the adapter of a file, and a test the disks in memory: one that never
//! fails, one that fails where it is told to and knows what a crash may leave, and a veil over another disk, which then tells nothing.
//! `Calls` counts calls, and says which of them fail, for disks, sources and sinks in memory. It stands on block_model's causes.
#![tactic(auto)]

mod bytes;
mod calls;
mod disk;
mod faults;
mod file_disk;
mod history;
mod memory_disk;
mod steady_disk;
mod sure;
mod veiled;

pub use calls::Calls;
pub use disk::{Disk, DiskFault};
pub use faults::counted;
pub use file_disk::FileDisk;
pub use memory_disk::MemoryDisk;
pub use steady_disk::SteadyDisk;
pub use sure::write_and_sync;
pub use veiled::VeiledDisk;
