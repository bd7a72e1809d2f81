//! Files in place of closed standard streams.
//!
//! A file that is opened takes the lowest number that is free. If the store's file took 1, each answer would be written over it, and if it took 0,
//! it would be read as the script.

use brin_app::DISK_FAULT;
use std::fs::File;
use std::os::fd::AsRawFd;

/// The number of standard error, the last of the three.
const LAST: i32 = 2;

/// What was opened in place of closed standard streams, at most one file for each.
#[derive(Drop)]
pub(crate) struct StandIns {
    first: Option<File>,
    second: Option<File>,
    third: Option<File>,
}

/// Opens a file in place of each standard stream that is closed. Behind it a file that is opened gets a number of its own until these are closed.
/// `DISK_FAULT` comes where none can be opened.
pub(crate) fn stand_ins(rt: &HostRuntime) -> Result<StandIns, u8> {
    Ok(StandIns {
        first: stand_in(rt)?,
        second: stand_in(rt)?,
        third: stand_in(rt)?,
    })
}

/// A file in place of the first standard stream that is closed; None if each is open. It is a folder, opened for reading: like a closed stream it fails at each
/// read and at each write, whichever of the three it stands for. `DISK_FAULT` comes where it can't be opened.
fn stand_in(rt: &HostRuntime) -> Result<Option<File>, u8> {
    let folder = File::open(rt, "/").map_err(|_| DISK_FAULT)?;
    if folder.as_raw_fd() > LAST {
        return Ok(None);
    }
    Ok(Some(folder))
}
