//! A log over a disk in memory: which calls of the disk it makes.

ghost use Rattle.std.specs.Prelude.{◌<◌, ◌≤◌, IfSome};
ghost use Rattle.log_area.specs.Log.{areas_end};

use disk_trait::{Disk, DiskFault, MemoryDisk};
use log_area::{AppendFault, Frames, LogArea};
use std::alloc::Global;
use store_layout::{LEAST, Layout, table_layout};

/// The layout of one table, of the least sizes.
fn small_layout(alloc: Global) -> Option<Layout> {
    table_layout(alloc, 1, LEAST)
}

/// Starts the log of a disk that is large enough.
fn start<D: Disk>(alloc: Global, disk: &mut D, layout: &Layout) -> Option<(LogArea, Frames)>
    ensures { IfSome result (λ r. areas_end r.0.room ≤ (D.told disk.new).size) }
{
    if disk.size() < layout.disk_size() {
        return None;
    }
    LogArea::start(alloc, disk, layout).ok()
}

/// Appends a frame.
fn append<D: Disk>(
    log: &mut LogArea,
    disk: &mut D,
    changes: &[u8],
    count: u16,
) -> Result<(), AppendFault>
    requires { areas_end log.old.room ≤ (D.told disk.old).size }
    ensures { areas_end log.new.room ≤ (D.told disk.new).size }
{
    log.append(disk, changes, count)
}

/// Chooses the other area.
fn switch<D: Disk>(log: &mut LogArea, disk: &mut D) -> Result<(), DiskFault>
    requires { areas_end log.old.room ≤ (D.told disk.old).size }
    ensures { areas_end log.new.room ≤ (D.told disk.new).size }
{
    log.switch(disk)
}

/// Whether an append goes well, and then an empty append, a switch and a sync are refused.
fn calls_of<D: Disk>(alloc: Global, disk: &mut D, layout: &Layout) -> Option<[bool; 4]> {
    let (mut log, _) = start(alloc, disk, layout)?;
    Some([
        append(&mut log, disk, b"ab", 1).is_ok(),
        append(&mut log, disk, b"", 0) == Err(AppendFault::Disk),
        switch(&mut log, disk) == Err(DiskFault),
        disk.sync() == Err(DiskFault),
    ])
}

/// The same on a disk whose record has room for two writes of 9 bytes and of 1, and for two syncs.
fn calls_in_little_room(alloc: Global) -> Option<[bool; 4]> {
    let layout = small_layout(alloc)?;
    let mut disk = MemoryDisk::new(alloc, layout.disk_size()).ok()?;
    disk.room(4, 10).ok()?;
    calls_of(alloc, &mut disk, &layout)
}

#[test]
fn an_append_makes_four_calls(rt: HostRuntime) {
    assert_eq!(rt; calls_in_little_room(rt.alloc()), Some([true; 4]));
}

/// Starts a log and appends three frames; `None` where it stops.
fn run<D: Disk>(alloc: Global, disk: &mut D, layout: &Layout) -> Option<()> {
    let (mut log, _) = start(alloc, disk, layout)?;
    append(&mut log, disk, b"ab", 1).ok()?;
    append(&mut log, disk, b"c", 2).ok()?;
    append(&mut log, disk, b"def", 3).ok()
}

/// A disk with a log of three frames.
fn three_frames(alloc: Global, layout: &Layout) -> Option<MemoryDisk> {
    let mut disk = MemoryDisk::new(alloc, layout.disk_size()).ok()?;
    disk.room(100, 1000).ok()?;
    run(alloc, &mut disk, layout)?;
    Some(MemoryDisk::from_image(disk.image(1).ok()?))
}

/// Whether the log of such a disk is started where so many calls of the disk go well and all behind them fail.
fn is_started(alloc: Global, calls: u64) -> Option<bool>
    requires { calls < 100 }
{
    let layout = small_layout(alloc)?;
    let mut disk = three_frames(alloc, &layout)?;
    disk.stop_at(calls + 1);
    Some(start(alloc, &mut disk, &layout).is_some())
}

#[test]
fn an_opening_reads_three_frames_by_two_calls(rt: HostRuntime) {
    // The area byte, and a page of the area.
    let found = [is_started(rt.alloc(), 1), is_started(rt.alloc(), 2)];
    assert_eq!(rt; found, [Some(false), Some(true)]);
}
