//! The store's file: opened and locked for one run, and where it is empty made as large as the store that the words make.

ghost use Rattle.std.specs.Prelude.{◌≡◌, IfOk};

use block_model::{PAGE_SIZE, Words};
use brin_app::{DISK_FAULT, MEMORY, wanted_size};
use command_line::{Command, CommandFault, read_command};
use disk_trait::{Disk, FileDisk};
use std::fs::{File, OpenOptions};
use std::io;
use std::os::unix::fs::FileExt;
use std::path::Path;

/// The bytes of a page of each area of a log.
const PAIR: usize = 2 * PAGE_SIZE;

/// The pages of each area of the log of a demo's store.
const DEMO_LOG_PAGES: u32 = 128;

/// The store's file, which is made empty where it is absent. No other run has it open until it is closed. `DISK_FAULT` comes where it can't be opened
/// or locked, so also where another run holds it; the file is then as it was.
pub(crate) fn open(rt: &HostRuntime, path: &str) -> Result<File, u8> {
    let file = OpenOptions::new()
        .read(true)
        .write(true)
        .create(true)
        .open(rt, path)
        .map_err(|_| DISK_FAULT)?;
    file.try_lock().map_err(|_| DISK_FAULT)?;
    Ok(file)
}

/// The file of that path as a disk. An empty one is first made as large as the store that the words make. `DISK_FAULT` comes where it can't be
/// measured or made so large, and `MEMORY` for want of memory.
pub(crate) fn disk_on(
    rt: &HostRuntime,
    path: &str,
    file: File,
    words: &Words,
) -> Result<FileDisk, u8>
    ensures { IfOk result (λ disk. (⟦<FileDisk as Disk>⟧.told disk).faults ≡ 0) }
{
    let size = file.metadata().map_err(|_| DISK_FAULT)?.len();
    if size > 0 {
        return Ok(FileDisk::on(file, size));
    }
    match wanted_size(rt.alloc(), words).map_err(|_| MEMORY)? {
        Some(wanted) => new_disk(rt, path, file, words, wanted),
        None => Ok(FileDisk::on(file, 0)),
    }
}

/// The empty file of that path as a disk of so many zero bytes, for the store that the words make. Its name is sure before it has a byte. `DISK_FAULT`
/// comes where its folder can't be synced, and where it can't be made so large, in which case it is empty again.
fn new_disk(
    rt: &HostRuntime,
    path: &str,
    file: File,
    words: &Words,
    size: u64,
) -> Result<FileDisk, u8>
    ensures { IfOk result (λ disk. (⟦<FileDisk as Disk>⟧.told disk).faults ≡ 0) }
{
    let pages = log_pages(rt, words)?;
    sync_folder(rt, folder_of(path)).map_err(|_| DISK_FAULT)?;
    match grow(&file, size, pages) {
        Ok(()) => Ok(FileDisk::on(file, size)),
        Err(_) => {
            let _ = file.set_len(0);
            Err(DISK_FAULT)
        }
    }
}

/// The pages of each area of the log of the store that the words make, and 0 where they make none. `MEMORY` comes for want of memory.
fn log_pages(rt: &HostRuntime, words: &Words) -> Result<u32, u8> {
    match read_command(rt.alloc(), words) {
        Ok(command) => Ok(log_pages_of(&command)),
        Err(CommandFault::Usage) => Ok(0),
        Err(CommandFault::Memory) => Err(MEMORY),
    }
}

/// The pages of each area of the log of the store that the command makes, and 0 where it makes none.
fn log_pages_of(command: &Command) -> u32 {
    match command {
        Command::Init { sizes, .. } => sizes.log_pages,
        Command::Run { sizes, .. } => sizes.log_pages,
        Command::RunStored => 0,
        Command::Threads { sizes, .. } => sizes.log_pages,
        Command::ThreadsStored => 0,
        Command::Demo { .. } => DEMO_LOG_PAGES,
    }
}

/// Makes the empty file as large as a store, and writes zeros over both areas of its log: what makes the store writes every page but those, so
/// that no commit is the first to ask the file system for room.
fn grow(file: &File, size: u64, log_pages: u32) -> io::Result<()> {
    file.set_len(size)?;
    let zeros = [0u8; PAIR];
    for pair in 0..log_pages {
        let page = 1 + 2 * u64::from(pair);
        file.write_all_at(&zeros, PAGE_SIZE as u64 * page)?;
    }
    Ok(())
}

/// The folder of a path.
fn folder_of(path: &str) -> Path<'_> {
    match Path::new(path).parent() {
        Some(folder) if !folder.as_str().is_empty() => folder,
        _ => Path::new("."),
    }
}

/// Makes sure that the names in a folder stay.
fn sync_folder(rt: &HostRuntime, folder: Path<'_>) -> io::Result<()> {
    File::open(rt, folder)?.sync_all()
}
