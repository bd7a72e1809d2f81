//! A new store on a disk in memory.

ghost use Rattle.std.specs.Prelude.{IfOk};
ghost use Rattle.block_model.specs.DatabaseState.{initial_state};
ghost use Rattle.disk_trait.specs.Memory.{told_by_memory};
ghost use Rattle.brin_app.specs.declared.top.Task.TheVariants as tasks;
ghost use Rattle.brin_app.specs.DiskLayout.{DiskLayout};
ghost use Rattle.brin_app.specs.Holding.{HoldsSure, StaysStore};
ghost use Rattle.brin_app.specs.Tasks.{Asks, AsksForThreads};
ghost use Rattle.brin_app.specs.WantedSizes.{MakesStore};

use crate::streams::{Room, Streams};
use block_model::Words;
use brin_app::{DONE, MEMORY, Stranger, USAGE, asks_for_threads, brin_main, wanted_size};
use disk_trait::MemoryDisk;
use io_traits::{MemorySink, MemorySource, OpenGate};
use std::alloc::Global;
use std::sync::Wait;
use std::thread::Threads;

/// The disk of the new store for which the words ask. `Err` is the status where none was made; words of `threads` make none here.
pub(crate) fn new_store<R: Threads + Wait + Sync>(
    rt: &R,
    alloc: Global,
    words: &Words,
    room: Room,
) -> Result<MemoryDisk, u8>
    ensures store { IfOk result (λ disk. StaysStore 0 (told_by_memory disk)) }
    ensures empty { IfOk result (λ disk. (layout : DiskLayout) → Asks words.now (tasks.Init layout) → HoldsSure (told_by_memory disk) layout initial_state.table) }
{
    let disk = new_disk(alloc, words, room)?;
    let mut none = no_streams(alloc)?;
    let (status, disk) = brin_main::<Stranger, _, _, _, _, _>(
        rt,
        alloc,
        words,
        disk,
        &mut none.script,
        &mut none.texts,
        &OpenGate,
    );
    if status != DONE {
        return Err(status);
    }
    Ok(disk)
}

/// A disk of the size that a store wants for which the words ask. `Err` is the status where they ask for none, or for `threads`, or memory is short.
fn new_disk(alloc: Global, words: &Words, room: Room) -> Result<MemoryDisk, u8>
    ensures asked { IfOk result (λ _. (layout : DiskLayout) × MakesStore words.now layout) }
    ensures new { IfOk result (λ _. ¬ (Asks words.now tasks.RunStored)) }
    ensures alone { IfOk result (λ _. ¬ (AsksForThreads words.now)) }
{
    match asks_for_threads(alloc, words) {
        Ok(false) => {}
        Ok(true) => return Err(USAGE),
        Err(_) => return Err(MEMORY),
    }
    recording_disk(alloc, words, room)
}

/// A disk of the size that a store wants for which the words ask. `Err` is the status where they ask for none, or memory is short.
pub(crate) fn recording_disk(alloc: Global, words: &Words, room: Room) -> Result<MemoryDisk, u8>
    ensures asked { IfOk result (λ _. (layout : DiskLayout) × MakesStore words.now layout) }
    ensures new { IfOk result (λ _. ¬ (Asks words.now tasks.RunStored)) }
{
    let Ok(wanted) = wanted_size(alloc, words) else {
        return Err(MEMORY);
    };
    let Some(size) = wanted else {
        return Err(USAGE);
    };
    let Ok(mut disk) = MemoryDisk::new(alloc, size) else {
        return Err(MEMORY);
    };
    let Ok(()) = disk.room(room.calls, room.bytes) else {
        return Err(MEMORY);
    };
    Ok(disk)
}

/// An empty script, and a sink without room. `Err` is the status where memory is short.
fn no_streams(alloc: Global) -> Result<Streams, u8> {
    let script = MemorySource::new(Vec::new(alloc), 1, Vec::new(alloc));
    let Ok(texts) = MemorySink::new(alloc, 0, 1, Vec::new(alloc)) else {
        return Err(MEMORY);
    };
    Ok(Streams { script, texts })
}
