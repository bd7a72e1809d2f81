//! A script whose sessions work beside each other, over a new store.

ghost use Rattle.std.specs.Prelude.{◌≡◌, IfOk, Some, true};
ghost use Rattle.block_model.specs.DatabaseState.{initial_state};
ghost use Rattle.disk_trait.specs.Memory.{told_by_memory};
ghost use Rattle.brin_app.specs.declared.top.Task.{Task};
ghost use Rattle.brin_app.specs.declared.top.Task.TheVariants as tasks;
ghost use Rattle.brin_app.specs.DiskLayout.{DiskLayout};
ghost use Rattle.brin_app.specs.Holding.{HasRun};
ghost use Rattle.brin_app.specs.Tasks.{Asks};
ghost use Rattle.brin_app.specs.Threads.{HasWorkers};

use crate::making::recording_disk;
use crate::streams::{Room, Streams};
use block_model::Words;
use brin_app::{Layout, MEMORY, Names, USAGE, brin_main, threads_layout};
use disk_trait::MemoryDisk;
use io_traits::Gate;
use std::alloc::Global;
use std::marker::Brand;
use std::sync::Wait;
use std::thread::Threads;

/// Makes the store for which the words of `threads` ask, on a new disk in memory that has room to record so much, and has the script run over it by one worker a
/// session. `Err` is the status where the words ask for no such store, or memory is short for its disk.
pub fn run_beside<R: Threads + Wait + Sync, G: Gate + Sync>(
    rt: &R,
    alloc: Global,
    words: &Words,
    room: Room,
    streams: &mut Streams,
    gate: &G,
) -> Result<(u8, MemoryDisk), u8>
    // What was written is a right transcript of the script, and each image of the disk has its table.
    ensures { IfOk result (λ end. HasRun end.0 → (layout : DiskLayout) × Asks words.now (tasks.Threads layout)
        × HasWorkers end.0 initial_state layout streams.old.script.left (told_by_memory end.1) (Some streams.old.texts.taken) (Some streams.new.texts.taken)) }
{
    let Ok(found) = threads_layout(alloc, words) else {
        return Err(MEMORY);
    };
    let Some(layout) = found else {
        return Err(USAGE);
    };
    let disk = recording_disk(alloc, words, room)?;
    Ok(run_named::<Brand, R, G>(rt, alloc, words, &layout, disk, streams, gate))
}

/// Runs the script over a new store of that layout, on that disk. The name says what the call is given.
fn run_named<N: Names + Send, R: Threads + Wait + Sync, G: Gate + Sync>(
    rt: &R,
    alloc: Global,
    words: &Words,
    layout: &Layout,
    disk: MemoryDisk,
    streams: &mut Streams,
    gate: &G,
) -> (u8, MemoryDisk)
    requires asked { Asks words.now (tasks.Threads layout.now) }
    requires alone { (task : Task) → Asks words.now task → task ≡ tasks.Threads layout.now }
    requires named { (N.faults ≡ (told_by_memory disk).faults) × (N.honest ≡ true) × (N.opening ≡ initial_state) × (N.layout ≡ layout.now) × (N.script ≡ streams.old.script.left) }
    ensures { HasRun result.0 → HasWorkers result.0 initial_state layout.now streams.old.script.left (told_by_memory result.1) (Some streams.old.texts.taken) (Some streams.new.texts.taken) }
{
    brin_main::<N, R, MemoryDisk, _, _, G>(
        rt,
        alloc,
        words,
        disk,
        &mut streams.script,
        &mut streams.texts,
        gate,
    )
}
