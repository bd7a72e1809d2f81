//! Scripts over one store, one after the other.

ghost use Rattle.std.specs.Prelude.{IfOk};
ghost use Rattle.block_model.specs.TableState.{TableState};
ghost use Rattle.disk_trait.specs.Memory.{told_by_memory};
ghost use Rattle.brin_app.specs.declared.top.Task.TheVariants as tasks;
ghost use Rattle.brin_app.specs.DiskLayout.{DiskLayout};
ghost use Rattle.brin_app.specs.Holding.{HasRun, HoldsStore, HoldsSure};
ghost use Rattle.brin_app.specs.Started.{HoldsImage};
ghost use Rattle.brin_app.specs.Tasks.{Asks, AsksForThreads};
ghost use Rattle.rerun.specs.Turns.{AreInTurn, IsRunOver};

use crate::making::new_store;
use crate::streams::{Ends, Room, Streams};
use block_model::Words;
use brin_app::{MEMORY, Stranger, USAGE, asks_for_threads, brin_main};
use disk_trait::MemoryDisk;
use io_traits::OpenGate;
use std::alloc::Global;
use std::sync::Wait;
use std::thread::Threads;

/// Makes the store for which words ask, on a new disk in memory that has room to record so much, and runs two scripts over it. `Err` is the status where no
/// store was made. No script is run where its words ask for `threads`: the status is `USAGE` then.
pub fn run_twice<R: Threads + Wait + Sync>(
    rt: &R,
    alloc: Global,
    making: &Words,
    running: &Words,
    room: Room,
    first: &mut Streams,
    second: &mut Streams,
) -> Result<Ends, u8>
    // The second script starts from the table that the first one left, where no fault of the disk and no want of memory ended them.
    ensures { IfOk result (λ ends. (layout : DiskLayout) → Asks making.now (tasks.Init layout) → Asks running.now tasks.RunStored → HasRun ends.first → HasRun ends.second
        → AreInTurn layout ends first.old first.new second.old second.new) }
{
    let disk = new_store(rt, alloc, making, room)?;
    let (one, disk) = run_over(rt, alloc, running, disk, first);
    let (two, disk) = run_over(rt, alloc, running, disk, second);
    Ok(Ends {
        first: one,
        second: two,
        disk,
    })
}

/// Runs the script over the store on the disk, unless the words ask for `threads`.
fn run_over<R: Threads + Wait + Sync>(
    rt: &R,
    alloc: Global,
    words: &Words,
    disk: MemoryDisk,
    streams: &mut Streams,
) -> (u8, MemoryDisk)
    requires { HoldsImage (told_by_memory disk) }
    ensures ran { Asks words.now tasks.RunStored → HasRun result.0 → (layout : DiskLayout) (table : TableState) → HoldsSure (told_by_memory disk) layout table
        → IsRunOver layout table result.0 (told_by_memory disk) (told_by_memory result.1) streams.old streams.new }
    ensures image { HoldsStore (told_by_memory disk) → HoldsImage (told_by_memory result.1) }
{
    match asks_for_threads(alloc, words) {
        Ok(false) => run_script(rt, alloc, words, disk, streams),
        Ok(true) => (USAGE, disk),
        Err(_) => (MEMORY, disk),
    }
}

/// Runs the script over the store on the disk.
fn run_script<R: Threads + Wait + Sync>(
    rt: &R,
    alloc: Global,
    words: &Words,
    disk: MemoryDisk,
    streams: &mut Streams,
) -> (u8, MemoryDisk)
    requires image { HoldsImage (told_by_memory disk) }
    requires alone { ¬ (AsksForThreads words.now) }
    ensures ran { Asks words.now tasks.RunStored → HasRun result.0 → (layout : DiskLayout) (table : TableState) → HoldsSure (told_by_memory disk) layout table
        → IsRunOver layout table result.0 (told_by_memory disk) (told_by_memory result.1) streams.old streams.new }
    ensures image { HoldsStore (told_by_memory disk) → HoldsImage (told_by_memory result.1) }
{
    brin_main::<Stranger, _, _, _, _, _>(
        rt,
        alloc,
        words,
        disk,
        &mut streams.script,
        &mut streams.texts,
        &OpenGate,
    )
}
