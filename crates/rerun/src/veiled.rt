//! A run of the program over a disk in memory.

use block_model::Words;
use brin_app::{Stranger, brin_main};
use disk_trait::{SteadyDisk, VeiledDisk};
use io_traits::{Gate, MemorySink, MemorySource};
use std::alloc::Global;
use std::sync::Wait;
use std::thread::Threads;

/// What a run came to: its status, what it wrote, and the disk.
#[derive(Drop)]
pub struct Ran {
    pub status: u8,
    pub texts: MemorySink,
    pub disk: SteadyDisk,
}

/// The words of a command line. `None` is want of memory.
pub fn words_of(alloc: Global, texts: &[&[u8]]) -> Option<Words> {
    let mut words = Words::new(alloc);
    for text in texts {
        words.push(text).ok()?;
    }
    Some(words)
}

/// Runs the script over the disk, of which nothing is claimed here: so it is veiled. `None` is want of memory.
pub fn run_veiled<R: Threads + Wait + Sync, G: Gate + Sync>(
    rt: &R,
    alloc: Global,
    command: &[&[u8]],
    script: &[u8],
    disk: SteadyDisk,
    gate: &G,
) -> Option<Ran> {
    let words = words_of(alloc, command)?;
    let bytes = Vec::from_slice(alloc, script).ok()?;
    let mut source = MemorySource::new(bytes, 1000, Vec::new(alloc));
    let mut texts = MemorySink::new(alloc, 4096, 1000, Vec::new(alloc)).ok()?;
    let (status, veiled) = brin_main::<Stranger, _, _, _, _, _>(
        rt,
        alloc,
        &words,
        VeiledDisk::over(disk),
        &mut source,
        &mut texts,
        gate,
    );
    Some(Ran {
        status,
        texts,
        disk: veiled.into_inner(),
    })
}
