//! How large a disk the words of a command line want.

ghost use Rattle.std.specs.Prelude.{◌≡◌, IfOk};
ghost use Rattle.brin_app.specs.WantedSizes.{IsWantedSize, size_for};

use crate::top::{Task, WordsFault, read_words};
use block_model::{NoMemory, Words};
use std::alloc::Global;

/// How many bytes a disk has of which the words make a store: `init` does so, `run` and `threads` with declarations, and `demo`. `None` for all other words.
/// `Err` is want of memory.
pub fn wanted_size(alloc: Global, words: &Words) -> Result<Option<u64>, NoMemory>
    ensures { IfOk result (IsWantedSize words.now) }
{
    match read_words(alloc, words) {
        Ok(task) => Ok(size_for(&task)),
        Err(WordsFault::Usage) => Ok(None),
        Err(WordsFault::Memory) => Err(NoMemory),
    }
}

/// The size of the disk of which the task makes a store.
fn size_for(task: &Task) -> Option<u64>
    ensures { result ≡ size_for task.now }
{
    match task {
        Task::Init(layout) => Some(layout.disk_size()),
        Task::Run(layout) => Some(layout.disk_size()),
        Task::Demo { layout, .. } => Some(layout.disk_size()),
        Task::Threads(layout) => Some(layout.disk_size()),
        Task::RunStored => None,
        Task::ThreadsStored => None,
    }
}
