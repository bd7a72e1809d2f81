//! Whether the words of a command line ask for workers.

ghost use Rattle.std.specs.Prelude.{◌≡◌, IfOk, IfSome, true, false};
ghost use Rattle.brin_app.specs.Tasks.{Asks, AsksForThreads, IsThreaded};
ghost use Rattle.brin_app.specs.declared.top.Task.{Task};
ghost use Rattle.brin_app.specs.declared.top.Task.TheVariants as tasks;

use crate::top::{Task, WordsFault, read_words};
use block_model::{NoMemory, Words};
use std::alloc::Global;
use store_layout::Layout;

/// Whether the words ask for a script that is run by one worker a session, as `threads` does. `Err` is want of memory.
pub fn asks_for_threads(alloc: Global, words: &Words) -> Result<bool, NoMemory>
    ensures right { IfOk result (λ asks. asks ≡ true → AsksForThreads words.now) }
    ensures wrong { IfOk result (λ asks. asks ≡ false → ¬ (AsksForThreads words.now)) }
{
    match read_words(alloc, words) {
        Ok(task) => Ok(is_threaded(&task)),
        Err(WordsFault::Usage) => Ok(false),
        Err(WordsFault::Memory) => Err(NoMemory),
    }
}

/// The layout of the new store over which the words ask for a script that is run by one worker a session; `None` where they ask for none. `Err` is want of memory.
pub fn threads_layout(alloc: Global, words: &Words) -> Result<Option<Layout>, NoMemory>
    ensures asked { IfOk result (λ found. IfSome found (λ layout. Asks words.now (tasks.Threads layout))) }
    ensures alone { IfOk result (λ found. IfSome found (λ layout. (task : Task) → Asks words.now task → task ≡ tasks.Threads layout)) }
{
    match read_words(alloc, words) {
        Ok(Task::Threads(layout)) => Ok(Some(layout)),
        Ok(_) | Err(WordsFault::Usage) => Ok(None),
        Err(WordsFault::Memory) => Err(NoMemory),
    }
}

/// Whether the task runs a script by one worker a session.
fn is_threaded(task: &Task) -> bool
    ensures right { result ≡ true → IsThreaded task.now }
    ensures wrong { result ≡ false → ¬ (IsThreaded task.now) }
{
    match task {
        Task::Threads(_) | Task::ThreadsStored => true,
        Task::Init(_) | Task::Run(_) | Task::RunStored | Task::Demo { .. } => false,
    }
}
