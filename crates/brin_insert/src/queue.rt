//! Requests for summaries, in the order in which they came.

ghost use Rattle.std.specs.Prelude.{◌≡◌, ◌↔◌, ◌<◌, ◌≤◌, ◌++◌, ◌∷◌, [], true, false, length, drop, slice_get, IfOk};
ghost use Rattle.brin_insert.specs.declared.queue.TheConstants.{MAX_REQUESTS};

use block_model::NoMemory;
use std::alloc::Global;
use std::collections::VecDeque;
use std::marker::Model;

/// How many requests a queue holds at most.
pub const MAX_REQUESTS: usize = 64;

/// Requests for a summary, each of an index and a range of it, in the order in which they came.
#[derive(Debug, Drop)]
pub struct Queue {
    requests: VecDeque<(u8, u32)>,
}

impl Model for Queue {
    ghost use Rattle.std.specs.Prelude.{◌≡◌, ◌≤◌, List, ℕ, length};
    ghost use Rattle.std.specs.VecDeque.{deque_capacity};

    ghost Value = { List (ℕ × ℕ) };

    ghost view = { λ a. a.requests.items };

    ghost invariant = { λ a. (length a.requests.items ≤ 64) × (deque_capacity a.requests ≡ 64) };
}

impl Queue {
    /// Holds no request. All memory is taken here. `Err` is want of memory.
    pub fn new(alloc: Global) -> Result<Queue, NoMemory>
        ensures { IfOk result (λ queue. queue ≡ []) }
    {
        let requests = VecDeque::with_capacity(alloc, MAX_REQUESTS)?;
        Ok(Queue { requests })
    }

    /// Does nothing; tells its caller that no more requests are held than may be.
    pub fn known(&self)
        ensures { length self.now ≤ MAX_REQUESTS }
    {
        // Reads a field, so that the queue is opened.
        let _ = &self.requests;
    }

    /// The request for a summary of the range joins at the end, also where it is there already. False exactly where the queue is full;
    /// nothing is changed then. Takes no memory.
    pub fn ask(&mut self, index: u8, range: u32) -> bool
        ensures joins { result ≡ true → self.new ≡ self.old ++ ((index, range) ∷ []) }
        ensures same { result ≡ false → self.new ≡ self.old }
        ensures room { (result ≡ true) ↔ (length self.old < MAX_REQUESTS) }
    {
        if self.requests.len() >= MAX_REQUESTS {
            return false;
        }
        self.requests.push_back_reserved((index, range));
        true
    }

    /// Takes the request that came first; nothing where none is held. Takes no memory.
    pub fn take(&mut self) -> Option<(u8, u32)>
        ensures taken { result ≡ slice_get self.old 0 }
        ensures rest { self.new ≡ drop 1 self.old }
    {
        self.requests.pop_front()
    }

    /// The request that came first, which `take` would give; nothing where none is held.
    pub fn first(&self) -> Option<(u8, u32)>
        ensures { result ≡ slice_get self.now 0 }
    {
        self.requests.front().copied()
    }
}
