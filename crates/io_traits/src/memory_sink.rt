//! A sink into memory.

ghost use Rattle.std.specs.Prelude.{◌≡◌, ◌↔◌, ◌⊎◌, ◌<◌, ◌≤◌, ◌++◌, [], Some, length, take, IfOk, IsOk, IsErr, OnErr};
ghost use Rattle.std.specs.Io.KnownBytes.{WriteAppends};
ghost use Rattle.block_model.specs.Causes.{HasCause};
ghost use Rattle.disk_trait.specs.Calls.{FailsNext, fresh, succeeded, failed};
ghost use Rattle.io_traits.specs.Memory.{taken_count, IsFullFor};

use crate::sink::{Sink, SinkFault};
use block_model::NoMemory;
use disk_trait::Calls;
use std::alloc::Global;
use std::marker::Model;

/// A sink that takes bytes into memory in pieces, and fails where it is told to or has no room.
#[derive(Debug, Drop)]
pub struct MemorySink {
    bytes: Vec<u8>,
    room: usize,
    piece: usize,
    calls: Calls,
}

impl Model for MemorySink {
    ghost use Rattle.std.specs.Prelude.{◌<◌, ◌≤◌, length, vec_capacity};
    ghost use Rattle.io_traits.specs.Memory.{Writing};

    ghost Value = { Writing };

    ghost view = { λ s. record { taken = s.bytes.items; room = s.room; piece = s.piece; calls = s.calls } };

    ghost invariant = { λ s. (length s.bytes.items ≤ s.room) × (s.room ≤ vec_capacity s.bytes) × (0 < s.piece) };
}

impl MemorySink {
    /// Takes at most `room` bytes, and at most `piece` a call. The calls of the numbers `fails`, from 1, fail. All memory
    /// is taken here; `Err` is want of it.
    pub fn new(
        alloc: Global,
        room: usize,
        piece: usize,
        fails: Vec<u64>,
    ) -> Result<MemorySink, NoMemory>
        requires { 0 < piece }
        ensures ok { IfOk result (λ s. s ≡ record { taken = []; room = room; piece = piece; calls = fresh fails.items }) }
        ensures none { room ≡ 0 → IsOk result }
    {
        let bytes = Vec::with_capacity(alloc, room)?;
        Ok(MemorySink {
            bytes,
            room,
            piece,
            calls: Calls::new(fails),
        })
    }

    /// What it took.
    pub fn bytes(&self) -> &[u8]
        ensures { result.now ≡ self.now.taken }
    {
        self.bytes.as_slice()
    }
}

impl Sink for MemorySink {
    ghost taken = { λ s. Some s.taken };

    ghost faults = { λ s. s.calls.faults };

    fn write(&mut self, bytes: &[u8]) -> Result<usize, SinkFault>
        ensures bound { IfOk result (λ n. n ≤ length bytes.now) }
        ensures some { IfOk result (λ n. 0 < length bytes.now → 0 < n) }
        ensures bytes { WriteAppends (Some self.old.taken) (Some self.new.taken) result bytes.now }
        ensures cause { HasCause self.old.calls.faults self.new.calls.faults result }

        // It fails exactly where it is told to or has no room, and else takes as much as it may.
        ensures fails { IsErr result ↔ (FailsNext self.old.calls ⊎ IsFullFor self.old bytes.now) }
        ensures count { IfOk result (λ n. n ≡ taken_count self.old (length bytes.now)) }
        ensures ok { IfOk result (λ n. self.new ≡ record self.old { taken = self.old.taken ++ take n bytes.now; calls = succeeded self.old.calls }) }
        ensures err { OnErr result (self.new ≡ record self.old { calls = failed self.old.calls }) }
    {
        if self.calls.fails_now() {
            self.calls.count_fault();
            return Err(SinkFault);
        }
        let count = self
            .piece
            .min(bytes.len())
            .min(self.room - self.bytes.len());
        if count == 0 && !bytes.is_empty() {
            self.calls.count_fault();
            return Err(SinkFault);
        }
        let Ok(()) = self.bytes.extend_from_slice(&bytes[..count]) else {
            unreachable!()
        };
        Ok(count)
    }

    fn faults(&self) -> u64 {
        self.calls.faults()
    }
}
