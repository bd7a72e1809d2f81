//! A source over bytes in memory.

ghost use Rattle.std.specs.Prelude.{◌≡◌, ◌↔◌, ◌<◌, ◌≤◌, Some, min, length, take, drop, IfOk, IsErr, OnErr};
ghost use Rattle.std.specs.Io.{ReadsAtMost};
ghost use Rattle.std.specs.Io.KnownBytes.{ReadConsumes};
ghost use Rattle.block_model.specs.Causes.{HasCause};
ghost use Rattle.disk_trait.specs.Calls.{FailsNext, fresh, succeeded, failed};
ghost use Rattle.io_traits.specs.Memory.{given_count};

use crate::source::{Source, SourceFault};
use disk_trait::Calls;
use std::marker::Model;

/// A source that gives bytes of memory in pieces, and fails where it is told to.
#[derive(Debug, Drop)]
pub struct MemorySource {
    bytes: Vec<u8>,
    given: usize,
    piece: usize,
    calls: Calls,
}

impl Model for MemorySource {
    ghost use Rattle.std.specs.Prelude.{◌<◌, ◌≤◌, length, drop};
    ghost use Rattle.io_traits.specs.Memory.{Reading};

    ghost Value = { Reading };

    ghost view = { λ s. record { left = drop s.given s.bytes.items; piece = s.piece; calls = s.calls } };

    ghost invariant = { λ s. (s.given ≤ length s.bytes.items) × (0 < s.piece) };
}

impl MemorySource {
    /// Gives these bytes, at most `piece` a call. The calls of the numbers `fails`, from 1, fail.
    pub fn new(bytes: Vec<u8>, piece: usize, fails: Vec<u64>) -> MemorySource
        requires { 0 < piece }
        ensures { result ≡ record { left = bytes.items; piece = piece; calls = fresh fails.items } }
    {
        MemorySource {
            bytes,
            given: 0,
            piece,
            calls: Calls::new(fails),
        }
    }
}

impl Source for MemorySource {
    ghost left = { λ s. Some s.left };

    ghost faults = { λ s. s.calls.faults };

    fn read(&mut self, into: &mut [u8]) -> Result<usize, SourceFault>
        ensures bound { ReadsAtMost result into.new }
        ensures bytes { ReadConsumes (Some self.old.left) (Some self.new.left) result into.new }
        ensures cause { HasCause self.old.calls.faults self.new.calls.faults result }

        // It fails exactly where it is told to, and else gives as much as it may.
        ensures fails { IsErr result ↔ FailsNext self.old.calls }
        ensures count { IfOk result (λ n. n ≡ given_count self.old (length into.old)) }
        ensures ok { IfOk result (λ n. self.new ≡ record self.old { left = drop n self.old.left; calls = succeeded self.old.calls }) }
        ensures err { OnErr result (self.new ≡ record self.old { calls = failed self.old.calls }) }
    {
        if self.calls.fails_now() {
            self.calls.count_fault();
            return Err(SourceFault);
        }
        let count = copy_front(&self.bytes[self.given..], into, self.piece);
        self.given += count;
        Ok(count)
    }

    fn faults(&self) -> u64 {
        self.calls.faults()
    }
}

/// Copies a front of at most `most` bytes, and says how many they are.
fn copy_front(from: &[u8], into: &mut [u8], most: usize) -> usize
    ensures count { result ≡ min most (min (length into.old) (length from.now)) }
    ensures copied { take result into.new ≡ take result from.now }
{
    let count = most.min(into.len()).min(from.len());
    into[..count].copy_from_slice(&from[..count]);
    count
}
