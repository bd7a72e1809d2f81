//! Room for the bytes of one tuple.

ghost use Rattle.std.specs.Prelude.{◌≡◌, ◌≤◌, [], IfOk, length, take};
ghost use Rattle.block_model.specs.declared.limits.TheConstants.{PAGE_SIZE};

use block_model::{NoMemory, PAGE_SIZE};
use std::alloc::Global;
use std::marker::Model;

/// Room for the bytes of a page, seen as the bytes that it holds.
#[derive(Debug, Drop)]
pub struct Scratch {
    room: Vec<u8>,
    held: usize,
}

impl Model for Scratch {
    ghost use Rattle.std.specs.Prelude.{ℕ, List, take};
    ghost use Rattle.range_store.specs.Scratches.{IsScratch};

    ghost Value = { List ℕ };

    ghost view = { λ scratch. take scratch.held scratch.room.items };

    ghost invariant = { λ scratch. IsScratch scratch.room.items scratch.held };
}

impl Scratch {
    /// Holds no bytes. All memory is taken here.
    pub fn new(alloc: Global) -> Result<Scratch, NoMemory>
        ensures { IfOk result (λ scratch. scratch ≡ []) }
    {
        let room = vec![in alloc; 0u8; PAGE_SIZE]?;
        Ok(Scratch { room, held: 0 })
    }

    /// The bytes that it holds.
    pub fn bytes(&self) -> &[u8]
        ensures { result.now ≡ self.now }
    {
        &self.room[..self.held]
    }

    /// Holds these bytes.
    pub fn hold(&mut self, bytes: &[u8])
        requires { length bytes.now ≤ PAGE_SIZE }
        ensures { self.new ≡ bytes.now }
    {
        put_in_front(&mut self.room, bytes);
        self.held = bytes.len();
    }
}

/// The bytes stand at the front of the room.
fn put_in_front(room: &mut [u8], bytes: &[u8])
    requires { length bytes.now ≤ length room.old }
    ensures front { take (length bytes.now) room.new ≡ bytes.now }
    ensures whole { length room.new ≡ length room.old }
{
    room[..bytes.len()].copy_from_slice(bytes);
}
