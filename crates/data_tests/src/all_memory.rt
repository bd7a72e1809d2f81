//! All memory that a process can get.

use block_model::NoMemory;
use std::alloc::Global;

/// More blocks of a size than these are never taken.
const MOST_BLOCKS: usize = 65536;

/// The greatest size that is tried, in bytes.
const GREATEST_SIZE: usize = 1 << 46;

/// How many sizes are tried, each half of the one before and one byte last.
const SIZES: usize = 47;

/// How the same calls get on with memory, without it, and with room that was given back.
#[derive(Clone, Copy, Debug, PartialEq, Eq)]
pub(crate) enum Outcome {
    /// There was memory left to take, so nothing is shown.
    MemoryIsLeft,
    /// The calls answer otherwise without memory.
    AnswersDiffer,
    /// Of the room that was given back some is gone.
    MemoryIsTaken,
    /// The calls take no memory.
    NoMemoryIsTaken,
}

/// Blocks in which all addresses of the process are taken. They are never written, so they fill no memory of the machine.
#[derive(Drop)]
pub(crate) struct AllMemory {
    alloc: Global,
    blocks: Vec<Vec<u8>>,
}

impl AllMemory {
    /// Takes blocks of each size until there is none, the greatest first.
    pub(crate) fn take(alloc: Global) -> Result<AllMemory, NoMemory> {
        let mut blocks = Vec::with_capacity(alloc, MOST_BLOCKS)?;
        let mut size = GREATEST_SIZE;
        'sizes: for _ in 0..SIZES {
            take_blocks(alloc, size, &mut blocks)?;
            size /= 2;
        }
        Ok(AllMemory { alloc, blocks })
    }

    /// Whether there is room for so many bytes.
    pub(crate) fn has_room(&self, bytes: usize) -> bool {
        Vec::<u8>::with_capacity(self.alloc, bytes).is_ok()
    }

    /// Gives a block of the greatest size back, and answers how many bytes it has.
    pub(crate) fn give_back(&mut self) -> usize {
        if self.blocks.is_empty() {
            return 0;
        }
        self.blocks.swap_remove(0).capacity()
    }

    /// What is shown where there was no room for a byte, the answers were the same, and so much room was given back.
    pub(crate) fn outcome(&self, was_left: bool, are_same: bool, given_back: usize) -> Outcome {
        if was_left {
            return Outcome::MemoryIsLeft;
        }
        if !are_same {
            return Outcome::AnswersDiffer;
        }
        if self.has_room(given_back) {
            Outcome::NoMemoryIsTaken
        } else {
            Outcome::MemoryIsTaken
        }
    }
}

/// Takes blocks of a size until there is none.
fn take_blocks(alloc: Global, size: usize, blocks: &mut Vec<Vec<u8>>) -> Result<(), NoMemory> {
    'blocks: for _ in 0..MOST_BLOCKS {
        let Ok(block) = Vec::with_capacity(alloc, size) else {
            return Ok(());
        };
        blocks.push(block)?;
    }
    Ok(())
}

/// Whether a list with room for one byte was made.
fn makes_a_list(alloc: Global) -> bool {
    Vec::<u8>::with_capacity(alloc, 1).is_ok()
}

#[test]
fn a_call_that_takes_memory_is_told(rt: HostRuntime) -> Result<(), NoMemory> {
    let alloc = rt.alloc();
    let mut memory = AllMemory::take(alloc)?;
    let was_left = memory.has_room(1);
    let given_back = memory.give_back();
    let _ = makes_a_list(alloc);
    assert_eq!(rt;
        memory.outcome(was_left, true, given_back),
        Outcome::MemoryIsTaken
    );
    Ok(())
}
