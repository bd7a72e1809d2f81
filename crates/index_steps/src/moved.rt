//! The tuple that a growth moves.

ghost use Rattle.std.specs.Prelude.{◌≡◌, ◌<◌, length, IfOk, IfErr, IfSome, OnErr};
ghost use Rattle.page_map.specs.Keeps.{Keeps, Tells, Untold};
ghost use Rattle.page_map.specs.Outcome.{Outcome};
ghost use Rattle.heap_rows.specs.Survives.{Survives};
ghost use Rattle.index_contents.specs.IndexContents.{contents};
ghost use Rattle.index_steps.specs.Readings.{NamesPageOf};
ghost use Rattle.range_store.specs.Tuples.{IsTupleSize};
ghost use Rattle.index_steps.specs.MovedTuples.{IsFirstOf};

use crate::{FirstTuple, first_tuple};
use block_model::{NoMemory, PAGE_SIZE};
use disk_trait::Disk;
use heap_rows::PageStore;
use page_map::StoreError;
use std::alloc::Global;
use std::boxed::BoxedSlice;
use std::marker::Model;

/// Room for the bytes of a tuple, seen as the bytes that it holds.
#[derive(Debug, Drop)]
pub(crate) struct Moved {
    room: BoxedSlice<u8>,
    held: usize,
}

impl Model for Moved {
    ghost use Rattle.std.specs.Prelude.{ℕ, List, take};
    ghost use Rattle.std.specs.Box.{boxed_slice_items};
    ghost use Rattle.index_steps.specs.MovedTuples.{IsMoved};

    ghost Value = { List ℕ };

    ghost view = { λ a. take a.held (boxed_slice_items a.room) };

    ghost invariant = { λ a. IsMoved (boxed_slice_items a.room) a.held };
}

impl Moved {
    /// Holds no bytes. All memory is taken here.
    pub(crate) fn new(alloc: Global) -> Result<Moved, NoMemory> {
        let room = vec![in alloc; 0u8; PAGE_SIZE]?;
        Ok(Moved {
            room: room.into_boxed_slice(),
            held: 0,
        })
    }

    /// The bytes that it holds.
    pub(crate) fn bytes(&self) -> &[u8]
        ensures { result.now ≡ self.now }
    {
        &self.room[..self.held]
    }

    /// The first tuple of the block, whose bytes it holds then; none where the block has none. Takes no memory.
    pub(crate) fn read_first<D: Disk + Drop>(
        &mut self,
        pages: &mut PageStore<D>,
        index: u8,
        block: u32,
    ) -> Result<Option<FirstTuple>, StoreError>
        requires index { index < length pages.old.layout.schema.indexes }
        requires block { block < pages.old.layout.sizes.index_blocks }
        ensures first { IfOk result (λ first. Tells D.told pages.old → IsFirstOf (contents pages.old.layout pages.old.pages index) block self.new first) }
        ensures size { IfOk result (λ first. IfSome first (λ tuple. IsTupleSize (length self.new))) }
        ensures kept { Keeps D.told pages.old pages.new }
        ensures survives { Survives D.told (λ passed. passed ≡ pages.old.pages) pages.old pages.new }
        ensures at { IfErr result (NamesPageOf pages.old.layout index) }
        ensures outcome { Outcome D.told (Untold D.told pages.old) pages.old pages.new result }
    {
        match first_tuple(pages, index, block, &mut self.room) {
            Ok(Some(first)) => {
                self.held = first.size;
                Ok(Some(first))
            }
            Ok(None) => Ok(None),
            Err(error) => Err(error),
        }
    }
}
