//! A move of a range's tuple, by steps: another one takes its place, or is put on another page; then the map names that, and the old one goes.

ghost use Rattle.std.specs.Prelude.{◌≡◌, ◌+◌, ◌<◌, ◌≤◌, List, ℕ, length};
ghost use Rattle.page_map.specs.Keeps.{Tells};
ghost use Rattle.page_locks.specs.LockHolders.{LockState, count_of};
ghost use Rattle.range_store.specs.Tuples.{IsTupleSize};
ghost use Rattle.range_tuple.specs.TupleBytes.{tuple_bytes};
ghost use Rattle.range_tuple.specs.Tuples.{tuple_room};
ghost use Rattle.index_contents.specs.IndexContents.{contents};
ghost use Rattle.index_steps.specs.IndexTuples.{shape_of};
ghost use Rattle.index_steps.specs.MoveEnds.{IsMoving};
ghost use Rattle.index_steps.specs.Moves.{IsMoveReady, MoveCalled, of_swap, taken_to_move};

use crate::moving::{drop_moved, name_moved};
use crate::spelling::spell;
use crate::swapping::{Swapped, Within, swap};
use block_model::Spot;
use disk_trait::Disk;
use heap_rows::PageStore;
use page_locks::{Held, Locks};
use page_map::MachineFault;
use range_store::Scratch;
use range_tuple::RangeTuple;

/// What the next step of a move is to do.
#[derive(Clone, Copy, Debug, PartialEq, Eq)]
pub enum Move {
    /// Have the new tuple take the place of the one that was copied at the spot, or put it on another page.
    Swap(Spot),
    /// Have the map name the new tuple, which was put at the second spot, in place of the old one.
    Set(Spot, Spot),
    /// Drop the old tuple there, which isn't named any more.
    Drop(Spot),
}

/// What came of a step of a move.
#[derive(Clone, Copy, Debug, PartialEq, Eq)]
pub enum MoveStep {
    /// The new tuple stands where the copied one stood.
    InPlace,
    /// Nothing was changed: other bytes stand there, or none.
    Differs,
    /// Nothing was changed: another actor holds the lock of a page that the step changes.
    Waits(Held),
    /// The new tuple of the one at the first spot is put at the second, and the pages of both and the map's are locked.
    Put(Spot, Spot),
    /// The map names the new tuple in place of the one at this spot.
    Named(Spot),
    /// The old tuple is gone, and the locks are given.
    Dropped,
}

/// The next step of a move of the range's tuple, from the one that was copied to this one, for whose bytes there is room. Takes no memory.
pub fn step_move<D: Disk + Drop>(
    pages: &mut PageStore<D>,
    locks: &mut Locks,
    at: Within,
    step: Move,
    copied: &Scratch,
    tuple: &RangeTuple,
    room: &mut [u8],
) -> Result<MoveStep, MachineFault>
    requires index { at.index < length pages.old.layout.schema.indexes }
    requires room { tuple_room tuple.now.columns ≤ length room.old }
    requires locks { 0 < taken_to_move step → count_of locks.old + 3 ≤ locks.old.limit }
    requires ready { Tells D.told pages.old → IsMoveReady (shape_of pages.old.layout at.index) (contents pages.old.layout pages.old.pages at.index) at.range step }
    ensures called { MoveCalled D.told at step copied.now (tuple_bytes tuple.now) pages.old pages.new locks.old locks.new result }
    ensures same_room { length room.new ≡ length room.old }
{
    match step {
        Move::Swap(spot) => {
            let size = spell(tuple, room);
            swapped(pages, locks, at, spot, copied.bytes(), &room[..size])
        }
        Move::Set(from, to) => named(pages, at, from, to),
        Move::Drop(from) => dropped(pages, locks, at, from),
    }
}

/// The swap of a move.
fn swapped<D: Disk + Drop>(
    pages: &mut PageStore<D>,
    locks: &mut Locks,
    at: Within,
    spot: Spot,
    copied: &[u8],
    bytes: &[u8],
) -> Result<MoveStep, MachineFault>
    requires index { at.index < length pages.old.layout.schema.indexes }
    requires size { IsTupleSize (length bytes.now) }
    requires locks { count_of locks.old + 3 ≤ locks.old.limit }
    ensures { MoveCalled D.told at (Move.Swap spot) copied.now bytes.now pages.old pages.new locks.old locks.new result }
{
    match swap(pages, locks, at, spot, copied, bytes) {
        Ok(swapped) => Ok(of_swap(spot, swapped)),
        Err(fault) => Err(fault),
    }
}

/// What a swap at the spot is of the move.
fn of_swap(spot: Spot, swapped: Swapped) -> MoveStep
    ensures { result ≡ of_swap spot swapped }
{
    match swapped {
        Swapped::InPlace => MoveStep::InPlace,
        Swapped::Differs => MoveStep::Differs,
        Swapped::Waits(held) => MoveStep::Waits(held),
        Swapped::Moves(to) => MoveStep::Put(spot, to),
    }
}

/// The map comes to name the new tuple.
fn named<D: Disk + Drop>(
    pages: &mut PageStore<D>,
    at: Within,
    from: Spot,
    to: Spot,
) -> Result<MoveStep, MachineFault>
    requires index { at.index < length pages.old.layout.schema.indexes }
    requires moving { Tells D.told pages.old → IsMoving (shape_of pages.old.layout at.index) (contents pages.old.layout pages.old.pages at.index) at.range from to }
    ensures { (locks : LockState) (copied widened : List ℕ) → MoveCalled D.told at (Move.Set from to) copied widened pages.old pages.new locks locks result }
{
    match name_moved(pages, at, from, to) {
        Ok(()) => Ok(MoveStep::Named(from)),
        Err(error) => Err(MachineFault::Store(error)),
    }
}

/// The old tuple goes, and the actor gives its locks.
fn dropped<D: Disk + Drop>(
    pages: &mut PageStore<D>,
    locks: &mut Locks,
    at: Within,
    from: Spot,
) -> Result<MoveStep, MachineFault>
    requires index { at.index < length pages.old.layout.schema.indexes }
    ensures { (copied widened : List ℕ) → MoveCalled D.told at (Move.Drop from) copied widened pages.old pages.new locks.old locks.new result }
{
    match drop_moved(pages, locks, at, from) {
        Ok(()) => Ok(MoveStep::Dropped),
        Err(error) => Err(MachineFault::Store(error)),
    }
}
