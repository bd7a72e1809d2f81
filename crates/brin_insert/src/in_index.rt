//! The steps of an insert in one index.

ghost use Rattle.std.specs.Prelude.{◌≡◌, ◌+◌, ◌<◌, ◌≤◌, ℕ, List, length, IfOk, OnOk};
ghost use Rattle.block_model.specs.declared.place.Spot.{Spot as AnySpot};
ghost use Rattle.block_model.specs.declared.row.Row.{Row as AnyRow};
ghost use Rattle.block_model.specs.declared.value.Value.{Value as AnyValue};
ghost use Rattle.page_map.specs.Keeps.{Tells};
ghost use Rattle.page_locks.specs.LockHolders.{LockState, count_of};
ghost use Rattle.range_tuple.specs.Tuples.{Tuple as AnyTuple, parts_of, tuple_room};
ghost use Rattle.index_contents.specs.IndexContents.{contents};
ghost use Rattle.index_steps.specs.IndexTuples.{TakesValues, classes_of, shape_of};
ghost use Rattle.index_steps.specs.MoveEnds.{IsMoving};
ghost use Rattle.index_steps.specs.Moves.{IsMoveReady, taken_to_move};
ghost use Rattle.index_steps.specs.OnlyReads.{OnlyReads};
ghost use Rattle.index_steps.specs.SwapAnswers.{FaultNamesPageOf};
ghost use Rattle.brin_insert.specs.InsertCalled.{Called, after_move, stage_of_move};
ghost use Rattle.brin_insert.specs.InsertSteps.{IsAtWork, Stepped, insert_at};
ghost use Rattle.brin_insert.specs.StepAnswers.{DamageAt, StandsAfter};

use crate::stage::Stage;
use block_model::{Place, Point, Spot, Value};
use disk_trait::Disk;
use heap_rows::PageStore;
use index_contents::relation_of;
use index_steps::{
    Move, MoveStep, Scratch, Within, a_row_is_added_to_what_is_seen, copy_tuple, lock_of_another,
    read_map, step_move, values_are_known,
};
use page_locks::{Did, Locks};
use page_map::MachineFault;
use range_tuple::RangeTuple;

/// Reads the map: what it names is to be copied; where it names nothing, the index is complete.
fn map<D: Disk + Drop>(
    pages: &mut PageStore<D>,
    at: Within,
    copied: &mut Scratch,
) -> Result<(Stage, Did), MachineFault>
    requires index { at.index < length pages.old.layout.schema.indexes }
    ensures stepped { IfOk result (λ o. Tells D.told pages.old → (locks : LockState) (before : List ℕ) (old new : AnyTuple) (r : AnyRow) → Stepped (shape_of pages.old.layout at.index) at.actor at.range r (insert_at pages.old.layout pages.old.pages locks at.index Stage.Map before old) (insert_at pages.old.layout pages.new.pages locks at.index o.0 copied.new new) o.1) }
    ensures stands { IfOk result (λ o. StandsAfter o.1 o.0) }
    ensures undamaged { OnOk result (Tells D.told pages.old → DamageAt (shape_of pages.old.layout at.index) (contents pages.old.layout pages.old.pages at.index) at.range Stage.Map → ⊥) }
    ensures reads { OnlyReads D.told (FaultNamesPageOf pages.old.layout at.index) (Tells D.told pages.old → DamageAt (shape_of pages.old.layout at.index) (contents pages.old.layout pages.old.pages at.index) at.range Stage.Map) pages.old pages.new result }
{
    match read_map(pages, at.index, at.range) {
        Ok(Some(spot)) => Ok((Stage::Copy(spot), Did::Moved(Point::Map))),
        Ok(None) => Ok((Stage::Complete, Did::Finished(Point::Map))),
        Err(error) => Err(MachineFault::Store(error)),
    }
}

/// Copies the tuple at the spot, and adds the row. Where the row changes nothing the index is complete, unless another actor locks
/// the tuple's page.
fn copy<D: Disk + Drop>(
    pages: &mut PageStore<D>,
    locks: &Locks,
    at: Within,
    spot: Spot,
    values: &[Value],
    copied: &mut Scratch,
    tuple: &mut RangeTuple,
) -> Result<(Stage, Did), MachineFault>
    requires index { at.index < length pages.old.layout.schema.indexes }
    requires tuple { parts_of tuple.old.columns ≡ classes_of (shape_of pages.old.layout at.index) }
    requires takes { TakesValues (shape_of pages.old.layout at.index) values.now }
    ensures stepped { IfOk result (λ o. Tells D.told pages.old → (before : List ℕ) (r : AnyRow) → r.values ≡ values.now → Stepped (shape_of pages.old.layout at.index) at.actor at.range r (insert_at pages.old.layout pages.old.pages locks.now at.index (Stage.Copy spot) before tuple.old) (insert_at pages.old.layout pages.new.pages locks.now at.index o.0 copied.new tuple.new) o.1) }
    ensures stands { IfOk result (λ o. StandsAfter o.1 o.0) }
    ensures undamaged { OnOk result (Tells D.told pages.old → DamageAt (shape_of pages.old.layout at.index) (contents pages.old.layout pages.old.pages at.index) at.range (Stage.Copy spot) → ⊥) }
    ensures same_index { parts_of tuple.new.columns ≡ parts_of tuple.old.columns }
    ensures reads { OnlyReads D.told (FaultNamesPageOf pages.old.layout at.index) (Tells D.told pages.old → DamageAt (shape_of pages.old.layout at.index) (contents pages.old.layout pages.old.pages at.index) at.range (Stage.Copy spot)) pages.old pages.new result }
{
    a_row_is_added_to_what_is_seen();
    values_are_known(values);
    match copy_tuple(pages, at.index, at.range, spot, copied, tuple) {
        Ok(true) => {}
        Ok(false) => return Ok((Stage::Map, Did::Moved(Point::Copy))),
        Err(error) => return Err(MachineFault::Store(error)),
    }
    tuple.known();
    tuple.one_tuple();
    let changed = tuple.add_row(values);
    tuple.known();
    if changed {
        return Ok((Stage::Swap(spot), Did::Moved(Point::Copy)));
    }
    let page = Place {
        relation: relation_of(pages.layout(), at.index),
        block: spot.block,
    };
    match lock_of_another(locks, page, at.actor) {
        Some(_) => Ok((Stage::Swap(spot), Did::Moved(Point::Copy))),
        None => Ok((Stage::Complete, Did::Finished(Point::Copy))),
    }
}

/// Has the tuple with the row take the place of the one that was copied, or puts it on another page; then the map names it there, and the old
/// one goes.
fn move_in<D: Disk + Drop>(
    pages: &mut PageStore<D>,
    locks: &mut Locks,
    at: Within,
    step: Move,
    copied: &Scratch,
    tuple: &RangeTuple,
    room: &mut [u8],
) -> Result<(Stage, Did), MachineFault>
    requires index { at.index < length pages.old.layout.schema.indexes }
    requires room { tuple_room tuple.now.columns ≤ length room.old }
    requires locks { 0 < taken_to_move step → count_of locks.old + 3 ≤ locks.old.limit }
    requires ready { Tells D.told pages.old → IsMoveReady (shape_of pages.old.layout at.index) (contents pages.old.layout pages.old.pages at.index) at.range step }
    ensures called { (values : List AnyValue) → Called D.told at (stage_of_move step) copied.now copied.now tuple.now tuple.now values pages.old pages.new locks.old locks.new result }
    ensures same_room { length room.new ≡ length room.old }
{
    match step_move(pages, locks, at, step, copied, tuple, room) {
        Ok(made) => Ok(after_move(step, made)),
        Err(fault) => Err(fault),
    }
}

/// What comes of a step of the move.
fn after_move(step: Move, made: MoveStep) -> (Stage, Did)
    ensures { result ≡ after_move step made }
{
    match made {
        MoveStep::InPlace => (Stage::Complete, Did::Finished(Point::Swap)),
        MoveStep::Differs => (Stage::Map, Did::Moved(Point::Again)),
        MoveStep::Waits(held) => (stage_of_move(step), Did::Blocked(held)),
        MoveStep::Put(from, to) => (Stage::Set(from, to), Did::Moved(Point::Put)),
        MoveStep::Named(from) => (Stage::Drop(from), Did::Moved(Point::Set)),
        MoveStep::Dropped => (Stage::Complete, Did::Finished(Point::Drop)),
    }
}

/// The stage at which a step of the move is next.
fn stage_of_move(step: Move) -> Stage
    ensures { result ≡ stage_of_move step }
{
    match step {
        Move::Swap(spot) => Stage::Swap(spot),
        Move::Set(from, to) => Stage::Set(from, to),
        Move::Drop(from) => Stage::Drop(from),
    }
}

/// The next step of an insert in an index at this stage, with the stage after it.
pub(crate) fn step_in<D: Disk + Drop>(
    pages: &mut PageStore<D>,
    locks: &mut Locks,
    at: Within,
    stage: Stage,
    values: &[Value],
    copied: &mut Scratch,
    tuple: &mut RangeTuple,
    room: &mut [u8],
) -> Result<(Stage, Did), MachineFault>
    requires index { at.index < length pages.old.layout.schema.indexes }
    requires work { IsAtWork stage }
    requires tuple { parts_of tuple.old.columns ≡ classes_of (shape_of pages.old.layout at.index) }
    requires takes { TakesValues (shape_of pages.old.layout at.index) values.now }
    requires room { tuple_room tuple.old.columns ≤ length room.old }
    requires locks { (x : AnySpot) → stage ≡ Stage.Swap x → count_of locks.old + 3 ≤ locks.old.limit }
    requires moving { (x y : AnySpot) → stage ≡ Stage.Set x y → Tells D.told pages.old → IsMoving (shape_of pages.old.layout at.index) (contents pages.old.layout pages.old.pages at.index) at.range x y }
    ensures called { Called D.told at stage copied.old copied.new tuple.old tuple.new values.now pages.old pages.new locks.old locks.new result }
    ensures same_index { parts_of tuple.new.columns ≡ parts_of tuple.old.columns }
    ensures same_room { length room.new ≡ length room.old }
{
    match stage {
        Stage::Map => map(pages, at, copied),
        Stage::Copy(spot) => copy(pages, locks, at, spot, values, copied, tuple),
        Stage::Swap(spot) => move_in(pages, locks, at, Move::Swap(spot), copied, tuple, room),
        Stage::Set(from, to) => {
            move_in(pages, locks, at, Move::Set(from, to), copied, tuple, room)
        }
        Stage::Drop(from) => move_in(pages, locks, at, Move::Drop(from), copied, tuple, room),
        Stage::Complete => unreachable!(),
    }
}
