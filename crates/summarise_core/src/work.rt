//! What a summarise works with at a range, and its next step by the stage that it is at.

ghost use Rattle.std.specs.Prelude.{◌≡◌, ◌+◌, ◌<◌, ◌≤◌, length, IfOk, OnOk};
ghost use Rattle.page_locks.specs.LockHolders.{LockState, count_of};
ghost use Rattle.page_map.specs.Keeps.{Tells};
ghost use Rattle.heap_rows.specs.HeapBlocks.{OfBlocks};
ghost use Rattle.range_tuple.specs.Tuples.{tuple_room};
ghost use Rattle.index_contents.specs.IndexContents.{contents};
ghost use Rattle.index_steps.specs.IndexTuples.{shape_of};
ghost use Rattle.index_steps.specs.OnlyReads.{OnlyReads};
ghost use Rattle.index_steps.specs.declared.growth_stage.Stage.{Stage as GrowthStage};
ghost use Rattle.summarise_core.specs.ExactSummaries.{IsExactAt};
ghost use Rattle.summarise_core.specs.ShownHeap.{Heap, heap_of};
ghost use Rattle.summarise_core.specs.StepCauses.{DamageAt, IsReady, NamesPageAt};
ghost use Rattle.summarise_core.specs.StageLocks.{taken_at};
ghost use Rattle.summarise_core.specs.SummariseCalled.{Called};
ghost use Rattle.summarise_core.specs.SummariseHands.{GrowsToPlace, IsHandOf, table_of};
ghost use Rattle.summarise_core.specs.SummariseSteps.{IsAtWork, StandsAfter, StepsAt};
ghost use Rattle.summarise_core.specs.Works.{hand_of};

use crate::growing::{grow, grows};
use crate::in_range::{look, look_again, move_in, name, pass, place, read_extent, take_up, unite};
use crate::range_stage::Stage;
use block_model::{Point, Spot};
use disk_trait::Disk;
use heap_rows::PageRows;
use index_steps::{Extend, Move, Scratch, Within};
use page_locks::{Did, Locks};
use page_map::MachineFault;
use page_store::PageStore;
use range_tuple::RangeTuple;

/// The extent that was read, and the next block to be passed; the tuple that the passed blocks made, and the final one; the bytes of the
/// tuple that was copied; room for the rows of a block; and the growth of the index's map.
#[derive(Debug, Drop)]
pub(crate) struct Work {
    pub(crate) extent: u64,
    pub(crate) next: u64,
    pub(crate) running: RangeTuple,
    pub(crate) united: RangeTuple,
    pub(crate) copied: Scratch,
    pub(crate) rows: PageRows,
    pub(crate) growth: Extend,
}

/// The next step of a summarise at the range at this stage, with the stage after it.
pub(crate) fn step_in<D: Disk + Drop>(
    pages: &mut PageStore<D>,
    locks: &mut Locks,
    at: Within,
    stage: Stage,
    work: &mut Work,
    room: &mut [u8],
) -> Result<(Stage, Did), MachineFault>
    requires index { at.index < length pages.old.layout.schema.indexes }
    requires work { IsAtWork stage }
    requires of { IsHandOf pages.old.layout at.index (hand_of stage work.old) }
    requires room { tuple_room work.old.united.columns ≤ length room.old }
    requires locks { 0 < taken_at work.old.growth.stage stage → count_of locks.old + taken_at work.old.growth.stage stage ≤ locks.old.limit }
    requires ready { Tells D.told pages.old → IsReady (shape_of pages.old.layout at.index) (contents pages.old.layout pages.old.pages at.index) at.range work.old.growth.stage stage }
    requires grows { GrowsToPlace work.old.growth.stage stage }
    ensures called { Called D.told at stage work.old work.new pages.old pages.new locks.old locks.new result }
    ensures same_room { length room.new ≡ length room.old }
{
    match stage {
        Stage::Map => look(pages, at, &mut work.copied),
        Stage::Tuple(x) => take_up(pages, at, x, &mut work.copied, &mut work.united),
        Stage::Place => place_in(pages, locks, at, work, room),
        Stage::Name(to) => name(pages, locks, at, to),
        Stage::Extent => begin_pass(pages, at, work),
        Stage::Pass => go_on(pages, at, work),
        Stage::Copy(x) => unite_in(pages, at, x, work),
        Stage::Swap(x) => move_in(pages, locks, at, Move::Swap(x), work, room),
        Stage::Set(from, to) => move_in(pages, locks, at, Move::Set(from, to), work, room),
        Stage::Drop(from) => move_in(pages, locks, at, Move::Drop(from), work, room),
        Stage::Had => unreachable!(),
        Stage::Made => unreachable!(),
    }
}

/// The next step where the range has no entry: that of the map's growth, while one is under way or the map has no page for the entry; else the
/// placeholder is put.
fn place_in<D: Disk + Drop>(
    pages: &mut PageStore<D>,
    locks: &mut Locks,
    at: Within,
    work: &mut Work,
    room: &mut [u8],
) -> Result<(Stage, Did), MachineFault>
    requires index { at.index < length pages.old.layout.schema.indexes }
    requires of { IsHandOf pages.old.layout at.index (hand_of Stage.Place work.old) }
    requires room { tuple_room work.old.united.columns ≤ length room.old }
    requires locks { 0 < taken_at work.old.growth.stage Stage.Place → count_of locks.old + taken_at work.old.growth.stage Stage.Place ≤ locks.old.limit }
    requires ready { Tells D.told pages.old → IsReady (shape_of pages.old.layout at.index) (contents pages.old.layout pages.old.pages at.index) at.range work.old.growth.stage Stage.Place }
    ensures called { Called D.told at Stage.Place work.old work.new pages.old pages.new locks.old locks.new result }
    ensures same_room { length room.new ≡ length room.old }
{
    if grows(pages, at, &work.growth) {
        return grow(pages, locks, at, &mut work.growth);
    }
    place(pages, locks, at, &mut work.united, room)
}

/// Reads the extent of the table: the blocks of the range below it are to be passed.
fn begin_pass<D: Disk + Drop>(
    pages: &PageStore<D>,
    at: Within,
    work: &mut Work,
) -> Result<(Stage, Did), MachineFault>
    requires index { at.index < length pages.now.layout.schema.indexes }
    requires of { IsHandOf pages.now.layout at.index (hand_of Stage.Extent work.old) }
    ensures stepped { IfOk result (λ o. OfBlocks D.told pages.now (table_of pages.now.layout at.index) (λ blocks. (locks : LockState) → StepsAt pages.now.layout pages.now.pages pages.now.pages locks locks at (heap_of pages.now.layout at.index blocks) (hand_of Stage.Extent work.old) (hand_of o.0 work.new) o.1)) }
    ensures exact { IfOk result (λ o. OfBlocks D.told pages.now (table_of pages.now.layout at.index) (λ blocks. IsExactAt (shape_of pages.now.layout at.index) (heap_of pages.now.layout at.index blocks) at.range (hand_of Stage.Extent work.old) Stage.Extent → IsExactAt (shape_of pages.now.layout at.index) (heap_of pages.now.layout at.index blocks) at.range (hand_of o.0 work.new) o.0)) }
    ensures stands { IfOk result (λ o. (growth : GrowthStage) → StandsAfter growth Stage.Extent o.0 o.1) }
    ensures same_growth { work.new.growth ≡ work.old.growth }
    ensures of { IsHandOf pages.now.layout at.index (hand_of Stage.Extent work.new) }
    ensures reads { OnlyReads D.told (NamesPageAt pages.now.layout at.index Stage.Extent) (Tells D.told pages.now → DamageAt pages.now.layout pages.now.pages at.index at.range (hand_of Stage.Extent work.old) Stage.Extent) pages.now pages.now result }
{
    match read_extent(pages, at, &mut work.running) {
        Ok((extent, first)) => {
            work.extent = extent;
            work.next = first;
            Ok((Stage::Pass, Did::Moved(Point::Extent)))
        }
        Err(fault) => Err(fault),
    }
}

/// Passes the next block below the extent; where all are passed, reads the map again.
fn go_on<D: Disk + Drop>(
    pages: &mut PageStore<D>,
    at: Within,
    work: &mut Work,
) -> Result<(Stage, Did), MachineFault>
    requires index { at.index < length pages.old.layout.schema.indexes }
    requires of { IsHandOf pages.old.layout at.index (hand_of Stage.Pass work.old) }
    ensures stepped { IfOk result (λ o. OfBlocks D.told pages.old (table_of pages.old.layout at.index) (λ blocks. (locks : LockState) → StepsAt pages.old.layout pages.old.pages pages.new.pages locks locks at (heap_of pages.old.layout at.index blocks) (hand_of Stage.Pass work.old) (hand_of o.0 work.new) o.1)) }
    ensures exact { IfOk result (λ o. OfBlocks D.told pages.old (table_of pages.old.layout at.index) (λ blocks. IsExactAt (shape_of pages.old.layout at.index) (heap_of pages.old.layout at.index blocks) at.range (hand_of Stage.Pass work.old) Stage.Pass → IsExactAt (shape_of pages.old.layout at.index) (heap_of pages.old.layout at.index blocks) at.range (hand_of o.0 work.new) o.0)) }
    ensures stands { IfOk result (λ o. (growth : GrowthStage) → StandsAfter growth Stage.Pass o.0 o.1) }
    ensures same_growth { work.new.growth ≡ work.old.growth }
    ensures of { IsHandOf pages.old.layout at.index (hand_of Stage.Pass work.new) }
    ensures undamaged { OnOk result (Tells D.told pages.old → DamageAt pages.old.layout pages.old.pages at.index at.range (hand_of Stage.Pass work.old) Stage.Pass → ⊥) }
    ensures reads { OnlyReads D.told (NamesPageAt pages.old.layout at.index Stage.Pass) (Tells D.told pages.old → DamageAt pages.old.layout pages.old.pages at.index at.range (hand_of Stage.Pass work.old) Stage.Pass) pages.old pages.new result }
{
    if work.next >= work.extent {
        return match look_again(pages, at, &mut work.copied) {
            Ok(done) => Ok(done),
            Err(fault) => Err(fault),
        };
    }
    pages.layout().known();
    let block = work.next as u32;
    match pass(pages, at, block, &mut work.rows, &mut work.running) {
        Ok(()) => {
            work.next += 1;
            Ok((Stage::Pass, Did::Moved(Point::Pass)))
        }
        Err(fault) => Err(fault),
    }
}

/// Copies the placeholder, and makes the final tuple.
fn unite_in<D: Disk + Drop>(
    pages: &mut PageStore<D>,
    at: Within,
    spot: Spot,
    work: &mut Work,
) -> Result<(Stage, Did), MachineFault>
    requires index { at.index < length pages.old.layout.schema.indexes }
    requires of { IsHandOf pages.old.layout at.index (hand_of (Stage.Copy spot) work.old) }
    ensures stepped { IfOk result (λ o. Tells D.told pages.old → (locks : LockState) (heap : Heap) → StepsAt pages.old.layout pages.old.pages pages.new.pages locks locks at heap (hand_of (Stage.Copy spot) work.old) (hand_of o.0 work.new) o.1) }
    ensures exact { IfOk result (λ o. OfBlocks D.told pages.old (table_of pages.old.layout at.index) (λ blocks. IsExactAt (shape_of pages.old.layout at.index) (heap_of pages.old.layout at.index blocks) at.range (hand_of (Stage.Copy spot) work.old) (Stage.Copy spot) → IsExactAt (shape_of pages.old.layout at.index) (heap_of pages.old.layout at.index blocks) at.range (hand_of o.0 work.new) o.0)) }
    ensures stands { IfOk result (λ o. (growth : GrowthStage) → StandsAfter growth (Stage.Copy spot) o.0 o.1) }
    ensures same_growth { work.new.growth ≡ work.old.growth }
    ensures of { IsHandOf pages.old.layout at.index (hand_of (Stage.Copy spot) work.new) }
    ensures undamaged { OnOk result (Tells D.told pages.old → DamageAt pages.old.layout pages.old.pages at.index at.range (hand_of (Stage.Copy spot) work.old) (Stage.Copy spot) → ⊥) }
    ensures reads { OnlyReads D.told (NamesPageAt pages.old.layout at.index (Stage.Copy spot)) (Tells D.told pages.old → DamageAt pages.old.layout pages.old.pages at.index at.range (hand_of (Stage.Copy spot) work.old) (Stage.Copy spot)) pages.old pages.new result }
{
    match unite(
        pages,
        at,
        spot,
        &mut work.copied,
        &mut work.united,
        &work.running,
    ) {
        Ok(done) => Ok(done),
        Err(fault) => Err(fault),
    }
}
