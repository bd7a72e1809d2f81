//! The steps of a summarise at one range.

ghost use Rattle.std.specs.Prelude.{◌≡◌, ◌⊎◌, None, ◌+◌, ◌<◌, ◌≤◌, length, IfOk, IfErr, OnErr, OnOk};
ghost use Rattle.block_model.specs.declared.reply.Point.TheVariants as points;
ghost use Rattle.page_locks.specs.declared.did.Did.TheVariants as dids;
ghost use Rattle.page_locks.specs.LockCounts.{locks_of};
ghost use Rattle.page_locks.specs.LockHolders.{LockState, count_of, holder};
ghost use Rattle.page_map.specs.Keeps.{Keeps, Tells, Untold};
ghost use Rattle.page_store.specs.Survives.{Survives};
ghost use Rattle.heap_rows.specs.HeapBlocks.{OfBlocks};
ghost use Rattle.heap_rows.specs.Heaps.{slots_a_page};
ghost use Rattle.range_tuple.specs.Tuples.{parts_of, tuple_room};
ghost use Rattle.coverage.specs.IndexView.{IsPastMap};
ghost use Rattle.index_contents.specs.IndexContents.{contents, relation_of};
ghost use Rattle.index_contents.specs.IndexChanges.{LeavesOthers};
ghost use Rattle.index_contents.specs.KeepsOrder.{KeepsOrder};
ghost use Rattle.index_steps.specs.IndexTuples.{IndexShape, classes_of, shape_of};
ghost use Rattle.index_steps.specs.Moves.{IsMoveReady, taken_to_move};
ghost use Rattle.index_steps.specs.OnlyReads.{OnlyReads};
ghost use Rattle.index_steps.specs.PlaceAnswers.{IsPlacing};
ghost use Rattle.index_steps.specs.Readings.{IsMisnamed, IsMisread};
ghost use Rattle.index_steps.specs.StepAnswers.{BlockedWell, IsOfStore};
ghost use Rattle.index_steps.specs.SwapAnswers.{FaultNamesPageOf, LeavesLocks, MachineOutcome, SaysFullIn, StaysWhereFull, TakesAtMost};
ghost use Rattle.range_tuple.specs.ExactTuples.{with_rows};
ghost use Rattle.index_steps.specs.declared.growth_stage.Stage.{Stage as GrowthStage};
ghost use Rattle.index_steps.specs.declared.growth_stage.Stage.TheVariants as growth;
ghost use Rattle.summarise_core.specs.ExactSummaries.{HasPassed, IsExactAt, rows_of_block};
ghost use Rattle.summarise_core.specs.ShownHeap.{Heap, heap_of};
ghost use Rattle.summarise_core.specs.StepCauses.{FaultNamesHeapPage};
ghost use Rattle.summarise_core.specs.StageLocks.{held_at};
ghost use Rattle.summarise_core.specs.declared.work.Work.{Work as AnyWork};
ghost use Rattle.summarise_core.specs.SummariseCalled.{Called, after_move, stage_of_move};
ghost use Rattle.summarise_core.specs.SummariseHands.{IsHandOf, SummariseHand, table_of};
ghost use Rattle.summarise_core.specs.SummariseSteps.{RestsBlocked, StandsAfter, StepFull, StepsAt, summarise_at};
ghost use Rattle.summarise_core.specs.Works.{hand_of};

use crate::range_stage::Stage;
use crate::rows::{add_rows, blocks_a_range, first_block, lesser, rows_are_taken, table_of};
use crate::work::Work;
use block_model::{Point, Spot};
use disk_trait::Disk;
use heap_rows::{PageRows, blocks, rows_of};
use index_steps::{
    Move, MoveStep, Placed, Scratch, Within, a_row_is_added_to_what_is_seen,
    an_index_that_stays_is_read, copy_tuple, map_page_of, name_new, page_at, put_new, read_map,
    spell, step_move, tuples_of_an_index_need_one_room,
};
use page_locks::{Did, Locks};
use page_map::{MachineFault, StoreError};
use page_store::PageStore;
use range_tuple::RangeTuple;

/// Reads the map: the tuple that it names is to be read; a range without an entry is to have a placeholder.
pub(crate) fn look<D: Disk + Drop>(
    pages: &mut PageStore<D>,
    at: Within,
    copied: &mut Scratch,
) -> Result<(Stage, Did), MachineFault>
    requires index { at.index < length pages.old.layout.schema.indexes }
    ensures stepped { IfOk result (λ o. Tells D.told pages.old → (locks : LockState) (heap : Heap) (hand : SummariseHand) → hand.growth.stage ≡ growth.Judge → StepsAt pages.old.layout pages.old.pages pages.new.pages locks locks at heap (record hand { stage = Stage.Map }) (record hand { stage = o.0; copied = copied.new }) o.1) }
    ensures exact { IfOk result (λ o. (shape : IndexShape) (heap : Heap) (hand : SummariseHand) → IsExactAt shape heap at.range (record hand { stage = Stage.Map }) Stage.Map → IsExactAt shape heap at.range (record hand { stage = o.0; copied = copied.new }) o.0) }
    ensures stands { IfOk result (λ o. (growth : GrowthStage) → StandsAfter growth Stage.Map o.0 o.1) }
    ensures undamaged { OnOk result (Tells D.told pages.old → IsMisnamed (contents pages.old.layout pages.old.pages at.index) at.range → ⊥) }
    ensures reads { OnlyReads D.told (FaultNamesPageOf pages.old.layout at.index) (Tells D.told pages.old → IsMisnamed (contents pages.old.layout pages.old.pages at.index) at.range) pages.old pages.new result }
{
    match read_map(pages, at.index, at.range) {
        Ok(Some(spot)) => Ok((Stage::Tuple(spot), Did::Moved(Point::Map))),
        Ok(None) => Ok((Stage::Place, Did::Moved(Point::Map))),
        Err(error) => Err(MachineFault::Store(error)),
    }
}

/// Reads the tuple at the spot: a placeholder is taken up, and a final one ends the range. Where none of the range stands there, the
/// map is to be read again.
pub(crate) fn take_up<D: Disk + Drop>(
    pages: &mut PageStore<D>,
    at: Within,
    spot: Spot,
    copied: &mut Scratch,
    united: &mut RangeTuple,
) -> Result<(Stage, Did), MachineFault>
    requires index { at.index < length pages.old.layout.schema.indexes }
    requires tuple { parts_of united.old.columns ≡ classes_of (shape_of pages.old.layout at.index) }
    ensures stepped { IfOk result (λ o. Tells D.told pages.old → (locks : LockState) (heap : Heap) (hand : SummariseHand) → StepsAt pages.old.layout pages.old.pages pages.new.pages locks locks at heap (record hand { stage = Stage.Tuple spot }) (record hand { stage = o.0; copied = copied.new; united = united.new }) o.1) }
    ensures exact { IfOk result (λ o. (shape : IndexShape) (heap : Heap) (hand : SummariseHand) → IsExactAt shape heap at.range (record hand { stage = Stage.Tuple spot }) (Stage.Tuple spot) → IsExactAt shape heap at.range (record hand { stage = o.0; copied = copied.new; united = united.new }) o.0) }
    ensures stands { IfOk result (λ o. (growth : GrowthStage) → StandsAfter growth (Stage.Tuple spot) o.0 o.1) }
    ensures same_index { parts_of united.new.columns ≡ parts_of united.old.columns }
    ensures undamaged { OnOk result (Tells D.told pages.old → IsMisread (shape_of pages.old.layout at.index) (contents pages.old.layout pages.old.pages at.index) at.range spot → ⊥) }
    ensures reads { OnlyReads D.told (FaultNamesPageOf pages.old.layout at.index) (Tells D.told pages.old → IsMisread (shape_of pages.old.layout at.index) (contents pages.old.layout pages.old.pages at.index) at.range spot) pages.old pages.new result }
{
    match copy_tuple(pages, at.index, at.range, spot, copied, united) {
        Ok(true) => {}
        Ok(false) => return Ok((Stage::Map, Did::Moved(Point::Tuple))),
        Err(error) => return Err(MachineFault::Store(error)),
    }
    if united.is_placeholder() {
        return Ok((Stage::Extent, Did::Moved(Point::Tuple)));
    }
    Ok((Stage::Had, Did::Finished(Point::Tuple)))
}

/// Puts the empty placeholder of the range.
pub(crate) fn place<D: Disk + Drop>(
    pages: &mut PageStore<D>,
    locks: &mut Locks,
    at: Within,
    united: &mut RangeTuple,
    room: &mut [u8],
) -> Result<(Stage, Did), MachineFault>
    requires index { at.index < length pages.old.layout.schema.indexes }
    requires tuple { parts_of united.old.columns ≡ classes_of (shape_of pages.old.layout at.index) }
    requires room { tuple_room united.old.columns ≤ length room.old }
    requires locks { count_of locks.old + 2 ≤ locks.old.limit }
    requires ready { Tells D.told pages.old → IsPastMap (contents pages.old.layout pages.old.pages at.index).pages at.range → ⊥ }
    ensures stepped { IfOk result (λ o. Tells D.told pages.old → (heap : Heap) (hand : SummariseHand) → hand.growth.stage ≡ growth.Judge → StepsAt pages.old.layout pages.old.pages pages.new.pages locks.old locks.new at heap (record hand { stage = Stage.Place }) (record hand { stage = o.0; united = united.new }) o.1) }
    ensures exact { IfOk result (λ o. (shape : IndexShape) (heap : Heap) (hand : SummariseHand) → IsExactAt shape heap at.range (record hand { stage = Stage.Place }) Stage.Place → IsExactAt shape heap at.range (record hand { stage = o.0; united = united.new }) o.0) }
    ensures rests { IfOk result (λ o. (hand : SummariseHand) → RestsBlocked (record hand { stage = Stage.Place }) (record hand { stage = o.0; united = united.new }) o.1) }
    ensures stands { IfOk result (λ o. StandsAfter growth.Judge Stage.Place o.0 o.1) }
    ensures same_index { parts_of united.new.columns ≡ parts_of united.old.columns }
    ensures same_room { length room.new ≡ length room.old }
    ensures blocked { IfOk result (λ o. BlockedWell D.told at.index at.actor pages.old pages.new locks.old locks.new o.1) }
    ensures full { IfErr result (SaysFullIn pages.old.layout at.index (λ number. Tells D.told pages.old → (hand : SummariseHand) → hand.growth.stage ≡ growth.Judge → StepFull (shape_of pages.old.layout at.index) at.actor at.range (summarise_at pages.old.layout pages.old.pages locks.old at.index (record hand { stage = Stage.Place })) number)) }
    ensures at_full { IfErr result (StaysWhereFull locks.old locks.new) }
    ensures others { LeavesOthers D.told at.index pages.old pages.new }
    ensures order { KeepsOrder D.told at.index pages.old pages.new }
    ensures locks { LeavesLocks (holder locks.old) (holder locks.new) (relation_of pages.old.layout at.index) at.actor }
    ensures counts { TakesAtMost 2 locks.old locks.new at.actor }
    ensures own { IfOk result (λ o. locks_of locks.old at.actor ≤ held_at growth.Judge Stage.Place → locks_of locks.new at.actor ≤ held_at growth.Judge o.0) }
    ensures kept { OnErr result (Keeps D.told pages.old pages.new) }
    ensures survives { Survives D.told (λ passed. passed ≡ pages.old.pages) pages.old pages.new }
    ensures at { IfErr result (FaultNamesPageOf pages.old.layout at.index) }
    ensures outcome { MachineOutcome D.told (Untold D.told pages.old) pages.old pages.new result }
{
    tuples_of_an_index_need_one_room();
    united.restart(at.range);
    let size = spell(united, room);
    match put_new(pages, locks, at, &room[..size]) {
        Ok(Placed::Put(to)) => Ok((Stage::Name(to), Did::Moved(Point::Put))),
        Ok(Placed::Waits(held)) => Ok((Stage::Place, Did::Blocked(held))),
        Err(fault) => Err(fault),
    }
}

/// Has the map name the placeholder, which was put at `to`, and gives the locks.
pub(crate) fn name<D: Disk + Drop>(
    pages: &mut PageStore<D>,
    locks: &mut Locks,
    at: Within,
    to: Spot,
) -> Result<(Stage, Did), MachineFault>
    requires index { at.index < length pages.old.layout.schema.indexes }
    requires placing { Tells D.told pages.old → IsPlacing (shape_of pages.old.layout at.index) (contents pages.old.layout pages.old.pages at.index) at.range to }
    ensures { (work : AnyWork) → IsHandOf pages.old.layout at.index (hand_of (Stage.Name to) work) → work.growth.stage ≡ growth.Judge → Called D.told at (Stage.Name to) work work pages.old pages.new locks.old locks.new result }
{
    match name_new(pages, locks, at, to) {
        Ok(()) => Ok((Stage::Extent, Did::Moved(Point::Set))),
        Err(error) => Err(MachineFault::Store(error)),
    }
}

/// Reads the extent of the table: answers where the blocks of the range end that are to be passed, and which is the first. Nothing is
/// added to the running tuple yet.
pub(crate) fn read_extent<D: Disk + Drop>(
    pages: &PageStore<D>,
    at: Within,
    running: &mut RangeTuple,
) -> Result<(u64, u64), MachineFault>
    requires index { at.index < length pages.now.layout.schema.indexes }
    requires tuple { parts_of running.old.columns ≡ classes_of (shape_of pages.now.layout at.index) }
    ensures stepped { IfOk result (λ o. OfBlocks D.told pages.now (table_of pages.now.layout at.index) (λ blocks. (locks : LockState) (hand : SummariseHand) → StepsAt pages.now.layout pages.now.pages pages.now.pages locks locks at (heap_of pages.now.layout at.index blocks) (record hand { stage = Stage.Extent }) (record hand { stage = Stage.Pass; extent = o.0; next = o.1; running = running.new }) (dids.Moved points.Extent))) }
    ensures exact { IfOk result (λ o. OfBlocks D.told pages.now (table_of pages.now.layout at.index) (λ blocks. HasPassed (shape_of pages.now.layout at.index) (heap_of pages.now.layout at.index blocks) at.range o.0 o.1 running.new)) }
    ensures same_index { parts_of running.new.columns ≡ parts_of running.old.columns }
    ensures within { IfOk result (λ o. o.0 ≤ pages.now.layout.sizes.heap_blocks) }
    ensures stays { Survives D.told (λ passed. ⊥) pages.now pages.now }
    ensures of_store { IfErr result IsOfStore }
    ensures at { IfErr result (FaultNamesPageOf pages.now.layout at.index) }
    ensures outcome { MachineOutcome D.told (Untold D.told pages.now) pages.now pages.now result }
{
    an_index_that_stays_is_read();
    match pages.ready() {
        Ok(()) => {}
        Err(error) => return Err(MachineFault::Store(error)),
    }
    let layout = pages.layout();
    let in_range = blocks_a_range(layout, at.index);
    let table = table_of(layout, at.index);
    let extent = u64::from(blocks(pages, table));
    let first = first_block(at.range, in_range);
    running.restart(at.range);
    let end = lesser(extent, first + u64::from(in_range));
    Ok((end, first))
}

/// Adds the rows of the block, which are read into `rows`, to the running tuple.
pub(crate) fn pass<D: Disk + Drop>(
    pages: &mut PageStore<D>,
    at: Within,
    block: u32,
    rows: &mut PageRows,
    running: &mut RangeTuple,
) -> Result<(), MachineFault>
    requires index { at.index < length pages.old.layout.schema.indexes }
    requires block { block < pages.old.layout.sizes.heap_blocks }
    requires room { slots_a_page pages.old.layout (table_of pages.old.layout at.index) ≤ rows.old.room }
    requires tuple { parts_of running.old.columns ≡ classes_of (shape_of pages.old.layout at.index) }
    ensures stepped { OnOk result (OfBlocks D.told pages.old (table_of pages.old.layout at.index) (λ blocks. (locks : LockState) (hand : SummariseHand) → block < hand.extent → StepsAt pages.old.layout pages.old.pages pages.new.pages locks locks at (heap_of pages.old.layout at.index blocks) (record hand { stage = Stage.Pass; next = block; running = running.old }) (record hand { stage = Stage.Pass; next = block + 1; running = running.new }) (dids.Moved points.Pass))) }
    ensures exact { OnOk result (OfBlocks D.told pages.old (table_of pages.old.layout at.index) (λ blocks. running.new ≡ with_rows (rows_of_block blocks block) running.old)) }
    ensures same_index { parts_of running.new.columns ≡ parts_of running.old.columns }
    ensures same_room { rows.new.room ≡ rows.old.room }
    ensures kept { Keeps D.told pages.old pages.new }
    ensures of_store { IfErr result IsOfStore }
    ensures survives { Survives D.told (λ passed. passed ≡ pages.old.pages) pages.old pages.new }
    ensures at { IfErr result (FaultNamesHeapPage pages.old.layout at.index) }
    ensures outcome { MachineOutcome D.told (Untold D.told pages.old) pages.old pages.new result }
{
    an_index_that_stays_is_read();
    a_row_is_added_to_what_is_seen();
    let layout = pages.layout();
    let table = table_of(layout, at.index);
    rows_are_taken(layout, at.index);
    running.one_tuple();
    match rows_of(pages, table, block, rows) {
        Ok(()) => {
            add_rows(rows.as_slice(), running);
            Ok(())
        }
        Err(error) => Err(MachineFault::Store(error)),
    }
}

/// Reads the map again, all blocks being passed: the placeholder is to be copied. Damaged also where the map has no entry any more.
pub(crate) fn look_again<D: Disk + Drop>(
    pages: &mut PageStore<D>,
    at: Within,
    copied: &mut Scratch,
) -> Result<(Stage, Did), MachineFault>
    requires index { at.index < length pages.old.layout.schema.indexes }
    ensures stepped { IfOk result (λ o. Tells D.told pages.old → (locks : LockState) (heap : Heap) (hand : SummariseHand) → hand.extent ≤ hand.next → StepsAt pages.old.layout pages.old.pages pages.new.pages locks locks at heap (record hand { stage = Stage.Pass }) (record hand { stage = o.0; copied = copied.new }) o.1) }
    ensures exact { IfOk result (λ o. (shape : IndexShape) (heap : Heap) (hand : SummariseHand) → hand.extent ≤ hand.next → IsExactAt shape heap at.range (record hand { stage = Stage.Pass }) Stage.Pass → IsExactAt shape heap at.range (record hand { stage = o.0; copied = copied.new }) o.0) }
    ensures stands { IfOk result (λ o. (growth : GrowthStage) → StandsAfter growth Stage.Pass o.0 o.1) }
    ensures undamaged { OnOk result (Tells D.told pages.old → (IsMisnamed (contents pages.old.layout pages.old.pages at.index) at.range ⊎ ((contents pages.old.layout pages.old.pages at.index).entry at.range ≡ None)) → ⊥) }
    ensures reads { OnlyReads D.told (FaultNamesPageOf pages.old.layout at.index) (Tells D.told pages.old → IsMisnamed (contents pages.old.layout pages.old.pages at.index) at.range ⊎ ((contents pages.old.layout pages.old.pages at.index).entry at.range ≡ None)) pages.old pages.new result }
{
    match read_map(pages, at.index, at.range) {
        Ok(Some(spot)) => Ok((Stage::Copy(spot), Did::Moved(Point::Map))),
        Ok(None) => Err(MachineFault::Store(StoreError::Damaged {
            at: page_at(pages, at.index, map_page_of(at.range)),
        })),
        Err(error) => Err(MachineFault::Store(error)),
    }
}

/// Copies the placeholder at the spot, and makes the final tuple of it and the running one. Where none of the range stands there, the map
/// is to be read again.
pub(crate) fn unite<D: Disk + Drop>(
    pages: &mut PageStore<D>,
    at: Within,
    spot: Spot,
    copied: &mut Scratch,
    united: &mut RangeTuple,
    running: &RangeTuple,
) -> Result<(Stage, Did), MachineFault>
    requires index { at.index < length pages.old.layout.schema.indexes }
    requires tuple { parts_of united.old.columns ≡ classes_of (shape_of pages.old.layout at.index) }
    requires running { parts_of running.now.columns ≡ classes_of (shape_of pages.old.layout at.index) }
    ensures stepped { IfOk result (λ o. Tells D.told pages.old → (locks : LockState) (heap : Heap) (hand : SummariseHand) → StepsAt pages.old.layout pages.old.pages pages.new.pages locks locks at heap (record hand { stage = Stage.Copy spot; running = running.now }) (record hand { stage = o.0; copied = copied.new; running = running.now; united = united.new }) o.1) }
    ensures exact { IfOk result (λ o. (heap : Heap) (hand : SummariseHand) → IsExactAt (shape_of pages.old.layout at.index) heap at.range (record hand { stage = Stage.Copy spot; running = running.now }) (Stage.Copy spot) → IsExactAt (shape_of pages.old.layout at.index) heap at.range (record hand { stage = o.0; copied = copied.new; running = running.now; united = united.new }) o.0) }
    ensures stands { IfOk result (λ o. (growth : GrowthStage) → StandsAfter growth (Stage.Copy spot) o.0 o.1) }
    ensures same_index { parts_of united.new.columns ≡ parts_of united.old.columns }
    ensures undamaged { OnOk result (Tells D.told pages.old → IsMisread (shape_of pages.old.layout at.index) (contents pages.old.layout pages.old.pages at.index) at.range spot → ⊥) }
    ensures reads { OnlyReads D.told (FaultNamesPageOf pages.old.layout at.index) (Tells D.told pages.old → IsMisread (shape_of pages.old.layout at.index) (contents pages.old.layout pages.old.pages at.index) at.range spot) pages.old pages.new result }
{
    match copy_tuple(pages, at.index, at.range, spot, copied, united) {
        Ok(true) => {}
        Ok(false) => return Ok((Stage::Pass, Did::Moved(Point::Copy))),
        Err(error) => return Err(MachineFault::Store(error)),
    }
    running.known();
    running.one_tuple();
    united.unite(running);
    united.settle();
    Ok((Stage::Swap(spot), Did::Moved(Point::Copy)))
}

/// Has the final tuple take the place of the placeholder that was copied, or puts it on another page; then the map names it there, and the
/// placeholder goes.
pub(crate) fn move_in<D: Disk + Drop>(
    pages: &mut PageStore<D>,
    locks: &mut Locks,
    at: Within,
    step: Move,
    work: &Work,
    room: &mut [u8],
) -> Result<(Stage, Did), MachineFault>
    requires index { at.index < length pages.old.layout.schema.indexes }
    requires of { IsHandOf pages.old.layout at.index (hand_of (stage_of_move step) work.now) }
    requires rests { work.now.growth.stage ≡ growth.Judge }
    requires room { tuple_room work.now.united.columns ≤ length room.old }
    requires locks { 0 < taken_to_move step → count_of locks.old + 3 ≤ locks.old.limit }
    requires ready { Tells D.told pages.old → IsMoveReady (shape_of pages.old.layout at.index) (contents pages.old.layout pages.old.pages at.index) at.range step }
    ensures called { Called D.told at (stage_of_move step) work.now work.now pages.old pages.new locks.old locks.new result }
    ensures same_room { length room.new ≡ length room.old }
{
    match step_move(pages, locks, at, step, &work.copied, &work.united, room) {
        Ok(made) => Ok(after_move(step, made)),
        Err(fault) => Err(fault),
    }
}

/// What comes of a step of the move.
fn after_move(step: Move, made: MoveStep) -> (Stage, Did)
    ensures { result ≡ after_move step made }
{
    match made {
        MoveStep::InPlace => (Stage::Made, Did::Finished(Point::Swap)),
        MoveStep::Differs => (Stage::Pass, Did::Moved(Point::Again)),
        MoveStep::Waits(held) => (stage_of_move(step), Did::Blocked(held)),
        MoveStep::Put(from, to) => (Stage::Set(from, to), Did::Moved(Point::Put)),
        MoveStep::Named(from) => (Stage::Drop(from), Did::Moved(Point::Set)),
        MoveStep::Dropped => (Stage::Made, Did::Finished(Point::Drop)),
    }
}

/// The stage at which a step of the move is next.
fn stage_of_move(step: Move) -> Stage
    ensures { result ≡ stage_of_move step }
{
    match step {
        Move::Swap(spot) => Stage::Swap(spot),
        Move::Set(from, to) => Stage::Set(from, to),
        Move::Drop(from) => Stage::Drop(from),
    }
}
