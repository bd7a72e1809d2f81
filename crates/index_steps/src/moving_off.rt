//! A tuple of the page that is emptied for the map: it moves where the map names it, and else is dropped.

ghost use Rattle.std.specs.Prelude.{◌≡◌, ◌≢◌, ◌+◌, ◌<◌, ◌≤◌, ℕ, List, Option, None, Some, length, IfOk, IfErr};
ghost use Rattle.block_model.specs.declared.place.Spot.{Spot as AnySpot};
ghost use Rattle.page_map.specs.Keeps.{Keeps, Tells, Untold};
ghost use Rattle.page_map.specs.Outcome.{IsReopen, Outcome};
ghost use Rattle.page_locks.specs.LockChanges.{IsFreeFor, page_of};
ghost use Rattle.page_locks.specs.LockHolders.{count_of, holder};
ghost use Rattle.heap_rows.specs.Survives.{Survives};
ghost use Rattle.coverage.specs.Waiting.{IsNextTuple};
ghost use Rattle.index_contents.specs.IndexContents.{contents, relation_of};
ghost use Rattle.index_steps.specs.IndexTuples.{shape_of};
ghost use Rattle.index_steps.specs.MoveEnds.{IsMoving};
ghost use Rattle.index_steps.specs.Readings.{NamesPageOf};
ghost use Rattle.range_store.specs.Tuples.{IsTupleSize};
ghost use Rattle.index_steps.specs.declared.next.PageState.TheVariants as states;
ghost use Rattle.index_steps.specs.FirstTuples.{IsOf};
ghost use Rattle.index_steps.specs.NextPages.{StandsNext};
ghost use Rattle.index_steps.specs.Called.{Called, hand_at};
ghost use Rattle.index_steps.specs.MovedTuples.{IsFirstOf};

use crate::growth_stage::Stage;
use crate::moved::Moved;
use crate::{FirstTuple, Within, drop_moved, lock_of_another, map_page_of, name_moved};
use block_model::{Place, Point, Spot};
use disk_trait::Disk;
use heap_rows::PageStore;
use index_contents::relation_of;
use page_locks::{Did, Locks};
use page_map::{MachineFault, StoreError};
use range_store::{a_target_takes_its_tuple, drop_at, put, room_for};
use revmap::entry;

/// Moves the first tuple of the page, whose bytes are these, or drops it. It is judged under the lock of its page.
pub(crate) fn evacuate<D: Disk + Drop>(
    pages: &mut PageStore<D>,
    locks: &mut Locks,
    index: u8,
    actor: u32,
    block: u32,
    first: FirstTuple,
    moved: &Moved,
) -> Result<(Stage, Did), MachineFault>
    requires index { index < length pages.old.layout.schema.indexes }
    requires ready { pages.old.failed ≡ None }
    requires locks { count_of locks.old + 3 ≤ locks.old.limit }
    requires size { IsTupleSize (length moved.now) }
    requires next { Tells D.told pages.old → StandsNext pages.old.layout pages.old.pages index block states.Emptying }
    requires first { Tells D.told pages.old → IsFirstOf (contents pages.old.layout pages.old.pages index) block moved.now (Some first) }
    ensures { (was : List ℕ) → Called D.told actor (Untold D.told pages.old) (hand_at index Stage.Judge was) moved.now pages.old pages.new locks.old locks.new result }
{
    pages.known();
    let relation = relation_of(pages.layout(), index);
    match lock_of_another(locks, Place { relation, block }, actor) {
        Some(held) => return Ok((Stage::Judge, Did::Blocked(held))),
        None => {}
    }
    let spot = Spot {
        block,
        slot: first.slot,
    };
    match named(pages, index, first.range, spot) {
        Ok(Some(range)) => {
            let at = Within {
                index,
                range,
                actor,
            };
            put_elsewhere(pages, locks, at, spot, moved.bytes())
        }
        Ok(None) => drop_unnamed(pages, locks, index, actor, spot, moved.bytes(), first.range),
        Err(error) => Err(MachineFault::Store(error)),
    }
}

/// The range for which the map names the spot, if it is the one of the tuple there.
fn named<D: Disk + Drop>(
    pages: &mut PageStore<D>,
    index: u8,
    range: Option<u32>,
    spot: Spot,
) -> Result<Option<u32>, StoreError>
    requires index { index < length pages.old.layout.schema.indexes }
    ensures some { IfOk result (λ named. (m : ℕ) → named ≡ Some m → range ≡ Some m) }
    ensures named { IfOk result (λ named. (m : ℕ) → named ≡ Some m → Tells D.told pages.old → (contents pages.old.layout pages.old.pages index).entry m ≡ Some spot) }
    ensures unnamed { IfOk result (λ named. named ≡ None → Tells D.told pages.old → (m : ℕ) → range ≡ Some m → (contents pages.old.layout pages.old.pages index).entry m ≢ Some spot) }
    ensures kept { Keeps D.told pages.old pages.new }
    ensures survives { Survives D.told (λ passed. passed ≡ pages.old.pages) pages.old pages.new }
    ensures at { IfErr result (NamesPageOf pages.old.layout index) }
    ensures outcome { Outcome D.told (Untold D.told pages.old) pages.old pages.new result }
{
    let Some(range) = range else {
        return unread(pages);
    };
    match entry(pages, index, range) {
        Ok(found) => Ok(named_at(range, spot, found)),
        Err(error) => Err(error),
    }
}

/// Puts the tuple, whose bytes are these, unchanged on another page, and takes the locks of a move. Full where no page has room for it.
fn put_elsewhere<D: Disk + Drop>(
    pages: &mut PageStore<D>,
    locks: &mut Locks,
    at: Within,
    from: Spot,
    bytes: &[u8],
) -> Result<(Stage, Did), MachineFault>
    requires index { at.index < length pages.old.layout.schema.indexes }
    requires ready { pages.old.failed ≡ None }
    requires locks { count_of locks.old + 3 ≤ locks.old.limit }
    requires size { IsTupleSize (length bytes.now) }
    requires next { Tells D.told pages.old → StandsNext pages.old.layout pages.old.pages at.index from.block states.Emptying }
    requires first { Tells D.told pages.old → IsNextTuple (contents pages.old.layout pages.old.pages at.index).bytes from.block from bytes.now }
    requires of { Tells D.told pages.old → IsOf bytes.now (Some at.range) }
    requires named { Tells D.told pages.old → (contents pages.old.layout pages.old.pages at.index).entry at.range ≡ Some from }
    requires free { IsFreeFor (holder locks.old) at.actor (page_of (relation_of pages.old.layout at.index) from.block) }
    ensures { (was : List ℕ) → Called D.told at.actor (Untold D.told pages.old) (hand_at at.index Stage.Judge was) bytes.now pages.old pages.new locks.old locks.new result }
{
    a_target_takes_its_tuple();
    pages.known();
    let relation = relation_of(pages.layout(), at.index);
    let block = match room_for(pages, at.index, bytes.len() as u16) {
        Some(block) => block,
        None => {
            return Err(MachineFault::Full {
                relation,
                number: u64::from(pages.layout().sizes().index_blocks),
            });
        }
    };
    match locks.take_all(
        relation,
        &[from.block, block, map_page_of(at.range)],
        at.actor,
    ) {
        Ok(()) => {}
        Err(held) => return Ok((Stage::Judge, Did::Blocked(held))),
    }
    match put(pages, at.index, block, bytes) {
        Ok(to) => Ok((
            Stage::Set {
                range: at.range,
                from,
                to,
            },
            Did::Moved(Point::Put),
        )),
        Err(error) => Err(MachineFault::Store(error)),
    }
}

/// No range, where the disk didn't fail before.
fn unread<D: Disk + Drop>(pages: &PageStore<D>) -> Result<Option<u32>, StoreError>
    ensures none { IfOk result (λ range. range ≡ None) }
    ensures survives { Survives D.told (λ passed. passed ≡ pages.now.pages) pages.now pages.now }
    ensures reopen { IfErr result IsReopen }
    ensures outcome { Outcome D.told (Untold D.told pages.now) pages.now pages.now result }
{
    match pages.ready() {
        Ok(()) => Ok(None),
        Err(error) => Err(error),
    }
}

/// The range, where this spot was found for it.
fn named_at(range: u32, spot: Spot, found: Option<Spot>) -> Option<u32>
    ensures some { (m : ℕ) → result ≡ Some m → (m ≡ range) × (found ≡ Some spot) }
    ensures none { result ≡ None → found ≢ Some spot }
{
    match found {
        Some(named) => {
            if named == spot {
                return Some(range);
            }
            None
        }
        None => None,
    }
}

/// Drops the tuple, whose bytes are these, which the map doesn't name.
fn drop_unnamed<D: Disk + Drop>(
    pages: &mut PageStore<D>,
    locks: &Locks,
    index: u8,
    actor: u32,
    spot: Spot,
    bytes: &[u8],
    range: Option<u32>,
) -> Result<(Stage, Did), MachineFault>
    requires index { index < length pages.old.layout.schema.indexes }
    requires next { Tells D.told pages.old → StandsNext pages.old.layout pages.old.pages index spot.block states.Emptying }
    requires first { Tells D.told pages.old → IsNextTuple (contents pages.old.layout pages.old.pages index).bytes spot.block spot bytes.now }
    requires of { Tells D.told pages.old → IsOf bytes.now range }
    requires unnamed { Tells D.told pages.old → (m : ℕ) → range ≡ Some m → (contents pages.old.layout pages.old.pages index).entry m ≢ Some spot }
    requires free { IsFreeFor (holder locks.now) actor (page_of (relation_of pages.old.layout index) spot.block) }
    ensures { (was : List ℕ) → Called D.told actor (Untold D.told pages.old) (hand_at index Stage.Judge was) bytes.now pages.old pages.new locks.now locks.now result }
{
    pages.known();
    pages.layout().known();
    match drop_at(pages, index, spot) {
        Ok(()) => Ok((Stage::Judge, Did::Moved(Point::Drop))),
        Err(error) => Err(MachineFault::Store(error)),
    }
}

/// Has the map name the tuple, whose bytes are these, where it was put.
pub(crate) fn set<D: Disk + Drop>(
    pages: &mut PageStore<D>,
    locks: &Locks,
    at: Within,
    from: Spot,
    to: Spot,
) -> Result<(Stage, Did), MachineFault>
    requires index { at.index < length pages.old.layout.schema.indexes }
    requires moving { Tells D.told pages.old → IsMoving (shape_of pages.old.layout at.index) (contents pages.old.layout pages.old.pages at.index) at.range from to }
    ensures { (moved : List ℕ) → Called D.told at.actor (Untold D.told pages.old) (hand_at at.index (Stage.Set at.range from to) moved) moved pages.old pages.new locks.now locks.now result }
{
    match name_moved(pages, at, from, to) {
        Ok(()) => Ok((
            Stage::Drop {
                range: at.range,
                from,
            },
            Did::Moved(Point::Set),
        )),
        Err(error) => Err(MachineFault::Store(error)),
    }
}

/// Drops the old tuple of the move, and gives the locks.
pub(crate) fn drop_old<D: Disk + Drop>(
    pages: &mut PageStore<D>,
    locks: &mut Locks,
    at: Within,
    from: Spot,
) -> Result<(Stage, Did), MachineFault>
    requires index { at.index < length pages.old.layout.schema.indexes }
    ensures { (moved : List ℕ) → Called D.told at.actor (Untold D.told pages.old) (hand_at at.index (Stage.Drop at.range from) moved) moved pages.old pages.new locks.old locks.new result }
{
    match drop_moved(pages, locks, at, from) {
        Ok(()) => Ok((Stage::Judge, Did::Moved(Point::Drop))),
        Err(error) => Err(MachineFault::Store(error)),
    }
}
