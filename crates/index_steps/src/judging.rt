//! The step of a growth by what stands on the block behind the map.

ghost use Rattle.std.specs.Prelude.{◌≡◌, ◌+◌, ◌<◌, ◌≤◌, ℕ, List, None, length, OnOk};
ghost use Rattle.block_model.specs.declared.place.Spot.{Spot as AnySpot};
ghost use Rattle.page_map.specs.Keeps.{Tells, Untold};
ghost use Rattle.page_locks.specs.LockHolders.{count_of};
ghost use Rattle.index_contents.specs.IndexContents.{contents};
ghost use Rattle.index_steps.specs.declared.next.PageState.TheVariants as states;
ghost use Rattle.index_steps.specs.NextPages.{IsNextDamaged, StandsNext};
ghost use Rattle.index_steps.specs.Called.{Called, hand_at};

use crate::counting::count_left_over;
use crate::growth_stage::Stage;
use crate::moved::Moved;
use crate::moving_off::evacuate;
use crate::{
    NextPage, PageState, flag_page, lock_of_another, next_page, start_map_page, turn_page,
};
use block_model::{Place, Point};
use disk_trait::Disk;
use heap_rows::PageStore;
use index_contents::relation_of;
use page_locks::{Did, Locks};
use page_map::MachineFault;

/// The block of the page that counts the pages of the map.
pub(crate) const METAPAGE: u32 = 0;

/// Judges the block behind the map, and does what is to be done there. Full where the index can't have it.
pub(crate) fn judge<D: Disk + Drop>(
    pages: &mut PageStore<D>,
    locks: &mut Locks,
    index: u8,
    actor: u32,
    moved: &mut Moved,
) -> Result<(Stage, Did), MachineFault>
    requires index { index < length pages.old.layout.schema.indexes }
    requires locks { count_of locks.old + 3 ≤ locks.old.limit }
    ensures called { (was : List ℕ) → Called D.told actor (Tells D.told pages.old → IsNextDamaged pages.old.layout pages.old.pages index) (hand_at index Stage.Judge was) moved.new pages.old pages.new locks.old locks.new result }
    ensures undamaged { OnOk result (Tells D.told pages.old → IsNextDamaged pages.old.layout pages.old.pages index → ⊥) }
{
    pages.known();
    let relation = relation_of(pages.layout(), index);
    match next_page(pages, index) {
        Ok(Some(next)) => go_on(pages, locks, index, actor, next, moved),
        Ok(None) => Err(MachineFault::Full {
            relation,
            number: u64::from(pages.layout().sizes().index_blocks),
        }),
        Err(error) => Err(MachineFault::Store(error)),
    }
}

/// Does what is to be done with the page behind the map.
fn go_on<D: Disk + Drop>(
    pages: &mut PageStore<D>,
    locks: &mut Locks,
    index: u8,
    actor: u32,
    next: NextPage,
    moved: &mut Moved,
) -> Result<(Stage, Did), MachineFault>
    requires index { index < length pages.old.layout.schema.indexes }
    requires block { next.block < pages.old.layout.sizes.index_blocks }
    requires ready { pages.old.failed ≡ None }
    requires locks { count_of locks.old + 3 ≤ locks.old.limit }
    requires next { Tells D.told pages.old → StandsNext pages.old.layout pages.old.pages index next.block next.state }
    ensures { (was : List ℕ) → Called D.told actor (Untold D.told pages.old) (hand_at index Stage.Judge was) moved.new pages.old pages.new locks.old locks.new result }
{
    match next.state {
        PageState::Unstarted => start(pages, locks, index, actor, next.block),
        PageState::LeftOver => count_left_over(pages, locks, index, actor, next.block),
        PageState::Regular => flag(pages, locks, index, actor, next.block),
        PageState::Emptying => empty(pages, locks, index, actor, next.block, moved),
    }
}

/// Starts the page for the map, and takes its lock and that of the metapage.
fn start<D: Disk + Drop>(
    pages: &mut PageStore<D>,
    locks: &mut Locks,
    index: u8,
    actor: u32,
    block: u32,
) -> Result<(Stage, Did), MachineFault>
    requires index { index < length pages.old.layout.schema.indexes }
    requires block { block < pages.old.layout.sizes.index_blocks }
    requires ready { pages.old.failed ≡ None }
    requires locks { count_of locks.old + 3 ≤ locks.old.limit }
    requires next { Tells D.told pages.old → StandsNext pages.old.layout pages.old.pages index block states.Unstarted }
    ensures { (was moved : List ℕ) → Called D.told actor (Untold D.told pages.old) (hand_at index Stage.Judge was) moved pages.old pages.new locks.old locks.new result }
{
    pages.known();
    let relation = relation_of(pages.layout(), index);
    match locks.take_all(relation, &[block, METAPAGE], actor) {
        Ok(()) => {}
        Err(held) => return Ok((Stage::Judge, Did::Blocked(held))),
    }
    match start_map_page(pages, index, block) {
        Ok(()) => Ok((Stage::Count, Did::Moved(Point::Grow))),
        Err(error) => Err(MachineFault::Store(error)),
    }
}

/// Flags the page, so that it takes no more tuples.
fn flag<D: Disk + Drop>(
    pages: &mut PageStore<D>,
    locks: &mut Locks,
    index: u8,
    actor: u32,
    block: u32,
) -> Result<(Stage, Did), MachineFault>
    requires index { index < length pages.old.layout.schema.indexes }
    requires block { block < pages.old.layout.sizes.index_blocks }
    requires ready { pages.old.failed ≡ None }
    requires next { Tells D.told pages.old → StandsNext pages.old.layout pages.old.pages index block states.Regular }
    ensures { (was moved : List ℕ) → Called D.told actor (Untold D.told pages.old) (hand_at index Stage.Judge was) moved pages.old pages.new locks.old locks.new result }
{
    pages.known();
    let relation = relation_of(pages.layout(), index);
    match lock_of_another(locks, Place { relation, block }, actor) {
        Some(held) => return Ok((Stage::Judge, Did::Blocked(held))),
        None => {}
    }
    match flag_page(pages, index, block) {
        Ok(()) => Ok((Stage::Judge, Did::Moved(Point::Flag))),
        Err(error) => Err(MachineFault::Store(error)),
    }
}

/// Takes the first tuple from the page that is emptied, or turns the page where none is left.
fn empty<D: Disk + Drop>(
    pages: &mut PageStore<D>,
    locks: &mut Locks,
    index: u8,
    actor: u32,
    block: u32,
    moved: &mut Moved,
) -> Result<(Stage, Did), MachineFault>
    requires index { index < length pages.old.layout.schema.indexes }
    requires block { block < pages.old.layout.sizes.index_blocks }
    requires ready { pages.old.failed ≡ None }
    requires locks { count_of locks.old + 3 ≤ locks.old.limit }
    requires next { Tells D.told pages.old → StandsNext pages.old.layout pages.old.pages index block states.Emptying }
    ensures { (was : List ℕ) → Called D.told actor (Untold D.told pages.old) (hand_at index Stage.Judge was) moved.new pages.old pages.new locks.old locks.new result }
{
    match moved.read_first(pages, index, block) {
        Ok(Some(first)) => evacuate(pages, locks, index, actor, block, first, moved),
        Ok(None) => turn(pages, locks, index, actor, block),
        Err(error) => Err(MachineFault::Store(error)),
    }
}

/// Turns the page, which has no tuple left, into one of the map, and takes its lock and that of the metapage.
fn turn<D: Disk + Drop>(
    pages: &mut PageStore<D>,
    locks: &mut Locks,
    index: u8,
    actor: u32,
    block: u32,
) -> Result<(Stage, Did), MachineFault>
    requires index { index < length pages.old.layout.schema.indexes }
    requires block { block < pages.old.layout.sizes.index_blocks }
    requires ready { pages.old.failed ≡ None }
    requires locks { count_of locks.old + 3 ≤ locks.old.limit }
    requires next { Tells D.told pages.old → StandsNext pages.old.layout pages.old.pages index block states.Emptying }
    requires empty { Tells D.told pages.old → (x : AnySpot) → x.block ≡ block → (contents pages.old.layout pages.old.pages index).bytes x ≡ None }
    ensures { (was moved : List ℕ) → Called D.told actor (Untold D.told pages.old) (hand_at index Stage.Judge was) moved pages.old pages.new locks.old locks.new result }
{
    pages.known();
    let relation = relation_of(pages.layout(), index);
    match locks.take_all(relation, &[block, METAPAGE], actor) {
        Ok(()) => {}
        Err(held) => return Ok((Stage::Judge, Did::Blocked(held))),
    }
    match turn_page(pages, index, block) {
        Ok(()) => Ok((Stage::Count, Did::Moved(Point::Turn))),
        Err(error) => Err(MachineFault::Store(error)),
    }
}
