//! The last step of a growth: the metapage counts the page.

ghost use Rattle.std.specs.Prelude.{◌≡◌, ◌<◌, ℕ, List, None, Some, length, IfErr, OnOk, OnErr};
ghost use Rattle.page_map.specs.Keeps.{Keeps, Tells, Untold};
ghost use Rattle.page_map.specs.Outcome.{Outcome};
ghost use Rattle.heap_rows.specs.Survives.{Survives};
ghost use Rattle.index_contents.specs.IndexContents.{contents};
ghost use Rattle.index_contents.specs.IndexChanges.{LeavesOthers};
ghost use Rattle.index_steps.specs.Readings.{NamesPageOf};
ghost use Rattle.index_steps.specs.SwapAnswers.{GivesLocks, TakesAtMost};
ghost use Rattle.index_steps.specs.declared.next.NextPage.{NextPage as AnyPage};
ghost use Rattle.index_steps.specs.declared.next.PageState.TheVariants as states;
ghost use Rattle.index_contents.specs.KeepsOrder.{KeepsOrder};
ghost use Rattle.index_steps.specs.MapChanges.{CountsBlock};
ghost use Rattle.index_steps.specs.NextPages.{StandsNext};
ghost use Rattle.index_steps.specs.Called.{Called, hand_at};
ghost use Rattle.index_steps.specs.StepCauses.{HasLeftOver};

use crate::growth_stage::Stage;
use crate::judging::METAPAGE;
use crate::{
    NextPage, PageState, a_page_of_a_state_is_not_damaged, count_page, lock_of_another, next_page,
    page_at,
};
use block_model::{Place, Point};
use disk_trait::Disk;
use heap_rows::PageStore;
use index_contents::relation_of;
use page_locks::{Did, Locks};
use page_map::{MachineFault, StoreError};

/// Counts the page that the growth made one of the map, and gives its locks. Damaged, beside a disk that doesn't tell its contents, exactly
/// where no empty page of the map stands behind those that are counted.
pub(crate) fn count_made<D: Disk + Drop>(
    pages: &mut PageStore<D>,
    locks: &mut Locks,
    index: u8,
    actor: u32,
) -> Result<(Stage, Did), MachineFault>
    requires index { index < length pages.old.layout.schema.indexes }
    ensures called { (was : List ℕ) → Called D.told actor (Tells D.told pages.old → HasLeftOver pages.old.layout pages.old.pages index → ⊥) (hand_at index Stage.Count was) was pages.old pages.new locks.old locks.new result }
    ensures undamaged { OnOk result (Tells D.told pages.old → HasLeftOver pages.old.layout pages.old.pages index) }
{
    a_page_of_a_state_is_not_damaged();
    let next = match next_page(pages, index) {
        Ok(next) => next,
        Err(error) => return Err(MachineFault::Store(error)),
    };
    match left_over(next) {
        Some(block) => finish(pages, locks, index, actor, block),
        None => Err(MachineFault::Store(StoreError::Damaged {
            at: page_at(pages, index, METAPAGE),
        })),
    }
}

/// The block of a page that is left over.
fn left_over(next: Option<NextPage>) -> Option<u32>
    ensures some { (block : ℕ) → result ≡ Some block → next ≡ Some (record { block = block; state = states.LeftOver }) }
    ensures none { result ≡ None → (page : AnyPage) → next ≡ Some page → page.state ≡ states.LeftOver → ⊥ }
{
    match next {
        Some(page) => match page.state {
            PageState::LeftOver => Some(page.block),
            PageState::Unstarted => None,
            PageState::Regular => None,
            PageState::Emptying => None,
        },
        None => None,
    }
}

/// Counts the page, as the last step of a growth that made it.
fn finish<D: Disk + Drop>(
    pages: &mut PageStore<D>,
    locks: &mut Locks,
    index: u8,
    actor: u32,
    block: u32,
) -> Result<(Stage, Did), MachineFault>
    requires index { index < length pages.old.layout.schema.indexes }
    requires block { block < pages.old.layout.sizes.index_blocks }
    requires next { Tells D.told pages.old → StandsNext pages.old.layout pages.old.pages index block states.LeftOver }
    ensures { (was : List ℕ) → Called D.told actor (Untold D.told pages.old) (hand_at index Stage.Count was) was pages.old pages.new locks.old locks.new result }
{
    match count(pages, locks, index, actor, block) {
        Ok(()) => Ok((Stage::Judge, Did::Finished(Point::Meta))),
        Err(error) => Err(MachineFault::Store(error)),
    }
}

/// Counts the page, which a growth that was cut off left over, as the one step of another.
pub(crate) fn count_left_over<D: Disk + Drop>(
    pages: &mut PageStore<D>,
    locks: &mut Locks,
    index: u8,
    actor: u32,
    block: u32,
) -> Result<(Stage, Did), MachineFault>
    requires index { index < length pages.old.layout.schema.indexes }
    requires block { block < pages.old.layout.sizes.index_blocks }
    requires ready { pages.old.failed ≡ None }
    requires next { Tells D.told pages.old → StandsNext pages.old.layout pages.old.pages index block states.LeftOver }
    ensures { (was moved : List ℕ) → Called D.told actor (Untold D.told pages.old) (hand_at index Stage.Judge was) moved pages.old pages.new locks.old locks.new result }
{
    pages.known();
    let relation = relation_of(pages.layout(), index);
    let metapage = Place {
        relation,
        block: METAPAGE,
    };
    match lock_of_another(locks, metapage, actor) {
        Some(held) => return Ok((Stage::Judge, Did::Blocked(held))),
        None => {}
    }
    match count(pages, locks, index, actor, block) {
        Ok(()) => Ok((Stage::Judge, Did::Finished(Point::Meta))),
        Err(error) => Err(MachineFault::Store(error)),
    }
}

/// The metapage counts the page, and the actor gives all its locks.
fn count<D: Disk + Drop>(
    pages: &mut PageStore<D>,
    locks: &mut Locks,
    index: u8,
    actor: u32,
    block: u32,
) -> Result<(), StoreError>
    requires index { index < length pages.old.layout.schema.indexes }
    requires block { block < pages.old.layout.sizes.index_blocks }
    requires next { Tells D.told pages.old → StandsNext pages.old.layout pages.old.pages index block states.LeftOver }
    ensures counted { OnOk result (Tells D.told pages.old → CountsBlock (contents pages.old.layout pages.old.pages index) (contents pages.old.layout pages.new.pages index)) }
    ensures given { OnOk result (GivesLocks locks.old locks.new actor) }
    ensures locks { OnErr result (locks.new ≡ locks.old) }
    ensures counts { TakesAtMost 0 locks.old locks.new actor }
    ensures order { KeepsOrder D.told index pages.old pages.new }
    ensures kept { OnErr result (Keeps D.told pages.old pages.new) }
    ensures others { LeavesOthers D.told index pages.old pages.new }
    ensures survives { Survives D.told (λ passed. passed ≡ pages.old.pages) pages.old pages.new }
    ensures at { IfErr result (NamesPageOf pages.old.layout index) }
    ensures outcome { Outcome D.told (Untold D.told pages.old) pages.old pages.new result }
{
    match count_page(pages, index, block) {
        Ok(()) => {
            locks.drop_all(actor);
            Ok(())
        }
        Err(error) => Err(error),
    }
}
