//! The steps of a desummarise.

ghost use Rattle.std.specs.Prelude.{◌≡◌, ◌+◌, ◌<◌, ◌≤◌, List, length, IfOk, IfErr, OnErr, OnOk};
ghost use Rattle.page_layout.specs.PageContents.{Slot};
ghost use Rattle.page_locks.specs.LockCounts.{locks_of};
ghost use Rattle.page_locks.specs.LockHolders.{LockState, count_of, holder};
ghost use Rattle.page_map.specs.Keeps.{Keeps, Tells, Untold};
ghost use Rattle.page_store.specs.Survives.{Survives};
ghost use Rattle.index_contents.specs.IndexContents.{contents, relation_of};
ghost use Rattle.index_contents.specs.IndexChanges.{LeavesOthers};
ghost use Rattle.index_contents.specs.KeepsOrder.{KeepsOrder};
ghost use Rattle.index_steps.specs.Readings.{IsMisnamed};
ghost use Rattle.index_steps.specs.StepAnswers.{BlockedWell, IsOfStore, NeverBlocked};
ghost use Rattle.index_steps.specs.SwapAnswers.{FaultNamesPageOf, LeavesLocks, MachineOutcome, TakesAtMost};
ghost use Rattle.summarise_core.specs.Desummarises.{DamageAt, GivesAt, IsLeft, RightAnswers, StageDoes, StandsAfter, StaysWithoutRight, StepsAt, held_at, step_of, table_of, taken_at};

use crate::desummarise_indexes::table_of;
use crate::desummarise_stage::Stage;
use block_model::{Point, Spot};
use disk_trait::Disk;
use index_contents::relation_of;
use index_steps::{
    SetFault, Within, an_index_that_stays_is_read, drop_moved, entries_stand_on_counted_pages,
    map_page_of, page_at, read_map, set,
};
use page_locks::{Did, Locks, Rights};
use page_map::MachineFault;
use page_store::PageStore;

/// The next step at the stage, with the stage that comes then.
pub(crate) fn step_in<D: Disk + Drop>(
    pages: &mut PageStore<D>,
    locks: &mut Locks,
    rights: &mut Rights,
    at: Within,
    stage: Stage,
) -> Result<(Stage, Did), MachineFault>
    requires index { at.index < length pages.old.layout.schema.indexes }
    requires left { IsLeft stage }
    requires rights { length pages.old.layout.schema.tables ≤ length rights.old }
    requires locks { 0 < taken_at stage → count_of locks.old + taken_at stage ≤ locks.old.limit }
    ensures does { IfOk result (λ o. Tells D.told pages.old → (blocks : List (List Slot)) → StageDoes (step_of pages.old.layout pages.old.pages pages.new.pages locks.old locks.new rights.old rights.new at.actor blocks) at.index at.range stage o.0 o.1) }
    ensures stands { IfOk result (λ o. StandsAfter stage o.0 o.1) }
    ensures right { IfOk result (λ o. RightAnswers (table_of pages.old.layout at.index) at.actor rights.old rights.new stage o.1) }
    ensures rights { OnErr result (rights.new ≡ rights.old) }
    ensures blocked { IfOk result (λ o. BlockedWell D.told at.index at.actor pages.old pages.new locks.old locks.new o.1) }
    ensures no_right { IfOk result (λ o. StaysWithoutRight D.told pages.old pages.new locks.old locks.new o.1) }
    ensures of_store { IfErr result IsOfStore }
    ensures others { LeavesOthers D.told at.index pages.old pages.new }
    ensures order { KeepsOrder D.told at.index pages.old pages.new }
    ensures locks { LeavesLocks (holder locks.old) (holder locks.new) (relation_of pages.old.layout at.index) at.actor }
    ensures counts { TakesAtMost (taken_at stage) locks.old locks.new at.actor }
    ensures given { OnOk result (GivesAt stage → locks_of locks.new at.actor ≡ 0) }
    ensures own { IfOk result (λ o. locks_of locks.old at.actor ≤ held_at stage → locks_of locks.new at.actor ≤ held_at o.0) }
    ensures survives { Survives D.told (λ passed. passed ≡ pages.old.pages) pages.old pages.new }
    ensures kept { OnErr result (Keeps D.told pages.old pages.new) }
    ensures undamaged { OnOk result (Tells D.told pages.old → DamageAt pages.old.layout pages.old.pages at.index at.range stage → ⊥) }
    ensures at { IfErr result (FaultNamesPageOf pages.old.layout at.index) }
    ensures outcome { MachineOutcome D.told (Tells D.told pages.old → DamageAt pages.old.layout pages.old.pages at.index at.range stage) pages.old pages.new result }
{
    match stage {
        Stage::Right => match take_right(pages, rights, at) {
            Ok(done) => Ok(done),
            Err(fault) => Err(fault),
        },
        Stage::Map => match look(pages, at) {
            Ok(done) => Ok(done),
            Err(fault) => Err(fault),
        },
        Stage::Clear(spot) => match clear(pages, locks, at, spot) {
            Ok(done) => Ok(done),
            Err(fault) => Err(fault),
        },
        Stage::Drop(from) => match drop_cleared(pages, locks, at, from) {
            Ok(done) => Ok(done),
            Err(fault) => Err(fault),
        },
        Stage::Lacked => unreachable!(),
        Stage::Cleared => unreachable!(),
    }
}

/// Takes the summarise lock of the index's table, or tells who holds it.
fn take_right<D: Disk + Drop>(
    pages: &PageStore<D>,
    rights: &mut Rights,
    at: Within,
) -> Result<(Stage, Did), MachineFault>
    requires index { at.index < length pages.now.layout.schema.indexes }
    requires rights { length pages.now.layout.schema.tables ≤ length rights.old }
    ensures does { IfOk result (λ o. (locks : LockState) (blocks : List (List Slot)) → StageDoes (step_of pages.now.layout pages.now.pages pages.now.pages locks locks rights.old rights.new at.actor blocks) at.index at.range Stage.Right o.0 o.1) }
    ensures stands { IfOk result (λ o. StandsAfter Stage.Right o.0 o.1) }
    ensures right { IfOk result (λ o. RightAnswers (table_of pages.now.layout at.index) at.actor rights.old rights.new Stage.Right o.1) }
    ensures rights { OnErr result (rights.new ≡ rights.old) }
    ensures own { IfOk result (λ o. held_at o.0 ≡ 0) }
    ensures still { Survives D.told (λ passed. ⊥) pages.now pages.now }
    ensures never_blocked { IfOk result (λ o. NeverBlocked o.1) }
    ensures no_right { IfOk result (λ o. (locks : LockState) → StaysWithoutRight D.told pages.now pages.now locks locks o.1) }
    ensures of_store { IfErr result IsOfStore }
    ensures at { IfErr result (FaultNamesPageOf pages.now.layout at.index) }
    ensures outcome { MachineOutcome D.told (Untold D.told pages.now) pages.now pages.now result }
{
    match pages.ready() {
        Ok(()) => {}
        Err(error) => return Err(MachineFault::Store(error)),
    }
    let layout = pages.layout();
    layout.known();
    let table = table_of(layout, at.index);
    match rights.take(table, at.actor) {
        Ok(()) => Ok((Stage::Map, Did::Moved(Point::Right))),
        Err(by) => Ok((Stage::Right, Did::NoRight { by })),
    }
}

/// Reads the map: an entry is to be taken out; a range without one is done.
fn look<D: Disk + Drop>(pages: &mut PageStore<D>, at: Within) -> Result<(Stage, Did), MachineFault>
    requires index { at.index < length pages.old.layout.schema.indexes }
    ensures stepped { IfOk result (λ o. Tells D.told pages.old → (locks : LockState) → StepsAt pages.old.layout pages.old.pages pages.new.pages locks locks at.index at.range at.actor Stage.Map o.0 o.1) }
    ensures stands { IfOk result (λ o. StandsAfter Stage.Map o.0 o.1) }
    ensures own { IfOk result (λ o. held_at o.0 ≡ 0) }
    ensures kept { Keeps D.told pages.old pages.new }
    ensures survives { Survives D.told (λ passed. passed ≡ pages.old.pages) pages.old pages.new }
    ensures never_blocked { IfOk result (λ o. NeverBlocked o.1) }
    ensures of_store { IfErr result IsOfStore }
    ensures undamaged { OnOk result (Tells D.told pages.old → IsMisnamed (contents pages.old.layout pages.old.pages at.index) at.range → ⊥) }
    ensures at { IfErr result (FaultNamesPageOf pages.old.layout at.index) }
    ensures outcome { MachineOutcome D.told (Tells D.told pages.old → IsMisnamed (contents pages.old.layout pages.old.pages at.index) at.range) pages.old pages.new result }
{
    an_index_that_stays_is_read();
    match read_map(pages, at.index, at.range) {
        Ok(Some(spot)) => Ok((Stage::Clear(spot), Did::Moved(Point::Map))),
        Ok(None) => Ok((Stage::Lacked, Did::Finished(Point::Map))),
        Err(error) => Err(MachineFault::Store(error)),
    }
}

/// Takes the range's entry out of the map where it still names the spot, and has the locks of the tuple's page and of the map's then. Where
/// it names another spot or none, the map is to be read again. The locks come first, both or none.
fn clear<D: Disk + Drop>(
    pages: &mut PageStore<D>,
    locks: &mut Locks,
    at: Within,
    spot: Spot,
) -> Result<(Stage, Did), MachineFault>
    requires index { at.index < length pages.old.layout.schema.indexes }
    requires locks { count_of locks.old + 2 ≤ locks.old.limit }
    ensures stepped { IfOk result (λ o. Tells D.told pages.old → StepsAt pages.old.layout pages.old.pages pages.new.pages locks.old locks.new at.index at.range at.actor (Stage.Clear spot) o.0 o.1) }
    ensures stands { IfOk result (λ o. StandsAfter (Stage.Clear spot) o.0 o.1) }
    ensures blocked { IfOk result (λ o. BlockedWell D.told at.index at.actor pages.old pages.new locks.old locks.new o.1) }
    ensures others { LeavesOthers D.told at.index pages.old pages.new }
    ensures order { KeepsOrder D.told at.index pages.old pages.new }
    ensures locks { LeavesLocks (holder locks.old) (holder locks.new) (relation_of pages.old.layout at.index) at.actor }
    ensures counts { TakesAtMost 2 locks.old locks.new at.actor }
    ensures own { IfOk result (λ o. locks_of locks.old at.actor ≤ 0 → locks_of locks.new at.actor ≤ held_at o.0) }
    ensures kept { OnErr result (Keeps D.told pages.old pages.new) }
    // The change itself isn't sure before the next flush.
    ensures survives { Survives D.told (λ passed. passed ≡ pages.old.pages) pages.old pages.new }
    ensures of_store { IfErr result IsOfStore }
    ensures at { IfErr result (FaultNamesPageOf pages.old.layout at.index) }
    ensures outcome { MachineOutcome D.told (Untold D.told pages.old) pages.old pages.new result }
{
    an_index_that_stays_is_read();
    entries_stand_on_counted_pages();
    match pages.ready() {
        Ok(()) => {}
        Err(error) => return Err(MachineFault::Store(error)),
    }
    let relation = relation_of(pages.layout(), at.index);
    match locks.take_all(relation, &[spot.block, map_page_of(at.range)], at.actor) {
        Ok(()) => {}
        Err(held) => return Ok((Stage::Clear(spot), Did::Blocked(held))),
    }
    pages.layout().known();
    match set(pages, at.index, at.range, Some(spot), None) {
        Ok(()) => Ok((Stage::Drop(spot), Did::Moved(Point::Clear))),
        Err(SetFault::Changed { .. }) => {
            locks.drop_all(at.actor);
            Ok((Stage::Map, Did::Moved(Point::Again)))
        }
        Err(SetFault::Store(error)) => Err(MachineFault::Store(error)),
    }
}

/// Drops the tuple, which isn't named any more, and gives the locks.
fn drop_cleared<D: Disk + Drop>(
    pages: &mut PageStore<D>,
    locks: &mut Locks,
    at: Within,
    from: Spot,
) -> Result<(Stage, Did), MachineFault>
    requires index { at.index < length pages.old.layout.schema.indexes }
    ensures stepped { IfOk result (λ o. Tells D.told pages.old → StepsAt pages.old.layout pages.old.pages pages.new.pages locks.old locks.new at.index at.range at.actor (Stage.Drop from) o.0 o.1) }
    ensures stands { IfOk result (λ o. StandsAfter (Stage.Drop from) o.0 o.1) }
    ensures others { LeavesOthers D.told at.index pages.old pages.new }
    ensures order { KeepsOrder D.told at.index pages.old pages.new }
    ensures locks { LeavesLocks (holder locks.old) (holder locks.new) (relation_of pages.old.layout at.index) at.actor }
    ensures counts { TakesAtMost 0 locks.old locks.new at.actor }
    ensures given { OnOk result (locks_of locks.new at.actor ≡ 0) }
    ensures own { IfOk result (λ o. locks_of locks.new at.actor ≤ held_at o.0) }
    ensures kept { OnErr result (Keeps D.told pages.old pages.new) }
    // The change itself isn't sure before the next flush.
    ensures survives { Survives D.told (λ passed. passed ≡ pages.old.pages) pages.old pages.new }
    ensures never_blocked { IfOk result (λ o. NeverBlocked o.1) }
    ensures of_store { IfErr result IsOfStore }
    ensures at { IfErr result (FaultNamesPageOf pages.old.layout at.index) }
    ensures outcome { MachineOutcome D.told (Untold D.told pages.old) pages.old pages.new result }
{
    match drop_moved(pages, locks, at, from) {
        Ok(()) => Ok((Stage::Cleared, Did::Finished(Point::Drop))),
        Err(error) => Err(MachineFault::Store(error)),
    }
}
