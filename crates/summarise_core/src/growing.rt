//! The growth of the map, where it has no page for the range's entry yet.

ghost use Rattle.std.specs.Prelude.{◌≡◌, ◌+◌, ◌<◌, ◌≤◌, true, false, length, IfOk, IfErr, OnErr, OnOk};
ghost use Rattle.page_locks.specs.LockCounts.{locks_of};
ghost use Rattle.page_locks.specs.LockHolders.{count_of, holder};
ghost use Rattle.page_map.specs.Keeps.{Keeps, Tells};
ghost use Rattle.page_store.specs.Survives.{Survives};
ghost use Rattle.coverage.specs.IndexView.{IsPastMap};
ghost use Rattle.index_contents.specs.IndexContents.{contents, relation_of};
ghost use Rattle.index_contents.specs.IndexChanges.{LeavesOthers};
ghost use Rattle.index_contents.specs.KeepsOrder.{KeepsOrder};
ghost use Rattle.index_steps.specs.IndexTuples.{shape_of};
ghost use Rattle.index_steps.specs.StepAnswers.{BlockedWell};
ghost use Rattle.index_steps.specs.SwapAnswers.{FaultNamesPageOf, LeavesLocks, MachineOutcome, SaysFullIn, StaysWhereFull, TakesAtMost};
ghost use Rattle.index_steps.specs.declared.growth_stage.Stage.TheVariants as growth_stages;
ghost use Rattle.index_steps.specs.GrowthHands.{RestsAt as GrowthRests};
ghost use Rattle.index_steps.specs.GrowthSteps.{IsNeeded};
ghost use Rattle.index_steps.specs.StageLocks.{held_at as held_to_grow, taken_at as taken_to_grow};
ghost use Rattle.index_steps.specs.StepCauses.{DamageAt as DamageToGrow, IsReady as IsReadyToGrow};
ghost use Rattle.summarise_core.specs.Growths.{onward};
ghost use Rattle.summarise_core.specs.ShownHeap.{Heap};
ghost use Rattle.summarise_core.specs.StageLocks.{EndsMove};
ghost use Rattle.summarise_core.specs.SummariseHands.{SummariseHand};
ghost use Rattle.summarise_core.specs.SummariseSteps.{RestsBlocked, StandsAfter, StepFull, StepsAt, summarise_at};

use crate::range_stage::Stage;
use disk_trait::Disk;
use index_contents::relation_of;
use index_steps::{Extend, GrowthStage, Within, map_page_of};
use page_locks::{Did, Locks};
use page_map::MachineFault;
use page_store::PageStore;

/// Whether the next step of a summarise that has no entry for its range is one of the map's growth: one is under way, or the map has no page
/// for the entry. Reads no page.
pub(crate) fn grows<D: Disk + Drop>(pages: &PageStore<D>, at: Within, growth: &Extend) -> bool
    requires index { at.index < length pages.now.layout.schema.indexes }
    ensures rests { result ≡ false → growth.now.stage ≡ growth_stages.Judge }
    ensures long { result ≡ false → Tells D.told pages.now → IsPastMap (contents pages.now.layout pages.now.pages at.index).pages at.range → ⊥ }
    ensures needed { result ≡ true → Tells D.told pages.now → IsNeeded (contents pages.now.layout pages.now.pages at.index).pages at.range growth.now.stage }
{
    match growth.stage() {
        GrowthStage::Judge => is_past_map(pages, at),
        GrowthStage::Count => true,
        GrowthStage::Set { .. } => true,
        GrowthStage::Drop { .. } => true,
    }
}

/// Whether the map has no page for the range's entry yet.
fn is_past_map<D: Disk + Drop>(pages: &PageStore<D>, at: Within) -> bool
    requires index { at.index < length pages.now.layout.schema.indexes }
    ensures past { result ≡ true → Tells D.told pages.now → IsPastMap (contents pages.now.layout pages.now.pages at.index).pages at.range }
    ensures long { result ≡ false → Tells D.told pages.now → IsPastMap (contents pages.now.layout pages.now.pages at.index).pages at.range → ⊥ }
{
    let relation = relation_of(pages.layout(), at.index);
    pages.map_pages(relation) < map_page_of(at.range)
}

/// The next step of the map's growth. Behind its last one the map's length is judged anew.
pub(crate) fn grow<D: Disk + Drop>(
    pages: &mut PageStore<D>,
    locks: &mut Locks,
    at: Within,
    growth: &mut Extend,
) -> Result<(Stage, Did), MachineFault>
    requires index { at.index < length pages.old.layout.schema.indexes }
    requires of { growth.old.index ≡ at.index }
    requires locks { 0 < taken_to_grow growth.old.stage → count_of locks.old + taken_to_grow growth.old.stage ≤ locks.old.limit }
    requires needed { Tells D.told pages.old → IsNeeded (contents pages.old.layout pages.old.pages at.index).pages at.range growth.old.stage }
    requires ready { Tells D.told pages.old → IsReadyToGrow (shape_of pages.old.layout at.index) (contents pages.old.layout pages.old.pages at.index) growth.old.stage }
    ensures stepped { IfOk result (λ o. Tells D.told pages.old → (heap : Heap) (hand : SummariseHand) → StepsAt pages.old.layout pages.old.pages pages.new.pages locks.old locks.new at heap (record hand { stage = Stage.Place; growth = growth.old }) (record hand { stage = o.0; growth = growth.new }) o.1) }
    ensures stays { IfOk result (λ o. o.0 ≡ Stage.Place) }
    ensures same_index { growth.new.index ≡ growth.old.index }
    ensures rests { IfOk result (λ o. (hand : SummariseHand) → RestsBlocked (record hand { stage = Stage.Place; growth = growth.old }) (record hand { stage = o.0; growth = growth.new }) o.1) }
    ensures stands { IfOk result (λ o. StandsAfter growth.old.stage Stage.Place o.0 o.1) }
    ensures blocked { IfOk result (λ o. BlockedWell D.told at.index at.actor pages.old pages.new locks.old locks.new o.1) }
    ensures full { IfErr result (SaysFullIn pages.old.layout at.index (λ number. Tells D.told pages.old → (hand : SummariseHand) → StepFull (shape_of pages.old.layout at.index) at.actor at.range (summarise_at pages.old.layout pages.old.pages locks.old at.index (record hand { stage = Stage.Place; growth = growth.old })) number)) }
    ensures at_full { IfErr result (StaysWhereFull locks.old locks.new) }
    ensures others { LeavesOthers D.told at.index pages.old pages.new }
    ensures order { KeepsOrder D.told at.index pages.old pages.new }
    ensures locks { LeavesLocks (holder locks.old) (holder locks.new) (relation_of pages.old.layout at.index) at.actor }
    ensures counts { TakesAtMost (taken_to_grow growth.old.stage) locks.old locks.new at.actor }
    ensures given { OnOk result (EndsMove growth.old.stage → locks_of locks.new at.actor ≡ 0) }
    ensures own { OnOk result (locks_of locks.old at.actor ≤ held_to_grow growth.old.stage → locks_of locks.new at.actor ≤ held_to_grow growth.new.stage) }
    ensures rests_at { OnErr result (GrowthRests growth.old.stage growth.old growth.new) }
    ensures survives { Survives D.told (λ passed. passed ≡ pages.old.pages) pages.old pages.new }
    ensures kept { OnErr result (Keeps D.told pages.old pages.new) }
    ensures undamaged { OnOk result (Tells D.told pages.old → DamageToGrow pages.old.layout pages.old.pages at.index growth.old.stage → ⊥) }
    ensures at { IfErr result (FaultNamesPageOf pages.old.layout at.index) }
    ensures outcome { MachineOutcome D.told (Tells D.told pages.old → DamageToGrow pages.old.layout pages.old.pages at.index growth.old.stage) pages.old pages.new result }
{
    match growth.step(pages, locks, at.actor) {
        Ok(did) => Ok((Stage::Place, onward(did))),
        Err(fault) => Err(fault),
    }
}

/// What a step of the growth is of the summarise's: behind the last one it goes on.
fn onward(did: Did) -> Did
    ensures { result ≡ onward did }
{
    match did {
        Did::Moved(point) => Did::Moved(point),
        Did::Finished(point) => Did::Moved(point),
        Did::Blocked(held) => Did::Blocked(held),
        Did::NoRight { by } => Did::NoRight { by },
    }
}
