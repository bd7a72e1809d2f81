//! A growth of the map by a page.

ghost use Rattle.std.specs.Prelude.{◌≡◌, ◌+◌, ◌<◌, ◌≤◌, length, IfOk, IfErr, OnErr, OnOk};
ghost use Rattle.page_map.specs.Keeps.{Keeps, Tells};
ghost use Rattle.page_locks.specs.LockCounts.{locks_of};
ghost use Rattle.page_locks.specs.LockHolders.{count_of, holder};
ghost use Rattle.heap_rows.specs.Survives.{Survives};
ghost use Rattle.index_contents.specs.IndexContents.{contents, relation_of};
ghost use Rattle.index_contents.specs.IndexChanges.{LeavesOthers};
ghost use Rattle.index_steps.specs.IndexTuples.{shape_of};
ghost use Rattle.index_steps.specs.StepAnswers.{BlockedWell};
ghost use Rattle.index_steps.specs.SwapAnswers.{FaultNamesPageOf, LeavesLocks, MachineOutcome, SaysFullIn, StaysWhereFull, TakesAtMost};
ghost use Rattle.index_contents.specs.KeepsOrder.{KeepsOrder};
ghost use Rattle.index_steps.specs.Called.{Called, hand_at};
ghost use Rattle.index_steps.specs.GrowthHands.{RestsAt};
ghost use Rattle.index_steps.specs.GrowthSteps.{StandsAfter, StepFull, StepsAt, growth_at};
ghost use Rattle.index_steps.specs.StageLocks.{Gives, held_at, taken_at};
ghost use Rattle.index_steps.specs.StepCauses.{DamageAt, IsReady};

use crate::Within;
use crate::counting::count_made;
use crate::growth_stage::Stage;
use crate::judging::judge;
use crate::moved::Moved;
use crate::moving_off::{drop_old, set};
use block_model::NoMemory;
use disk_trait::Disk;
use heap_rows::PageStore;
use page_locks::{Did, Locks};
use page_map::MachineFault;
use std::alloc::Global;
use std::marker::Model;

/// A growth of an index's map: the stage that it is at, and room for the tuple that it moves. Made once an index, and taken for one growth
/// after the other.
#[derive(Debug, Drop)]
pub struct Extend {
    index: u8,
    stage: Stage,
    moved: Moved,
}

impl Model for Extend {
    ghost use Rattle.index_steps.specs.GrowthHands.{GrowthHand};

    ghost Value = { GrowthHand };

    ghost view = { λ a. record { index = a.index; stage = a.stage; moved = a.moved } };
}

impl Extend {
    /// Before the first step of a growth of the index's map. Takes all the memory that it ever needs.
    pub fn new(alloc: Global, index: u8) -> Result<Extend, NoMemory>
        ensures begins { IfOk result (λ growth. growth.stage ≡ Stage.Judge) }
        ensures index { IfOk result (λ growth. growth.index ≡ index) }
    {
        let moved = Moved::new(alloc)?;
        Ok(Extend {
            index,
            stage: Stage::Judge,
            moved,
        })
    }

    /// Before the first step of another growth. Locks that it has stay: they are given at the end of a growth and of a move.
    pub fn begin(&mut self)
        ensures { self.new ≡ record self.old { stage = Stage.Judge } }
    {
        self.stage = Stage::Judge;
    }

    /// The stage that it is at.
    pub fn stage(&self) -> Stage
        ensures { result ≡ self.now.stage }
    {
        self.stage
    }

    /// The next step, for the holder of the table's summarise lock. A page that is started or turned takes two page locks, its own and that
    /// of the metapage, up to the step that counts it; a tuple that moves takes three, up to the end of the move. Where the step is blocked,
    /// nothing is changed; after an error no page is, and the stage stays. After Finished the next step begins another growth. Takes no memory.
    pub fn step<D: Disk + Drop>(
        &mut self,
        pages: &mut PageStore<D>,
        locks: &mut Locks,
        actor: u32,
    ) -> Result<Did, MachineFault>
        requires index { self.old.index < length pages.old.layout.schema.indexes }
        requires locks { 0 < taken_at self.old.stage → count_of locks.old + taken_at self.old.stage ≤ locks.old.limit }
        requires ready { Tells D.told pages.old → IsReady (shape_of pages.old.layout self.old.index) (contents pages.old.layout pages.old.pages self.old.index) self.old.stage }
        ensures stepped { IfOk result (λ did. Tells D.told pages.old → StepsAt pages.old.layout pages.old.pages pages.new.pages locks.old locks.new actor self.old self.new did) }
        ensures stands { IfOk result (StandsAfter self.old self.new) }
        ensures blocked { IfOk result (BlockedWell D.told self.old.index actor pages.old pages.new locks.old locks.new) }
        ensures full { IfErr result (SaysFullIn pages.old.layout self.old.index (λ number. Tells D.told pages.old → StepFull (shape_of pages.old.layout self.old.index) actor (growth_at pages.old.layout pages.old.pages locks.old self.old) number)) }
        ensures others { LeavesOthers D.told self.old.index pages.old pages.new }
        ensures locks { LeavesLocks (holder locks.old) (holder locks.new) (relation_of pages.old.layout self.old.index) actor }
        ensures counts { TakesAtMost (taken_at self.old.stage) locks.old locks.new actor }
        ensures given { IfOk result (λ did. Gives self.old.stage did → locks_of locks.new actor ≡ 0) }
        ensures own { OnOk result (locks_of locks.old actor ≤ held_at self.old.stage → locks_of locks.new actor ≤ held_at self.new.stage) }
        ensures at_full { IfErr result (StaysWhereFull locks.old locks.new) }
        ensures stays { OnErr result (RestsAt self.old.stage self.old self.new) }
        ensures kept { OnErr result (Keeps D.told pages.old pages.new) }
        ensures order { KeepsOrder D.told self.old.index pages.old pages.new }
        // The changes themselves aren't sure before the next flush.
        ensures survives { Survives D.told (λ passed. passed ≡ pages.old.pages) pages.old pages.new }
        ensures undamaged { OnOk result (Tells D.told pages.old → DamageAt pages.old.layout pages.old.pages self.old.index self.old.stage → ⊥) }
        ensures at { IfErr result (FaultNamesPageOf pages.old.layout self.old.index) }
        ensures outcome { MachineOutcome D.told (Tells D.told pages.old → DamageAt pages.old.layout pages.old.pages self.old.index self.old.stage) pages.old pages.new result }
    {
        let stage = self.stage;
        match step_in(pages, locks, self.index, actor, stage, &mut self.moved) {
            Ok((stage, did)) => {
                self.stage = stage;
                Ok(did)
            }
            Err(fault) => Err(fault),
        }
    }
}

/// The next step at the stage, with the stage that follows.
fn step_in<D: Disk + Drop>(
    pages: &mut PageStore<D>,
    locks: &mut Locks,
    index: u8,
    actor: u32,
    stage: Stage,
    moved: &mut Moved,
) -> Result<(Stage, Did), MachineFault>
    requires index { index < length pages.old.layout.schema.indexes }
    requires locks { 0 < taken_at stage → count_of locks.old + taken_at stage ≤ locks.old.limit }
    requires ready { Tells D.told pages.old → IsReady (shape_of pages.old.layout index) (contents pages.old.layout pages.old.pages index) stage }
    ensures called { Called D.told actor (Tells D.told pages.old → DamageAt pages.old.layout pages.old.pages index stage) (hand_at index stage moved.old) moved.new pages.old pages.new locks.old locks.new result }
    ensures rests { RestsAt stage (hand_at index stage moved.old) (hand_at index stage moved.new) }
    ensures undamaged { OnOk result (Tells D.told pages.old → DamageAt pages.old.layout pages.old.pages index stage → ⊥) }
{
    match stage {
        Stage::Judge => judge(pages, locks, index, actor, moved),
        Stage::Count => count_made(pages, locks, index, actor),
        Stage::Set { range, from, to } => {
            let at = Within {
                index,
                range,
                actor,
            };
            set(pages, locks, at, from, to)
        }
        Stage::Drop { range, from } => {
            let at = Within {
                index,
                range,
                actor,
            };
            drop_old(pages, locks, at, from)
        }
    }
}
