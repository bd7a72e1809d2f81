//! A summarise's work at one range.

ghost use Rattle.std.specs.Prelude.{◌≡◌, ◌+◌, ◌<◌, ◌≤◌, length, IfOk, IfErr, OnErr, OnOk};
ghost use Rattle.page_map.specs.Keeps.{Keeps, Tells};
ghost use Rattle.page_store.specs.Survives.{Survives};
ghost use Rattle.page_locks.specs.LockCounts.{locks_of};
ghost use Rattle.page_locks.specs.LockHolders.{count_of, holder};
ghost use Rattle.heap_rows.specs.HeapBlocks.{OfBlocks};
ghost use Rattle.index_contents.specs.IndexContents.{contents, relation_of};
ghost use Rattle.index_contents.specs.IndexChanges.{LeavesOthers};
ghost use Rattle.index_contents.specs.KeepsOrder.{KeepsOrder};
ghost use Rattle.index_steps.specs.IndexTuples.{shape_of};
ghost use Rattle.index_steps.specs.StepAnswers.{BlockedWell};
ghost use Rattle.index_steps.specs.SwapAnswers.{LeavesLocks, MachineOutcome, SaysFullIn, StaysWhereFull, TakesAtMost};
ghost use Rattle.summarise_core.specs.ExactSummaries.{IsExactAt};
ghost use Rattle.summarise_core.specs.ShownHeap.{heap_of};
ghost use Rattle.summarise_core.specs.StepCauses.{DamageAt, IsReady, NamesPageAt};
ghost use Rattle.summarise_core.specs.StageLocks.{GivesAt, held_at, taken_at};
ghost use Rattle.summarise_core.specs.SummariseHands.{IsHandOf, begun, table_of};
ghost use Rattle.summarise_core.specs.SummariseSteps.{IsAtWork, RestsBlocked, StandsAfter, StepFull, StepsAt, summarise_at};

use crate::range_stage::Stage;
use crate::rows::{new_rows, new_tuple};
use crate::work::{Work, step_in};
use block_model::NoMemory;
use disk_trait::Disk;
use index_steps::{Extend, Scratch, Within, tuples_of_an_index_need_one_room};
use page_locks::{Did, Locks};
use page_map::MachineFault;
use page_store::PageStore;
use std::alloc::Global;
use std::boxed::BoxedSlice;
use std::marker::Model;
use store_layout::Layout;

/// A summarise's work at one range of an index: the stage that it is at, what it works with, and room for a tuple's bytes. Made once an
/// index, and taken for one range after the other.
#[derive(Debug, Drop)]
pub struct RangeSummarise {
    stage: Stage,
    work: Work,
    room: BoxedSlice<u8>,
}

impl Model for RangeSummarise {
    ghost use Rattle.std.specs.Prelude.{◌≤◌, length};
    ghost use Rattle.std.specs.Box.{boxed_slice_items};
    ghost use Rattle.range_tuple.specs.Tuples.{tuple_room};
    ghost use Rattle.summarise_core.specs.SummariseHands.{GrowsToPlace, SummariseHand};
    ghost use Rattle.summarise_core.specs.Works.{hand_of};

    ghost Value = { SummariseHand };

    ghost view = { λ a. hand_of a.stage a.work };

    ghost invariant = { λ a. (tuple_room a.work.united.columns ≤ length (boxed_slice_items a.room)) × GrowsToPlace a.work.growth.stage a.stage };
}

impl RangeSummarise {
    /// Before the first step at a range of the index. Takes all the memory that the work ever needs.
    pub fn new(alloc: Global, layout: &Layout, index: u8) -> Result<RangeSummarise, NoMemory>
        requires { index < length layout.now.schema.indexes }
        ensures begins { IfOk result (λ work. work.stage ≡ Stage.Map) }
        ensures of { IfOk result (IsHandOf layout.now index) }
    {
        let running = new_tuple(alloc, layout, index)?;
        let united = new_tuple(alloc, layout, index)?;
        let copied = Scratch::new(alloc)?;
        let rows = new_rows(alloc, layout, index)?;
        let growth = Extend::new(alloc, index)?;
        let room = vec![in alloc; 0u8; united.greatest_size()]?;
        Ok(RangeSummarise {
            stage: Stage::Map,
            work: Work {
                extent: 0,
                next: 0,
                running,
                united,
                copied,
                rows,
                growth,
            },
            room: room.into_boxed_slice(),
        })
    }

    /// Before the first step at another range of the index, with no growth of the map under way. Locks that the work has stay: it gives them at
    /// the end of the put or the move.
    pub fn begin(&mut self)
        ensures { self.new ≡ begun self.old }
    {
        self.stage = Stage::Map;
        self.work.growth.begin();
    }

    /// The stage that it is at.
    pub fn stage(&self) -> Stage
        ensures { result ≡ self.now.stage }
    {
        self.stage
    }

    /// The next step at the range, for the holder of the table's summarise lock. A placeholder that is put takes two page locks, a final tuple
    /// that is put elsewhere three, and a growth of the map up to three, which the work has up to the end of the put, of the move and of the
    /// growth. Where the step is blocked, nothing is changed; after an error no page is, and the stage stays. Takes no memory.
    pub fn step<D: Disk + Drop>(
        &mut self,
        pages: &mut PageStore<D>,
        locks: &mut Locks,
        at: Within,
    ) -> Result<Did, MachineFault>
        requires index { at.index < length pages.old.layout.schema.indexes }
        requires work { IsAtWork self.old.stage }
        requires of { IsHandOf pages.old.layout at.index self.old }
        requires locks { 0 < taken_at self.old.growth.stage self.old.stage → count_of locks.old + taken_at self.old.growth.stage self.old.stage ≤ locks.old.limit }
        requires ready { Tells D.told pages.old → IsReady (shape_of pages.old.layout at.index) (contents pages.old.layout pages.old.pages at.index) at.range self.old.growth.stage self.old.stage }
        ensures stepped { IfOk result (λ did. OfBlocks D.told pages.old (table_of pages.old.layout at.index) (λ blocks. StepsAt pages.old.layout pages.old.pages pages.new.pages locks.old locks.new at (heap_of pages.old.layout at.index blocks) self.old self.new did)) }
        ensures exact { IfOk result (λ did. OfBlocks D.told pages.old (table_of pages.old.layout at.index) (λ blocks. IsExactAt (shape_of pages.old.layout at.index) (heap_of pages.old.layout at.index blocks) at.range self.old self.old.stage → IsExactAt (shape_of pages.old.layout at.index) (heap_of pages.old.layout at.index blocks) at.range self.new self.new.stage)) }
        ensures stands { IfOk result (StandsAfter self.old.growth.stage self.old.stage self.new.stage) }
        ensures rests { IfOk result (RestsBlocked self.old self.new) }
        ensures of { IsHandOf pages.old.layout at.index self.new }
        ensures blocked { IfOk result (BlockedWell D.told at.index at.actor pages.old pages.new locks.old locks.new) }
        ensures full { IfErr result (SaysFullIn pages.old.layout at.index (λ number. Tells D.told pages.old → StepFull (shape_of pages.old.layout at.index) at.actor at.range (summarise_at pages.old.layout pages.old.pages locks.old at.index self.old) number)) }
        ensures at_full { IfErr result (StaysWhereFull locks.old locks.new) }
        ensures others { LeavesOthers D.told at.index pages.old pages.new }
        ensures order { KeepsOrder D.told at.index pages.old pages.new }
        ensures locks { LeavesLocks (holder locks.old) (holder locks.new) (relation_of pages.old.layout at.index) at.actor }
        ensures counts { TakesAtMost (taken_at self.old.growth.stage self.old.stage) locks.old locks.new at.actor }
        ensures given { OnOk result (GivesAt self.old.growth.stage self.old.stage → locks_of locks.new at.actor ≡ 0) }
        ensures own { OnOk result (locks_of locks.old at.actor ≤ held_at self.old.growth.stage self.old.stage → locks_of locks.new at.actor ≤ held_at self.new.growth.stage self.new.stage) }
        ensures stays { OnErr result ((self.new.stage ≡ self.old.stage) × (self.new.growth.stage ≡ self.old.growth.stage)) }
        // The changes themselves aren't sure before the next flush.
        ensures survives { Survives D.told (λ passed. passed ≡ pages.old.pages) pages.old pages.new }
        ensures kept { OnErr result (Keeps D.told pages.old pages.new) }
        ensures undamaged { OnOk result (Tells D.told pages.old → DamageAt pages.old.layout pages.old.pages at.index at.range self.old self.old.stage → ⊥) }
        ensures at { IfErr result (NamesPageAt pages.old.layout at.index self.old.stage) }
        ensures outcome { MachineOutcome D.told (Tells D.told pages.old → DamageAt pages.old.layout pages.old.pages at.index at.range self.old self.old.stage) pages.old pages.new result }
    {
        tuples_of_an_index_need_one_room();
        let stage = self.stage;
        match step_in(pages, locks, at, stage, &mut self.work, &mut self.room) {
            Ok((stage, did)) => {
                self.stage = stage;
                Ok(did)
            }
            Err(fault) => Err(fault),
        }
    }
}
