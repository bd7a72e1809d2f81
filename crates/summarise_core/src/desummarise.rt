//! A desummarise of a range of an index.

ghost use Rattle.std.specs.Prelude.{◌≡◌, ◌+◌, ◌<◌, ◌≤◌, List, length, IfOk, IfErr, OnErr, OnOk};
ghost use Rattle.page_layout.specs.PageContents.{Slot};
ghost use Rattle.page_map.specs.Keeps.{Keeps, Tells};
ghost use Rattle.store_layout.specs.DiskLayout.{DiskLayout};
ghost use Rattle.page_store.specs.Survives.{Survives};
ghost use Rattle.page_locks.specs.LockCounts.{locks_of};
ghost use Rattle.page_locks.specs.LockHolders.{count_of as locks_held, holder};
ghost use Rattle.index_contents.specs.IndexContents.{relation_of};
ghost use Rattle.index_contents.specs.IndexChanges.{LeavesOthers};
ghost use Rattle.index_contents.specs.KeepsOrder.{KeepsOrder};
ghost use Rattle.index_steps.specs.StepAnswers.{BlockedWell, IsOfStore};
ghost use Rattle.index_steps.specs.SwapAnswers.{FaultNamesPageOf, LeavesLocks, MachineOutcome, TakesAtMost};
ghost use Rattle.summarise_core.specs.Desummarises.{DamageIn, DesummariseDoes, GivesAt, IsDesummariseOf, IsLeft, RightAnswers, StandsAfter, StaysWithoutRight, count_at, held_at, step_of, table_of, taken_at};

use crate::desummarise_indexes::blocks_a_range;
use crate::desummarise_stage::{Stage, count_at};
use crate::desummarise_steps::step_in;
use disk_trait::Disk;
use index_steps::Within;
use page_locks::{Did, Locks, Rights};
use page_map::MachineFault;
use page_store::PageStore;
use std::marker::Model;

/// A desummarise of the range of a block in an index: the index, the heap block, and where it stands.
#[derive(Debug, Drop)]
pub struct Desummarise {
    index: u8,
    block: u32,
    stage: Stage,
}

impl Model for Desummarise {
    ghost use Rattle.summarise_core.specs.Desummarises.{DesummariseState, state_of};

    ghost Value = { DesummariseState };

    ghost view = { λ a. state_of a.index a.block a.stage };
}

impl Desummarise {
    /// Before the first step. No step of it takes memory.
    pub fn new(index: u8, block: u32) -> Desummarise
        ensures begins { result.stage ≡ Stage.Right }
        ensures index { result.index ≡ index }
        ensures block { result.block ≡ block }
        ensures of { (layout : DiskLayout) → index < length layout.schema.indexes → IsDesummariseOf layout result }
    {
        Desummarise {
            index,
            block,
            stage: Stage::Right,
        }
    }

    /// The number of its index.
    pub fn index(&self) -> u8
        ensures { result ≡ self.now.index }
    {
        self.index
    }

    /// One where its steps took an entry out of the map, else none.
    pub fn count(&self) -> u64
        ensures { result ≡ count_at self.now.stage }
    {
        count_at(self.stage)
    }

    /// The next step. The first one takes the summarise lock of the index's table, which is the caller's to give once the desummarise is
    /// done. Where the entry is taken out, the locks of the tuple's page and of the map's are taken, both or none, and the last step gives
    /// them. Where a step is blocked, or lacks the summarise lock, nothing is changed; after an error no page is. Takes no memory.
    pub fn step<D: Disk + Drop>(
        &mut self,
        pages: &mut PageStore<D>,
        locks: &mut Locks,
        rights: &mut Rights,
        actor: u32,
    ) -> Result<Did, MachineFault>
        requires of { IsDesummariseOf pages.old.layout self.old }
        requires left { IsLeft self.old.stage }
        requires rights { length pages.old.layout.schema.tables ≤ length rights.old }
        requires locks { 0 < taken_at self.old.stage → locks_held locks.old + taken_at self.old.stage ≤ locks.old.limit }
        ensures does { IfOk result (λ did. Tells D.told pages.old → (blocks : List (List Slot)) → DesummariseDoes (step_of pages.old.layout pages.old.pages pages.new.pages locks.old locks.new rights.old rights.new actor blocks) self.old self.new did) }
        ensures stands { IfOk result (StandsAfter self.old.stage self.new.stage) }
        ensures of { IsDesummariseOf pages.old.layout self.new }
        ensures same_index { self.new.index ≡ self.old.index }
        ensures same_block { self.new.block ≡ self.old.block }
        ensures right { IfOk result (RightAnswers (table_of pages.old.layout self.old.index) actor rights.old rights.new self.old.stage) }
        ensures rights { OnErr result (rights.new ≡ rights.old) }
        ensures blocked { IfOk result (BlockedWell D.told self.old.index actor pages.old pages.new locks.old locks.new) }
        ensures no_right { IfOk result (StaysWithoutRight D.told pages.old pages.new locks.old locks.new) }
        ensures of_store { IfErr result IsOfStore }
        ensures others { LeavesOthers D.told self.old.index pages.old pages.new }
        ensures order { KeepsOrder D.told self.old.index pages.old pages.new }
        ensures locks { LeavesLocks (holder locks.old) (holder locks.new) (relation_of pages.old.layout self.old.index) actor }
        ensures counts { TakesAtMost (taken_at self.old.stage) locks.old locks.new actor }
        ensures given { OnOk result (GivesAt self.old.stage → locks_of locks.new actor ≡ 0) }
        ensures own { OnOk result (locks_of locks.old actor ≤ held_at self.old.stage → locks_of locks.new actor ≤ held_at self.new.stage) }
        ensures stays { OnErr result (self.new ≡ self.old) }
        // The changes themselves aren't sure before the next flush.
        ensures survives { Survives D.told (λ passed. passed ≡ pages.old.pages) pages.old pages.new }
        ensures kept { OnErr result (Keeps D.told pages.old pages.new) }
        ensures undamaged { OnOk result (Tells D.told pages.old → DamageIn pages.old.layout pages.old.pages self.old → ⊥) }
        ensures at { IfErr result (FaultNamesPageOf pages.old.layout self.old.index) }
        ensures outcome { MachineOutcome D.told (Tells D.told pages.old → DamageIn pages.old.layout pages.old.pages self.old) pages.old pages.new result }
    {
        let index = self.index;
        let in_range = blocks_a_range(pages.layout(), index);
        let at = Within {
            index,
            range: self.block / in_range,
            actor,
        };
        let stage = self.stage;
        match step_in(pages, locks, rights, at, stage) {
            Ok((stage, did)) => {
                self.stage = stage;
                Ok(did)
            }
            Err(fault) => Err(fault),
        }
    }
}
