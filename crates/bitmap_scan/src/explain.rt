//! An explain.

ghost use Rattle.std.specs.Prelude.{◌≡◌, ◌≢◌, ◌+◌, ◌<◌, ◌≤◌, ◌^◌, ◌++◌, [], ◌∷◌, if◌then◌else◌, length, vec_capacity, IfOk, IfErr, OnOk, OnErr};
ghost use Rattle.page_store.specs.Survives.{Survives};
ghost use Rattle.page_map.specs.Keeps.{Keeps, Tells};
ghost use Rattle.bitmap_scan.specs.Explains.{ExplainSteps, IsPointOf, ListsBlocks, candidate_blocks};
ghost use Rattle.bitmap_scan.specs.ScanAnswers.{IsDamagedAt, NamesPageAt, ReadOutcome};
ghost use Rattle.bitmap_scan.specs.ScanHands.{IsHand, IsJudging, IsScanOf, first_hand, is_candidate};
ghost use Rattle.bitmap_scan.specs.ScanSteps.{point_at};

use crate::judging::Judging;
use crate::stage::Stage;
use block_model::{NoMemory, Query};
use disk_trait::Disk;
use page_locks::{Did, Point};
use page_map::MachineFault;
use page_store::PageStore;
use std::alloc::Global;
use std::marker::Model;
use store_layout::Layout;

/// An explain: it judges the ranges of the table's indexes, and tells the blocks that no index leaves out.
#[derive(Debug, Drop)]
pub struct Explain {
    judging: Judging,
    /// Has room for each block that the table may have.
    blocks: Vec<u32>,
}

impl Model for Explain {
    ghost use Rattle.std.specs.Prelude.{◌≡◌, ◌≤◌, [], length, vec_capacity};
    ghost use Rattle.bitmap_scan.specs.Explains.{ExplainHand};
    ghost use Rattle.bitmap_scan.specs.ScanHands.{IsJudging};

    ghost Value = { ExplainHand };

    ghost view = { λ a. record { judging = a.judging; blocks = a.blocks.items } };

    ghost invariant = { λ a. (length a.judging.candidates ≤ vec_capacity a.blocks) × (IsJudging a.judging.stage → a.blocks.items ≡ []) };
}

impl Explain {
    /// Before the first step of an explain of a query of a table of the layout. Takes all the memory that it ever needs.
    pub fn new(alloc: Global, query: Query, layout: &Layout) -> Result<Explain, NoMemory>
        ensures begins { IfOk result (λ explain. explain ≡ record { judging = first_hand layout.now query; blocks = [] }) }
    {
        let room = layout.sizes().heap_blocks as usize;
        let blocks = Vec::with_capacity(alloc, room)?;
        match Judging::new(alloc, query, layout) {
            Ok(judging) => Ok(Explain { judging, blocks }),
            Err(_) => Err(NoMemory),
        }
    }

    /// Does nothing; tells its caller what holds of the judging of its ranges.
    pub fn known(&self)
        ensures { IsHand self.now.judging }
    {
        self.judging.known();
    }

    /// The stage that it is at.
    pub fn stage(&self) -> Stage
        ensures { result ≡ self.now.judging.stage }
    {
        self.judging.stage()
    }

    /// The next step, over the pages of a store of the layout. After an error nothing is changed. Takes no memory.
    pub fn step<D: Disk + Drop>(&mut self, pages: &mut PageStore<D>) -> Result<Did, MachineFault>
        requires scan { IsScanOf pages.old.layout self.old.judging }
        requires work { IsJudging self.old.judging.stage }
        ensures stepped { IfOk result (λ did. Tells D.told pages.old → ExplainSteps pages.old.layout pages.old.pages self.old.judging self.new.judging did) }
        ensures point { IfOk result (IsPointOf self.old.judging.stage self.new.judging.stage) }
        ensures begun { OnOk result (self.new.judging.stage ≢ Stage.Extent) }
        ensures blocks { IfOk result (ListsBlocks self.old self.new) }
        ensures scan { IsScanOf pages.old.layout self.new.judging }
        ensures query { self.new.judging.query ≡ self.old.judging.query }
        ensures same { OnErr result (self.new ≡ self.old) }
        ensures kept { Keeps D.told pages.old pages.new }
        ensures survives { Survives D.told (λ passed. passed ≡ pages.old.pages) pages.old pages.new }
        ensures names { IfErr result (NamesPageAt pages.old.layout self.old.judging.indexes self.old.judging.stage) }
        ensures undamaged { OnOk result (Tells D.told pages.old → IsDamagedAt pages.old.layout pages.old.pages self.old.judging.indexes self.old.judging.stage → ⊥) }
        ensures outcome { ReadOutcome D.told (Tells D.told pages.old → IsDamagedAt pages.old.layout pages.old.pages self.old.judging.indexes self.old.judging.stage) pages.old pages.new result }
    {
        let point = point_at(self.judging.stage());
        self.judging.step(pages)?;
        if self.judging.is_judged() {
            self.judging.known();
            list(self.judging.candidates(), &mut self.blocks);
            Ok(Did::Finished(point))
        } else {
            Ok(Did::Moved(point))
        }
    }

    /// The candidate blocks, in ascending order; none before the last step.
    pub fn blocks(&self) -> &[u32]
        ensures { result.now ≡ self.now.blocks }
    {
        self.blocks.as_slice()
    }

    /// The candidate blocks, in ascending order; none before the last step. Takes no memory.
    pub fn into_blocks(self) -> Vec<u32>
        ensures { result.items ≡ self.blocks }
    {
        let Explain { blocks, .. } = self;
        blocks
    }
}

/// The point of a step at this stage.
pub(crate) fn point_at(stage: Stage) -> Point
    ensures { result ≡ point_at stage }
{
    match stage {
        Stage::Extent => Point::Extent,
        Stage::Map { .. } => Point::Map,
        Stage::Tuple { .. } => Point::Tuple,
        Stage::Judged => Point::Page,
    }
}

/// Lists the candidates, for which there is room.
fn list(candidates: &[bool], blocks: &mut Vec<u32>)
    requires empty { blocks.old.items ≡ [] }
    requires room { length candidates.now ≤ vec_capacity blocks.old }
    requires small { length candidates.now < 2 ^ 32 }
    ensures listed { blocks.new.items ≡ candidate_blocks candidates.now }
    ensures room { vec_capacity blocks.new ≡ vec_capacity blocks.old }
{
    let mut block = 0u32;
    'candidates: for candidate in candidates {
        list_if(*candidate, block, blocks);
        block += 1;
    }
}

/// Lists the block, if it is a candidate.
fn list_if(candidate: bool, block: u32, blocks: &mut Vec<u32>)
    requires { length blocks.old.items < vec_capacity blocks.old }
    ensures listed { blocks.new.items ≡ blocks.old.items ++ (if candidate then block ∷ [] else []) }
    ensures few { length blocks.new.items ≤ length blocks.old.items + 1 }
    ensures room { vec_capacity blocks.new ≡ vec_capacity blocks.old }
{
    if candidate {
        blocks.push_reserved(block);
    }
}
