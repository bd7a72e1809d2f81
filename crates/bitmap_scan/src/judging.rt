//! How a scan judges the ranges of its table's indexes.

ghost use Rattle.std.specs.Prelude.{◌≡◌, ◌<◌, ◌≤◌, ℕ, Bool, true, false, All, List, length, replicate, IfOk, IfErr, OnOk, OnErr};
ghost use Rattle.std.specs.Box.{boxed_slice_items};
ghost use Rattle.block_model.specs.declared.limits.TheConstants.{MAX_CONDITIONS};
ghost use Rattle.block_model.specs.declared.row.Query.{Query as AnyQuery};
ghost use Rattle.page_store.specs.Survives.{Survives};
ghost use Rattle.page_map.specs.Keeps.{Keeps, Tells};
ghost use Rattle.range_tuple.specs.Tuples.{parts_of};
ghost use Rattle.index_contents.specs.IndexContents.{contents};
ghost use Rattle.index_steps.specs.IndexTuples.{classes_of, shape_of};
ghost use Rattle.index_steps.specs.Readings.{IsMisread};
ghost use Rattle.index_steps.specs.SwapAnswers.{FaultNamesPageOf};
ghost use Rattle.bitmap_scan.specs.IndexReaders.{all_scanned, hand_at, scanned};
ghost use Rattle.bitmap_scan.specs.Judgings.{SaysOfRange};
ghost use Rattle.bitmap_scan.specs.LooksAhead.{ComesTo};
ghost use Rattle.bitmap_scan.specs.ScanHands.{IsAtRange, IsBegunAt, IsHand, IsJudging, IsScanOf, first_hand, scanned_indexes};
ghost use Rattle.bitmap_scan.specs.ScanAnswers.{IsDamagedAt, NamesNoPage, NamesPageAt, ReadOutcome};
ghost use Rattle.bitmap_scan.specs.ScanSteps.{JudgesTo};

use crate::ranges::{begin_with, first_range, leave_out, next_range};
use crate::readers::{IndexReader, readers_of};
use crate::stage::Stage;
use block_model::{Cond, NoMemory, Query, Spot};
use disk_trait::Disk;
use heap_rows::blocks;
use index_steps::{judge_tuple as judge_at, read_map};
use page_locks::Point;
use page_map::MachineFault;
use page_store::PageStore;
use range_tuple::a_row_is_included_as_tested;
use std::alloc::Global;
use std::boxed::BoxedSlice;
use std::marker::Model;
use store_layout::Layout;

/// A range of the index at that place among the table's, and the spot that the map named for it.
#[derive(Clone, Copy)]
pub(crate) struct Held {
    pub(crate) at: usize,
    pub(crate) range: u32,
    pub(crate) spot: Spot,
}

/// A scan's work on the ranges of its table's indexes.
#[derive(Debug, Drop)]
pub(crate) struct Judging {
    query: Query,
    readers: BoxedSlice<IndexReader>,
    stage: Stage,
    extent: u32,
    candidates: BoxedSlice<bool>,
}

impl Model for Judging {
    ghost use Rattle.std.specs.Box.{boxed_slice_items};
    ghost use Rattle.bitmap_scan.specs.ScanHands.{IsHand, ScanHand};

    ghost Value = { ScanHand };

    ghost use Rattle.bitmap_scan.specs.IndexReaders.{all_scanned};

    ghost view = { λ a. record { query = a.query; indexes = all_scanned (boxed_slice_items a.readers); stage = a.stage; extent = a.extent; candidates = boxed_slice_items a.candidates } };

    ghost invariant = { λ a. IsHand (record { query = a.query; indexes = all_scanned (boxed_slice_items a.readers); stage = a.stage; extent = a.extent; candidates = boxed_slice_items a.candidates }) };
}

impl Judging {
    /// Before the first step. Takes all the memory that judging ever needs; where there isn't as much the query comes back.
    pub(crate) fn new(alloc: Global, query: Query, layout: &Layout) -> Result<Judging, Query>
        ensures begins { IfOk result (λ judging. judging ≡ first_hand layout.now query) }
        ensures back { IfErr result (λ back. back ≡ query) }
    {
        let Ok(readers) = readers_of(alloc, layout, query.table) else {
            return Err(query);
        };
        let blocks = layout.sizes().heap_blocks as usize;
        let Ok(candidates) = no_candidates(alloc, blocks) else {
            return Err(query);
        };
        Ok(Judging {
            query,
            readers,
            stage: Stage::Extent,
            extent: 0,
            candidates,
        })
    }

    /// Does nothing; tells its caller what holds of every scan.
    pub(crate) fn known(&self)
        ensures { IsHand self.now }
    {
        let _ = &self.query;
    }

    /// The query.
    pub(crate) fn query(&self) -> &Query
        ensures { result.now ≡ self.now.query }
    {
        &self.query
    }

    /// The query, where the judging is over. Takes no memory.
    pub(crate) fn into_query(self) -> Query
        ensures { result ≡ self.query }
    {
        let Judging { query, .. } = self;
        query
    }

    /// The stage that it is at.
    pub(crate) fn stage(&self) -> Stage
        ensures { result ≡ self.now.stage }
    {
        self.stage
    }

    /// Whether the ranges of all indexes are judged.
    pub(crate) fn is_judged(&self) -> bool
        ensures yes { result ≡ true → self.now.stage ≡ Stage.Judged }
        ensures no { result ≡ false → IsJudging self.now.stage }
    {
        is_judged(self.stage)
    }

    /// Of each block that the table may have, whether it is a candidate.
    pub(crate) fn candidates(&self) -> &[bool]
        ensures { result.now ≡ self.now.candidates }
    {
        &self.candidates
    }

    /// The next step: the block count, a range's entry, or its tuple. After an error nothing is changed. Takes no memory.
    pub(crate) fn step<D: Disk + Drop>(
        &mut self,
        pages: &mut PageStore<D>,
    ) -> Result<(), MachineFault>
        requires scan { IsScanOf pages.old.layout self.old }
        requires work { IsJudging self.old.stage }
        ensures judged { IfOk result (λ done. Tells D.told pages.old → JudgesTo pages.old.layout pages.old.pages self.old self.new) }
        ensures at { IfOk result (λ done. IsBegunAt self.new.indexes self.new.extent self.new.stage) }
        ensures scan { IsScanOf pages.old.layout self.new }
        ensures query { self.new.query ≡ self.old.query }
        ensures same { OnErr result (self.new ≡ self.old) }
        ensures kept { Keeps D.told pages.old pages.new }
        ensures survives { Survives D.told (λ passed. passed ≡ pages.old.pages) pages.old pages.new }
        ensures names { IfErr result (NamesPageAt pages.old.layout self.old.indexes self.old.stage) }
        ensures undamaged { OnOk result (Tells D.told pages.old → IsDamagedAt pages.old.layout pages.old.pages self.old.indexes self.old.stage → ⊥) }
        ensures outcome { ReadOutcome D.told (Tells D.told pages.old → IsDamagedAt pages.old.layout pages.old.pages self.old.indexes self.old.stage) pages.old pages.new result }
    {
        let (extent, stage) = (self.extent, self.stage);
        let (extent, stage) = judge(
            pages,
            &self.query,
            extent,
            stage,
            &mut self.readers,
            &mut self.candidates,
        )?;
        self.extent = extent;
        self.stage = stage;
        Ok(())
    }

    /// Whether all ranges are judged after the next step; `ahead` becomes the candidates that there are then. Changes nothing else, and takes no
    /// memory.
    pub(crate) fn peek<D: Disk + Drop>(
        &mut self,
        pages: &mut PageStore<D>,
        ahead: &mut [bool],
    ) -> Result<bool, MachineFault>
        requires scan { IsScanOf pages.old.layout self.old }
        requires work { IsJudging self.old.stage }
        requires room { length ahead.old ≡ length self.old.candidates }
        ensures comes { IfOk result (λ all. Tells D.told pages.old → ComesTo pages.old.layout pages.old.pages self.old ahead.new all) }
        ensures room { length ahead.new ≡ length ahead.old }
        ensures same { self.new ≡ self.old }
        ensures kept { Keeps D.told pages.old pages.new }
        ensures survives { Survives D.told (λ passed. passed ≡ pages.old.pages) pages.old pages.new }
        ensures names { IfErr result (NamesPageAt pages.old.layout self.old.indexes self.old.stage) }
        ensures outcome { ReadOutcome D.told (Tells D.told pages.old → IsDamagedAt pages.old.layout pages.old.pages self.old.indexes self.old.stage) pages.old pages.new result }
    {
        let (extent, stage) = (self.extent, self.stage);
        ahead.copy_from_slice(&self.candidates);
        let (_, stage) = judge(pages, &self.query, extent, stage, &mut self.readers, ahead)?;
        Ok(is_judged(stage))
    }
}

/// Whether no range is left to judge at this stage.
fn is_judged(stage: Stage) -> bool
    ensures yes { result ≡ true → stage ≡ Stage.Judged }
    ensures no { result ≡ false → IsJudging stage }
{
    matches!(stage, Stage::Judged)
}

/// Of so many blocks none is a candidate. Takes the memory of them.
pub(crate) fn no_candidates(alloc: Global, blocks: usize) -> Result<BoxedSlice<bool>, NoMemory>
    ensures { IfOk result (λ candidates. boxed_slice_items candidates ≡ replicate blocks false) }
{
    let candidates = vec![in alloc; false; blocks]?;
    Ok(candidates.into_boxed_slice())
}

/// The next step at this stage, with the extent and the stage after it.
fn judge<D: Disk + Drop>(
    pages: &mut PageStore<D>,
    query: &Query,
    extent: u32,
    stage: Stage,
    readers: &mut [IndexReader],
    candidates: &mut [bool],
) -> Result<(u32, Stage), MachineFault>
    requires scan { IsScanOf pages.old.layout (hand_at query.now readers.old stage extent candidates.old) }
    requires hand { IsHand (hand_at query.now readers.old stage extent candidates.old) }
    requires work { IsJudging stage }
    ensures judged { IfOk result (λ o. Tells D.told pages.old → JudgesTo pages.old.layout pages.old.pages (hand_at query.now readers.old stage extent candidates.old) (hand_at query.now readers.new o.1 o.0 candidates.new)) }
    ensures at { IfOk result (λ o. IsBegunAt (all_scanned readers.old) o.0 o.1) }
    ensures extent { IfOk result (λ o. o.0 ≤ length candidates.new) }
    ensures indexes { all_scanned readers.new ≡ all_scanned readers.old }
    ensures room { length candidates.new ≡ length candidates.old }
    ensures same { OnErr result (candidates.new ≡ candidates.old) }
    ensures kept { Keeps D.told pages.old pages.new }
    ensures survives { Survives D.told (λ passed. passed ≡ pages.old.pages) pages.old pages.new }
    ensures names { IfErr result (NamesPageAt pages.old.layout (all_scanned readers.old) stage) }
    ensures undamaged { OnOk result (Tells D.told pages.old → IsDamagedAt pages.old.layout pages.old.pages (all_scanned readers.old) stage → ⊥) }
    ensures outcome { ReadOutcome D.told (Tells D.told pages.old → IsDamagedAt pages.old.layout pages.old.pages (all_scanned readers.old) stage) pages.old pages.new result }
{
    match stage {
        Stage::Extent => begin(pages, query.table, readers, candidates),
        Stage::Map { at, range } => {
            let stage = judge_map(pages, readers, extent, at, range)?;
            Ok((extent, stage))
        }
        Stage::Tuple { at, range, spot } => {
            let held = Held { at, range, spot };
            let conds = query.conds.as_slice();
            let stage = judge_tuple(pages, readers, extent, held, conds, candidates)?;
            Ok((extent, stage))
        }
        Stage::Judged => unreachable!(),
    }
}

/// Reads how many blocks the table has: these become the candidates.
fn begin<D: Disk + Drop>(
    pages: &PageStore<D>,
    table: u8,
    readers: &[IndexReader],
    candidates: &mut [bool],
) -> Result<(u32, Stage), MachineFault>
    requires table { table < length pages.now.layout.schema.tables }
    requires room { length candidates.old ≡ pages.now.layout.sizes.heap_blocks }
    ensures judged { IfOk result (λ o. Tells D.told pages.now → (query : AnyQuery) (before : ℕ) → query.table ≡ table → all_scanned readers.now ≡ scanned_indexes pages.now.layout table → JudgesTo pages.now.layout pages.now.pages (hand_at query readers.now Stage.Extent before candidates.old) (hand_at query readers.now o.1 o.0 candidates.new)) }
    ensures at { IfOk result (λ o. IsBegunAt (all_scanned readers.now) o.0 o.1) }
    ensures extent { IfOk result (λ o. o.0 ≤ length candidates.new) }
    ensures room { length candidates.new ≡ length candidates.old }
    ensures same { OnErr result (candidates.new ≡ candidates.old) }
    ensures survives { Survives D.told (λ passed. passed ≡ pages.now.pages) pages.now pages.now }
    ensures names { IfErr result NamesNoPage }
    ensures outcome { ReadOutcome D.told ⊥ pages.now pages.now result }
{
    match pages.ready() {
        Ok(()) => {}
        Err(error) => return Err(MachineFault::Store(error)),
    }
    let extent = blocks(pages, table);
    begin_with(candidates, extent);
    Ok((extent, first_range(readers, extent, 0)))
}

/// Reads the map for a range of the index at that place. A range without an entry is kept.
fn judge_map<D: Disk + Drop>(
    pages: &mut PageStore<D>,
    readers: &[IndexReader],
    extent: u32,
    at: usize,
    range: u32,
) -> Result<Stage, MachineFault>
    requires table { (table : ℕ) × (all_scanned readers.now ≡ scanned_indexes pages.old.layout table) }
    requires pages { All (λ i. 1 ≤ i.pages_per_range) (all_scanned readers.now) }
    requires at { IsAtRange (all_scanned readers.now) extent at range }
    ensures judged { IfOk result (λ stage. Tells D.told pages.old → (query : AnyQuery) (candidates : List Bool) → all_scanned readers.now ≡ scanned_indexes pages.old.layout query.table → JudgesTo pages.old.layout pages.old.pages (hand_at query readers.now (Stage.Map at range) extent candidates) (hand_at query readers.now stage extent candidates)) }
    ensures at { IfOk result (λ stage. IsBegunAt (all_scanned readers.now) extent stage) }
    ensures kept { Keeps D.told pages.old pages.new }
    ensures survives { Survives D.told (λ passed. passed ≡ pages.old.pages) pages.old pages.new }
    ensures names { IfErr result (NamesPageAt pages.old.layout (all_scanned readers.now) (Stage.Map at range)) }
    ensures undamaged { OnOk result (Tells D.told pages.old → IsDamagedAt pages.old.layout pages.old.pages (all_scanned readers.now) (Stage.Map at range) → ⊥) }
    ensures outcome { ReadOutcome D.told (Tells D.told pages.old → IsDamagedAt pages.old.layout pages.old.pages (all_scanned readers.now) (Stage.Map at range)) pages.old pages.new result }
{
    match read_map(pages, readers[at].number, range) {
        Ok(Some(spot)) => Ok(Stage::Tuple { at, range, spot }),
        Ok(None) => Ok(next_range(readers, extent, at, range)),
        Err(error) => Err(MachineFault::Store(error)),
    }
}

/// Reads the tuple of a range at the spot that the map named: where it doesn't keep the conditions, the range's blocks are
/// candidates no more. Where no tuple of the range stands there the map is read again.
fn judge_tuple<D: Disk + Drop>(
    pages: &mut PageStore<D>,
    readers: &mut [IndexReader],
    extent: u32,
    held: Held,
    conds: &[Cond],
    candidates: &mut [bool],
) -> Result<Stage, MachineFault>
    requires table { (table : ℕ) × (all_scanned readers.old ≡ scanned_indexes pages.old.layout table) }
    requires pages { All (λ i. 1 ≤ i.pages_per_range) (all_scanned readers.old) }
    requires at { IsAtRange (all_scanned readers.old) extent held.at held.range }
    requires few { length conds.now ≤ MAX_CONDITIONS }
    ensures judged { IfOk result (λ stage. Tells D.told pages.old → (query : AnyQuery) → query.conds ≡ conds.now → all_scanned readers.old ≡ scanned_indexes pages.old.layout query.table → JudgesTo pages.old.layout pages.old.pages (hand_at query readers.old (Stage.Tuple held.at held.range held.spot) extent candidates.old) (hand_at query readers.new stage extent candidates.new)) }
    ensures at { IfOk result (λ stage. IsBegunAt (all_scanned readers.old) extent stage) }
    ensures indexes { all_scanned readers.new ≡ all_scanned readers.old }
    ensures room { length candidates.new ≡ length candidates.old }
    ensures same { OnErr result (candidates.new ≡ candidates.old) }
    ensures kept { Keeps D.told pages.old pages.new }
    ensures survives { Survives D.told (λ passed. passed ≡ pages.old.pages) pages.old pages.new }
    ensures names { IfErr result (NamesPageAt pages.old.layout (all_scanned readers.old) (Stage.Tuple held.at held.range held.spot)) }
    ensures undamaged { OnOk result (Tells D.told pages.old → IsDamagedAt pages.old.layout pages.old.pages (all_scanned readers.old) (Stage.Tuple held.at held.range held.spot) → ⊥) }
    ensures outcome { ReadOutcome D.told (Tells D.told pages.old → IsDamagedAt pages.old.layout pages.old.pages (all_scanned readers.old) (Stage.Tuple held.at held.range held.spot)) pages.old pages.new result }
{
    let Held { at, range, spot } = held;
    let judged = {
        let reader = &mut readers[at];
        read_tuple(pages, reader, range, spot, conds)
    };
    match judged {
        Ok(Judged::Gone) => Ok(Stage::Map { at, range }),
        Ok(Judged::Kept) => Ok(next_range(readers, extent, at, range)),
        Ok(Judged::LeftOut) => {
            leave_out(candidates, readers[at].pages_per_range, range);
            Ok(next_range(readers, extent, at, range))
        }
        Err(fault) => Err(fault),
    }
}

/// What the tuple of a range tells.
#[derive(Clone, Copy)]
enum Judged {
    /// No tuple of the range stands there.
    Gone,
    /// It keeps the conditions.
    Kept,
    /// It doesn't.
    LeftOut,
}

/// Reads the tuple of a range of the reader's index at the spot.
fn read_tuple<D: Disk + Drop>(
    pages: &mut PageStore<D>,
    reader: &mut IndexReader,
    range: u32,
    spot: Spot,
    conds: &[Cond],
) -> Result<Judged, MachineFault>
    requires index { reader.old.number < length pages.old.layout.schema.indexes }
    requires classes { parts_of reader.old.tuple.columns ≡ classes_of (shape_of pages.old.layout reader.old.number) }
    requires few { length conds.now ≤ MAX_CONDITIONS }
    ensures tells { IfOk result (λ judged. Tells D.told pages.old → SaysOfRange (shape_of pages.old.layout reader.old.number) (contents pages.old.layout pages.old.pages reader.old.number) range spot conds.now judged) }
    ensures scanned { scanned reader.new ≡ scanned reader.old }
    ensures kept { Keeps D.told pages.old pages.new }
    ensures survives { Survives D.told (λ passed. passed ≡ pages.old.pages) pages.old pages.new }
    ensures names { IfErr result (FaultNamesPageOf pages.old.layout reader.old.number) }
    ensures undamaged { OnOk result (Tells D.told pages.old → IsMisread (shape_of pages.old.layout reader.old.number) (contents pages.old.layout pages.old.pages reader.old.number) range spot → ⊥) }
    ensures outcome { ReadOutcome D.told (Tells D.told pages.old → IsMisread (shape_of pages.old.layout reader.old.number) (contents pages.old.layout pages.old.pages reader.old.number) range spot) pages.old pages.new result }
{
    a_row_is_included_as_tested();
    match judge_at(pages, reader.number, range, spot, conds, &mut reader.tuple) {
        Ok(Some(true)) => Ok(Judged::Kept),
        Ok(Some(false)) => Ok(Judged::LeftOut),
        Ok(None) => Ok(Judged::Gone),
        Err(error) => Err(MachineFault::Store(error)),
    }
}
