//! An insert over all indexes of its table.

ghost use Rattle.std.specs.Prelude.{◌≡◌, ◌+◌, ◌<◌, ◌≤◌, All, ℕ, None, Some, true, false, IsSome, length, slice_get, vec_capacity, IfOk, IfErr, IfSome, OnOk, OnErr};
ghost use Rattle.block_model.specs.declared.place.Spot.{Spot as AnySpot};
ghost use Rattle.store_layout.specs.DiskLayout.{DiskLayout};
ghost use Rattle.page_layout.specs.RowBytes.{HaveKinds};
ghost use Rattle.page_map.specs.Keeps.{Keeps, Tells, Untold};
ghost use Rattle.page_map.specs.Outcome.{Outcome};
ghost use Rattle.heap_rows.specs.Survives.{Survives};
ghost use Rattle.index_contents.specs.IndexContents.{contents};
ghost use Rattle.page_locks.specs.LockCounts.{locks_of};
ghost use Rattle.page_locks.specs.LockHolders.{LockState, count_of, holder};
ghost use Rattle.heap_rows.specs.HeapBlocks.{OfBlocks};
ghost use Rattle.heap_rows.specs.Heaps.{kinds_at};
ghost use Rattle.index_contents.specs.KeepsOrder.{KeepsOrder};
ghost use Rattle.index_steps.specs.IndexTuples.{TakesValues, shape_of};
ghost use Rattle.index_steps.specs.Readings.{NamesPageOf};
ghost use Rattle.index_steps.specs.StepAnswers.{IsOfStore, NeverBlocked};
ghost use Rattle.index_steps.specs.SwapAnswers.{LeavesLocks, MachineOutcome, StaysWhereFull, TakesAtMost};
ghost use Rattle.brin_insert.specs.declared.stage.Stage.TheVariants as stages;
ghost use Rattle.brin_insert.specs.InsertAnswers.{BlockedOn, FaultNamesRelation, InsertStepped, IsInsertFull, IsLeftBy, LeavesOtherRelations, SaysInsertFull, StandsPlaced, TakesFirstPlace, TakesPlaceWithin, WaitsForNoRow, relation_at};
ghost use Rattle.brin_insert.specs.InsertLocks.{held_by, stage_of, taken_by};
ghost use Rattle.brin_insert.specs.AskedFor.{AsksFirst, AsksNothingMore, InsertAsks, IsAsked};
ghost use Rattle.brin_insert.specs.InsertHands.{InsertHand};
ghost use Rattle.brin_insert.specs.Inserts.{AsksIn, HasReached, HasStepLeft, IsInsertFor, IsOfIndexes, IsOfItsIndex, numbers_in, task_of, work_of};
ghost use Rattle.index_steps.specs.ShownRows.{ShowsKept, shown_by};
ghost use Rattle.index_steps.specs.ShownTable.{indexes_of};

use crate::Queue;
use crate::index_insert::IndexInsert;
use crate::indexes::{asks_at, index_count, range_in};
use crate::laws::{a_kept_table_is_read, a_row_is_put_in_its_table, an_insert_steps_in_its_table};
use block_model::{NoMemory, Point, Row, Spot};
use disk_trait::Disk;
use heap_rows::{PageStore, put};
use index_steps::{Scratch, declared_index, entry, rows_of_the_table_are_taken};
use page_locks::{Did, Locks};
use page_map::{MachineFault, StoreError};
use std::alloc::Global;
use store_layout::Layout;

/// An insert of a row into its table: where the row stands, once it is put; the index that is next, by its place among the table's, and
/// whether it has to ask for a summary before its work there; the work in each of them; and the summaries that it asked for in vain.
#[derive(Debug, Drop)]
pub struct Insert {
    row: Row,
    place: Option<Spot>,
    at: usize,
    asking: bool,
    works: Vec<IndexInsert>,
    dropped: Vec<(u8, u32)>,
    copied: Scratch,
}

impl Insert {
    /// Before its first step. Takes all the memory that it ever needs.
    pub fn new(alloc: Global, row: Row, layout: &Layout) -> Result<Insert, NoMemory>
        requires table { row.table < length layout.now.schema.tables }
        requires kinds { HaveKinds (kinds_at layout.now row.table) row.values }
        ensures made { IfOk result (IsInsertFor layout.now) }
        ensures begins { IfOk result (λ insert. (insert.row ≡ row) × (insert.place ≡ None)) }
    {
        rows_are_taken(layout, &row);
        let works = works_for(alloc, layout, row.table)?;
        let dropped = Vec::with_capacity(alloc, works.len())?;
        let copied = Scratch::new(alloc)?;
        Ok(Insert {
            row,
            place: None,
            at: 0,
            asking: false,
            works,
            dropped,
            copied,
        })
    }

    /// Before its first step, for another row of the table. Takes no memory.
    pub fn begin(&mut self, row: Row, layout: &Layout)
        requires made { IsInsertFor layout.now self.old }
        requires table { row.table ≡ self.old.row.table }
        requires kinds { HaveKinds (kinds_at layout.now row.table) row.values }
        ensures made { IsInsertFor layout.now self.new }
        ensures begins { (self.new.row ≡ row) × (self.new.place ≡ None) }
    {
        rows_are_taken(layout, &row);
        self.row = row;
        self.place = None;
        self.asking = false;
        self.dropped.clear();
    }

    /// Where the row stands; nowhere before the first step.
    pub fn place(&self) -> Option<Spot>
        ensures { result ≡ self.now.place }
    {
        self.place
    }

    /// The row.
    pub fn row(&self) -> &Row
        ensures { result.now ≡ self.now.row }
    {
        &self.row
    }

    /// The number of the index that is next, among all indexes.
    pub fn index(&self) -> u8
        requires { IsSome (work_of self.now) }
        ensures { IfSome (work_of self.now) (λ hand. result ≡ hand.index) }
    {
        let at = self.at;
        let works = &self.works;
        works[at].index()
    }

    /// The summaries, each of an index and a range, for which it found the queue full, in order.
    pub fn dropped(&self) -> &[(u8, u32)]
        ensures { result.now ≡ self.now.dropped.items }
    {
        self.dropped.as_slice()
    }

    /// The next step, over any pages that show a kept table in which the session has this insert in hand: the row is put, or the next
    /// step in the index that is next is made. `Finished` comes with the last one. Blocked, by page and holder, where another session
    /// locks a page that the step changes; Full, with its number, exactly where no place is left for the row, or no page of the index
    /// for the tuple with the row. Damage is told only where the disk doesn't tell its contents. Where the step is blocked nothing is
    /// changed; after an error no page is, and at Full no lock; where the store refuses a move, it may have its three locks. The row
    /// stands where the first step put it. At every answer the pages of each index stand in order, if they did before. Takes no memory.
    pub fn step<D: Disk + Drop>(
        &mut self,
        pages: &mut PageStore<D>,
        locks: &mut Locks,
        queue: &mut Queue,
        actor: u32,
    ) -> Result<Did, MachineFault>
        requires made { IsInsertFor pages.old.layout self.old }
        requires left { HasStepLeft self.old }
        requires locks { (x : AnySpot) → stage_of self.old ≡ Some (stages.Swap x) → count_of locks.old + 3 ≤ locks.old.limit }
        requires kept { Tells D.told pages.old → ShowsKept pages.old.layout pages.old.pages locks.old actor self.old.row.table (task_of pages.old.layout self.old) }
        ensures stepped { IfOk result (λ did. OfBlocks D.told pages.old self.old.row.table (InsertStepped pages.old.layout pages.old.pages pages.new.pages locks.old locks.new actor self.old self.new did)) }
        ensures asked { OnOk result (Tells D.told pages.old → InsertAsks pages.old.layout pages.old.pages self.old self.new queue.old queue.new) }
        ensures asks { IfOk result (AsksFirst self.old.asking) }
        ensures plain { AsksNothingMore self.old.asking queue.old queue.new self.old.dropped.items self.new.dropped.items }
        ensures queue { OnErr result (queue.new ≡ queue.old) }
        ensures dropped { OnErr result (self.new.dropped.items ≡ self.old.dropped.items) }
        ensures left { IfOk result (IsLeftBy self.new) }
        ensures placed { OnOk result (StandsPlaced self.old.place self.new.place) }
        ensures first_place { OnOk result (OfBlocks D.told pages.old self.old.row.table (TakesFirstPlace pages.old.layout self.old.place self.new.place)) }
        ensures within { OnOk result (TakesPlaceWithin pages.old.layout self.old.row.table self.old.place self.new.place) }
        ensures first { IfOk result (WaitsForNoRow self.old.place) }
        ensures blocked { IfOk result (BlockedOn D.told (relation_at pages.old.layout self.old) actor pages.old pages.new locks.old locks.new) }
        ensures full { IfErr result (SaysInsertFull (relation_at pages.old.layout self.old) (λ number. OfBlocks D.told pages.old self.old.row.table (λ blocks. IsInsertFull actor self.old.at (shown_by pages.old.layout pages.old.pages locks.old self.old.row.table blocks) (task_of pages.old.layout self.old) number))) }
        ensures made { IsInsertFor pages.old.layout self.new }
        ensures same_row { self.new.row ≡ self.old.row }
        ensures stays { OnErr result (task_of pages.old.layout self.new ≡ task_of pages.old.layout self.old) }
        ensures same_place { OnErr result (self.new.place ≡ self.old.place) }
        ensures same_stage { OnErr result (stage_of self.new ≡ stage_of self.old) }
        ensures still_left { OnErr result (HasStepLeft self.new) }
        ensures others { LeavesOtherRelations D.told (relation_at pages.old.layout self.old) pages.old pages.new }
        ensures order { (n : ℕ) → n < length pages.old.layout.schema.indexes → KeepsOrder D.told n pages.old pages.new }
        ensures locks { LeavesLocks (holder locks.old) (holder locks.new) (relation_at pages.old.layout self.old) actor }
        ensures at_full { IfErr result (StaysWhereFull locks.old locks.new) }
        ensures counts { TakesAtMost (taken_by (stage_of self.old)) locks.old locks.new actor }
        ensures given { OnOk result ((x : AnySpot) → stage_of self.old ≡ Some (stages.Drop x) → locks_of locks.new actor ≡ 0) }
        ensures own { OnOk result (locks_of locks.old actor ≤ held_by (stage_of self.old) → locks_of locks.new actor ≤ held_by (stage_of self.new)) }
        // The change itself isn't sure before the next flush.
        ensures survives { Survives D.told (λ passed. passed ≡ pages.old.pages) pages.old pages.new }
        ensures kept { OnErr result (Keeps D.told pages.old pages.new) }
        ensures at { IfErr result (FaultNamesRelation pages.old.layout (relation_at pages.old.layout self.old)) }
        ensures outcome { MachineOutcome D.told (Untold D.told pages.old) pages.old pages.new result }
    {
        if self.asking {
            return match self.ask(pages, queue) {
                Ok(did) => Ok(did),
                Err(fault) => Err(fault),
            };
        }
        match self.go_on(pages, locks, actor) {
            Ok(did) => Ok(did),
            Err(fault) => Err(fault),
        }
    }

    /// The next step of an insert that has no summary to ask for: its row is put, or the next step in the index that is next is made.
    fn go_on<D: Disk + Drop>(
        &mut self,
        pages: &mut PageStore<D>,
        locks: &mut Locks,
        actor: u32,
    ) -> Result<Did, MachineFault>
        requires plain { self.old.asking ≡ false }
        requires made { IsInsertFor pages.old.layout self.old }
        requires left { HasStepLeft self.old }
        requires locks { (x : AnySpot) → stage_of self.old ≡ Some (stages.Swap x) → count_of locks.old + 3 ≤ locks.old.limit }
        requires kept { Tells D.told pages.old → ShowsKept pages.old.layout pages.old.pages locks.old actor self.old.row.table (task_of pages.old.layout self.old) }
        ensures stepped { IfOk result (λ did. OfBlocks D.told pages.old self.old.row.table (InsertStepped pages.old.layout pages.old.pages pages.new.pages locks.old locks.new actor self.old self.new did)) }
        ensures same_dropped { self.new.dropped.items ≡ self.old.dropped.items }
        ensures left { IfOk result (IsLeftBy self.new) }
        ensures placed { OnOk result (StandsPlaced self.old.place self.new.place) }
        ensures first_place { OnOk result (OfBlocks D.told pages.old self.old.row.table (TakesFirstPlace pages.old.layout self.old.place self.new.place)) }
        ensures within { OnOk result (TakesPlaceWithin pages.old.layout self.old.row.table self.old.place self.new.place) }
        ensures first { IfOk result (WaitsForNoRow self.old.place) }
        ensures blocked { IfOk result (BlockedOn D.told (relation_at pages.old.layout self.old) actor pages.old pages.new locks.old locks.new) }
        ensures full { IfErr result (SaysInsertFull (relation_at pages.old.layout self.old) (λ number. OfBlocks D.told pages.old self.old.row.table (λ blocks. IsInsertFull actor self.old.at (shown_by pages.old.layout pages.old.pages locks.old self.old.row.table blocks) (task_of pages.old.layout self.old) number))) }
        ensures made { IsInsertFor pages.old.layout self.new }
        ensures same_row { self.new.row ≡ self.old.row }
        ensures stays { OnErr result (task_of pages.old.layout self.new ≡ task_of pages.old.layout self.old) }
        ensures same_place { OnErr result (self.new.place ≡ self.old.place) }
        ensures same_stage { OnErr result (stage_of self.new ≡ stage_of self.old) }
        ensures still_left { OnErr result (HasStepLeft self.new) }
        ensures others { LeavesOtherRelations D.told (relation_at pages.old.layout self.old) pages.old pages.new }
        ensures order { (n : ℕ) → n < length pages.old.layout.schema.indexes → KeepsOrder D.told n pages.old pages.new }
        ensures locks { LeavesLocks (holder locks.old) (holder locks.new) (relation_at pages.old.layout self.old) actor }
        ensures at_full { IfErr result (StaysWhereFull locks.old locks.new) }
        ensures counts { TakesAtMost (taken_by (stage_of self.old)) locks.old locks.new actor }
        ensures given { OnOk result ((x : AnySpot) → stage_of self.old ≡ Some (stages.Drop x) → locks_of locks.new actor ≡ 0) }
        ensures own { OnOk result (locks_of locks.old actor ≤ held_by (stage_of self.old) → locks_of locks.new actor ≤ held_by (stage_of self.new)) }
        ensures survives { Survives D.told (λ passed. passed ≡ pages.old.pages) pages.old pages.new }
        ensures kept { OnErr result (Keeps D.told pages.old pages.new) }
        ensures at { IfErr result (FaultNamesRelation pages.old.layout (relation_at pages.old.layout self.old)) }
        ensures outcome { MachineOutcome D.told (Untold D.told pages.old) pages.old pages.new result }
    {
        an_insert_steps_in_its_table();
        a_kept_table_is_read();
        a_row_is_put_in_its_table();
        match self.place {
            None => match put(
                pages,
                self.row.table,
                self.row.id,
                self.row.values.as_slice(),
            ) {
                Ok(spot) => {
                    self.place = Some(spot);
                    self.at = 0;
                    let did = self.reach(pages.layout(), spot, Point::Row);
                    Ok(did)
                }
                Err(fault) => Err(fault),
            },
            Some(spot) => {
                let at = self.at;
                let values = self.row.values.as_slice();
                let copied = &mut self.copied;
                let work = &mut self.works[at];
                let range = range_in(pages.layout(), work.index(), spot.block);
                match work.step(pages, locks, range, actor, values, copied) {
                    Ok(Did::Moved(point)) => Ok(Did::Moved(point)),
                    Ok(Did::Finished(point)) => {
                        self.at = at + 1;
                        let answer = self.reach(pages.layout(), spot, point);
                        Ok(answer)
                    }
                    Ok(Did::Blocked(held)) => Ok(Did::Blocked(held)),
                    Ok(Did::NoRight { .. }) => unreachable!(),
                    Err(fault) => Err(fault),
                }
            }
        }
    }

    /// Asks for a summary of the range before the row's, where that has no entry: so its work in the index can begin.
    fn ask<D: Disk + Drop>(
        &mut self,
        pages: &mut PageStore<D>,
        queue: &mut Queue,
    ) -> Result<Did, MachineFault>
        requires made { IsInsertFor pages.old.layout self.old }
        requires asking { self.old.asking ≡ true }
        ensures stepped { IfOk result (λ did. OfBlocks D.told pages.old self.old.row.table (λ blocks. (locks : LockState) (actor : ℕ) → InsertStepped pages.old.layout pages.old.pages pages.new.pages locks locks actor self.old self.new did blocks)) }
        ensures asked { OnOk result (Tells D.told pages.old → InsertAsks pages.old.layout pages.old.pages self.old self.new queue.old queue.new) }
        ensures asks { IfOk result (λ did. did ≡ Did.Moved Point.Ask) }
        ensures queue { OnErr result (queue.new ≡ queue.old) }
        ensures left { IfOk result (IsLeftBy self.new) }
        ensures made { IsInsertFor pages.old.layout self.new }
        ensures same { (self.new.row ≡ self.old.row) × (self.new.place ≡ self.old.place) × (stage_of self.new ≡ stage_of self.old) }
        ensures begun { stage_of self.old ≡ Some stages.Map }
        ensures stands { (x : AnySpot) × (self.old.place ≡ Some x) }
        ensures stays { OnErr result (self.new ≡ self.old) }
        ensures kept { Keeps D.told pages.old pages.new }
        ensures survives { Survives D.told (λ passed. passed ≡ pages.old.pages) pages.old pages.new }
        ensures never_blocked { IfOk result NeverBlocked }
        ensures of_store { IfErr result IsOfStore }
        ensures at { IfErr result (FaultNamesRelation pages.old.layout (relation_at pages.old.layout self.old)) }
        ensures outcome { MachineOutcome D.told (Untold D.told pages.old) pages.old pages.new result }
    {
        let Some(spot) = self.place else {
            unreachable!()
        };
        let at = self.at;
        let work = &self.works[at];
        let index = work.index();
        let range = range_in(pages.layout(), index, spot.block) - 1;
        match ask_at(pages, queue, &mut self.dropped, index, range) {
            Ok(()) => {
                self.asking = false;
                Ok(Did::Moved(Point::Ask))
            }
            Err(error) => Err(MachineFault::Store(error)),
        }
    }

    /// Begins the work in the index that is next, if there is one: so the insert asks for a summary, goes on, or is complete.
    fn reach(&mut self, layout: &Layout, spot: Spot, point: Point) -> Did
        requires { (hand : InsertHand) → work_of self.old ≡ Some hand → hand.index < length layout.now.schema.indexes }
        ensures rest { (self.new.row ≡ self.old.row) × (self.new.place ≡ self.old.place) × (self.new.at ≡ self.old.at) × (self.new.copied ≡ self.old.copied) × (self.new.dropped.items ≡ self.old.dropped.items) × (vec_capacity self.new.dropped ≡ vec_capacity self.old.dropped) }
        ensures numbers { numbers_in self.new.works.items ≡ numbers_in self.old.works.items }
        ensures tuples { (layout : DiskLayout) → All (IsOfItsIndex layout) self.old.works.items → All (IsOfItsIndex layout) self.new.works.items }
        ensures reached { HasReached point result (work_of self.new) }
        ensures asks { self.new.asking ≡ true → AsksIn layout.now spot (work_of self.new) }
        ensures plain { self.new.asking ≡ false → AsksIn layout.now spot (work_of self.new) → ⊥ }
    {
        let at = self.at;
        self.asking = false;
        if at >= self.works.len() {
            return Did::Finished(point);
        }
        let work = &mut self.works[at];
        work.begin();
        self.asking = asks_at(layout, work.index(), spot);
        Did::Moved(point)
    }
}

/// Asks for a summary of the range, if that has no entry in the index.
fn ask_at<D: Disk + Drop>(
    pages: &mut PageStore<D>,
    queue: &mut Queue,
    dropped: &mut Vec<(u8, u32)>,
    index: u8,
    range: u32,
) -> Result<(), StoreError>
    requires index { index < length pages.old.layout.schema.indexes }
    requires room { length dropped.old.items < vec_capacity dropped.old }
    ensures asked { OnOk result (Tells D.told pages.old → IsAsked (index, range) queue.old queue.new dropped.old.items dropped.new.items ((contents pages.old.layout pages.old.pages index).entry range)) }
    ensures queue { OnErr result (queue.new ≡ queue.old) }
    ensures dropped { OnErr result (dropped.new ≡ dropped.old) }
    ensures few { length dropped.new.items ≤ length dropped.old.items + 1 }
    ensures named { (count : ℕ) → index < count → All (IsOfIndexes count) dropped.old.items → All (IsOfIndexes count) dropped.new.items }
    ensures capacity { vec_capacity dropped.new ≡ vec_capacity dropped.old }
    ensures kept { Keeps D.told pages.old pages.new }
    ensures survives { Survives D.told (λ passed. passed ≡ pages.old.pages) pages.old pages.new }
    ensures at { IfErr result (NamesPageOf pages.old.layout index) }
    ensures outcome { Outcome D.told (Untold D.told pages.old) pages.old pages.new result }
{
    match entry(pages, index, range) {
        Ok(Some(_)) => Ok(()),
        Ok(None) => {
            ask_for(queue, dropped, index, range);
            Ok(())
        }
        Err(error) => Err(error),
    }
}

/// The request for a summary of the range joins the queue; where that is full, it is asked for in vain.
fn ask_for(queue: &mut Queue, dropped: &mut Vec<(u8, u32)>, index: u8, range: u32)
    requires room { length dropped.old.items < vec_capacity dropped.old }
    ensures asked { IsAsked (index, range) queue.old queue.new dropped.old.items dropped.new.items None }
    ensures few { length dropped.new.items ≤ length dropped.old.items + 1 }
    ensures named { (count : ℕ) → index < count → All (IsOfIndexes count) dropped.old.items → All (IsOfIndexes count) dropped.new.items }
    ensures capacity { vec_capacity dropped.new ≡ vec_capacity dropped.old }
{
    if !queue.ask(index, range) {
        dropped.push_reserved((index, range));
    }
}

/// The work in each index of the table, in the order of their declarations, before its first step.
fn works_for(alloc: Global, layout: &Layout, table: u8) -> Result<Vec<IndexInsert>, NoMemory>
    ensures numbers { IfOk result (λ works. numbers_in works.items ≡ indexes_of layout.now table) }
    ensures tuples { IfOk result (λ works. All (IsOfItsIndex layout.now) works.items) }
{
    let mut works = Vec::new(alloc);
    'indexes: for index in 0..index_count(layout) {
        if declared_index(layout, index).table == table {
            let work = IndexInsert::new(alloc, layout, index)?;
            works.push(work)?;
        }
    }
    Ok(works)
}

/// Does nothing; tells its caller that each index of the table takes its rows.
fn rows_are_taken(layout: &Layout, row: &Row)
    requires table { row.now.table < length layout.now.schema.tables }
    requires kinds { HaveKinds (kinds_at layout.now row.now.table) row.now.values }
    ensures { (at n : ℕ) → slice_get (indexes_of layout.now row.now.table) at ≡ Some n → TakesValues (shape_of layout.now n) row.now.values }
{
    layout.known();
    rows_of_the_table_are_taken();
}
