//! A summarise of an index, range after range.

ghost use Rattle.std.specs.Prelude.{◌≡◌, ◌≢◌, ◌+◌, ◌<◌, ◌≤◌, List, Option, ℕ, length, IfOk, IfErr, OnErr, OnOk};
ghost use Rattle.page_map.specs.Keeps.{Keeps, Tells, Untold};
ghost use Rattle.page_store.specs.Survives.{Survives};
ghost use Rattle.page_locks.specs.LockCounts.{locks_of};
ghost use Rattle.page_locks.specs.LockHolders.{LockState, count_of as locks_held, holder};
ghost use Rattle.heap_rows.specs.HeapBlocks.{OfBlocks};
ghost use Rattle.index_contents.specs.IndexContents.{relation_of};
ghost use Rattle.index_contents.specs.IndexChanges.{LeavesOthers};
ghost use Rattle.index_contents.specs.KeepsOrder.{KeepsOrder};
ghost use Rattle.index_steps.specs.StepAnswers.{BlockedWell, IsOfStore, NeverBlocked};
ghost use Rattle.index_steps.specs.SwapAnswers.{LeavesLocks, MachineOutcome, SaysFullIn, StaysWhereFull, TakesAtMost};
ghost use Rattle.summarise_core.specs.SummariseHands.{table_of};
ghost use Rattle.summarise_core.specs.StepCauses.{NamesPageAt};
ghost use Rattle.summarise_core.specs.Summarises.{DamageIn, FullAt, GivesBy, IsSummariseOf, KeepsExact, ReadyAt, RightAnswers, StandsThen, StaysWithoutRight, SummariseDoes, count_of, held_by, state_of, step_of, taken_by};

use crate::course::{
    Course, Standing, a_summarise_begins_without_locks, come_to, first_of, made_at,
};
use crate::wish::Wish;
use crate::{RangeSummarise, blocks_a_range, table_of};
use block_model::{NoMemory, Point};
use disk_trait::Disk;
use heap_rows::blocks;
use index_steps::Within;
use page_locks::{Did, Locks, Rights};
use page_map::MachineFault;
use page_store::PageStore;
use std::alloc::Global;
use std::marker::Model;
use store_layout::Layout;

/// A summarise of an index: the index, how far it has come over the ranges, and the work at the range that it is at.
#[derive(Debug, Drop)]
pub struct Summarise {
    index: u8,
    course: Course,
    work: RangeSummarise,
}

impl Model for Summarise {
    ghost use Rattle.std.specs.Prelude.{◌≤◌};
    ghost use Rattle.summarise_core.specs.Summarises.{SummariseState, state_of};

    ghost Value = { SummariseState };

    ghost view = { λ a. state_of a.index a.course a.work };

    ghost invariant = { λ a. a.course.made ≤ 131072 };
}

impl Summarise {
    /// Before the first step. Takes all the memory that the summarise ever needs.
    pub fn new(alloc: Global, index: u8, wish: Wish, layout: &Layout) -> Result<Summarise, NoMemory>
        requires { index < length layout.now.schema.indexes }
        ensures begins { IfOk result (λ summarise. summarise.standing ≡ Standing.Begins) }
        ensures index { IfOk result (λ summarise. summarise.index ≡ index) }
        ensures wish { IfOk result (λ summarise. summarise.wish ≡ wish) }
        ensures of { IfOk result (IsSummariseOf layout.now) }
    {
        let work = RangeSummarise::new(alloc, layout, index)?;
        Ok(Summarise {
            index,
            course: Course {
                wish,
                standing: Standing::Begins,
                extent: 0,
                range: 0,
                made: 0,
            },
            work,
        })
    }

    /// The number of its index.
    pub fn index(&self) -> u8
        ensures { result ≡ self.now.index }
    {
        self.index
    }

    /// How many ranges it has given a final tuple.
    pub fn count(&self) -> u64
        ensures { result ≡ count_of self.now }
    {
        match self.course.standing {
            Standing::Begins => 0,
            Standing::AtRange => self.course.made + u64::from(made_at(self.work.stage())),
            Standing::Done => self.course.made,
        }
    }

    /// The next step. The first one takes the summarise lock of the index's table, and reads the extent; the lock is the caller's to give
    /// once the summarise is done. Where a step is blocked, or lacks the summarise lock, nothing is changed; after an error no page is.
    /// Takes no memory.
    pub fn step<D: Disk + Drop>(
        &mut self,
        pages: &mut PageStore<D>,
        locks: &mut Locks,
        rights: &mut Rights,
        actor: u32,
    ) -> Result<Did, MachineFault>
        requires of { IsSummariseOf pages.old.layout self.old }
        requires left { self.old.standing ≢ Standing.Done }
        requires rights { length pages.old.layout.schema.tables ≤ length rights.old }
        requires locks { 0 < taken_by self.old → locks_held locks.old + taken_by self.old ≤ locks.old.limit }
        requires ready { Tells D.told pages.old → ReadyAt pages.old.layout pages.old.pages self.old }
        ensures does { IfOk result (λ did. OfBlocks D.told pages.old (table_of pages.old.layout self.old.index) (λ blocks. SummariseDoes (step_of pages.old.layout pages.old.pages pages.new.pages locks.old locks.new rights.old rights.new actor blocks) self.old self.new did)) }
        ensures exact { IfOk result (λ did. OfBlocks D.told pages.old (table_of pages.old.layout self.old.index) (λ blocks. KeepsExact pages.old.layout blocks self.old self.new)) }
        ensures stands { IfOk result (StandsThen self.old self.new) }
        ensures of { IsSummariseOf pages.old.layout self.new }
        ensures same_index { self.new.index ≡ self.old.index }
        ensures same_wish { self.new.wish ≡ self.old.wish }
        ensures right { IfOk result (RightAnswers (table_of pages.old.layout self.old.index) actor rights.old rights.new self.old.standing) }
        ensures rights { OnErr result (rights.new ≡ rights.old) }
        ensures blocked { IfOk result (BlockedWell D.told self.old.index actor pages.old pages.new locks.old locks.new) }
        ensures no_right { IfOk result (StaysWithoutRight D.told pages.old pages.new locks.old locks.new) }
        ensures full { IfErr result (SaysFullIn pages.old.layout self.old.index (λ number. Tells D.told pages.old → FullAt pages.old.layout pages.old.pages locks.old actor self.old number)) }
        ensures at_full { IfErr result (StaysWhereFull locks.old locks.new) }
        ensures others { LeavesOthers D.told self.old.index pages.old pages.new }
        ensures order { KeepsOrder D.told self.old.index pages.old pages.new }
        ensures locks { LeavesLocks (holder locks.old) (holder locks.new) (relation_of pages.old.layout self.old.index) actor }
        ensures counts { TakesAtMost (taken_by self.old) locks.old locks.new actor }
        ensures given { OnOk result (GivesBy self.old → locks_of locks.new actor ≡ 0) }
        ensures own { OnOk result (locks_of locks.old actor ≤ held_by self.old → locks_of locks.new actor ≤ held_by self.new) }
        ensures stays { OnErr result ((self.new ≡ record self.old { hand = self.new.hand }) × (self.new.hand.stage ≡ self.old.hand.stage) × (self.new.hand.growth.stage ≡ self.old.hand.growth.stage)) }
        // The changes themselves aren't sure before the next flush.
        ensures survives { Survives D.told (λ passed. passed ≡ pages.old.pages) pages.old pages.new }
        ensures kept { OnErr result (Keeps D.told pages.old pages.new) }
        ensures undamaged { OnOk result (Tells D.told pages.old → DamageIn pages.old.layout pages.old.pages self.old → ⊥) }
        ensures at { IfErr result (NamesPageAt pages.old.layout self.old.index self.old.hand.stage) }
        ensures outcome { MachineOutcome D.told (Tells D.told pages.old → DamageIn pages.old.layout pages.old.pages self.old) pages.old pages.new result }
    {
        a_summarise_begins_without_locks();
        let index = self.index;
        match self.course.standing {
            Standing::Begins => {
                match begin(
                    &mut self.course,
                    &mut self.work,
                    pages,
                    rights,
                    index,
                    actor,
                ) {
                    Ok(did) => Ok(did),
                    Err(fault) => Err(fault),
                }
            }
            Standing::AtRange => {
                go_on(&mut self.course, &mut self.work, pages, locks, index, actor)
            }
            Standing::Done => unreachable!(),
        }
    }
}

/// Takes the summarise lock of the table, and reads its extent: comes to the first range, if there is one.
fn begin<D: Disk + Drop>(
    course: &mut Course,
    work: &mut RangeSummarise,
    pages: &PageStore<D>,
    rights: &mut Rights,
    index: u8,
    actor: u32,
) -> Result<Did, MachineFault>
    requires of { IsSummariseOf pages.now.layout (state_of index course.old work.old) }
    requires begins { course.old.standing ≡ Standing.Begins }
    requires rights { length pages.now.layout.schema.tables ≤ length rights.old }
    ensures does { IfOk result (λ did. OfBlocks D.told pages.now (table_of pages.now.layout index) (λ blocks. (locks : LockState) → SummariseDoes (step_of pages.now.layout pages.now.pages pages.now.pages locks locks rights.old rights.new actor blocks) (state_of index course.old work.old) (state_of index course.new work.new) did)) }
    ensures exact { IfOk result (λ did. OfBlocks D.told pages.now (table_of pages.now.layout index) (λ blocks. KeepsExact pages.now.layout blocks (state_of index course.old work.old) (state_of index course.new work.new))) }
    ensures stands { IfOk result (StandsThen (state_of index course.old work.old) (state_of index course.new work.new)) }
    ensures holds_none { held_by (state_of index course.new work.new) ≡ 0 }
    ensures stays { OnErr result ((state_of index course.new work.new ≡ record (state_of index course.old work.old) { hand = work.new }) × (work.new.stage ≡ work.old.stage) × (work.new.growth.stage ≡ work.old.growth.stage)) }
    ensures of { IsSummariseOf pages.now.layout (state_of index course.new work.new) }
    ensures right { IfOk result (RightAnswers (table_of pages.now.layout index) actor rights.old rights.new Standing.Begins) }
    ensures rights { OnErr result (rights.new ≡ rights.old) }
    ensures still { Survives D.told (λ passed. ⊥) pages.now pages.now }
    ensures at_full { IfErr result (λ fault. (locks : LockState) → StaysWhereFull locks locks fault) }
    ensures never_blocked { IfOk result NeverBlocked }
    ensures no_right { IfOk result (λ did. (locks : LockState) → StaysWithoutRight D.told pages.now pages.now locks locks did) }
    ensures same_wish { course.new.wish ≡ course.old.wish }
    ensures of_store { IfErr result IsOfStore }
    ensures at { IfErr result (NamesPageAt pages.now.layout index work.old.stage) }
    ensures outcome { MachineOutcome D.told (Untold D.told pages.now) pages.now pages.now result }
{
    match pages.ready() {
        Ok(()) => {}
        Err(error) => return Err(MachineFault::Store(error)),
    }
    let layout = pages.layout();
    layout.known();
    let table = table_of(layout, index);
    let in_range = blocks_a_range(layout, index);
    match rights.take(table, actor) {
        Ok(()) => {}
        Err(by) => return Ok(Did::NoRight { by }),
    }
    let extent = blocks(pages, table);
    course.extent = u64::from(extent);
    course.range = first_of(course.wish, in_range);
    course.made = 0;
    if come_to(course, work, in_range) {
        return Ok(Did::Moved(Point::Right));
    }
    Ok(Did::Finished(Point::Right))
}

/// The next step at the range; where the range is done, it comes to the next one, if there is one.
fn go_on<D: Disk + Drop>(
    course: &mut Course,
    work: &mut RangeSummarise,
    pages: &mut PageStore<D>,
    locks: &mut Locks,
    index: u8,
    actor: u32,
) -> Result<Did, MachineFault>
    requires of { IsSummariseOf pages.old.layout (state_of index course.old work.old) }
    requires at { course.old.standing ≡ Standing.AtRange }
    requires locks { 0 < taken_by (state_of index course.old work.old) → locks_held locks.old + taken_by (state_of index course.old work.old) ≤ locks.old.limit }
    requires ready { Tells D.told pages.old → ReadyAt pages.old.layout pages.old.pages (state_of index course.old work.old) }
    ensures does { IfOk result (λ did. OfBlocks D.told pages.old (table_of pages.old.layout index) (λ blocks. (rights : List (Option ℕ)) → SummariseDoes (step_of pages.old.layout pages.old.pages pages.new.pages locks.old locks.new rights rights actor blocks) (state_of index course.old work.old) (state_of index course.new work.new) did)) }
    ensures exact { IfOk result (λ did. OfBlocks D.told pages.old (table_of pages.old.layout index) (λ blocks. KeepsExact pages.old.layout blocks (state_of index course.old work.old) (state_of index course.new work.new))) }
    ensures stands { IfOk result (StandsThen (state_of index course.old work.old) (state_of index course.new work.new)) }
    ensures of { IsSummariseOf pages.old.layout (state_of index course.new work.new) }
    ensures blocked { IfOk result (BlockedWell D.told index actor pages.old pages.new locks.old locks.new) }
    ensures no_right { IfOk result (StaysWithoutRight D.told pages.old pages.new locks.old locks.new) }
    ensures same_wish { course.new.wish ≡ course.old.wish }
    ensures full { IfErr result (SaysFullIn pages.old.layout index (λ number. Tells D.told pages.old → FullAt pages.old.layout pages.old.pages locks.old actor (state_of index course.old work.old) number)) }
    ensures at_full { IfErr result (StaysWhereFull locks.old locks.new) }
    ensures others { LeavesOthers D.told index pages.old pages.new }
    ensures order { KeepsOrder D.told index pages.old pages.new }
    ensures locks { LeavesLocks (holder locks.old) (holder locks.new) (relation_of pages.old.layout index) actor }
    ensures counts { TakesAtMost (taken_by (state_of index course.old work.old)) locks.old locks.new actor }
    ensures given { OnOk result (GivesBy (state_of index course.old work.old) → locks_of locks.new actor ≡ 0) }
    ensures own { OnOk result (locks_of locks.old actor ≤ held_by (state_of index course.old work.old) → locks_of locks.new actor ≤ held_by (state_of index course.new work.new)) }
    ensures stays { OnErr result ((state_of index course.new work.new ≡ record (state_of index course.old work.old) { hand = work.new }) × (work.new.stage ≡ work.old.stage) × (work.new.growth.stage ≡ work.old.growth.stage)) }
    ensures survives { Survives D.told (λ passed. passed ≡ pages.old.pages) pages.old pages.new }
    ensures kept { OnErr result (Keeps D.told pages.old pages.new) }
    ensures undamaged { OnOk result (Tells D.told pages.old → DamageIn pages.old.layout pages.old.pages (state_of index course.old work.old) → ⊥) }
    ensures at { IfErr result (NamesPageAt pages.old.layout index work.old.stage) }
    ensures outcome { MachineOutcome D.told (Tells D.told pages.old → DamageIn pages.old.layout pages.old.pages (state_of index course.old work.old)) pages.old pages.new result }
{
    let at = Within {
        index,
        range: course.range,
        actor,
    };
    let layout = pages.layout();
    layout.known();
    let in_range = blocks_a_range(layout, index);
    match work.step(pages, locks, at) {
        Ok(Did::Finished(point)) => {
            course.made += u64::from(made_at(work.stage()));
            course.range += 1;
            if come_to(course, work, in_range) {
                return Ok(Did::Moved(point));
            }
            Ok(Did::Finished(point))
        }
        Ok(Did::Moved(point)) => Ok(Did::Moved(point)),
        Ok(Did::Blocked(held)) => Ok(Did::Blocked(held)),
        Ok(Did::NoRight { .. }) => unreachable!(),
        Err(fault) => Err(fault),
    }
}
