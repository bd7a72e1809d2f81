//! An insert's work in one index.

ghost use Rattle.std.specs.Prelude.{◌≡◌, ◌+◌, ◌<◌, ◌≤◌, length, IfOk, IfErr, OnOk, OnErr};
ghost use Rattle.block_model.specs.declared.place.Spot.{Spot as AnySpot};
ghost use Rattle.block_model.specs.declared.row.Row.{Row as AnyRow};
ghost use Rattle.block_model.specs.IndexedColumns.{columns_of};
ghost use Rattle.page_map.specs.Keeps.{Keeps, Tells};
ghost use Rattle.heap_rows.specs.Survives.{Survives};
ghost use Rattle.page_locks.specs.LockCounts.{locks_of};
ghost use Rattle.page_locks.specs.LockHolders.{count_of, holder};
ghost use Rattle.range_tuple.specs.TupleBytes.{tuple_bytes};
ghost use Rattle.range_tuple.specs.Tuples.{empty_placeholder, parts_of};
ghost use Rattle.index_contents.specs.IndexContents.{contents, relation_of};
ghost use Rattle.index_contents.specs.IndexChanges.{LeavesOthers};
ghost use Rattle.index_contents.specs.KeepsOrder.{KeepsOrder};
ghost use Rattle.index_steps.specs.IndexTuples.{TakesValues, classes_of, index_at, shape_of};
ghost use Rattle.index_steps.specs.MoveEnds.{IsMoving};
ghost use Rattle.index_steps.specs.StepAnswers.{BlockedWell};
ghost use Rattle.index_steps.specs.SwapAnswers.{FaultNamesPageOf, LeavesLocks, MachineOutcome, SaysFullIn, StaysWhereFull, TakesAtMost};
ghost use Rattle.brin_insert.specs.InsertSteps.{IsAtWork, Stepped, insert_of, on_index};
ghost use Rattle.brin_insert.specs.StageLocks.{held_at, taken_at};
ghost use Rattle.brin_insert.specs.StepAnswers.{DamageAt, StandsAfter, StepFull};

use crate::in_index::step_in;
use crate::stage::Stage;
use block_model::{NoMemory, Value};
use disk_trait::Disk;
use heap_rows::PageStore;
use index_steps::{Scratch, Within, declared_index, tuples_of_an_index_need_one_room};
use page_locks::{Did, Locks};
use page_map::MachineFault;
use range_tuple::RangeTuple;
use std::alloc::Global;
use std::boxed::BoxedSlice;
use std::marker::Model;
use store_layout::Layout;

/// An insert's work in one index: the index, the stage that the insert is at there, the tuple with the row, and room for that one's
/// bytes. Made once an index, and taken for one row after the other.
#[derive(Debug, Drop)]
pub struct IndexInsert {
    index: u8,
    stage: Stage,
    widened: RangeTuple,
    room: BoxedSlice<u8>,
}

impl Model for IndexInsert {
    ghost use Rattle.std.specs.Prelude.{◌≤◌, length};
    ghost use Rattle.std.specs.Box.{boxed_slice_items};
    ghost use Rattle.range_tuple.specs.Tuples.{tuple_room};
    ghost use Rattle.brin_insert.specs.InsertHands.{InsertHand};

    ghost Value = { InsertHand };

    ghost view = { λ a. record { index = a.index; stage = a.stage; widened = a.widened } };

    ghost invariant = { λ a. tuple_room a.widened.columns ≤ length (boxed_slice_items a.room) };
}

impl IndexInsert {
    /// Before the first step in the index of that number. Takes all the memory that the work ever needs.
    pub fn new(alloc: Global, layout: &Layout, index: u8) -> Result<IndexInsert, NoMemory>
        requires index { index < length layout.now.schema.indexes }
        ensures begins { IfOk result (λ insert. insert ≡ record { index = index; stage = Stage.Map; widened = empty_placeholder 0 (columns_of layout.now.schema (index_at layout.now index)) (index_at layout.now index).parts }) }
        ensures of_index { IfOk result (λ insert. parts_of insert.widened.columns ≡ classes_of (shape_of layout.now index)) }
    {
        let declared = declared_index(layout, index);
        let widened = RangeTuple::new(alloc, declared, layout.schema(), 0)?;
        let room = vec![in alloc; 0u8; widened.greatest_size()]?;
        Ok(IndexInsert {
            index,
            stage: Stage::Map,
            widened,
            room: room.into_boxed_slice(),
        })
    }

    /// Before the first step in the index, for another row.
    pub fn begin(&mut self)
        ensures { self.new ≡ record self.old { stage = Stage.Map } }
    {
        self.stage = Stage::Map;
    }

    /// The number of the index.
    pub fn index(&self) -> u8
        ensures { result ≡ self.now.index }
    {
        self.index
    }

    /// The stage that it is at.
    pub fn stage(&self) -> Stage
        ensures { result ≡ self.now.stage }
    {
        self.stage
    }

    /// The next step in the index, for a row of these values whose heap block is of the range. `copied` has room for the bytes of the
    /// tuple that the insert copies, and is its own between its steps. Where the step is blocked, nothing is changed; after an error
    /// no page is. Takes no memory.
    pub fn step<D: Disk + Drop>(
        &mut self,
        pages: &mut PageStore<D>,
        locks: &mut Locks,
        range: u32,
        actor: u32,
        values: &[Value],
        copied: &mut Scratch,
    ) -> Result<Did, MachineFault>
        requires index { self.old.index < length pages.old.layout.schema.indexes }
        requires work { IsAtWork self.old.stage }
        requires tuple { parts_of self.old.widened.columns ≡ classes_of (shape_of pages.old.layout self.old.index) }
        requires takes { TakesValues (shape_of pages.old.layout self.old.index) values.now }
        requires locks { (x : AnySpot) → self.old.stage ≡ Stage.Swap x → count_of locks.old + 3 ≤ locks.old.limit }
        requires moving { (x y : AnySpot) → self.old.stage ≡ Stage.Set x y → Tells D.told pages.old → IsMoving (shape_of pages.old.layout self.old.index) (contents pages.old.layout pages.old.pages self.old.index) range x y }
        ensures stepped { IfOk result (λ did. Tells D.told pages.old → (r : AnyRow) → r.values ≡ values.now → Stepped (shape_of pages.old.layout self.old.index) actor range r (insert_of pages.old.layout pages.old.pages locks.old self.old copied.old) (insert_of pages.old.layout pages.new.pages locks.new self.new copied.new) did) }
        ensures stands { IfOk result (λ did. StandsAfter did self.new.stage) }
        ensures undamaged { OnOk result (Tells D.told pages.old → DamageAt (shape_of pages.old.layout self.old.index) (contents pages.old.layout pages.old.pages self.old.index) range self.old.stage → ⊥) }
        ensures blocked { IfOk result (BlockedWell D.told self.old.index actor pages.old pages.new locks.old locks.new) }
        ensures full { IfErr result (SaysFullIn pages.old.layout self.old.index (λ number. Tells D.told pages.old → StepFull (shape_of pages.old.layout self.old.index) actor range (insert_of pages.old.layout pages.old.pages locks.old self.old copied.old) number)) }
        ensures others { LeavesOthers D.told self.old.index pages.old pages.new }
        ensures order { KeepsOrder D.told self.old.index pages.old pages.new }
        ensures locks { LeavesLocks (holder locks.old) (holder locks.new) (relation_of pages.old.layout self.old.index) actor }
        ensures at_full { IfErr result (StaysWhereFull locks.old locks.new) }
        ensures counts { TakesAtMost (taken_at self.old.stage) locks.old locks.new actor }
        ensures given { OnOk result ((x : AnySpot) → self.old.stage ≡ Stage.Drop x → locks_of locks.new actor ≡ 0) }
        ensures own { OnOk result (locks_of locks.old actor ≤ held_at self.old.stage → locks_of locks.new actor ≤ held_at self.new.stage) }
        ensures same_index { self.new.index ≡ self.old.index }
        ensures same_columns { parts_of self.new.widened.columns ≡ parts_of self.old.widened.columns }
        ensures same_stage { OnErr result (self.new.stage ≡ self.old.stage) }
        ensures same_hand { OnErr result (on_index (shape_of pages.old.layout self.old.index) self.old.stage copied.new (tuple_bytes self.new.widened) ≡ on_index (shape_of pages.old.layout self.old.index) self.old.stage copied.old (tuple_bytes self.old.widened)) }
        // The change itself isn't sure before the next flush.
        ensures survives { Survives D.told (λ passed. passed ≡ pages.old.pages) pages.old pages.new }
        ensures kept { OnErr result (Keeps D.told pages.old pages.new) }
        ensures at { IfErr result (FaultNamesPageOf pages.old.layout self.old.index) }
        ensures outcome { MachineOutcome D.told (Tells D.told pages.old → DamageAt (shape_of pages.old.layout self.old.index) (contents pages.old.layout pages.old.pages self.old.index) range self.old.stage) pages.old pages.new result }
    {
        tuples_of_an_index_need_one_room();
        let index = self.index;
        let at = Within {
            index,
            range,
            actor,
        };
        let stage = self.stage;
        match step_in(
            pages,
            locks,
            at,
            stage,
            values,
            copied,
            &mut self.widened,
            &mut self.room,
        ) {
            Ok((stage, did)) => {
                self.stage = stage;
                Ok(did)
            }
            Err(fault) => Err(fault),
        }
    }
}
