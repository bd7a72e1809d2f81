//! A tuple for a range that has none: it is put, and the map comes to name it.

ghost use Rattle.std.specs.Prelude.{◌≡◌, ◌+◌, ◌<◌, ◌≤◌, None, length, IfOk, IfErr, OnOk, OnErr};
ghost use Rattle.page_map.specs.Keeps.{Keeps, Tells, Untold};
ghost use Rattle.page_map.specs.Outcome.{Outcome};
ghost use Rattle.heap_rows.specs.Survives.{Survives};
ghost use Rattle.page_locks.specs.LockHolders.{count_of, holder};
ghost use Rattle.range_store.specs.Tuples.{IsTupleSize};
ghost use Rattle.index_contents.specs.IndexContents.{contents, relation_of};
ghost use Rattle.index_contents.specs.IndexChanges.{LeavesOthers};
ghost use Rattle.index_contents.specs.KeepsOrder.{KeepsOrder};
ghost use Rattle.index_steps.specs.IndexTuples.{seen, shape_of};
ghost use Rattle.index_steps.specs.PlaceAnswers.{IsPlacing, IsPutFull, NamesIn, PagesPlaced, PlaceMakes, PlaceWaits, PlacedLocks};
ghost use Rattle.index_steps.specs.Readings.{NamesPageOf};
ghost use Rattle.index_steps.specs.ShownIndex.{lock_in};
ghost use Rattle.index_steps.specs.SwapAnswers.{FaultNamesPageOf, GivesLocks, LeavesLocks, MachineOutcome, SaysFullIn, StaysWhereFull, TakesAtMost};

use crate::reading::page_at;
use crate::swapping::{Within, map_page_of};
use block_model::Spot;
use disk_trait::Disk;
use heap_rows::PageStore;
use index_contents::relation_of;
use page_locks::{Held, Locks};
use page_map::{MachineFault, StoreError};
use range_store::{a_target_takes_its_tuple, put, room_for};
use revmap::{SetFault, set};

/// What came of a new tuple.
#[derive(Clone, Copy, Debug, PartialEq, Eq)]
pub enum Placed {
    /// Nothing was changed: another actor holds the lock of a page that the step changes.
    Waits(Held),
    /// The tuple is put at this spot, and its page and the map's are locked.
    Put(Spot),
}

/// Puts the bytes of a tuple of the range on the page for them, and takes that page's lock and that of the range's page of the map.
/// Full, with the number of pages that the index may have, exactly where no page has room. Takes no memory.
pub fn put_new<D: Disk + Drop>(
    pages: &mut PageStore<D>,
    locks: &mut Locks,
    at: Within,
    bytes: &[u8],
) -> Result<Placed, MachineFault>
    requires index { at.index < length pages.old.layout.schema.indexes }
    requires size { IsTupleSize (length bytes.now) }
    requires room { count_of locks.old + 2 ≤ locks.old.limit }
    ensures placed { IfOk result (λ placed. Tells D.told pages.old → PlaceMakes (shape_of pages.old.layout at.index) (contents pages.old.layout pages.old.pages at.index) (contents pages.old.layout pages.new.pages at.index) (lock_in pages.old.layout locks.old at.index) (lock_in pages.old.layout locks.new at.index) at.actor at.range (seen (shape_of pages.old.layout at.index) bytes.now) placed) }
    ensures waits { IfOk result (PlaceWaits pages.old.layout locks.old at.index at.actor) }
    ensures full { IfErr result (SaysFullIn pages.old.layout at.index (λ number. Tells D.told pages.old → IsPutFull (shape_of pages.old.layout at.index) (contents pages.old.layout pages.old.pages at.index) (lock_in pages.old.layout locks.old at.index) at.actor at.range (seen (shape_of pages.old.layout at.index) bytes.now) number)) }
    ensures locks { IfOk result (PlacedLocks (holder locks.old) (holder locks.new) (relation_of pages.old.layout at.index) at.actor at.range locks.old locks.new) }
    ensures apart { LeavesLocks (holder locks.old) (holder locks.new) (relation_of pages.old.layout at.index) at.actor }
    ensures at_full { IfErr result (StaysWhereFull locks.old locks.new) }
    ensures counts { TakesAtMost 2 locks.old locks.new at.actor }
    ensures pages { IfOk result (PagesPlaced D.told pages.old pages.new) }
    ensures kept { OnErr result (Keeps D.told pages.old pages.new) }
    // The change itself isn't sure before the next flush.
    ensures survives { Survives D.told (λ passed. passed ≡ pages.old.pages) pages.old pages.new }
    ensures others { LeavesOthers D.told at.index pages.old pages.new }
    ensures order { KeepsOrder D.told at.index pages.old pages.new }
    ensures at { IfErr result (FaultNamesPageOf pages.old.layout at.index) }
    ensures outcome { MachineOutcome D.told (Untold D.told pages.old) pages.old pages.new result }
{
    a_target_takes_its_tuple();
    match pages.ready() {
        Ok(()) => {}
        Err(error) => return Err(MachineFault::Store(error)),
    }
    let relation = relation_of(pages.layout(), at.index);
    let block = match room_for(pages, at.index, bytes.len() as u16) {
        Some(block) => block,
        None => {
            return Err(MachineFault::Full {
                relation,
                number: u64::from(pages.layout().sizes().index_blocks),
            });
        }
    };
    match locks.take_all(relation, &[block, map_page_of(at.range)], at.actor) {
        Ok(()) => {}
        Err(held) => return Ok(Placed::Waits(held)),
    }
    match put(pages, at.index, block, bytes) {
        Ok(to) => Ok(Placed::Put(to)),
        Err(error) => Err(MachineFault::Store(error)),
    }
}

/// The map names the new tuple, at `to`, for the range, and the actor gives all its locks. Takes no memory.
pub fn name_new<D: Disk + Drop>(
    pages: &mut PageStore<D>,
    locks: &mut Locks,
    at: Within,
    to: Spot,
) -> Result<(), StoreError>
    requires index { at.index < length pages.old.layout.schema.indexes }
    requires placing { Tells D.told pages.old → IsPlacing (shape_of pages.old.layout at.index) (contents pages.old.layout pages.old.pages at.index) at.range to }
    ensures named { OnOk result (Tells D.told pages.old → NamesIn (shape_of pages.old.layout at.index) (contents pages.old.layout pages.old.pages at.index) (contents pages.old.layout pages.new.pages at.index) (lock_in pages.old.layout locks.old at.index) (lock_in pages.old.layout locks.new at.index) at.actor at.range to) }
    ensures given { OnOk result (GivesLocks locks.old locks.new at.actor) }
    ensures locks { OnErr result (locks.new ≡ locks.old) }
    ensures apart { LeavesLocks (holder locks.old) (holder locks.new) (relation_of pages.old.layout at.index) at.actor }
    ensures counts { TakesAtMost 0 locks.old locks.new at.actor }
    ensures kept { OnErr result (Keeps D.told pages.old pages.new) }
    // The change itself isn't sure before the next flush.
    ensures survives { Survives D.told (λ passed. passed ≡ pages.old.pages) pages.old pages.new }
    ensures others { LeavesOthers D.told at.index pages.old pages.new }
    ensures order { KeepsOrder D.told at.index pages.old pages.new }
    ensures at { IfErr result (NamesPageOf pages.old.layout at.index) }
    ensures outcome { Outcome D.told (Untold D.told pages.old) pages.old pages.new result }
{
    pages.layout().known();
    match set(pages, at.index, at.range, None, Some(to)) {
        Ok(()) => {
            locks.drop_all(at.actor);
            Ok(())
        }
        Err(SetFault::Changed { .. }) => Err(StoreError::Damaged {
            at: page_at(pages, at.index, to.block),
        }),
        Err(SetFault::Store(error)) => Err(error),
    }
}
