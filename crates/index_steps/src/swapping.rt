//! A new tuple in the place of the one that was copied.

ghost use Rattle.std.specs.Prelude.{◌≡◌, ◌+◌, ◌<◌, ◌≤◌, List, ℕ, Some, None, length, IfOk, IfErr, IfSome, IfNone, OnOk, OnErr};
ghost use Rattle.page_map.specs.Keeps.{Keeps, Tells, Untold};
ghost use Rattle.heap_rows.specs.Survives.{Survives};
ghost use Rattle.page_locks.specs.LockChanges.{IsAnothers, IsFreeFor, page_of};
ghost use Rattle.page_locks.specs.LockHolders.{count_of, holder};
ghost use Rattle.coverage.specs.IndexView.{map_page_of};
ghost use Rattle.range_store.specs.Tuples.{IsTupleSize};
ghost use Rattle.index_contents.specs.IndexContents.{contents, relation_of};
ghost use Rattle.index_contents.specs.IndexChanges.{LeavesOthers};
ghost use Rattle.index_contents.specs.KeepsOrder.{KeepsOrder};
ghost use Rattle.index_steps.specs.IndexTuples.{seen, shape_of};
ghost use Rattle.index_steps.specs.ShownIndex.{lock_in};
ghost use Rattle.index_steps.specs.SwapAnswers.{FaultNamesPageOf, IsSwapFull, LeavesLocks, LocksAfter, MachineOutcome, MustLeave, PagesAfter, SaysFullIn, StaysWhereFull, SwapMakes, TakesAtMost, WaitsFor};

use block_model::{Place, Spot};
use disk_trait::Disk;
use heap_rows::PageStore;
use index_contents::relation_of;
use index_layout::MAP_ENTRIES;
use page_locks::{Held, Locks};
use page_map::MachineFault;
use range_store::{SwapFault, a_target_takes_its_tuple, put, replace, room_for};

/// Where a statement is at work: in which index, at which range, and for whom.
#[derive(Clone, Copy, Debug, PartialEq, Eq)]
pub struct Within {
    pub index: u8,
    pub range: u32,
    pub actor: u32,
}

/// What came of a swap.
#[derive(Clone, Copy, Debug, PartialEq, Eq)]
pub enum Swapped {
    /// The new tuple stands where the copied one stood.
    InPlace,
    /// Nothing was changed: other bytes stand there, or none.
    Differs,
    /// Nothing was changed: another actor holds the lock of a page that the step changes.
    Waits(Held),
    /// The new tuple is put at this spot of another page, or of the same one, and the pages of both and the map's are locked.
    Moves(Spot),
}

/// The new bytes take the place of the copied ones at the spot. First comes the lock of the spot's page, then the comparison. Where the
/// page takes no tuples any more, or has no room in place, they are put on another page, and the locks of both pages and of the
/// map's are taken. Full, with the number of pages that the index may have, exactly where no page has room. Takes no memory.
pub fn swap<D: Disk + Drop>(
    pages: &mut PageStore<D>,
    locks: &mut Locks,
    at: Within,
    spot: Spot,
    copied: &[u8],
    bytes: &[u8],
) -> Result<Swapped, MachineFault>
    requires index { at.index < length pages.old.layout.schema.indexes }
    requires size { IsTupleSize (length bytes.now) }
    requires room { count_of locks.old + 3 ≤ locks.old.limit }
    ensures swapped { IfOk result (λ swapped. Tells D.told pages.old → SwapMakes (shape_of pages.old.layout at.index) (contents pages.old.layout pages.old.pages at.index) (contents pages.old.layout pages.new.pages at.index) (lock_in pages.old.layout locks.old at.index) (lock_in pages.old.layout locks.new at.index) at.actor at.range spot (seen (shape_of pages.old.layout at.index) copied.now) (seen (shape_of pages.old.layout at.index) bytes.now) swapped) }
    ensures waits { IfOk result (WaitsFor pages.old.layout locks.old at.index at.actor) }
    ensures full { IfErr result (SaysFullIn pages.old.layout at.index (λ number. Tells D.told pages.old → IsSwapFull (shape_of pages.old.layout at.index) (contents pages.old.layout pages.old.pages at.index) (lock_in pages.old.layout locks.old at.index) at.actor at.range spot (seen (shape_of pages.old.layout at.index) copied.now) (seen (shape_of pages.old.layout at.index) bytes.now) number)) }
    ensures locks { IfOk result (LocksAfter (holder locks.old) (holder locks.new) (relation_of pages.old.layout at.index) at.actor at.range spot locks.old locks.new) }
    ensures apart { LeavesLocks (holder locks.old) (holder locks.new) (relation_of pages.old.layout at.index) at.actor }
    ensures at_full { IfErr result (StaysWhereFull locks.old locks.new) }
    ensures counts { TakesAtMost 3 locks.old locks.new at.actor }
    ensures pages { IfOk result (PagesAfter D.told pages.old pages.new) }
    ensures kept { OnErr result (Keeps D.told pages.old pages.new) }
    // The change itself isn't sure before the next flush.
    ensures survives { Survives D.told (λ passed. passed ≡ pages.old.pages) pages.old pages.new }
    ensures others { LeavesOthers D.told at.index pages.old pages.new }
    ensures order { KeepsOrder D.told at.index pages.old pages.new }
    ensures at { IfErr result (FaultNamesPageOf pages.old.layout at.index) }
    ensures outcome { MachineOutcome D.told (Untold D.told pages.old) pages.old pages.new result }
{
    match pages.ready() {
        Ok(()) => {}
        Err(error) => return Err(MachineFault::Store(error)),
    }
    let relation = relation_of(pages.layout(), at.index);
    let page = Place {
        relation,
        block: spot.block,
    };
    match lock_of_another(locks, page, at.actor) {
        Some(held) => return Ok(Swapped::Waits(held)),
        None => {}
    }
    match replace(pages, at.index, spot, copied, bytes) {
        Ok(()) => Ok(Swapped::InPlace),
        Err(SwapFault::Changed { .. }) => Ok(Swapped::Differs),
        Err(SwapFault::Full { .. }) => put_elsewhere(pages, locks, at, spot, copied, bytes),
        Err(SwapFault::Store(error)) => Err(MachineFault::Store(error)),
    }
}

/// Puts the new bytes on another page, and takes the locks of a move.
fn put_elsewhere<D: Disk + Drop>(
    pages: &mut PageStore<D>,
    locks: &mut Locks,
    at: Within,
    spot: Spot,
    copied: &[u8],
    bytes: &[u8],
) -> Result<Swapped, MachineFault>
    requires index { at.index < length pages.old.layout.schema.indexes }
    requires size { IsTupleSize (length bytes.now) }
    requires room { count_of locks.old + 3 ≤ locks.old.limit }
    requires free { IsFreeFor (holder locks.old) at.actor (page_of (relation_of pages.old.layout at.index) spot.block) }
    requires ready { pages.old.failed ≡ None }
    requires must { Tells D.told pages.old → MustLeave (contents pages.old.layout pages.old.pages at.index) spot copied.now (length bytes.now) }
    ensures swapped { IfOk result (λ swapped. Tells D.told pages.old → SwapMakes (shape_of pages.old.layout at.index) (contents pages.old.layout pages.old.pages at.index) (contents pages.old.layout pages.new.pages at.index) (lock_in pages.old.layout locks.old at.index) (lock_in pages.old.layout locks.new at.index) at.actor at.range spot (seen (shape_of pages.old.layout at.index) copied.now) (seen (shape_of pages.old.layout at.index) bytes.now) swapped) }
    ensures waits { IfOk result (WaitsFor pages.old.layout locks.old at.index at.actor) }
    ensures full { IfErr result (SaysFullIn pages.old.layout at.index (λ number. Tells D.told pages.old → IsSwapFull (shape_of pages.old.layout at.index) (contents pages.old.layout pages.old.pages at.index) (lock_in pages.old.layout locks.old at.index) at.actor at.range spot (seen (shape_of pages.old.layout at.index) copied.now) (seen (shape_of pages.old.layout at.index) bytes.now) number)) }
    ensures locks { IfOk result (LocksAfter (holder locks.old) (holder locks.new) (relation_of pages.old.layout at.index) at.actor at.range spot locks.old locks.new) }
    ensures apart { LeavesLocks (holder locks.old) (holder locks.new) (relation_of pages.old.layout at.index) at.actor }
    ensures at_full { IfErr result (StaysWhereFull locks.old locks.new) }
    ensures counts { TakesAtMost 3 locks.old locks.new at.actor }
    ensures pages { IfOk result (PagesAfter D.told pages.old pages.new) }
    ensures kept { OnErr result (Keeps D.told pages.old pages.new) }
    ensures survives { Survives D.told (λ passed. passed ≡ pages.old.pages) pages.old pages.new }
    ensures others { LeavesOthers D.told at.index pages.old pages.new }
    ensures order { KeepsOrder D.told at.index pages.old pages.new }
    ensures at { IfErr result (FaultNamesPageOf pages.old.layout at.index) }
    ensures outcome { MachineOutcome D.told (Untold D.told pages.old) pages.old pages.new result }
{
    a_target_takes_its_tuple();
    pages.known();
    let relation = relation_of(pages.layout(), at.index);
    let block = match room_for(pages, at.index, bytes.len() as u16) {
        Some(block) => block,
        None => {
            return Err(MachineFault::Full {
                relation,
                number: u64::from(pages.layout().sizes().index_blocks),
            });
        }
    };
    match locks.take_all(
        relation,
        &[spot.block, block, map_page_of(at.range)],
        at.actor,
    ) {
        Ok(()) => {}
        Err(held) => return Ok(Swapped::Waits(held)),
    }
    match put(pages, at.index, block, bytes) {
        Ok(to) => Ok(Swapped::Moves(to)),
        Err(error) => Err(MachineFault::Store(error)),
    }
}

/// The lock of the page, where another actor holds it.
pub fn lock_of_another(locks: &Locks, page: Place, actor: u32) -> Option<Held>
    ensures another { IfSome result (λ held. IsAnothers (holder locks.now) actor page held.by) }
    ensures names { IfSome result (λ held. held.page ≡ page) }
    ensures free { IfNone result (IsFreeFor (holder locks.now) actor page) }
{
    match locks.holder(page) {
        Some(by) if by != actor => Some(Held { page, by }),
        _ => None,
    }
}

/// The block of the page of the map that holds the range.
pub fn map_page_of(range: u32) -> u32
    ensures { result ≡ map_page_of range }
{
    range / u32::from(MAP_ENTRIES) + 1
}
