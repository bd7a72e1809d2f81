//! The end of a move: the map names the new tuple, and the old one goes.

ghost use Rattle.std.specs.Prelude.{◌≡◌, ◌<◌, ℕ, Option, length, IfErr, OnOk, OnErr};
ghost use Rattle.page_map.specs.Keeps.{Keeps, Tells, Untold};
ghost use Rattle.page_map.specs.Outcome.{Outcome};
ghost use Rattle.heap_rows.specs.Survives.{Survives};
ghost use Rattle.page_locks.specs.LockHolders.{holder};
ghost use Rattle.coverage.specs.IndexView.{Building, IndexView};
ghost use Rattle.index_contents.specs.IndexContents.{contents, relation_of};
ghost use Rattle.index_contents.specs.IndexChanges.{LeavesOthers};
ghost use Rattle.index_contents.specs.KeepsOrder.{KeepsOrder};
ghost use Rattle.index_steps.specs.IndexTuples.{shape_of};
ghost use Rattle.index_steps.specs.MoveEnds.{DropsIn, IsMoving, SetsIn};
ghost use Rattle.index_steps.specs.Readings.{NamesPageOf};
ghost use Rattle.index_steps.specs.ShownIndex.{lock_in};
ghost use Rattle.index_steps.specs.SwapAnswers.{GivesLocks, LeavesLocks, TakesAtMost};

use crate::reading::page_at;
use crate::swapping::Within;
use block_model::Spot;
use disk_trait::Disk;
use heap_rows::PageStore;
use page_locks::Locks;
use page_map::StoreError;
use range_store::drop_at;
use revmap::{SetFault, set};

/// The map names the new tuple of a move, at `to`, for the range, in place of the old one at `from`. Takes no memory.
pub fn name_moved<D: Disk + Drop>(
    pages: &mut PageStore<D>,
    at: Within,
    from: Spot,
    to: Spot,
) -> Result<(), StoreError>
    requires index { at.index < length pages.old.layout.schema.indexes }
    requires moving { Tells D.told pages.old → IsMoving (shape_of pages.old.layout at.index) (contents pages.old.layout pages.old.pages at.index) at.range from to }
    ensures set { OnOk result (Tells D.told pages.old → SetsIn (shape_of pages.old.layout at.index) (contents pages.old.layout pages.old.pages at.index) (contents pages.old.layout pages.new.pages at.index) at.range to) }
    ensures kept { OnErr result (Keeps D.told pages.old pages.new) }
    // The change itself isn't sure before the next flush.
    ensures survives { Survives D.told (λ passed. passed ≡ pages.old.pages) pages.old pages.new }
    ensures others { LeavesOthers D.told at.index pages.old pages.new }
    ensures order { KeepsOrder D.told at.index pages.old pages.new }
    ensures at { IfErr result (NamesPageOf pages.old.layout at.index) }
    ensures outcome { Outcome D.told (Untold D.told pages.old) pages.old pages.new result }
{
    pages.layout().known();
    match set(pages, at.index, at.range, Some(from), Some(to)) {
        Ok(()) => Ok(()),
        Err(SetFault::Changed { .. }) => Err(StoreError::Damaged {
            at: page_at(pages, at.index, from.block),
        }),
        Err(SetFault::Store(error)) => Err(error),
    }
}

/// The old tuple of a move, at `from`, goes, and the actor gives all its locks. Takes no memory.
pub fn drop_moved<D: Disk + Drop>(
    pages: &mut PageStore<D>,
    locks: &mut Locks,
    at: Within,
    from: Spot,
) -> Result<(), StoreError>
    requires index { at.index < length pages.old.layout.schema.indexes }
    ensures dropped { OnOk result (Tells D.told pages.old → DropsIn (shape_of pages.old.layout at.index) (contents pages.old.layout pages.old.pages at.index) (contents pages.old.layout pages.new.pages at.index) (lock_in pages.old.layout locks.old at.index) (lock_in pages.old.layout locks.new at.index) at.actor from) }
    ensures given { OnOk result (GivesLocks locks.old locks.new at.actor) }
    ensures locks { OnErr result (locks.new ≡ locks.old) }
    ensures apart { LeavesLocks (holder locks.old) (holder locks.new) (relation_of pages.old.layout at.index) at.actor }
    ensures counts { TakesAtMost 0 locks.old locks.new at.actor }
    ensures kept { OnErr result (Keeps D.told pages.old pages.new) }
    // The change itself isn't sure before the next flush.
    ensures survives { Survives D.told (λ passed. passed ≡ pages.old.pages) pages.old pages.new }
    ensures others { LeavesOthers D.told at.index pages.old pages.new }
    ensures order { KeepsOrder D.told at.index pages.old pages.new }
    ensures at { IfErr result (NamesPageOf pages.old.layout at.index) }
    ensures outcome { Outcome D.told (Untold D.told pages.old) pages.old pages.new result }
{
    match drop_at(pages, at.index, from) {
        Ok(()) => {
            locks.drop_all(at.actor);
            Ok(())
        }
        Err(error) => Err(error),
    }
}
