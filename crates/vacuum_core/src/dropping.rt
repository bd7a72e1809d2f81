//! The change that drops tuples of a page.

ghost use Rattle.std.specs.Prelude.{◌≡◌, slice_index, OnOk, OnErr, IfErr};
ghost use Rattle.store_layout.specs.DiskLayout.{IsPlace};
ghost use Rattle.page_layout.specs.declared.page.Form.TheVariants as forms;
ghost use Rattle.page_map.specs.Forms.{form_of};
ghost use Rattle.page_map.specs.Keeps.{Keeps, Tells, Untold};
ghost use Rattle.page_map.specs.Outcome.{NamesPage, Outcome};
ghost use Rattle.page_map.specs.PageMap.{page_at};
ghost use Rattle.page_store.specs.Survives.{Survives};
ghost use Rattle.index_layout.specs.IndexPages.{IsRegular};
ghost use Rattle.index_layout.specs.IndexReading.{slots_of};
ghost use Rattle.index_layout.specs.IndexWrites.{CanDrop, dropped, trimmed};
ghost use Rattle.index_contents.specs.IndexChanges.{LeavesOtherPages};

use block_model::Place;
use disk_trait::Disk;
use page_map::StoreError;
use page_store::PageStore;
use wal_record::Change;

/// These slots, of two bytes each, are free.
pub(crate) fn drop_tuples<D: Disk + Drop>(
    pages: &mut PageStore<D>,
    place: Place,
    slots: &[u8],
) -> Result<(), StoreError>
    requires place { IsPlace pages.old.layout place }
    requires form { form_of pages.old.layout place.relation ≡ forms.Index }
    requires slots { Tells D.told pages.old → CanDrop (page_at pages.old.pages place) slots.now }
    ensures dropped { OnOk result (Tells D.told pages.old → IsRegular (slice_index (page_at pages.old.pages place) 0) (trimmed (dropped (slots_of (page_at pages.old.pages place)) slots.now)) (page_at pages.new.pages place)) }
    ensures kept { OnErr result (Keeps D.told pages.old pages.new) }
    ensures others { LeavesOtherPages D.told place pages.old pages.new }
    ensures survives { Survives D.told (λ passed. passed ≡ pages.old.pages) pages.old pages.new }
    ensures at { IfErr result (NamesPage pages.old.layout place) }
    ensures outcome { Outcome D.told (Untold D.told pages.old) pages.old pages.new result }
{
    pages.known();
    pages.change(place, &Change::TupleDrop { place, slots })
}
