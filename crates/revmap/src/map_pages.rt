//! Pages of the map.

ghost use Rattle.std.specs.Prelude.{◌≡◌, ◌<◌, List, Option, None, Some, ℕ, set, slice_index, slice_index_or, IfOk, IfErr, OnOk, OnErr};
ghost use Rattle.store_layout.specs.DiskLayout.{IsPlace};
ghost use Rattle.page_layout.specs.declared.page.Form.TheVariants as forms;
ghost use Rattle.page_map.specs.Forms.{form_of};
ghost use Rattle.page_map.specs.Keeps.{Keeps, Tells, Untold};
ghost use Rattle.page_map.specs.Outcome.{NamesPage, Outcome};
ghost use Rattle.page_map.specs.PageMap.{block_at, page_at};
ghost use Rattle.page_store.specs.Survives.{Survives};
ghost use Rattle.index_layout.specs.declared.format.TheConstants.{MAP, MAP_ENTRIES};
ghost use Rattle.index_layout.specs.IndexPages.{IsMap};
ghost use Rattle.index_layout.specs.IndexReading.{entries_of};
ghost use Rattle.index_contents.specs.IndexChanges.{LeavesOtherPages};
ghost use Rattle.revmap.specs.MapEntries.{IsNameable};

use block_model::{Place, Spot};
use disk_trait::Disk;
use page_map::StoreError;
use page_store::PageStore;
use wal_record::Change;

/// That entry of the page; none where it isn't of the map.
pub(crate) fn entry_at<D: Disk + Drop>(
    pages: &mut PageStore<D>,
    place: Place,
    entry: u16,
) -> Result<Option<Spot>, StoreError>
    requires place { IsPlace pages.old.layout place }
    requires form { form_of pages.old.layout place.relation ≡ forms.Index }
    requires entry { entry < MAP_ENTRIES }
    ensures entry { IfOk result (λ spot. Tells D.told pages.old → spot ≡ slice_index_or (entries_of (page_at pages.old.pages place)) entry None) }
    ensures kept { Keeps D.told pages.old pages.new }
    ensures survives { Survives D.told (λ passed. passed ≡ pages.old.pages) pages.old pages.new }
    ensures at { IfErr result (NamesPage pages.old.layout place) }
    ensures outcome { Outcome D.told (Untold D.told pages.old) pages.old pages.new result }
{
    match pages.read(place) {
        Ok(page) => Ok(page_layout::entry_at(page, entry)),
        Err(error) => Err(error),
    }
}

/// The entry of a page of the map names the spot, or none.
pub(crate) fn set_entry<D: Disk + Drop>(
    pages: &mut PageStore<D>,
    place: Place,
    entry: u16,
    spot: Option<Spot>,
) -> Result<(), StoreError>
    requires place { IsPlace pages.old.layout place }
    requires form { form_of pages.old.layout place.relation ≡ forms.Index }
    requires entry { entry < MAP_ENTRIES }
    requires map { Tells D.told pages.old → slice_index (page_at pages.old.pages place) 0 ≡ MAP }
    requires spot { Tells D.told pages.old → IsNameable spot }
    ensures set { OnOk result (Tells D.told pages.old → IsMap (set (entries_of (page_at pages.old.pages place)) entry spot) (page_at pages.new.pages place)) }
    ensures kept { OnErr result (Keeps D.told pages.old pages.new) }
    ensures others { LeavesOtherPages D.told place pages.old pages.new }
    ensures survives { Survives D.told (λ passed. passed ≡ pages.old.pages) pages.old pages.new }
    ensures at { IfErr result (NamesPage pages.old.layout place) }
    ensures outcome { Outcome D.told (Untold D.told pages.old) pages.old pages.new result }
{
    pages.known();
    let spot = logged_spot(spot);
    pages.change(place, &Change::MapSet { place, entry, spot })
}

/// The spot as the log tells it: zeros for none.
fn logged_spot(spot: Option<Spot>) -> Spot
    ensures some { (x : Spot) → spot ≡ Some x → result ≡ x }
    ensures none { spot ≡ None → result ≡ record { block = 0; slot = 0 } }
{
    match spot {
        Some(spot) => spot,
        None => Spot { block: 0, slot: 0 },
    }
}
