//! Changes of one page of tuples.

ghost use Rattle.std.specs.Prelude.{◌≡◌, ◌≢◌, ◌<◌, ◌*◌, ◌+◌, ◌∷◌, [], List, Option, None, Some, ℕ, set, length, slice_index, slice_index_or, true, OnOk, OnErr, IfErr};
ghost use Rattle.store_layout.specs.DiskLayout.{IsPlace};
ghost use Rattle.page_layout.specs.declared.page.Form.TheVariants as forms;
ghost use Rattle.page_map.specs.Forms.{form_of};
ghost use Rattle.page_map.specs.Keeps.{Keeps, Tells, Untold};
ghost use Rattle.page_map.specs.Outcome.{NamesPage, Outcome};
ghost use Rattle.page_map.specs.PageMap.{page_at};
ghost use Rattle.page_store.specs.Survives.{Survives};
ghost use Rattle.index_contents.specs.TheConstants.{REGULAR};
ghost use Rattle.index_contents.specs.IndexPages.{IsRegular};
ghost use Rattle.index_contents.specs.IndexReading.{is_regular, slots_of};
ghost use Rattle.index_contents.specs.IndexWrites.{CanPut, CanReplace, put_in, trimmed};
ghost use Rattle.index_contents.specs.IndexChanges.{LeavesOtherPages};
ghost use Rattle.range_store.specs.Tuples.{IsTupleSize};

use block_model::Place;
use disk_trait::Disk;
use index_contents::{REGULAR, an_index_page_has_one_list};
use page_map::StoreError;
use page_store::PageStore;
use wal_record::Change;

/// The tuple stands in the slot, which was free or is the next one.
pub(crate) fn put_tuple<D: Disk + Drop>(
    pages: &mut PageStore<D>,
    place: Place,
    slot: u16,
    bytes: &[u8],
) -> Result<(), StoreError>
    requires place { IsPlace pages.old.layout place }
    requires form { form_of pages.old.layout place.relation ≡ forms.Index }
    requires room { Tells D.told pages.old → CanPut (page_at pages.old.pages place) slot (length bytes.now) }
    ensures put { OnOk result (Tells D.told pages.old → IsRegular REGULAR (put_in (slots_of (page_at pages.old.pages place)) slot bytes.now) (page_at pages.new.pages place)) }
    ensures kept { OnErr result (Keeps D.told pages.old pages.new) }
    ensures others { LeavesOtherPages D.told place pages.old pages.new }
    ensures survives { Survives D.told (λ passed. passed ≡ pages.old.pages) pages.old pages.new }
    ensures at { IfErr result (NamesPage pages.old.layout place) }
    ensures outcome { Outcome D.told (Untold D.told pages.old) pages.old pages.new result }
{
    pages.known();
    pages.change(place, &Change::TuplePut { place, slot, bytes })
}

/// The page is started for tuples, and this one stands in its first slot.
pub(crate) fn start_with<D: Disk + Drop>(
    pages: &mut PageStore<D>,
    place: Place,
    bytes: &[u8],
) -> Result<(), StoreError>
    requires place { IsPlace pages.old.layout place }
    requires form { form_of pages.old.layout place.relation ≡ forms.Index }
    requires size { IsTupleSize (length bytes.now) }
    ensures put { OnOk result (Tells D.told pages.old → IsRegular REGULAR (Some bytes.now ∷ []) (page_at pages.new.pages place)) }
    ensures kept { OnErr result (Keeps D.told pages.old pages.new) }
    ensures others { LeavesOtherPages D.told place pages.old pages.new }
    ensures survives { Survives D.told (λ passed. passed ≡ pages.old.pages) pages.old pages.new }
    ensures at { IfErr result (NamesPage pages.old.layout place) }
    ensures outcome { Outcome D.told (Untold D.told pages.old) pages.old pages.new result }
{
    an_index_page_has_one_list();
    let put = Change::TuplePut {
        place,
        slot: 0,
        bytes,
    };
    pages.start_with(place, REGULAR, &put)
}

/// The tuple stands in the slot in the place of another.
pub(crate) fn replace_tuple<D: Disk + Drop>(
    pages: &mut PageStore<D>,
    place: Place,
    slot: u16,
    bytes: &[u8],
) -> Result<(), StoreError>
    requires place { IsPlace pages.old.layout place }
    requires form { form_of pages.old.layout place.relation ≡ forms.Index }
    requires room { Tells D.told pages.old → CanReplace (page_at pages.old.pages place) slot (length bytes.now) }
    ensures replaced { OnOk result (Tells D.told pages.old → IsRegular REGULAR (set (slots_of (page_at pages.old.pages place)) slot (Some bytes.now)) (page_at pages.new.pages place)) }
    ensures kept { OnErr result (Keeps D.told pages.old pages.new) }
    ensures others { LeavesOtherPages D.told place pages.old pages.new }
    ensures survives { Survives D.told (λ passed. passed ≡ pages.old.pages) pages.old pages.new }
    ensures at { IfErr result (NamesPage pages.old.layout place) }
    ensures outcome { Outcome D.told (Untold D.told pages.old) pages.old pages.new result }
{
    pages.known();
    pages.change(place, &Change::TupleReplace { place, slot, bytes })
}

/// The slot, which the page has, is free.
pub(crate) fn drop_tuple<D: Disk + Drop>(
    pages: &mut PageStore<D>,
    place: Place,
    slot: u16,
) -> Result<(), StoreError>
    requires place { IsPlace pages.old.layout place }
    requires form { form_of pages.old.layout place.relation ≡ forms.Index }
    requires regular { Tells D.told pages.old → is_regular (slice_index (page_at pages.old.pages place) 0) ≡ true }
    requires slot { Tells D.told pages.old → slot < length (slots_of (page_at pages.old.pages place)) }
    ensures dropped { OnOk result (Tells D.told pages.old → IsRegular (slice_index (page_at pages.old.pages place) 0) (trimmed (set (slots_of (page_at pages.old.pages place)) slot None)) (page_at pages.new.pages place)) }
    ensures kept { OnErr result (Keeps D.told pages.old pages.new) }
    ensures others { LeavesOtherPages D.told place pages.old pages.new }
    ensures survives { Survives D.told (λ passed. passed ≡ pages.old.pages) pages.old pages.new }
    ensures at { IfErr result (NamesPage pages.old.layout place) }
    ensures outcome { Outcome D.told (Untold D.told pages.old) pages.old pages.new result }
{
    pages.known();
    let slots = slot.to_be_bytes();
    pages.change(
        place,
        &Change::TupleDrop {
            place,
            slots: &slots,
        },
    )
}
