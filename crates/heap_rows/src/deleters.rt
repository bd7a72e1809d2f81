//! Who deleted a row.

ghost use Rattle.std.specs.Prelude.{◌≡◌, ◌<◌, List, None, Some, length, slice_index_or, IfOk, IfErr};
ghost use Rattle.page_layout.specs.PageContents.{HasSlots, IsForm, IsPageOf, Slot};
ghost use Rattle.page_layout.specs.RowBytes.{StoredRow};
ghost use Rattle.page_map.specs.Keeps.{Keeps, Tells, Untold};
ghost use Rattle.page_map.specs.Outcome.{NamesPage, Outcome};
ghost use Rattle.page_store.specs.Survives.{Survives};
ghost use Rattle.heap_rows.specs.Heaps.{relation_of};
ghost use Rattle.heap_rows.specs.HeapBlocks.{OfBlocks};
ghost use Rattle.heap_rows.specs.RowPlaces.{IsInUse, slot_at};

use crate::heap::{known, relation_of};
use block_model::{Place, Spot, Values};
use disk_trait::Disk;
use page_layout::{Form, Page, row_at, row_in, slot_count};
use page_map::StoreError;
use page_store::PageStore;

/// The transaction that deleted the row at the spot, 0 for none. Copies no page. A row stands there; where the disk doesn't
/// tell its contents and none does, the page counts as damaged.
pub fn deleter_of<D: Disk + Drop>(
    pages: &mut PageStore<D>,
    table: u8,
    spot: Spot,
) -> Result<u64, StoreError>
    requires table { table < length pages.old.layout.schema.tables }
    requires block { spot.block < pages.old.layout.sizes.heap_blocks }
    requires used { Tells D.told pages.old → IsInUse pages.old.layout pages.old.pages table spot }
    // By the blocks that the table has.
    ensures deleter { IfOk result (λ deleter. OfBlocks D.told pages.old table (λ blocks. (row : StoredRow) → slot_at blocks spot ≡ Some row → deleter ≡ row.deleter)) }
    ensures kept { Keeps D.told pages.old pages.new }
    ensures survives { Survives D.told (λ now. now ≡ pages.old.pages) pages.old pages.new }
    ensures at { IfErr result (NamesPage pages.old.layout (record { relation = relation_of table; block = spot.block })) }
    ensures outcome { Outcome D.told (Untold D.told pages.old) pages.old pages.new result }
{
    let relation = relation_of(pages.layout(), table);
    known(pages.layout(), table);
    let place = Place {
        relation,
        block: spot.block,
    };
    let form = pages.form(relation);
    let at = pages.layout().page_at(place);
    match pages.read(place) {
        Ok(page) => match deleter_on(page, form, spot.slot) {
            Some(deleter) => Ok(deleter),
            None => Err(StoreError::Damaged { at }),
        },
        Err(error) => Err(error),
    }
}

/// The deleter of the row in the slot of the page. None where no row stands there.
fn deleter_on(page: &Page, form: Form, slot: u16) -> Option<u64>
    requires form { IsForm form }
    requires page { IsPageOf form page.now }
    ensures { (slots : List Slot) (row : StoredRow) → HasSlots form page.now slots → slice_index_or slots slot None ≡ Some row → result ≡ Some row.deleter }
{
    if slot >= slot_count(&form) {
        return None;
    }
    match row_at(page, form, slot) {
        Some(bytes) => {
            let mut values = Values::new();
            let (_, deleter) = row_in(form, bytes, &mut values);
            Some(deleter)
        }
        None => None,
    }
}
