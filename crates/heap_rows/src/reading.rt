//! Reading the rows of a block.

ghost use Rattle.std.specs.Prelude.{◌≡◌, ◌<◌, ◌≤◌, length, List, [], IfErr, OnOk, OnErr};
ghost use Rattle.page_layout.specs.FreeSlots.{slot_count};
ghost use Rattle.page_layout.specs.PageContents.{HasSlots, IsForm, IsPageOf, IsRowOf, IsUnstarted, Slot};
ghost use Rattle.page_layout.specs.PageWrites.{RowHasBytes};
ghost use Rattle.page_layout.specs.RowBytes.{StoredRow};
ghost use Rattle.page_map.specs.Keeps.{Keeps, Untold};
ghost use Rattle.page_map.specs.Outcome.{NamesPage, Outcome};
ghost use Rattle.page_store.specs.Survives.{Survives};
ghost use Rattle.heap_rows.specs.Heaps.{kinds_at, relation_of, slots_a_page};
ghost use Rattle.heap_rows.specs.HeapBlocks.{OfBlocks, slots_of};
ghost use Rattle.heap_rows.specs.StoredRows.{AreRowsOf, stored_in, stored_rows};

use crate::heap::{known, relation_of};
use crate::rows::{PageRows, Stored};
use block_model::{Place, Values};
use disk_trait::Disk;
use page_layout::{Form, Page, row_at, row_in, slot_count};
use page_map::StoreError;
use page_store::PageStore;

/// `out`, which was made for the table, becomes the rows in use of a block that the table may have, in order of slot.
/// Takes no memory. After an error `out` is as before.
pub fn rows_of<D: Disk + Drop>(
    pages: &mut PageStore<D>,
    table: u8,
    block: u32,
    out: &mut PageRows,
) -> Result<(), StoreError>
    requires table { table < length pages.old.layout.schema.tables }
    requires block { block < pages.old.layout.sizes.heap_blocks }
    requires room { slots_a_page pages.old.layout table ≤ out.old.room }
    // By the blocks that the table has.
    ensures rows { OnOk result (OfBlocks D.told pages.old table (λ blocks. out.new.rows ≡ stored_rows (slots_of blocks block))) }
    // Also where the disk doesn't tell its contents.
    ensures sound { OnOk result (AreRowsOf (kinds_at pages.old.layout table) (slots_a_page pages.old.layout table) out.new.rows) }
    ensures same { OnErr result (out.new ≡ out.old) }
    ensures room { out.new.room ≡ out.old.room }
    ensures kept { Keeps D.told pages.old pages.new }
    ensures survives { Survives D.told (λ now. now ≡ pages.old.pages) pages.old pages.new }
    ensures at { IfErr result (NamesPage pages.old.layout (record { relation = relation_of table; block = block })) }
    ensures outcome { Outcome D.told (Untold D.told pages.old) pages.old pages.new result }
{
    let relation = relation_of(pages.layout(), table);
    known(pages.layout(), table);
    let form = pages.form(relation);
    match pages.read(Place { relation, block }) {
        Ok(page) => {
            read_rows(page, form, out);
            Ok(())
        }
        Err(error) => Err(error),
    }
}

/// The rows in use of the page.
fn read_rows(page: &Page, form: Form, out: &mut PageRows)
    requires form { IsForm form }
    requires page { IsPageOf form page.now }
    requires room { slot_count form ≤ out.old.room }
    ensures contents { (slots : List Slot) → HasSlots form page.now slots → out.new.rows ≡ stored_rows slots }
    ensures unstarted { IsUnstarted page.now → out.new.rows ≡ [] }
    ensures room { out.new.room ≡ out.old.room }
{
    out.clear();
    let mut values = Values::new();
    for slot in 0..slot_count(&form) {
        if let Some(bytes) = row_at(page, form, slot) {
            out.push(stored(form, slot, bytes, &mut values));
        }
    }
}

/// The row of these bytes in the slot. Its values are read into `values` on the way.
fn stored(form: Form, slot: u16, bytes: &[u8], values: &mut Values) -> Stored
    requires form { IsForm form }
    requires row { IsRowOf form bytes.now }
    ensures { (row : StoredRow) → RowHasBytes form bytes.now row → result ≡ stored_in slot row }
{
    let (id, deleter) = row_in(form, bytes, values);
    Stored {
        slot,
        id,
        deleter,
        values: *values,
    }
}

/// How many blocks the table has.
pub fn blocks<D: Disk + Drop>(pages: &PageStore<D>, table: u8) -> u32
    requires { table < length pages.now.layout.schema.tables }
    ensures within { result ≤ pages.now.layout.sizes.heap_blocks }
    // As many as the blocks that the table has.
    ensures count { OfBlocks D.told pages.now table (λ blocks. result ≡ length blocks) }
{
    let relation = relation_of(pages.layout(), table);
    pages.blocks(relation)
}
