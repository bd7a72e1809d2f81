//! The relation of a table, and the form of its pages.

ghost use Rattle.std.specs.Prelude.{◌≡◌, ◌*◌, ◌<◌, ◌≤◌, length, take};
ghost use Rattle.store_layout.specs.DiskLayout.{relation_blocks};
ghost use Rattle.page_layout.specs.declared.format.TheConstants.{MAX_ROW};
ghost use Rattle.page_layout.specs.PageContents.{IsForm};
ghost use Rattle.page_layout.specs.PageWrites.{AreValuesFor, RowHasBytes, row_length};
ghost use Rattle.page_map.specs.Forms.{form_of};
ghost use Rattle.page_map.specs.PageMap.{block_limit};
ghost use Rattle.heap_rows.specs.declared.heap.TheConstants.{MAX_SLOTS};
ghost use Rattle.heap_rows.specs.Heaps.{form_at, relation_of, slots_a_page, table_at};
ghost use Rattle.heap_rows.specs.RowPlaces.{new_row};

use block_model::{RowId, Table, Value};
use page_layout::{Form, MAX_ROW, write_row};
use page_map::tables_have_forms;
use store_layout::Layout;

/// How many slots a page has at most: a row has 22 bytes and its values.
pub(crate) const MAX_SLOTS: usize = 370;

/// The table of that number.
fn declared(layout: &Layout, table: u8) -> &Table
    requires { table < length layout.now.schema.tables }
    ensures { result.now ≡ table_at layout.now table }
{
    &layout.schema().tables.as_slice()[usize::from(table)]
}

/// The relation of the table.
pub(crate) fn relation_of(layout: &Layout, table: u8) -> u8
    requires { table < length layout.now.schema.tables }
    ensures number { result ≡ relation_of table }
    ensures there { result < length (relation_blocks layout.now) }
    ensures limit { block_limit layout.now result ≡ layout.now.sizes.heap_blocks }
{
    layout.known();
    table + 1
}

/// Does nothing; tells its caller that the pages of the table's relation are of its heap, that its rows fit a page, and that a
/// page has some and how many at most.
pub(crate) fn known(layout: &Layout, table: u8)
    requires { table < length layout.now.schema.tables }
    ensures found { form_of layout.now (relation_of table) ≡ form_at layout.now table }
    ensures is_form { IsForm (form_at layout.now table) }
    ensures some { 0 < slots_a_page layout.now table }
    ensures few { slots_a_page layout.now table ≤ MAX_SLOTS }
    ensures small { row_length (form_at layout.now table) ≤ MAX_ROW }
{
    layout.known();
    tables_have_forms(layout);
}

/// How many slots the table may have.
pub(crate) fn slots_in_all(layout: &Layout, table: u8) -> u64
    requires { table < length layout.now.schema.tables }
    ensures { result ≡ layout.now.sizes.heap_blocks * slots_a_page layout.now table }
{
    let blocks = u64::from(layout.sizes().heap_blocks);
    blocks * u64::from(declared(layout, table).rows_per_page)
}

/// Writes the row, which no transaction deleted, into the front of `out`, and answers how many bytes it has.
pub(crate) fn write_new(form: Form, id: RowId, values: &[Value], out: &mut [u8]) -> usize
    requires form { IsForm form }
    requires values { AreValuesFor form values.now }
    requires small { row_length form ≤ MAX_ROW }
    requires room { length out.old ≡ MAX_ROW }
    ensures within { result ≤ MAX_ROW }
    ensures row { RowHasBytes form (take result out.new) (new_row id values.now) }
{
    let size = row_length(&form);
    write_row(form, id, 0, values, &mut out[..size]);
    size
}

/// How many bytes a row has.
fn row_length(form: &Form) -> usize
    ensures { result ≡ row_length form.now }
{
    match form {
        Form::Heap { row, .. } => usize::from(*row),
        Form::Status | Form::Index => 0,
    }
}
