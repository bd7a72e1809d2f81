//! Rows as bytes.

ghost use Rattle.std.specs.Prelude.{◌≡◌, ◌≤◌, ◌<◌, ◌^◌, ◌++◌, drop, length, None};
ghost use Rattle.block_model.specs.declared.limits.TheConstants.{MAX_COLUMNS};
ghost use Rattle.block_model.specs.RowSize.{row_size};
ghost use Rattle.store_layout.specs.declared.layout.TheConstants.{FORMAT};
ghost use Rattle.page_layout.specs.HeapForms.{heap_form, kinds_of};
ghost use Rattle.page_layout.specs.PageContents.{IsForm, IsRowOf};
ghost use Rattle.page_layout.specs.PageWrites.{AreValuesFor, RowHasBytes, row_length};
ghost use Rattle.page_layout.specs.RowReading.{row_in};
ghost use Rattle.page_layout.specs.RowFaults.{row_fault};
ghost use Rattle.page_layout.specs.RowBytes.{AreBytesOf, HaveKinds, IsReadAs, IsRow, IsRowBytes, StoredRow, head_bytes, null_bits, row_bytes};

use crate::column::{columns_size, read_columns, write_columns};
use crate::page::Form;
use block_model::{Kind, Kinds, RowId, Table, Value, Values};
use index_layout::{get_u32, get_u64, put_u32, put_u64};
use store_layout::FORMAT;

/// The first byte of a slot in use, and of a free one.
pub(crate) const IN_USE: u8 = 1;

pub(crate) const FREE: u8 = 0;

/// Where the transaction, the place in it, the deleter, the null bits and the columns of a row begin.
pub(crate) const ID_T: usize = 1;

pub(crate) const ID_K: usize = 9;

pub(crate) const DELETER: usize = 13;

pub(crate) const NULL_BITS: usize = 21;

pub(crate) const COLUMNS: usize = 22;

/// The kinds of a table's columns, of which a table has at most eight.
pub fn kinds_of(table: &Table) -> Kinds
    requires { length table.now.columns ≤ MAX_COLUMNS }
    ensures { result ≡ kinds_of table.now }
{
    Kinds::of(table.columns.as_slice())
}

/// The bytes of a row of the table, which has at most eight columns.
pub fn row_size(table: &Table, format: u16) -> u16
    requires columns { length table.now.columns ≤ MAX_COLUMNS }
    requires format { format ≡ FORMAT }
    ensures { result ≡ row_size (kinds_of table.now) }
{
    // Rows are the same in every format that there is.
    let _ = format;
    let kinds = kinds_of(table);
    22 + columns_size(kinds.as_slice())
}

/// The form of the pages of the table's heap. The table has at most eight columns.
pub fn heap_form(table: &Table) -> Form
    requires { length table.now.columns ≤ MAX_COLUMNS }
    ensures { result ≡ heap_form table.now }
{
    Form::Heap {
        row: row_size(table, FORMAT),
        slots: table.rows_per_page,
        kinds: kinds_of(table),
        format: FORMAT,
    }
}

/// Writes a row into the bytes of a slot. The values are of the kinds of the table's columns.
pub fn encode_row(
    table: &Table,
    format: u16,
    id: RowId,
    deleter: u64,
    values: &[Value],
    out: &mut [u8],
)
    requires columns { length table.now.columns ≤ MAX_COLUMNS }
    requires format { format ≡ FORMAT }
    requires kinds { HaveKinds (kinds_of table.now) values.now }
    requires room { length out.old ≡ row_size (kinds_of table.now) }
    ensures written { out.new ≡ row_bytes (kinds_of table.now) (record { id = id; deleter = deleter; values = values.now }) }
    // So `decode_row` answers it again.
    ensures row { IsRow (kinds_of table.now) (record { id = id; deleter = deleter; values = values.now }) }
{
    // Rows are the same in every format that there is.
    let _ = format;
    let kinds = kinds_of(table);
    fill_row(kinds.as_slice(), id, deleter, values, out);
}

/// The same by the form of the page, one of a heap: `out` becomes the bytes of the row, of which `decode_row` and `row_in`
/// read it again. The values are of the kinds of the form's columns.
pub fn write_row(form: Form, id: RowId, deleter: u64, values: &[Value], out: &mut [u8])
    requires form { IsForm form }
    requires values { AreValuesFor form values.now }
    requires room { length out.old ≡ row_length form }
    ensures { RowHasBytes form out.new (record { id = id; deleter = deleter; values = values.now }) }
{
    match form {
        Form::Status | Form::Index => unreachable!(),
        Form::Heap { kinds, .. } => fill_row(kinds.as_slice(), id, deleter, values, out),
    }
}

/// Writes the row of these kinds.
fn fill_row(kinds: &[Kind], id: RowId, deleter: u64, values: &[Value], out: &mut [u8])
    requires columns { length kinds.now ≤ 8 }
    requires kinds { HaveKinds kinds.now values.now }
    requires room { length out.old ≡ row_size kinds.now }
    ensures written { out.new ≡ row_bytes kinds.now (record { id = id; deleter = deleter; values = values.now }) }
    ensures row { IsRow kinds.now (record { id = id; deleter = deleter; values = values.now }) }
{
    write_head(id, deleter, null_bits(values), out);
    write_columns(kinds, values, &mut out[COLUMNS..]);
}

/// Writes all in front of the columns.
fn write_head(id: RowId, deleter: u64, bits: u8, out: &mut [u8])
    requires { 22 ≤ length out.old }
    ensures written { out.new ≡ head_bytes id deleter bits ++ drop 22 out.old }
    ensures numbers { (id.t < 2 ^ 64) × (id.k < 2 ^ 32) × (deleter < 2 ^ 64) }
{
    out[0] = IN_USE;
    put_u64(out, ID_T, id.t);
    put_u32(out, ID_K, id.k);
    put_u64(out, DELETER, deleter);
    out[NULL_BITS] = bits;
}

/// Bit c is set where the value of column c is null.
#[tactic(auto, unfolding(crate::specs::RowBytes::null_bits))]
fn null_bits(values: &[Value]) -> u8
    requires { length values.now ≤ 8 }
    ensures bits { result ≡ null_bits values.now }
    ensures small { result < 2 ^ length values.now }
{
    match values {
        [] => 0,
        [value, values @ ..] => u8::from(*value == Value::Null) + 2 * null_bits(values),
    }
}

/// The id and the deleter of the row with these bytes, which are those of a row of the table. `values` becomes its values.
pub fn decode_row(table: &Table, format: u16, bytes: &[u8], values: &mut Values) -> (RowId, u64)
    requires columns { length table.now.columns ≤ MAX_COLUMNS }
    requires format { format ≡ FORMAT }
    requires row { IsRowBytes (kinds_of table.now) bytes.now }
    ensures row { (row : StoredRow) → AreBytesOf (kinds_of table.now) bytes.now row → IsReadAs row result values.new }
{
    // Rows are the same in every format that there is.
    let _ = format;
    let kinds = kinds_of(table);
    read_row(kinds.as_slice(), bytes, values)
}

/// The same by the form of the page: the bytes are those of a row of the form.
pub fn row_in(form: Form, bytes: &[u8], values: &mut Values) -> (RowId, u64)
    requires form { IsForm form }
    requires row { IsRowOf form bytes.now }
    ensures row { (row : StoredRow) → RowHasBytes form bytes.now row → IsReadAs row result values.new }
{
    match form {
        Form::Status | Form::Index => unreachable!(),
        Form::Heap { kinds, .. } => read_row(kinds.as_slice(), bytes, values),
    }
}

#[tactic(auto, unfolding(crate::specs::RowReading::row_in, crate::specs::RowFaults::row_fault))]
fn read_row(kinds: &[Kind], bytes: &[u8], values: &mut Values) -> (RowId, u64)
    requires columns { length kinds.now ≤ 8 }
    requires whole { length bytes.now ≡ row_size kinds.now }
    requires sound { row_fault kinds.now bytes.now ≡ None }
    ensures id { result ≡ ((row_in kinds.now bytes.now).id, (row_in kinds.now bytes.now).deleter) }
    ensures values { values.new ≡ (row_in kinds.now bytes.now).values }
{
    let id = RowId {
        t: get_u64(bytes, ID_T),
        k: get_u32(bytes, ID_K),
    };
    let deleter = get_u64(bytes, DELETER);
    *values = Values::new();
    read_columns(kinds, bytes[NULL_BITS], &bytes[COLUMNS..], values);
    (id, deleter)
}
