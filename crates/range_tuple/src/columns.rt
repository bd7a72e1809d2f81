//! The columns of a tuple, one after the other.

ghost use Rattle.std.specs.Prelude.{◌≡◌, ◌≢◌, ◌<◌, ◌≤◌, ◌+◌, ◌*◌, ◌++◌, ℕ, true, false, All, List, length, map, drop, sum_by, Ok, Err, IfOk, OnOk, IfErr, MatchResult};
ghost use Rattle.block_model.specs.declared.limits.TheConstants.{MAX_CONDITIONS, MAX_TUPLE};
ghost use Rattle.std.specs.Box.{boxed_slice_items};
ghost use Rattle.std.specs.List.{list_all};
ghost use Rattle.block_model.specs.declared.value.Value.{Value};
ghost use Rattle.block_model.specs.IndexedColumns.{columns_of, kind_at};
ghost use Rattle.block_model.specs.ClassLimits.{class_is_lawful};
ghost use Rattle.block_model.specs.RowMatches.{column_matches};
ghost use Rattle.block_model.specs.TupleSize.{part_size};
ghost use Rattle.range_tuple.specs.Keeps.{column_allows, keeps};
ghost use Rattle.range_tuple.specs.KeptColumns.{ReadsAgain};
ghost use Rattle.range_tuple.specs.TupleBytes.{columns_bytes, lengths_bytes, states_bytes, summaries_bytes};
ghost use Rattle.range_tuple.specs.TupleFaults.{head_fault};
ghost use Rattle.range_tuple.specs.TupleReading.{columns_read};
ghost use Rattle.range_tuple.specs.TupleIncludes.{ColumnIncludes, ColumnTakes};
ghost use Rattle.range_tuple.specs.Tuples.{IndexedColumn, IsColumn, empty_column, emptied, has_nothing, with_row_at, united_columns, parts_of, tuple_of, column_room};

use crate::column::{COLUMN_HEADER, TupleColumn};
use crate::head::HEADER;
use crate::scan_keys::ScanKeys;
use crate::spare::SpareColumn;
use crate::state::NullState;
use block_model::{Column, Cond, Index, NoMemory, Part, Schema, Value, columns_of, kind_at};
use byte_fields::{get_u16, put_u16};
use opclass_any::AnyClass;
use opclass_api::Malformed;
use std::alloc::Global;
use std::boxed::BoxedSlice;

/// The columns of an index, in which nothing was added. Takes the memory of their summaries.
pub(crate) fn new_columns(
    alloc: Global,
    index: &Index,
    schema: &Schema,
) -> Result<BoxedSlice<TupleColumn>, NoMemory>
    requires classes { list_all (class_is_lawful (columns_of schema.now index.now)) index.now.parts ≡ true }
    requires sizes { All (λ part. part_size (columns_of schema.now index.now) part < 65536) index.now.parts }
    ensures columns { IfOk result (λ columns. boxed_slice_items columns ≡ map (empty_column (columns_of schema.now index.now)) index.now.parts) }
    ensures rooms { IfOk result (λ columns. map column_room (boxed_slice_items columns) ≡ map (part_size (columns_of schema.now index.now)) index.now.parts) }
{
    let mut columns = Vec::with_capacity(alloc, index.parts.len())?;
    'parts: for part in index.parts.as_slice() {
        let column = new_column(alloc, part, columns_of(schema, index))?;
        columns.push(column)?;
    }
    Ok(columns.into_boxed_slice())
}

fn new_column(alloc: Global, part: &Part, columns: &[Column]) -> Result<TupleColumn, NoMemory>
    requires class { class_is_lawful columns.now part.now ≡ true }
    requires size { part_size columns.now part.now < 65536 }
    ensures column { IfOk result (λ column. column ≡ empty_column columns.now part.now) }
    ensures room { IfOk result (λ column. column_room column ≡ part_size columns.now part.now) }
{
    let class = AnyClass::of(part.class, kind_at(columns, part.column));
    TupleColumn::new(alloc, part.column, class)
}

/// Columns to be read in place of these. Takes the memory of their summaries.
pub(crate) fn new_spare(
    alloc: Global,
    columns: &[TupleColumn],
) -> Result<BoxedSlice<SpareColumn>, NoMemory>
    ensures { IfOk result (λ spare. boxed_slice_items spare ≡ map emptied columns.now) }
{
    let mut spare = Vec::with_capacity(alloc, columns.len())?;
    'columns: for column in columns {
        spare.push(SpareColumn::of(alloc, column)?)?;
    }
    Ok(spare.into_boxed_slice())
}

/// Does nothing; tells its caller that every column is one, and what its class knows of bytes.
pub(crate) fn known(columns: &[TupleColumn])
    ensures columns { All IsColumn columns.now }
    ensures classes { All ReadsAgain columns.now }
{
    'columns: for column in columns {
        column.known();
    }
}

/// Adds a row to each column; answers whether one changed.
pub(crate) fn add_to_each(columns: &mut [TupleColumn], values: &[Value]) -> bool
    requires { All (ColumnTakes values.now) columns.old }
    ensures widened { columns.new ≡ map (with_row_at values.now) columns.old }
    ensures includes_the_row { All (ColumnIncludes values.now) columns.new }
    ensures keeps_what_it_included { (row : List Value) → All (ColumnIncludes row) columns.old → All (ColumnIncludes row) columns.new }
    ensures same { result ≡ false → columns.new ≡ columns.old }
    ensures changed { result ≡ true → columns.new ≢ columns.old }
{
    let mut changed = false;
    'columns: for at in 0..columns.len() {
        let column = &mut columns[at];
        changed = column.add_row(values) || changed;
    }
    changed
}

/// Takes into each column what the same one of another tuple has; answers whether one changed.
pub(crate) fn unite_each(columns: &mut [TupleColumn], others: &[TupleColumn]) -> bool
    requires { parts_of others.now ≡ parts_of columns.old }
    ensures widened { columns.new ≡ united_columns columns.old others.now }
    ensures keeps_what_it_included { (row : List Value) → All (ColumnIncludes row) columns.old → All (ColumnIncludes row) columns.new }
    ensures includes_the_others { (row : List Value) → All (ColumnIncludes row) others.now → All (ColumnIncludes row) columns.new }
    ensures same { result ≡ false → columns.new ≡ columns.old }
    ensures changed { result ≡ true → columns.new ≢ columns.old }
{
    let mut changed = false;
    'columns: for at in 0..columns.len() {
        let column = &mut columns[at];
        changed = column.unite(&others[at]) || changed;
    }
    changed
}

/// Whether nothing was added in any.
pub(crate) fn have_nothing(columns: &[TupleColumn]) -> bool
    ensures { result ≡ list_all has_nothing columns.now }
{
    columns.iter().all(|column| column.has_nothing())
}

/// Whether each column allows the conditions. Where one doesn't, they include no row that matches them.
pub(crate) fn all_allow(columns: &[TupleColumn], keys: &ScanKeys<'_>) -> bool
    ensures answer { result ≡ list_all (column_allows keys.now) columns.now }
    ensures misses_no_match { result ≡ false → (row : List Value) → All (ColumnIncludes row) columns.now → list_all (column_matches row) keys.now ≡ false }
{
    'columns: for column in columns {
        if !column.allows(keys) {
            return false;
        }
    }
    true
}

/// How many bytes the columns have at most.
pub(crate) fn room_of(columns: &[TupleColumn]) -> usize
    requires { sum_by column_room columns.now ≤ MAX_TUPLE }
    ensures { result ≡ sum_by column_room columns.now }
{
    let mut room = 0;
    'columns: for column in columns {
        room += column.room();
    }
    room
}

/// Writes the bytes of the columns to the front of `out`, and answers how many they are.
pub(crate) fn write_each(columns: &[TupleColumn], out: &mut [u8]) -> usize
    requires { sum_by column_room columns.now ≤ length out.old }
    ensures size { result ≡ length (columns_bytes columns.now) }
    ensures within { result ≤ sum_by column_room columns.now }
    ensures written { out.new ≡ columns_bytes columns.now ++ drop result out.old }
{
    let count = columns.len();
    let (states, rest) = out.split_at_mut(count);
    let (lengths, summaries) = rest.split_at_mut(2 * count);
    write_states(columns, states);
    COLUMN_HEADER * count + write_summaries(columns, lengths, summaries)
}

/// Writes the states, one byte each.
fn write_states(columns: &[TupleColumn], out: &mut [u8])
    requires { length out.old ≡ length columns.now }
    ensures { out.new ≡ states_bytes columns.now }
{
    'columns: for i in 0..columns.len() {
        out[i] = columns[i].state_number();
    }
}

/// Writes the lengths of the summaries, two bytes each, and to the front of `summaries` the summaries themselves. Answers how
/// many bytes these are.
fn write_summaries(columns: &[TupleColumn], lengths: &mut [u8], summaries: &mut [u8]) -> usize
    requires lengths { length lengths.old ≡ 2 * length columns.now }
    requires room { sum_by column_room columns.now ≤ 3 * length columns.now + length summaries.old }
    ensures size { result ≡ length (summaries_bytes columns.now) }
    ensures within { 3 * length columns.now + result ≤ sum_by column_room columns.now }
    ensures lengths { lengths.new ≡ lengths_bytes columns.now }
    ensures summaries { summaries.new ≡ summaries_bytes columns.now ++ drop result summaries.old }
{
    let mut at = 0;
    'columns: for i in 0..columns.len() {
        let size = columns[i].write_summary(&mut summaries[at..]);
        put_u16(lengths, 2 * i, size);
        at += usize::from(size);
    }
    at
}

/// Makes the columns those of the tuple that the bytes encode, in which the fields before the summaries are in form. `Err`
/// exactly where the bytes encode none of this index.
pub(crate) fn read_each(spare: &mut [SpareColumn], bytes: &[u8]) -> Result<(), Malformed>
    requires { head_fault (length spare.old) bytes.now ≡ None }
    ensures same_index { parts_of spare.new ≡ parts_of spare.old }
    ensures found { OnOk result (drop 5 bytes.now ≡ columns_bytes spare.new) }
    ensures read { let read = columns_read (length spare.old) (parts_of spare.old) bytes.now in MatchResult result (λ ok. read ≡ Ok spare.new) (λ fault. read ≡ Err fault.at) }
    ensures within { IfErr result (λ fault. fault.at ≤ length bytes.now) }
{
    let count = spare.len();
    let mut at = HEADER + COLUMN_HEADER * count;
    'columns: for i in 0..count {
        let state = NullState::of_number(bytes[HEADER + i]);
        let size = usize::from(get_u16(bytes, HEADER + count + 2 * i));
        let column = &mut spare[i];
        if let Err(fault) = column.read(state, size, &bytes[at..]) {
            return Err(Malformed { at: at + fault.at });
        }
        at += size;
    }
    if at < bytes.len() {
        return Err(Malformed { at });
    }
    Ok(())
}

/// Whether nothing was added in any of the columns that were read.
fn have_nothing_read(spare: &[SpareColumn]) -> bool
    ensures { result ≡ list_all has_nothing spare.now }
{
    spare.iter().all(|column| column.has_nothing())
}

/// Whether each of the columns that were read allows the conditions, which are at most sixteen. Where one doesn't, they include no
/// row that matches them.
fn all_read_allow(spare: &[SpareColumn], conds: &[Cond]) -> bool
    requires { length conds.now ≤ MAX_CONDITIONS }
    ensures answer { result ≡ list_all (column_allows conds.now) spare.now }
    ensures misses_no_match { result ≡ false → (row : List Value) → All (ColumnIncludes row) spare.now → list_all (column_matches row) conds.now ≡ false }
{
    'columns: for column in spare {
        if !column.allows_each(conds) {
            return false;
        }
    }
    true
}

/// Whether a tuple of the columns that were read, a placeholder or not, keeps the conditions. Where it doesn't, they include no row
/// that matches them.
pub(crate) fn keep(placeholder: bool, spare: &[SpareColumn], conds: &[Cond]) -> bool
    requires some { 0 < length spare.now }
    requires few { length conds.now ≤ MAX_CONDITIONS }
    ensures answer { (range : ℕ) → result ≡ keeps (tuple_of range placeholder spare.now) conds.now }
    ensures misses_no_match { result ≡ false → (row : List Value) → All (ColumnIncludes row) spare.now → list_all (column_matches row) conds.now ≡ false }
{
    if placeholder {
        return true;
    }
    !have_nothing_read(spare) && all_read_allow(spare, conds)
}

/// Puts the columns that were read in place of a tuple's, which are read next.
pub(crate) fn exchange_each(columns: &mut [TupleColumn], spare: &mut [SpareColumn])
    requires { parts_of columns.old ≡ parts_of spare.old }
    ensures taken { columns.new ≡ spare.old }
    ensures given { spare.new ≡ columns.old }
{
    'columns: for i in 0..columns.len() {
        spare[i].exchange(&mut columns[i]);
    }
}

/// Makes each column one in which nothing was added.
pub(crate) fn empty_out_each(columns: &mut [TupleColumn], spare: &[SpareColumn])
    requires { parts_of columns.old ≡ parts_of spare.now }
    ensures { columns.new ≡ map emptied columns.old }
{
    'columns: for i in 0..columns.len() {
        spare[i].empty_out(&mut columns[i]);
    }
}
