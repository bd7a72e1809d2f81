//! The rows of a block, added to a tuple of an index of their table.

ghost use Rattle.std.specs.Prelude.{◌≡◌, ◌*◌, ◌^◌, ◌<◌, ◌≤◌, ℕ, All, IfOk, List, length, min, take};
ghost use Rattle.block_model.specs.declared.value.Value.{Value as AnyValue};
ghost use Rattle.heap_rows.specs.Heaps.{kinds_at, slots_a_page, table_at};
ghost use Rattle.heap_rows.specs.declared.rows.Stored.{Stored as AnyStored};
ghost use Rattle.opclass_any.specs.declared.classes.AnyClass.{AnyClass};
ghost use Rattle.page_layout.specs.RowBytes.{HaveKinds};
ghost use Rattle.range_tuple.specs.ExactTuples.{with_rows};
ghost use Rattle.range_tuple.specs.TupleIncludes.{TakesThere};
ghost use Rattle.range_tuple.specs.Tuples.{IsTuple, parts_of, with_row};
ghost use Rattle.index_steps.specs.IndexTuples.{TakesValues, classes_of, index_at, shape_of};
ghost use Rattle.summarise_core.specs.BlockRows.{AreKnown, IsTakenBy, values_of};
ghost use Rattle.summarise_core.specs.SummariseHands.{table_of};

use block_model::{NoMemory, Table};
use heap_rows::{PageRows, Stored};
use index_steps::{declared_index, rows_of_the_table_are_taken, values_are_known};
use range_tuple::RangeTuple;
use std::alloc::Global;
use store_layout::Layout;

/// The table of the index.
pub fn table_of(layout: &Layout, index: u8) -> u8
    requires { index < length layout.now.schema.indexes }
    ensures number { result ≡ table_of layout.now index }
    ensures there { result < length layout.now.schema.tables }
{
    declared_index(layout, index).table
}

/// How many heap blocks a range of the index has.
pub fn blocks_a_range(layout: &Layout, index: u8) -> u32
    requires { index < length layout.now.schema.indexes }
    ensures number { result ≡ (index_at layout.now index).pages_per_range }
    ensures some { 0 < result }
    ensures few { result ≤ 131072 }
{
    declared_index(layout, index).pages_per_range
}

/// A tuple of the index, in which nothing was added.
pub(crate) fn new_tuple(alloc: Global, layout: &Layout, index: u8) -> Result<RangeTuple, NoMemory>
    requires { index < length layout.now.schema.indexes }
    ensures { IfOk result (λ tuple. parts_of tuple.columns ≡ classes_of (shape_of layout.now index)) }
{
    let declared = declared_index(layout, index);
    let schema = layout.schema();
    match RangeTuple::new(alloc, declared, schema, 0) {
        Ok(tuple) => Ok(tuple),
        Err(error) => Err(error),
    }
}

/// No rows, with room for those of a block of the index's table.
pub(crate) fn new_rows(alloc: Global, layout: &Layout, index: u8) -> Result<PageRows, NoMemory>
    requires { index < length layout.now.schema.indexes }
    ensures { IfOk result (λ rows. slots_a_page layout.now (table_of layout.now index) ≤ rows.room) }
{
    let table = declared_table(layout, table_of(layout, index));
    match PageRows::new(alloc, table) {
        Ok(rows) => Ok(rows),
        Err(error) => Err(error),
    }
}

/// The table of that number.
fn declared_table(layout: &Layout, table: u8) -> &Table
    requires { table < length layout.now.schema.tables }
    ensures { result.now ≡ table_at layout.now table }
{
    &layout.schema().tables.as_slice()[usize::from(table)]
}

/// The first heap block of the range.
pub fn first_block(range: u32, in_range: u32) -> u64
    requires { in_range ≤ 131072 }
    ensures number { result ≡ range * in_range }
    ensures small { result ≤ 2 ^ 49 }
{
    let number = u64::from(range);
    let each = u64::from(in_range);
    number * each
}

/// The lesser of both.
pub(crate) fn lesser(a: u64, b: u64) -> u64
    ensures { result ≡ min a b }
{
    if a < b { a } else { b }
}

/// The classes of an index take each row of its table. Does nothing.
pub(crate) fn rows_are_taken(layout: &Layout, index: u8)
    requires { index < length layout.now.schema.indexes }
    ensures { (values : List AnyValue) → HaveKinds (kinds_at layout.now (table_of layout.now index)) values → TakesValues (shape_of layout.now index) values }
{
    declared_index(layout, index);
    rows_of_the_table_are_taken();
}

/// Adds the rows one after the other, each of which the classes of the tuple take. What the first ones make is a tuple too.
pub(crate) fn add_rows(rows: &[Stored], tuple: &mut RangeTuple)
    requires { All (λ row. IsTakenBy (parts_of tuple.old.columns) row.values) rows.now }
    ensures rows { tuple.new ≡ with_rows (values_of rows.now) tuple.old }
    ensures tuples { (n : ℕ) → IsTuple (with_rows (take n (values_of rows.now)) tuple.old) }
    ensures known { All (λ row. AreKnown row.values) rows.now }
    ensures same_index { parts_of tuple.new.columns ≡ parts_of tuple.old.columns }
{
    tuple.known();
    'rows: for row in rows {
        add_one(row, tuple);
    }
}

/// Adds the row, which the classes of the tuple take.
fn add_one(row: &Stored, tuple: &mut RangeTuple)
    requires { IsTakenBy (parts_of tuple.old.columns) row.now.values }
    ensures row { tuple.new ≡ with_row row.now.values tuple.old }
    ensures tuple { IsTuple tuple.new }
    ensures known { AreKnown row.now.values }
    ensures same_index { parts_of tuple.new.columns ≡ parts_of tuple.old.columns }
{
    let values = row.values.as_slice();
    values_are_known(values);
    tuple.add_row(values);
    tuple.known();
}
