//! The indexes of a scan's table, each with room for one of its tuples.

ghost use Rattle.std.specs.Prelude.{◌≡◌, ◌≤◌, ◌++◌, All, IfOk, OnOk};
ghost use Rattle.std.specs.Box.{boxed_slice_items};
ghost use Rattle.bitmap_scan.specs.IndexReaders.{all_scanned, scanned, scanned_if, scanned_in};
ghost use Rattle.bitmap_scan.specs.ReadableIndexes.{AreReadable, IsReadable};
ghost use Rattle.bitmap_scan.specs.ScanHands.{scanned_indexes};

use block_model::{Index, NoMemory, Schema};
use range_tuple::RangeTuple;
use std::alloc::Global;
use std::boxed::BoxedSlice;
use store_layout::Layout;

/// An index, by its number among all, with room for a tuple of it.
#[derive(Debug, Drop)]
pub(crate) struct IndexReader {
    pub(crate) number: u8,
    /// Heap blocks.
    pub(crate) pages_per_range: u32,
    pub(crate) tuple: RangeTuple,
}

/// Readers of the indexes of the table, in order. Takes the memory of a tuple of each.
pub(crate) fn readers_of(
    alloc: Global,
    layout: &Layout,
    table: u8,
) -> Result<BoxedSlice<IndexReader>, NoMemory>
    ensures indexes { IfOk result (λ readers. all_scanned (boxed_slice_items readers) ≡ scanned_indexes layout.now table) }
    ensures some_pages { All (λ i. 1 ≤ i.pages_per_range) (scanned_indexes layout.now table) }
{
    lawful(layout);
    let schema = layout.schema();
    let mut readers = Vec::new(alloc);
    let mut number = 0u8;
    'indexes: for index in schema.indexes.as_slice() {
        push_reader(alloc, index, schema, number, table, &mut readers)?;
        number += 1;
    }
    Ok(readers.into_boxed_slice())
}

/// Appends a reader of the index of that number, if it is one of the table.
fn push_reader(
    alloc: Global,
    index: &Index,
    schema: &Schema,
    number: u8,
    table: u8,
    readers: &mut Vec<IndexReader>,
) -> Result<(), NoMemory>
    requires { IsReadable schema.now index.now }
    ensures { OnOk result (all_scanned readers.new.items ≡ all_scanned readers.old.items ++ scanned_if schema.now table number index.now) }
{
    if index.table != table {
        return Ok(());
    }
    let reader = reader_of(alloc, index, schema, number)?;
    readers.push(reader)?;
    Ok(())
}

/// A reader of the index of that number.
fn reader_of(
    alloc: Global,
    index: &Index,
    schema: &Schema,
    number: u8,
) -> Result<IndexReader, NoMemory>
    requires { IsReadable schema.now index.now }
    ensures { IfOk result (λ reader. scanned reader ≡ scanned_in schema.now number index.now) }
{
    let tuple = RangeTuple::new(alloc, index, schema, 0)?;
    Ok(IndexReader {
        number,
        pages_per_range: index.pages_per_range,
        tuple,
    })
}

/// Does nothing; tells its caller what the limits of a layout say of its indexes.
fn lawful(layout: &Layout)
    ensures { AreReadable layout.now.schema }
{
    layout.known();
}
