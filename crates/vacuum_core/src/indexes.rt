//! The indexes of a table.

ghost use Rattle.std.specs.Prelude.{◌≡◌, ◌<◌, ◌≤◌, ℕ, length, All, IfOk};
ghost use Rattle.std.specs.Box.{boxed_slice_items};
ghost use Rattle.store_layout.specs.DiskLayout.{DiskLayout};
ghost use Rattle.index_steps.specs.ShownTable.{indexes_of};

use block_model::NoMemory;
use index_steps::every_index_of_a_table_is_listed;
use page_map::tables_have_forms;
use std::alloc::Global;
use std::boxed::BoxedSlice;
use store_layout::Layout;

/// The numbers of the table's indexes, in order.
pub(crate) fn indexes_of(
    alloc: Global,
    layout: &Layout,
    table: u8,
) -> Result<BoxedSlice<u8>, NoMemory>
    ensures indexes { IfOk result (λ indexes. boxed_slice_items indexes ≡ indexes_of layout.now table) }
    ensures few { length (indexes_of layout.now table) ≤ 8 }
{
    layout.known();
    tables_have_forms(layout);
    let mut numbers = Vec::new(alloc);
    let mut number = 0u8;
    'indexes: for index in layout.schema().indexes.as_slice() {
        if index.table == table {
            numbers.push(number)?;
        }
        number += 1;
    }
    Ok(numbers.into_boxed_slice())
}

/// Each index of a table is one of the layout. Does nothing.
pub(crate) fn indexes_are_declared()
    ensures { (layout : DiskLayout) (table : ℕ) → All (λ index. index < length layout.schema.indexes) (indexes_of layout table) }
{
    every_index_of_a_table_is_listed();
}
