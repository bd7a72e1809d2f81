//! Small layouts for tests. Nothing but tests stands on it. It stands on block_model and store_layout.

ghost use Rattle.std.specs.Prelude.{◌≡◌, IfSome};
ghost use Rattle.block_model.specs.declared.schema.Sizes.{Sizes};

use crate::Layout;
use block_model::{Class, Column, Index, Kind, Name, Part, Schema, Sequence, Sizes, Table, Tables};
use std::alloc::Global;

/// Areas of the log of 16 pages, 16 frames, and one block of a table and of the statuses: the least of each. An index has its
/// metapage, a page of its map and one of tuples.
pub const LEAST: Sizes = Sizes {
    heap_blocks: 1,
    index_blocks: 3,
    status_blocks: 1,
    log_pages: 16,
    frames: 16,
};

/// The layout of the table `t(a int8)` with so many rows a page. `None` is want of memory, or a limit that is passed.
pub fn table_layout(alloc: Global, rows_per_page: u16, sizes: Sizes) -> Option<Layout>
    ensures { IfSome result (λ layout. layout.sizes ≡ sizes) }
{
    let schema = Schema {
        tables: one_table(alloc, rows_per_page)?,
        indexes: Sequence::new(alloc),
    };
    Layout::new(schema, sizes).ok()
}

/// The same layout with the index `i on t(a minmax)` with ranges of one page.
pub fn indexed_layout(alloc: Global, rows_per_page: u16, sizes: Sizes) -> Option<Layout>
    ensures { IfSome result (λ layout. layout.sizes ≡ sizes) }
{
    let mut parts = Sequence::new(alloc);
    parts
        .push(Part {
            column: 0,
            class: Class::MinMax,
        })
        .ok()?;
    let mut indexes = Sequence::new(alloc);
    indexes
        .push(Index {
            name: Name::new(b"i")?,
            table: 0,
            pages_per_range: 1,
            auto: false,
            parts,
        })
        .ok()?;
    let schema = Schema {
        tables: one_table(alloc, rows_per_page)?,
        indexes,
    };
    Layout::new(schema, sizes).ok()
}

/// The table `t(a int8)`.
fn one_table(alloc: Global, rows_per_page: u16) -> Option<Tables> {
    let mut columns = Sequence::new(alloc);
    columns
        .push(Column {
            name: Name::new(b"a")?,
            kind: Kind::Int,
        })
        .ok()?;
    let mut tables = Sequence::new(alloc);
    tables
        .push(Table {
            name: Name::new(b"t")?,
            rows_per_page,
            columns,
        })
        .ok()?;
    Some(tables)
}
