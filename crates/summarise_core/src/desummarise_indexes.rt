//! The index of a desummarise, by its number.

ghost use Rattle.std.specs.Prelude.{◌≡◌, ◌<◌, length};
ghost use Rattle.summarise_core.specs.Desummarises.{in_range_of, table_of};

use index_steps::declared_index;
use store_layout::Layout;

/// The table of the index.
pub(crate) fn table_of(layout: &Layout, index: u8) -> u8
    requires { index < length layout.now.schema.indexes }
    ensures number { result ≡ table_of layout.now index }
    ensures there { result < length layout.now.schema.tables }
{
    declared_index(layout, index).table
}

/// How many heap blocks a range of the index has.
pub(crate) fn blocks_a_range(layout: &Layout, index: u8) -> u32
    requires { index < length layout.now.schema.indexes }
    ensures number { result ≡ in_range_of layout.now index }
    ensures some { 0 < result }
{
    declared_index(layout, index).pages_per_range
}
