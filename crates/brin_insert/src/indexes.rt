//! Numbers of a layout's indexes.

ghost use Rattle.std.specs.Prelude.{◌≡◌, ◌/◌, ◌<◌, true, false, length};
ghost use Rattle.index_steps.specs.IndexTuples.{index_at};
ghost use Rattle.brin_insert.specs.Inserts.{AsksAt};

use block_model::Spot;
use index_steps::declared_index;
use store_layout::Layout;

/// The range of the heap block in the index.
pub(crate) fn range_in(layout: &Layout, index: u8, block: u32) -> u32
    requires { index < length layout.now.schema.indexes }
    ensures { result ≡ block / (index_at layout.now index).pages_per_range }
{
    block / declared_index(layout, index).pages_per_range
}

/// Whether a row at the spot asks for a summary of the range before its own in the index.
pub(crate) fn asks_at(layout: &Layout, index: u8, spot: Spot) -> bool
    requires { index < length layout.now.schema.indexes }
    ensures asks { result ≡ true → AsksAt layout.now index spot }
    ensures plain { result ≡ false → AsksAt layout.now index spot → ⊥ }
{
    let declared = declared_index(layout, index);
    if !declared.auto {
        return false;
    }
    if spot.slot != 0 {
        return false;
    }
    let in_range = declared.pages_per_range;
    if spot.block / in_range == 0 {
        return false;
    }
    spot.block % in_range == 0
}

/// How many indexes there are.
pub(crate) fn index_count(layout: &Layout) -> u8
    ensures { result ≡ length layout.now.schema.indexes }
{
    layout.known();
    layout.schema().indexes.as_slice().len() as u8
}
