//! How many relations a layout has, and how many blocks each.

ghost use Rattle.std.specs.Prelude.{◌≡◌, ◌<◌, length, slice_index};
ghost use Rattle.store_layout.specs.DiskLayout.{relation_blocks};

use crate::layout::Layout;

/// How many relations the layout has: the statuses, the tables and the indexes.
pub fn count_relations(layout: &Layout) -> u8
    ensures { result ≡ length (relation_blocks layout.now) }
{
    layout.known();
    let schema = layout.schema();
    (1 + schema.tables.len() + schema.indexes.len()) as u8
}

/// How many blocks a relation may have.
pub fn blocks_of(layout: &Layout, relation: u8) -> u32
    requires { relation < length (relation_blocks layout.now) }
    ensures { result ≡ slice_index (relation_blocks layout.now) relation }
{
    let sizes = layout.sizes();
    if relation == 0 {
        return sizes.status_blocks;
    }
    if usize::from(relation) <= layout.schema().tables.len() {
        return sizes.heap_blocks;
    }
    sizes.index_blocks
}
