//! The indexes of a layout.

ghost use Rattle.std.specs.Prelude.{◌≡◌, ◌<◌, ◌≤◌, nat_lt, true, length};
ghost use Rattle.std.specs.List.{list_all};
ghost use Rattle.block_model.specs.declared.limits.TheConstants.{MAX_TUPLE};
ghost use Rattle.block_model.specs.ClassLimits.{class_is_lawful};
ghost use Rattle.block_model.specs.IndexedColumns.{columns_of};
ghost use Rattle.block_model.specs.TupleSize.{tuple_size};
ghost use Rattle.index_steps.specs.IndexTuples.{index_at};

use block_model::Index;
use store_layout::Layout;

/// The index of that number, which is on columns of a declared table, within the limits.
pub fn declared_index(layout: &Layout, index: u8) -> &Index
    requires { index < length layout.now.schema.indexes }
    ensures is { result.now ≡ index_at layout.now index }
    ensures table { (index_at layout.now index).table < length layout.now.schema.tables }
    ensures some { 0 < length (index_at layout.now index).parts }
    ensures columns { list_all (λ p. nat_lt p.column (length (columns_of layout.now.schema (index_at layout.now index)))) (index_at layout.now index).parts ≡ true }
    ensures classes { list_all (class_is_lawful (columns_of layout.now.schema (index_at layout.now index))) (index_at layout.now index).parts ≡ true }
    ensures size { tuple_size (columns_of layout.now.schema (index_at layout.now index)) (index_at layout.now index).parts ≤ MAX_TUPLE }
    ensures pages { (0 < (index_at layout.now index).pages_per_range) × ((index_at layout.now index).pages_per_range ≤ 131072) }
{
    layout.known();
    &layout.schema().indexes.as_slice()[usize::from(index)]
}
