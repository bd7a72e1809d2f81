//! What the pages of the tables of a layout are.

ghost use Rattle.std.specs.Prelude.{◌≤◌, length};
ghost use Rattle.std.specs.List.{All};
ghost use Rattle.page_map.specs.Forms.{HasForm};

use page_redo::Layout;

/// Does nothing; tells its caller that the tables and indexes of a layout are few, and that the rows of a page of each table
/// fit it.
pub fn tables_have_forms(layout: &Layout)
    ensures few { length layout.now.schema.tables ≤ 8 }
    ensures few_indexes { length layout.now.schema.indexes ≤ 8 }
    ensures forms { All HasForm layout.now.schema.tables }
{
    layout.known();
}
