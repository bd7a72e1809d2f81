//! The blocks of a table as the pages show them.

ghost use Rattle.std.specs.Prelude.{◌≡◌, ℕ, List, [], length};
ghost use Rattle.block_model.specs.declared.place.Place.{Place as AnyPlace};
ghost use Rattle.store_layout.specs.DiskLayout.{DiskLayout};
ghost use Rattle.page_layout.specs.PageContents.{IsUnstarted, Slot};
ghost use Rattle.page_map.specs.PageMap.{PageMap, page_at};
ghost use Rattle.heap_rows.specs.HeapBlocks.{HasBlocks, StartsFirst};

use page_layout::slots_are_read;

/// A table has no blocks where no page is started.
pub fn unstarted_tables_have_no_blocks()
    ensures { (layout : DiskLayout) (pages : PageMap) (table : ℕ) → ((place : AnyPlace) → IsUnstarted (page_at pages place)) → HasBlocks layout pages table [] }
{}

/// A table has one list of blocks, and as many pages are started, its first ones.
pub fn blocks_of_a_table_are_one_list()
    ensures one { (layout : DiskLayout) (pages : PageMap) (table : ℕ) (a b : List (List Slot)) → HasBlocks layout pages table a → HasBlocks layout pages table b → a ≡ b }
    ensures first { (layout : DiskLayout) (pages : PageMap) (table : ℕ) (blocks : List (List Slot)) → HasBlocks layout pages table blocks → StartsFirst layout pages table (length blocks) }
{
    slots_are_read();
}
