//! Laws of the given blocks. Each function does nothing.

ghost use Rattle.std.specs.Prelude.{◌≡◌, ◌<◌, ℕ, List, false, filter, length};
ghost use Rattle.std.specs.List.{range_with_len};
ghost use Rattle.block_model.specs.declared.row.Query.{Query};
ghost use Rattle.store_layout.specs.DiskLayout.{DiskLayout};
ghost use Rattle.page_layout.specs.PageContents.{Slot};
ghost use Rattle.page_map.specs.PageMap.{IsWhole, PageMap};
ghost use Rattle.heap_rows.specs.HeapBlocks.{HasBlocks};
ghost use Rattle.coverage.specs.Table.{TableScan, TableState};
ghost use Rattle.coverage.specs.TableCovered.{JudgesExactly};
ghost use Rattle.summary_directory.specs.GivenBlocks.{given_blocks, is_given};
ghost use Rattle.summary_directory.specs.JudgesAsShown.{JudgesAsShown};
ghost use Rattle.summary_directory.specs.LeavesOut.{LeavesOut};
ghost use Rattle.summary_directory.specs.Shown.{Shown};
ghost use Rattle.summary_directory.specs.ShownByPages.{shown_by_pages};

/// A block is left out exactly where an index of the table has a tuple for its range that doesn't keep the conditions.
pub fn a_block_is_left_out_by_a_tuple()
    ensures by { (layout : DiskLayout) (shown : Shown) (query : Query) (block : ℕ) → is_given layout shown query block ≡ false → (at : ℕ) × LeavesOut layout shown query at block }
    ensures out { (layout : DiskLayout) (shown : Shown) (query : Query) (at block : ℕ) → LeavesOut layout shown query at block → is_given layout shown query block ≡ false }
{}

/// The extent that pages show is how many blocks the table has.
pub fn pages_show_the_blocks_of_a_table()
    ensures { (layout : DiskLayout) (pages : PageMap) (table : ℕ) (blocks : List (List Slot)) → IsWhole layout pages → table < length layout.schema.tables → HasBlocks layout pages table blocks
        → (shown_by_pages layout pages).extent table ≡ length blocks }
{}

/// An explain that judged each range by the tuple which is shown tells the given blocks.
pub fn an_explain_tells_the_given_blocks()
    ensures { (layout : DiskLayout) (shown : Shown) (query : Query) (w : TableState) (scan : TableScan) → JudgesExactly w scan → JudgesAsShown layout shown query w scan
        → filter scan.candidate (range_with_len 0 scan.extent) ≡ given_blocks layout shown query }
{}
