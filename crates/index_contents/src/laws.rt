//! Which changes keep the order of an index's pages.

ghost use Rattle.std.specs.Prelude.{◌≡◌, ◌<◌, ◌≤◌, ℕ, List, length};
ghost use Rattle.store_layout.specs.DiskLayout.{DiskLayout};
ghost use Rattle.recovery.specs.PageMap.{PageMap};
ghost use Rattle.recovery.specs.PageOrder.{AreInOrder, IsIndexInOrder, kind_of, map_pages};
ghost use Rattle.index_contents.specs.IndexContents.{index_page};
ghost use Rattle.index_contents.specs.PageLaws.{StayBeside};
ghost use Rattle.index_contents.specs.KeepsOrder.{HasTuples, StandFirst};

/// Pages in order of which one changes are in order still: a page of tuples, being emptied or not, that is one afterwards; a page that isn't
/// started, behind none that isn't, that takes tuples then; and a counted page of the map that is one afterwards. Does nothing.
pub fn one_page_keeps_the_order()
    ensures tuples { (limit block : ℕ) (page after : ℕ → List ℕ) → IsIndexInOrder limit page → StayBeside block page after → block < limit → HasTuples (page block) → HasTuples (after block) → IsIndexInOrder limit after }
    ensures new_page { (limit block : ℕ) (page after : ℕ → List ℕ) → IsIndexInOrder limit page → StayBeside block page after → block < limit → kind_of (page block) ≡ 0 → StandFirst page block → kind_of (after block) ≡ 5 → IsIndexInOrder limit after }
    ensures entries { (limit block : ℕ) (page after : ℕ → List ℕ) → IsIndexInOrder limit page → StayBeside block page after → 1 ≤ block → block ≤ map_pages (page 0) → kind_of (after block) ≡ 4 → IsIndexInOrder limit after }
{}

/// In a store in order each index is in order. Does nothing.
pub fn a_store_in_order_has_its_indexes_in_order()
    ensures { (layout : DiskLayout) (pages : PageMap) (index : ℕ) → AreInOrder layout pages → index < length layout.schema.indexes → IsIndexInOrder layout.sizes.index_blocks (index_page layout pages index) }
{}
