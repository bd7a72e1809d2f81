//! What a store's disk is not.

ghost use Rattle.std.specs.Prelude.{List, ℕ};
ghost use Rattle.recovery.specs.Opens.{Opens};
ghost use Rattle.recovery.specs.PageOrder.{AreInOrder};
ghost use Rattle.page_map.specs.PageMap.{PageMap};
ghost use Rattle.recovery.specs.Damaged.{IsDamaged};

use log_area::an_area_opens_in_one_way;
use page_map::{maps_with_the_same_pages_are_equal, redo_is_a_function};
use store_layout::Layout;
use wal_record::no_change_begins_another;

/// An image of a store is not damaged: it opens to pages that stand in order, and then no frame and no page is amiss.
pub fn a_store_is_not_damaged(layout: &Layout)
    ensures { (image : List ℕ) (pages : PageMap) (at : ℕ) → Opens layout.now image pages → AreInOrder layout.now pages → IsDamaged layout.now image at → ⊥ }
{
    an_area_opens_in_one_way();
    no_change_begins_another();
    redo_is_a_function();
    maps_with_the_same_pages_are_equal();
}
