//! What an index whose pages stand in order has behind its map.

ghost use Rattle.std.specs.Prelude.{◌≡◌, ◌<◌, ℕ};
ghost use Rattle.store_layout.specs.DiskLayout.{DiskLayout};
ghost use Rattle.page_map.specs.PageMap.{PageMap};
ghost use Rattle.index_contents.specs.PageOrder.{IsIndexInOrder};
ghost use Rattle.coverage.specs.IndexView.{Mapping, next_map_page};
ghost use Rattle.index_contents.specs.IndexContents.{contents, index_page};
ghost use Rattle.index_steps.specs.declared.next.PageState.{PageState};
ghost use Rattle.index_steps.specs.declared.next.PageState.TheVariants as states;
ghost use Rattle.index_steps.specs.NextPages.{IsNextDamaged, StandsNext};

use index_layout::an_index_page_has_one_list;

/// Behind the map of an index in order no page is damaged. Does nothing.
pub fn a_page_in_order_is_not_damaged()
    ensures { (layout : DiskLayout) (pages : PageMap) (index : ℕ) → IsIndexInOrder layout.sizes.index_blocks (index_page layout pages index) → IsNextDamaged layout pages index → ⊥ }
{
    an_index_page_has_one_list();
}

/// A page of the map there is left over, without entries. Does nothing.
pub fn an_uncounted_map_page_is_left_over()
    ensures { (layout : DiskLayout) (pages : PageMap) (index : ℕ) → IsIndexInOrder layout.sizes.index_blocks (index_page layout pages index)
        → next_map_page (contents layout pages index).pages < layout.sizes.index_blocks → (contents layout pages index).pages.kind (next_map_page (contents layout pages index).pages) ≡ Mapping
        → StandsNext layout pages index (next_map_page (contents layout pages index).pages) states.LeftOver }
{}

/// Where a page of one of the states stands behind the map, nothing is damaged there. Does nothing.
pub fn a_page_of_a_state_is_not_damaged()
    ensures { (layout : DiskLayout) (pages : PageMap) (index block : ℕ) (state : PageState) → StandsNext layout pages index block state → IsNextDamaged layout pages index → ⊥ }
{
    an_index_page_has_one_list();
}
