//! Which entries there are.

ghost use Rattle.std.specs.Prelude.{◌≡◌, ℕ, Option, None, Some};
ghost use Rattle.block_model.specs.declared.place.Spot.{Spot as AnySpot};
ghost use Rattle.store_layout.specs.DiskLayout.{DiskLayout};
ghost use Rattle.page_map.specs.PageMap.{PageMap};
ghost use Rattle.coverage.specs.IndexView.{IsPastMap};
ghost use Rattle.index_contents.specs.IndexContents.{contents};
ghost use Rattle.revmap.specs.MapEntries.{HoldsRange};

/// An entry that names a spot stands on a page of the map that is counted; a range past the map has none. Does nothing.
pub fn entries_stand_on_counted_pages()
    ensures held { (layout : DiskLayout) (pages : PageMap) (index range : ℕ) (spot : AnySpot) → (contents layout pages index).entry range ≡ Some spot → HoldsRange (contents layout pages index).pages range }
    ensures past { (layout : DiskLayout) (pages : PageMap) (index range : ℕ) → IsPastMap (contents layout pages index).pages range → (contents layout pages index).entry range ≡ None }
{}
