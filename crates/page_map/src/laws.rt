//! What a map of pages is.

ghost use Rattle.std.specs.Prelude.{◌≡◌};
ghost use Rattle.block_model.specs.declared.place.Place.{Place as AnyPlace};
ghost use Rattle.page_redo.specs.DiskLayout.{DiskLayout, IsPlace};
ghost use Rattle.page_map.specs.PageMap.{IsWhole, PageMap, page_at};

/// Two maps with all pages of a layout are one, if they have the same page at each place.
pub fn maps_with_the_same_pages_are_equal()
    ensures { (layout : DiskLayout) (a b : PageMap) → IsWhole layout a → IsWhole layout b → ((place : AnyPlace) → IsPlace layout place → page_at a place ≡ page_at b place) → a ≡ b }
{}
