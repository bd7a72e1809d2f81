//! What a new store opens to.

ghost use Rattle.std.specs.Prelude.{◌≡◌, List, ℕ};
ghost use Rattle.block_model.specs.declared.place.Place.{Place as AnyPlace};
ghost use Rattle.store_layout.specs.DiskLayout.{IsPlace};
ghost use Rattle.disk_trait.specs.Told.{Told};
ghost use Rattle.page_map.specs.Forms.{IsPageIn};
ghost use Rattle.page_map.specs.PageMap.{IsWhole, page_at};
ghost use Rattle.recovery.specs.Opens.{OpensAs};
ghost use Rattle.recovery.specs.PageOrder.{AreInOrder};
ghost use Rattle.store_format.specs.FreshStore.{IsFormatted, IsOldOrNew, fresh_page};
ghost use Rattle.session_starts.specs.FreshPages.{IsOldOrFresh, fresh_pages};

use store_format::{a_closed_gate_is_no_store, a_new_store_has_its_control_page};
use store_layout::{Layout, pages_fill_the_disk};

/// A new store opens to the fresh pages, and these stand in order. At each place is the page that a new store has there, which passes its
/// check.
pub fn a_new_store_opens_to_fresh_pages(layout: &Layout)
    ensures opens { (image : List ℕ) → IsFormatted layout.now image → OpensAs layout.now image (fresh_pages layout.now) }
    ensures order { AreInOrder layout.now (fresh_pages layout.now) }
    ensures pages { (place : AnyPlace) → IsPlace layout.now place → page_at (fresh_pages layout.now) place ≡ fresh_page layout.now place }
    ensures whole { IsWhole layout.now (fresh_pages layout.now) }
    ensures checked { (place : AnyPlace) → IsPlace layout.now place → IsPageIn layout.now place.relation (fresh_page layout.now place) }
{
    layout.known();
    pages_fill_the_disk(layout);
    a_new_store_has_its_control_page(layout);
}

/// What a crash leaves at any moment of a format was there before, or is no store, or opens to the fresh pages.
pub fn a_format_leaves_old_or_none_or_new(layout: &Layout)
    ensures { (old : Told) (image : List ℕ) → IsOldOrNew layout.now old image → IsOldOrFresh layout.now old image }
{
    a_closed_gate_is_no_store();
    a_new_store_opens_to_fresh_pages(layout);
}
