//! What opening makes of an image.

ghost use Rattle.std.specs.Prelude.{◌≡◌, ◌<◌, List, ℕ, length};
ghost use Rattle.block_model.specs.declared.limits.TheConstants.{PAGE_SIZE};
ghost use Rattle.block_model.specs.declared.place.Place.{Place as AnyPlace};
ghost use Rattle.store_layout.specs.DiskLayout.{DiskLayout, IsPlace, page_offset};
ghost use Rattle.disk_trait.specs.Torn.{Torn};
ghost use Rattle.page_map.specs.PageMap.{PageMap};
ghost use Rattle.recovery.specs.LoggedChanges.{changes_at};
ghost use Rattle.recovery.specs.Opens.{Opens};

use log_area::an_area_opens_in_one_way;
use page_map::{
    maps_with_the_same_pages_are_equal, redo_forgets_a_page_begun_anew, redo_is_a_function,
};
use store_layout::{Layout, pages_fill_the_disk};
use wal_record::no_change_begins_another;

/// An image opens to one map of pages.
pub fn an_image_opens_to_one_map(layout: &Layout)
    ensures { (image : List ℕ) (a b : PageMap) → Opens layout.now image a → Opens layout.now image b → a ≡ b }
{
    an_area_opens_in_one_way();
    no_change_begins_another();
    redo_is_a_function();
    maps_with_the_same_pages_are_equal();
}

/// Any bytes may stand on a page that the log begins anew: the image opens to the same pages.
pub fn a_page_begun_anew_may_be_torn(layout: &Layout)
    ensures { (place : AnyPlace) (before image : List ℕ) (pages : PageMap) → IsPlace layout.now place → Torn (page_offset layout.now place) PAGE_SIZE before image → (opened : Opens layout.now before pages) → 0 < length (changes_at place opened.changes) → Opens layout.now image pages }
{
    pages_fill_the_disk(layout);
    redo_forgets_a_page_begun_anew();
}
