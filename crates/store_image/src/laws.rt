//! The pages of a store at rest, told in two ways. Does nothing.

ghost use Rattle.std.specs.Prelude.{◌↔◌};
ghost use Rattle.block_model.specs.declared.place.Place.{Place as AnyPlace};
ghost use Rattle.block_model.specs.TableState.{TableState};
ghost use Rattle.store_layout.specs.DiskLayout.{IsPlace};
ghost use Rattle.recovery.specs.Forms.{IsPageIn};
ghost use Rattle.recovery.specs.PageMap.{IsWhole, PageMap, page_at};
ghost use Rattle.store_image.specs.SoundStore.{IsSoundStore};
ghost use Rattle.store_image.specs.StoreImage.{IsStoreImage};

use index_steps::{every_index_of_a_table_is_listed, tuples_of_an_index_are_lawful};
use range_tuple::{bytes_begin_with_the_range, lawful_classes_are_within_limits, tuples_are_sound};
use store_layout::Layout;

/// Pages that pass their checks, as those of a disk that opens do, are those of a store with some table if and only if they are sound.
pub fn a_sound_store_is_an_image(layout: &Layout)
    ensures { (pages : PageMap) → IsWhole layout.now pages → ((place : AnyPlace) → IsPlace layout.now place → IsPageIn layout.now place.relation (page_at pages place)) → IsSoundStore layout.now pages ↔ ((table : TableState) × IsStoreImage layout.now pages table) }
{
    layout.known();
    every_index_of_a_table_is_listed();
    tuples_of_an_index_are_lawful();
    tuples_are_sound();
    bytes_begin_with_the_range();
    lawful_classes_are_within_limits();
}
