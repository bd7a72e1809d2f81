//! The page for a further tuple.

ghost use Rattle.std.specs.Prelude.{◌≡◌, ◌<◌, ℕ, None, length, IfSome};
ghost use Rattle.store_layout.specs.DiskLayout.{relation_blocks};
ghost use Rattle.page_layout.specs.declared.page.Form.TheVariants as forms;
ghost use Rattle.page_map.specs.Forms.{form_of};
ghost use Rattle.page_map.specs.Keeps.{Tells};
ghost use Rattle.page_map.specs.PageMap.{block_at, block_limit};
ghost use Rattle.block_model.specs.declared.place.Spot.{Spot};
ghost use Rattle.index_contents.specs.IndexContents.{contents};
ghost use Rattle.index_contents.specs.IndexPages.{Slot};
ghost use Rattle.coverage.specs.IndexView.{Pages};
ghost use Rattle.coverage.specs.Verdicts.{IsTarget};
ghost use Rattle.range_store.specs.FirstTarget.{IsFirstTarget};
ghost use Rattle.range_store.specs.Tuples.{IsFirstUnstarted, TakesBytes};

use disk_trait::Disk;
use index_contents::relation_of;
use page_store::PageStore;

/// The page for a tuple of so many bytes: the lowest one behind the map pages that takes tuples and has room, else the next one that
/// isn't started, if the index may have it; else none. A page on which no further tuple fits is one
/// with room for 0 bytes. No device call.
pub fn room_for<D: Disk + Drop>(pages: &PageStore<D>, index: u8, bytes: u16) -> Option<u32>
    requires index { index < length pages.now.layout.schema.indexes }
    ensures within { IfSome result (λ block. block < pages.now.layout.sizes.index_blocks) }
    ensures target { IfSome result (λ block. Tells D.told pages.now → IsTarget (contents pages.now.layout pages.now.pages index).pages (contents pages.now.layout pages.now.pages index).bytes bytes block) }
    ensures none { result ≡ None → Tells D.told pages.now → (block : ℕ) → IsTarget (contents pages.now.layout pages.now.pages index).pages (contents pages.now.layout pages.now.pages index).bytes bytes block → ⊥ }
{
    pages.known();
    let relation = relation_of(pages.layout(), index);
    first_target(pages, relation, bytes)
}

/// The lowest block of the relation, of those behind the map pages, that takes so many bytes, else the next one that isn't started.
fn first_target<D: Disk + Drop>(pages: &PageStore<D>, relation: u8, need: u16) -> Option<u32>
    requires relation { relation < length (relation_blocks pages.now.layout) }
    requires form { form_of pages.now.layout relation ≡ forms.Index }
    ensures within { IfSome result (λ block. block < block_limit pages.now.layout relation) }
    ensures first { Tells D.told pages.now → IsFirstTarget (block_limit pages.now.layout relation) (block_at pages.now.pages relation) need result }
{
    pages.known();
    let past = pages.map_pages(relation);
    pages.first_room(relation, need, past)
}

/// The page for a further tuple takes it; and where that isn't started, it is the first one that isn't. Does nothing.
pub fn a_target_takes_its_tuple()
    ensures takes { (pages : Pages) (bytes : Spot → Slot) (need block : ℕ) → IsTarget pages bytes need block → TakesBytes pages bytes need block }
    ensures first { (pages : Pages) (bytes : Spot → Slot) (need block : ℕ) → IsTarget pages bytes need block → IsFirstUnstarted pages block }
{}
