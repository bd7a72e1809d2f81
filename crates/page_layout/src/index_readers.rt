//! What stands on a page of an index that passed its check.

ghost use Rattle.std.specs.Prelude.{◌≡◌, ◌<◌, length, slice_index_or, true, false, None};
ghost use Rattle.std.specs.Option.{option_map};
ghost use Rattle.index_layout.specs.declared.format.TheConstants.{MAP_ENTRIES};
ghost use Rattle.index_layout.specs.IndexPages.{IsIndexPage};
ghost use Rattle.index_layout.specs.IndexReading.{entries_of, free_of, free_slot_of, map_pages_of, slots_of};
ghost use Rattle.index_layout.specs.IndexWrites.{CanDrop, CanPut, CanReplace, room_on};
ghost use Rattle.page_layout.specs.PageContents.{IsPageOf};
ghost use Rattle.page_layout.specs.PageWrites.{IsOfIndex};

use crate::page::{Form, Page};
use block_model::Spot;

/// Whether the pages of the form are those of an index.
pub fn is_index(form: &Form) -> bool
    ensures index { result ≡ true → IsOfIndex form.now }
    ensures rows { result ≡ false → IsOfIndex form.now → ⊥ }
{
    match form {
        Form::Status | Form::Heap { .. } => false,
        Form::Index => true,
    }
}

/// How many slots the page has; one without tuples has none.
pub fn slots(page: &Page) -> u16
    requires { IsPageOf Form.Index page.now }
    ensures { result ≡ length (slots_of page.now) }
{
    index_layout::slots(index_bytes(page))
}

/// The tuple in that slot, borrowed from the page. None where the slot is free, and where the page has no such slot.
pub fn tuple_at(page: &Page, slot: u16) -> Option<&[u8]>
    requires { IsPageOf Form.Index page.now }
    ensures { option_map (λ tuple. tuple.now) result ≡ slice_index_or (slots_of page.now) slot None }
{
    index_layout::tuple_at(index_bytes(page), slot)
}

/// How many bytes of the page no slot takes, of which each takes 4 and the length of its tuple; one without slots has 8160.
pub fn free_bytes(page: &Page) -> u16
    requires { IsPageOf Form.Index page.now }
    ensures { result ≡ free_of (slots_of page.now) }
{
    index_layout::free_bytes(index_bytes(page))
}

/// The lowest slot that is free, else the next one.
pub fn free_slot(page: &Page) -> u16
    requires { IsPageOf Form.Index page.now }
    ensures { result ≡ free_slot_of (slots_of page.now) }
{
    index_layout::free_slot(index_bytes(page))
}

/// The bytes of the greatest further tuple that the page takes in a free slot or the next one: 0 where it takes none, as one
/// that isn't of tuples or is being evacuated.
pub fn room_for(page: &Page) -> u16
    requires { IsPageOf Form.Index page.now }
    ensures { result ≡ room_on page.now }
{
    index_layout::room_for(index_bytes(page))
}

/// That entry of a page of the map, which has `MAP_ENTRIES`. None where it names no spot, and where the page isn't of the map.
pub fn entry_at(page: &Page, entry: u16) -> Option<Spot>
    requires page { IsPageOf Form.Index page.now }
    requires entry { entry < MAP_ENTRIES }
    ensures { result ≡ slice_index_or (entries_of page.now) entry None }
{
    index_layout::entry_at(index_bytes(page), entry)
}

/// How many pages the map has, by its metapage; 0 where the page is another.
pub fn map_pages(page: &Page) -> u32
    requires { IsPageOf Form.Index page.now }
    ensures { result ≡ map_pages_of page.now }
{
    index_layout::map_pages(index_bytes(page))
}

/// Whether the slot is free or the next one, on a page that isn't being evacuated, and a tuple of `size` bytes has room there.
pub fn can_put(page: &Page, slot: u16, size: usize) -> bool
    requires { IsPageOf Form.Index page.now }
    ensures can { result ≡ true → CanPut page.now slot size }
    ensures cannot { result ≡ false → CanPut page.now slot size → ⊥ }
{
    index_layout::can_put(index_bytes(page), slot, size)
}

/// Whether the slot has a tuple, on a page that isn't being evacuated, and one of `size` bytes has room in its place.
pub fn can_replace(page: &Page, slot: u16, size: usize) -> bool
    requires { IsPageOf Form.Index page.now }
    ensures can { result ≡ true → CanReplace page.now slot size }
    ensures cannot { result ≡ false → CanReplace page.now slot size → ⊥ }
{
    index_layout::can_replace(index_bytes(page), slot, size)
}

/// Whether these are slots of the page, in two bytes each and ascending.
pub fn can_drop(page: &Page, dropped: &[u8]) -> bool
    requires { IsPageOf Form.Index page.now }
    ensures can { result ≡ true → CanDrop page.now dropped.now }
    ensures cannot { result ≡ false → CanDrop page.now dropped.now → ⊥ }
{
    index_layout::can_drop(index_bytes(page), dropped)
}

/// The bytes of the page.
fn index_bytes(page: &Page) -> &[u8]
    requires { IsPageOf Form.Index page.now }
    ensures bytes { result.now ≡ page.now }
    ensures index { IsIndexPage result.now }
{
    page.as_bytes()
}
