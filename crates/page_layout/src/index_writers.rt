//! What is written to a page of an index that passed its check.

ghost use Rattle.std.specs.Prelude.{◌≡◌, ◌<◌, [], length, set, replicate, slice_index, None, Some};
ghost use Rattle.index_layout.specs.declared.format.TheConstants.{EVACUATED, MAP, MAP_ENTRIES, META, REGULAR};
ghost use Rattle.index_layout.specs.IndexPages.{IsMap, IsMeta, IsRegular};
ghost use Rattle.index_layout.specs.IndexReading.{entries_of, slots_of};
ghost use Rattle.index_layout.specs.IndexWrites.{CanDrop, CanPut, CanReplace, dropped, entry_for, put_in, trimmed};
ghost use Rattle.page_layout.specs.PageContents.{IsPageOf};

use crate::page::{Form, Page};
use block_model::Spot;

/// The tuple stands in the slot, which was free or is the next one.
pub fn put_tuple(page: &mut Page, slot: u16, tuple: &[u8])
    requires page { IsPageOf Form.Index page.old }
    requires room { CanPut page.old slot (length tuple.now) }
    ensures put { IsRegular REGULAR (put_in (slots_of page.old) slot tuple.now) page.new }
{
    index_layout::put_tuple(&mut page.bytes, slot, tuple);
}

/// The tuple stands in the slot in the place of another.
pub fn replace_tuple(page: &mut Page, slot: u16, tuple: &[u8])
    requires page { IsPageOf Form.Index page.old }
    requires room { CanReplace page.old slot (length tuple.now) }
    ensures replaced { IsRegular REGULAR (set (slots_of page.old) slot (Some tuple.now)) page.new }
{
    index_layout::replace_tuple(&mut page.bytes, slot, tuple);
}

/// The slots of two bytes each are free, and the directory ends with the last slot that isn't.
pub fn drop_tuples(page: &mut Page, list: &[u8])
    requires page { IsPageOf Form.Index page.old }
    requires slots { CanDrop page.old list.now }
    ensures dropped { IsRegular (slice_index page.old 0) (trimmed (dropped (slots_of page.old) list.now)) page.new }
{
    index_layout::drop_tuples(&mut page.bytes, list);
}

/// The page is being evacuated.
pub fn evacuate(page: &mut Page)
    requires page { IsPageOf Form.Index page.old }
    requires kind { slice_index page.old 0 ≡ REGULAR }
    ensures evacuated { IsRegular EVACUATED (slots_of page.old) page.new }
{
    index_layout::evacuate(&mut page.bytes);
}

/// A page that was evacuated becomes a page of the map without entries.
pub fn turn_to_map(page: &mut Page)
    requires page { IsPageOf Form.Index page.old }
    requires kind { slice_index page.old 0 ≡ EVACUATED }
    requires empty { length (slots_of page.old) ≡ 0 }
    ensures map { IsMap (replicate MAP_ENTRIES None) page.new }
{
    index_layout::turn_to_map(&mut page.bytes);
}

/// That entry of a page of the map names the spot, or none where the spot is zeros.
pub fn set_entry(page: &mut Page, entry: u16, spot: Spot)
    requires page { IsPageOf Form.Index page.old }
    requires kind { slice_index page.old 0 ≡ MAP }
    requires entry { entry < MAP_ENTRIES }
    ensures set { IsMap (set (entries_of page.old) entry (entry_for spot)) page.new }
{
    index_layout::set_entry(&mut page.bytes, entry, spot);
}

/// The metapage has that number of map pages.
pub fn set_map_pages(page: &mut Page, pages: u32)
    requires page { IsPageOf Form.Index page.old }
    requires kind { slice_index page.old 0 ≡ META }
    ensures set { IsMeta pages page.new }
{
    index_layout::set_map_pages(&mut page.bytes, pages);
}

/// Whatever bytes stand there, they become a page of the map without entries.
pub fn start_map(page: &mut Page)
    ensures { IsMap (replicate MAP_ENTRIES None) page.new }
{
    index_layout::start_map(&mut page.bytes);
}

/// Whatever bytes stand there, they become a page of tuples without slots.
pub fn start_regular(page: &mut Page)
    ensures { IsRegular REGULAR [] page.new }
{
    index_layout::start_regular(&mut page.bytes);
}
