//! What stands on the block behind the map.

ghost use Rattle.std.specs.Prelude.{◌≡◌, ◌<◌, ℕ, List, Option, true, false, None, Some, length, slice_index, slice_index_or, IfOk, IfErr, IfSome, OnOk};
ghost use Rattle.store_layout.specs.DiskLayout.{IsPlace};
ghost use Rattle.page_layout.specs.declared.page.Form.TheVariants as forms;
ghost use Rattle.page_map.specs.Forms.{form_of};
ghost use Rattle.page_map.specs.Keeps.{Keeps, Tells, Untold};
ghost use Rattle.page_map.specs.Outcome.{NamesPage, Outcome};
ghost use Rattle.page_map.specs.PageMap.{page_at};
ghost use Rattle.heap_rows.specs.Survives.{Survives};
ghost use Rattle.index_layout.specs.declared.format.TheConstants.{MAP};
ghost use Rattle.index_layout.specs.IndexPages.{IsIndexPage};
ghost use Rattle.index_layout.specs.IndexReading.{entries_of};
ghost use Rattle.index_contents.specs.IndexContents.{contents};
ghost use Rattle.index_steps.specs.Readings.{NamesPageOf};
ghost use Rattle.index_steps.specs.NextPages.{HasEntry, IsEmptyMap, IsNext, IsNextDamaged, IsOfState, IsStray, damaged_block, place_in};

use block_model::Place;
use disk_trait::Disk;
use heap_rows::PageStore;
use index_contents::{index_pages_are_known, relation_of};
use index_layout::{
    EVACUATED, MAP, MAP_ENTRIES, REGULAR, UNSTARTED, an_index_page_has_one_list, entry_at, kind_of,
};
use page_layout::Page;
use page_map::StoreError;

/// The block of the page that counts the pages of the map.
pub(crate) const METAPAGE: u32 = 0;

/// What stands on a block onto which the map may grow.
#[derive(Clone, Copy, Debug, PartialEq, Eq)]
pub enum PageState {
    /// Nothing: the page isn't started.
    Unstarted,
    /// A page of the map without entries, left over from a growth that was cut off.
    LeftOver,
    /// A page that takes tuples.
    Regular,
    /// A page of tuples that is being emptied for the map.
    Emptying,
}

/// The block behind the last page of the map, and what stands there.
#[derive(Clone, Copy, Debug, PartialEq, Eq)]
pub struct NextPage {
    pub block: u32,
    pub state: PageState,
}

/// What stands on the block behind the pages that the metapage counts; none where the index can't have that block. Damaged, beside a
/// disk that doesn't tell its contents, exactly where the metapage counts no page, and where a second metapage or a page of the
/// map with entries stands there. Takes no memory.
pub fn next_page<D: Disk + Drop>(
    pages: &mut PageStore<D>,
    index: u8,
) -> Result<Option<NextPage>, StoreError>
    requires index { index < length pages.old.layout.schema.indexes }
    ensures next { IfOk result (λ next. Tells D.told pages.old → IsNext pages.old.layout pages.old.pages index next) }
    ensures within { IfOk result (λ next. IfSome next (λ page. page.block < pages.old.layout.sizes.index_blocks)) }
    ensures undamaged { OnOk result (Tells D.told pages.old → IsNextDamaged pages.old.layout pages.old.pages index → ⊥) }
    ensures kept { Keeps D.told pages.old pages.new }
    ensures survives { Survives D.told (λ passed. passed ≡ pages.old.pages) pages.old pages.new }
    ensures at { IfErr result (NamesPageOf pages.old.layout index) }
    ensures named { IfErr result (λ error. Tells D.told pages.old → NamesPage pages.old.layout (place_in pages.old.layout index (damaged_block (contents pages.old.layout pages.old.pages index).pages)) error) }
    ensures outcome { Outcome D.told (Tells D.told pages.old → IsNextDamaged pages.old.layout pages.old.pages index) pages.old pages.new result }
{
    match pages.ready() {
        Ok(()) => {}
        Err(error) => return Err(error),
    }
    an_index_page_has_one_list();
    pages.known();
    pages.layout().known();
    let relation = relation_of(pages.layout(), index);
    let counted = pages.map_pages(relation);
    if counted == 0 {
        return Err(StoreError::Damaged {
            at: pages.layout().page_at(Place {
                relation,
                block: METAPAGE,
            }),
        });
    }
    if counted >= pages.layout().sizes().index_blocks - 1 {
        return Ok(None);
    }
    let block = counted + 1;
    let place = Place { relation, block };
    match state_at(pages, place) {
        Ok(Some(state)) => Ok(Some(NextPage { block, state })),
        Ok(None) => Err(StoreError::Damaged {
            at: pages.layout().page_at(place),
        }),
        Err(error) => Err(error),
    }
}

/// The state of the page; none where it may not stand behind the map.
fn state_at<D: Disk + Drop>(
    pages: &mut PageStore<D>,
    place: Place,
) -> Result<Option<PageState>, StoreError>
    requires place { IsPlace pages.old.layout place }
    requires form { form_of pages.old.layout place.relation ≡ forms.Index }
    ensures some { IfOk result (λ state. (s : PageState) → state ≡ Some s → Tells D.told pages.old → IsOfState (page_at pages.old.pages place) s) }
    ensures none { IfOk result (λ state. state ≡ None → Tells D.told pages.old → IsStray (page_at pages.old.pages place)) }
    ensures kept { Keeps D.told pages.old pages.new }
    ensures survives { Survives D.told (λ passed. passed ≡ pages.old.pages) pages.old pages.new }
    ensures at { IfErr result (NamesPage pages.old.layout place) }
    ensures outcome { Outcome D.told (Untold D.told pages.old) pages.old pages.new result }
{
    index_pages_are_known();
    match pages.read(place) {
        Ok(page) => Ok(state_of(page)),
        Err(error) => Err(error),
    }
}

/// The same of a page.
fn state_of(page: &Page) -> Option<PageState>
    requires page { IsIndexPage page.now }
    ensures some { (state : PageState) → result ≡ Some state → IsOfState page.now state }
    ensures none { result ≡ None → IsStray page.now }
{
    let bytes = page.as_bytes();
    let kind = kind_of(bytes);
    if kind == UNSTARTED {
        return Some(PageState::Unstarted);
    }
    if kind == REGULAR {
        return Some(PageState::Regular);
    }
    if kind == EVACUATED {
        return Some(PageState::Emptying);
    }
    if kind == MAP {
        return left_over(bytes);
    }
    None
}

/// That a page of the map is left over; none where it has entries.
fn left_over(page: &[u8]) -> Option<PageState>
    requires page { IsIndexPage page.now }
    requires map { slice_index page.now 0 ≡ MAP }
    ensures some { (state : PageState) → result ≡ Some state → IsOfState page.now state }
    ensures none { result ≡ None → HasEntry page.now }
{
    an_index_page_has_one_list();
    if has_entry(page) {
        return None;
    }
    Some(PageState::LeftOver)
}

/// Whether an entry of the page names a spot.
fn has_entry(page: &[u8]) -> bool
    requires page { IsIndexPage page.now }
    ensures some { result ≡ true → HasEntry page.now }
    ensures none { result ≡ false → (entry : ℕ) → entry < MAP_ENTRIES → slice_index_or (entries_of page.now) entry None ≡ None }
{
    'entries: for entry in 0..MAP_ENTRIES {
        match entry_at(page, entry) {
            Some(_) => return true,
            None => {}
        }
    }
    false
}
