//! The next page of a table's indexes that has tuples.

ghost use Rattle.std.specs.Prelude.{◌≡◌, ◌<◌, ◌≤◌, None, drop, length, slice_index, All, IfErr, IfOk, IfSome};
ghost use Rattle.page_map.specs.Keeps.{Keeps, Tells, Untold};
ghost use Rattle.page_map.specs.Outcome.{Outcome};
ghost use Rattle.page_store.specs.Survives.{Survives};
ghost use Rattle.index_layout.specs.IndexPages.{IsIndexPage};
ghost use Rattle.index_contents.specs.IndexContents.{contents, kind_at, map_kind};
ghost use Rattle.index_steps.specs.Readings.{NamesPageOf};
ghost use Rattle.vacuum_core.specs.NextPages.{IsKindOf, IsNextIn, IsNextOf, IsWithin, NamesPageOfSome};

use block_model::Place;
use disk_trait::Disk;
use index_contents::{index_pages_are_known, relation_of};
use index_layout::{MAP, META, REGULAR, UNSTARTED, kind_of};
use page_layout::Page;
use page_map::StoreError;
use page_store::PageStore;

/// What stands on a page of an index.
#[derive(Clone, Copy, Debug, PartialEq, Eq)]
pub(crate) enum PageKind {
    Unstarted,
    Map,
    /// Tuples, also where the page is being emptied for the map.
    Tuples,
}

/// Of a table's indexes, from that place on: the place of the first one that has a page with tuples, and the lowest such page of it; in the
/// index at that place from that block on. None where none has one. Takes no memory.
pub(crate) fn next_page<D: Disk + Drop>(
    pages: &mut PageStore<D>,
    indexes: &[u8],
    at: u8,
    from: u32,
) -> Result<Option<(u8, u32)>, StoreError>
    requires ready { pages.old.failed ≡ None }
    requires indexes { All (λ index. index < length pages.old.layout.schema.indexes) indexes.now }
    requires few { length indexes.now ≤ 8 }
    ensures next { IfOk result (λ next. Tells D.told pages.old → IsNextIn pages.old.layout pages.old.pages (drop at indexes.now) at from next) }
    ensures within { IfOk result (λ next. IfSome next (IsWithin pages.old.layout (length indexes.now) at from)) }
    ensures kept { Keeps D.told pages.old pages.new }
    ensures survives { Survives D.told (λ passed. passed ≡ pages.old.pages) pages.old pages.new }
    ensures at { IfErr result (NamesPageOfSome pages.old.layout) }
    ensures outcome { Outcome D.told (Untold D.told pages.old) pages.old pages.new result }
{
    pages.known();
    let count = indexes.len() as u8;
    let mut start = from;
    'places: for place in at..count {
        match next_of(pages, indexes[usize::from(place)], start) {
            Ok(Some(block)) => return Ok(Some((place, block))),
            Ok(None) => start = 0,
            Err(error) => return Err(error),
        }
    }
    Ok(None)
}

/// The lowest page of the index with tuples, from that block on; none where none has some.
fn next_of<D: Disk + Drop>(
    pages: &mut PageStore<D>,
    index: u8,
    from: u32,
) -> Result<Option<u32>, StoreError>
    requires ready { pages.old.failed ≡ None }
    requires index { index < length pages.old.layout.schema.indexes }
    ensures next { IfOk result (λ next. Tells D.told pages.old → IsNextOf (contents pages.old.layout pages.old.pages index).pages from next) }
    ensures within { IfOk result (λ next. IfSome next (λ block. block < pages.old.layout.sizes.index_blocks)) }
    ensures behind { IfOk result (λ next. IfSome next (λ block. from ≤ block)) }
    ensures kept { Keeps D.told pages.old pages.new }
    ensures survives { Survives D.told (λ passed. passed ≡ pages.old.pages) pages.old pages.new }
    ensures at { IfErr result (NamesPageOf pages.old.layout index) }
    ensures outcome { Outcome D.told (Untold D.told pages.old) pages.old pages.new result }
{
    pages.known();
    let limit = pages.layout().sizes().index_blocks;
    'later: for block in from..limit {
        match kind_there(pages, index, block) {
            Ok(PageKind::Tuples) => return Ok(Some(block)),
            Ok(PageKind::Unstarted) => return Ok(None),
            Ok(PageKind::Map) => {}
            Err(error) => return Err(error),
        }
    }
    Ok(None)
}

/// What stands on the block.
fn kind_there<D: Disk + Drop>(
    pages: &mut PageStore<D>,
    index: u8,
    block: u32,
) -> Result<PageKind, StoreError>
    requires index { index < length pages.old.layout.schema.indexes }
    requires block { block < pages.old.layout.sizes.index_blocks }
    ensures kind { IfOk result (λ kind. Tells D.told pages.old → IsKindOf ((contents pages.old.layout pages.old.pages index).pages.kind block) kind) }
    ensures kept { Keeps D.told pages.old pages.new }
    ensures survives { Survives D.told (λ passed. passed ≡ pages.old.pages) pages.old pages.new }
    ensures at { IfErr result (NamesPageOf pages.old.layout index) }
    ensures outcome { Outcome D.told (Untold D.told pages.old) pages.old pages.new result }
{
    index_pages_are_known();
    let relation = relation_of(pages.layout(), index);
    match pages.read(Place { relation, block }) {
        Ok(page) => Ok(kind_on(page, block)),
        Err(error) => Err(error),
    }
}

/// What stands on the page of the block.
fn kind_on(page: &Page, block: u32) -> PageKind
    requires { IsIndexPage page.now }
    ensures { IsKindOf (kind_at block (slice_index page.now 0)) result }
{
    let kind = kind_of(page.as_bytes());
    if kind == REGULAR {
        return PageKind::Tuples;
    }
    if kind == UNSTARTED {
        return PageKind::Unstarted;
    }
    if kind == map_kind(block) {
        return PageKind::Map;
    }
    PageKind::Tuples
}

/// The kind of a page of the map on that block.
fn map_kind(block: u32) -> u8
    ensures { result ≡ map_kind block }
{
    if block == 0 { META } else { MAP }
}
