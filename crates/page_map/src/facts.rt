//! What memory keeps of a page.

ghost use Rattle.std.specs.Prelude.{◌≡◌};
ghost use Rattle.page_redo.specs.IndexReading.{map_pages_of};
ghost use Rattle.page_redo.specs.IndexWrites.{room_on};
ghost use Rattle.page_redo.specs.PageContents.{IsForm, IsPageOf};
ghost use Rattle.page_redo.specs.SlotsOnPage.{lowest_on};
ghost use Rattle.page_redo.specs.Changes.{logged};
ghost use Rattle.page_map.specs.PageFacts.{HasPutInto, IsMadeFrom, facts_on};

use page_redo::{
    Change, Form, Page, UNSTARTED, first_free, first_free_from, is_index, kind_of, map_pages,
    room_for, slots_are_read,
};

/// What is kept of a page beside the page: its kind, its lowest free slot where it has one, and of an index the bytes of the
/// greatest further tuple that it takes and how many pages of the map it counts.
#[derive(Clone, Copy)]
pub struct PageFacts {
    pub kind: u8,
    pub lowest: Option<u16>,
    pub room: u16,
    pub maps: u32,
}

/// Those of a page that isn't started.
pub const NO_FACTS: PageFacts = PageFacts {
    kind: UNSTARTED,
    lowest: None,
    room: 0,
    maps: 0,
};

/// The facts of a page that passes its check.
pub fn facts_of(page: &Page, form: &Form) -> PageFacts
    requires form { IsForm form.now }
    requires page { IsPageOf form.now page.now }
    ensures { result ≡ facts_on form.now page.now }
{
    PageFacts {
        kind: kind_of(page),
        lowest: first_free(page, *form),
        room: room_of(page, form),
        maps: maps_of(page, form),
    }
}

/// The bytes of the greatest further tuple that a page which passes its check takes: 0 where it isn't of an index.
fn room_of(page: &Page, form: &Form) -> u16
    requires { IsPageOf form.now page.now }
    ensures { result ≡ room_on page.now }
{
    if !is_index(form) {
        return 0;
    }
    room_for(page)
}

/// How many pages of the map a page that passes its check counts: 0 where it is no metapage.
fn maps_of(page: &Page, form: &Form) -> u32
    requires { IsPageOf form.now page.now }
    ensures { result ≡ map_pages_of page.now }
{
    if !is_index(form) {
        return 0;
    }
    map_pages(page)
}

/// The facts of a page that passes its check, after a change, where they were these before.
pub fn facts_after(page: &Page, form: &Form, change: &Change<'_>, old: &PageFacts) -> PageFacts
    requires form { IsForm form.now }
    requires page { IsPageOf form.now page.now }
    requires made { IsMadeFrom form.now old.now (logged change.now) page.now }
    ensures { result ≡ facts_on form.now page.now }
{
    slots_are_read();
    match *change {
        Change::RowPut { slot, .. } => PageFacts {
            kind: old.kind,
            lowest: lowest_after_put(page, form, slot, old.lowest),
            room: 0,
            maps: 0,
        },
        Change::RowMark { .. } => *old,
        _ => facts_of(page, form),
    }
}

/// The lowest free slot of a page into a slot of which a row was put, where it was this one before.
fn lowest_after_put(page: &Page, form: &Form, slot: u16, old: Option<u16>) -> Option<u16>
    requires form { IsForm form.now }
    requires page { IsPageOf form.now page.now }
    requires put { HasPutInto form.now slot old page.now }
    ensures { result ≡ lowest_on form.now page.now }
{
    slots_are_read();
    if let Some(lowest) = old {
        if lowest == slot {
            return first_free_from(page, *form, slot);
        }
    }
    first_free(page, *form)
}
