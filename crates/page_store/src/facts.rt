//! The facts of pages that are held.

ghost use Rattle.std.specs.Prelude.{◌≡◌, ◌<◌, ◌≤◌, IsSome, length, set, slice_index_or, IfOk, IfErr, OnOk, OnErr, []};
ghost use Rattle.store_layout.specs.DiskLayout.{IsPlace};
ghost use Rattle.page_layout.specs.PageContents.{IsForm};
ghost use Rattle.page_layout.specs.PageWrites.{IsOfIndex};
ghost use Rattle.page_map.specs.FactLists.{IsFirstOf, IsFirstOfIndex};
ghost use Rattle.page_map.specs.Forms.{form_of, forms_of};
ghost use Rattle.page_map.specs.Keeps.{Untold};
ghost use Rattle.page_map.specs.Outcome.{NamesPage, Outcome};
ghost use Rattle.buffer_pool.specs.PoolState.{held_at};
ghost use Rattle.recovery.specs.PageNumbers.{page_number};
ghost use Rattle.page_store.specs.KeptPages.{KeptPages};
ghost use Rattle.page_store.specs.LoggedState.{store_of};
ghost use Rattle.page_store.specs.StoreFacts.{AreKnown, IsFactPlace, facts_at};
ghost use Rattle.page_store.specs.Noted.{NotesHeld, noted};

use crate::forms::form_at;
use crate::logged::LoggedPages;
use block_model::Place;
use disk_trait::Disk;
use page_layout::{Form, is_index, slots_are_read};
use page_map::{FactList, PageFacts, StoreError, facts_of};
use store_layout::pages_fill_the_disk;

/// Holds the page at the place, so that its facts are known.
pub fn hold<D: Disk + Drop>(
    pages: &mut LoggedPages<D>,
    facts: &mut Vec<FactList>,
    forms: &Vec<Form>,
    place: Place,
    number: u64,
) -> Result<(), StoreError>
    requires place { IsPlace pages.old.layout place }
    requires number { number ≡ page_number pages.old.layout place }
    requires forms { forms.now.items ≡ forms_of pages.old.layout }
    requires facts { AreKnown D.told pages.old facts.old.items }
    ensures kept { KeptPages D.told (store_of D.told pages.old) (store_of D.told pages.new) }
    ensures outcome { Outcome D.told (Untold D.told (store_of D.told pages.old)) (store_of D.told pages.old) (store_of D.told pages.new) result }
    ensures at { IfErr result (λ error. NamesPage pages.old.layout place error) }
    ensures held { OnOk result (IsSome (held_at pages.new.pool (page_number pages.new.layout place))) }
    ensures facts { AreKnown D.told pages.new facts.new.items }
{
    pages_fill_the_disk(pages.layout());
    slots_are_read();
    let form = form_at(forms, pages.layout(), place.relation);
    if pages.hold(place, number, form)? {
        note_held(pages, facts, form, place);
    }
    Ok(())
}

/// Notes the facts of the page at the place, which is held.
#[cold]
#[inline(never)]
fn note_held<D: Disk + Drop>(
    pages: &mut LoggedPages<D>,
    facts: &mut Vec<FactList>,
    form: &Form,
    place: Place,
)
    requires place { IsPlace pages.old.layout place }
    requires form { form.now ≡ form_of pages.old.layout place.relation }
    requires is { IsForm form.now }
    requires held { IsSome (held_at pages.old.pool (page_number pages.old.layout place)) }
    requires facts { IsFactPlace facts.old.items place }
    ensures same { pages.new ≡ pages.old }
    ensures noted { NotesHeld form.now (page_number pages.old.layout place) pages.old.pool place facts.old.items facts.new.items }
{
    pages.known();
    let Some(page) = pages.page(place) else {
        unreachable!()
    };
    let found = facts_of(page, form);
    note(facts, place, found);
}

/// The page at the place has these facts.
pub fn note(facts: &mut Vec<FactList>, place: Place, found: PageFacts)
    requires { IsFactPlace facts.old.items place }
    ensures { facts.new.items ≡ noted facts.old.items place found }
{
    let at = usize::from(place.relation);
    facts[at].note(place.block as usize, found);
}

/// The facts of the page at the place.
pub fn facts_of_place(facts: &Vec<FactList>, place: Place) -> PageFacts
    requires { place.relation < length facts.now.items }
    ensures { result ≡ facts_at facts.now.items place }
{
    facts[usize::from(place.relation)].get(place.block as usize)
}

/// The lowest block that has room by these facts of pages of the form, of an index behind `past` and for that many bytes, else
/// the lowest one that isn't started.
pub fn first_room_in(facts: &FactList, form: &Form, need: u16, past: u32) -> Option<u32>
    ensures index { IsOfIndex form.now → IsFirstOfIndex facts.now need past result }
    ensures rows { (IsOfIndex form.now → ⊥) → IsFirstOf facts.now result }
{
    if is_index(form) {
        return facts.first_behind(need, past);
    }
    facts.first_room()
}
