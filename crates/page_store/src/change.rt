//! Changes of pages.

ghost use Rattle.std.specs.Prelude.{◌≡◌, ◌≤◌, ◌<◌, ◌+◌, ℕ, List, None, IsSome, true, false, [], ◌∷◌, length, IfErr, OnOk, OnErr};
ghost use Rattle.store_layout.specs.DiskLayout.{IsPlace};
ghost use Rattle.wal_record.specs.Changes.{AreSlots, HasSizes, PageStart as LoggedStart, logged, place_of};
ghost use Rattle.page_map.specs.Changed.{Changed};
ghost use Rattle.page_map.specs.Forms.{FitInTurn, FitsIn, form_of, forms_of};
ghost use Rattle.page_map.specs.Keeps.{Tells, Untold};
ghost use Rattle.page_map.specs.Outcome.{NamesPage, Outcome};
ghost use Rattle.page_map.specs.PageFacts.{IsMadeFrom, facts_on};
ghost use Rattle.page_map.specs.PageMap.{page_at};
ghost use Rattle.buffer_pool.specs.PoolState.{held_at};
ghost use Rattle.recovery.specs.PageNumbers.{page_number};
ghost use Rattle.recovery.specs.Safe.{is_marked};
ghost use Rattle.page_store.specs.KeptPages.{KeptPages, LeftStore};
ghost use Rattle.page_store.specs.LoggedState.{store_of};
ghost use Rattle.page_store.specs.Room.{HasRoom, IsLoggable, bytes_for, is_anew};
ghost use Rattle.page_store.specs.StoreFacts.{AreKnown, IsFactPlace, facts_at};
ghost use Rattle.page_store.specs.Noted.{MadeOfFacts, NotesHeld};
ghost use Rattle.page_store.specs.Made.{IsDamaged};
ghost use Rattle.page_layout.specs.PageContents.{IsForm};

use crate::facts::{facts_of_place, hold, note};
use crate::forms::form_at;
use crate::logged::{LoggedPages, MOST_BYTES};
use block_model::{PAGE_SIZE, Place};
use disk_trait::Disk;
use page_layout::{Form, Page, slots_are_read};
use page_map::{FactList, PageFacts, StoreError, facts_after, tables_have_forms};
use recovery::{redo, redo_checked};
use store_layout::pages_fill_the_disk;
use wal_record::{Change, size};

/// The bytes of the start of a page, as a change.
const START_BYTES: usize = 7;

/// Makes the change of the page at the place.
pub fn change_page<D: Disk + Drop>(
    pages: &mut LoggedPages<D>,
    facts: &mut Vec<FactList>,
    forms: &Vec<Form>,
    place: Place,
    change: &Change<'_>,
) -> Result<(), StoreError>
    requires place { IsPlace pages.old.layout place }
    requires own { place_of (logged change.now) ≡ place }
    requires fits { Tells D.told (store_of D.told pages.old) → FitsIn pages.old.layout place.relation (page_at (store_of D.told pages.old).pages place) (logged change.now) }
    requires forms { forms.now.items ≡ forms_of pages.old.layout }
    requires facts { AreKnown D.told pages.old facts.old.items }
    ensures changed { OnOk result (Tells D.told (store_of D.told pages.old) → Changed pages.old.layout place (logged change.now ∷ []) (store_of D.told pages.old).pages (store_of D.told pages.new).pages) }
    ensures kept { OnErr result (KeptPages D.told (store_of D.told pages.old) (store_of D.told pages.new)) }
    ensures leaves { LeftStore D.told (store_of D.told pages.old) (store_of D.told pages.new) }
    ensures at { IfErr result (λ error. NamesPage pages.old.layout place error) }
    ensures outcome { Outcome D.told (Untold D.told (store_of D.told pages.old)) (store_of D.told pages.old) (store_of D.told pages.new) result }
    ensures facts { AreKnown D.told pages.new facts.new.items }
{
    tables_have_forms(pages.layout());
    let number = pages.number_of(place);
    hold(pages, facts, forms, place, number)?;
    if !is_loggable(change) {
        return Err(damaged(pages, place));
    }
    pages.make_room(place, is_anew(change), size(change))?;
    make(pages, facts, forms, place, change)
}

/// Starts the page at the place as one of that kind, whatever stood there, and makes the change of it.
pub fn start_page<D: Disk + Drop>(
    pages: &mut LoggedPages<D>,
    facts: &mut Vec<FactList>,
    forms: &Vec<Form>,
    place: Place,
    kind: u8,
    change: &Change<'_>,
) -> Result<(), StoreError>
    requires place { IsPlace pages.old.layout place }
    requires own { place_of (logged change.now) ≡ place }
    requires fits { Tells D.told (store_of D.told pages.old) → FitInTurn (form_of pages.old.layout place.relation) (page_at (store_of D.told pages.old).pages place) (LoggedStart place kind ∷ logged change.now ∷ []) }
    requires forms { forms.now.items ≡ forms_of pages.old.layout }
    requires facts { AreKnown D.told pages.old facts.old.items }
    ensures changed { OnOk result (Tells D.told (store_of D.told pages.old) → Changed pages.old.layout place (LoggedStart place kind ∷ logged change.now ∷ []) (store_of D.told pages.old).pages (store_of D.told pages.new).pages) }
    ensures kept { OnErr result (KeptPages D.told (store_of D.told pages.old) (store_of D.told pages.new)) }
    ensures leaves { LeftStore D.told (store_of D.told pages.old) (store_of D.told pages.new) }
    ensures at { IfErr result (λ error. NamesPage pages.old.layout place error) }
    ensures outcome { Outcome D.told (Untold D.told (store_of D.told pages.old)) (store_of D.told pages.old) (store_of D.told pages.new) result }
    ensures facts { AreKnown D.told pages.new facts.new.items }
{
    let form = form_at(forms, pages.layout(), place.relation);
    let number = pages.number_of(place);
    hold(pages, facts, forms, place, number)?;
    if !takes_started(form, place, kind, change) {
        return Err(damaged(pages, place));
    }
    pages.make_room(place, true, START_BYTES + size(change))?;
    let start = Change::PageStart { place, kind };
    make(pages, facts, forms, place, &start)?;
    make(pages, facts, forms, place, change)
}

/// Makes the change of the page at the place, which is held and for which there is room, and notes what is to be kept of it.
fn make<D: Disk + Drop>(
    pages: &mut LoggedPages<D>,
    facts: &mut Vec<FactList>,
    forms: &Vec<Form>,
    place: Place,
    change: &Change<'_>,
) -> Result<(), StoreError>
    requires place { IsPlace pages.old.layout place }
    requires own { place_of (logged change.now) ≡ place }
    requires fits { Tells D.told (store_of D.told pages.old) → FitsIn pages.old.layout place.relation (page_at (store_of D.told pages.old).pages place) (logged change.now) }
    requires forms { forms.now.items ≡ forms_of pages.old.layout }
    requires facts { AreKnown D.told pages.old facts.old.items }
    requires failed { pages.old.failed ≡ None }
    requires held { IsSome (held_at pages.old.pool (page_number pages.old.layout place)) }
    requires loggable { IsLoggable (logged change.now) }
    requires room { HasRoom pages.old.log pages.old.waiting (bytes_for (is_marked pages.old.marks pages.old.layout place) (logged change.now)) }
    ensures changed { OnOk result (Tells D.told (store_of D.told pages.old) → Changed pages.old.layout place (logged change.now ∷ []) (store_of D.told pages.old).pages (store_of D.told pages.new).pages) }
    ensures leaves { LeftStore D.told (store_of D.told pages.old) (store_of D.told pages.new) }
    ensures failed { pages.new.failed ≡ None }
    ensures refused { IfErr result (IsDamaged pages.old.layout place) }
    ensures untold { OnErr result (Untold D.told (store_of D.told pages.old)) }
    ensures facts { AreKnown D.told pages.new facts.new.items }
    ensures held { IsSome (held_at pages.new.pool (page_number pages.new.layout place)) }
    ensures log { pages.new.log ≡ pages.old.log }
    ensures disk { pages.new.disk ≡ pages.old.disk }
    ensures waiting { OnOk result (length pages.new.waiting.bytes ≡ length pages.old.waiting.bytes + bytes_for (is_marked pages.old.marks pages.old.layout place) (logged change.now)) }
    ensures marked { OnOk result (is_marked pages.new.marks pages.new.layout place ≡ true) }
{
    pages_fill_the_disk(pages.layout());
    slots_are_read();
    let form = form_at(forms, pages.layout(), place.relation);
    let old = facts_of_place(facts, place);
    let Ok(()) = pages.make(place, form, change) else {
        return Err(damaged(pages, place));
    };
    note_changed(pages, facts, form, place, change, &old);
    Ok(())
}

/// Notes the facts of the page at the place after a change, where they were these before.
fn note_changed<D: Disk + Drop>(
    pages: &mut LoggedPages<D>,
    facts: &mut Vec<FactList>,
    form: &Form,
    place: Place,
    change: &Change<'_>,
    old: &PageFacts,
)
    requires place { IsPlace pages.old.layout place }
    requires form { IsForm form.now }
    requires held { MadeOfFacts form.now (page_number pages.old.layout place) (logged change.now) old.now pages.old.pool }
    requires facts { IsFactPlace facts.old.items place }
    requires known { old.now ≡ facts_at facts.old.items place }
    ensures same { pages.new ≡ pages.old }
    ensures noted { NotesHeld form.now (page_number pages.old.layout place) pages.old.pool place facts.old.items facts.new.items }
{
    if keeps_facts(form, change, old) {
        return;
    }
    let Some(page) = pages.page(place) else {
        unreachable!()
    };
    let found = facts_after(page, form, change, old);
    note(facts, place, found);
}

/// Whether a page keeps its facts in the change, where they were these.
fn keeps_facts(form: &Form, change: &Change<'_>, old: &PageFacts) -> bool
    ensures { result ≡ true → (page : List ℕ) → IsMadeFrom form.now old.now (logged change.now) page → old.now ≡ facts_on form.now page }
{
    slots_are_read();
    // Form and facts are for the contract alone.
    let _ = form;
    let _ = old;
    match *change {
        Change::RowMark { .. } => true,
        _ => false,
    }
}

/// Whether a page that is started as one of that kind takes the change.
fn takes_started(form: &Form, place: Place, kind: u8, change: &Change<'_>) -> bool
    requires form { IsForm form.now }
    ensures takes { result ≡ true → IsLoggable (logged change.now) }
    ensures refuses { result ≡ false → (page : List ℕ) → FitInTurn form.now page (LoggedStart place kind ∷ logged change.now ∷ []) → ⊥ }
{
    let mut page = Page::zeroed();
    let start = Change::PageStart { place, kind };
    if let Err(_) = redo(&mut page, &start, *form) {
        return false;
    }
    match redo_checked(&mut page, change, *form) {
        Ok(()) => true,
        Err(_) => false,
    }
}

/// Damage of the page at the place.
fn damaged<D: Disk + Drop>(pages: &LoggedPages<D>, place: Place) -> StoreError
    requires place { IsPlace pages.now.layout place }
    ensures { IsDamaged pages.now.layout place result }
{
    let at = pages.layout().page_at(place);
    StoreError::Damaged { at }
}

/// Whether the change makes the whole page, whatever stood there.
pub fn is_anew(change: &Change<'_>) -> bool
    ensures { result ≡ is_anew (logged change.now) }
{
    match change {
        Change::FullPage { .. } | Change::PageStart { .. } => true,
        _ => false,
    }
}

/// Whether the change can be logged.
fn is_loggable(change: &Change<'_>) -> bool
    ensures is { result ≡ true → IsLoggable (logged change.now) }
    ensures isnt { result ≡ false → IsLoggable (logged change.now) → ⊥ }
{
    if !has_sizes(change) {
        return false;
    }
    size(change) <= MOST_BYTES
}

/// Whether the bytes of the change can tell its sizes.
fn has_sizes(change: &Change<'_>) -> bool
    ensures is { result ≡ true → HasSizes (logged change.now) }
    ensures isnt { result ≡ false → HasSizes (logged change.now) → ⊥ }
{
    match change {
        Change::FullPage { bytes, .. } => bytes.len() == PAGE_SIZE,
        Change::RowPut { bytes, .. } => bytes.len() <= 65535,
        Change::TuplePut { bytes, .. } => bytes.len() <= 65535,
        Change::TupleReplace { bytes, .. } => bytes.len() <= 65535,
        Change::RowsDrop { slots, .. } => are_slots(slots),
        Change::TupleDrop { slots, .. } => are_slots(slots),
        _ => true,
    }
}

/// Whether the bytes are two for each slot, of at most 65535 slots.
fn are_slots(slots: &[u8]) -> bool
    ensures is { result ≡ true → AreSlots slots.now }
    ensures isnt { result ≡ false → AreSlots slots.now → ⊥ }
{
    if slots.len() > 131_070 {
        return false;
    }
    slots.len() % 2 == 0
}
