//! The free slots of a page that passed its check.

ghost use Rattle.std.specs.Prelude.{◌≡◌, List, None, IfSome};
ghost use Rattle.page_layout.specs.FreeSlots.{free_count, lowest_free, lowest_free_from, slot_count};
ghost use Rattle.page_layout.specs.PageContents.{HasSlot, HasSlots, IsForm, IsPageOf, IsUnstarted, Slot};
ghost use Rattle.page_layout.specs.SlotsOnPage.{free_on, lowest_on};

use crate::format::HEAP;
use crate::page::{Form, Page};
use crate::readers::{kind_of, row_at};

/// How many slots a page of the form has: one of a heap its table's rows per page, another none.
pub fn slot_count(form: &Form) -> u16
    ensures { result ≡ slot_count form.now }
{
    match form {
        Form::Status | Form::Index => 0,
        Form::Heap { slots, .. } => *slots,
    }
}

/// How many slots of the page are free: none where it isn't started, and none of statuses and of an index.
pub fn free_slots(page: &Page, form: Form) -> u16
    requires form { IsForm form }
    requires page { IsPageOf form page.now }
    ensures read { result ≡ free_on form page.now }
    // By the list of slots that the page has.
    ensures contents { (slots : List Slot) → HasSlots form page.now slots → result ≡ free_count slots }
    ensures unstarted { IsUnstarted page.now → result ≡ 0 }
    ensures statuses { form ≡ Form.Status → result ≡ 0 }
    ensures index { form ≡ Form.Index → result ≡ 0 }
{
    let mut free = 0;
    if kind_of(page) != HEAP {
        return free;
    }
    for slot in 0..slot_count(&form) {
        match row_at(page, form, slot) {
            None => free += 1,
            Some(_) => {}
        }
    }
    free
}

/// The lowest free slot of the page: none where it isn't started, and none of statuses and of an index.
pub fn first_free(page: &Page, form: Form) -> Option<u16>
    requires form { IsForm form }
    requires page { IsPageOf form page.now }
    ensures read { result ≡ lowest_on form page.now }
    // By the list of slots that the page has.
    ensures contents { (slots : List Slot) → HasSlots form page.now slots → result ≡ lowest_free slots }
    ensures within { IfSome result (HasSlot form) }
    ensures unstarted { IsUnstarted page.now → result ≡ None }
    ensures statuses { form ≡ Form.Status → result ≡ None }
    ensures index { form ≡ Form.Index → result ≡ None }
{
    first_free_from(page, form, 0)
}

/// The lowest free slot of the page from that number on: none where it isn't started, and none of statuses and of an index.
pub fn first_free_from(page: &Page, form: Form, from: u16) -> Option<u16>
    requires form { IsForm form }
    requires page { IsPageOf form page.now }
    // By the list of slots that the page has.
    ensures contents { (slots : List Slot) → HasSlots form page.now slots → result ≡ lowest_free_from from slots }
    ensures within { IfSome result (HasSlot form) }
    ensures unstarted { IsUnstarted page.now → result ≡ None }
    ensures statuses { form ≡ Form.Status → result ≡ None }
    ensures index { form ≡ Form.Index → result ≡ None }
{
    if kind_of(page) != HEAP {
        return None;
    }
    for slot in from..slot_count(&form) {
        match row_at(page, form, slot) {
            None => return Some(slot),
            Some(_) => {}
        }
    }
    None
}
