//! Whether a page takes a change.

ghost use Rattle.std.specs.Prelude.{◌≡◌, ◌↔◌, ◌<◌, ◌≤◌, Some, true, false};
ghost use Rattle.page_layout.specs.declared.format.TheConstants.{STATUS_ENTRIES};
ghost use Rattle.page_layout.specs.PageContents.{HasSlot, IsForm, IsPageOf, IsRowOf};
ghost use Rattle.page_layout.specs.FreeSlots.{slot_count};
ghost use Rattle.page_redo.specs.Redo.{Fits, IsFreeSlot, IsHeapPage, IsOfStatuses, IsUsedSlot, are_ascending};
ghost use Rattle.wal_record.specs.Changes.{logged};

use crate::index_fitting::{
    can_drop_tuples, can_put_tuple, can_replace_tuple, can_set_entry, can_turn, is_of_kind,
    is_start,
};
use page_layout::{
    Form, HEAP, META, Page, REGULAR, STATUS, STATUS_ENTRIES, check, is_page, is_row, kind_of,
    row_at, slot_count,
};
use wal_record::Change;

/// How many statuses there are.
const STATUSES: u8 = 4;

/// Whether the page takes the change.
pub fn fits(page: &Page, change: &Change<'_>, form: Form) -> bool
    requires form { IsForm form }
    ensures fits { result ≡ true → Fits form page.now (logged change.now) }
    ensures misfits { result ≡ false → Fits form page.now (logged change.now) → ⊥ }
{
    takes(page, change, &form)
}

/// Whether the page takes the change: a whole page and a start whatever stands there, another one where it passes its
/// check.
pub(crate) fn takes(page: &Page, change: &Change<'_>, form: &Form) -> bool
    requires form { IsForm form.now }
    ensures fits { result ≡ true → Fits form.now page.now (logged change.now) }
    ensures misfits { result ≡ false → Fits form.now page.now (logged change.now) → ⊥ }
{
    match *change {
        Change::FullPage { bytes, .. } => is_page(bytes, *form),
        Change::PageStart { kind, .. } => is_start(kind, form),
        _ => match check(page, *form) {
            Ok(()) => takes_checked(page, change, form),
            Err(_) => false,
        },
    }
}

/// Whether a page that passes its check takes the change.
pub(crate) fn takes_checked(page: &Page, change: &Change<'_>, form: &Form) -> bool
    requires form { IsForm form.now }
    requires page { IsPageOf form.now page.now }
    ensures fits { result ≡ true → Fits form.now page.now (logged change.now) }
    ensures misfits { result ≡ false → Fits form.now page.now (logged change.now) → ⊥ }
{
    match *change {
        Change::FullPage { bytes, .. } => is_page(bytes, *form),
        Change::PageStart { kind, .. } => is_start(kind, form),
        Change::RowPut { slot, bytes, .. } => can_put(page, form, slot, bytes),
        Change::RowMark { slot, .. } => is_used(page, form, slot),
        Change::RowsDrop { slots, .. } => can_drop(page, form, slots),
        Change::TuplePut { slot, bytes, .. } => can_put_tuple(page, form, slot, bytes),
        Change::TupleReplace { slot, bytes, .. } => can_replace_tuple(page, form, slot, bytes),
        Change::TupleDrop { slots, .. } => can_drop_tuples(page, form, slots),
        Change::Evacuate { .. } => is_of_kind(page, form, REGULAR),
        Change::MapPage { .. } => can_turn(page, form),
        Change::MapSet { entry, .. } => can_set_entry(page, form, entry),
        Change::MetaSet { .. } => is_of_kind(page, form, META),
        Change::StatusSet { entry, status, .. } => can_set(page, form, entry, status),
    }
}

fn is_heap(page: &Page, form: &Form) -> bool
    requires { IsPageOf form.now page.now }
    ensures is { result ≡ true → IsHeapPage form.now page.now }
    ensures isnt { result ≡ false → IsHeapPage form.now page.now → ⊥ }
{
    page.known();
    match form {
        Form::Status | Form::Index => false,
        Form::Heap { .. } => kind_of(page) == HEAP,
    }
}

fn is_of_statuses(page: &Page, form: &Form) -> bool
    requires { IsPageOf form.now page.now }
    ensures is { result ≡ true → IsOfStatuses form.now page.now }
    ensures isnt { result ≡ false → IsOfStatuses form.now page.now → ⊥ }
{
    page.known();
    match form {
        Form::Status => kind_of(page) == STATUS,
        Form::Heap { .. } | Form::Index => false,
    }
}

fn is_free(page: &Page, form: &Form, slot: u16) -> bool
    requires form { IsForm form.now }
    requires page { IsPageOf form.now page.now }
    ensures is { result ≡ true → IsFreeSlot form.now page.now slot }
    ensures isnt { result ≡ false → IsFreeSlot form.now page.now slot → ⊥ }
{
    match use_of(page, form, slot) {
        Some(used) => !used,
        None => false,
    }
}

fn is_used(page: &Page, form: &Form, slot: u16) -> bool
    requires form { IsForm form.now }
    requires page { IsPageOf form.now page.now }
    ensures is { result ≡ true → IsUsedSlot form.now page.now slot }
    ensures isnt { result ≡ false → IsUsedSlot form.now page.now slot → ⊥ }
{
    match use_of(page, form, slot) {
        Some(used) => used,
        None => false,
    }
}

/// Whether the slot of a heap page is in use. None where the page has no such slot.
fn use_of(page: &Page, form: &Form, slot: u16) -> Option<bool>
    requires form { IsForm form.now }
    requires page { IsPageOf form.now page.now }
    ensures free { IsFreeSlot form.now page.now slot ↔ (result ≡ Some false) }
    ensures used { IsUsedSlot form.now page.now slot ↔ (result ≡ Some true) }
{
    if !is_heap(page, form) {
        return None;
    }
    if slot >= slot_count(form) {
        return None;
    }
    match row_at(page, *form, slot) {
        None => Some(false),
        Some(_) => Some(true),
    }
}

fn can_put(page: &Page, form: &Form, slot: u16, bytes: &[u8]) -> bool
    requires form { IsForm form.now }
    requires page { IsPageOf form.now page.now }
    ensures is { result ≡ true → IsFreeSlot form.now page.now slot × IsRowOf form.now bytes.now }
    ensures isnt { result ≡ false → IsFreeSlot form.now page.now slot × IsRowOf form.now bytes.now → ⊥ }
{
    if !is_free(page, form, slot) {
        return false;
    }
    is_row(*form, bytes)
}

fn can_drop(page: &Page, form: &Form, slots: &[u8]) -> bool
    requires form { IsForm form.now }
    requires page { IsPageOf form.now page.now }
    ensures is { result ≡ true → IsHeapPage form.now page.now × (are_ascending 0 (slot_count form.now) slots.now ≡ true) }
    ensures isnt { result ≡ false → IsHeapPage form.now page.now × (are_ascending 0 (slot_count form.now) slots.now ≡ true) → ⊥ }
{
    if !is_heap(page, form) {
        return false;
    }
    are_ascending(0, slot_count(form), slots)
}

/// Whether the slots ascend from the least one, and all are below the count.
#[tactic(auto, unfolding(crate::specs::Redo::are_ascending))]
fn are_ascending(least: u32, count: u16, slots: &[u8]) -> bool
    requires { least ≤ 65536 }
    ensures { result ≡ are_ascending least count slots.now }
{
    match slots {
        [] => true,
        [_] => false,
        [high, low, slots @ ..] => {
            let slot = u32::from(*high) * 256 + u32::from(*low);
            if slot < least {
                return false;
            }
            if slot >= u32::from(count) {
                return false;
            }
            are_ascending(slot + 1, count, slots)
        }
    }
}

fn can_set(page: &Page, form: &Form, entry: u16, status: u8) -> bool
    requires form { IsForm form.now }
    requires page { IsPageOf form.now page.now }
    ensures is { result ≡ true → IsOfStatuses form.now page.now × (entry < STATUS_ENTRIES) × (status < 4) }
    ensures isnt { result ≡ false → IsOfStatuses form.now page.now × (entry < STATUS_ENTRIES) × (status < 4) → ⊥ }
{
    if entry >= STATUS_ENTRIES {
        return false;
    }
    if status >= STATUSES {
        return false;
    }
    is_of_statuses(page, form)
}
