//! Whether a page of an index takes a change, and which pages a change starts.

ghost use Rattle.std.specs.Prelude.{◌≡◌, ◌<◌, length, slice_index, true, false};
ghost use Rattle.page_layout.specs.TheConstants.{EVACUATED, MAP, MAP_ENTRIES};
ghost use Rattle.page_layout.specs.IndexReading.{slots_of};
ghost use Rattle.page_layout.specs.IndexWrites.{CanDrop, CanPut, CanReplace};
ghost use Rattle.page_layout.specs.PageContents.{IsPageOf};
ghost use Rattle.page_redo.specs.Redo.{IsIndexPageOf, IsStart, is_index_start};

use page_layout::{
    EVACUATED, Form, HEAP, MAP, MAP_ENTRIES, Page, REGULAR, can_drop, can_put, can_replace,
    kind_of, slots,
};

/// Whether a change starts pages of that kind in a relation of the form.
pub(crate) fn is_start(kind: u8, form: &Form) -> bool
    ensures is { result ≡ true → IsStart form.now kind }
    ensures isnt { result ≡ false → IsStart form.now kind → ⊥ }
{
    match form {
        Form::Status => false,
        Form::Heap { .. } => kind == HEAP,
        Form::Index => is_index_start(kind),
    }
}

fn is_index_start(kind: u8) -> bool
    ensures { result ≡ is_index_start kind }
{
    kind == MAP || kind == REGULAR
}

pub(crate) fn can_put_tuple(page: &Page, form: &Form, slot: u16, bytes: &[u8]) -> bool
    requires { IsPageOf form.now page.now }
    ensures is { result ≡ true → IsIndexPageOf form.now page.now × CanPut page.now slot (length bytes.now) }
    ensures isnt { result ≡ false → IsIndexPageOf form.now page.now × CanPut page.now slot (length bytes.now) → ⊥ }
{
    match form {
        Form::Status | Form::Heap { .. } => false,
        Form::Index => can_put(page, slot, bytes.len()),
    }
}

pub(crate) fn can_replace_tuple(page: &Page, form: &Form, slot: u16, bytes: &[u8]) -> bool
    requires { IsPageOf form.now page.now }
    ensures is { result ≡ true → IsIndexPageOf form.now page.now × CanReplace page.now slot (length bytes.now) }
    ensures isnt { result ≡ false → IsIndexPageOf form.now page.now × CanReplace page.now slot (length bytes.now) → ⊥ }
{
    match form {
        Form::Status | Form::Heap { .. } => false,
        Form::Index => can_replace(page, slot, bytes.len()),
    }
}

pub(crate) fn can_drop_tuples(page: &Page, form: &Form, list: &[u8]) -> bool
    requires { IsPageOf form.now page.now }
    ensures is { result ≡ true → IsIndexPageOf form.now page.now × CanDrop page.now list.now }
    ensures isnt { result ≡ false → IsIndexPageOf form.now page.now × CanDrop page.now list.now → ⊥ }
{
    match form {
        Form::Status | Form::Heap { .. } => false,
        Form::Index => can_drop(page, list),
    }
}

/// Whether it is a page of an index, of that kind.
pub(crate) fn is_of_kind(page: &Page, form: &Form, kind: u8) -> bool
    requires { IsPageOf form.now page.now }
    ensures is { result ≡ true → IsIndexPageOf form.now page.now × (slice_index page.now 0 ≡ kind) }
    ensures isnt { result ≡ false → IsIndexPageOf form.now page.now × (slice_index page.now 0 ≡ kind) → ⊥ }
{
    match form {
        Form::Status | Form::Heap { .. } => false,
        Form::Index => kind_of(page) == kind,
    }
}

/// Whether a page that is being evacuated has no tuples any more, so that a page of the map may be made of it.
pub(crate) fn can_turn(page: &Page, form: &Form) -> bool
    requires { IsPageOf form.now page.now }
    ensures is { result ≡ true → IsIndexPageOf form.now page.now × (slice_index page.now 0 ≡ EVACUATED) × (length (slots_of page.now) ≡ 0) }
    ensures isnt { result ≡ false → IsIndexPageOf form.now page.now × (slice_index page.now 0 ≡ EVACUATED) × (length (slots_of page.now) ≡ 0) → ⊥ }
{
    match form {
        Form::Status | Form::Heap { .. } => false,
        Form::Index => is_evacuated(page),
    }
}

fn is_evacuated(page: &Page) -> bool
    requires { IsPageOf Form.Index page.now }
    ensures is { result ≡ true → (slice_index page.now 0 ≡ EVACUATED) × (length (slots_of page.now) ≡ 0) }
    ensures isnt { result ≡ false → (slice_index page.now 0 ≡ EVACUATED) × (length (slots_of page.now) ≡ 0) → ⊥ }
{
    if kind_of(page) != EVACUATED {
        return false;
    }
    slots(page) == 0
}

/// Whether it is a page of the map that has the entry.
pub(crate) fn can_set_entry(page: &Page, form: &Form, entry: u16) -> bool
    requires { IsPageOf form.now page.now }
    ensures is { result ≡ true → IsIndexPageOf form.now page.now × (slice_index page.now 0 ≡ MAP) × (entry < MAP_ENTRIES) }
    ensures isnt { result ≡ false → IsIndexPageOf form.now page.now × (slice_index page.now 0 ≡ MAP) × (entry < MAP_ENTRIES) → ⊥ }
{
    if entry >= MAP_ENTRIES {
        return false;
    }
    is_of_kind(page, form, MAP)
}
