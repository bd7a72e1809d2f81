//! What is written to a page that passed its check.

ghost use Rattle.std.specs.Prelude.{◌≡◌, ◌<◌, ◌≤◌, length, set, List, ℕ, true, false};
ghost use Rattle.block_model.specs.RowSize.{row_size};
ghost use Rattle.page_layout.specs.declared.format.TheConstants.{STATUS_ENTRIES};
ghost use Rattle.page_layout.specs.PageContents.{HasSlot, IsForm, IsRowOf, IsStatusPage};
ghost use Rattle.page_layout.specs.PageWrites.{HasRowMarked, HasRowPut, HasSlotFreed, IsEmptyHeap, IsOfHeap, put_status};
ghost use Rattle.page_layout.specs.RowBytes.{IsRowBytes};

use crate::format::{HEAP, STATUSES_A_BYTE};
use crate::page::{Form, HEADER, Page};
use crate::row::{DELETER, IN_USE};
use crate::slot::row_fault;
use block_model::{Kind, PAGE_SIZE};

/// Whether the bytes are those of a row.
pub fn is_row(form: Form, bytes: &[u8]) -> bool
    requires form { IsForm form }
    ensures row { result ≡ true → IsRowOf form bytes.now }
    ensures other { result ≡ false → IsRowOf form bytes.now → ⊥ }
{
    match form {
        Form::Status | Form::Index => false,
        Form::Heap { row, kinds, .. } => has_row(kinds.as_slice(), usize::from(row), bytes),
    }
}

fn has_row(kinds: &[Kind], row: usize, bytes: &[u8]) -> bool
    requires columns { length kinds.now ≤ 8 }
    requires row { row ≡ row_size kinds.now }
    ensures row { result ≡ true → IsRowBytes kinds.now bytes.now }
    ensures other { result ≡ false → IsRowBytes kinds.now bytes.now → ⊥ }
{
    if bytes.len() != row {
        return false;
    }
    if bytes[0] != IN_USE {
        return false;
    }
    row_fault(kinds, bytes).is_none()
}

/// The page becomes an empty heap page.
pub fn start_heap(page: &mut Page, form: Form)
    requires form { IsForm form }
    requires heap { IsOfHeap form }
    ensures empty { IsEmptyHeap form page.new }
{
    // The bytes are the same for every table; the form says whose slots they are.
    let _ = form;
    page.known();
    page.clear(0, PAGE_SIZE);
    page.write(0, &[HEAP]);
}

/// The row of these bytes stands in the slot.
pub fn put_row(page: &mut Page, form: Form, slot: u16, bytes: &[u8])
    requires form { IsForm form }
    requires slot { HasSlot form slot }
    requires row { IsRowOf form bytes.now }
    ensures put { HasRowPut form page.old slot bytes.now page.new }
{
    if let Form::Heap { row, .. } = form {
        page.write(HEADER + usize::from(slot) * usize::from(row), bytes);
    }
}

/// The deleter of the row in the slot.
pub fn mark_row(page: &mut Page, form: Form, slot: u16, deleter: u64)
    requires form { IsForm form }
    requires slot { HasSlot form slot }
    ensures marked { HasRowMarked form page.old slot deleter page.new }
{
    if let Form::Heap { row, .. } = form {
        let at = HEADER + usize::from(slot) * usize::from(row);
        page.write(at + DELETER, &deleter.to_be_bytes());
    }
}

/// The slot becomes free.
pub fn clear_slot(page: &mut Page, form: Form, slot: u16)
    requires form { IsForm form }
    requires slot { HasSlot form slot }
    ensures freed { HasSlotFreed form page.old slot page.new }
{
    if let Form::Heap { row, .. } = form {
        let row = usize::from(row);
        page.clear(HEADER + usize::from(slot) * row, row);
    }
}

/// The status of that entry of a page of statuses, of which a page has `STATUS_ENTRIES`.
pub fn set_status(page: &mut Page, entry: u16, status: u8)
    requires entry { entry < STATUS_ENTRIES }
    requires status { status < 4 }
    ensures set { (entries : List ℕ) → IsStatusPage page.old entries → IsStatusPage page.new (set entries entry status) }
{
    let at = HEADER + usize::from(entry / STATUSES_A_BYTE);
    let byte = page.as_bytes()[at];
    page.write(at, &[put_status(byte, entry % STATUSES_A_BYTE, status)]);
}

/// The byte with the status in that place.
fn put_status(byte: u8, place: u16, status: u8) -> u8
    requires place { place < 4 }
    requires status { status < 4 }
    ensures { result ≡ put_status byte place status }
{
    match place {
        0 => byte / 4 * 4 + status,
        1 => byte / 16 * 16 + status * 4 + byte % 4,
        2 => byte / 64 * 64 + status * 16 + byte % 16,
        _ => status * 64 + byte % 64,
    }
}
