//! What stands on a page that passed its check.

ghost use Rattle.std.specs.Prelude.{◌≡◌, ◌+◌, ◌*◌, ◌<◌, ◌≤◌, drop, take, length, slice_index, IfSome, List, None};
ghost use Rattle.std.specs.Option.{option_map};
ghost use Rattle.page_layout.specs.declared.format.TheConstants.{STATUS_ENTRIES};
ghost use Rattle.page_layout.specs.PageContents.{HasSlot, HasSlots, IsForm, IsPageOf, IsRowOf, IsUnstarted, Slot, row_bytes_in, status_in, statuses, used_in};

use crate::format::STATUSES_A_BYTE;
use crate::page::{Form, HEADER, Page};
use crate::row::FREE;

/// The kind of the page.
pub fn kind_of(page: &Page) -> u8
    ensures { result ≡ slice_index page.now 0 }
{
    page.as_bytes()[0]
}

/// The status of that entry of a page of statuses, of which a page has `STATUS_ENTRIES`.
pub fn status_at(page: &Page, entry: u16) -> u8
    requires page { IsPageOf Form.Status page.now }
    requires entry { entry < STATUS_ENTRIES }
    ensures { result ≡ slice_index (statuses (drop 32 page.now)) entry }
{
    let bytes = page.as_bytes();
    let byte = bytes[HEADER + usize::from(entry / STATUSES_A_BYTE)];
    status_in(byte, entry % STATUSES_A_BYTE)
}

fn status_in(byte: u8, place: u16) -> u8
    requires { place < 4 }
    ensures { result ≡ status_in byte place }
{
    match place {
        0 => byte % 4,
        1 => byte / 4 % 4,
        2 => byte / 16 % 4,
        _ => byte / 64 % 4,
    }
}

/// The bytes of the row in that slot of a heap page. None exactly where the slot isn't in use.
pub fn row_at(page: &Page, form: Form, slot: u16) -> Option<&[u8]>
    requires form { IsForm form }
    requires page { IsPageOf form page.now }
    requires slot { HasSlot form slot }
    // By the list of slots that the page has.
    ensures contents { (slots : List Slot) → HasSlots form page.now slots → option_map (λ bytes. bytes.now) result ≡ row_bytes_in form slots slot }
    ensures unstarted { IsUnstarted page.now → option_map (λ bytes. bytes.now) result ≡ None }
    // So `decode_row` reads them.
    ensures row { IfSome result (λ bytes. IsRowOf form bytes.now) }
{
    match form {
        Form::Status | Form::Index => None,
        Form::Heap { row, .. } => used_row(page.as_bytes(), usize::from(row), usize::from(slot)),
    }
}

fn used_row(page: &[u8], row: usize, slot: usize) -> Option<&[u8]>
    requires some { 0 < row }
    requires within { 32 + slot * row + row ≤ length page.now }
    ensures { option_map (λ bytes. bytes.now) result ≡ used_in (take row (drop (32 + slot * row) page.now)) }
{
    let at = HEADER + slot * row;
    let bytes = &page[at..at + row];
    if bytes[0] == FREE {
        return None;
    }
    Some(bytes)
}
