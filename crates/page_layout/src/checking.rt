//! Whether bytes are a page of a form.

ghost use Rattle.std.specs.Prelude.{◌≡◌, ◌*◌, ◌≤◌, ◌<◌, length, true, false, IfErr, IfSome, OnOk, OnErr, MatchResult, None, Some};
ghost use Rattle.block_model.specs.declared.limits.TheConstants.{PAGE_ROOM, PAGE_SIZE};
ghost use Rattle.block_model.specs.RowSize.{row_size};
ghost use Rattle.page_layout.specs.PageContents.{HasFewColumns, IsForm, IsPageOf};
ghost use Rattle.index_layout.specs.IndexFaults.{index_fault};
ghost use Rattle.page_layout.specs.PageFaults.{body_fault, has_page_kind, page_fault, rows_fault, slots_fault, started_fault, zeros_fault};

use crate::format::{HEAP, STATUS};
use crate::index_readers::is_index;
use crate::page::{Form, HEADER, Page, PageFault, bytes_known};
use crate::slot::slot_fault;
use block_model::{Kind, PAGE_SIZE};
use index_layout::{EVACUATED, MAP, META, REGULAR, UNSTARTED, first_fault, zeros_fault};

/// Whether the page is one of the form, whose slots are of the size of a row and fit a page; a page that isn't started is
/// one of every form. The fault is the lowest place of a field whose rule is broken.
pub fn check(page: &Page, form: Form) -> Result<(), PageFault>
    requires { IsForm form }
    ensures place { MatchResult result (λ _. page_fault form page.now ≡ None) (λ fault. page_fault form page.now ≡ Some fault.at) }
    ensures within { IfErr result (λ fault. fault.at < PAGE_SIZE) }
    ensures passed { OnOk result (IsPageOf form page.now) }
    ensures refused { OnErr result (IsPageOf form page.now → ⊥) }
{
    form_known(&form);
    match page_fault(page.as_bytes(), &form) {
        Some(at) => Err(PageFault { at: at as u16 }),
        None => Ok(()),
    }
}

/// Whether the bytes are a page of the form, whose slots are of the size of a row and fit a page. Copies none of them.
pub fn is_page(bytes: &[u8], form: Form) -> bool
    requires { IsForm form }
    ensures page { result ≡ true → (length bytes.now ≡ PAGE_SIZE) × IsPageOf form bytes.now }
    ensures other { result ≡ false → (length bytes.now ≡ PAGE_SIZE) × IsPageOf form bytes.now → ⊥ }
{
    if bytes.len() != PAGE_SIZE {
        return false;
    }
    form_known(&form);
    match page_fault(bytes, &form) {
        Some(_) => false,
        None => true,
    }
}

/// The lowest place of a field whose rule is broken; None exactly where the bytes are a page of the form.
fn page_fault(page: &[u8], form: &Form) -> Option<usize>
    requires form { IsForm form.now }
    requires few { HasFewColumns form.now }
    requires whole { length page.now ≡ PAGE_SIZE }
    ensures fault { result ≡ page_fault form.now page.now }
    ensures within { IfSome result (λ at. at < PAGE_SIZE) }
    ensures passed { result ≡ None → IsPageOf form.now page.now }
    ensures refused { IsPageOf form.now page.now → result ≡ None }
{
    bytes_known(page);
    if is_index(form) {
        return index_fault(page);
    }
    rows_fault(page, form)
}

/// That of a page of an index.
fn index_fault(page: &[u8]) -> Option<usize>
    requires whole { length page.now ≡ PAGE_SIZE }
    ensures fault { result ≡ index_fault page.now }
    ensures within { IfSome result (λ at. at < PAGE_SIZE) }
    ensures passed { result ≡ None → IsPageOf Form.Index page.now }
    ensures refused { IsPageOf Form.Index page.now → result ≡ None }
{
    match first_fault(page) {
        Some(at) => Some(usize::from(at)),
        None => None,
    }
}

/// That of a page of statuses or of a heap.
#[tactic(auto, unfolding(crate::specs::PageFaults::rows_fault))]
fn rows_fault(page: &[u8], form: &Form) -> Option<usize>
    requires form { IsForm form.now }
    requires whole { length page.now ≡ PAGE_SIZE }
    ensures fault { result ≡ rows_fault form.now page.now }
    ensures within { IfSome result (λ at. at < PAGE_SIZE) }
{
    let kind = page[0];
    if kind == UNSTARTED {
        return zeros_fault(page);
    }
    if has_page_kind(form, kind) {
        return started_fault(page, form);
    }
    Some(0)
}

/// Whether a started page of the form may have the kind.
fn has_page_kind(form: &Form, kind: u8) -> bool
    ensures { result ≡ has_page_kind form.now kind }
{
    match form {
        Form::Status => kind == STATUS,
        Form::Heap { .. } => kind == HEAP,
        Form::Index => kind == META || kind == MAP || kind == REGULAR || kind == EVACUATED,
    }
}

#[tactic(auto, unfolding(crate::specs::PageFaults::started_fault))]
fn started_fault(page: &[u8], form: &Form) -> Option<usize>
    requires form { IsForm form.now }
    requires whole { length page.now ≡ PAGE_SIZE }
    ensures fault { result ≡ started_fault form.now page.now }
    ensures within { IfSome result (λ at. at < PAGE_SIZE) }
{
    if let Some(at) = zeros_fault(&page[1..HEADER]) {
        return Some(1 + at);
    }
    let at = body_fault(&page[HEADER..], form)?;
    Some(HEADER + at)
}

fn body_fault(body: &[u8], form: &Form) -> Option<usize>
    requires form { IsForm form.now }
    requires whole { length body.now ≡ PAGE_ROOM }
    ensures fault { result ≡ body_fault form.now body.now }
    ensures within { IfSome result (λ at. at < PAGE_ROOM) }
{
    match form {
        Form::Status | Form::Index => None,
        Form::Heap {
            row,
            slots,
            kinds,
            ..
        } => slots_fault(kinds.as_slice(), *slots, usize::from(*row), body),
    }
}

/// The first field of the slots, or of the zeros behind them, whose rule is broken.
fn slots_fault(kinds: &[Kind], slots: u16, row: usize, body: &[u8]) -> Option<usize>
    requires columns { length kinds.now ≤ 8 }
    requires row { row ≡ row_size kinds.now }
    requires room { slots * row ≤ length body.now }
    ensures fault { result ≡ slots_fault kinds.now slots body.now }
    ensures within { IfSome result (λ at. at < length body.now) }
{
    for slot in 0..slots {
        let at = usize::from(slot) * row;
        if let Some(fault) = slot_fault(kinds, &body[at..at + row]) {
            return Some(at + fault);
        }
    }
    let at = usize::from(slots) * row;
    let fault = zeros_fault(&body[at..])?;
    Some(at + fault)
}

/// A form has at most eight columns. Does nothing.
fn form_known(form: &Form)
    ensures { HasFewColumns form.now }
{
    if let Form::Heap { kinds, .. } = form {
        // Opens the kinds, so that their number is known.
        let _ = kinds.as_slice();
    }
}
