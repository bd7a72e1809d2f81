//! What a change does to a page.

ghost use Rattle.std.specs.Prelude.{◌≡◌, ◌≤◌, length, set, slice_index, List, true, IfErr, OnOk};
ghost use Rattle.page_layout.specs.FreeSlots.{slot_count};
ghost use Rattle.page_layout.specs.PageContents.{HasSlot, HasSlots, IsForm, IsPageOf, IsRowOf, Slot};
ghost use Rattle.page_redo.specs.Redo.{Fits, IsEmptyPage, IsStart, Means, are_ascending, dropped};
ghost use Rattle.wal_record.specs.ChangeBytes.{bytes_of};
ghost use Rattle.wal_record.specs.Changes.{logged};

use crate::fitting::{takes, takes_checked};
use crate::tag::tag_of;
use page_layout::{
    Form, HEAP, MAP, Page, clear_slot, drop_tuples, evacuate, mark_row, put_row, put_tuple,
    replace_tuple, set_entry, set_map_pages, set_status, start_heap, start_map, start_regular,
    turn_to_map,
};
use wal_record::Change;

/// The change of that tag doesn't fit the page.
#[derive(Clone, Copy, Debug, PartialEq, Eq)]
pub struct Misfit {
    pub tag: u8,
}

/// Makes the change. Misfit exactly where it doesn't fit, and the page is unchanged then.
pub fn redo(page: &mut Page, change: &Change<'_>, form: Form) -> Result<(), Misfit>
    requires form { IsForm form }
    ensures fitted { OnOk result (Fits form page.old (logged change.now)) }
    ensures done { OnOk result (Means form page.old (logged change.now) page.new) }
    ensures passes { OnOk result (IsPageOf form page.new) }
    ensures misfit { IfErr result (λ e. Fits form page.old (logged change.now) → ⊥) }
    ensures tag { IfErr result (λ e. e.tag ≡ slice_index (bytes_of (logged change.now)) 0) }
    ensures same { IfErr result (λ e. page.new ≡ page.old) }
{
    if !takes(page, change, &form) {
        return Err(Misfit {
            tag: tag_of(change),
        });
    }
    make(page, change, &form);
    Ok(())
}

/// Makes the change on a page that passes its check, which isn't run again. Misfit exactly where it doesn't fit, and the
/// page is unchanged then.
pub fn redo_checked(page: &mut Page, change: &Change<'_>, form: Form) -> Result<(), Misfit>
    requires form { IsForm form }
    requires page { IsPageOf form page.old }
    ensures fitted { OnOk result (Fits form page.old (logged change.now)) }
    ensures done { OnOk result (Means form page.old (logged change.now) page.new) }
    // So it may be changed again.
    ensures passes { IsPageOf form page.new }
    ensures misfit { IfErr result (λ e. Fits form page.old (logged change.now) → ⊥) }
    ensures tag { IfErr result (λ e. e.tag ≡ slice_index (bytes_of (logged change.now)) 0) }
    ensures same { IfErr result (λ e. page.new ≡ page.old) }
{
    if !takes_checked(page, change, &form) {
        return Err(Misfit {
            tag: tag_of(change),
        });
    }
    make(page, change, &form);
    Ok(())
}

/// Makes a change that fits.
fn make(page: &mut Page, change: &Change<'_>, form: &Form)
    requires form { IsForm form.now }
    requires fits { Fits form.now page.old (logged change.now) }
    ensures { Means form.now page.old (logged change.now) page.new }
{
    match *change {
        Change::FullPage { bytes, .. } => page.replace(bytes),
        Change::PageStart { kind, .. } => start(page, form, kind),
        Change::RowPut { slot, bytes, .. } => put_row(page, *form, slot, bytes),
        Change::RowMark { slot, deleter, .. } => mark_row(page, *form, slot, deleter),
        Change::RowsDrop { slots, .. } => drop_rows(page, form, 0, slots),
        Change::TuplePut { slot, bytes, .. } => put_tuple(page, slot, bytes),
        Change::TupleReplace { slot, bytes, .. } => replace_tuple(page, slot, bytes),
        Change::TupleDrop { slots, .. } => drop_tuples(page, slots),
        Change::Evacuate { .. } => evacuate(page),
        Change::MapPage { .. } => turn_to_map(page),
        Change::MapSet { entry, spot, .. } => set_entry(page, entry, spot),
        Change::MetaSet { maps, .. } => set_map_pages(page, maps),
        Change::StatusSet { entry, status, .. } => set_status(page, entry, status),
    }
}

/// Whatever bytes stand there, they become an empty page of the kind.
fn start(page: &mut Page, form: &Form, kind: u8)
    requires form { IsForm form.now }
    requires start { IsStart form.now kind }
    ensures { IsEmptyPage form.now kind page.new }
{
    match kind {
        HEAP => start_heap(page, *form),
        MAP => start_map(page),
        _ => start_regular(page),
    }
}

/// The slots are free.
#[tactic(auto, unfolding(crate::specs::Redo::are_ascending, crate::specs::Redo::dropped))]
fn drop_rows(page: &mut Page, form: &Form, least: u32, slots: &[u8])
    requires form { IsForm form.now }
    requires ascending { are_ascending least (slot_count form.now) slots.now ≡ true }
    ensures { (list : List Slot) → HasSlots form.now page.old list → HasSlots form.now page.new (dropped list slots.now) }
{
    if let [high, low, slots @ ..] = slots {
        let slot = u16::from(*high) * 256 + u16::from(*low);
        clear_slot(page, *form, slot);
        drop_rows(page, form, u32::from(slot) + 1, slots);
    }
}
