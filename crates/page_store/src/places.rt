//! Pages that are read from the disk, and changed in the pool.

ghost use Rattle.std.specs.Prelude.{◌≡◌, ◌||◌, ◌^◌, [], ◌∷◌, ◌+◌, ◌<◌, ◌≤◌, IsTrue, IsSome, Some, true, false, length, take, drop, set, slice_index_or, OnOk, OnErr};
ghost use Rattle.block_model.specs.Causes.{HasCause};
ghost use Rattle.block_model.specs.declared.limits.TheConstants.{PAGE_SIZE};
ghost use Rattle.byte_fields.specs.Fields.{AreBytes};
ghost use Rattle.page_layout.specs.PageContents.{IsForm};
ghost use Rattle.std.specs.List.{AllByRecursion};
ghost use Rattle.wal_record.specs.Changes.{IsChange, logged};
ghost use Rattle.buffer_pool.specs.PoolState.{HeldPage, held_at};
ghost use Rattle.page_store.specs.Begun.{HoldsOf, MakesHeld, RedoesHeld, begin_with, marked_from, with_changes};
ghost use Rattle.page_store.specs.Made.{Misfits};
ghost use Rattle.page_store.specs.Room.{IsLoggable, bytes_for, is_anew};
ghost use Rattle.wal_record.specs.declared.buffer.TheConstants.{BUFFER_SIZE};

use crate::change::is_anew;
use block_model::Place;
use buffer_pool::Pool;
use disk_trait::{Disk, DiskFault};
use page_layout::Form;
use recovery::{Misfit, redo_checked};
use wal_record::{Change, ChangeBuffer};

/// Reads a page from the byte of the disk at which it begins.
pub fn read_page<D: Disk>(disk: &mut D, at: u64, bytes: &mut [u8]) -> Result<(), DiskFault>
    requires { at + length bytes.old ≤ (D.told disk.old).size }
    ensures bytes { OnOk result (IsTrue (D.told disk.old).tells_contents → bytes.new ≡ take (length bytes.old) (drop at (D.told disk.old).contents)) }
    ensures same { D.told disk.new ≡ record (D.told disk.old) { faults = (D.told disk.new).faults } }
    ensures cause { HasCause (D.told disk.old).faults (D.told disk.new).faults result }
{
    let _size = disk.size();
    disk.read(at, bytes)
}

/// Makes the change of the page that is held at that number, which waits for the log from then on, or leaves its bytes as they
/// were where it doesn't fit.
pub fn redo_held(
    pool: &mut Pool,
    number: u64,
    waits: u64,
    change: &Change<'_>,
    form: &Form,
) -> Result<(), Misfit>
    requires form { IsForm form.now }
    requires held { HoldsOf form.now number pool.old }
    ensures redone { OnOk result (RedoesHeld form.now number waits (logged change.now ∷ []) pool.old pool.new) }
    ensures misfit { OnErr result (Misfits form.now number (logged change.now) pool.old) }
    ensures same { OnErr result (RedoesHeld form.now number waits [] pool.old pool.new) }
{
    let Some(page) = pool.change(number, waits) else {
        unreachable!()
    };
    match redo_checked(page, change, *form) {
        Ok(()) => {
            page.known();
            Ok(())
        }
        Err(misfit) => {
            page.known();
            Err(misfit)
        }
    }
}

/// Where a page is held, and what it waits for once it is changed.
#[derive(Clone, Copy)]
pub struct HeldPlace {
    pub place: Place,
    pub number: u64,
    pub waits: u64,
}

/// Makes the change of the page that is held there and lets it wait for the log: behind the page as it was where the log hasn't
/// begun it and the change doesn't. Where it doesn't fit the bytes of the page stay.
pub fn make_held(
    waiting: &mut ChangeBuffer,
    marks: &mut Vec<bool>,
    pool: &mut Pool,
    at: HeldPlace,
    form: &Form,
    change: &Change<'_>,
) -> Result<(), Misfit>
    requires form { IsForm form.now }
    requires held { HoldsOf form.now at.number pool.old }
    requires marks { at.number < length marks.old.items }
    requires block { at.place.block < 2 ^ 32 }
    requires loggable { IsLoggable (logged change.now) }
    requires room { length waiting.old.bytes + bytes_for (slice_index_or marks.old.items at.number false) (logged change.now) ≤ BUFFER_SIZE }
    ensures made { OnOk result (MakesHeld form.now at.place at.number at.waits (logged change.now) (record { waiting = waiting.old; marks = marks.old.items; pool = pool.old }) (record { waiting = waiting.new; marks = marks.new.items; pool = pool.new })) }
    ensures misfit { OnErr result (Misfits form.now at.number (logged change.now) pool.old) }
    ensures same { OnErr result (RedoesHeld form.now at.number at.waits [] pool.old pool.new) }
    ensures marks { length marks.new.items ≡ length marks.old.items }
    ensures few { length waiting.new.bytes ≤ length waiting.old.bytes + bytes_for (slice_index_or marks.old.items at.number false) (logged change.now) }
{
    let begun = marks[at.number as usize];
    begin(waiting, marks, pool, at, begun, change);
    redo_held(pool, at.number, at.waits, change, form)?;
    waiting.add(change);
    marks[at.number as usize] = true;
    Ok(())
}

/// Lets the page that is held there wait for the log as it is and marks it, where the log hasn't begun it and the change
/// doesn't.
fn begin(
    waiting: &mut ChangeBuffer,
    marks: &mut Vec<bool>,
    pool: &mut Pool,
    at: HeldPlace,
    begun: bool,
    change: &Change<'_>,
)
    requires held { (page : HeldPage) × (held_at pool.old at.number ≡ Some page) }
    requires marks { at.number < length marks.old.items }
    requires room { length waiting.old.bytes + bytes_for begun (logged change.now) ≤ BUFFER_SIZE }
    ensures same { pool.new ≡ pool.old }
    ensures marks { marks.new.items ≡ marked_from (begun || is_anew (logged change.now)) marks.old.items at.number }
    ensures many { length marks.new.items ≡ length marks.old.items }
    ensures begun { (page : HeldPage) → held_at pool.old at.number ≡ Some page → waiting.new ≡ with_changes waiting.old (begin_with (begun || is_anew (logged change.now)) at.place page.content) }
    ensures bytes { (page : HeldPage) → held_at pool.old at.number ≡ Some page → (begun || is_anew (logged change.now)) ≡ false → (length page.content ≡ PAGE_SIZE) × AreBytes page.content }
    ensures changes { (page : HeldPage) → held_at pool.old at.number ≡ Some page → AllByRecursion IsChange (begin_with (begun || is_anew (logged change.now)) at.place page.content) }
{
    if begun {
        return;
    }
    if is_anew(change) {
        return;
    }
    let Some(page) = pool.get(at.number) else {
        unreachable!()
    };
    page.known();
    let place = at.place;
    let bytes = page.as_bytes();
    waiting.add(&Change::FullPage { place, bytes });
    marks[at.number as usize] = true;
}
