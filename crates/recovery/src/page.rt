//! One change of a page.

ghost use Rattle.std.specs.Prelude.{◌≡◌, ◌≤◌, ◌+◌, ◌⊎◌, IsTrue, None, OnOk, IfNone, IfOk, IfSome, true, false};
ghost use Rattle.block_model.specs.Causes.{HasCause};
ghost use Rattle.block_model.specs.declared.limits.TheConstants.{PAGE_SIZE};
ghost use Rattle.byte_fields.specs.Fields.{field_at};
ghost use Rattle.page_layout.specs.PageContents.{IsForm, IsPageOf};
ghost use Rattle.page_map.specs.Redo.{IsAnew};
ghost use Rattle.page_map.specs.Forms.{form_of};
ghost use Rattle.store_layout.specs.DiskLayout.{IsPlace, disk_size};
ghost use Rattle.wal_record.specs.Changes.{logged, place_of};
ghost use Rattle.buffer_pool.specs.PoolState.{held_at};
ghost use Rattle.recovery.specs.Opens.{disk_page};
ghost use Rattle.recovery.specs.PooledPages.{HoldsDurablePages, IsReady};
ghost use Rattle.recovery.specs.PageNumbers.{page_number};
ghost use Rattle.recovery.specs.Redoing.{KeepsMoments};
ghost use Rattle.recovery.specs.RedoesPage.{ChangesHeld, PageCause, RedoesPage};

use crate::number::number_of;
use crate::place::form_of;
use crate::redo_fault::Stop;
use crate::room::{DURABLE, hold};
use block_model::{PAGE_SIZE, Place};
use buffer_pool::Pool;
use disk_trait::{Disk, DiskFault};
use log_area::an_area_opens_in_one_way;
use page_layout::Page;
use page_map::{Misfit, redo, redo_checked, redo_forgets_a_page_begun_anew};
use store_format::one_layout;
use store_layout::{Layout, pages_fill_the_disk};
use wal_record::Change;

/// The place that a change names.
#[tactic(auto)]
pub(crate) fn place_of(change: &Change<'_>) -> Place
    ensures { result ≡ place_of (logged change.now) }
{
    match *change {
        Change::FullPage { place, .. } => place,
        Change::PageStart { place, .. } => place,
        Change::RowPut { place, .. } => place,
        Change::RowMark { place, .. } => place,
        Change::RowsDrop { place, .. } => place,
        Change::TuplePut { place, .. } => place,
        Change::TupleReplace { place, .. } => place,
        Change::TupleDrop { place, .. } => place,
        Change::Evacuate { place } => place,
        Change::MapPage { place } => place,
        Change::MapSet { place, .. } => place,
        Change::MetaSet { place, .. } => place,
        Change::StatusSet { place, .. } => place,
    }
}

/// Whether the change makes a whole page.
pub(crate) fn is_anew(change: &Change<'_>) -> bool
    ensures is { result ≡ true → IsAnew (logged change.now) }
    ensures isnt { result ≡ false → IsAnew (logged change.now) → ⊥ }
{
    match *change {
        Change::FullPage { .. } => true,
        Change::PageStart { .. } => true,
        _ => false,
    }
}

/// Makes the change on its page in the pool. The page is brought there where it isn't held, and one is written back where each
/// frame holds a dirty page. Amiss where the change doesn't fit, and then no page is changed.
pub(crate) fn redo_page<D: Disk>(
    disk: &mut D,
    layout: &Layout,
    pool: &mut Pool,
    place: Place,
    change: &Change<'_>,
) -> Result<(), Stop>
    requires place { IsPlace layout.now place }
    requires ready { IsReady layout.now (D.told disk.old).size pool.old }
    ensures ready { IsReady layout.now (D.told disk.new).size pool.new }
    ensures frames { pool.new.frames ≡ pool.old.frames }
    ensures redone { OnOk result (RedoesPage layout.now place (logged change.now) (D.told disk.old) pool.old (D.told disk.new) pool.new) }
    ensures any_moment { KeepsMoments layout.now (D.told disk.old) pool.old (D.told disk.new) }
    ensures cause { PageCause layout.now place (logged change.now) (D.told disk.old) pool.old (D.told disk.new) result }
{
    let Some(result) = redo_held(layout, pool, place, change) else {
        return redo_absent(disk, layout, pool, place, change);
    };
    match result {
        Ok(()) => Ok(()),
        Err(_) => Err(Stop::Amiss),
    }
}

/// Makes the change on its page in the pool, where that is held. After a misfit the page is as it was.
fn redo_held(
    layout: &Layout,
    pool: &mut Pool,
    place: Place,
    change: &Change<'_>,
) -> Option<Result<(), Misfit>>
    requires place { IsPlace layout.now place }
    requires held { HoldsDurablePages layout.now pool.old }
    ensures held { HoldsDurablePages layout.now pool.new }
    ensures frames { pool.new.frames ≡ pool.old.frames }
    ensures changed { IfSome result (ChangesHeld layout.now place (logged change.now) pool.old pool.new) }
    ensures absent { IfNone result ((held_at pool.old (page_number layout.now place) ≡ None) × (pool.new ≡ pool.old)) }
{
    pages_fill_the_disk(layout);
    let form = form_of(layout, place.relation);
    match pool.change(number_of(layout, place), DURABLE) {
        Some(page) => {
            let result = redo_checked(page, change, form);
            page.known();
            Some(result)
        }
        None => None,
    }
}

/// Brings the page of the change and makes the change on it, where it isn't held.
fn redo_absent<D: Disk>(
    disk: &mut D,
    layout: &Layout,
    pool: &mut Pool,
    place: Place,
    change: &Change<'_>,
) -> Result<(), Stop>
    requires place { IsPlace layout.now place }
    requires ready { IsReady layout.now (D.told disk.old).size pool.old }
    requires absent { held_at pool.old (page_number layout.now place) ≡ None }
    ensures ready { IsReady layout.now (D.told disk.new).size pool.new }
    ensures frames { pool.new.frames ≡ pool.old.frames }
    ensures redone { OnOk result (RedoesPage layout.now place (logged change.now) (D.told disk.old) pool.old (D.told disk.new) pool.new) }
    ensures any_moment { KeepsMoments layout.now (D.told disk.old) pool.old (D.told disk.new) }
    ensures cause { PageCause layout.now place (logged change.now) (D.told disk.old) pool.old (D.told disk.new) result }
{
    pages_fill_the_disk(layout);
    one_layout();
    an_area_opens_in_one_way();
    redo_forgets_a_page_begun_anew();
    let _size = disk.size();
    let Ok(mut page) = page_before(disk, layout, place, change) else {
        return Err(Stop::Disk);
    };
    let Ok(()) = redo(&mut page, change, form_of(layout, place.relation)) else {
        return Err(Stop::Amiss);
    };
    page.known();
    match hold(disk, pool, number_of(layout, place), &page) {
        Ok(()) => Ok(()),
        Err(DiskFault) => Err(Stop::Disk),
    }
}

/// The page that stands on the disk at the place; before a change that makes the whole page any will do, and nothing is read.
fn page_before<D: Disk>(
    disk: &mut D,
    layout: &Layout,
    place: Place,
    change: &Change<'_>,
) -> Result<Page, DiskFault>
    requires place { IsPlace layout.now place }
    requires size { (D.told disk.old).size ≡ disk_size layout.now }
    ensures page { IfOk result (λ page. IsTrue (D.told disk.old).tells_contents → IsAnew (logged change.now) ⊎ (page ≡ disk_page layout.now (D.told disk.old).contents place)) }
    // Only the disk's count of faults may change.
    ensures same { D.told disk.new ≡ record (D.told disk.old) { faults = (D.told disk.new).faults } }
    ensures cause { HasCause (D.told disk.old).faults (D.told disk.new).faults result }
{
    if is_anew(change) {
        return Ok(Page::zeroed());
    }
    pages_fill_the_disk(layout);
    read_page(disk, layout.page_at(place))
}

/// The page that begins at a byte of the disk.
pub fn read_page<D: Disk>(disk: &mut D, at: u64) -> Result<Page, DiskFault>
    requires { at + PAGE_SIZE ≤ (D.told disk.old).size }
    ensures page { IfOk result (λ page. IsTrue (D.told disk.old).tells_contents → page ≡ field_at (D.told disk.old).contents at PAGE_SIZE) }
    ensures same { D.told disk.new ≡ record (D.told disk.old) { faults = (D.told disk.new).faults } }
    ensures cause { HasCause (D.told disk.old).faults (D.told disk.new).faults result }
{
    let mut bytes = [0u8; PAGE_SIZE];
    disk.read(at, &mut bytes)?;
    Ok(Page::from_bytes(&bytes))
}
