//! One change of a log.

ghost use Rattle.std.specs.Prelude.{◌≡◌, ◌⊎◌, ◌*◌, OnOk, length, true, false};
ghost use Rattle.page_map.specs.Redo.{IsAnew};
ghost use Rattle.wal_record.specs.Changes.{logged};
ghost use Rattle.recovery.specs.PooledPages.{IsReady};
ghost use Rattle.block_model.specs.declared.limits.TheConstants.{PAGE_SIZE};
ghost use Rattle.store_layout.specs.DiskLayout.{disk_size};
ghost use Rattle.recovery.specs.Redoing.{KeepsMoments};
ghost use Rattle.recovery.specs.RedoesChange.{ChangeCause, RedoesChange};

use crate::number::number_of;
use crate::page::{is_anew, place_of, redo_page};
use crate::place::is_place;
use crate::redo_fault::Stop;
use buffer_pool::Pool;
use disk_trait::Disk;
use page_map::{redo_forgets_a_page_begun_anew, redo_goes_on, redo_is_a_function};
use store_layout::{Layout, pages_fill_the_disk};
use wal_record::Change;

/// Makes the change on its page, which is marked then. Amiss where the change is of no page of the layout, is the first one of its
/// page and doesn't make it whole, or doesn't fit.
pub(crate) fn redo_change<D: Disk>(
    disk: &mut D,
    layout: &Layout,
    pool: &mut Pool,
    marks: &mut [bool],
    change: &Change<'_>,
) -> Result<(), Stop>
    requires ready { IsReady layout.now (D.told disk.old).size pool.old }
    requires marks { PAGE_SIZE * length marks.old ≡ disk_size layout.now }
    ensures ready { IsReady layout.now (D.told disk.new).size pool.new }
    ensures frames { pool.new.frames ≡ pool.old.frames }
    ensures redone { OnOk result (RedoesChange layout.now (logged change.now) (D.told disk.old) pool.old marks.old (D.told disk.new) pool.new marks.new) }
    ensures any_moment { KeepsMoments layout.now (D.told disk.old) pool.old (D.told disk.new) }
    ensures cause { ChangeCause layout.now (logged change.now) (D.told disk.old) pool.old marks.old (D.told disk.new) result }
{
    pages_fill_the_disk(layout);
    redo_forgets_a_page_begun_anew();
    redo_goes_on();
    redo_is_a_function();
    let place = place_of(change);
    if !is_place(layout, place) {
        return Err(Stop::Amiss);
    }
    let at = number_of(layout, place) as usize;
    if !may_stand(marks[at], change) {
        return Err(Stop::Amiss);
    }
    match redo_page(disk, layout, pool, place, change) {
        Ok(()) => {
            marks[at] = true;
            Ok(())
        }
        Err(stop) => Err(stop),
    }
}

/// Whether the change may stand there: its page was begun, or it makes the whole page.
fn may_stand(begun: bool, change: &Change<'_>) -> bool
    ensures may { result ≡ true → (begun ≡ true) ⊎ IsAnew (logged change.now) }
    ensures begun { result ≡ false → begun ≡ false }
    ensures whole { result ≡ false → IsAnew (logged change.now) → ⊥ }
{
    if begun {
        return true;
    }
    is_anew(change)
}
