//! Which rows a transaction sees. A scan reads the status of a transaction once for a run of its rows, and no status that can't matter.

ghost use Rattle.std.specs.Prelude.{◌≡◌, None, IfErr, IfOk, IfSome, OnOk};
ghost use Rattle.snapshot_core.specs.Visibility.{had_ended, has_done, is_committed};
ghost use Rattle.page_store.specs.Survives.{Survives};
ghost use Rattle.page_map.specs.Keeps.{Keeps, Tells, Untold};
ghost use Rattle.page_map.specs.Outcome.{Outcome};
ghost use Rattle.heap_rows.specs.StoredRows.{row_of};
ghost use Rattle.tx_table.specs.LeavesRest.{NamesStatuses};
ghost use Rattle.bitmap_scan.specs.Finds.{OfSight, Sight, none_read, sees_stored};
ghost use Rattle.bitmap_scan.specs.LastStatuses.{Remembers, RemembersOne, StandsSo};

use disk_trait::Disk;
use heap_rows::Stored;
use page_map::StoreError;
use page_store::PageStore;
use snapshot_core::{Snapshot, Status};
use tx_table::TxTable;

/// A transaction that had ended at the snapshot, and whether it committed.
#[derive(Clone, Copy, Debug)]
pub(crate) struct LastStatus {
    pub(crate) number: u64,
    pub(crate) committed: bool,
}

/// What a scan remembers of transactions: of the last one that put a row and whose status it read, and of the last one that deleted a row.
#[derive(Clone, Copy, Debug)]
pub(crate) struct LastStatuses {
    pub(crate) put: Option<LastStatus>,
    pub(crate) gone: Option<LastStatus>,
}

impl LastStatuses {
    /// None is read yet.
    pub(crate) fn new() -> LastStatuses
        ensures { result ≡ none_read }
    {
        LastStatuses {
            put: None,
            gone: None,
        }
    }
}

/// Whether the transaction numbered `own` sees the row with its snapshot: what the one that put it did has happened, and what its deleter
/// did hasn't.
pub(crate) fn is_visible<D: Disk + Drop>(
    pages: &mut PageStore<D>,
    tx: &TxTable,
    snapshot: &Snapshot,
    own: u64,
    row: &Stored,
    last: &mut LastStatuses,
) -> Result<bool, StoreError>
    requires ready { pages.old.failed ≡ None }
    requires remembers { Tells D.told pages.old → OfSight pages.old.layout pages.old.pages snapshot.now own tx.now.first (λ sight. Remembers sight last.old) }
    ensures sees { IfOk result (λ visible. Tells D.told pages.old → OfSight pages.old.layout pages.old.pages snapshot.now own tx.now.first (λ sight. visible ≡ sees_stored sight (row_of row.now))) }
    ensures remembers { OnOk result (Tells D.told pages.old → OfSight pages.old.layout pages.old.pages snapshot.now own tx.now.first (λ sight. Remembers sight last.new)) }
    ensures kept { Keeps D.told pages.old pages.new }
    ensures survives { Survives D.told (λ passed. passed ≡ pages.old.pages) pages.old pages.new }
    ensures at { IfErr result (NamesStatuses pages.old.layout) }
    ensures outcome { Outcome D.told (Untold D.told pages.old) pages.old pages.new result }
{
    let put = has_done(pages, tx, snapshot, own, row.id.t, &mut last.put)?;
    if !put {
        return Ok(false);
    }
    let gone = has_done(pages, tx, snapshot, own, row.deleter, &mut last.gone)?;
    Ok(!gone)
}

/// Whether what the transaction `t` did has happened for the one numbered `own`. Reads its status only where that tells: not of `own`, of the
/// number 0, which is none's, or of one that hadn't ended at the snapshot; nor where it is remembered.
fn has_done<D: Disk + Drop>(
    pages: &mut PageStore<D>,
    tx: &TxTable,
    snapshot: &Snapshot,
    own: u64,
    t: u64,
    last: &mut Option<LastStatus>,
) -> Result<bool, StoreError>
    requires ready { pages.old.failed ≡ None }
    requires remembers { Tells D.told pages.old → OfSight pages.old.layout pages.old.pages snapshot.now own tx.now.first (λ sight. RemembersOne sight last.old) }
    ensures done { IfOk result (λ done. Tells D.told pages.old → OfSight pages.old.layout pages.old.pages snapshot.now own tx.now.first (λ sight. done ≡ has_done sight.snapshot sight.own t (sight.status t))) }
    ensures remembers { OnOk result (Tells D.told pages.old → OfSight pages.old.layout pages.old.pages snapshot.now own tx.now.first (λ sight. RemembersOne sight last.new)) }
    ensures kept { Keeps D.told pages.old pages.new }
    ensures survives { Survives D.told (λ passed. passed ≡ pages.old.pages) pages.old pages.new }
    ensures at { IfErr result (NamesStatuses pages.old.layout) }
    ensures outcome { Outcome D.told (Untold D.told pages.old) pages.old pages.new result }
{
    pages.known();
    if t == own {
        return Ok(true);
    }
    if t == 0 {
        return Ok(false);
    }
    if let Some(committed) = remembered(*last, t) {
        return Ok(committed);
    }
    if !had_ended(snapshot, t) {
        return Ok(false);
    }
    let status = tx.status(pages, t)?;
    let committed = is_committed(status);
    *last = Some(LastStatus {
        number: t,
        committed,
    });
    Ok(committed)
}

/// Whether the transaction committed, if it is the one that is remembered.
fn remembered(last: Option<LastStatus>, t: u64) -> Option<bool>
    ensures { (sight : Sight) → RemembersOne sight last → IfSome result (λ committed. StandsSo sight (record { number = t; committed = committed })) }
{
    let Some(read) = last else {
        return None;
    };
    if read.number == t {
        Some(read.committed)
    } else {
        None
    }
}

/// Whether the transaction had ended when the snapshot was taken.
fn had_ended(snapshot: &Snapshot, t: u64) -> bool
    ensures { result ≡ had_ended snapshot.now t }
{
    t < snapshot.next && !snapshot.active.as_slice().contains(&t)
}

/// Whether a transaction that stands so has committed.
fn is_committed(status: Status) -> bool
    ensures { result ≡ is_committed status }
{
    matches!(status, Status::Committed)
}
