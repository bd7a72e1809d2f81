//! The step of a scan, which stays where it stands.

ghost use Rattle.std.specs.Prelude.{◌≡◌, ◌+◌, ◌<◌, length, None};
ghost use Rattle.page_store.specs.Survives.{Survives};
ghost use Rattle.page_map.specs.Keeps.{Tells};
ghost use Rattle.page_locks.specs.declared.did.Did.TheVariants as did;
ghost use Rattle.store_layout.specs.declared.limits.TheConstants.{MAX_ENTRIES};
ghost use Rattle.tx_table.specs.Durable.{IsBefore};
ghost use Rattle.bitmap_scan.specs.LooksAhead.{NextIs};
ghost use Rattle.session_parts.specs.StepIs.{stepped_in};
ghost use Rattle.session_scans.specs.Looks.{IsInScan, OfScan};
ghost use Rattle.session_scans.specs.ScanSteps.{MayScan, ScanStepsSo};
ghost use Rattle.session_scans.specs.ScansInPlace.{DoesScan, DoesScanIn};

use crate::finishing::finish;
use crate::keeping::put_back;
use crate::laws::laws_of_looks;
use crate::looking::Looking;
use crate::refusing::lacks_memory;
use bitmap_scan::{Scan, a_kept_table_is_scanned};
use block_model::Point;
use disk_trait::Disk;
use page_locks::Did;
use page_map::MachineFault;
use session_parts::{Hand, Parts, Step, StoreFault, fault_of, spent};

/// What came of a step of a scan: it goes on behind a step of this name, or that was its last one; or memory is short for it; or the step
/// isn't made.
#[derive(Debug, Drop)]
pub(crate) enum Scanned {
    Moved(Point),
    Finished(Point),
    Short,
    Undone(StoreFault),
}

/// The next step of the scan, to which one entry of the journal is promised. At a full journal the last one isn't made, which may enter the look.
pub(crate) fn scan_on<D: Disk + Drop>(
    parts: &mut Parts<D>,
    session: u32,
    hand: &mut Hand,
    looking: Looking,
) -> Result<Step, StoreFault>
    requires in_scan { IsInScan looking hand.old }
    requires may { OfScan looking hand.old (λ scan. MayScan D.told parts.old session looking scan) }
    requires ready { parts.old.pages.failed ≡ None }
    ensures so { OfScan looking hand.old (λ scan. ScanStepsSo D.told parts.old parts.new session looking scan (stepped_in hand.new result)) }
    ensures survives { Survives D.told (IsBefore parts.old.pages) parts.old.pages parts.new.pages }
{
    match step_in(parts, session, hand, looking) {
        Scanned::Moved(point) => Ok(Step::Moved(point)),
        Scanned::Finished(point) => finish(parts, session, hand, point, looking),
        Scanned::Short => lacks_memory(parts, session, hand, looking),
        Scanned::Undone(fault) => {
            put_back(parts, hand, looking);
            Err(fault)
        }
    }
}

/// The next step of the scan in hand.
fn step_in<D: Disk + Drop>(
    parts: &mut Parts<D>,
    session: u32,
    hand: &mut Hand,
    looking: Looking,
) -> Scanned
    requires in_scan { IsInScan looking hand.old }
    requires may { OfScan looking hand.old (λ scan. MayScan D.told parts.old session looking scan) }
    requires ready { parts.old.pages.failed ≡ None }
    ensures so { DoesScanIn D.told parts.old parts.new session looking hand.old hand.new result }
    ensures rest { parts.new ≡ record parts.old { pages = parts.new.pages } }
    ensures survives { Survives D.told (IsBefore parts.old.pages) parts.old.pages parts.new.pages }
{
    match hand {
        Hand::Selects(scan) => next_step(parts, session, scan, looking),
        Hand::Deletes(scan) => next_step(parts, session, scan, looking),
        _ => unreachable!(),
    }
}

/// The next step. At a full journal the last one isn't made.
fn next_step<D: Disk + Drop>(
    parts: &mut Parts<D>,
    session: u32,
    scan: &mut Scan,
    looking: Looking,
) -> Scanned
    requires may { MayScan D.told parts.old session looking scan.old }
    requires ready { parts.old.pages.failed ≡ None }
    ensures so { DoesScan D.told parts.old parts.new session looking scan.old scan.new result }
    ensures rest { parts.new ≡ record parts.old { pages = parts.new.pages } }
    ensures survives { Survives D.told (IsBefore parts.old.pages) parts.old.pages parts.new.pages }
{
    a_kept_table_is_scanned();
    laws_of_looks();
    scan.known();
    if parts.journal.fits(1) {
        return step_on(parts, session, scan, looking);
    }
    match scan.peek(&mut parts.pages) {
        Ok(true) => Scanned::Undone(spent(&parts.journal)),
        Ok(false) => step_on(parts, session, scan, looking),
        Err(MachineFault::Store(error)) => Scanned::Undone(fault_of(error)),
        Err(MachineFault::Full { .. }) => unreachable!(),
        Err(MachineFault::Memory) => unreachable!(),
    }
}

/// The next step, for which there is room in the journal, or which isn't the last one.
fn step_on<D: Disk + Drop>(
    parts: &mut Parts<D>,
    session: u32,
    scan: &mut Scan,
    looking: Looking,
) -> Scanned
    requires may { MayScan D.told parts.old session looking scan.old }
    requires ready { parts.old.pages.failed ≡ None }
    requires ahead { MAX_ENTRIES < length parts.old.journal.entries + 1 → Tells D.told parts.old.pages → NextIs parts.old.pages.layout parts.old.pages.pages scan.old did.Moved }
    ensures so { DoesScan D.told parts.old parts.new session looking scan.old scan.new result }
    ensures rest { parts.new ≡ record parts.old { pages = parts.new.pages } }
    ensures survives { Survives D.told (IsBefore parts.old.pages) parts.old.pages parts.new.pages }
{
    a_kept_table_is_scanned();
    laws_of_looks();
    scan.known();
    let open = parts.transactions.open(session);
    match scan.step(
        &mut parts.pages,
        parts.transactions.tx(),
        &open.snapshot,
        open.t,
    ) {
        Ok(Did::Moved(point)) => Scanned::Moved(point),
        Ok(Did::Finished(point)) => {
            scan.known();
            Scanned::Finished(point)
        }
        Err(MachineFault::Memory) => Scanned::Short,
        Err(MachineFault::Store(error)) => Scanned::Undone(fault_of(error)),
        Ok(Did::Blocked(_)) => unreachable!(),
        Ok(Did::NoRight { .. }) => unreachable!(),
        Err(MachineFault::Full { .. }) => unreachable!(),
    }
}
