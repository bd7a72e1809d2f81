//! What a step needs before its scan makes it.

ghost use Rattle.std.specs.Prelude.{◌≡◌, ◌+◌, ◌<◌, length, IfOk, IfErr, OnOk, OnErr};
ghost use Rattle.page_store.specs.Survives.{Survives};
ghost use Rattle.heap_rows.specs.Heaps.{slots_a_page};
ghost use Rattle.tx_table.specs.Durable.{IsBefore};
ghost use Rattle.bitmap_scan.specs.Finds.{first_find};
ghost use Rattle.bitmap_scan.specs.ScanHands.{first_hand as judging_first};
ghost use Rattle.session_parts.specs.StepIs.{stepped_in};
ghost use Rattle.session_parts.specs.Stepping.{IsFit, IsShown};
ghost use Rattle.session_parts.specs.UndoneLaws.{StepsSo};
ghost use Rattle.session_scans.specs.Looks.{IsInScan, first_hand_of};

use crate::keeping::with_hand;
use crate::looking::{Looking, first_hand, scan_hand};
use crate::refusing::lacks_memory_at_once;
use crate::scanning::scan_on;
use bitmap_scan::Scan;
use block_model::Query;
use disk_trait::Disk;
use session_parts::{Hand, Parts, Step, Stepped, StoreFault, fault_of};

/// The first step.
pub(crate) fn begin<D: Disk + Drop>(
    parts: &mut Parts<D>,
    session: u32,
    query: Query,
    looking: Looking,
) -> Stepped
    requires fit { IsFit D.told parts.old session (first_hand_of looking query) }
    requires shown { IsShown D.told parts.old session (first_hand_of looking query) }
    ensures so { StepsSo D.told parts.old parts.new session (first_hand_of looking query) result }
    ensures survives { Survives D.told (IsBefore parts.old.pages) parts.old.pages parts.new.pages }
{
    match parts.pages.ready() {
        Ok(()) => {}
        Err(error) => {
            return Stepped::Undone {
                fault: fault_of(error),
                hand: first_hand(looking, query),
            };
        }
    }
    match scan_for(parts, query) {
        Ok(scan) => {
            let mut hand = scan_hand(looking, scan);
            let answer = scan_on(parts, session, &mut hand, looking);
            with_hand(hand, answer)
        }
        Err(query) => lacks_memory_at_once(parts, session, query, looking),
    }
}

/// A later step.
pub(crate) fn go_on<D: Disk + Drop>(
    parts: &mut Parts<D>,
    session: u32,
    hand: &mut Hand,
    looking: Looking,
) -> Result<Step, StoreFault>
    requires in_scan { IsInScan looking hand.old }
    requires fit { IsFit D.told parts.old session hand.old }
    requires shown { IsShown D.told parts.old session hand.old }
    ensures so { StepsSo D.told parts.old parts.new session hand.old (stepped_in hand.new result) }
    ensures survives { Survives D.told (IsBefore parts.old.pages) parts.old.pages parts.new.pages }
{
    match parts.pages.ready() {
        Ok(()) => {}
        Err(error) => return Err(fault_of(error)),
    }
    scan_on(parts, session, hand, looking)
}

/// A scan before its first step, and one entry of the journal promised to it. `Err` is want of memory: the query comes back, and the parts are
/// as they were.
fn scan_for<D: Disk + Drop>(parts: &mut Parts<D>, query: Query) -> Result<Scan, Query>
    requires table { query.table < length parts.old.pages.layout.schema.tables }
    ensures begins { IfOk result (λ scan. scan ≡ first_find (judging_first parts.old.pages.layout query) (slots_a_page parts.old.pages.layout query.table)) }
    ensures back { IfErr result (λ back. back ≡ query) }
    ensures entries { parts.new.journal.entries ≡ parts.old.journal.entries }
    ensures promised { OnOk result (parts.new.journal.promised ≡ parts.old.journal.promised + 1) }
    ensures same { OnErr result (parts.new.journal.promised ≡ parts.old.journal.promised) }
    ensures rest { parts.new ≡ record parts.old { journal = parts.new.journal } }
{
    match parts.journal.promise(1) {
        Ok(()) => {}
        Err(_) => return Err(query),
    }
    match Scan::new(parts.alloc, query, parts.pages.layout()) {
        Ok(scan) => Ok(scan),
        Err(query) => {
            parts.journal.release(1);
            Err(query)
        }
    }
}
