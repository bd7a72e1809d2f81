//! A statement whose step isn't made stays in hand.

ghost use Rattle.std.specs.Prelude.{◌≡◌, ◌<◌};
ghost use Rattle.session_parts.specs.StepIs.{stepped_in};
ghost use Rattle.session_scans.specs.Looks.{IsInScan, OfScan, hand_before};
ghost use Rattle.session_scans.specs.ScanSteps.{parts_before};

use crate::looking::{Looking, first_hand, put, stage_of, taken};
use bitmap_scan::Stage;
use disk_trait::Disk;
use session_parts::{Hand, Parts, Step, Stepped, StoreFault};

/// The step isn't done, and the statement in hand is as it was before it: where that is its first one, what the journal promised to it isn't needed.
pub(crate) fn put_back<D: Disk + Drop>(parts: &mut Parts<D>, hand: &mut Hand, looking: Looking)
    requires in_scan { IsInScan looking hand.old }
    requires promised { 0 < parts.old.journal.promised }
    ensures hand { OfScan looking hand.old (λ scan. hand.new ≡ hand_before looking scan scan.judging.stage) }
    ensures parts { OfScan looking hand.old (λ scan. parts.new ≡ parts_before scan.judging.stage parts.old) }
{
    match stage_of(hand) {
        Stage::Extent => {
            parts.journal.release(1);
            let query = taken(hand).into_query();
            put(hand, first_hand(looking, query));
        }
        Stage::Map { .. } => {}
        Stage::Tuple { .. } => {}
        Stage::Judged => {}
    }
}

/// What came of the step of a statement that this is left of.
pub(crate) fn with_hand(hand: Hand, answer: Result<Step, StoreFault>) -> Stepped
    ensures { result ≡ stepped_in hand answer }
{
    match answer {
        Ok(Step::Moved(point)) => Stepped::Moved { point, hand },
        Ok(Step::Done(reply)) => Stepped::Done(reply),
        Ok(Step::Blocked { what, holder }) => Stepped::Blocked { what, holder, hand },
        Err(fault) => Stepped::Undone { fault, hand },
    }
}
