//! A look for which memory is short.

ghost use Rattle.std.specs.Prelude.{◌≡◌, ◌+◌, ◌<◌, ◌∷◌, ◌++◌, [], IsSome};
ghost use Rattle.block_model.specs.declared.request.Request.TheVariants as requests;
ghost use Rattle.snapshot_core.specs.StoredVersions.{transaction_of};
ghost use Rattle.store_layout.specs.StatementRequests.{tagged_entry};
ghost use Rattle.transactions.specs.TransactionsState.{OfOpen, with_failed};
ghost use Rattle.session_parts.specs.StepIs.{stepped_in};
ghost use Rattle.session_parts.specs.Stepping.{IsFit};
ghost use Rattle.session_parts.specs.UndoneLaws.{StepsSo};
ghost use Rattle.session_scans.specs.Looks.{IsInScan, OfScan, first_hand_of};
ghost use Rattle.session_scans.specs.ScanSteps.{MayScan, ScanStepsSo};

use crate::keeping::put_back;
use crate::laws::laws_of_looks;
use crate::looking::{Looking, first_hand, taken};
use block_model::{Query, Refusal, Reply, Request, Tag};
use disk_trait::Disk;
use session_parts::{Hand, Parts, Step, Stepped, StoreFault, spent};

/// The look is entered as one for which memory was short, and the session's transaction fails. Takes no memory.
pub(crate) fn refuse_look<D: Disk + Drop>(parts: &mut Parts<D>, session: u32, query: Query) -> Reply
    requires promised { 0 < parts.old.journal.promised }
    requires open { IsSome (transaction_of parts.old.transactions.opens session) }
    ensures failed { OfOpen parts.old.transactions session (λ o. parts.new.transactions ≡ with_failed parts.old.transactions session o) }
    ensures entries { parts.new.journal.entries ≡ parts.old.journal.entries ++ tagged_entry session query.table (requests.Look query) Tag.NoMemory ∷ [] }
    ensures promised { parts.new.journal.promised + 1 ≡ parts.old.journal.promised }
    ensures rest { parts.new ≡ record parts.old { transactions = parts.new.transactions; journal = parts.new.journal } }
    ensures answer { result ≡ Reply.Refused Refusal.Memory }
{
    let table = query.table;
    parts
        .journal
        .enter(session, table, Request::Look(query), Tag::NoMemory);
    parts.transactions.fail(session);
    Reply::Refused(Refusal::Memory)
}

/// Memory is short before there is a scan. The step isn't made; `Spent` comes where the journal has no room for the look.
pub(crate) fn lacks_memory_at_once<D: Disk + Drop>(
    parts: &mut Parts<D>,
    session: u32,
    query: Query,
    looking: Looking,
) -> Stepped
    requires fit { IsFit D.told parts.old session (first_hand_of looking query) }
    requires ready { parts.old.pages.failed ≡ None }
    ensures so { StepsSo D.told parts.old parts.new session (first_hand_of looking query) result }
    ensures pages { parts.new.pages ≡ parts.old.pages }
{
    laws_of_looks();
    if !parts.journal.fits(1) {
        return Stepped::Undone {
            fault: spent(&parts.journal),
            hand: first_hand(looking, query),
        };
    }
    Stepped::Done(refuse_look(parts, session, query))
}

/// Memory is short for the step of the scan, which isn't made; `Spent` comes where the journal has no room for the look.
pub(crate) fn lacks_memory<D: Disk + Drop>(
    parts: &mut Parts<D>,
    session: u32,
    hand: &mut Hand,
    looking: Looking,
) -> Result<Step, StoreFault>
    requires in_scan { IsInScan looking hand.old }
    requires may { OfScan looking hand.old (λ scan. MayScan D.told parts.old session looking scan) }
    requires ready { parts.old.pages.failed ≡ None }
    ensures so { OfScan looking hand.old (λ scan. ScanStepsSo D.told parts.old parts.new session looking scan (stepped_in hand.new result)) }
    ensures pages { parts.new.pages ≡ parts.old.pages }
{
    laws_of_looks();
    if !parts.journal.fits(1) {
        put_back(parts, hand, looking);
        return Err(spent(&parts.journal));
    }
    parts.journal.release(1);
    let query = taken(hand).into_query();
    Ok(Step::Done(refuse_look(parts, session, query)))
}
