//! The steps of a select, and of the scan of a delete.

ghost use Rattle.page_store.specs.Survives.{Survives};
ghost use Rattle.tx_table.specs.Durable.{IsBefore};
ghost use Rattle.session_parts.specs.StepAnswers.{HasCause};
ghost use Rattle.session_parts.specs.StepIs.{stepped_in};
ghost use Rattle.session_parts.specs.Stepping.{IsFit, IsShown, LeavesTheOthers, MakesItsStep, StaysFit, StaysUndone};
ghost use Rattle.session_scans.specs.Looks.{IsDelete, IsSelect};

use crate::begins::{begin, go_on};
use crate::looking::Looking;
use block_model::Query;
use disk_trait::Disk;
use session_parts::{Hand, Parts, Step, Stepped, StoreFault};

/// The first step of a select: it takes the memory of its scan, but for the rows that this finds, and one entry of the journal; then it reads how
/// many blocks its table has. Where memory is short the look is entered so, and the session's transaction fails; `Spent` comes where the journal
/// has no room for what the step enters.
pub fn begin_select<D: Disk + Drop>(parts: &mut Parts<D>, session: u32, query: Query) -> Stepped
    requires fit { IsFit D.told parts.old session (Hand.Selecting query) }
    requires shown { IsShown D.told parts.old session (Hand.Selecting query) }
    ensures steps { MakesItsStep D.told parts.old parts.new session (Hand.Selecting query) result }
    ensures fit { StaysFit D.told parts.old parts.new session (Hand.Selecting query) result }
    ensures others { LeavesTheOthers D.told parts.old parts.new session (Hand.Selecting query) result }
    ensures stays { StaysUndone D.told parts.old parts.new session (Hand.Selecting query) result }
    ensures cause { HasCause D.told parts.old.pages parts.new.pages result }
    ensures survives { Survives D.told (IsBefore parts.old.pages) parts.old.pages parts.new.pages }
{
    begin(parts, session, query, Looking::Select)
}

/// A later step of a select, which stays in the hand that it stands in: it judges a range, or reads a candidate block for the rows that its
/// transaction sees and its query finds. With the last one the look is entered, and the rows are told in order of their ids. Where memory is short
/// the look is entered so, and the session's transaction fails; `Spent` comes where the journal has no room for what the step enters.
pub fn select_on<D: Disk + Drop>(
    parts: &mut Parts<D>,
    session: u32,
    hand: &mut Hand,
) -> Result<Step, StoreFault>
    requires scans { IsSelect hand.old }
    requires fit { IsFit D.told parts.old session hand.old }
    requires shown { IsShown D.told parts.old session hand.old }
    ensures steps { MakesItsStep D.told parts.old parts.new session hand.old (stepped_in hand.new result) }
    ensures fit { StaysFit D.told parts.old parts.new session hand.old (stepped_in hand.new result) }
    ensures others { LeavesTheOthers D.told parts.old parts.new session hand.old (stepped_in hand.new result) }
    ensures stays { StaysUndone D.told parts.old parts.new session hand.old (stepped_in hand.new result) }
    ensures cause { HasCause D.told parts.old.pages parts.new.pages (stepped_in hand.new result) }
    ensures survives { Survives D.told (IsBefore parts.old.pages) parts.old.pages parts.new.pages }
{
    go_on(parts, session, hand, Looking::Select)
}

/// The first step of a delete, as that of a select.
pub fn begin_delete<D: Disk + Drop>(parts: &mut Parts<D>, session: u32, query: Query) -> Stepped
    requires fit { IsFit D.told parts.old session (Hand.Deleting query) }
    requires shown { IsShown D.told parts.old session (Hand.Deleting query) }
    ensures steps { MakesItsStep D.told parts.old parts.new session (Hand.Deleting query) result }
    ensures fit { StaysFit D.told parts.old parts.new session (Hand.Deleting query) result }
    ensures others { LeavesTheOthers D.told parts.old parts.new session (Hand.Deleting query) result }
    ensures stays { StaysUndone D.told parts.old parts.new session (Hand.Deleting query) result }
    ensures cause { HasCause D.told parts.old.pages parts.new.pages result }
    ensures survives { Survives D.told (IsBefore parts.old.pages) parts.old.pages parts.new.pages }
{
    begin(parts, session, query, Looking::Delete)
}

/// A later step of a delete's scan, as one of a select's. With the last one the delete goes on to mark the rows that it found, in order of their
/// ids, for which it takes the memory here: its marks take the scan's place in the hand, and its look is entered with the first one. Where it
/// found none the look is entered, and the delete is done. At a full journal the last step isn't made.
pub fn delete_on<D: Disk + Drop>(
    parts: &mut Parts<D>,
    session: u32,
    hand: &mut Hand,
) -> Result<Step, StoreFault>
    requires scans { IsDelete hand.old }
    requires fit { IsFit D.told parts.old session hand.old }
    requires shown { IsShown D.told parts.old session hand.old }
    ensures steps { MakesItsStep D.told parts.old parts.new session hand.old (stepped_in hand.new result) }
    ensures fit { StaysFit D.told parts.old parts.new session hand.old (stepped_in hand.new result) }
    ensures others { LeavesTheOthers D.told parts.old parts.new session hand.old (stepped_in hand.new result) }
    ensures stays { StaysUndone D.told parts.old parts.new session hand.old (stepped_in hand.new result) }
    ensures cause { HasCause D.told parts.old.pages parts.new.pages (stepped_in hand.new result) }
    ensures survives { Survives D.told (IsBefore parts.old.pages) parts.old.pages parts.new.pages }
{
    go_on(parts, session, hand, Looking::Delete)
}
