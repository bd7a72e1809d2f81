//! What a vacuum as a statement of a store needs. A row that is dead to all, by the snapshots of all open transactions and the
//! statuses, is dead by the store's journal; the snapshot alone of which the view is the oldest tells which these are; and which rows
//! the statements of other sessions want. Each law is a function that does no work: its contract is the law, and whoever calls it may
//! use it.

ghost use Rattle.session_maintenance.specs.DeadToAll.{DeadToAllIsDead, DropsTheDeadByJournal, OldestSpeaksForAll};
ghost use Rattle.session_maintenance.specs.Watched.{OwnDeleteIsUnseen, SeenBeforeIsSpared, TableIsSpared, TableIsWatched};

use script_semantics::{
    copies_are_of_their_fronts, dead_by_oldest_front, dead_rows_are_unseen, numbers_rise,
    oldest_front_stands,
};

/// A row that stands in a table is dead to all, by the snapshots of all open transactions and the statuses, exactly where it is dead
/// by the journal. So a step that drops exactly the rows of a block that are dead to all drops exactly the dead ones.
pub fn dead_to_all_is_dead()
    ensures rows { DeadToAllIsDead }
    ensures blocks { DropsTheDeadByJournal }
{
    numbers_rise();
    copies_are_of_their_fronts();
    oldest_front_stands();
    dead_by_oldest_front();
    dead_rows_are_unseen();
}

/// A row that stands in a table is dead by the snapshot of the oldest view exactly where it is dead by those of all open transactions:
/// each later one has what that one has of what is done. So a vacuum's step that drops exactly the rows of a block that are dead by that
/// snapshot drops exactly those that are dead to all.
pub fn oldest_speaks_for_all()
    ensures { OldestSpeaksForAll }
{
    numbers_rise();
}

/// What the running inserts of a table have put is of open transactions, its scans see by the snapshots of such, and what a delete saw
/// that marks by now its transaction saw before its own deletes; so none of them wants a row that is dead to all.
pub fn a_table_is_watched()
    ensures watched { TableIsWatched }
    ensures spared { TableIsSpared }
{}

/// Nobody sees a row that its own transaction deleted. A row that an open transaction saw before its own deletes isn't dead to all.
pub fn rows_of_a_delete()
    ensures own { OwnDeleteIsUnseen }
    ensures spared { SeenBeforeIsSpared }
{}
