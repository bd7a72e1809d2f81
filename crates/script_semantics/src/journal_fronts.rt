//! What a journal of requests has where its open transactions took their views. From an opening in which none is open, numbers
//! rise, a row that is gone stays gone, and each open transaction's copy and marks tell what the table was where its view was taken;
//! so the rows that nobody can see any more are told by the front at which the oldest view was taken. Each law is a function that
//! does nothing: its contract is the law, and whoever calls it may use it. It stands on block_model and script_semantics, whose
//! definition of dead rows two laws are about. session_maintenance stands on it, for a vacuum whose steps a store makes.

ghost use Rattle.script_semantics.specs.Openings.{NewIsOpening};
ghost use Rattle.script_semantics.specs.Numbers.{NumbersRise};
ghost use Rattle.script_semantics.specs.GoneRows.{GoneRowsStayGone};
ghost use Rattle.script_semantics.specs.ViewsTaken.{ViewsAreTaken};
ghost use Rattle.script_semantics.specs.Copies.{CopiesAreOfTheirFronts};
ghost use Rattle.script_semantics.specs.OldestFront.{OldestFrontStands, DeadByOldestFront};
ghost use Rattle.script_semantics.specs.Commits.{CommitsStand};
ghost use Rattle.script_semantics.specs.TableRows.{RowsAreOfCommits};
ghost use Rattle.script_semantics.specs.TakenRows.{CommitsTakeMarked};
ghost use Rattle.script_semantics.specs.UnseenRows.{DeadRowsAreUnseen};

/// A new database is an opening, as the other laws want one: no session has a transaction, and each row has an earlier number.
pub fn new_is_opening()
    ensures { NewIsOpening }
{}

/// The next number never falls, what has ended stays ended, and open transactions have numbers of their own, below the next
/// and not below the opening's.
pub fn numbers_rise()
    ensures { NumbersRise }
{}

/// A row that isn't in the table, and whose transaction has ended, never comes back.
pub fn gone_rows_stay_gone()
    ensures { GoneRowsStayGone }
{}

/// Each open transaction's session took its last view at one front of the journal, where the transaction hadn't ended.
pub fn views_are_taken()
    ensures { ViewsAreTaken }
{}

/// Where an open transaction's view was taken, the table had exactly the rows of others that its copy has now, and those that it
/// marked; and the transactions that put these had ended.
pub fn copies_are_of_their_fronts()
    ensures { CopiesAreOfTheirFronts }
{}

/// Each journal has a front at which the oldest view was taken of its open transactions.
pub fn oldest_front_stands()
    ensures { OldestFrontStands }
{}

/// A row is dead exactly where its transaction was rolled back since the opening, or where it was gone at that front.
pub fn dead_by_oldest_front()
    ensures { DeadByOldestFront }
{}

/// A request adds its own commit to those of a journal, and no other. What a journal commits began since the opening, and has
/// ended.
pub fn commits_stand()
    ensures { CommitsStand }
{}

/// Each row of the table has stood there since the opening, or a commit of the journal put it; and its transaction has ended.
pub fn rows_are_of_commits()
    ensures { RowsAreOfCommits }
{}

/// What a transaction marked is gone behind its commit.
pub fn commits_take_marked()
    ensures { CommitsTakeMarked }
{}

/// A dead row is in no open transaction's copy, in none's marks and not in the table.
pub fn dead_rows_are_unseen()
    ensures { DeadRowsAreUnseen }
{}
