//! What the definitions give for every state and every journal.

ghost use Rattle.model_laws.specs.CommitChangesOwn.{CommitChangesOwn};
ghost use Rattle.model_laws.specs.FailedCommitChangesNothing.{FailedCommitChangesNothing};
ghost use Rattle.model_laws.specs.TableIsCommits.{TableIsCommits};
ghost use Rattle.model_laws.specs.OwnRequestsAlone.{OwnRequestsAlone};
ghost use Rattle.model_laws.specs.NoRowRemovedTwice.{InitialIsOpening, NoRowRemovedTwice};
ghost use Rattle.model_laws.specs.MarksAreApart.{MarksAreApart};
ghost use Rattle.model_laws.specs.RowsStandAtTheirIds.{RowsStandAtTheirIds};

/// A commit of a transaction that hasn't failed puts its own rows and takes away those that it marked. It changes nothing
/// else, but that the transaction is over.
pub fn commit_changes_own()
    ensures { CommitChangesOwn }
{}

/// The commit of a failed transaction changes nothing, but that it is over.
pub fn failed_commit_changes_nothing()
    ensures { FailedCommitChangesNothing }
{}

/// The table after a journal is that before it, with the committed transactions merged one after the other in the order
/// of their commits.
pub fn table_is_commits()
    ensures { TableIsCommits }
{}

/// A transaction that hasn't failed, and its answers, are what its own requests alone make of it, whatever requests of
/// other sessions come between.
pub fn own_requests_alone()
    ensures { OwnRequestsAlone }
{}

/// A new database is an opening, as `no_row_removed_twice` wants one.
pub fn initial_is_opening()
    ensures { InitialIsOpening }
{}

/// From an opening on, no two committed transactions marked one row, and what one marked stands in the table until it
/// commits.
pub fn no_row_removed_twice()
    ensures { NoRowRemovedTwice }
{}

/// From an opening on, open transactions marked rows that stand in the table, and no two of them the same one.
pub fn marks_are_apart()
    ensures { MarksAreApart }
{}

/// Each row of the tables and of each copy stands at its own id, from a new database on.
pub fn rows_stand_at_their_ids()
    ensures { RowsStandAtTheirIds }
{}
