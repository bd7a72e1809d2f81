//! How pages, numbers and open transactions show a database. Each law is a fact of every layout and of all pages and states, and
//! stands in specs/Laws.antt.

ghost use Rattle.transactions.specs.Laws.{BeginCounts, BeginIsUnseen, CommitCounts, CommitIsWhole, ConflictIsShown, CopyIsSeen, CopyStands, EndIsUnseen, FailureCounts, FailureIsShown, FoundIsShown, IdsDiffer, IsOneDatabase, LookIsShown, MarkIsShown, MarkIsUnseen, NewIsShown, NoDeleteIsDone, OpeningIsShown, OthersAreApart, PutCounts, PutIsShown, PutIsUnseen, RefusalIsFailure, RollbackCounts, RowIsOfTransactions, SeenRowCounts, SessionsAreShown, ShowAlike};

/// Two databases that the same pages and transactions show are one.
pub fn one_database()
    ensures { IsOneDatabase }
{}

/// A row that a session's transaction puts into a free slot of a table is shown as its put.
pub fn a_put_is_shown()
    ensures { PutIsShown }
{}

/// A row of a session's copy that its transaction marks, where no other stands in the way, is shown as its mark.
pub fn a_mark_is_shown()
    ensures { MarkIsShown }
{}

/// Where another one stands in the way, that is a conflict, and the session's transaction fails.
pub fn a_conflict_is_shown()
    ensures { ConflictIsShown }
{}

/// Only the pages of statuses and of tables matter.
pub fn other_pages_show_alike()
    ensures { ShowAlike }
{}

/// A transaction that has failed is shown as its failure.
pub fn a_failure_is_shown()
    ensures { FailureIsShown }
{}

/// A put that finds no room or no memory is that failure, and so is a look that finds no memory.
pub fn a_refusal_is_a_failure()
    ensures { RefusalIsFailure }
{}

/// The database has a transaction of a session exactly where the session has an open one, and it is the same.
pub fn a_session_has_its_transaction()
    ensures { SessionsAreShown }
{}

/// A row is in a session's copy of the tables exactly where its open transaction sees it.
pub fn a_session_sees_its_copy()
    ensures { CopyIsSeen }
{}

/// Each row of a session's copy stands in exactly one slot of its table.
pub fn a_row_of_a_copy_stands_once()
    ensures { CopyStands }
{}

/// A row's transaction has begun, and its deleter is 0 or has begun too.
pub fn a_row_is_of_transactions()
    ensures { RowIsOfTransactions }
{}

/// No two rows of any tables have one id.
pub fn ids_of_rows_differ()
    ensures { IdsDiffer }
{}

/// Whose rows count: those that have committed, and the open ones that haven't failed. Each row that such a one sees counts. A
/// begin adds a number that no row has yet; a commit changes none, a rollback and a failure take the session's own away, and a
/// put changes none.
pub fn which_rows_count()
    ensures seen { SeenRowCounts }
    ensures begun { BeginCounts }
    ensures committed { CommitCounts }
    ensures rolled_back { RollbackCounts }
    ensures failed { FailureCounts }
    ensures put { PutCounts }
{}

/// What a begin, a commit and a rollback of one session leave of what another one's transaction sees; and a row that one puts or
/// marks is of a transaction that hadn't ended when the other began.
pub fn others_see_alike()
    ensures begun { BeginIsUnseen }
    ensures ended { EndIsUnseen }
    ensures apart { OthersAreApart }
    ensures marked { MarkIsUnseen }
    ensures unmarked { NoDeleteIsDone }
    ensures put { PutIsUnseen }
{}

/// The rows that a scan found of those that stand on pages, in order of their ids, are those that the query finds in the session's
/// copy, where the scan found each visible match once and nothing else.
pub fn rows_found_are_what_stands()
    ensures { FoundIsShown }
{}

/// A look is answered the rows that the query finds in the copy, and changes nothing.
pub fn a_look_is_shown()
    ensures { LookIsShown }
{}

/// What the pages showed before a stop they show to the transactions that are started over them: what was committed. Each
/// transaction that was under way has ended, and its rows and deletes are void.
pub fn an_opening_ends_all()
    ensures { OpeningIsShown }
{}

/// The pages of a store that was formatted show a new database.
pub fn a_new_store_shows_nothing()
    ensures { NewIsShown }
{}

/// A stop in the midst of a commit leaves pages on which it isn't done, or all of it is.
pub fn a_stopped_commit_is_whole()
    ensures { CommitIsWhole }
{}
