//! What a stop leaves of the table. The table that pages show when nobody is at work is exactly the rows that a commit put and no
//! commit deleted (specs/FoundTable.antt). Here stands which table each image of a disk opens to, at every moment of a store's calls:
//! the one of before, until a commit is sure. Each law is a function that does no work: its contract is the law, and whoever calls it
//! may use it. It stands on transactions, tx_table and page_store; the laws of a whole store's images (session_starts) stand on it.

ghost use Rattle.transactions.specs.FoundLaws.{CommitFindsEither, FailedCommitFindsOld, FoundTableIsShown, OneTableIsFound, OnlyCommitsChangeTable, OtherRequestsLeaveTable, ShownTableIsFound};
ghost use Rattle.transactions.specs.StopLaws.{CommitLeavesEither, OneTableInImage, StepKeepsTable, StopsKeepEither, StopsKeepTable, StopsLeaveEither, SureDatabaseIsLeft, SureTableIsLeft};

use disk_trait::Disk;
use recovery::an_image_opens_to_one_map;
use store_layout::Layout;
use tx_table::statuses_are_one_list;

/// Pages have one table.
pub fn one_table_is_found()
    ensures { OneTableIsFound }
{
    statuses_are_one_list();
}

/// An image of a disk opens to pages with one table.
pub fn an_image_has_one_table(layout: &Layout)
    ensures { OneTableInImage layout.now }
{
    an_image_opens_to_one_map(layout);
    one_table_is_found();
}

/// What a store shows as committed is the table of its pages. The rows and the marks of transactions that are open or have failed
/// don't count. So a store that is opened over pages with a table shows that table.
pub fn a_shown_table_is_found()
    ensures found { ShownTableIsFound }
    ensures shown { FoundTableIsShown }
{
    one_table_is_found();
}

/// Pages that a commit passes have the table of before it or the one of behind it; of a transaction that has failed, that of before.
pub fn a_commit_finds_either()
    ensures unfailed { CommitFindsEither }
    ensures failed { FailedCommitFindsOld }
{}

/// No request changes the table but the commit of a transaction that hasn't failed.
pub fn only_commits_change_the_table()
    ensures effect { OnlyCommitsChangeTable }
    ensures found { OtherRequestsLeaveTable }
{}

/// Where each image has a table, and all pages that calls pass have it or another one, each image has one of the two at every moment
/// of them, and afterwards; and so it stays. Where the pages are sure, each image has theirs.
pub fn a_stop_leaves_what_was_passed<D: Disk>()
    ensures kept { StopsKeepTable D.told }
    ensures either { StopsLeaveEither D.told }
    ensures still { StopsKeepEither D.told }
    ensures sure { SureTableIsLeft D.told }
{}

/// So it is of the calls of a store: a step that passes nothing keeps the table that it shows, and amid a commit each image has that
/// table or the one of behind the commit. Once the pages are sure, each image has the table that they show.
pub fn a_stop_leaves_a_whole_table<D: Disk>()
    ensures step { StepKeepsTable D.told }
    ensures commit { CommitLeavesEither D.told }
    ensures sure { SureDatabaseIsLeft D.told }
{}
