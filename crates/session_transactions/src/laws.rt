//! What a begin, a mark and the end of a transaction rest on.

ghost use Rattle.transactions.specs.Laws.{BeginCounts, BeginIsUnseen, CommitCounts, ConflictIsShown, CopyStands, EndIsUnseen, FailureCounts, MarkIsShown, MarkIsUnseen, RollbackCounts, RowIsOfTransactions, SessionsAreShown};

use transactions::{
    a_conflict_is_shown, a_mark_is_shown, a_row_is_of_transactions, a_row_of_a_copy_stands_once,
    a_session_has_its_transaction, others_see_alike, which_rows_count,
};

/// Does nothing; tells its caller which database transactions show, whose rows count, and what others see.
pub(crate) fn laws_of_transactions()
    ensures sessions { SessionsAreShown }
    ensures begin_unseen { BeginIsUnseen }
    ensures end_unseen { EndIsUnseen }
    ensures begun { BeginCounts }
    ensures committed { CommitCounts }
    ensures rolled_back { RollbackCounts }
    ensures rows { RowIsOfTransactions }
{
    a_row_is_of_transactions();
    a_session_has_its_transaction();
    others_see_alike();
    which_rows_count();
}

/// Does nothing; tells its caller which database transactions show, what a mark is there, and what others see of it.
pub(crate) fn laws_of_marks()
    ensures sessions { SessionsAreShown }
    ensures copies { CopyStands }
    ensures mark { MarkIsShown }
    ensures conflict { ConflictIsShown }
    ensures unseen { MarkIsUnseen }
    ensures failed { FailureCounts }
{
    a_conflict_is_shown();
    a_mark_is_shown();
    a_row_of_a_copy_stands_once();
    a_session_has_its_transaction();
    others_see_alike();
    which_rows_count();
}
