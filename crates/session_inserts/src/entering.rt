//! What an insert enters into the journal, and what it is answered.

ghost use Rattle.std.specs.Prelude.{◌≡◌, ◌+◌, ◌^◌, ◌<◌, ◌∷◌, ◌++◌, [], Ok, IsSome, IsSomeAnd};
ghost use Rattle.block_model.specs.declared.request.Request.TheVariants as requests;
ghost use Rattle.page_locks.specs.LockChanges.{GivesAll};
ghost use Rattle.page_locks.specs.LockCounts.{AddsAtMost, locks_of};
ghost use Rattle.page_locks.specs.LockHolders.{holder};
ghost use Rattle.snapshot_core.specs.StoredVersions.{transaction_of};
ghost use Rattle.store_layout.specs.StatementRequests.{request_entry, tagged_entry};
ghost use Rattle.transactions.specs.TransactionsState.{OfOpen, with_failed, with_row_counted};

use block_model::{Refusal, Reply, Row, Tag, Values};
use disk_trait::Disk;
use session_parts::{Parts, Step, StoreFault};

/// The put of the row is entered, and counted for its transaction. Takes no memory.
pub(crate) fn enter_row<D: Disk + Drop>(parts: &mut Parts<D>, session: u32, row: &Row)
    requires promised { 0 < parts.old.journal.promised }
    requires number { IsSomeAnd (transaction_of parts.old.transactions.opens session) (λ o. o.next_k + 1 < 2 ^ 32) }
    ensures counted { OfOpen parts.old.transactions session (λ o. parts.new.transactions ≡ with_row_counted parts.old.transactions session o) }
    ensures entries { parts.new.journal.entries ≡ parts.old.journal.entries ++ request_entry session row.now.table (requests.Put row.now.values) ∷ [] }
    ensures promised { parts.new.journal.promised + 1 ≡ parts.old.journal.promised }
    ensures rest { parts.new ≡ record parts.old { transactions = parts.new.transactions; journal = parts.new.journal } }
{
    parts
        .journal
        .enter_put(session, row.table, &row.values, Tag::Ok);
    parts.transactions.count_row(session);
}

/// The insert is refused: its put is entered with the tag, the session's transaction fails, and the session gives its locks. Takes no
/// memory.
pub(crate) fn refuse<D: Disk + Drop>(
    parts: &mut Parts<D>,
    session: u32,
    table: u8,
    values: &Values,
    tag: Tag,
    refusal: Refusal,
) -> Reply
    requires promised { 0 < parts.old.journal.promised }
    requires open { IsSome (transaction_of parts.old.transactions.opens session) }
    ensures failed { OfOpen parts.old.transactions session (λ o. parts.new.transactions ≡ with_failed parts.old.transactions session o) }
    ensures entries { parts.new.journal.entries ≡ parts.old.journal.entries ++ tagged_entry session table (requests.Put values.now) tag ∷ [] }
    ensures promised { parts.new.journal.promised + 1 ≡ parts.old.journal.promised }
    ensures given { GivesAll (holder parts.old.locks) (holder parts.new.locks) session }
    ensures none { locks_of parts.new.locks session ≡ 0 }
    ensures limit { parts.new.locks.limit ≡ parts.old.locks.limit }
    ensures counts { AddsAtMost parts.old.locks parts.new.locks session 0 }
    ensures rest { parts.new ≡ record parts.old { transactions = parts.new.transactions; locks = parts.new.locks; journal = parts.new.journal } }
    ensures reply { result ≡ Reply.Refused refusal }
{
    parts.journal.enter_put(session, table, values, tag);
    parts.transactions.fail(session);
    parts.locks.drop_all(session);
    Reply::Refused(refusal)
}

/// The insert is done: it is answered its row.
pub(crate) fn done(row: &Row) -> Result<Step, StoreFault>
    ensures { result ≡ Ok (Step.Done (Reply.Inserted row.now.id)) }
{
    Ok(Step::Done(Reply::Inserted { id: row.id }))
}
