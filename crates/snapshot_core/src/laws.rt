//! What `sees` and `dead_to_all` mean, as laws on their definitions.

ghost use Rattle.std.specs.Prelude.{◌≡◌, ◌≢◌, ◌≤◌, ◌==◌, ◌⊎◌, ◌↔◌, [], true, false, Contains};
ghost use Rattle.std.specs.List.{All};
ghost use Rattle.snapshot_core.specs.Dead.{is_dead_to_all};
ghost use Rattle.snapshot_core.specs.StoredVersions.{AnyDeleterIsKnown};
ghost use Rattle.snapshot_core.specs.Visibility.{sees, has_done, in_snapshot, IsUnfinished};

use crate::snapshots::Snapshot;
use crate::statuses::Status;

/// A transaction sees each row of its own that nobody has deleted, whatever its status.
pub fn an_own_row_is_seen(s: &Snapshot, own: u64, put: Status)
    requires { own ≢ 0 }
    ensures { sees s.now own own 0 put Status.Unused ≡ true }
{}

/// No other transaction sees a row of one that hadn't ended at the snapshot, whatever became of it since.
pub fn an_unfinished_row_is_not_seen(
    s: &Snapshot,
    own: u64,
    t: u64,
    deleter: u64,
    put: Status,
    gone: Status,
)
    requires other { t ≢ own }
    requires unfinished { IsUnfinished s.now t }
    ensures { sees s.now own t deleter put gone ≡ false }
{}

/// A delete by another transaction that hadn't ended at the snapshot hides nothing.
pub fn an_unfinished_delete_hides_nothing(
    s: &Snapshot,
    own: u64,
    t: u64,
    deleter: u64,
    put: Status,
    gone: Status,
)
    requires other { deleter ≢ own }
    requires unfinished { IsUnfinished s.now deleter }
    requires nobody { own ≢ 0 }
    ensures { sees s.now own t deleter put gone ≡ sees s.now own t 0 put Status.Unused }
{}

/// A row that the transaction deleted itself, or that a commit in its snapshot deleted, isn't seen.
pub fn a_deleted_row_is_not_seen(
    s: &Snapshot,
    own: u64,
    t: u64,
    deleter: u64,
    put: Status,
    gone: Status,
)
    requires { has_done s.now own deleter gone ≡ true }
    ensures { sees s.now own t deleter put gone ≡ false }
{}

/// No transaction with a live snapshot sees a row that is dead to all, whether it deleted the row itself or not. A live
/// transaction has not rolled back.
pub fn a_dead_row_is_not_seen(
    live: &[Snapshot],
    own: u64,
    t: u64,
    deleter: u64,
    put: Status,
    gone: Status,
)
    requires dead { is_dead_to_all live.now deleter put gone ≡ true }
    requires alive { t ≡ own → put ≢ Status.RolledBack }
    ensures { All (λ s. sees s own t deleter put gone ≡ false) live.now }
{}

/// Where no snapshot is live, the rows that are dead are those of a rollback and those whose deleter has committed.
pub fn rows_that_are_dead_with_no_snapshot(deleter: u64, put: Status, gone: Status)
    ensures { (is_dead_to_all [] deleter put gone ≡ true) ↔ ((put ≡ Status.RolledBack) ⊎ (gone ≡ Status.Committed)) }
{}

/// A row that nobody has deleted is dead to all exactly where it is one of a rollback.
pub fn rows_that_nobody_deleted(live: &[Snapshot], put: Status)
    ensures { (is_dead_to_all live.now 0 put Status.Unused ≡ true) ↔ (put ≡ Status.RolledBack) }
{}

/// Where no transaction is under way, as at an opening, a row may have any deleter whose number was given: also the row of a rollback
/// another's, whether that has committed or not.
pub fn a_row_at_rest_may_have_any_deleter()
    ensures { AnyDeleterIsKnown }
{}
