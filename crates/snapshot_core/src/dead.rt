//! The rule that decides which row versions nobody sees any more.

ghost use Rattle.std.specs.Prelude.{◌≡◌};
ghost use Rattle.std.specs.List.{list_all};
ghost use Rattle.snapshot_core.specs.Visibility.{in_snapshot};
ghost use Rattle.snapshot_core.specs.Dead.{is_dead_to_all, is_deleted_for_all};

use crate::snapshots::Snapshot;
use crate::statuses::Status;
use crate::visibility::in_snapshot;

/// Whether nobody sees the row any more, by the snapshots of the live transactions, where `put` and `gone` are the statuses
/// of `t`, which put the row, and of `deleter`: `t` rolled back, or the deleter has committed and is in each snapshot. A row
/// that nobody has deleted has deleter 0, which is Unused.
pub fn dead_to_all(live: &[Snapshot], t: u64, deleter: u64, put: Status, gone: Status) -> bool
    ensures { result ≡ is_dead_to_all live.now deleter put gone }
{
    // Whoever put it: its status alone counts.
    let _ = t;
    put == Status::RolledBack || is_deleted_for_all(live, deleter, gone)
}

fn is_deleted_for_all(live: &[Snapshot], deleter: u64, gone: Status) -> bool
    ensures { result ≡ is_deleted_for_all live.now deleter gone }
{
    gone == Status::Committed && is_in_each(live, deleter, gone)
}

fn is_in_each(live: &[Snapshot], deleter: u64, gone: Status) -> bool
    ensures { result ≡ list_all (λ s. in_snapshot s deleter gone) live.now }
{
    live.iter().all(|s| in_snapshot(s, deleter, gone))
}
