//! The rule that decides what is seen.

ghost use Rattle.std.specs.Prelude.{◌≡◌};
ghost use Rattle.snapshot_core.specs.Visibility.{sees, has_done, in_snapshot};

use crate::snapshots::Snapshot;
use crate::statuses::Status;

/// Whether the transaction numbered `own` sees the row with its snapshot, where `put` and `gone` are the statuses of `t`,
/// which put the row, and of `deleter`: the row is own or of a commit in the snapshot, and its deleter is neither own nor
/// such a commit. A row that nobody has deleted has deleter 0, which is Unused.
pub fn sees(s: &Snapshot, own: u64, t: u64, deleter: u64, put: Status, gone: Status) -> bool
    ensures { result ≡ sees s.now own t deleter put gone }
{
    has_done(s, own, t, put) && !has_done(s, own, deleter, gone)
}

fn has_done(s: &Snapshot, own: u64, t: u64, status: Status) -> bool
    ensures { result ≡ has_done s.now own t status }
{
    t == own || in_snapshot(s, t, status)
}

pub(crate) fn in_snapshot(s: &Snapshot, t: u64, status: Status) -> bool
    ensures { result ≡ in_snapshot s.now t status }
{
    status == Status::Committed && t < s.next && !s.active.as_slice().contains(&t)
}
