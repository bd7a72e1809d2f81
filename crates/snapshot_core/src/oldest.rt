//! Which of the open transactions has the oldest view.

ghost use Rattle.std.specs.Prelude.{◌≡◌};
ghost use Rattle.std.specs.Option.{option_copied};
ghost use Rattle.snapshot_core.specs.OldestOpen.{is_earlier, older, oldest_of};

use crate::sessions::Open;
use crate::snapshots::Snapshot;

/// The open transaction whose view was taken first. None where none is open.
pub fn oldest_of(sessions: &[Option<Open>]) -> Option<&Open>
    ensures { option_copied result ≡ oldest_of sessions.now }
{
    let mut oldest = None;
    'sessions: for session in sessions {
        oldest = older(oldest, session.as_ref());
    }
    oldest
}

/// The older one of two.
fn older<'a>(one: Option<&'a Open>, other: Option<&'a Open>) -> Option<&'a Open>
    ensures { option_copied result ≡ older (option_copied one.entry) (option_copied other.entry) }
{
    let Some(first) = one else {
        return other;
    };
    let Some(second) = other else {
        return one;
    };
    if is_earlier(&second.snapshot, &first.snapshot) {
        other
    } else {
        one
    }
}

/// Whether the one view was taken before the other: fewer transactions had begun, or as many, and more of them were under way.
fn is_earlier(one: &Snapshot, other: &Snapshot) -> bool
    ensures { result ≡ is_earlier one.now other.now }
{
    one.next < other.next
        || (one.next == other.next && other.active.as_slice().len() < one.active.as_slice().len())
}
