//! What a store of sessions rests on.

ghost use Rattle.session_core.specs.SessionLaws.{SessionLaws};

use disk_trait::Disk;
use session_parts::{
    Parts, a_fit_step_fits_everywhere, a_submitted_statement_is_shown,
    each_session_holds_few_locks, one_hand_changes, other_sessions_stay_fit, shares_are_summed,
};
use transactions::a_session_has_its_transaction;

/// Does nothing; tells its caller what holds of the sessions of a store behind each call.
pub(crate) fn laws_of_sessions<D: Disk + Drop>(parts: &Parts<D>)
    ensures { SessionLaws D.told }
{
    one_hand_changes();
    a_fit_step_fits_everywhere(parts);
    other_sessions_stay_fit(parts);
    shares_are_summed();
    each_session_holds_few_locks();
    a_submitted_statement_is_shown();
    a_session_has_its_transaction();
}
