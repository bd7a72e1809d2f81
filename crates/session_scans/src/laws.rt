//! What a scan and a look rest on.

ghost use Rattle.session_scans.specs.LookLaws.{LookLaws};

use transactions::{
    a_failure_is_shown, a_look_is_shown, a_refusal_is_a_failure, a_session_has_its_transaction,
    a_session_sees_its_copy, ids_of_rows_differ, others_see_alike, rows_found_are_what_stands,
    which_rows_count,
};

/// Does nothing; tells its caller which database transactions show, what a scan finds there, and what a look and a failure are.
pub(crate) fn laws_of_looks()
    ensures { LookLaws }
{
    a_failure_is_shown();
    a_look_is_shown();
    a_refusal_is_a_failure();
    a_session_has_its_transaction();
    a_session_sees_its_copy();
    ids_of_rows_differ();
    others_see_alike();
    rows_found_are_what_stands();
    which_rows_count();
}
