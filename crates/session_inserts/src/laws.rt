//! The laws that the steps of an insert take.

ghost use Rattle.session_inserts.specs.TakenLaws.{IndexLaws, RefusalLaws, RowLaws};

use session_parts::{
    a_machine_asks, a_refusal_is_shown, a_refusal_turns, a_request_leads, a_step_is_shown,
    a_turn_is_a_step, few_rows_come_to_count, others_see_on, requests_are_legal,
    the_own_table_goes_on, transactions_go_on,
};
use transactions::{
    a_failure_is_shown, a_put_is_shown, a_refusal_is_a_failure, a_session_has_its_transaction,
    other_pages_show_alike, others_see_alike, which_rows_count,
};

/// What a step in an index, the put of a row and a refusal are in the place that the store shows. Does nothing.
pub(crate) fn steps_of_an_insert()
    ensures index { IndexLaws }
    ensures row { RowLaws }
    ensures refusal { RefusalLaws }
{
    a_machine_asks();
    a_turn_is_a_step();
    a_step_is_shown();
    the_own_table_goes_on();
    a_request_leads();
    transactions_go_on();
    requests_are_legal();
    few_rows_come_to_count();
    others_see_on();
    a_refusal_turns();
    a_refusal_is_shown();
    other_pages_show_alike();
    a_put_is_shown();
    a_failure_is_shown();
    a_refusal_is_a_failure();
    which_rows_count();
    others_see_alike();
    a_session_has_its_transaction();
}
