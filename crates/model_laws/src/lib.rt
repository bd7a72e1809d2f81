//! Laws for a reader, to believe the definitions of block_model by. `SerialModel` is a plain, slow program that computes what databases of
//! private copies are defined to do; block_model's `after_request`, `reply_to` and `serial_run` are its contracts, and laws say what holds
//! of every run. Other laws say what `matches` makes of values: `=` is equality, operators agree with their converses, `<` orders numbers,
//! and operators on ranges and networks speak of the sets of their members. Each law is a function that does nothing. It stands on
//! block_model and store_layout.
#![tactic(auto)]

mod laws;
mod marks;
mod model;
mod sessions;
mod table_copy;
mod transaction;
mod value_laws;

pub use laws::{
    commit_changes_own, failed_commit_changes_nothing, initial_is_opening, marks_are_apart,
    no_row_removed_twice, own_requests_alone, rows_stand_at_their_ids, table_is_commits,
};
pub use model::{Answered, End, Run, SerialModel};
pub use value_laws::{
    adjacent_is_neighbours, before_is_less, contains_is_superset, converse_operators,
    equal_is_same_numbers, equality_is_identity, mutual_within_is_one_network, network_is_block,
    networks_are_sets, not_after_is_reached, not_before_is_preceded, null_tests,
    numbers_are_ordered, operators_have_kinds, overlaps_is_common_number, within_is_preorder,
};
