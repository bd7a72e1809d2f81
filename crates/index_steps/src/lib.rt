//! The steps that statements take in one index. Towards another tuple in the place of a range's old one: `copy_tuple` copies the tuple at
//! the spot that the map named, and `swap` has the new one take its place, where the old one still stands there. A range without one gets
//! its first tuple by `put_new` and `name_new`. A map that is too short grows by a page (`Extend`): the block behind it is judged anew at
//! each step, emptied of its tuples where it has some, and turned into a page of the map. A scan judges a tuple where its bytes stand (`judge_tuple`). Each step is one of coverage's, of every index
//! that the pages and the page locks show (specs/ShownIndex), and what operator classes make of tuples is lawful as coverage asks. No lock
//! of another session changes, and no call takes memory. It stands on revmap, range_store, page_locks, range_tuple and heap_rows; the
//! machines of statements stand above.
#![tactic(auto)]

mod changes;
mod class_laws;
mod counting;
mod extend;
mod growth_laws;
mod growth_stage;
mod indexes;
mod judging;
mod laws;
mod map_page_laws;
mod moved;
mod moves;
mod moving;
mod moving_off;
mod next;
mod placing;
mod reading;
mod spelling;
mod swapping;
mod tuples;

pub use changes::{count_page, flag_page, start_map_page, turn_page};
pub use class_laws::{
    summaries_are_exact, tuples_exclude_what_they_do_not_keep, tuples_of_an_index_are_lawful,
};
pub use extend::Extend;
pub use growth_laws::a_kept_index_takes_a_growth;
pub use growth_stage::Stage as GrowthStage;
pub use indexes::declared_index;
pub use laws::{
    a_row_is_added_to_what_is_seen, a_sound_index_is_not_misread, an_index_that_stays_is_read,
    an_insert_knows_its_move, every_index_of_a_table_is_listed, rows_of_the_table_are_taken,
    values_are_known, what_is_seen_is_its_tuple,
};
pub use map_page_laws::{
    a_page_in_order_is_not_damaged, a_page_of_a_state_is_not_damaged,
    an_uncounted_map_page_is_left_over,
};
pub use moves::{Move, MoveStep, step_move};
pub use moving::{drop_moved, name_moved};
pub use next::{NextPage, PageState, next_page};
pub use placing::{Placed, name_new, put_new};
pub use range_store::Scratch;
pub use reading::{copy_tuple, judge_tuple, page_at, read_map};
pub use revmap::{SetFault, entries_stand_on_counted_pages, entry, set};
pub use spelling::{spell, tuples_of_an_index_need_one_room};
pub use swapping::{Swapped, Within, lock_of_another, map_page_of, swap};
pub use tuples::{FirstTuple, first_tuple};
