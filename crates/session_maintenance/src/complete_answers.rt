//! What came of a step of a vacuum's summaries.

ghost use Rattle.std.specs.Prelude.{◌≡◌, ◌≢◌, ℕ, ◌+◌, ◌≤◌, ◌<◌, ◌^◌, None, Some, Ok, length, slice_get, slice_set};
ghost use Rattle.index_steps.specs.IndexTuples.{index_at};
ghost use Rattle.index_steps.specs.ShownTable.{indexes_of};
ghost use Rattle.page_locks.specs.RightHolders.{right_of};
ghost use Rattle.session_parts.specs.Hands.{count_in, summary_now};
ghost use Rattle.session_parts.specs.StepIs.{stepped_in};

use block_model::{Point, Reply};
use index_steps::every_index_of_a_table_is_listed;
use page_locks::Rights;
use page_map::tables_have_forms;
use session_parts::{Completing, Hand, Step, Stepped};
use store_layout::Layout;

/// No range of the index is left: the next index comes, with the ranges counted; behind the last one the vacuum replies, and gives the
/// summarise lock.
pub(crate) fn end_index(
    rights: &mut Rights,
    session: u32,
    point: Point,
    completing: &mut Completing,
) -> Step
    requires now { completing.old.next < length completing.old.summaries.items }
    requires few { completing.old.ranges + count_in (summary_now completing.old) < 2 ^ 64 }
    requires table { completing.old.table < length rights.old }
    ensures next { completing.old.next + 1 < length completing.old.summaries.items → stepped_in (Hand.Completes completing.new) (Ok result) ≡ Stepped.Moved point (Hand.Completes (record completing.old { next = completing.old.next + 1; ranges = completing.old.ranges + count_in (summary_now completing.old) })) }
    ensures held { completing.old.next + 1 < length completing.old.summaries.items → rights.new ≡ rights.old }
    ensures reply { length completing.old.summaries.items ≤ completing.old.next + 1 → stepped_in (Hand.Completes completing.new) (Ok result) ≡ Stepped.Done (Reply.Vacuumed completing.old.rows completing.old.unnamed (completing.old.ranges + count_in (summary_now completing.old))) }
    ensures given { length completing.old.summaries.items ≤ completing.old.next + 1 → right_of rights.old completing.old.table ≡ Some session → rights.new ≡ slice_set rights.old completing.old.table None }
    ensures kept { length completing.old.summaries.items ≤ completing.old.next + 1 → right_of rights.old completing.old.table ≢ Some session → rights.new ≡ rights.old }
{
    completing.ranges += completing.summaries[completing.next].count();
    completing.next += 1;
    if completing.next < completing.summaries.len() {
        return Step::Moved(point);
    }
    rights.give(completing.table, session);
    Step::Done(Reply::Vacuumed {
        rows: completing.rows,
        orphans: completing.unnamed,
        ranges: completing.ranges,
    })
}

/// Does nothing; tells its caller that the indexes that a table lists are its own, and few.
pub(crate) fn indexes_are_listed(layout: &Layout)
    ensures of_table { (table at index : ℕ) → slice_get (indexes_of layout.now table) at ≡ Some index → (index_at layout.now index).table ≡ table }
    ensures few { (table : ℕ) → length (indexes_of layout.now table) ≤ 8 }
{
    tables_have_forms(layout);
    every_index_of_a_table_is_listed();
}
