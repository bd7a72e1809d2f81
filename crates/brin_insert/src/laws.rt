//! What the steps of an insert are in its table, as laws.

ghost use Rattle.std.specs.Prelude.{◌≡◌, ℕ, ◌+◌, ◌*◌, ◌/◌, ◌≤◌, List, Option, Some, slice_get};
ghost use Rattle.block_model.specs.declared.place.Spot.{Spot};
ghost use Rattle.block_model.specs.declared.reply.Point.{Point};
ghost use Rattle.block_model.specs.declared.row.Row.{Row};
ghost use Rattle.block_model.specs.declared.row.RowId.{RowId};
ghost use Rattle.block_model.specs.declared.value.Value.{Value};
ghost use Rattle.store_layout.specs.DiskLayout.{DiskLayout};
ghost use Rattle.page_layout.specs.PageContents.{Slot};
ghost use Rattle.page_map.specs.PageMap.{PageMap};
ghost use Rattle.page_locks.specs.LockHolders.{LockState};
ghost use Rattle.range_tuple.specs.TupleBytes.{tuple_bytes};
ghost use Rattle.range_tuple.specs.Tuples.{Tuple};
ghost use Rattle.coverage.specs.Accounts.{Accounts, Asked, Asking};
ghost use Rattle.coverage.specs.Machines.{MachineSteps, MachineWaits, ShownTable, Unseen, table_state};
ghost use Rattle.coverage.specs.Table.{Inserts, Task};
ghost use Rattle.coverage.specs.TableCovered.{IsTableKept};
ghost use Rattle.index_contents.specs.IndexContents.{contents};
ghost use Rattle.index_steps.specs.IndexTuples.{index_at, shape_of};
ghost use Rattle.index_steps.specs.MoveEnds.{IsMoving};
ghost use Rattle.brin_insert.specs.declared.stage.Stage.{Stage as AnyStage};
ghost use Rattle.brin_insert.specs.declared.stage.Stage.TheVariants as stages;
ghost use Rattle.brin_insert.specs.AskedFor.{AreRequestsOf, IsAsked, IsRequestOf};
ghost use Rattle.brin_insert.specs.InsertCalls.{InsertCalls};
ghost use Rattle.brin_insert.specs.InsertAnswers.{InsertGoesTo, InsertWaitsFor, IsInsertFull};
ghost use Rattle.brin_insert.specs.InsertSteps.{StepWaits, insert_at, on_index};
ghost use Rattle.brin_insert.specs.RowSteps.{PutsRowOf, RowBegins};
ghost use Rattle.index_steps.specs.ShownRows.{ShowsKept};
ghost use Rattle.index_steps.specs.ShownTable.{indexes_of, shown_table};
ghost use Rattle.brin_insert.specs.StepAnswers.{DamageAt, StepFull};
ghost use Rattle.brin_insert.specs.TableSteps.{ShownDoes, StepsInIndex, Stores, task_after};

use coverage::{
    a_row_begins_its_insert, a_table_steps_with_its_index, index_stays_covered,
    machines_in_one_index, statements_go_on, table_stays_covered,
};
use index_steps::{a_sound_index_is_not_misread, an_insert_knows_its_move};

/// A step of an insert in an index of its table is what its session does in the table, with the other indexes and the heap as they
/// were, whatever the pages and locks don't show: the insert goes on in the index, or comes before the next one. Where it waits in the index,
/// or no page of that is left for it, so it does in the table. Does nothing.
pub fn an_insert_steps_in_its_table()
    ensures steps { (store : Stores) (table rows_per_page blocks at n s b k : ℕ) (row : ℕ → ℕ → Option Row) (r : Row) (stage next : AnyStage) (copied after : List ℕ) (t v : Tuple) (point : Point)
        → slice_get (indexes_of store.layout table) at ≡ Some n → StepsInIndex store n s b r stage next copied after t v point
        → ShownDoes s (shown_table store.layout store.pages store.locks table rows_per_page blocks row) (shown_table store.layout store.paged store.locked table rows_per_page blocks row)
        (Inserts b k r at (on_index (shape_of store.layout n) stage copied (tuple_bytes t))) (task_after store.layout n b k r at next after (tuple_bytes v)) point }
    ensures waits { (layout : DiskLayout) (pages : PageMap) (locks : LockState) (table rows_per_page blocks at n s b k page : ℕ) (row : ℕ → ℕ → Option Row) (r : Row) (stage : AnyStage) (copied : List ℕ) (t : Tuple)
        → slice_get (indexes_of layout table) at ≡ Some n → StepWaits (shape_of layout n) s (b / (index_at layout n).pages_per_range) r (insert_at layout pages locks n stage copied t) page
        → InsertWaitsFor s (shown_table layout pages locks table rows_per_page blocks row) (Inserts b k r at (on_index (shape_of layout n) stage copied (tuple_bytes t))) at page }
    ensures full { (layout : DiskLayout) (pages : PageMap) (locks : LockState) (table rows_per_page blocks at n s b k number : ℕ) (row : ℕ → ℕ → Option Row) (r : Row) (stage : AnyStage) (copied : List ℕ) (t : Tuple)
        → slice_get (indexes_of layout table) at ≡ Some n → StepFull (shape_of layout n) s (b / (index_at layout n).pages_per_range) (insert_at layout pages locks n stage copied t) number
        → IsInsertFull s at (shown_table layout pages locks table rows_per_page blocks row) (Inserts b k r at (on_index (shape_of layout n) stage copied (tuple_bytes t))) number }
{
    machines_in_one_index();
    a_table_steps_with_its_index();
}

/// Calls of an insert's `step`, one right after the other while nothing else changes, of which none is blocked or refused, are at most
/// nine for each index of its table, and one for its row. Does nothing.
pub fn an_insert_ends_alone()
    ensures { (s calls : ℕ) (shown : ShownTable) (task : Task) (u : Unseen) → InsertCalls s calls shown task → u.task s ≡ task → IsTableKept (table_state shown u)
        → calls ≤ 1 + 9 * shown.indexes }
{
    statements_go_on();
    table_stays_covered();
}

/// A step of an insert is one of a machine of its session in the table, and an insert that waits is a machine that waits: so the table is kept
/// for the next step (`machines_keep` of coverage). Does nothing.
pub fn an_insert_is_a_machine_of_its_table()
    ensures steps { (s : ℕ) (old new : ShownTable) (before after : Task) (point : Point) → InsertGoesTo s old new before after point → MachineSteps s old new before after }
    ensures waits { (s at page : ℕ) (shown : ShownTable) (task : Task) → InsertWaitsFor s shown task at page → MachineWaits s shown task }
{}

/// In a table that is kept, the move that an insert has in hand stands as it has to, and nothing that its next step reads is damaged. Does
/// nothing.
pub(crate) fn a_kept_table_is_read()
    ensures moving { (layout : DiskLayout) (pages : PageMap) (locks : LockState) (s table at n b k : ℕ) (r : Row) (x y : Spot) (copied widened : List ℕ) → slice_get (indexes_of layout table) at ≡ Some n
        → ShowsKept layout pages locks s table (Inserts b k r at (on_index (shape_of layout n) (stages.Set x y) copied widened))
        → IsMoving (shape_of layout n) (contents layout pages n) (b / (index_at layout n).pages_per_range) x y }
    ensures undamaged { (layout : DiskLayout) (pages : PageMap) (locks : LockState) (s table at n b k : ℕ) (r : Row) (stage : AnyStage) (copied widened : List ℕ) → slice_get (indexes_of layout table) at ≡ Some n
        → ShowsKept layout pages locks s table (Inserts b k r at (on_index (shape_of layout n) stage copied widened))
        → DamageAt (shape_of layout n) (contents layout pages n) (b / (index_at layout n).pages_per_range) stage → ⊥ }
{
    a_sound_index_is_not_misread();
    an_insert_knows_its_move();
    index_stays_covered();
}

/// A row that is put into the heap begins its insert in the table, with the indexes as they were. Does nothing.
pub(crate) fn a_row_is_put_in_its_table()
    ensures { (layout : DiskLayout) (pages paged : PageMap) (locks : LockState) (s table : ℕ) (id : RowId) (values : List Value) (spot : Spot) (blocks : List (List Slot))
        → PutsRowOf layout pages paged table id values spot blocks → RowBegins layout pages paged locks s table id values spot blocks }
{
    a_row_begins_its_insert();
}

/// What an insert asks for is what its session asks for in the table, where the queue and what it asked for in vain are its accounts': so they
/// are behind it. Does nothing.
pub fn an_ask_is_of_the_accounts()
    ensures { (layout : DiskLayout) (request : ℕ × ℕ) (queue queued dropped after : List (ℕ × ℕ)) (entry : Option Spot) (s : ℕ) (a : Accounts) (asked : Asked) → IsAsked request queue queued dropped after entry → IsRequestOf layout request asked
        → AreRequestsOf layout queue a.queue → AreRequestsOf layout dropped (a.of s).dropped
        → (c : Accounts) × Asking s a c asked entry × AreRequestsOf layout queued c.queue × AreRequestsOf layout after (c.of s).dropped }
{}
