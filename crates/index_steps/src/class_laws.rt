//! What the operator classes of an index make of its tuples is lawful, as the protocol of the index asks (`AreLawful` of coverage): the
//! empty placeholder, a tuple with a row added and the union of two are tuples of the index, which include what they have to. It is no
//! wider than that: what a summarise leaves is, column by column, the exact summary of the rows of its range, united with what the old
//! tuple held. And a tuple that doesn't keep the conditions of a query excludes its matches (`Excludes`). It stands on range_tuple and
//! on index_steps, whose word for these contents is `contents_of`. Each function does nothing.

ghost use Rattle.std.specs.Prelude.{◌≡◌, ℕ, ◌<◌, ◌^◌, Bool, true, false, List, Option, length, map};
ghost use Rattle.std.specs.List.{list_all};
ghost use Rattle.block_model.specs.declared.row.Cond.{Cond};
ghost use Rattle.block_model.specs.declared.row.Row.{Row};
ghost use Rattle.block_model.specs.RowMatches.{column_matches};
ghost use Rattle.block_model.specs.declared.value.Value.{Value};
ghost use Rattle.store_layout.specs.DiskLayout.{DiskLayout};
ghost use Rattle.store_layout.specs.FirstBrokenRule.{KeepsLimits};
ghost use Rattle.range_tuple.specs.Tuples.{Tuple, with_row};
ghost use Rattle.coverage.specs.ExactResults.{IsPassed, NamesExactFinal};
ghost use Rattle.coverage.specs.IndexView.{IndexTuple, IndexView};
ghost use Rattle.coverage.specs.IsSound.{IsSound};
ghost use Rattle.coverage.specs.Statements.{AreLawful};
ghost use Rattle.coverage.specs.Steps.{Excludes};
ghost use Rattle.range_tuple.specs.OwnKinds.{HaveOwnKeys};
ghost use Rattle.index_steps.specs.IndexTuples.{IndexShape, contents_of, row_values, seen, shape_of};
ghost use Rattle.index_steps.specs.ExactTuples.{AreRowsOf, HasExactly, HasUnited, LeavesExactly, SaysTuple};
ghost use Rattle.index_steps.specs.LawfulShapes.{IsLawfulShape};

use crate::rows_of_the_table_are_taken;
use range_tuple::{
    a_row_is_included_as_tested, a_tuple_excludes_what_it_does_not_keep, a_union_adds_the_rows,
    bytes_begin_with_the_range, lawful_classes_are_within_limits, rows_leave_exact_summaries,
    tuples_are_sound,
};

/// What is made of the tuples of an index within the limits is one of it, and includes what it has to; so it is in each index of a
/// layout that keeps its limits.
pub fn tuples_of_an_index_are_lawful()
    ensures shapes { (shape : IndexShape) → IsLawfulShape shape → AreLawful (contents_of shape) }
    ensures layouts { (layout : DiskLayout) (index : ℕ) → KeepsLimits layout.schema layout.sizes → index < length layout.schema.indexes → AreLawful (contents_of (shape_of layout index)) }
{
    tuples_are_sound();
    lawful_classes_are_within_limits();
    a_row_is_included_as_tested();
    bytes_begin_with_the_range();
    rows_of_the_table_are_taken();
}

/// Bytes that don't keep the conditions of a query, as a tuple of the index, exclude its matches, which are rows whose values meet
/// the conditions.
pub fn tuples_exclude_what_they_do_not_keep()
    ensures { (shape : IndexShape) (bytes : List ℕ) (conds : List Cond) (matches : Row → Bool) → 0 < length shape.parts → HaveOwnKeys conds → ((r : Row) → matches r ≡ true → list_all (column_matches (row_values shape r)) conds ≡ true)
        → (seen shape bytes).keeps conds ≡ false → Excludes (seen shape bytes) matches }
{
    a_tuple_excludes_what_it_does_not_keep();
    a_row_is_included_as_tested();
}

/// What rows leave in the tuples of an index is exact: in a placeholder to which they were added, one after the other, each column has the
/// summary of their values there, and a union has it united with what the other tuple held. So what the map names once a summarise has
/// counted a range is the exact summary of all rows of the range, united with what the old tuple held.
pub fn summaries_are_exact()
    ensures inserted { (shape : IndexShape) (r : Row) (u : IndexTuple) (t : Tuple) → IsLawfulShape shape → SaysTuple shape u t → SaysTuple shape ((contents_of shape).added r u) (with_row (row_values shape r) t) }
    ensures passed { (shape : IndexShape) (row : ℕ → ℕ → Option Row) (range first next : ℕ) (result : IndexTuple) → IsLawfulShape shape → range < 2 ^ 32 → IsPassed (contents_of shape) row range first next result
        → (rows : List Row) × AreRowsOf row first next rows × HasExactly shape range (map (row_values shape) rows) result }
    ensures united { (shape : IndexShape) (rows : List (List Value)) (range : ℕ) (old result : IndexTuple) (held : Tuple) → IsLawfulShape shape → SaysTuple shape old held → HasExactly shape range rows result
        → HasUnited shape rows held ((contents_of shape).united old result) }
    // As it is where a summarise counts its range (`results_are_exact` of coverage).
    ensures left { (shape : IndexShape) (w v : IndexView) (range : ℕ) → IsLawfulShape shape → IsSound w → w.contents ≡ contents_of shape → NamesExactFinal w v range → LeavesExactly shape w v range }
{
    tuples_are_sound();
    lawful_classes_are_within_limits();
    rows_of_the_table_are_taken();
    rows_leave_exact_summaries();
    a_union_adds_the_rows();
}
