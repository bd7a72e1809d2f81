//! What stays in an index, and what a row makes of its tuples, as laws on their definitions.

ghost use Rattle.std.specs.Prelude.{◌≡◌, ◌↔◌, ◌<◌, ℕ, nat_lt, true, List, length, slice_get, Option, Some};
ghost use Rattle.std.specs.List.{list_all};
ghost use Rattle.block_model.specs.ClassLimits.{class_is_lawful};
ghost use Rattle.block_model.specs.declared.schema.Part.{Part};
ghost use Rattle.block_model.specs.declared.value.Kind.{Kind as AnyKind};
ghost use Rattle.block_model.specs.declared.value.Value.{Value as AnyValue};
ghost use Rattle.block_model.specs.declared.row.Cond.{Cond as AnyCond};
ghost use Rattle.block_model.specs.declared.row.Row.{Row};
ghost use Rattle.store_layout.specs.DiskLayout.{DiskLayout};
ghost use Rattle.range_tuple.specs.Keeps.{keeps};
ghost use Rattle.range_tuple.specs.TupleBytes.{tuple_bytes};
ghost use Rattle.range_tuple.specs.TupleIncludes.{TupleIncludes};
ghost use Rattle.range_tuple.specs.Tuples.{Tuple, with_row};
ghost use Rattle.coverage.specs.IndexView.{Building, IndexTuple, IndexView, IsTupleOf, range_of_block};
ghost use Rattle.coverage.specs.IsCovered.{IndexState, IsIndexKept, index_view};
ghost use Rattle.coverage.specs.IsSound.{IsSound};
ghost use Rattle.coverage.specs.Knowing.{LocksNone};
ghost use Rattle.coverage.specs.Statements.{Inserting, Moving};
ghost use Rattle.coverage.specs.Steps.{ReadsIndex};
ghost use Rattle.block_model.specs.declared.place.Spot.{Spot};
ghost use Rattle.index_contents.specs.IndexContents.{IndexContents};
ghost use Rattle.index_steps.specs.IndexTuples.{IndexShape, TakesValues, are_values, have_kinds, index_at, kinds_of, seen};
ghost use Rattle.index_steps.specs.MoveEnds.{IsMoving};
ghost use Rattle.index_steps.specs.Readings.{IsMisnamed, IsMisread, IsReadAs};
ghost use Rattle.index_steps.specs.ShownIndex.{Shows};
ghost use Rattle.index_steps.specs.ShownTable.{indexes_of};
ghost use Rattle.index_steps.specs.SwapAnswers.{view_after};

use block_model::Value;
use range_tuple::{a_row_is_included_as_tested, values_of_a_kind_are_taken};

/// Where neither pages nor locks change, the actor, which locks no page, has read the index. Does nothing.
pub fn an_index_that_stays_is_read()
    ensures { (shape : IndexShape) (c d : IndexContents) (lock locked : ℕ → Option ℕ) (w : IndexView) (s : ℕ) → Shows shape c lock w → d ≡ c → locked ≡ lock → LocksNone w.lock s
        → (building : ℕ → Option Building) (loose : ℕ → Option Spot) → ReadsIndex s w (view_after shape d locked w building loose) }
{}

/// A row of the table that is added to a tuple of the index gives the tuple with the row. Does nothing.
pub fn a_row_is_added_to_what_is_seen()
    ensures { (shape : IndexShape) (c : IndexContents) (lock : ℕ → Option ℕ) (w : IndexView) (r : Row) (bytes : List ℕ) (t : Tuple) → Shows shape c lock w → IsReadAs shape bytes t → are_values (kinds_of shape) r.values ≡ true
        → w.contents.added r (seen shape bytes) ≡ seen shape (tuple_bytes (with_row r.values t)) }
{}

/// In a sound index the map names tuples of their ranges, and a tuple of the index isn't misread: so no call tells damage for
/// these causes. Does nothing.
pub fn a_sound_index_is_not_misread()
    ensures named { (shape : IndexShape) (c : IndexContents) (lock : ℕ → Option ℕ) (w : IndexView) (range : ℕ) → Shows shape c lock w → IsSound w → IsMisnamed c range → ⊥ }
    ensures read { (shape : IndexShape) (c : IndexContents) (lock : ℕ → Option ℕ) (w : IndexView) (range : ℕ) (x : Spot) → Shows shape c lock w
        → ((t : IndexTuple) → w.tuple x ≡ Some t → t.range ≡ range → IsTupleOf w t) → IsMisread shape c range x → ⊥ }
{}

/// What an insert in a move knows of an index that is kept. Does nothing.
pub fn an_insert_knows_its_move()
    ensures { (shape : IndexShape) (c : IndexContents) (lock : ℕ → Option ℕ) (w : IndexState) (s b k : ℕ) (r : Row) (x y : Spot) (old new : IndexTuple) → Shows shape c lock (index_view w) → IsIndexKept w
        → w.statement s ≡ Inserting b k r (Moving x y old new) → IsMoving shape c (range_of_block (index_view w) b) x y }
{}

/// Does nothing; tells its caller that values which were made as those of columns of these kinds are values of them.
pub fn values_are_known(values: &[Value])
    ensures { (kinds : List AnyKind) → have_kinds kinds values.now ≡ true → are_values kinds values.now ≡ true }
{
    'values: for value in values {
        value.known();
    }
}

/// Each class of an index within the limits takes the values of a row of the table. Does nothing.
pub fn rows_of_the_table_are_taken()
    ensures { (shape : IndexShape) (values : List AnyValue) → list_all (λ (p : Part). nat_lt p.column (length shape.columns)) shape.parts ≡ true → list_all (class_is_lawful shape.columns) shape.parts ≡ true
        → have_kinds (kinds_of shape) values ≡ true → TakesValues shape values }
{
    values_of_a_kind_are_taken();
}

/// Of a layout's indexes those of a table are listed, and no others: each once, in the order of their declarations. Does nothing.
pub fn every_index_of_a_table_is_listed()
    ensures listed { (layout : DiskLayout) (table n : ℕ) → n < length layout.schema.indexes → (index_at layout n).table ≡ table → (at : ℕ) × (slice_get (indexes_of layout table) at ≡ Some n) }
    ensures only { (layout : DiskLayout) (table at n : ℕ) → slice_get (indexes_of layout table) at ≡ Some n → (n < length layout.schema.indexes) × ((index_at layout n).table ≡ table) }
    ensures ascending { (layout : DiskLayout) (table i j m n : ℕ) → i < j → slice_get (indexes_of layout table) i ≡ Some m → slice_get (indexes_of layout table) j ≡ Some n → m < n }
{}

/// What the protocol sees in bytes is the tuple that they are: its range and its flag, the rows that it includes, and the conditions
/// that it keeps. Does nothing.
pub fn what_is_seen_is_its_tuple()
    ensures range { (shape : IndexShape) (bytes : List ℕ) (t : Tuple) → IsReadAs shape bytes t → (seen shape bytes).range ≡ t.range }
    ensures placeholder { (shape : IndexShape) (bytes : List ℕ) (t : Tuple) → IsReadAs shape bytes t → (seen shape bytes).placeholder ≡ t.placeholder }
    ensures includes { (shape : IndexShape) (bytes : List ℕ) (t : Tuple) → IsReadAs shape bytes t → (r : Row) → are_values (kinds_of shape) r.values ≡ true → ((seen shape bytes).includes r ≡ true) ↔ TupleIncludes t r.values }
    ensures keeps { (shape : IndexShape) (bytes : List ℕ) (t : Tuple) → IsReadAs shape bytes t → (conds : List AnyCond) → (seen shape bytes).keeps conds ≡ keeps t conds }
{
    a_row_is_included_as_tested();
}
