//! Laws of tuples: what their bytes tell, what rows leave in them, and which rows they take.

ghost use Rattle.std.specs.Prelude.{◌≡◌, ◌↔◌, ℕ, Bool, true, List};
ghost use Rattle.block_model.specs.declared.schema.Class.{Class};
ghost use Rattle.block_model.specs.declared.schema.Column.{Column};
ghost use Rattle.block_model.specs.declared.schema.Part.{Part};
ghost use Rattle.block_model.specs.declared.value.Kind.{Kind};
ghost use Rattle.block_model.specs.declared.value.Value.{Value};
ghost use Rattle.block_model.specs.ClassLimits.{takes_kind};
ghost use Rattle.byte_fields.specs.Fields.{field_at, number_of};
ghost use Rattle.opclass_any.specs.AnyClass.{class_of};
ghost use Rattle.range_tuple.specs.ExactTuples.{IsExactTuple, IsExactUnion, with_rows};
ghost use Rattle.range_tuple.specs.IncludedRows.{tuple_includes};
ghost use Rattle.range_tuple.specs.KindValues.{IsOfKind};
ghost use Rattle.range_tuple.specs.TupleBytes.{tuple_bytes};
ghost use Rattle.range_tuple.specs.TupleIncludes.{TakesValue, TupleIncludes};
ghost use Rattle.range_tuple.specs.Tuples.{IsTuple, Tuple, empty_tuple, parts_of, united_tuple};

/// The first four bytes of a tuple spell the number of its range.
pub fn bytes_begin_with_the_range()
    ensures { (t : Tuple) → IsTuple t → number_of (field_at (tuple_bytes t) 0 4) ≡ t.range }
{}

/// Rows added one after the other to a tuple in which nothing was added leave exactly which of nulls and values they had in
/// each column, and the summary of the values in their order.
pub fn rows_leave_exact_summaries()
    ensures { (range : ℕ) (held : Bool) (columns : List Column) (parts : List Part) (rows : List (List Value)) → IsExactTuple rows (with_rows rows (empty_tuple range held columns parts)) }
{}

/// A union with a tuple of the index adds exactly what that one had.
pub fn a_union_adds_what_the_other_had()
    ensures { (rows : List (List Value)) (t other : Tuple) → parts_of other.columns ≡ parts_of t.columns → IsExactTuple rows t → IsExactUnion rows other.columns (united_tuple t other).columns }
{}

/// A row is included exactly where the test of included rows says so.
pub fn a_row_is_included_as_tested()
    ensures { (t : Tuple) (row : List Value) → (tuple_includes t row ≡ true) ↔ TupleIncludes t row }
{}

/// Values of a kind, and null, are taken by the form of each class that takes the kind.
pub fn values_of_a_kind_are_taken()
    ensures { (class : Class) (kind : Kind) (v : Value) → takes_kind class kind ≡ true → IsOfKind kind v → TakesValue (class_of class kind) v }
{}
