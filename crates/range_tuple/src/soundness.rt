//! Laws of range tuples, whichever they are: what a row that is added makes of a tuple of an index, what a union makes of two, what
//! bytes tell of it, and which conditions it excludes. Each operator class has them of its summaries (`classes_are_sound`), and so an
//! index has them of its tuples (`tuples_are_sound`). A call of range_tuple says them of the tuple that it is given; here they hold of
//! all tuples and all bytes, as the protocol of an index asks. It stands on range_tuple and on the classes below it. Each function
//! does nothing.

ghost use Rattle.std.specs.Prelude.{◌≡◌, ◌<◌, ℕ, true, false, List, length, Some};
ghost use Rattle.block_model.specs.ClassLimits.{has_lawful_parameters};
ghost use Rattle.block_model.specs.TupleSize.{summary_size};
ghost use Rattle.block_model.specs.declared.row.Cond.{Cond};
ghost use Rattle.block_model.specs.declared.schema.Class.{Class};
ghost use Rattle.block_model.specs.declared.value.Kind.{Kind};
ghost use Rattle.block_model.specs.declared.value.Value.{Value};
ghost use Rattle.opclass_any.specs.AnyClass.{class_of, greatest_size};
ghost use Rattle.opclass_any.specs.declared.classes.AnyClass.{AnyClass};
ghost use Rattle.range_tuple.specs.ExactTuples.{IsExactTuple};
ghost use Rattle.range_tuple.specs.Keeps.{keeps};
ghost use Rattle.range_tuple.specs.TupleReading.{tuple_in};
ghost use Rattle.range_tuple.specs.Tuples.{Tuple, parts_of, united_tuple};
ghost use Rattle.range_tuple.specs.OwnKinds.{HaveOwnKeys};
ghost use Rattle.range_tuple.specs.RowsUnited.{UnitesRows};
ghost use Rattle.range_tuple.specs.SoundClasses.{IsSoundClass, IsWithinLimits};
ghost use Rattle.range_tuple.specs.SoundTuples.{AreSoundTuples, ExcludesRows, IsIndexed};

/// What a class within its limits makes of its summaries are summaries of it, which include what they have to; their bytes are read
/// as them, and what is read is one, with those bytes.
pub fn classes_are_sound()
    ensures { (class : AnyClass) → IsWithinLimits class → IsSoundClass class }
{}

/// The class of each kind whose parameters are lawful is within its limits, and its greatest summary is as long as the kind's.
pub fn lawful_classes_are_within_limits()
    ensures limits { (class : Class) (kind : Kind) → has_lawful_parameters class ≡ true → IsWithinLimits (class_of class kind) }
    ensures size { (class : Class) (kind : Kind) → greatest_size (class_of class kind) ≡ summary_size class kind }
{}

/// What is made of the tuples of an index are tuples of it, which include what they have to; their bytes are read as them, and what
/// reads as a tuple is one, with those bytes.
pub fn tuples_are_sound()
    ensures { (parts : List (ℕ × AnyClass)) → IsIndexed parts → AreSoundTuples parts }
{}

/// What reads as a tuple of an index and doesn't keep conditions is final, and includes no row that meets them.
pub fn a_tuple_excludes_what_it_does_not_keep()
    ensures { (parts : List (ℕ × AnyClass)) (bytes : List ℕ) (t : Tuple) (conds : List Cond) → 0 < length parts → tuple_in parts bytes ≡ Some t → HaveOwnKeys conds → keeps t conds ≡ false → ExcludesRows t conds }
{}

/// A tuple with which one is united that is exactly what rows leave has, in each column, the exact summary of their values, united
/// with what it held.
pub fn a_union_adds_the_rows()
    ensures { (rows : List (List Value)) (t other : Tuple) → parts_of other.columns ≡ parts_of t.columns → IsExactTuple rows other → UnitesRows rows t.columns (united_tuple t other).columns }
{}
