//! The exact summary of a list of values.

ghost use Rattle.std.specs.Prelude.{◌≡◌, ◌++◌, All, List};
ghost use Rattle.block_model.specs.declared.value.Value.{Value};
ghost use Rattle.opclass_minmax.specs.Bounds.{Bounds, united};
ghost use Rattle.opclass_minmax.specs.ExactSummary.{ExactSummary, summary_of};
ghost use Rattle.opclass_api.specs.SameValues.{HaveSameValues};
ghost use Rattle.opclass_minmax.specs.Includes.{IsInt, Includes};

use crate::class::MinMax;
use crate::summary::Summary;
use block_model::Value;
use opclass_api::add_all;

/// The summary of int8 values by the calls of the class: exactly their least and greatest, and no other summary is. The
/// same values in any other order give the same. Takes no memory.
pub fn exact_summary(values: &[Value]) -> Summary
    requires { All IsInt values.now }
    ensures added_in_order { result ≡ summary_of values.now }
    ensures exact { ExactSummary values.now result }
    ensures no_other { (t : Bounds) → ExactSummary values.now t → t ≡ result }
    ensures any_order { (others : List Value) → HaveSameValues values.now others → summary_of others ≡ result }
{
    let mut summary = Summary::new();
    add_all(&MinMax::new(), &mut summary, values);
    summary
}

/// The union of two lists' exact summaries is the exact summary of both lists.
pub fn union_is_exact()
    ensures { (first second : List Value) (s t : Bounds) → ExactSummary first s → ExactSummary second t → ExactSummary (first ++ second) (united s t) }
{}

/// The summary of int8 values includes each of them.
pub fn summaries_include_their_values()
    ensures { (values : List Value) → All IsInt values → All (Includes (summary_of values)) values }
{}
