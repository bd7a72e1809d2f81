//! The exact summary of a list of ranges.

ghost use Rattle.std.specs.Prelude.{◌≡◌, ◌++◌, All, List};
ghost use Rattle.block_model.specs.declared.value.Value.{Value};
ghost use Rattle.opclass_inclusion.specs.SpanExact.{ExactSummary, summary_of};
ghost use Rattle.opclass_api.specs.SameValues.{HaveSameValues};
ghost use Rattle.opclass_inclusion.specs.SpanHulls.{IsSummary, united};
ghost use Rattle.opclass_inclusion.specs.SpanIncludes.{Includes, IsSpan};

use crate::span_class::SpanHull;
use crate::span_summary::SpanSummary;
use block_model::Value;
use opclass_api::add_all;

/// The summary of ranges by the calls of the class: it tells whether an empty one is among them, and has the smallest range
/// that contains each; no other summary does. The same ranges in any other order give the same. Takes no memory.
pub fn span_exact_summary(values: &[Value]) -> SpanSummary
    requires { All IsSpan values.now }
    ensures of_class { IsSummary result }
    ensures added_in_order { result ≡ summary_of values.now }
    ensures includes_each { All (Includes result) values.now }
    ensures exact { ExactSummary values.now result }
    ensures no_other { (t : SpanSummary) → ExactSummary values.now t → t ≡ result }
    ensures any_order { (others : List Value) → HaveSameValues values.now others → summary_of others ≡ result }
{
    let mut summary = SpanSummary::new();
    add_all(&SpanHull::new(), &mut summary, values);
    summary
}

/// The union of two lists' exact summaries is the exact summary of both lists.
pub fn span_union_is_exact()
    ensures { (first second : List Value) (s t : SpanSummary) → ExactSummary first s → ExactSummary second t → ExactSummary (first ++ second) (united s t) }
{}
