//! The exact summary of a list of values.

ghost use Rattle.std.specs.Prelude.{◌≡◌, ℕ, ◌<◌, ◌||◌, ◌++◌, Bool, All, List, IfOk};
ghost use Rattle.block_model.specs.declared.value.Value.{Value};
ghost use Rattle.opclass_api.specs.SameValues.{HaveSameValues};
ghost use Rattle.opclass_bloom.specs.Bits.{IsSummary, is_set, with_value, united};
ghost use Rattle.opclass_bloom.specs.ExactSummary.{ExactSummary, has_position, summary_of};
ghost use Rattle.opclass_bloom.specs.Includes.{HasWords};
ghost use Rattle.opclass_bloom.specs.Parameters.{Parameters};

use crate::class::Bloom;
use crate::summary::Summary;
use block_model::{NoMemory, Value};
use opclass_api::summary_of;
use std::alloc::Global;

/// The summary of int8 and inet values by the calls of the class: a position is set exactly where a value has it, and no
/// other summary is so. The same values in any other order give the same. Takes the memory of one summary.
pub fn exact_summary(class: &Bloom, alloc: Global, values: &[Value]) -> Result<Summary, NoMemory>
    requires { All HasWords values.now }
    ensures added_in_order { IfOk result (λ s. s ≡ summary_of class.now values.now) }
    ensures exact { IfOk result (ExactSummary class.now values.now) }
    ensures no_other { IfOk result (λ s. (t : List Bool) → ExactSummary class.now values.now t → t ≡ s) }
    ensures any_order { IfOk result (λ s. (others : List Value) → HaveSameValues values.now others → summary_of class.now others ≡ s) }
{
    summary_of(class, alloc, values)
}

/// A value sets its positions, and no other.
pub fn a_value_sets_its_positions()
    ensures { (p : Parameters) (s : List Bool) (v : Value) (q : ℕ) → IsSummary p s → q < p.bits → is_set (with_value p s v) q ≡ (is_set s q || has_position p q v) }
{}

/// A union sets the positions of either summary, and no other.
pub fn a_union_sets_the_positions_of_either()
    ensures { (s t : List Bool) (q : ℕ) → is_set (united s t) q ≡ (is_set s q || is_set t q) }
{}

/// The union of two lists' exact summaries is the exact summary of both lists.
pub fn union_is_exact()
    ensures { (p : Parameters) (first second : List Value) (s t : List Bool) → ExactSummary p first s → ExactSummary p second t → ExactSummary p (first ++ second) (united s t) }
{}
