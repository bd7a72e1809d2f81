//! The exact summary of a list of values.

ghost use Rattle.std.specs.Prelude.{◌≡◌, All, IfOk};
ghost use Rattle.opclass_multi.specs.ExactSummary.{exact_summary};
ghost use Rattle.opclass_multi.specs.Includes.{IsInt};

use crate::class::Multi;
use crate::summary::Summary;
use block_model::{NoMemory, Value};
use opclass_api::summary_of;
use std::alloc::Global;

/// The summary of int8 values by the calls of the class: the values added in their order. `Err` where there is no memory
/// for one summary.
pub fn exact_summary(class: &Multi, alloc: Global, values: &[Value]) -> Result<Summary, NoMemory>
    requires { All IsInt values.now }
    ensures { IfOk result (λ s. s ≡ exact_summary class.now values.now) }
{
    summary_of(class, alloc, values)
}
