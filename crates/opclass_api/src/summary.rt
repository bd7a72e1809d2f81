//! Summaries of lists of values, over any class.

ghost use Rattle.std.specs.Prelude.{◌≡◌, true, false, All, IfOk, fold};
ghost use Rattle.block_model.specs.declared.value.Value.{Value};
ghost use Rattle.opclass_api.specs.Conditions.{AllCompare, meets_all};

use crate::class::OpClass;
use block_model::{Cond, NoMemory, Value};
use std::alloc::Global;

/// Widens a summary by values of the class's kind, one after the other: it includes each, and what it included.
pub fn add_all<C: OpClass>(class: &C, summary: &mut C::Summary, values: &[Value])
    requires of_class { C.is_of class.now summary.old }
    requires of_kind { All (C.takes class.now) values.now }
    ensures added_in_order { summary.new ≡ fold (C.add class.now) summary.old values.now }
    ensures stays_of_class { C.is_of class.now summary.new }
    ensures includes_each { All (C.includes class.now summary.new) values.now }
    ensures keeps_what_it_included { (w : Value) → C.includes class.now summary.old w → C.includes class.now summary.new w }
{
    'values: for value in values {
        class.add(summary, value);
    }
}

/// The summary of values of the class's kind: it includes each. Takes the memory of one summary.
pub fn summary_of<C: OpClass>(
    class: &C,
    alloc: Global,
    values: &[Value],
) -> Result<C::Summary, NoMemory>
    requires { All (C.takes class.now) values.now }
    ensures of_class { IfOk result (C.is_of class.now) }
    ensures added_in_order { IfOk result (λ s. s ≡ fold (C.add class.now) (C.empty class.now) values.now) }
    ensures includes_each { IfOk result (λ s. All (C.includes class.now s) values.now) }
{
    let mut summary = class.empty(alloc)?;
    add_all(class, &mut summary, values);
    Ok(summary)
}

/// Whether the summary of these values may include one that meets each condition. It is false only where no value does.
pub fn may_match<C: OpClass>(
    class: &C,
    alloc: Global,
    values: &[Value],
    conds: &[Cond],
) -> Result<bool, NoMemory>
    requires of_kind { All (C.takes class.now) values.now }
    requires comparisons { AllCompare conds.now }
    ensures answer { IfOk result (λ may. may ≡ C.consistent class.now (fold (C.add class.now) (C.empty class.now) values.now) conds.now) }
    ensures misses_no_match { IfOk result (λ may. may ≡ false → All (λ v. meets_all conds.now v ≡ false) values.now) }
{
    let summary = summary_of(class, alloc, values)?;
    Ok(class.consistent(&summary, conds))
}
