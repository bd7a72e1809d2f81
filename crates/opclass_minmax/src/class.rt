//! The class under the trait.

ghost use Rattle.std.specs.Prelude.{◌≡◌, ◌≤◌, length, refl, Ok, Err, OnOk, OnErr, IsOk, IsOkAnd, IfErr, MatchResult};
ghost use Rattle.block_model.specs.declared.value.Value.{Value};
ghost use Rattle.opclass_minmax.specs.Bounds.{Bounds, NothingYet, IsSummary, with_value, united};
ghost use Rattle.opclass_minmax.specs.ExactSummary.{summary_of};
ghost use Rattle.opclass_minmax.specs.Included.{tested};
ghost use Rattle.opclass_minmax.specs.Includes.{IsInt, Includes, is_included};
ghost use Rattle.opclass_minmax.specs.Consistent.{consistent};
ghost use Rattle.opclass_minmax.specs.Encoding.{bytes_of};
ghost use Rattle.opclass_minmax.specs.Reading.{read_of};

use crate::bytes::{GREATEST_SIZE, read, write};
use crate::summary::Summary;
use block_model::{Cond, NoMemory, Value};
use opclass_api::{Malformed, OpClass};
use std::alloc::Global;

/// The minmax class of int8. It has no parameters.
#[derive(Clone, Copy, Debug, PartialEq, Eq)]
pub struct MinMax;

impl MinMax {
    /// The class.
    pub fn new() -> MinMax {
        MinMax
    }
}

impl OpClass for MinMax {
    type Summary = Summary;

    ghost takes = { λ class. IsInt };

    ghost is_of = { λ class. IsSummary };

    ghost includes = { λ class. Includes };

    ghost is_included = { λ class. is_included };

    ghost empty = { λ class. NothingYet };

    ghost add = { λ class. with_value };

    ghost union = { λ class. united };

    ghost exact = { λ class. summary_of };

    ghost consistent = { λ class. consistent };

    ghost bytes_of = { λ class. bytes_of };

    ghost read_of = { λ class. read_of };

    ghost greatest_size = { λ class. 16 };

    ghost tested = { λ class. tested };

    ghost added_in_order = { λ class values. refl };

    fn empty(&self, _alloc: Global) -> Result<Summary, NoMemory>
        ensures summary { IsOkAnd result (λ s. (s ≡ NothingYet) × IsSummary s) }
        ensures includes_nothing { (v : Value) → Includes NothingYet v → ⊥ }
    {
        Ok(Summary::new())
    }

    fn add(&self, s: &mut Summary, v: &Value) -> bool {
        match v {
            Value::Int(v) => s.widen(*v, *v),
            Value::Null | Value::Span(_) | Value::Net(_) => false,
        }
    }

    fn union(&self, s: &mut Summary, other: &Summary) -> bool {
        match other.extremes() {
            None => false,
            Some(extremes) => s.widen(extremes.least, extremes.greatest),
        }
    }

    fn consistent(&self, s: &Summary, conds: &[Cond]) -> bool {
        s.hold(conds)
    }

    fn encode(&self, s: &Summary, out: &mut [u8]) -> usize {
        write(s, out)
    }

    fn decode(&self, bytes: &[u8], into: &mut Summary) -> Result<(), Malformed>
        requires of_class { IsSummary into.old }
        ensures stays_of_class { IsSummary into.new }
        ensures found { OnOk result (bytes.now ≡ bytes_of into.new) }
        ensures again { (s : Bounds) → IsSummary s → bytes.now ≡ bytes_of s → IsOk result × (into.new ≡ s) }
        ensures unchanged { OnErr result (into.new ≡ into.old) }
        ensures read { MatchResult result (λ ok. read_of bytes.now ≡ Ok into.new) (λ e. read_of bytes.now ≡ Err e.at) }
        ensures within { IfErr result (λ e. e.at ≤ length bytes.now) }
    {
        *into = read(bytes)?;
        Ok(())
    }

    fn greatest_size(&self) -> usize {
        GREATEST_SIZE
    }
}
