//! The class of ranges under the trait.

ghost use Rattle.std.specs.Prelude.{◌≡◌, ◌≤◌, length, refl, Ok, Err, OnOk, OnErr, IsOk, IsOkAnd, IfErr, MatchResult};
ghost use Rattle.block_model.specs.declared.value.Value.{Value};
ghost use Rattle.opclass_inclusion.specs.SpanConsistent.{consistent};
ghost use Rattle.opclass_inclusion.specs.SpanEncoding.{bytes_of};
ghost use Rattle.opclass_inclusion.specs.SpanExact.{summary_of};
ghost use Rattle.opclass_inclusion.specs.SpanIncluded.{tested};
ghost use Rattle.opclass_inclusion.specs.SpanHulls.{IsSummary, no_range, united, with_value};
ghost use Rattle.opclass_inclusion.specs.SpanIncludes.{Includes, IsSpan, is_included};
ghost use Rattle.opclass_inclusion.specs.SpanReading.{read_of};

use crate::span_bytes::{SIZE, read, write};
use crate::span_summary::SpanSummary;
use block_model::{Cond, NoMemory, Value};
use opclass_api::{Malformed, OpClass};
use std::alloc::Global;

/// The inclusion class of int8range ("Built-in Operator Classes" of BRIN indexes). It has no parameters.
#[derive(Clone, Copy, Debug, PartialEq, Eq)]
pub struct SpanHull;

impl SpanHull {
    /// The class.
    pub fn new() -> SpanHull {
        SpanHull
    }
}

impl OpClass for SpanHull {
    type Summary = SpanSummary;

    ghost takes = { λ class. IsSpan };

    ghost is_of = { λ class. IsSummary };

    ghost includes = { λ class. Includes };

    ghost is_included = { λ class. is_included };

    ghost empty = { λ class. no_range };

    ghost add = { λ class. with_value };

    ghost union = { λ class. united };

    ghost exact = { λ class. summary_of };

    ghost consistent = { λ class. consistent };

    ghost bytes_of = { λ class. bytes_of };

    ghost read_of = { λ class. read_of };

    ghost greatest_size = { λ class. 18 };

    ghost tested = { λ class. tested };

    ghost added_in_order = { λ class values. refl };

    fn empty(&self, _alloc: Global) -> Result<SpanSummary, NoMemory>
        ensures summary { IsOkAnd result (λ s. (s ≡ no_range) × IsSummary s) }
        ensures includes_nothing { (v : Value) → Includes no_range v → ⊥ }
    {
        Ok(SpanSummary::new())
    }

    fn add(&self, s: &mut SpanSummary, v: &Value) -> bool {
        match v {
            Value::Span(range) => s.unite(&SpanSummary::of(range)),
            Value::Null | Value::Int(_) | Value::Net(_) => false,
        }
    }

    fn union(&self, s: &mut SpanSummary, other: &SpanSummary) -> bool {
        s.unite(other)
    }

    fn consistent(&self, s: &SpanSummary, conds: &[Cond]) -> bool {
        s.hold(conds)
    }

    fn encode(&self, s: &SpanSummary, out: &mut [u8]) -> usize {
        write(s, out);
        SIZE
    }

    fn decode(&self, bytes: &[u8], into: &mut SpanSummary) -> Result<(), Malformed>
        requires of_class { IsSummary into.old }
        ensures stays_of_class { IsSummary into.new }
        ensures found { OnOk result (bytes.now ≡ bytes_of into.new) }
        ensures again { (s : SpanSummary) → IsSummary s → bytes.now ≡ bytes_of s → IsOk result × (into.new ≡ s) }
        ensures unchanged { OnErr result (into.new ≡ into.old) }
        ensures read { MatchResult result (λ ok. read_of bytes.now ≡ Ok into.new) (λ e. read_of bytes.now ≡ Err e.at) }
        ensures within { IfErr result (λ e. e.at ≤ length bytes.now) }
    {
        *into = read(bytes)?;
        Ok(())
    }

    fn greatest_size(&self) -> usize {
        SIZE
    }
}
