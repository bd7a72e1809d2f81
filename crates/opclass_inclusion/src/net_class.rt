//! The class of networks under the trait.

ghost use Rattle.std.specs.Prelude.{◌≡◌, ◌≤◌, length, refl, Ok, Err, OnOk, OnErr, IsOk, IsOkAnd, IfErr, MatchResult};
ghost use Rattle.block_model.specs.declared.value.Value.{Value};
ghost use Rattle.opclass_inclusion.specs.NetConsistent.{consistent};
ghost use Rattle.opclass_inclusion.specs.NetEncoding.{bytes_of};
ghost use Rattle.opclass_inclusion.specs.NetExact.{summary_of};
ghost use Rattle.opclass_inclusion.specs.NetIncluded.{tested};
ghost use Rattle.opclass_inclusion.specs.NetHulls.{IsSummary, united, with_value};
ghost use Rattle.opclass_inclusion.specs.NetIncludes.{Includes, IsNet, is_included};
ghost use Rattle.opclass_inclusion.specs.NetReading.{read_of};
ghost use Rattle.opclass_inclusion.specs.declared.net_summary.NetSummary.TheVariants.{NothingYet};

use crate::net_bytes::{SIZE, read, write};
use crate::net_summary::NetSummary;
use block_model::{Cond, NoMemory, Value};
use opclass_api::{Malformed, OpClass};
use std::alloc::Global;

/// The inclusion class of inet ("Built-in Operator Classes" of BRIN indexes). It has no parameters.
#[derive(Clone, Copy, Debug, PartialEq, Eq)]
pub struct NetHull;

impl NetHull {
    /// The class.
    pub fn new() -> NetHull {
        NetHull
    }
}

impl OpClass for NetHull {
    type Summary = NetSummary;

    ghost takes = { λ class. IsNet };

    ghost is_of = { λ class. IsSummary };

    ghost includes = { λ class. Includes };

    ghost is_included = { λ class. is_included };

    ghost empty = { λ class. NothingYet };

    ghost add = { λ class. with_value };

    ghost union = { λ class. united };

    ghost exact = { λ class. summary_of };

    ghost consistent = { λ class. consistent };

    ghost bytes_of = { λ class. bytes_of };

    ghost read_of = { λ class. read_of };

    ghost greatest_size = { λ class. 7 };

    ghost tested = { λ class. tested };

    ghost added_in_order = { λ class values. refl };

    fn empty(&self, _alloc: Global) -> Result<NetSummary, NoMemory>
        ensures summary { IsOkAnd result (λ s. (s ≡ NothingYet) × IsSummary s) }
        ensures includes_nothing { (v : Value) → Includes NothingYet v → ⊥ }
    {
        Ok(NetSummary::new())
    }

    fn add(&self, s: &mut NetSummary, v: &Value) -> bool {
        match v {
            Value::Net(net) => s.unite(&NetSummary::of(net)),
            Value::Null | Value::Int(_) | Value::Span(_) => false,
        }
    }

    fn union(&self, s: &mut NetSummary, other: &NetSummary) -> bool {
        s.unite(other)
    }

    fn consistent(&self, s: &NetSummary, conds: &[Cond]) -> bool {
        s.hold(conds)
    }

    fn encode(&self, s: &NetSummary, out: &mut [u8]) -> usize {
        write(s, out);
        SIZE
    }

    fn decode(&self, bytes: &[u8], into: &mut NetSummary) -> Result<(), Malformed>
        requires of_class { IsSummary into.old }
        ensures stays_of_class { IsSummary into.new }
        ensures found { OnOk result (bytes.now ≡ bytes_of into.new) }
        ensures again { (s : NetSummary) → IsSummary s → bytes.now ≡ bytes_of s → IsOk result × (into.new ≡ s) }
        ensures unchanged { OnErr result (into.new ≡ into.old) }
        ensures read { MatchResult result (λ ok. read_of bytes.now ≡ Ok into.new) (λ e. read_of bytes.now ≡ Err e.at) }
        ensures within { IfErr result (λ e. e.at ≤ length bytes.now) }
    {
        *into = read(bytes)?;
        Ok(())
    }

    fn greatest_size(&self) -> usize {
        SIZE
    }
}
