//! The five forms of operator class as one class.

ghost use Rattle.std.specs.Prelude.{◌≡◌, true};
ghost use Rattle.block_model.specs.declared.schema.Class.{Class};
ghost use Rattle.block_model.specs.declared.value.Kind.{Kind};
ghost use Rattle.block_model.specs.declared.value.Value.{Value};
ghost use Rattle.block_model.specs.ClassLimits.{takes_kind, has_lawful_parameters};
ghost use Rattle.block_model.specs.TupleSize.{summary_size};
ghost use Rattle.opclass_any.specs.AnyClass.{class_of, takes, is_of, includes, is_included, empty, add, united, exact, consistent, bytes_of, read_of, greatest_size};
ghost use Rattle.opclass_any.specs.ClassLaws.{tested, added_in_order};

use block_model::{Class, Cond, Kind, NoMemory, Value};
use opclass_api::{Malformed, OpClass};
use opclass_bloom::Bloom;
use opclass_inclusion::{NetHull, NetSummary, SpanHull, SpanSummary};
use opclass_minmax::MinMax;
use opclass_multi::Multi;
use std::alloc::Global;

/// An operator class with its parameters.
#[derive(Clone, Copy, Debug, PartialEq, Eq)]
pub enum AnyClass {
    MinMax(MinMax),
    Multi(Multi),
    SpanHull(SpanHull),
    NetHull(NetHull),
    Bloom(Bloom),
}

/// A summary of one of these classes.
#[derive(Debug, Drop)]
pub enum AnySummary {
    MinMax(opclass_minmax::Summary),
    Multi(opclass_multi::Summary),
    SpanHull(SpanSummary),
    NetHull(NetSummary),
    Bloom(opclass_bloom::Summary),
}

impl AnyClass {
    /// The form of a class for a kind that it takes.
    pub fn of(class: Class, kind: Kind) -> AnyClass
        requires kind { takes_kind class kind ≡ true }
        requires parameters { has_lawful_parameters class ≡ true }
        ensures class { result ≡ class_of class kind }
        ensures size { greatest_size result ≡ summary_size class kind }
    {
        match class {
            Class::MinMax => AnyClass::MinMax(MinMax::new()),
            Class::Multi { limit } => AnyClass::Multi(Multi::new(limit).unwrap()),
            Class::Inclusion => inclusion_of(kind),
            Class::Bloom { bits, hashes } => AnyClass::Bloom(Bloom::new(bits, hashes).unwrap()),
        }
    }
}

fn inclusion_of(kind: Kind) -> AnyClass
    ensures class { result ≡ class_of Class.Inclusion kind }
    ensures size { greatest_size result ≡ summary_size Class.Inclusion kind }
{
    match kind {
        Kind::Net => AnyClass::NetHull(NetHull::new()),
        Kind::Int | Kind::Span => AnyClass::SpanHull(SpanHull::new()),
    }
}

impl OpClass for AnyClass {
    type Summary = AnySummary;

    ghost takes = { takes };

    ghost is_of = { is_of };

    ghost includes = { includes };

    ghost is_included = { is_included };

    ghost empty = { empty };

    ghost add = { add };

    ghost union = { united };

    ghost exact = { exact };

    ghost consistent = { consistent };

    ghost bytes_of = { bytes_of };

    ghost read_of = { read_of };

    ghost greatest_size = { greatest_size };

    ghost tested = { tested };

    ghost added_in_order = { added_in_order };

    #[tactic(auto, unfolding(crate::specs::AnyClass::empty, crate::specs::AnyClass::is_of, crate::specs::AnyClass::includes))]
    fn empty(&self, alloc: Global) -> Result<AnySummary, NoMemory> {
        match self {
            AnyClass::MinMax(class) => Ok(AnySummary::MinMax(class.empty(alloc)?)),
            AnyClass::Multi(class) => Ok(AnySummary::Multi(class.empty(alloc)?)),
            AnyClass::SpanHull(class) => Ok(AnySummary::SpanHull(class.empty(alloc)?)),
            AnyClass::NetHull(class) => Ok(AnySummary::NetHull(class.empty(alloc)?)),
            AnyClass::Bloom(class) => Ok(AnySummary::Bloom(class.empty(alloc)?)),
        }
    }

    #[tactic(auto, unfolding(crate::specs::AnyClass::add, crate::specs::AnyClass::is_of, crate::specs::AnyClass::includes, crate::specs::AnyClass::bytes_of), using(crate::proofs::Forms::others))]
    fn add(&self, s: &mut AnySummary, v: &Value) -> bool {
        match (self, s) {
            (AnyClass::MinMax(class), AnySummary::MinMax(s)) => class.add(s, v),
            (AnyClass::Multi(class), AnySummary::Multi(s)) => class.add(s, v),
            (AnyClass::SpanHull(class), AnySummary::SpanHull(s)) => class.add(s, v),
            (AnyClass::NetHull(class), AnySummary::NetHull(s)) => class.add(s, v),
            (AnyClass::Bloom(class), AnySummary::Bloom(s)) => class.add(s, v),
            _ => false,
        }
    }

    #[tactic(auto, unfolding(crate::specs::AnyClass::united, crate::specs::AnyClass::is_of, crate::specs::AnyClass::includes, crate::specs::AnyClass::bytes_of), using(crate::proofs::Forms::others))]
    fn union(&self, s: &mut AnySummary, other: &AnySummary) -> bool {
        match (self, s, other) {
            (AnyClass::MinMax(class), AnySummary::MinMax(s), AnySummary::MinMax(other)) => {
                class.union(s, other)
            }
            (AnyClass::Multi(class), AnySummary::Multi(s), AnySummary::Multi(other)) => {
                class.union(s, other)
            }
            (AnyClass::SpanHull(class), AnySummary::SpanHull(s), AnySummary::SpanHull(other)) => {
                class.union(s, other)
            }
            (AnyClass::NetHull(class), AnySummary::NetHull(s), AnySummary::NetHull(other)) => {
                class.union(s, other)
            }
            (AnyClass::Bloom(class), AnySummary::Bloom(s), AnySummary::Bloom(other)) => {
                class.union(s, other)
            }
            _ => false,
        }
    }

    #[tactic(auto, unfolding(crate::specs::AnyClass::consistent, crate::specs::AnyClass::takes, crate::specs::AnyClass::includes), using(crate::proofs::Forms::others))]
    fn consistent(&self, s: &AnySummary, conds: &[Cond]) -> bool {
        match (self, s) {
            (AnyClass::MinMax(class), AnySummary::MinMax(s)) => class.consistent(s, conds),
            (AnyClass::Multi(class), AnySummary::Multi(s)) => class.consistent(s, conds),
            (AnyClass::SpanHull(class), AnySummary::SpanHull(s)) => class.consistent(s, conds),
            (AnyClass::NetHull(class), AnySummary::NetHull(s)) => class.consistent(s, conds),
            (AnyClass::Bloom(class), AnySummary::Bloom(s)) => class.consistent(s, conds),
            _ => true,
        }
    }

    #[tactic(auto, unfolding(crate::specs::AnyClass::bytes_of, crate::specs::AnyClass::greatest_size), using(crate::proofs::Forms::rooms, crate::proofs::Forms::others))]
    fn encode(&self, s: &AnySummary, out: &mut [u8]) -> usize {
        match (self, s) {
            (AnyClass::MinMax(class), AnySummary::MinMax(s)) => class.encode(s, out),
            (AnyClass::Multi(class), AnySummary::Multi(s)) => class.encode(s, out),
            (AnyClass::SpanHull(class), AnySummary::SpanHull(s)) => class.encode(s, out),
            (AnyClass::NetHull(class), AnySummary::NetHull(s)) => class.encode(s, out),
            (AnyClass::Bloom(class), AnySummary::Bloom(s)) => class.encode(s, out),
            _ => 0,
        }
    }

    #[tactic(auto, unfolding(crate::specs::AnyClass::is_of, crate::specs::AnyClass::bytes_of, crate::specs::AnyClass::read_of), using(crate::proofs::Forms::agains, crate::proofs::Forms::others))]
    fn decode(&self, bytes: &[u8], into: &mut AnySummary) -> Result<(), Malformed> {
        match (self, into) {
            (AnyClass::MinMax(class), AnySummary::MinMax(into)) => class.decode(bytes, into),
            (AnyClass::Multi(class), AnySummary::Multi(into)) => class.decode(bytes, into),
            (AnyClass::SpanHull(class), AnySummary::SpanHull(into)) => class.decode(bytes, into),
            (AnyClass::NetHull(class), AnySummary::NetHull(into)) => class.decode(bytes, into),
            (AnyClass::Bloom(class), AnySummary::Bloom(into)) => class.decode(bytes, into),
            _ => Err(Malformed { at: 0 }),
        }
    }

    #[tactic(auto, unfolding(crate::specs::AnyClass::greatest_size), using(crate::proofs::Forms::sizes))]
    fn greatest_size(&self) -> usize {
        match self {
            AnyClass::MinMax(class) => class.greatest_size(),
            AnyClass::Multi(class) => class.greatest_size(),
            AnyClass::SpanHull(class) => class.greatest_size(),
            AnyClass::NetHull(class) => class.greatest_size(),
            AnyClass::Bloom(class) => class.greatest_size(),
        }
    }
}
