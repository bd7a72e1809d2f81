//! The class under the trait.

ghost use Rattle.std.specs.Prelude.{◌≡◌, ◌≤◌, ◌+◌, ◌*◌, ◌↔◌, length, refl, Ok, Err, OnOk, OnErr, IsOk, IsSome, IfSome, IfErr, MatchResult};
ghost use Rattle.opclass_multi.specs.Kept.{IsLimit, IsSummary, nothing_yet, with_value, united, Kept};
ghost use Rattle.opclass_multi.specs.ExactSummary.{exact_summary};
ghost use Rattle.opclass_multi.specs.Included.{tested};
ghost use Rattle.opclass_multi.specs.Includes.{IsInt, Includes, is_included};
ghost use Rattle.opclass_multi.specs.Consistent.{consistent};
ghost use Rattle.opclass_multi.specs.Encoding.{bytes_of};
ghost use Rattle.opclass_multi.specs.Reading.{summary_in};

use crate::summary::Summary;
use block_model::{Cond, NoMemory, Value};
use opclass_api::{Malformed, OpClass};
use std::alloc::Global;
use std::marker::Model;

/// The multi-minmax class of int8, seen as what its summaries may count.
#[derive(Clone, Copy, Debug, PartialEq, Eq)]
pub struct Multi {
    limit: u16,
}

impl Model for Multi {
    ghost use Rattle.std.specs.Prelude.{ℕ, refl};
    ghost use Rattle.opclass_multi.specs.Kept.{IsLimit};

    ghost Value = { ℕ };

    ghost view = { λ a. a.limit };

    ghost invariant = { λ a. IsLimit a.limit };

    ghost inverse = { λ limit. record { limit = limit } };

    ghost inverse_ok = { λ a h. refl };
}

impl Multi {
    /// The class whose summaries count at most `limit`: None where that is not from 8 to 256.
    pub fn new(limit: u16) -> Option<Multi>
        ensures known { IsSome result ↔ IsLimit limit }
        ensures class { IfSome result (λ class. class ≡ limit) }
    {
        if (8..=256).contains(&limit) {
            Some(Multi { limit })
        } else {
            None
        }
    }

    fn limit(&self) -> u16
        ensures own { result ≡ self.now }
        ensures known { IsLimit result }
    {
        self.limit
    }
}

impl OpClass for Multi {
    type Summary = Summary;

    ghost takes = { λ class. IsInt };

    ghost is_of = { IsSummary };

    ghost includes = { λ class. Includes };

    ghost is_included = { λ class. is_included };

    ghost empty = { nothing_yet };

    ghost add = { λ class. with_value };

    ghost union = { λ class. united };

    ghost exact = { exact_summary };

    ghost consistent = { λ class. consistent };

    ghost bytes_of = { λ class. bytes_of };

    ghost read_of = { summary_in };

    ghost greatest_size = { λ class. 2 + 9 * class };

    ghost tested = { λ class. tested };

    ghost added_in_order = { λ class values. refl };

    fn empty(&self, alloc: Global) -> Result<Summary, NoMemory> {
        Summary::new(alloc, self.limit())
    }

    fn add(&self, s: &mut Summary, v: &Value) -> bool {
        match v {
            Value::Int(v) => s.add(*v),
            Value::Null | Value::Span(_) | Value::Net(_) => false,
        }
    }

    fn union(&self, s: &mut Summary, other: &Summary) -> bool {
        s.unite(other)
    }

    fn consistent(&self, s: &Summary, conds: &[Cond]) -> bool {
        s.hold(conds)
    }

    fn encode(&self, s: &Summary, out: &mut [u8]) -> usize {
        s.write(out)
    }

    fn decode(&self, bytes: &[u8], into: &mut Summary) -> Result<(), Malformed>
        requires of_class { IsSummary self.now into.old }
        ensures stays_of_class { IsSummary self.now into.new }
        ensures found { OnOk result (bytes.now ≡ bytes_of into.new) }
        ensures again { (s : Kept) → IsSummary self.now s → bytes.now ≡ bytes_of s → IsOk result × (into.new ≡ s) }
        ensures unchanged { OnErr result (into.new ≡ into.old) }
        ensures read { MatchResult result (λ ok. summary_in self.now bytes.now ≡ Ok into.new) (λ e. summary_in self.now bytes.now ≡ Err e.at) }
        ensures within { IfErr result (λ e. e.at ≤ length bytes.now) }
    {
        into.read(bytes)
    }

    fn greatest_size(&self) -> usize {
        2 + 9 * usize::from(self.limit())
    }
}
