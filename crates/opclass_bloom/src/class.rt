//! The class under the trait.

ghost use Rattle.std.specs.Prelude.{◌≡◌, ◌<◌, ◌≤◌, true, ◌*◌, List, Bool, Some, length, fold, refl, Ok, Err, OnOk, OnErr, IsOk, IfErr, MatchResult, SomeIff, IsTrue, ◌↔◌};
ghost use Rattle.block_model.specs.declared.value.Value.{Value};
ghost use Rattle.opclass_bloom.specs.Bits.{IsSummary, is_set, nothing_set, with_position, with_value, united};
ghost use Rattle.opclass_bloom.specs.Consistent.{consistent, key_holds};
ghost use Rattle.opclass_bloom.specs.Encoding.{bytes_of, size_of};
ghost use Rattle.opclass_bloom.specs.Reading.{read_of};
ghost use Rattle.opclass_bloom.specs.ExactSummary.{summary_of};
ghost use Rattle.opclass_bloom.specs.Included.{tested};
ghost use Rattle.opclass_bloom.specs.Includes.{HasWords, Includes, has_all, is_included};
ghost use Rattle.opclass_bloom.specs.Parameters.{Parameters, AreWithinLimits};
ghost use Rattle.opclass_bloom.specs.Positions.{position, positions_by};
ghost use Rattle.std.specs.List.{list_all};

use crate::hash::{hash, position};
use crate::summary::Summary;
use block_model::{Cond, NoMemory, Op, Value};
use opclass_api::{Malformed, OpClass};
use std::alloc::Global;
use std::marker::Model;

/// The bloom class of int8 and inet: how many bits a summary has, and how many positions a value ("Built-in Operator
/// Classes" of BRIN indexes). Seen as these parameters.
#[derive(Clone, Copy, Debug, PartialEq, Eq)]
pub struct Bloom {
    bits: u16,
    hashes: u8,
}

impl Model for Bloom {
    ghost use Rattle.opclass_bloom.specs.Parameters.{Parameters, AreWithinLimits};
    ghost use Rattle.opclass_bloom.specs.Kept.{parameters_of, bloom_of};
    ghost use Rattle.std.specs.Prelude.{refl};

    ghost Value = { Parameters };

    ghost view = { parameters_of };

    ghost invariant = { λ a. AreWithinLimits (parameters_of a) };

    ghost inverse = { bloom_of };

    ghost inverse_ok = { λ a h. refl };
}

impl Bloom {
    /// The class with its parameters. None exactly where one is past its limit: the bits are a multiple of 8 from 64 to
    /// 16384, and the hashes from 1 to 16.
    pub fn new(bits: u16, hashes: u8) -> Option<Bloom>
        ensures { let p : Parameters = record { bits = bits; hashes = hashes } in SomeIff result (AreWithinLimits p) p }
    {
        if are_within_limits(bits, hashes) {
            Some(Bloom { bits, hashes })
        } else {
            None
        }
    }

    /// Does nothing; tells its caller that the parameters of every class are within their limits.
    pub fn known(&self)
        ensures { AreWithinLimits self.now }
    {
        // The toolchain opens the invariant where a field is read.
        let _ = &self.bits;
    }

    /// How many bytes each summary has.
    fn size(&self) -> usize
        ensures size { result ≡ size_of self.now }
        ensures whole_bytes { 8 * result ≡ self.now.bits }
    {
        usize::from(self.bits / 8)
    }

    /// Position number `i` of a hash.
    fn position(&self, hash: u64, i: u8) -> usize
        ensures position { result ≡ position self.now.bits hash i }
        ensures within { result < self.now.bits }
    {
        position(self.bits, hash, i)
    }

    /// Whether all positions of a value are set.
    fn has_all(&self, s: &Summary, value: &Value) -> bool
        requires { IsSummary self.now s.now }
        ensures { result ≡ has_all self.now s.now value.now }
    {
        match hash(value) {
            None => true,
            Some(hash) => self.has_positions(s, hash),
        }
    }

    /// Whether all positions of a hash are set.
    fn has_positions(&self, s: &Summary, hash: u64) -> bool
        requires { IsSummary self.now s.now }
        ensures { result ≡ list_all (is_set s.now) (positions_by self.now (Some hash)) }
    {
        (0..self.hashes).all(|i| s.is_set(self.position(hash, i)))
    }

    /// Sets all positions of a hash.
    fn set_positions(&self, s: &mut Summary, hash: u64)
        requires { IsSummary self.now s.old }
        ensures set { s.new ≡ fold with_position s.old (positions_by self.now (Some hash)) }
        ensures all_set { list_all (is_set s.new) (positions_by self.now (Some hash)) ≡ true }
    {
        'positions: for i in 0..self.hashes {
            s.set(self.position(hash, i));
        }
    }

    /// Whether a value that the summary includes may meet each condition.
    fn may_meet_all(&self, s: &Summary, conds: &[Cond]) -> bool
        requires { IsSummary self.now s.now }
        ensures { result ≡ consistent self.now s.now conds.now }
    {
        conds.iter().all(|cond| self.may_meet(s, cond))
    }

    fn may_meet(&self, s: &Summary, cond: &Cond) -> bool
        requires { IsSummary self.now s.now }
        ensures { result ≡ key_holds self.now s.now cond.now.op cond.now.key }
    {
        match cond.key {
            Value::Null => false,
            Value::Int(_) | Value::Net(_) => cond.op != Op::Eq || self.has_all(s, &cond.key),
            Value::Span(_) => cond.op != Op::Eq,
        }
    }
}

impl OpClass for Bloom {
    type Summary = Summary;

    ghost takes = { λ class. HasWords };

    ghost is_of = { IsSummary };

    ghost includes = { Includes };

    ghost is_included = { is_included };

    ghost empty = { nothing_set };

    ghost add = { with_value };

    ghost union = { λ class. united };

    ghost exact = { summary_of };

    ghost consistent = { consistent };

    ghost bytes_of = { λ class. bytes_of };

    ghost read_of = { read_of };

    ghost greatest_size = { size_of };

    ghost tested = { tested };

    ghost added_in_order = { λ class values. refl };

    fn empty(&self, alloc: Global) -> Result<Summary, NoMemory> {
        self.known();
        Summary::with_bytes(alloc, self.size())
    }

    fn add(&self, s: &mut Summary, v: &Value) -> bool {
        self.known();
        let Some(hash) = hash(v) else {
            return false;
        };
        if self.has_positions(s, hash) {
            return false;
        }
        self.set_positions(s, hash);
        true
    }

    fn union(&self, s: &mut Summary, other: &Summary) -> bool {
        self.known();
        s.unite(other)
    }

    fn consistent(&self, s: &Summary, conds: &[Cond]) -> bool {
        self.may_meet_all(s, conds)
    }

    fn encode(&self, s: &Summary, out: &mut [u8]) -> usize {
        s.write(out)
    }

    fn decode(&self, bytes: &[u8], into: &mut Summary) -> Result<(), Malformed>
        requires of_class { IsSummary self.now into.old }
        ensures stays_of_class { IsSummary self.now into.new }
        ensures found { OnOk result (bytes.now ≡ bytes_of into.new) }
        ensures again { (s : List Bool) → IsSummary self.now s → bytes.now ≡ bytes_of s → IsOk result × (into.new ≡ s) }
        ensures unchanged { OnErr result (into.new ≡ into.old) }
        ensures any_bits { IsOk result ↔ (length bytes.now ≡ size_of self.now) }
        ensures read { MatchResult result (λ ok. read_of self.now bytes.now ≡ Ok into.new) (λ e. read_of self.now bytes.now ≡ Err e.at) }
        ensures within { IfErr result (λ e. e.at ≤ length bytes.now) }
    {
        let size = self.size();
        if bytes.len() != size {
            return Err(Malformed {
                at: bytes.len().min(size),
            });
        }
        into.read(bytes);
        Ok(())
    }

    fn greatest_size(&self) -> usize {
        self.size()
    }
}

fn are_within_limits(bits: u16, hashes: u8) -> bool
    ensures { let p : Parameters = record { bits = bits; hashes = hashes } in IsTrue result ↔ AreWithinLimits p }
{
    bits % 8 == 0 && (64..=16384).contains(&bits) && (1..=16).contains(&hashes)
}
