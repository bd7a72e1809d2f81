//! The trait of operator classes.

ghost use Rattle.std.specs.Prelude.{◌≡◌, ◌≢◌, ◌<◌, ◌≤◌, ◌++◌, ◌⊎◌, ◌↔◌, ℕ, Bool, true, false, List, [], length, drop, fold, Result, Ok, Err, OnOk, OnErr, IfOk, IfErr, IsOk, MatchResult};
ghost use Rattle.block_model.specs.declared.value.Value.{Value};
ghost use Rattle.block_model.specs.declared.row.Cond.{Cond};
ghost use Rattle.opclass_api.specs.Conditions.{AllCompare, meets_all, has_null_key};

use block_model::{Cond, NoMemory, Value};
use std::alloc::Global;
use thiserror::Error;

/// Bytes that encode no summary. `at` is where no bytes of the form go on: the first byte of the first field that can't
/// stand behind the fields before it, a number being one field; the first byte behind the form, where there are more; the
/// length, where bytes are missing.
#[derive(Clone, Copy, Debug, Error, PartialEq, Eq)]
#[error("no summary goes on at byte {at}")]
pub struct Malformed {
    pub at: usize,
}

/// A class of operators over a column: what a summary of the column's values keeps of them. Summaries given to a class
/// are of that class with its parameters. `empty` takes all the room that a summary ever needs; no other call takes
/// memory.
pub trait OpClass {
    /// What is kept of the values that aren't null.
    type Summary: Drop;

    /// The values of the class's kind, without null.
    ghost takes: { Self → Value → Type 0 };

    /// The summaries of the class with its parameters.
    ghost is_of: { Self → Self.Summary → Type 0 };

    /// The values that a summary includes.
    ghost includes: { Self → Self.Summary → Value → Type 0 };

    /// Whether a summary includes a value: `includes` as a test.
    ghost is_included: { Self → Self.Summary → Value → Bool };

    /// The summary of no value.
    ghost empty: { Self → Self.Summary };

    /// A summary, widened by a value.
    ghost add: { Self → Self.Summary → Value → Self.Summary };

    /// A summary, widened by another.
    ghost union: { Self → Self.Summary → Self.Summary → Self.Summary };

    /// The exact summary of a list of values.
    ghost exact: { Self → List Value → Self.Summary };

    /// Whether a summary may include a value that meets each condition.
    ghost consistent: { Self → Self.Summary → List Cond → Bool };

    /// The bytes of a summary.
    ghost bytes_of: { Self → Self.Summary → List ℕ };

    /// The summary that bytes encode, or where they go wrong.
    ghost read_of: { Self → List ℕ → Result Self.Summary ℕ };

    /// How many bytes a summary has at most.
    ghost greatest_size: { Self → ℕ };

    /// The summary of no value, with all the room that it ever needs. It includes nothing.
    fn empty(&self, alloc: Global) -> Result<Self::Summary, NoMemory>
        ensures summary { IfOk result (λ s. (s ≡ empty self.now) × is_of self.now s) }
        ensures includes_nothing { (v : Value) → includes self.now (empty self.now) v → ⊥ };

    /// Widens a summary so that it includes a value; answers whether it changed. A summary to which a value was added has
    /// bytes, so that none with no bytes hides one.
    fn add(&self, s: &mut Self::Summary, v: &Value) -> bool
        requires of_class { is_of self.now s.old }
        requires of_kind { takes self.now v.now }
        ensures widened { s.new ≡ add self.now s.old v.now }
        ensures stays_of_class { is_of self.now s.new }
        ensures includes_the_value { includes self.now s.new v.now }
        ensures keeps_what_it_included { (w : Value) → includes self.now s.old w → includes self.now s.new w }
        ensures has_bytes { 0 < length (bytes_of self.now s.new) }
        ensures same { result ≡ false → s.new ≡ s.old }
        ensures changed { result ≡ true → s.new ≢ s.old };

    /// Widens a summary so that it includes what another includes; answers whether it changed.
    fn union(&self, s: &mut Self::Summary, other: &Self::Summary) -> bool
        requires of_class { is_of self.now s.old }
        requires other_of_class { is_of self.now other.now }
        ensures widened { s.new ≡ union self.now s.old other.now }
        ensures stays_of_class { is_of self.now s.new }
        ensures keeps_what_it_included { (w : Value) → includes self.now s.old w → includes self.now s.new w }
        ensures includes_the_others { (w : Value) → includes self.now other.now w → includes self.now s.new w }
        ensures has_bytes { 0 < length (bytes_of self.now other.now) → 0 < length (bytes_of self.now s.new) }
        ensures same { result ≡ false → s.new ≡ s.old }
        ensures changed { result ≡ true → s.new ≢ s.old };

    /// Whether a summary may include a value that meets each of the column's conditions, which are neither `is null` nor
    /// `is not null`. A null key makes it false, but where the summary tells no value of the kind from another.
    fn consistent(&self, s: &Self::Summary, conds: &[Cond]) -> bool
        requires of_class { is_of self.now s.now }
        requires comparisons { AllCompare conds.now }
        ensures answer { result ≡ consistent self.now s.now conds.now }
        ensures misses_no_match { result ≡ false → (v : Value) → includes self.now s.now v → meets_all conds.now v ≡ false }
        ensures no_condition { conds.now ≡ [] → result ≡ true }
        ensures null_key { has_null_key conds.now ≡ true → (result ≡ false) ⊎ ((v : Value) → takes self.now v → includes self.now s.now v) };

    /// Writes the bytes of a summary to the front of `out`, and answers how many they are.
    fn encode(&self, s: &Self::Summary, out: &mut [u8]) -> usize
        requires of_class { is_of self.now s.now }
        requires room { greatest_size self.now ≤ length out.old }
        ensures size { result ≡ length (bytes_of self.now s.now) }
        ensures within { result ≤ greatest_size self.now }
        ensures written { out.new ≡ bytes_of self.now s.now ++ drop result out.old };

    /// Makes `into` the summary that the bytes encode. `Err` exactly where they encode none: `into` is unchanged then.
    fn decode(&self, bytes: &[u8], into: &mut Self::Summary) -> Result<(), Malformed>
        requires of_class { is_of self.now into.old }
        ensures stays_of_class { is_of self.now into.new }
        ensures found { OnOk result (bytes.now ≡ bytes_of self.now into.new) }
        ensures again { (s : Self.Summary) → is_of self.now s → bytes.now ≡ bytes_of self.now s → IsOk result × (into.new ≡ s) }
        ensures unchanged { OnErr result (into.new ≡ into.old) }
        ensures read { MatchResult result (λ ok. read_of self.now bytes.now ≡ Ok into.new) (λ fault. read_of self.now bytes.now ≡ Err fault.at) }
        ensures within { IfErr result (λ fault. fault.at ≤ length bytes.now) };

    /// How many bytes a summary has at most. No two summaries have the same bytes.
    fn greatest_size(&self) -> usize
        ensures size { result ≡ greatest_size self.now }
        ensures bound { (s : Self.Summary) → is_of self.now s → length (bytes_of self.now s) ≤ greatest_size self.now }
        ensures read_again { (s : Self.Summary) → is_of self.now s → read_of self.now (bytes_of self.now s) ≡ Ok s };

    /// The test of included values says what `includes` does.
    ghost tested: { (class : Self) (s : Self.Summary) (v : Value) → (is_included class s v ≡ true) ↔ includes class s v };

    /// The exact summary of values is what adding them in their order gives.
    ghost added_in_order: { (class : Self) (values : List Value) → exact class values ≡ fold (add class) (empty class) values };
}
