//! An indexed column of a tuple.

ghost use Rattle.std.specs.Prelude.{◌≡◌, ◌≢◌, ◌<◌, ◌≤◌, ◌++◌, ◌==◌, ◌&&◌, ◌||◌, true, false, List, length, drop, IfOk, Ok, Err, IfErr, OnOk, MatchResult};
ghost use Rattle.std.specs.List.{list_all};
ghost use Rattle.block_model.specs.declared.limits.TheConstants.{MAX_CONDITIONS};
ghost use Rattle.block_model.specs.declared.row.Cond.{Cond};
ghost use Rattle.block_model.specs.declared.value.Value.{Value};
ghost use Rattle.block_model.specs.RowMatches.{column_matches};
ghost use Rattle.opclass_api.specs.Conditions.{AllCompare, meets_all};
ghost use Rattle.opclass_any.specs.AnyClass.{takes, is_of, includes, empty, add, consistent, bytes_of, read_of, greatest_size};
ghost use Rattle.range_tuple.specs.GatheredKeys.{IsAsked, has_asked};
ghost use Rattle.range_tuple.specs.Keeps.{column_allows};
ghost use Rattle.range_tuple.specs.KeptColumns.{IsBlankOf, IsReadAgain};
ghost use Rattle.range_tuple.specs.NullStates.{state_of, has_nulls, has_values};
ghost use Rattle.range_tuple.specs.TupleBytes.{state_number, summary_bytes};
ghost use Rattle.range_tuple.specs.TupleIncludes.{IncludesValue, ColumnIncludes, ColumnTakes, TakesValue};
ghost use Rattle.opclass_any.specs.declared.classes.AnySummary.{AnySummary};
ghost use Rattle.range_tuple.specs.declared.state.NullState.{NullState};
ghost use Rattle.range_tuple.specs.Tuples.{IndexedColumn, IsColumn, emptied, part_of, with_value, with_row_at, united_column, column_room, has_nothing};

use crate::scan_keys::{Asked, ScanKeys, asked_alone, is_on_one};
use crate::state::NullState;
use block_model::{Cond, NoMemory, Value};
use opclass_any::{AnyClass, AnySummary};
use opclass_api::{Malformed, OpClass};
use std::alloc::Global;
use std::marker::Model;

/// How many bytes stand before the summaries for each column: its state and its summary's length.
pub(crate) const COLUMN_HEADER: usize = 3;

/// An indexed column: its number in the table, its class, which of nulls and values rows had there, and the summary of
/// the values.
#[derive(Debug, Drop)]
pub(crate) struct TupleColumn {
    place: u8,
    class: AnyClass,
    state: NullState,
    summary: AnySummary,
}

impl Model for TupleColumn {
    ghost use Rattle.range_tuple.specs.Tuples.{IndexedColumn};
    ghost use Rattle.range_tuple.specs.KeptColumns.{IsColumnKept};

    ghost Value = { IndexedColumn };

    ghost view = { λ a. record { place = a.place; class = a.class; state = a.state; summary = a.summary } };

    ghost invariant = { λ a. IsColumnKept a.class a.state a.summary };
}

impl TupleColumn {
    /// A column in which nothing was added. Takes the memory of its summary.
    pub(crate) fn new(alloc: Global, place: u8, class: AnyClass) -> Result<TupleColumn, NoMemory>
        requires { greatest_size class < 65536 }
        ensures { IfOk result (λ column. column ≡ record { place = place; class = class; state = NullState.Nothing; summary = empty class }) }
    {
        let summary = class.empty(alloc)?;
        Ok(TupleColumn {
            place,
            class,
            state: NullState::Nothing,
            summary,
        })
    }

    /// The same column of another range, in which nothing was added. Takes the memory of its summary.
    pub(crate) fn another(&self, alloc: Global) -> Result<TupleColumn, NoMemory>
        ensures { IfOk result (λ column. column ≡ emptied self.now) }
    {
        TupleColumn::new(alloc, self.place, self.class)
    }

    /// The bytes of the summary. Takes their memory, and at most that of the greatest summary.
    pub(crate) fn encoded(&self, alloc: Global) -> Result<Vec<u8>, NoMemory>
        ensures { IfOk result (λ bytes. bytes.items ≡ bytes_of self.now.class self.now.summary) }
    {
        let mut bytes = vec![in alloc; 0u8; self.class.greatest_size()]?;
        let size = self.class.encode(&self.summary, &mut bytes);
        bytes.truncate(size);
        Ok(bytes)
    }

    /// Does nothing; tells its caller that every column is one, and what its class knows of bytes.
    pub(crate) fn known(&self)
        ensures column { IsColumn self.now }
        ensures class { IsReadAgain self.now.class }
    {
        let _ = self.class.greatest_size();
    }

    /// The number of its state.
    pub(crate) fn state_number(&self) -> u8
        ensures { result ≡ state_number self.now }
    {
        self.state.number()
    }

    /// Whether nothing was added.
    pub(crate) fn has_nothing(&self) -> bool
        ensures { result ≡ has_nothing self.now }
    {
        !self.state.has_nulls() && !self.state.has_values()
    }

    /// Adds a value of a row; answers whether the column changed.
    pub(crate) fn add(&mut self, value: &Value) -> bool
        requires { TakesValue self.old.class value.now }
        ensures widened { self.new ≡ with_value self.old value.now }
        ensures includes_the_value { IncludesValue self.new value.now }
        ensures keeps_what_it_included { (w : Value) → IncludesValue self.old w → IncludesValue self.new w }
        ensures same { result ≡ false → self.new ≡ self.old }
        ensures changed { result ≡ true → self.new ≢ self.old }
    {
        match value {
            Value::Null => self.add_null(),
            Value::Int(_) | Value::Span(_) | Value::Net(_) => self.add_value(value),
        }
    }

    fn add_null(&mut self) -> bool
        ensures widened { self.new ≡ record self.old { state = state_of true (has_values self.old.state) } }
        ensures keeps_what_it_included { (w : Value) → IncludesValue self.old w → IncludesValue self.new w }
        ensures same { result ≡ false → self.new ≡ self.old }
        ensures changed { result ≡ true → self.new ≢ self.old }
    {
        let old = self.state;
        self.state = NullState::of(true, old.has_values());
        !old.has_nulls()
    }

    fn add_value(&mut self, value: &Value) -> bool
        requires { takes self.old.class value.now }
        ensures widened { self.new ≡ record self.old { state = state_of (has_nulls self.old.state) true; summary = add self.old.class self.old.summary value.now } }
        ensures includes_the_value { includes self.new.class self.new.summary value.now }
        ensures keeps_what_it_included { (w : Value) → IncludesValue self.old w → IncludesValue self.new w }
        ensures same { result ≡ false → self.new ≡ self.old }
        ensures changed { result ≡ true → self.new ≢ self.old }
    {
        let old = self.state;
        let grown = self.class.add(&mut self.summary, value);
        self.state = NullState::of(old.has_nulls(), true);
        grown || !old.has_values()
    }

    /// Adds the column's value of a row; answers whether the column changed.
    pub(crate) fn add_row(&mut self, values: &[Value]) -> bool
        requires { ColumnTakes values.now self.old }
        ensures widened { self.new ≡ with_row_at values.now self.old }
        ensures includes_the_row { ColumnIncludes values.now self.new }
        ensures keeps_what_it_included { (row : List Value) → ColumnIncludes row self.old → ColumnIncludes row self.new }
        ensures same { result ≡ false → self.new ≡ self.old }
        ensures changed { result ≡ true → self.new ≢ self.old }
    {
        match values.get(usize::from(self.place)) {
            Some(value) => self.add(value),
            None => false,
        }
    }

    /// Takes in what the same column of another tuple has; answers whether the column changed.
    pub(crate) fn unite(&mut self, other: &TupleColumn) -> bool
        requires { part_of other.now ≡ part_of self.old }
        ensures widened { self.new ≡ united_column self.old other.now }
        ensures keeps_what_it_included { (row : List Value) → ColumnIncludes row self.old → ColumnIncludes row self.new }
        ensures includes_the_others { (row : List Value) → ColumnIncludes row other.now → ColumnIncludes row self.new }
        ensures same { result ≡ false → self.new ≡ self.old }
        ensures changed { result ≡ true → self.new ≢ self.old }
    {
        let old = self.state;
        let grown = other.state.has_values() && self.class.union(&mut self.summary, &other.summary);
        self.state = NullState::of(
            old.has_nulls() || other.state.has_nulls(),
            old.has_values() || other.state.has_values(),
        );
        grown || self.state != old
    }

    /// Whether the column allows each condition on it. One that doesn't includes no row that matches them. Where none is on
    /// the column, the class isn't asked.
    pub(crate) fn allows(&self, keys: &ScanKeys<'_>) -> bool
        ensures answer { result ≡ column_allows keys.now self.now }
        ensures misses_no_match { result ≡ false → (row : List Value) → ColumnIncludes row self.now → list_all (column_matches row) keys.now ≡ false }
    {
        match keys.of(self.place) {
            Some(asked) => self.allows_asked(asked),
            None => true,
        }
    }

    /// The same of conditions that aren't gathered, at most sixteen. They are gathered here where some are on the column, and not
    /// all compare and are on it.
    pub(crate) fn allows_each(&self, conds: &[Cond]) -> bool
        requires { length conds.now ≤ MAX_CONDITIONS }
        ensures answer { result ≡ column_allows conds.now self.now }
        ensures misses_no_match { result ≡ false → (row : List Value) → ColumnIncludes row self.now → list_all (column_matches row) conds.now ≡ false }
    {
        if !is_on_one(self.place, conds) {
            return true;
        }
        match asked_alone(self.place, conds) {
            Some(asked) => self.allows_asked(asked),
            None => self.allows(&ScanKeys::new(conds)),
        }
    }

    /// Whether the column allows the conditions of which this is asked.
    fn allows_asked(&self, asked: Asked<'_>) -> bool
        requires { AllCompare asked.comparisons.now }
        ensures answer { (conds : List Cond) → IsAsked self.now.place conds asked.entry.comparisons.now asked.entry.nulls asked.entry.values → result ≡ column_allows conds self.now }
        ensures misses_no_match { result ≡ false → (conds : List Cond) → IsAsked self.now.place conds asked.entry.comparisons.now asked.entry.nulls asked.entry.values → (row : List Value) → ColumnIncludes row self.now → list_all (column_matches row) conds ≡ false }
    {
        let may_match = self.may_match(asked.comparisons);
        may_match && self.has_asked(asked.nulls, asked.values)
    }

    /// Whether no comparison is asked, or the summary may include a value that meets each.
    fn may_match(&self, asked: &[Cond]) -> bool
        requires { AllCompare asked.now }
        ensures answer { result ≡ ((length asked.now == 0) || (has_values self.now.state && consistent self.now.class self.now.summary asked.now)) }
        ensures misses_no_match { result ≡ false → has_values self.now.state ≡ true → (v : Value) → includes self.now.class self.now.summary v → meets_all asked.now v ≡ false }
    {
        asked.is_empty() || (self.state.has_values() && self.class.consistent(&self.summary, asked))
    }

    /// Whether nulls and values were added, each where it is asked for.
    fn has_asked(&self, nulls: bool, values: bool) -> bool
        ensures { result ≡ has_asked self.now.state nulls values }
    {
        (!nulls || self.state.has_nulls()) && (!values || self.state.has_values())
    }

    /// How many bytes the column has at most.
    pub(crate) fn room(&self) -> usize
        ensures { result ≡ column_room self.now }
    {
        COLUMN_HEADER + self.class.greatest_size()
    }

    /// Writes the bytes of the summary to the front of `out`, none where there are no values, and answers how many they are.
    pub(crate) fn write_summary(&self, out: &mut [u8]) -> u16
        requires { greatest_size self.now.class ≤ length out.old }
        ensures size { result ≡ length (summary_bytes self.now) }
        ensures within { result ≤ greatest_size self.now.class }
        ensures written { out.new ≡ summary_bytes self.now ++ drop result out.old }
    {
        if !self.state.has_values() {
            return 0;
        }
        self.class.encode(&self.summary, out) as u16
    }

    /// Takes the summary of no value, whose bytes are given, in a state without values.
    pub(crate) fn clear(&mut self, state: NullState, blank: &[u8])
        requires no_values { has_values state ≡ false }
        requires blank { IsBlankOf self.old.class blank.now }
        ensures { self.new ≡ record self.old { state = state; summary = empty self.old.class } }
    {
        // These bytes are a summary's, so they are always read.
        let _ = self.class.decode(blank, &mut self.summary);
        self.state = state;
    }

    /// Takes the summary that the bytes encode, in a state with values.
    pub(crate) fn read_values(&mut self, state: NullState, bytes: &[u8]) -> Result<(), Malformed>
        requires values { has_values state ≡ true }
        requires some { 0 < length bytes.now }
        ensures same_part { part_of self.new ≡ part_of self.old }
        ensures state { OnOk result (self.new.state ≡ state) }
        ensures found { OnOk result (bytes.now ≡ bytes_of self.new.class self.new.summary) }
        ensures read { MatchResult result (λ ok. read_of self.old.class bytes.now ≡ Ok self.new.summary) (λ fault. read_of self.old.class bytes.now ≡ Err fault.at) }
        ensures within { IfErr result (λ fault. fault.at ≤ length bytes.now) }
    {
        self.class.decode(bytes, &mut self.summary)?;
        self.state = state;
        Ok(())
    }
}
