//! A column of a tuple to be read from bytes.

ghost use Rattle.std.specs.Prelude.{◌≡◌, ◌<◌, ◌≤◌, true, false, List, length, take, Ok, Err, IfOk, IfErr, OnOk, MatchResult};
ghost use Rattle.std.specs.List.{list_all};
ghost use Rattle.block_model.specs.declared.limits.TheConstants.{MAX_CONDITIONS};
ghost use Rattle.block_model.specs.declared.value.Value.{Value};
ghost use Rattle.block_model.specs.RowMatches.{column_matches};
ghost use Rattle.range_tuple.specs.Keeps.{column_allows};
ghost use Rattle.range_tuple.specs.KeptColumns.{IsReadAgain};
ghost use Rattle.range_tuple.specs.NullStates.{has_values};
ghost use Rattle.range_tuple.specs.TupleBytes.{summary_bytes};
ghost use Rattle.range_tuple.specs.TupleIncludes.{ColumnIncludes};
ghost use Rattle.range_tuple.specs.TupleReading.{summary_in};
ghost use Rattle.range_tuple.specs.Tuples.{IsColumn, emptied, has_nothing, part_of};
ghost use Rattle.range_tuple.specs.declared.state.NullState.{NullState};

use crate::column::TupleColumn;
use crate::state::NullState;
use block_model::{Cond, NoMemory};
use opclass_api::Malformed;
use std::alloc::Global;
use std::boxed::BoxedSlice;
use std::marker::Model;
use std::mem;

/// A column that is read before it takes the place of a tuple's, so that a fault leaves the tuple as it was. `blank` has the
/// bytes of the summary of no value, by which a summary is made that one again without memory.
#[derive(Debug, Drop)]
pub(crate) struct SpareColumn {
    column: TupleColumn,
    blank: BoxedSlice<u8>,
}

impl Model for SpareColumn {
    ghost use Rattle.range_tuple.specs.Tuples.{IndexedColumn};
    ghost use Rattle.range_tuple.specs.KeptColumns.{IsBlankOf};
    ghost use Rattle.std.specs.Box.{boxed_slice_items};

    ghost Value = { IndexedColumn };

    ghost view = { λ a. a.column };

    ghost invariant = { λ a. IsBlankOf a.column.class (boxed_slice_items a.blank) };
}

impl SpareColumn {
    /// A column to be read in place of that one. Takes the memory of its summary, and of the bytes of the summary of no value.
    pub(crate) fn of(alloc: Global, column: &TupleColumn) -> Result<SpareColumn, NoMemory>
        ensures { IfOk result (λ spare. spare ≡ emptied column.now) }
    {
        let column = column.another(alloc)?;
        let blank = column.encoded(alloc)?;
        Ok(SpareColumn {
            column,
            blank: blank.into_boxed_slice(),
        })
    }

    /// Does nothing; tells its caller that every column is one, and what its class knows of bytes.
    pub(crate) fn known(&self)
        ensures column { IsColumn self.now }
        ensures class { IsReadAgain self.now.class }
    {
        self.column.known();
    }

    /// Whether nothing was added.
    pub(crate) fn has_nothing(&self) -> bool
        ensures { result ≡ has_nothing self.now }
    {
        self.column.has_nothing()
    }

    /// Whether the column allows each of these conditions, which are at most sixteen. One that doesn't includes no row that
    /// matches them.
    pub(crate) fn allows_each(&self, conds: &[Cond]) -> bool
        requires { length conds.now ≤ MAX_CONDITIONS }
        ensures answer { result ≡ column_allows conds.now self.now }
        ensures misses_no_match { result ≡ false → (row : List Value) → ColumnIncludes row self.now → list_all (column_matches row) conds.now ≡ false }
    {
        self.column.allows_each(conds)
    }

    /// Makes the column one in that state, with the summary whose length is given and whose bytes are the first of these.
    /// `Err` exactly where they begin with none: at the place of the class, or at the end of the bytes where they are too few.
    pub(crate) fn read(
        &mut self,
        state: NullState,
        size: usize,
        bytes: &[u8],
    ) -> Result<(), Malformed>
        requires values { has_values state ≡ true → 0 < size }
        requires no_values { has_values state ≡ false → size ≡ 0 }
        ensures same_part { part_of self.new ≡ part_of self.old }
        ensures state { OnOk result (self.new.state ≡ state) }
        ensures within { OnOk result (size ≤ length bytes.now) }
        ensures found { OnOk result (take size bytes.now ≡ summary_bytes self.new) }
        ensures read { MatchResult result (λ ok. summary_in self.old.class state size bytes.now ≡ Ok self.new.summary) (λ fault. summary_in self.old.class state size bytes.now ≡ Err fault.at) }
        ensures place { IfErr result (λ fault. fault.at ≤ length bytes.now) }
    {
        if !state.has_values() {
            self.column.clear(state, &self.blank);
            return Ok(());
        }
        if bytes.is_empty() {
            return Err(Malformed { at: 0 });
        }
        let there = &bytes[..size.min(bytes.len())];
        self.column.read_values(state, there)?;
        if bytes.len() < size {
            return Err(Malformed { at: bytes.len() });
        }
        Ok(())
    }

    /// Takes a tuple's column, and gives its own: both of one part of an index.
    pub(crate) fn exchange(&mut self, column: &mut TupleColumn)
        requires { part_of column.old ≡ part_of self.old }
        ensures taken { self.new ≡ column.old }
        ensures given { column.new ≡ self.old }
    {
        mem::swap(&mut self.column, column);
    }

    /// Makes a tuple's column, of the same part of an index, one in which nothing was added.
    pub(crate) fn empty_out(&self, column: &mut TupleColumn)
        requires { part_of column.old ≡ part_of self.now }
        ensures { column.new ≡ emptied column.old }
    {
        column.clear(NullState::Nothing, &self.blank);
    }
}
