//! Range tuples in a list.

ghost use Rattle.std.specs.Prelude.{◌≡◌, ◌≢◌, ◌<◌, ◌≤◌, ◌++◌, true, false, All, List, length, drop, IfOk};
ghost use Rattle.block_model.specs.declared.limits.TheConstants.{MAX_TUPLE};
ghost use Rattle.std.specs.Box.{boxed_slice_items};
ghost use Rattle.std.specs.List.{list_all};
ghost use Rattle.block_model.specs.declared.value.Value.{Value};
ghost use Rattle.block_model.specs.IndexedColumns.{columns_of};
ghost use Rattle.block_model.specs.ClassLimits.{class_is_lawful};
ghost use Rattle.block_model.specs.RowMatches.{column_matches};
ghost use Rattle.block_model.specs.TupleSize.{tuple_size};
ghost use Rattle.range_tuple.specs.Keeps.{keeps};
ghost use Rattle.range_tuple.specs.KeptColumns.{ReadsAgain};
ghost use Rattle.range_tuple.specs.TupleBytes.{tuple_bytes, flags_of};
ghost use Rattle.range_tuple.specs.TupleIncludes.{TupleIncludes, TupleTakesRow};
ghost use Rattle.range_tuple.specs.Tuples.{IsTuple, empty_placeholder, restarted, tuple_of, with_row, united_tuple, parts_of, tuple_room};

use crate::column::TupleColumn;
use crate::columns::{
    add_to_each, all_allow, empty_out_each, exchange_each, have_nothing, known, new_columns,
    new_spare, room_of, unite_each, write_each,
};
use crate::head::HEADER;
use crate::scan_keys::ScanKeys;
use crate::spare::SpareColumn;
use block_model::{Index, NoMemory, Schema, Value};
use byte_fields::put_u32;
use std::alloc::Global;
use std::boxed::BoxedSlice;
use std::marker::Model;

/// What an index keeps of a range of blocks ("BRIN Indexes"), in a list of ranges: it takes the memory of its summaries and
/// no more, so it isn't read from bytes. Seen as a `RangeTuple` is. Its columns stand in a box that can't grow.
#[derive(Debug, Drop)]
pub struct ListedTuple {
    range: u32,
    placeholder: bool,
    columns: BoxedSlice<TupleColumn>,
}

impl Model for ListedTuple {
    ghost use Rattle.range_tuple.specs.Tuples.{Tuple, tuple_of};
    ghost use Rattle.range_tuple.specs.KeptColumns.{AreKept};
    ghost use Rattle.std.specs.Box.{boxed_slice_items};

    ghost Value = { Tuple };

    ghost view = { λ a. tuple_of a.range a.placeholder (boxed_slice_items a.columns) };

    ghost invariant = { λ a. AreKept a.range (boxed_slice_items a.columns) };
}

impl ListedTuple {
    /// The placeholder of a range to which no row was added, for an index of a declared table within the limits. Takes all
    /// the memory that the tuple ever needs.
    pub fn new(
        alloc: Global,
        index: &Index,
        schema: &Schema,
        range: u32,
    ) -> Result<ListedTuple, NoMemory>
        requires columns { 0 < length index.now.parts }
        requires classes { list_all (class_is_lawful (columns_of schema.now index.now)) index.now.parts ≡ true }
        requires size { tuple_size (columns_of schema.now index.now) index.now.parts ≤ MAX_TUPLE }
        ensures placeholder { IfOk result (λ t. t ≡ empty_placeholder range (columns_of schema.now index.now) index.now.parts) }
        ensures room { IfOk result (λ t. tuple_room t.columns ≡ tuple_size (columns_of schema.now index.now) index.now.parts) }
    {
        let columns = new_columns(alloc, index, schema)?;
        Ok(ListedTuple {
            range,
            placeholder: true,
            columns,
        })
    }

    /// Does nothing; tells its caller that every tuple is one, that it has a column, and that its bytes fit a page.
    pub fn known(&self)
        ensures tuple { IsTuple self.now }
        ensures some { 0 < length self.now.columns }
        ensures fits { tuple_room self.now.columns ≤ MAX_TUPLE }
    {
        known(&self.columns);
    }

    /// Does nothing; tells its caller that every tuple has a column, and that its bytes fit a page.
    pub(crate) fn known_columns(&self)
        ensures some { 0 < length self.now.columns }
        ensures fits { tuple_room self.now.columns ≤ MAX_TUPLE }
    {
        let _ = &self.columns;
    }

    /// Does nothing; tells its caller what the class of each column knows of bytes.
    pub(crate) fn known_classes(&self)
        ensures { All ReadsAgain self.now.columns }
    {
        known(&self.columns);
    }

    /// The number of its range.
    pub fn range(&self) -> u32
        ensures { result ≡ self.now.range }
    {
        self.range
    }

    /// Whether it is a placeholder, and not final.
    pub fn is_placeholder(&self) -> bool
        ensures { result ≡ self.now.placeholder }
    {
        self.placeholder
    }

    /// Adds a row; answers whether the tuple changed. Takes no memory.
    pub fn add_row(&mut self, values: &[Value]) -> bool
        requires { TupleTakesRow self.old values.now }
        ensures widened { self.new ≡ with_row values.now self.old }
        ensures includes_the_row { TupleIncludes self.new values.now }
        ensures keeps_what_it_included { (row : List Value) → TupleIncludes self.old row → TupleIncludes self.new row }
        ensures same { result ≡ false → self.new ≡ self.old }
        ensures changed { result ≡ true → self.new ≢ self.old }
        ensures same_index { parts_of self.new.columns ≡ parts_of self.old.columns }
    {
        add_to_each(&mut self.columns, values)
    }

    /// Takes in what another tuple of the index has; answers whether the tuple changed. The range's number and the
    /// placeholder flag stay. Takes no memory.
    pub fn unite(&mut self, other: &ListedTuple) -> bool
        requires { parts_of other.now.columns ≡ parts_of self.old.columns }
        ensures widened { self.new ≡ united_tuple self.old other.now }
        ensures keeps_what_it_included { (row : List Value) → TupleIncludes self.old row → TupleIncludes self.new row }
        ensures includes_the_others { (row : List Value) → TupleIncludes other.now row → TupleIncludes self.new row }
        ensures same { result ≡ false → self.new ≡ self.old }
        ensures changed { result ≡ true → self.new ≢ self.old }
        ensures same_index { parts_of self.new.columns ≡ parts_of self.old.columns }
    {
        unite_each(&mut self.columns, &other.columns)
    }

    /// Makes the tuple final: no placeholder any more.
    pub fn settle(&mut self)
        ensures { self.new ≡ record self.old { placeholder = false } }
    {
        self.placeholder = false;
    }

    /// Whether the range may hold a row that matches the conditions of a scan. A tuple that doesn't keep them is final, and
    /// includes no row that matches them all. Takes no memory.
    pub fn keeps_by(&self, keys: &ScanKeys<'_>) -> bool
        ensures answer { result ≡ keeps self.now keys.now }
        ensures misses_no_match { result ≡ false → (row : List Value) → TupleIncludes self.now row → list_all (column_matches row) keys.now ≡ false }
    {
        if self.placeholder {
            return true;
        }
        !have_nothing(&self.columns) && all_allow(&self.columns, keys)
    }

    /// Writes the bytes of the tuple to the front of `out`, and answers how many they are. Takes no memory.
    pub fn encode(&self, out: &mut [u8]) -> usize
        requires room { tuple_room self.now.columns ≤ length out.old }
        ensures size { result ≡ length (tuple_bytes self.now) }
        ensures within { result ≤ tuple_room self.now.columns }
        ensures written { out.new ≡ tuple_bytes self.now ++ drop result out.old }
    {
        let size = write_each(&self.columns, &mut out[HEADER..]);
        put_u32(out, 0, self.range);
        out[4] = flags_of(self.placeholder, have_nothing(&self.columns));
        HEADER + size
    }

    /// How many bytes the tuple has at most.
    pub fn greatest_size(&self) -> usize
        ensures size { result ≡ tuple_room self.now.columns }
        ensures fits { result ≤ MAX_TUPLE }
    {
        HEADER + room_of(&self.columns)
    }

    /// Columns of its index to be read. Takes the memory of their summaries.
    pub(crate) fn new_spare(&self, alloc: Global) -> Result<BoxedSlice<SpareColumn>, NoMemory>
        ensures { IfOk result (λ spare. parts_of (boxed_slice_items spare) ≡ parts_of self.now.columns) }
    {
        let spare = new_spare(alloc, &self.columns)?;
        Ok(spare)
    }

    /// Becomes the tuple of the columns that were read.
    pub(crate) fn exchange(&mut self, range: u32, placeholder: bool, spare: &mut [SpareColumn])
        requires { parts_of self.old.columns ≡ parts_of spare.old }
        ensures taken { self.new ≡ tuple_of range placeholder spare.old }
        ensures given { spare.new ≡ self.old.columns }
    {
        exchange_each(&mut self.columns, spare);
        self.range = range;
        self.placeholder = placeholder;
    }

    /// Becomes the empty placeholder of another range.
    pub(crate) fn restart(&mut self, range: u32, spare: &[SpareColumn])
        requires { parts_of self.old.columns ≡ parts_of spare.now }
        ensures restarted { self.new ≡ restarted range self.old }
        ensures same_index { parts_of self.new.columns ≡ parts_of self.old.columns }
    {
        empty_out_each(&mut self.columns, spare);
        self.range = range;
        self.placeholder = true;
    }
}

/// Bit 0 of the flags says placeholder, and bit 1 empty.
fn flags_of(placeholder: bool, empty: bool) -> u8
    ensures { result ≡ flags_of placeholder empty }
{
    u8::from(placeholder) + 2 * u8::from(empty)
}
