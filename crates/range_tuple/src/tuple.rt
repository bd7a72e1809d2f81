//! Range tuples.

ghost use Rattle.std.specs.Prelude.{◌≡◌, ◌≢◌, ◌<◌, ◌≤◌, ◌++◌, true, false, List, length, drop, Some, Ok, Err, IfOk, IsOk, OnOk, OnErr, IfErr, MatchResult};
ghost use Rattle.block_model.specs.declared.limits.TheConstants.{MAX_CONDITIONS, MAX_TUPLE};
ghost use Rattle.std.specs.List.{list_all};
ghost use Rattle.block_model.specs.declared.value.Value.{Value};
ghost use Rattle.block_model.specs.IndexedColumns.{columns_of};
ghost use Rattle.block_model.specs.ClassLimits.{class_is_lawful};
ghost use Rattle.block_model.specs.RowMatches.{column_matches};
ghost use Rattle.block_model.specs.TupleSize.{tuple_size};
ghost use Rattle.range_tuple.specs.Judged.{IsJudged};
ghost use Rattle.range_tuple.specs.Keeps.{keeps};
ghost use Rattle.range_tuple.specs.TupleBytes.{tuple_bytes};
ghost use Rattle.range_tuple.specs.TupleIncludes.{TupleIncludes, TupleTakesRow};
ghost use Rattle.range_tuple.specs.TupleReading.{read_of, tuple_in};
ghost use Rattle.range_tuple.specs.Tuples.{Tuple, IsTuple, empty_placeholder, restarted, with_row, united_tuple, parts_of, tuple_of, tuple_room};

use crate::columns::{keep, read_each};
use crate::head::head_fault;
use crate::listed::ListedTuple;
use crate::scan_keys::ScanKeys;
use crate::spare::SpareColumn;
use block_model::{Cond, Index, NoMemory, Schema, Value};
use byte_fields::get_u32;
use opclass_api::Malformed;
use std::alloc::Global;
use std::boxed::BoxedSlice;
use std::marker::Model;

/// What an index keeps of a range of blocks ("BRIN Indexes"). Seen as the number of the range, whether it is a placeholder,
/// whether no row was added, and the indexed columns: of each its number in the table, its class, which of nulls and
/// values rows had there, and the summary of the values. It is made once an index and then read from the bytes of one
/// tuple after the other: `spare` has the columns that are read, `scratch` room for the bytes of a tuple. All of it stands in
/// boxes that can't grow: no call but `new` takes memory.
#[derive(Debug, Drop)]
pub struct RangeTuple {
    tuple: ListedTuple,
    spare: BoxedSlice<SpareColumn>,
    scratch: BoxedSlice<u8>,
}

impl Model for RangeTuple {
    ghost use Rattle.range_tuple.specs.Tuples.{Tuple};
    ghost use Rattle.range_tuple.specs.KeptColumns.{CanBeRead};
    ghost use Rattle.std.specs.Box.{boxed_slice_items};

    ghost Value = { Tuple };

    ghost view = { λ a. a.tuple };

    ghost invariant = { λ a. CanBeRead a.tuple (boxed_slice_items a.spare) (boxed_slice_items a.scratch) };
}

impl RangeTuple {
    /// The placeholder of a range to which no row was added, for an index of a declared table within the limits. Takes all
    /// the memory that the tuple ever needs.
    pub fn new(
        alloc: Global,
        index: &Index,
        schema: &Schema,
        range: u32,
    ) -> Result<RangeTuple, NoMemory>
        requires columns { 0 < length index.now.parts }
        requires classes { list_all (class_is_lawful (columns_of schema.now index.now)) index.now.parts ≡ true }
        requires size { tuple_size (columns_of schema.now index.now) index.now.parts ≤ MAX_TUPLE }
        ensures placeholder { IfOk result (λ t. t ≡ empty_placeholder range (columns_of schema.now index.now) index.now.parts) }
        ensures room { IfOk result (λ t. tuple_room t.columns ≡ tuple_size (columns_of schema.now index.now) index.now.parts) }
    {
        let tuple = ListedTuple::new(alloc, index, schema, range)?;
        let spare = tuple.new_spare(alloc)?;
        let scratch = vec![in alloc; 0u8; tuple.greatest_size()]?;
        Ok(RangeTuple {
            tuple,
            spare,
            scratch: scratch.into_boxed_slice(),
        })
    }

    /// Does nothing; tells its caller that every tuple is one, that it has a column, and that its bytes fit a page.
    pub fn known(&self)
        ensures tuple { IsTuple self.now }
        ensures some { 0 < length self.now.columns }
        ensures fits { tuple_room self.now.columns ≤ MAX_TUPLE }
    {
        self.tuple.known();
    }

    /// Does nothing; tells its caller that the bytes of a tuple of the index are read as it, so tuples with the same bytes are
    /// one.
    pub fn one_tuple(&self)
        ensures read { (t : Tuple) → IsTuple t → parts_of t.columns ≡ parts_of self.now.columns → tuple_in (parts_of self.now.columns) (tuple_bytes t) ≡ Some t }
        ensures one { (t u : Tuple) → IsTuple t → IsTuple u → parts_of t.columns ≡ parts_of self.now.columns → parts_of u.columns ≡ parts_of self.now.columns → tuple_bytes t ≡ tuple_bytes u → t ≡ u }
    {
        self.tuple.known_classes();
    }

    /// Does nothing; tells its caller that the bytes of a tuple of the index fit its greatest size.
    pub fn bytes_fit(&self)
        ensures { (t : Tuple) → IsTuple t → parts_of t.columns ≡ parts_of self.now.columns → length (tuple_bytes t) ≤ tuple_room t.columns }
    {
        self.tuple.known_classes();
    }

    /// The number of its range.
    pub fn range(&self) -> u32
        ensures { result ≡ self.now.range }
    {
        self.tuple.range()
    }

    /// Whether it is a placeholder, and not final.
    pub fn is_placeholder(&self) -> bool
        ensures { result ≡ self.now.placeholder }
    {
        self.tuple.is_placeholder()
    }

    /// Adds a row; answers whether the tuple changed. Takes no memory.
    pub fn add_row(&mut self, values: &[Value]) -> bool
        requires { TupleTakesRow self.old values.now }
        ensures widened { self.new ≡ with_row values.now self.old }
        ensures includes_the_row { TupleIncludes self.new values.now }
        ensures keeps_what_it_included { (row : List Value) → TupleIncludes self.old row → TupleIncludes self.new row }
        ensures same { result ≡ false → self.new ≡ self.old }
        ensures changed { result ≡ true → self.new ≢ self.old }
        ensures same_index { parts_of self.new.columns ≡ parts_of self.old.columns }
    {
        self.tuple.add_row(values)
    }

    /// Takes in what another tuple of the index has; answers whether the tuple changed. The range's number and the
    /// placeholder flag stay. Takes no memory.
    pub fn unite(&mut self, other: &RangeTuple) -> bool
        requires { parts_of other.now.columns ≡ parts_of self.old.columns }
        ensures widened { self.new ≡ united_tuple self.old other.now }
        ensures keeps_what_it_included { (row : List Value) → TupleIncludes self.old row → TupleIncludes self.new row }
        ensures includes_the_others { (row : List Value) → TupleIncludes other.now row → TupleIncludes self.new row }
        ensures same { result ≡ false → self.new ≡ self.old }
        ensures changed { result ≡ true → self.new ≢ self.old }
        ensures same_index { parts_of self.new.columns ≡ parts_of self.old.columns }
    {
        self.tuple.unite(&other.tuple)
    }

    /// Makes the tuple final: no placeholder any more.
    pub fn settle(&mut self)
        ensures { self.new ≡ record self.old { placeholder = false } }
    {
        self.tuple.settle();
    }

    /// Makes the tuple the empty placeholder of another range of the index. Takes no memory.
    pub fn restart(&mut self, range: u32)
        ensures restarted { self.new ≡ restarted range self.old }
        ensures same_index { parts_of self.new.columns ≡ parts_of self.old.columns }
    {
        self.tuple.restart(range, &self.spare);
    }

    /// Makes the tuple the same as another of the index. Takes no memory.
    pub fn copy_from(&mut self, other: &RangeTuple)
        requires { parts_of other.now.columns ≡ parts_of self.old.columns }
        ensures { self.new ≡ other.now }
    {
        other.known();
        let size = other.encode(&mut self.scratch);
        // These bytes are a tuple's of the index, so they are always read.
        let _ = read(&mut self.tuple, &mut self.spare, &self.scratch[..size]);
    }

    /// Whether the range may hold a row that matches the conditions of a scan, which were gathered once for all tuples. A tuple that
    /// doesn't keep them is final, and includes no row that matches them all. Takes no memory.
    pub fn keeps_by(&self, keys: &ScanKeys<'_>) -> bool
        ensures answer { result ≡ keeps self.now keys.now }
        ensures misses_no_match { result ≡ false → (row : List Value) → TupleIncludes self.now row → list_all (column_matches row) keys.now ≡ false }
    {
        self.tuple.keeps_by(keys)
    }

    /// Writes the bytes of the tuple to the front of `out`, and answers how many they are. Takes no memory.
    pub fn encode(&self, out: &mut [u8]) -> usize
        requires room { tuple_room self.now.columns ≤ length out.old }
        ensures size { result ≡ length (tuple_bytes self.now) }
        ensures within { result ≤ tuple_room self.now.columns }
        ensures written { out.new ≡ tuple_bytes self.now ++ drop result out.old }
    {
        self.tuple.encode(out)
    }

    /// Makes the tuple the one that the bytes encode. `Err` exactly where they encode no tuple of this index, with the place
    /// of the first field that can't stand behind the fields before it, or the length of the bytes where some are missing:
    /// the tuple is unchanged then. Takes no memory.
    pub fn decode(&mut self, bytes: &[u8]) -> Result<(), Malformed>
        ensures same_index { parts_of self.new.columns ≡ parts_of self.old.columns }
        ensures found { OnOk result (bytes.now ≡ tuple_bytes self.new) }
        ensures again { (t : Tuple) → IsTuple t → parts_of t.columns ≡ parts_of self.old.columns → bytes.now ≡ tuple_bytes t → IsOk result × (self.new ≡ t) }
        ensures read { MatchResult result (λ ok. read_of (parts_of self.old.columns) bytes.now ≡ Ok self.new) (λ fault. read_of (parts_of self.old.columns) bytes.now ≡ Err fault.at) }
        ensures within { IfErr result (λ fault. fault.at ≤ length bytes.now) }
        ensures unchanged { OnErr result (self.new ≡ self.old) }
    {
        read(&mut self.tuple, &mut self.spare, bytes)
    }

    /// Whether the tuple that the bytes encode keeps the conditions, which are at most sixteen: its range may hold a row that matches
    /// them. `Err` exactly where they encode no tuple of this index, as for `decode`. The tuple itself stays. Takes no memory.
    pub fn judge(&mut self, bytes: &[u8], conds: &[Cond]) -> Result<bool, Malformed>
        requires { length conds.now ≤ MAX_CONDITIONS }
        ensures judged { IfOk result (IsJudged (parts_of self.old.columns) bytes.now conds.now) }
        ensures refused { IfErr result (λ fault. read_of (parts_of self.old.columns) bytes.now ≡ Err fault.at) }
        ensures same { self.new ≡ self.old }
    {
        judge(&self.tuple, &mut self.spare, bytes, conds)
    }

    /// How many bytes the tuple has at most.
    pub fn greatest_size(&self) -> usize
        ensures size { result ≡ tuple_room self.now.columns }
        ensures fits { result ≤ MAX_TUPLE }
    {
        self.tuple.greatest_size()
    }
}

/// Makes the tuple the one that the bytes encode, by columns of its index that are read.
fn read(tuple: &mut ListedTuple, spare: &mut [SpareColumn], bytes: &[u8]) -> Result<(), Malformed>
    requires { parts_of spare.old ≡ parts_of tuple.old.columns }
    ensures same_index { parts_of tuple.new.columns ≡ parts_of tuple.old.columns }
    ensures same_spare { parts_of spare.new ≡ parts_of spare.old }
    ensures found { OnOk result (bytes.now ≡ tuple_bytes tuple.new) }
    ensures again { (t : Tuple) → IsTuple t → parts_of t.columns ≡ parts_of tuple.old.columns → bytes.now ≡ tuple_bytes t → IsOk result × (tuple.new ≡ t) }
    ensures read { MatchResult result (λ ok. read_of (parts_of tuple.old.columns) bytes.now ≡ Ok tuple.new) (λ fault. read_of (parts_of tuple.old.columns) bytes.now ≡ Err fault.at) }
    ensures within { IfErr result (λ fault. fault.at ≤ length bytes.now) }
    ensures unchanged { OnErr result (tuple.new ≡ tuple.old) }
{
    tuple.known();
    tuple.known_classes();
    match read_columns(spare, bytes) {
        Ok(head) => {
            tuple.exchange(head.range, head.placeholder, spare);
            Ok(())
        }
        Err(fault) => Err(fault),
    }
}

/// Whether the tuple that the bytes encode keeps the conditions, by columns of the index that are read.
fn judge(
    tuple: &ListedTuple,
    spare: &mut [SpareColumn],
    bytes: &[u8],
    conds: &[Cond],
) -> Result<bool, Malformed>
    requires index { parts_of spare.old ≡ parts_of tuple.now.columns }
    requires few { length conds.now ≤ MAX_CONDITIONS }
    ensures same_spare { parts_of spare.new ≡ parts_of spare.old }
    ensures judged { IfOk result (IsJudged (parts_of tuple.now.columns) bytes.now conds.now) }
    ensures refused { IfErr result (λ fault. read_of (parts_of tuple.now.columns) bytes.now ≡ Err fault.at) }
{
    tuple.known_columns();
    match read_columns(spare, bytes) {
        Ok(head) => Ok(keep(head.placeholder, spare, conds)),
        Err(fault) => Err(fault),
    }
}

/// What stands before the columns of a tuple.
#[derive(Clone, Copy)]
struct Head {
    range: u32,
    placeholder: bool,
}

/// Makes the columns those of the tuple that the bytes encode, and answers its head.
fn read_columns(spare: &mut [SpareColumn], bytes: &[u8]) -> Result<Head, Malformed>
    requires some { 0 < length spare.old }
    requires few { length spare.old < 65536 }
    ensures same_index { parts_of spare.new ≡ parts_of spare.old }
    ensures found { IfOk result (λ head. bytes.now ≡ tuple_bytes (tuple_of head.range head.placeholder spare.new)) }
    ensures read { MatchResult result (λ head. read_of (parts_of spare.old) bytes.now ≡ Ok (tuple_of head.range head.placeholder spare.new)) (λ fault. read_of (parts_of spare.old) bytes.now ≡ Err fault.at) }
    ensures within { IfErr result (λ fault. fault.at ≤ length bytes.now) }
{
    if let Some(at) = head_fault(bytes, spare.len()) {
        return Err(Malformed { at });
    }
    match read_each(spare, bytes) {
        Ok(()) => {}
        Err(fault) => return Err(fault),
    }
    let flags = bytes[4];
    Ok(Head {
        range: get_u32(bytes, 0),
        placeholder: (flags == 1) | (flags == 3),
    })
}
