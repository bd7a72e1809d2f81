//! The indexes of a table, each with room for one of its tuples.

ghost use Rattle.std.specs.Prelude.{◌≡◌, ◌≤◌, ◌++◌, ◌∷◌, [], IfOk, IfSome, OnOk};
ghost use Rattle.std.specs.Box.{boxed_slice_items};
ghost use Rattle.block_model.specs.declared.schema.Class.TheVariants.{MinMax};
ghost use Rattle.bitmap_scan.specs.IndexReaders.{scanned_if, scanned_in};
ghost use Rattle.bitmap_scan.specs.ReadableIndexes.{AreReadable, IsReadable};
ghost use Rattle.bitmap_scan.specs.ScanHands.{scanned_indexes};
ghost use Rattle.index_steps.specs.IndexTuples.{keeps_conds};
ghost use Rattle.range_tuple.specs.TupleReading.{tuple_in};
ghost use Rattle.range_tuple.specs.Tuples.{parts_of};
ghost use Rattle.kept_tuples.specs.MinMaxTuples.{Tells};
ghost use Rattle.summary_directory.specs.JudgedBlocks.{keeps_cell};
ghost use Rattle.summary_directory.specs.KnownBounds.{IsWantedOf, ReadsAgain};

use block_model::{Class, Cond, Index, NoMemory, Part, Schema};
use kept_tuples::{Bounds, TupleBytes, Wanted};
use range_tuple::{RangeTuple, ScanKeys};
use std::alloc::Global;
use std::boxed::BoxedSlice;
use std::marker::Model;
use store_layout::Layout;

/// An index, with room for a tuple of it, and the column that it is on, if that is one alone and its class minmax. Seen as its number among all,
/// the heap blocks of its ranges, and its columns with their classes.
#[derive(Debug, Drop)]
pub struct Judge {
    number: u8,
    pages_per_range: u32,
    tuple: RangeTuple,
    minmax: Option<u8>,
}

impl Model for Judge {
    ghost use Rattle.std.specs.Prelude.{◌≤◌};
    ghost use Rattle.bitmap_scan.specs.ScanHands.{ScannedIndex};
    ghost use Rattle.range_tuple.specs.Tuples.{parts_of};
    ghost use Rattle.summary_directory.specs.KnownBounds.{IsOnMinMax};

    ghost Value = { ScannedIndex };

    ghost view = { λ a. record { number = a.number; pages_per_range = a.pages_per_range; classes = parts_of a.tuple.columns } };

    ghost invariant = { λ a. (1 ≤ a.pages_per_range) × IsOnMinMax (parts_of a.tuple.columns) a.minmax };
}

impl Judge {
    /// The index of that number. Takes the memory of a tuple.
    fn of(alloc: Global, index: &Index, schema: &Schema, number: u8) -> Result<Judge, NoMemory>
        requires { IsReadable schema.now index.now }
        ensures { IfOk result (λ judge. judge ≡ scanned_in schema.now number index.now) }
    {
        let tuple = RangeTuple::new(alloc, index, schema, 0)?;
        Ok(Judge {
            number,
            pages_per_range: index.pages_per_range,
            tuple,
            minmax: minmax_in(index.parts.as_slice()),
        })
    }

    /// Its number among all indexes.
    pub(crate) fn number(&self) -> u8
        ensures { result ≡ self.now.number }
    {
        self.number
    }

    /// The heap blocks of a range.
    pub(crate) fn pages_per_range(&self) -> u32
        ensures pages { result ≡ self.now.pages_per_range }
        ensures some { 1 ≤ result }
    {
        self.pages_per_range
    }

    /// What the conditions want of the index's column, if that is one alone and its class minmax.
    pub(crate) fn wanted(&self, conds: &[Cond]) -> Option<Wanted>
        ensures { IsWantedOf self.now.classes conds.now result }
    {
        match self.minmax {
            Some(place) => Some(Wanted::of(place, conds)),
            None => None,
        }
    }

    /// Whether a range with this tuple, or with none, is kept, by what is known of it and what is wanted, if that tells. Takes no memory.
    pub(crate) fn keeps_range(
        &mut self,
        bounds: Bounds,
        tuple: &Option<TupleBytes>,
        wanted: Option<Wanted>,
        keys: &ScanKeys<'_>,
    ) -> bool
        requires bounds { Tells bounds tuple.now }
        requires wanted { IsWantedOf self.old.classes keys.now wanted }
        ensures answer { result ≡ keeps_cell self.old.classes keys.now tuple.now }
        ensures same { self.new ≡ self.old }
    {
        let Some(wanted) = wanted else {
            return self.keeps(tuple, keys);
        };
        match bounds {
            Bounds::Unknown => self.keeps(tuple, keys),
            Bounds::MinMax {
                nulls,
                least,
                greatest,
            } => {
                self.reads_again();
                wanted.may_be_in(nulls, least, greatest)
            }
        }
    }

    /// Does nothing; tells its caller that the bytes of a tuple of the index are read as it.
    fn reads_again(&self)
        ensures { ReadsAgain self.now.classes }
    {
        self.tuple.one_tuple();
    }

    /// Whether a range with this tuple, or with none, is kept. Takes no memory.
    fn keeps(&mut self, tuple: &Option<TupleBytes>, keys: &ScanKeys<'_>) -> bool
        ensures answer { result ≡ keeps_cell self.old.classes keys.now tuple.now }
        ensures same { self.new ≡ self.old }
    {
        match tuple {
            None => true,
            Some(bytes) => keeps_bytes(&mut self.tuple, bytes.as_slice(), keys),
        }
    }
}

/// The column of the parts, if it is one alone and its class minmax.
fn minmax_in(parts: &[Part]) -> Option<u8>
    ensures { IfSome result (λ place. parts.now ≡ record { column = place; class = MinMax } ∷ []) }
{
    if parts.len() != 1 {
        return None;
    }
    let part = parts[0];
    match part.class {
        Class::MinMax => Some(part.column),
        _ => None,
    }
}

/// Whether the tuple that the bytes are keeps the conditions; bytes that are none do. Reads them into a tuple of the index.
#[tactic(auto, using(crate::proofs::Judged::read_keeps, crate::proofs::Judged::unread_keeps))]
fn keeps_bytes(tuple: &mut RangeTuple, bytes: &[u8], keys: &ScanKeys<'_>) -> bool
    ensures answer { result ≡ keeps_conds (tuple_in (parts_of tuple.old.columns) bytes.now) keys.now }
    ensures same { parts_of tuple.new.columns ≡ parts_of tuple.old.columns }
{
    match tuple.decode(bytes) {
        Ok(()) => tuple.keeps_by(keys),
        Err(_) => true,
    }
}

/// The indexes of the table, in order. Takes the memory of a tuple of each.
pub(crate) fn judges_of(
    alloc: Global,
    layout: &Layout,
    table: u8,
) -> Result<BoxedSlice<Judge>, NoMemory>
    ensures { IfOk result (λ judges. boxed_slice_items judges ≡ scanned_indexes layout.now table) }
{
    lawful(layout);
    let schema = layout.schema();
    let mut judges = Vec::new(alloc);
    let mut number = 0u8;
    'indexes: for index in schema.indexes.as_slice() {
        push_judge(alloc, index, schema, number, table, &mut judges)?;
        number += 1;
    }
    Ok(judges.into_boxed_slice())
}

/// Appends the index of that number, if it is one of the table.
fn push_judge(
    alloc: Global,
    index: &Index,
    schema: &Schema,
    number: u8,
    table: u8,
    judges: &mut Vec<Judge>,
) -> Result<(), NoMemory>
    requires { IsReadable schema.now index.now }
    ensures { OnOk result (judges.new.items ≡ judges.old.items ++ scanned_if schema.now table number index.now) }
{
    if index.table != table {
        return Ok(());
    }
    let judge = Judge::of(alloc, index, schema, number)?;
    judges.push(judge)?;
    Ok(())
}

/// Does nothing; tells its caller what the limits of a layout say of its indexes.
fn lawful(layout: &Layout)
    ensures { AreReadable layout.now.schema }
{
    layout.known();
}
