//! What a word adds to a schema.

ghost use Rattle.std.specs.Prelude.{◌≡◌, ℕ, [], ◌∷◌, ◌++◌, Ok, Err, OnOk, OnErr, IfOk, IfSome, ◌<◌, ◌≤◌, length, MatchOption};
ghost use Rattle.command_line.specs.DeclarationTexts.{IsNamed};
ghost use Rattle.command_line.specs.DeclaredSchema.{Declares, table_named, column_named, part_on, parts_among, index_on, index_among};
ghost use Rattle.command_line.specs.FirstFault.{IsFaulty};
ghost use Rattle.command_line.specs.Words.{part_text, index_text, IsIndexWord, table_with};

use crate::declaration::{Declaration, read_declaration};
use crate::index::IndexWord;
use crate::name::known_name;
use crate::part::{PartWord, first_part};
use crate::table::TableWord;
use block_model::{Column, Columns, Index, Indexes, Part, Parts, Schema, Table, Tables};
use std::alloc::Global;

/// Why a word declares nothing: the byte at which it is at fault, or want of memory.
#[derive(Clone, Copy)]
pub enum WordFault {
    Form { at: usize },
    Memory,
}

/// Adds what the word declares to the schema; `autos` says whether ` autosummarize` is answered.
pub fn declare(
    alloc: Global,
    autos: bool,
    schema: &mut Schema,
    word: &[u8],
) -> Result<(), WordFault>
    ensures ok { OnOk result (Declares autos word.now schema.old (Ok schema.new)) }
    ensures form { (at : ℕ) → result ≡ Err (WordFault.Form at) → IsFaulty autos schema.old word.now at }
{
    match read_declaration(autos, Some(Columns::new(alloc)), b"", word) {
        Ok(Declaration::Table(table)) => add_table(&mut schema.tables, table),
        Ok(Declaration::Index(index)) => {
            let Schema { tables, indexes } = schema;
            add_index(alloc, tables.as_slice(), indexes, &index)
        }
        Err(at) => Err(WordFault::Form { at }),
    }
}

fn add_table(tables: &mut Tables, table: TableWord<'_>) -> Result<(), WordFault>
    requires { IsNamed table.name.now }
    ensures ok { OnOk result (MatchOption table.entry.columns.kept ⊥ (λ columns. tables.new ≡ tables.old ++ table_with table.entry columns ∷ [])) }
    ensures memory { OnErr result (result ≡ Err WordFault.Memory) }
{
    let Some(table) = table.kept() else {
        return Err(WordFault::Memory);
    };
    match tables.push(table) {
        Ok(()) => Ok(()),
        Err(_) => Err(WordFault::Memory),
    }
}

fn add_index(
    alloc: Global,
    tables: &[Table],
    indexes: &mut Indexes,
    index: &IndexWord<'_>,
) -> Result<(), WordFault>
    requires { IsIndexWord index.now }
    ensures ok { OnOk result ((added : Index) × (index_among tables.now (index_text index.now) ≡ Ok added) × (indexes.new ≡ indexes.old ++ added ∷ [])) }
    ensures form { (at : ℕ) → result ≡ Err (WordFault.Form at) → index_among tables.now (index_text index.now) ≡ Err at }
{
    let Some(table) = table_named(tables, index.table) else {
        return Err(WordFault::Form {
            at: index.table_place(),
        });
    };
    let parts = parts_among(alloc, tables[table].columns.as_slice(), index)?;
    match indexes.push(index_on(index, table, parts)) {
        Ok(()) => Ok(()),
        Err(_) => Err(WordFault::Memory),
    }
}

/// The indexed columns of the index among a table's columns.
fn parts_among(alloc: Global, columns: &[Column], index: &IndexWord<'_>) -> Result<Parts, WordFault>
    requires { IsIndexWord index.now }
    ensures ok { IfOk result (λ parts. parts_among columns.now (index_text index.now) ≡ Ok parts) }
    ensures form { (at : ℕ) → result ≡ Err (WordFault.Form at) → parts_among columns.now (index_text index.now) ≡ Err at }
{
    let mut parts = Parts::new(alloc);
    let mut rest = index.parts;
    'parts: while let Some((part, others)) = first_part(rest) {
        let Some(column) = column_named(columns, part.column) else {
            return Err(WordFault::Form {
                at: index.place(rest),
            });
        };
        let Ok(()) = parts.push(part_on(&part, column)) else {
            return Err(WordFault::Memory);
        };
        rest = others;
    }
    Ok(parts)
}

/// The indexed column of that number.
fn part_on(part: &PartWord<'_>, column: usize) -> Part
    ensures { result ≡ part_on (part_text part.now) column }
{
    Part {
        column: column.min(usize::from(u8::MAX)) as u8,
        class: part.class.operator_class(),
    }
}

/// The number of the first table of that name.
fn table_named(tables: &[Table], name: &[u8]) -> Option<usize>
    ensures number { result ≡ table_named name.now tables.now }
    ensures within { IfSome result (λ number. number < length tables.now) }
{
    tables
        .iter()
        .position(|table| name == table.name.as_bytes())
}

/// The number of the first column of that name.
fn column_named(columns: &[Column], name: &[u8]) -> Option<usize>
    ensures { result ≡ column_named name.now columns.now }
{
    columns
        .iter()
        .position(|column| name == column.name.as_bytes())
}

/// The index on the table of that number and those columns of it.
fn index_on(index: &IndexWord<'_>, table: usize, parts: Parts) -> Index
    requires { IsIndexWord index.now }
    ensures { result ≡ index_on (index_text index.now) table parts }
{
    Index {
        name: known_name(index.name),
        table: table.min(usize::from(u8::MAX)) as u8,
        pages_per_range: index.pages_per_range(),
        auto: index.auto,
        parts,
    }
}
