//! Words judged without memory.

ghost use Rattle.std.specs.Prelude.{◌≡◌, ℕ, ◌<◌, ◌≤◌, List, [], slice_index_or, length, take, Ok, Err, MatchResult};
ghost use Rattle.block_model.specs.declared.schema.Schema.{Schema};
ghost use Rattle.block_model.specs.declared.schema.Part.{Part};
ghost use Rattle.block_model.specs.declared.schema.Index.{Index};
ghost use Rattle.command_line.specs.DeclarationTexts.{TableText, table_bytes, IsTable, DeclarationText, bytes_of, IsDeclaration};
ghost use Rattle.command_line.specs.DeclaredSchema.{Declares, DenotesWith, parts_among, index_among};
ghost use Rattle.command_line.specs.FirstFault.{IsFaulty, IsFirstFault};
ghost use Rattle.command_line.specs.Words.{has_column, index_text, IsIndexWord, declares_table};

use crate::declaration::{Declaration, read_declaration};
use crate::declarations::DeclFault;
use crate::index::IndexWord;
use crate::part::first_part;
use block_model::Words;

/// The first fault of the words, or want of memory where they have none; `autos` says whether ` autosummarize` is answered.
/// Takes no memory.
pub fn first_fault(autos: bool, words: &Words) -> DeclFault
    ensures form { (word at : ℕ) → result ≡ DeclFault.Form word at → IsFirstFault autos words.now word at }
    ensures memory { result ≡ DeclFault.Memory → (schema : Schema) × DenotesWith autos words.now schema }
{
    'words: for word in 0..words.len() {
        if let Err(at) = judge(autos, words, word) {
            return DeclFault::Form { word, at };
        }
    }
    DeclFault::Memory
}

/// Whether the word is a declaration behind those before it, or at which byte it is at fault.
fn judge(autos: bool, words: &Words, word: usize) -> Result<(), usize>
    requires { word < length words.now }
    ensures { (before : Schema) → DenotesWith autos (take word words.now) before → MatchResult result (λ u. (after : Schema) × Declares autos (slice_index_or words.now word []) before (Ok after)) (λ at. IsFaulty autos before (slice_index_or words.now word []) at) }
{
    match read_declaration(autos, None, b"", words.word(word)) {
        Ok(Declaration::Table(_table)) => Ok(()),
        Ok(Declaration::Index(index)) => judge_index(autos, words, word, &index),
        Err(at) => Err(at),
    }
}

/// Whether the words in front of that one declare the index's table and its indexed columns, or where the first name begins
/// that they don't.
fn judge_index(autos: bool, words: &Words, word: usize, index: &IndexWord<'_>) -> Result<(), usize>
    requires within { word ≤ length words.now }
    requires index { IsIndexWord index.now }
    ensures { (before : Schema) → DenotesWith autos (take word words.now) before → MatchResult result (λ u. (added : Index) × (index_among before.tables (index_text index.now) ≡ Ok added)) (λ at. index_among before.tables (index_text index.now) ≡ Err at) }
{
    'words: for earlier in 0..word {
        let text = words.word(earlier);
        if is_table(autos, text, index.table) {
            return judge_parts(autos, text, index);
        }
    }
    Err(index.table_place())
}

/// Whether a declaration is of a table of that name.
fn is_table(autos: bool, text: &[u8], name: &[u8]) -> bool
    ensures { (declared : DeclarationText) → IsDeclaration autos declared → text.now ≡ bytes_of declared → result ≡ declares_table name.now declared }
{
    match read_declaration(autos, None, b"", text) {
        Ok(Declaration::Table(table)) => name == table.name,
        Ok(Declaration::Index(_index)) => false,
        Err(_at) => false,
    }
}

/// Whether a table that is declared has the index's indexed columns, or where the first name begins that none of its columns
/// has.
fn judge_parts(autos: bool, text: &[u8], index: &IndexWord<'_>) -> Result<(), usize>
    requires { IsIndexWord index.now }
    ensures { (table : TableText) → IsTable table → text.now ≡ table_bytes table → MatchResult result (λ u. (parts : List Part) × (parts_among table.columns (index_text index.now) ≡ Ok parts)) (λ at. parts_among table.columns (index_text index.now) ≡ Err at) }
{
    let mut rest = index.parts;
    'parts: while let Some((part, others)) = first_part(rest) {
        if !has_column(autos, text, part.column) {
            return Err(index.place(rest));
        }
        rest = others;
    }
    Ok(())
}

/// Whether a table that is declared has a column of that name.
fn has_column(autos: bool, text: &[u8], name: &[u8]) -> bool
    ensures { (table : TableText) → IsTable table → text.now ≡ table_bytes table → result ≡ has_column name.now table.columns }
{
    match read_declaration(autos, None, name, text) {
        Ok(Declaration::Table(table)) => table.columns.found,
        Ok(Declaration::Index(_index)) => false,
        Err(_at) => false,
    }
}
