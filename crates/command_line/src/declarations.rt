//! The declarations of a command line.

ghost use Rattle.std.specs.Prelude.{◌≡◌, ℕ, Err, IfOk};
ghost use Rattle.command_line.specs.DeclaredSchema.{Denotes, DenotesWith};
ghost use Rattle.command_line.specs.declared.answered.TheConstants.{ANSWERS_AUTOSUMMARIZE};
ghost use Rattle.command_line.specs.FirstFault.{IsFirstFault, Answers};

use crate::answered::ANSWERS_AUTOSUMMARIZE;
use crate::declare::{WordFault, declare};
use crate::judge::first_fault;
use block_model::{Indexes, Schema, Tables, Words};
use std::alloc::Global;
use thiserror::Error;

/// Why words are no schema.
#[derive(Clone, Copy, Debug, PartialEq, Eq, Error)]
pub enum DeclFault {
    /// They are no list of declarations: `word` is the number, from 0, of the first word that is none behind those before
    /// it, and `at` the byte in it where no declaration goes on (its length where one could go on and it ends), or the first
    /// byte of the name of a table that isn't declared before it, or of a column that the table lacks.
    #[error("word {word} is no declaration behind those before it: byte {at} is at fault")]
    Form { word: usize, at: usize },
    /// They are, and memory was wanting.
    #[error("out of memory for the schema")]
    Memory,
}

/// Reads words, each a declaration that the program answers, as the schema that they denote. Takes memory for the schema.
pub fn read_declarations(alloc: Global, words: &Words) -> Result<Schema, DeclFault>
    // A list of declarations is read as the schema that it denotes, unless memory is wanting, and nothing else is.
    ensures read { IfOk result (λ schema. Denotes words.now schema) }
    ensures only { (schema : Schema) → Denotes words.now schema → Answers schema result }
    // What is none is refused at its first fault.
    ensures form { (word at : ℕ) → result ≡ Err (DeclFault.Form word at) → IsFirstFault ANSWERS_AUTOSUMMARIZE words.now word at }
    // Want of memory is told only of a list of declarations.
    ensures memory { result ≡ Err DeclFault.Memory → (schema : Schema) × Denotes words.now schema }
{
    read_declarations_with(alloc, ANSWERS_AUTOSUMMARIZE, words)
}

/// Reads words, each a declaration, as the schema that they denote; `autos` says whether ` autosummarize` is answered. Takes
/// memory for the schema.
pub fn read_declarations_with(
    alloc: Global,
    autos: bool,
    words: &Words,
) -> Result<Schema, DeclFault>
    // A list of declarations is read as the schema that it denotes, unless memory is wanting, and nothing else is.
    ensures read { IfOk result (λ schema. DenotesWith autos words.now schema) }
    ensures only { (schema : Schema) → DenotesWith autos words.now schema → Answers schema result }
    // What is none is refused at its first fault.
    ensures form { (word at : ℕ) → result ≡ Err (DeclFault.Form word at) → IsFirstFault autos words.now word at }
    // Want of memory is told only of a list of declarations.
    ensures memory { result ≡ Err DeclFault.Memory → (schema : Schema) × DenotesWith autos words.now schema }
{
    let mut schema = Schema {
        tables: Tables::new(alloc),
        indexes: Indexes::new(alloc),
    };
    'words: for word in 0..words.len() {
        match declare(alloc, autos, &mut schema, words.word(word)) {
            Ok(()) => {}
            Err(WordFault::Form { at }) => return Err(DeclFault::Form { word, at }),
            Err(WordFault::Memory) => return Err(first_fault(autos, words)),
        }
    }
    Ok(schema)
}
