//! What the words of a maintenance statement mean where tables and indexes are declared.

ghost use Rattle.std.specs.Prelude.{◌≡◌, ℕ, length, true, None, Some, Ok, Err, ◌∷◌, IfSome, IfOk};
ghost use Rattle.block_model.specs.Names.{is_name};
ghost use Rattle.query_words.specs.Blocks.{block_of};
ghost use Rattle.query_words.specs.LineParts.{words_left, word_here};
ghost use Rattle.query_words.specs.Lines.{ReadsOnce};
ghost use Rattle.query_words.specs.Parsed.{summarize_of_words, desummarize_of_words, vacuum_of_words};
ghost use Rattle.query_words.specs.SmallSchemas.{IsSmallSchema};
ghost use Rattle.query_words.specs.Statements.{index_from, index_said, statement_judged};
ghost use Rattle.query_words.specs.Syntax.{stop_after};
ghost use Rattle.query_words.specs.declared.syntax.Expected.TheVariants as expected;

use crate::line::LineFault;
use crate::statement::{read_end, read_table};
use crate::{Rest, Word, is_word, next_word, read_block};
use block_model::Schema;
use store_layout::Statement;

/// An index, and perhaps a block.
pub fn read_summarize(
    rest: Rest<'_>,
    schema: &Schema,
    line_len: usize,
) -> Result<Statement, LineFault>
    requires { IsSmallSchema schema.now }
    ensures { ReadsOnce result (stop_after line_len expected.SummarizedIndex (words_left rest.entry)) (statement_judged schema.now line_len (summarize_of_words (words_left rest.entry))) }
{
    let Some((word, rest)) = next_word(rest) else {
        return Err(LineFault::Syntax { at: line_len });
    };
    let index = read_index(schema, &word)?;
    let Some((word, rest)) = next_word(rest) else {
        return Ok(Statement::Summarize { index, block: None });
    };
    let block = read_last_block(&word, rest)?;
    Ok(Statement::Summarize {
        index,
        block: Some(block),
    })
}

/// An index and a block.
pub fn read_desummarize(
    rest: Rest<'_>,
    schema: &Schema,
    line_len: usize,
) -> Result<Statement, LineFault>
    requires { IsSmallSchema schema.now }
    ensures { ReadsOnce result (stop_after line_len expected.DesummarizedIndex (words_left rest.entry)) (statement_judged schema.now line_len (desummarize_of_words (words_left rest.entry))) }
{
    let Some((word, rest)) = next_word(rest) else {
        return Err(LineFault::Syntax { at: line_len });
    };
    let index = read_index(schema, &word)?;
    let Some((word, rest)) = next_word(rest) else {
        return Err(LineFault::Syntax { at: line_len });
    };
    let block = read_last_block(&word, rest)?;
    Ok(Statement::Desummarize { index, block })
}

/// A table alone.
pub fn read_vacuum(rest: Rest<'_>, schema: &Schema, line_len: usize) -> Result<Statement, LineFault>
    requires { IsSmallSchema schema.now }
    ensures { ReadsOnce result (stop_after line_len expected.VacuumedTable (words_left rest.entry)) (statement_judged schema.now line_len (vacuum_of_words (words_left rest.entry))) }
{
    let Some((word, rest)) = next_word(rest) else {
        return Err(LineFault::Syntax { at: line_len });
    };
    let (table, _) = read_table(schema, &word)?;
    read_end(rest)?;
    Ok(Statement::Vacuum { table })
}

/// The block that the word is, with no word behind it.
fn read_last_block(word: &Word<'_>, rest: Rest<'_>) -> Result<u32, LineFault>
    ensures { (length : ℕ) → ReadsOnce result (stop_after length expected.Block (word_here word.now ∷ words_left rest.entry)) (Ok (block_of word.now.text.now)) }
{
    let Some(block) = read_block(word.text) else {
        return Err(LineFault::Syntax { at: word.at });
    };
    read_end(rest)?;
    Ok(block)
}

/// The number of the declared index that the word names, or a fault at the word.
fn read_index(schema: &Schema, word: &Word<'_>) -> Result<u8, LineFault>
    requires { IsSmallSchema schema.now }
    ensures index { result ≡ index_said schema.now (word_here word.now) }
    ensures named { IfOk result (λ _. is_name word.now.text.now ≡ true) }
{
    match index_named(schema, word.text) {
        Some(index) => Ok(index),
        None => Err(LineFault::NoIndex { at: word.at }),
    }
}

/// The number of the index of that name.
fn index_named(schema: &Schema, name: &[u8]) -> Option<u8>
    requires { IsSmallSchema schema.now }
    ensures index { result ≡ index_from 0 schema.now.indexes name.now }
    ensures named { IfSome result (λ _. is_name name.now ≡ true) }
{
    let indexes = schema.indexes.as_slice();
    'indexes: for (i, index) in indexes.iter().enumerate() {
        if is_word(index.name.as_bytes(), name) {
            index.name.known();
            return Some(i as u8);
        }
    }
    None
}
