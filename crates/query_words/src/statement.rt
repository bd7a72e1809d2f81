//! What the words of a statement mean where tables are declared.

ghost use Rattle.std.specs.Prelude.{◌≡◌, ◌≤◌, ℕ, length, true, None, Some, Ok, Err, [], MatchOption, MatchResult, IfSome, IfOk, IfErr};
ghost use Rattle.block_model.specs.Names.{is_name};
ghost use Rattle.block_model.specs.declared.limits.TheConstants.{MAX_COLUMNS};
ghost use Rattle.query_words.specs.LineParts.{words_left, word_here};
ghost use Rattle.query_words.specs.Lines.{ReadsOnce};
ghost use Rattle.query_words.specs.Parsed.{insert_of_words, statement_behind};
ghost use Rattle.query_words.specs.SmallSchemas.{IsSmallSchema};
ghost use Rattle.query_words.specs.Statements.{made_of, table_from, table_said, values_said, query_judged, statement_judged};
ghost use Rattle.query_words.specs.Syntax.{after_verb, stop_after};
ghost use Rattle.query_words.specs.declared.syntax.Expected.TheVariants as expected;
ghost use Rattle.store_layout.specs.declared.statement.Statement.TheVariants as asked;

use crate::line::LineFault;
use crate::maintenance::{read_desummarize, read_summarize, read_vacuum};
use crate::query::{read_conds, read_key};
use crate::{Rest, Verb, Word, is_word, next_word};
use block_model::{Column, Query, Schema, Values};
use std::alloc::Global;
use store_layout::Statement;

/// The statement that the verb and the words behind it are, or a fault of theirs, in a line of that length. Takes memory for
/// its conditions, and answers a fault of the words before want of it.
pub fn read_statement(
    alloc: Global,
    verb: Verb,
    rest: Rest<'_>,
    schema: &Schema,
    line_len: usize,
) -> Result<Statement, LineFault>
    requires { IsSmallSchema schema.now }
    ensures { ReadsOnce result (stop_after line_len (after_verb verb) (words_left rest.entry)) (statement_judged schema.now line_len (statement_behind verb (words_left rest.entry))) }
{
    match verb {
        Verb::Begin => alone(rest, Statement::Begin),
        Verb::Commit => alone(rest, Statement::Commit),
        Verb::Rollback => alone(rest, Statement::Rollback),
        Verb::Insert => read_insert(rest, schema, line_len),
        Verb::Select => Ok(Statement::Select(read_query(alloc, rest, schema, line_len)?)),
        Verb::Delete => Ok(Statement::Delete(read_query(alloc, rest, schema, line_len)?)),
        Verb::Explain => Ok(Statement::Explain(read_query(alloc, rest, schema, line_len)?)),
        Verb::Summarize => read_summarize(rest, schema, line_len),
        Verb::Desummarize => read_desummarize(rest, schema, line_len),
        Verb::Vacuum => read_vacuum(rest, schema, line_len),
        Verb::Work => alone(rest, Statement::Work),
        Verb::Start | Verb::Step | Verb::Finish => Err(LineFault::Syntax { at: line_len }),
    }
}

/// The statement, where no word is left.
fn alone(rest: Rest<'_>, statement: Statement) -> Result<Statement, LineFault>
    ensures { (length : ℕ) → ReadsOnce result (stop_after length expected.End (words_left rest.entry)) (Ok statement) }
{
    read_end(rest)?;
    Ok(statement)
}

/// Nothing, where no word is left.
pub fn read_end(rest: Rest<'_>) -> Result<(), LineFault>
    ensures end { IfOk result (λ _. words_left rest.entry ≡ []) }
    ensures more { IfErr result (λ _. (length : ℕ) → stop_after length expected.End (words_left rest.entry) ≡ None → ⊥) }
{
    match next_word(rest) {
        None => Ok(()),
        Some((word, _)) => Err(LineFault::Syntax { at: word.at }),
    }
}

fn read_query(
    alloc: Global,
    rest: Rest<'_>,
    schema: &Schema,
    line_len: usize,
) -> Result<Query, LineFault>
    requires { IsSmallSchema schema.now }
    ensures { ReadsOnce result (stop_after line_len expected.QueryTable (words_left rest.entry)) (query_judged schema.now line_len (words_left rest.entry)) }
{
    let Some((word, rest)) = next_word(rest) else {
        return Err(LineFault::Syntax { at: line_len });
    };
    let (table, columns) = read_table(schema, &word)?;
    let conds = read_conds(alloc, rest, columns, line_len)?;
    Ok(Query { table, conds })
}

fn read_insert(rest: Rest<'_>, schema: &Schema, line_len: usize) -> Result<Statement, LineFault>
    requires { IsSmallSchema schema.now }
    ensures { ReadsOnce result (stop_after line_len expected.InsertTable (words_left rest.entry)) (statement_judged schema.now line_len (insert_of_words (words_left rest.entry))) }
{
    let mut values = Values::new();
    match read_row(rest, schema, line_len, &mut values) {
        Ok(table) => Ok(Statement::Insert { table, values }),
        Err(fault) => Err(fault),
    }
}

/// The table of an insert; its values come to those that are handed in, where none stand yet.
pub fn read_row(
    rest: Rest<'_>,
    schema: &Schema,
    line_len: usize,
    values: &mut Values,
) -> Result<u8, LineFault>
    requires schema { IsSmallSchema schema.now }
    requires empty { values.old ≡ [] }
    ensures { ReadsOnce (made_of (λ table. asked.Insert table values.new) result) (stop_after line_len expected.InsertTable (words_left rest.entry)) (statement_judged schema.now line_len (insert_of_words (words_left rest.entry))) }
{
    let Some((word, rest)) = next_word(rest) else {
        return Err(LineFault::Syntax { at: line_len });
    };
    let (table, columns) = read_table(schema, &word)?;
    match read_values(rest, columns, line_len, values) {
        Ok(()) => Ok(table),
        Err(fault) => Err(fault),
    }
}

/// A value for each column, and no word behind them.
fn read_values(
    rest: Rest<'_>,
    columns: &[Column],
    line_len: usize,
    values: &mut Values,
) -> Result<(), LineFault>
    requires few { length columns.now ≤ MAX_COLUMNS }
    requires empty { values.old ≡ [] }
    ensures { made_of (λ _. values.new) result ≡ values_said line_len [] columns.now (words_left rest.entry) }
{
    let mut rest = rest;
    'columns: for column in columns {
        let Some((word, behind)) = next_word(rest) else {
            return Err(LineFault::NoColumn { at: line_len });
        };
        values.push(read_key(column.kind, &word)?);
        rest = behind;
    }
    match next_word(rest) {
        None => Ok(()),
        Some((word, _)) => Err(LineFault::NoColumn { at: word.at }),
    }
}

/// The number and the columns of the declared table that the word names, or a fault at the word.
pub fn read_table<'a>(schema: &'a Schema, word: &Word<'_>) -> Result<(u8, &'a [Column]), LineFault>
    requires { IsSmallSchema schema.now }
    ensures table { MatchResult result (λ p. table_said schema.now (word_here word.now) ≡ Ok (p.0, p.1.now)) (λ fault. table_said schema.now (word_here word.now) ≡ Err fault) }
    ensures named { IfOk result (λ p. is_name word.now.text.now ≡ true) }
    ensures fault { IfErr result (λ fault. fault ≡ LineFault.NoTable word.now.at) }
    ensures few { IfOk result (λ p. length p.1.now ≤ MAX_COLUMNS) }
{
    match table_named(schema, word.text) {
        Some(table) => Ok(table),
        None => Err(LineFault::NoTable { at: word.at }),
    }
}

/// The number and the columns of the table of that name.
fn table_named<'a>(schema: &'a Schema, name: &[u8]) -> Option<(u8, &'a [Column])>
    requires { IsSmallSchema schema.now }
    ensures table { MatchOption result (table_from 0 schema.now.tables name.now ≡ None) (λ p. table_from 0 schema.now.tables name.now ≡ Some (p.0, p.1.now)) }
    ensures named { IfSome result (λ p. is_name name.now ≡ true) }
    ensures few { IfSome result (λ p. length p.1.now ≤ MAX_COLUMNS) }
{
    let tables = schema.tables.as_slice();
    'tables: for (i, table) in tables.iter().enumerate() {
        if is_word(table.name.as_bytes(), name) {
            table.name.known();
            return Some((i as u8, table.columns.as_slice()));
        }
    }
    None
}
