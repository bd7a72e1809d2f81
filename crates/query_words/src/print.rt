//! Lines printed as texts.
#![tactic(auto, using(value_text::specs::Appended::longer_before))]

ghost use Rattle.std.specs.Prelude.{◌≡◌, [], ◌∷◌, ◌++◌, map, codes, decimal, OnOk, OnErr};
ghost use Rattle.value_text.specs.CanonicalTexts.{canonical_text};
ghost use Rattle.value_text.specs.Appended.{IsLonger};
ghost use Rattle.query_words.specs.Grammar.{words_of_cond, words_of_conds, words_of_more, words_of_statement, words_of_order};
ghost use Rattle.query_words.specs.LineFits.{IsLineFor};
ghost use Rattle.query_words.specs.LineTexts.{line_text, spaced, table_name, index_name, columns_at, column_name, cond_of, conds_of, statement_of, order_of, test_of};

use crate::line::{Line, Order};
use crate::{Verb, op_text, statement_verb, verb_text};
use block_model::{Column, Cond, NoMemory, Op, Query, Schema, Value};
use itoa::Buffer;
use store_layout::{Layout, Statement};
use value_text::{append, write_value, write_values};

/// Appends the text of a line, without a line feed; nothing for a line that says nothing. The line's numbers are those of
/// the layout, and its values and operators of their columns' kinds. What is printed reads as the same line. After a refusal
/// nothing is changed.
pub fn print_line(line: &Line, layout: &Layout, out: &mut Vec<u8>) -> Result<(), NoMemory>
    requires { IsLineFor layout.now.schema line.now }
    ensures ok { OnOk result (out.new.items ≡ out.old.items ++ line_text layout.now.schema line.now) }
    ensures err { OnErr result (out.new.items ≡ out.old.items) }
{
    let before = out.len();
    if let Err(refusal) = add_line(out, line, layout.schema()) {
        out.truncate(before);
        return Err(refusal);
    }
    Ok(())
}

fn add_line(out: &mut Vec<u8>, line: &Line, schema: &Schema) -> Result<(), NoMemory>
    ensures ok { OnOk result (out.new.items ≡ out.old.items ++ line_text schema.now line.now) }
    ensures longer { IsLonger out.old.items out.new.items }
{
    match line {
        Line::Nothing => Ok(()),
        Line::Say { session, order } => {
            append(out, session.as_bytes())?;
            add_order(out, order, schema)
        }
    }
}

fn add_order(out: &mut Vec<u8>, order: &Order, schema: &Schema) -> Result<(), NoMemory>
    ensures ok { OnOk result (out.new.items ≡ out.old.items ++ spaced (words_of_order (order_of schema.now order.now))) }
    ensures longer { IsLonger out.old.items out.new.items }
{
    match order {
        Order::Whole(statement) => add_statement(out, statement, schema),
        Order::Start(statement) => {
            add_word(out, verb_text(Verb::Start))?;
            add_statement(out, statement, schema)
        }
        Order::Step => add_word(out, verb_text(Verb::Step)),
        Order::Finish => add_word(out, verb_text(Verb::Finish)),
    }
}

fn add_statement(out: &mut Vec<u8>, statement: &Statement, schema: &Schema) -> Result<(), NoMemory>
    ensures ok { OnOk result (out.new.items ≡ out.old.items ++ spaced (words_of_statement (statement_of schema.now statement.now))) }
    ensures longer { IsLonger out.old.items out.new.items }
{
    add_word(out, verb_text(statement_verb(statement)))?;
    match statement {
        Statement::Begin | Statement::Commit | Statement::Rollback | Statement::Work => Ok(()),
        Statement::Insert { table, values } => add_insert(out, *table, values.as_slice(), schema),
        Statement::Select(query) | Statement::Delete(query) | Statement::Explain(query) => {
            add_query(out, query, schema)
        }
        Statement::Summarize { index, block } => {
            add_word(out, index_name(schema, *index))?;
            match block {
                None => Ok(()),
                Some(block) => add_block(out, *block),
            }
        }
        Statement::Desummarize { index, block } => {
            add_word(out, index_name(schema, *index))?;
            add_block(out, *block)
        }
        Statement::Vacuum { table } => add_word(out, table_name(schema, *table)),
    }
}

fn add_insert(
    out: &mut Vec<u8>,
    table: u8,
    values: &[Value],
    schema: &Schema,
) -> Result<(), NoMemory>
    ensures ok { OnOk result (out.new.items ≡ out.old.items ++ spaced (table_name schema.now table ∷ map canonical_text values.now)) }
    ensures longer { IsLonger out.old.items out.new.items }
{
    add_word(out, table_name(schema, table))?;
    write_values(values, out)
}

fn add_block(out: &mut Vec<u8>, block: u32) -> Result<(), NoMemory>
    ensures ok { OnOk result (out.new.items ≡ out.old.items ++ spaced (decimal block ∷ [])) }
    ensures longer { IsLonger out.old.items out.new.items }
{
    let mut buffer = Buffer::new();
    add_word(out, buffer.format(block).as_bytes())
}

fn add_query(out: &mut Vec<u8>, query: &Query, schema: &Schema) -> Result<(), NoMemory>
    ensures ok { OnOk result (out.new.items ≡ out.old.items ++ spaced (table_name schema.now query.now.table ∷ words_of_conds (conds_of schema.now query.now))) }
    ensures longer { IsLonger out.old.items out.new.items }
{
    add_word(out, table_name(schema, query.table))?;
    add_conds(out, columns_at(schema, query.table), query.conds.as_slice())
}

fn add_conds(out: &mut Vec<u8>, columns: &[Column], conds: &[Cond]) -> Result<(), NoMemory>
    ensures ok { OnOk result (out.new.items ≡ out.old.items ++ spaced (words_of_conds (map (cond_of columns.now) conds.now))) }
    ensures longer { IsLonger out.old.items out.new.items }
{
    match conds {
        [] => Ok(()),
        [first, more @ ..] => {
            add_word(out, b"where")?;
            add_cond(out, columns, first)?;
            add_more(out, columns, more)
        }
    }
}

fn add_more(out: &mut Vec<u8>, columns: &[Column], conds: &[Cond]) -> Result<(), NoMemory>
    ensures ok { OnOk result (out.new.items ≡ out.old.items ++ spaced (words_of_more (map (cond_of columns.now) conds.now))) }
    ensures longer { IsLonger out.old.items out.new.items }
{
    'conds: for cond in conds {
        add_word(out, b"and")?;
        add_cond(out, columns, cond)?;
    }
    Ok(())
}

fn add_cond(out: &mut Vec<u8>, columns: &[Column], cond: &Cond) -> Result<(), NoMemory>
    ensures ok { OnOk result (out.new.items ≡ out.old.items ++ spaced (words_of_cond (cond_of columns.now cond.now))) }
    ensures longer { IsLonger out.old.items out.new.items }
{
    add_test(out, column_name(columns, cond.column), cond.op, &cond.key)
}

fn add_test(out: &mut Vec<u8>, column: &[u8], op: Op, key: &Value) -> Result<(), NoMemory>
    ensures ok { OnOk result (out.new.items ≡ out.old.items ++ spaced (words_of_cond (test_of column.now op key.now))) }
    ensures longer { IsLonger out.old.items out.new.items }
{
    add_word(out, column)?;
    add_word(out, op_text(op))?;
    match op {
        Op::IsNull | Op::NotNull => Ok(()),
        _ => add_key(out, key),
    }
}

/// Appends a value behind a space.
fn add_key(out: &mut Vec<u8>, key: &Value) -> Result<(), NoMemory>
    ensures ok { OnOk result (out.new.items ≡ out.old.items ++ codes " " ++ canonical_text key.now) }
    ensures longer { IsLonger out.old.items out.new.items }
{
    append(out, b" ")?;
    write_value(key, out)
}

/// The name of the table of that number.
fn table_name(schema: &Schema, table: u8) -> &[u8]
    ensures { result.now ≡ table_name schema.now table }
{
    match schema.tables.as_slice().get(usize::from(table)) {
        Some(table) => table.name.as_bytes(),
        None => b"",
    }
}

/// The name of the index of that number.
fn index_name(schema: &Schema, index: u8) -> &[u8]
    ensures { result.now ≡ index_name schema.now index }
{
    match schema.indexes.as_slice().get(usize::from(index)) {
        Some(index) => index.name.as_bytes(),
        None => b"",
    }
}

/// The columns of the table of that number.
fn columns_at(schema: &Schema, table: u8) -> &[Column]
    ensures { result.now ≡ columns_at schema.now table }
{
    match schema.tables.as_slice().get(usize::from(table)) {
        Some(table) => table.columns.as_slice(),
        None => &[],
    }
}

/// The name of the column of that number.
fn column_name(columns: &[Column], column: u8) -> &[u8]
    ensures { result.now ≡ column_name columns.now column }
{
    match columns.get(usize::from(column)) {
        Some(column) => column.name.as_bytes(),
        None => b"",
    }
}

/// Appends a word behind a space.
fn add_word(out: &mut Vec<u8>, word: &[u8]) -> Result<(), NoMemory>
    ensures ok { OnOk result (out.new.items ≡ out.old.items ++ codes " " ++ word.now) }
    ensures longer { IsLonger out.old.items out.new.items }
{
    append(out, b" ")?;
    append(out, word)
}
