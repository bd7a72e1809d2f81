//! What read and printed lines are to the grammar.

ghost use Rattle.std.specs.Prelude.{◌≡◌, true, All};
ghost use Rattle.query_words.specs.Grammar.{IsNameWord};
ghost use Rattle.query_words.specs.LineFits.{IsLineFor, is_line_in};
ghost use Rattle.query_words.specs.LineLaws.{GrammarIsRead, ReadIsGrammar, FaultIsStop, HasNames, IsNamedTable, IsNamedLine, HasItsType, IsOfItsType, ReadsBack};

use crate::Verb;
use crate::line::{Line, Order};
use block_model::{Index, Schema, Table};
use store_layout::{Layout, Statement};
use value_text::{canonical_text_denotes, value_of_is_denoted};

/// A line of a language is read as what its words say, and its faults are at those words.
pub fn grammar_is_read()
    ensures { GrammarIsRead }
{
    value_of_is_denoted();
}

/// A line that is read is one of the language.
pub fn read_is_grammar()
    ensures { ReadIsGrammar }
{
    value_of_is_denoted();
}

/// A line with a fault of syntax is none of the language, and stops at that word.
pub fn fault_is_stop()
    ensures { FaultIsStop }
{
    value_of_is_denoted();
}

/// What is printed of a line that fits the layout reads as the same line, in each language that has its verbs, and fits the
/// limit of lines. Every line that was read is such a line.
pub fn printed_line_reads_back(language: &[Verb], line: &Line, layout: &Layout)
    requires fits { IsLineFor layout.now.schema line.now }
    requires language { is_line_in language.now line.now ≡ true }
    ensures { ReadsBack language.now layout.now.schema line.now }
{
    value_of_is_denoted();
    canonical_text_denotes();
    layout.known();
    names_known(layout.schema());
    line_known(line);
}

/// The names of tables, columns and indexes are names.
fn names_known(schema: &Schema)
    ensures { HasNames schema.now }
{
    tables_known(schema.tables.as_slice());
    indexes_known(schema.indexes.as_slice());
}

fn tables_known(tables: &[Table])
    ensures { All IsNamedTable tables.now }
{
    'tables: for table in tables {
        table_known(table);
    }
}

fn indexes_known(indexes: &[Index])
    ensures { All (λ i. IsNameWord i.name) indexes.now }
{
    'indexes: for index in indexes {
        index.name.known();
    }
}

fn table_known(table: &Table)
    ensures { IsNamedTable table.now }
{
    table.name.known();
    'columns: for column in table.columns.as_slice() {
        column.name.known();
    }
}

/// Its session's name is one, and its statement is of its type.
fn line_known(line: &Line)
    ensures named { IsNamedLine line.now }
    ensures typed { HasItsType line.now }
{
    match line {
        Line::Nothing => (),
        Line::Say { session, order } => {
            session.known();
            match order {
                Order::Whole(statement) | Order::Start(statement) => statement_known(statement),
                Order::Step | Order::Finish => (),
            }
        }
    }
}

fn statement_known(statement: &Statement)
    ensures { IsOfItsType statement.now }
{
    match statement {
        Statement::Select(query) | Statement::Delete(query) | Statement::Explain(query) => {
            let _ = query.conds.len();
        }
        Statement::Summarize {
            block: Some(block),
            ..
        } => {
            let _block = *block;
        }
        Statement::Desummarize { block, .. } => {
            let _block = *block;
        }
        _ => (),
    }
}
