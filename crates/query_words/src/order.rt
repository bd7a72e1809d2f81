//! What the words behind a session's name mean where tables are declared.

ghost use Rattle.std.specs.Prelude.{◌≡◌, ℕ, Option, None, Result, Ok, [], IfSome};
ghost use Rattle.query_words.specs.LineParts.{words_left};
ghost use Rattle.query_words.specs.Lines.{ReadsOnce, line_judged};
ghost use Rattle.query_words.specs.Parsed.{order_behind, order_of_words, said_of, statement_of_words};
ghost use Rattle.query_words.specs.SmallSchemas.{IsSmallSchema};
ghost use Rattle.query_words.specs.Statements.{made_of, order_judged, statement_judged};
ghost use Rattle.query_words.specs.Syntax.{after_verb, stop_from, stop_after, stop_of};
ghost use Rattle.query_words.specs.declared.syntax.Expected.TheVariants as expected;
ghost use Rattle.query_words.specs.declared.line.Line.TheVariants as lines;
ghost use Rattle.query_words.specs.declared.line.Order.TheVariants as orders;
ghost use Rattle.query_words.specs.declared.line.LineFault.{LineFault as OneFault};
ghost use Rattle.store_layout.specs.declared.statement.Statement.{Statement as OneStatement};
ghost use Rattle.store_layout.specs.declared.statement.Statement.TheVariants as asked;

use crate::line::{Line, LineFault, Order};
use crate::statement::{read_end, read_row, read_statement};
use crate::syntax::is_comment;
use crate::{Rest, Verb, next_word, read_verb};
use block_model::{Name, Schema, Values};
use std::alloc::Global;
use store_layout::Statement;

/// The line of the session that the words are, or a fault of theirs, in a line of that length.
pub fn read_order(
    alloc: Global,
    language: &[Verb],
    session: Name,
    rest: Rest<'_>,
    schema: &Schema,
    line_len: usize,
) -> Result<Line, LineFault>
    requires { IsSmallSchema schema.now }
    ensures { ReadsOnce result (stop_from language.now line_len expected.Verb (words_left rest.entry)) (made_of (λ order. lines.Say session order) (order_judged schema.now line_len (order_of_words language.now (words_left rest.entry)))) }
{
    let Some((word, rest)) = next_word(rest) else {
        return Err(LineFault::Syntax { at: line_len });
    };
    let Some(verb) = read_verb(language, word.text) else {
        return Err(LineFault::Syntax { at: word.at });
    };
    match read_behind(alloc, language, verb, rest, schema, line_len) {
        Ok(order) => Ok(Line::Say { session, order }),
        Err(fault) => Err(fault),
    }
}

/// The session and the table of an insert without fault; its values come to those that are handed in, where none stand yet.
/// None for any other line.
pub fn read_insert(
    language: &[Verb],
    rest: Rest<'_>,
    schema: &Schema,
    line_len: usize,
    values: &mut Values,
) -> Option<(Name, u8)>
    requires schema { IsSmallSchema schema.now }
    requires empty { values.old ≡ [] }
    ensures { IfSome result (λ p. ReadsOnce (Ok (lines.Say p.0 (orders.Whole (asked.Insert p.1 values.new)))) (stop_of language.now line_len (words_left rest.entry)) (line_judged schema.now line_len None (said_of language.now (words_left rest.entry)))) }
{
    let (word, behind) = next_word(rest)?;
    if is_comment(word.text) {
        return None;
    }
    let session = Name::new(word.text)?;
    let (verb, row) = next_word(behind)?;
    let Some(Verb::Insert) = read_verb(language, verb.text) else {
        return None;
    };
    match read_row(row, schema, line_len, values) {
        Ok(table) => Some((session, table)),
        Err(_) => None,
    }
}

/// The order that the verb and the words behind it are.
fn read_behind(
    alloc: Global,
    language: &[Verb],
    verb: Verb,
    rest: Rest<'_>,
    schema: &Schema,
    line_len: usize,
) -> Result<Order, LineFault>
    requires { IsSmallSchema schema.now }
    ensures { ReadsOnce result (stop_from language.now line_len (after_verb verb) (words_left rest.entry)) (order_judged schema.now line_len (order_behind language.now verb (words_left rest.entry))) }
{
    match verb {
        Verb::Start => started(read_started(alloc, language, rest, schema, line_len)),
        Verb::Step => stepped(rest, Order::Step),
        Verb::Finish => stepped(rest, Order::Finish),
        _ => whole(read_statement(alloc, verb, rest, schema, line_len)),
    }
}

/// The statement as a whole.
fn whole(read: Result<Statement, LineFault>) -> Result<Order, LineFault>
    ensures { (stop : Option ℕ) (said : Result OneStatement OneFault) → ReadsOnce read stop said → ReadsOnce result stop (made_of orders.Whole said) }
{
    match read {
        Ok(statement) => Ok(Order::Whole(statement)),
        Err(fault) => Err(fault),
    }
}

/// The statement, started.
fn started(read: Result<Statement, LineFault>) -> Result<Order, LineFault>
    ensures { (stop : Option ℕ) (said : Result OneStatement OneFault) → ReadsOnce read stop said → ReadsOnce result stop (made_of orders.Start said) }
{
    match read {
        Ok(statement) => Ok(Order::Start(statement)),
        Err(fault) => Err(fault),
    }
}

/// The order, where no word is left.
fn stepped(rest: Rest<'_>, order: Order) -> Result<Order, LineFault>
    ensures { (length : ℕ) → ReadsOnce result (stop_after length expected.End (words_left rest.entry)) (Ok order) }
{
    read_end(rest)?;
    Ok(order)
}

/// The statement that the words behind `start` are.
fn read_started(
    alloc: Global,
    language: &[Verb],
    rest: Rest<'_>,
    schema: &Schema,
    line_len: usize,
) -> Result<Statement, LineFault>
    requires { IsSmallSchema schema.now }
    ensures { ReadsOnce result (stop_from language.now line_len expected.Statement (words_left rest.entry)) (statement_judged schema.now line_len (statement_of_words language.now (words_left rest.entry))) }
{
    let Some((word, rest)) = next_word(rest) else {
        return Err(LineFault::Syntax { at: line_len });
    };
    match read_verb(language, word.text) {
        Some(verb) => read_statement(alloc, verb, rest, schema, line_len),
        None => Err(LineFault::Syntax { at: word.at }),
    }
}
