//! What a line of a script says.

ghost use Rattle.std.specs.Prelude.{◌≡◌, length, true, None, IfOk, if◌then◌else◌};
ghost use Rattle.query_words.specs.LineParts.{words_left};
ghost use Rattle.query_words.specs.Verbs.{answered};
ghost use Rattle.query_words.specs.LineFits.{IsLineFor, is_line_in};
ghost use Rattle.query_words.specs.Lines.{ReadsAs, ReadsOnce, line_in, line_of, line_judged};
ghost use Rattle.query_words.specs.Parsed.{said_of};
ghost use Rattle.query_words.specs.SmallSchemas.{IsSmallSchema};
ghost use Rattle.query_words.specs.Syntax.{stop_of};

use crate::order::{read_insert, read_order};
use crate::syntax::{is_comment, stop_of};
use crate::{ANSWERED, MAX_LINE, Rest, Verb, next_word};
use block_model::{Name, Refusal, Schema, Values};
use std::alloc::Global;
use store_layout::{Layout, Statement};
use thiserror::Error;
use value_text::{denoted_is_of_kind, value_of_is_denoted};

/// What a session is to do: a statement as a whole, its submission alone, one step, or all steps that are left.
#[derive(Debug, Drop)]
pub enum Order {
    Whole(Statement),
    Start(Statement),
    Step,
    Finish,
}

/// A line of a script.
#[derive(Debug, Drop)]
pub enum Line {
    Nothing,
    Say { session: Name, order: Order },
}

/// Why a line isn't read, with the byte of the line at which the word at fault begins, or the line's length where a word is
/// missing: it isn't of the grammar; the table isn't declared; the index isn't; the column isn't, or there are too many or
/// too few values; the operator or the value isn't of the column's kind. Or there is no memory for its conditions.
#[derive(Clone, Copy, Debug, PartialEq, Eq, Error)]
pub enum LineFault {
    #[error("no line goes on with the word at byte {at}")]
    Syntax { at: usize },
    #[error("no table is declared as the word at byte {at} says")]
    NoTable { at: usize },
    #[error("no index is declared as the word at byte {at} says")]
    NoIndex { at: usize },
    #[error("the word at byte {at} names no column, or a value is missing or too many there")]
    NoColumn { at: usize },
    #[error("the operator or value at byte {at} isn't of the column's kind")]
    Kind { at: usize },
    #[error("out of memory for the conditions of the line")]
    Memory,
}

impl LineFault {
    ghost use Rattle.query_words.specs.LineRefusals.{refusal_of};

    /// The refusal of the line, with the place; none for want of memory.
    pub fn refusal(self) -> Option<Refusal>
        ensures { result ≡ refusal_of self }
    {
        match self {
            LineFault::Syntax { at } => Some(Refusal::Syntax { at }),
            LineFault::NoTable { at } => Some(Refusal::NoTable { at }),
            LineFault::NoIndex { at } => Some(Refusal::NoIndex { at }),
            LineFault::NoColumn { at } | LineFault::Kind { at } => Some(Refusal::NoColumn { at }),
            LineFault::Memory => None,
        }
    }
}

/// Reads a line: what it says, or the first fault. Syntax is judged over the whole line, then the table or the index, then
/// columns, operators and values in the order of the line. Takes memory for conditions alone. The line's verbs are those that
/// the engine answers today.
pub fn read_line(alloc: Global, line: &[u8], layout: &Layout) -> Result<Line, LineFault>
    ensures reads { ReadsAs result (line_of layout.now.schema line.now) }
    ensures fits { IfOk result (IsLineFor layout.now.schema) }
    ensures answered { IfOk result (λ read. is_line_in answered read ≡ true) }
{
    read_line_in(alloc, &ANSWERED, line, layout)
}

/// The same in any language: a word that isn't one of its verbs is none.
#[tactic(auto, unfolding(crate::specs::Lines::line_in))]
pub fn read_line_in(
    alloc: Global,
    language: &[Verb],
    line: &[u8],
    layout: &Layout,
) -> Result<Line, LineFault>
    ensures reads { ReadsAs result (line_in language.now layout.now.schema line.now) }
    ensures fits { IfOk result (IsLineFor layout.now.schema) }
    ensures language { IfOk result (λ read. is_line_in language.now read ≡ true) }
{
    value_of_is_denoted();
    denoted_is_of_kind();
    layout.known();
    if line.len() > MAX_LINE {
        return Err(LineFault::Syntax { at: MAX_LINE });
    }
    let rest = Rest { bytes: line, at: 0 };
    let schema = layout.schema();
    let mut values = Values::new();
    if let Some((session, table)) = read_insert(language, rest, schema, line.len(), &mut values) {
        return Ok(Line::Say {
            session,
            order: Order::Whole(Statement::Insert { table, values }),
        });
    }
    read_any(alloc, language, rest, schema, line.len())
}

/// The line that the words are, or the fault of the first word that has one. It stands apart from the inserts, which don't
/// pay for the room of its statements.
#[inline(never)]
fn read_any(
    alloc: Global,
    language: &[Verb],
    rest: Rest<'_>,
    schema: &Schema,
    line_len: usize,
) -> Result<Line, LineFault>
    requires { IsSmallSchema schema.now }
    ensures reads { ReadsAs result (line_judged schema.now line_len (stop_of language.now line_len (words_left rest.entry)) (said_of language.now (words_left rest.entry))) }
    ensures once { IfOk result (λ read. ReadsOnce (Ok read) (stop_of language.now line_len (words_left rest.entry)) (line_judged schema.now line_len None (said_of language.now (words_left rest.entry)))) }
{
    let read = read_words(alloc, language, rest, schema, line_len);
    match stop_if(read.is_err(), language, rest, line_len) {
        Some(at) => Err(LineFault::Syntax { at }),
        None => read,
    }
}

/// Where the words stop being those of a line, if that is asked: the words of a line that was read aren't looked at again.
fn stop_if(asked: bool, language: &[Verb], rest: Rest<'_>, line_len: usize) -> Option<usize>
    ensures { result ≡ (if asked then stop_of language.now line_len (words_left rest.entry) else None) }
{
    if asked {
        stop_of(language, rest, line_len)
    } else {
        None
    }
}

/// The line that the words are, or a fault of theirs, in a line of that length.
fn read_words(
    alloc: Global,
    language: &[Verb],
    rest: Rest<'_>,
    schema: &Schema,
    line_len: usize,
) -> Result<Line, LineFault>
    requires { IsSmallSchema schema.now }
    ensures { ReadsOnce result (stop_of language.now line_len (words_left rest.entry)) (line_judged schema.now line_len None (said_of language.now (words_left rest.entry))) }
{
    let Some((word, behind)) = next_word(rest) else {
        return Ok(Line::Nothing);
    };
    if is_comment(word.text) {
        return Ok(Line::Nothing);
    }
    let Some(session) = Name::new(word.text) else {
        return Err(LineFault::Syntax { at: word.at });
    };
    read_order(alloc, language, session, behind, schema, line_len)
}
