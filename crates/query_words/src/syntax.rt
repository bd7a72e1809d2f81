//! How far the words of a line go on as one of a language: the grammar, one word after the other.

ghost use Rattle.std.specs.Prelude.{◌≡◌, [], length};
ghost use Rattle.query_words.specs.LineParts.{words_left};
ghost use Rattle.query_words.specs.Syntax.{where_so, after_verb, after_started, after_word, after_column, after_is, may_end, stop_from, stop_of};
ghost use Rattle.block_model.specs.Names.{is_name};
ghost use Rattle.query_words.specs.Grammar.{is_comment};

use crate::limits::MORE_CONDITIONS;
use crate::{Rest, Verb, is_block, is_value_word, is_word, next_word, read_op, read_verb};
use block_model::Name;

/// What the words of a line may go on with. A number says how many conditions may follow.
#[derive(Clone, Copy, Debug, PartialEq, Eq)]
pub enum Expected {
    /// The session's name.
    Session,
    Verb,
    /// The verb of a statement that is started.
    Statement,
    /// No word.
    End,
    /// The table of an insert.
    InsertTable,
    /// Another value, or the end.
    Values,
    /// The table of a query.
    QueryTable,
    /// `where`, or the end.
    Where,
    /// `and`, or the end.
    And(u8),
    Column(u8),
    /// An operator, or `is`.
    Operator(u8),
    Value(u8),
    /// `null`, or `not`.
    Null(u8),
    /// `null` behind `not`.
    NotNull(u8),
    /// The index of a `summarize`.
    SummarizedIndex,
    /// A block, or the end.
    MayHaveBlock,
    /// The index of a `desummarize`.
    DesummarizedIndex,
    Block,
    /// The table of a `vacuum`.
    VacuumedTable,
}

/// The place of the first word at which the words stop being those of a line, or the line's length where a word is
/// missing; none for a line of the grammar.
pub fn stop_of(language: &[Verb], rest: Rest<'_>, line_len: usize) -> Option<usize>
    ensures { result ≡ stop_of language.now line_len (words_left rest.entry) }
{
    match next_word(rest) {
        None => None,
        Some((word, _)) if is_comment(word.text) => None,
        Some(_) => stop_from(language, rest, line_len),
    }
}

/// Whether a line with this word first is a comment.
pub fn is_comment(word: &[u8]) -> bool
    ensures { result ≡ is_comment word.now }
{
    match word {
        [] => false,
        [first, ..] => *first == b'#',
    }
}

fn stop_from(language: &[Verb], rest: Rest<'_>, line_len: usize) -> Option<usize>
    ensures { result ≡ stop_from language.now line_len Expected.Session (words_left rest.entry) }
{
    let mut expected = Expected::Session;
    let mut rest = rest;
    'words: while let Some((word, behind)) = next_word(rest) {
        match after_word(language, expected, word.text) {
            None => return Some(word.at),
            Some(next) => expected = next,
        }
        rest = behind;
    }
    if may_end(expected) {
        None
    } else {
        Some(line_len)
    }
}

fn may_end(expected: Expected) -> bool
    ensures { result ≡ may_end expected }
{
    matches!(
        expected,
        Expected::End
            | Expected::Values
            | Expected::Where
            | Expected::And(_)
            | Expected::MayHaveBlock
    )
}

/// What may stand behind the word, where it may stand.
fn after_word(language: &[Verb], expected: Expected, word: &[u8]) -> Option<Expected>
    ensures { result ≡ after_word language.now expected word.now }
{
    match expected {
        Expected::Session => where_so(is_name(word), Expected::Verb),
        Expected::Verb => read_verb(language, word).map(after_verb),
        Expected::Statement => read_verb(language, word).and_then(after_started),
        Expected::End => None,
        Expected::InsertTable => where_so(is_name(word), Expected::Values),
        Expected::Values => where_so(is_value_word(word), Expected::Values),
        Expected::QueryTable => where_so(is_name(word), Expected::Where),
        Expected::Where => where_so(is_word(word, b"where"), Expected::Column(MORE_CONDITIONS)),
        Expected::And(left) => after_condition(left, word),
        Expected::Column(left) => where_so(is_name(word), Expected::Operator(left)),
        Expected::Operator(left) => after_column(left, word),
        Expected::Value(left) => where_so(is_value_word(word), Expected::And(left)),
        Expected::Null(left) => after_is(left, word),
        Expected::NotNull(left) => where_so(is_word(word, b"null"), Expected::And(left)),
        Expected::SummarizedIndex => where_so(is_name(word), Expected::MayHaveBlock),
        Expected::DesummarizedIndex => where_so(is_name(word), Expected::Block),
        Expected::MayHaveBlock | Expected::Block => where_so(is_block(word), Expected::End),
        Expected::VacuumedTable => where_so(is_name(word), Expected::End),
    }
}

fn where_so(test: bool, next: Expected) -> Option<Expected>
    ensures { result ≡ where_so test next }
{
    test.then_some(next)
}

fn is_name(word: &[u8]) -> bool
    ensures { result ≡ is_name word.now }
{
    Name::new(word).is_some()
}

fn after_verb(verb: Verb) -> Expected
    ensures { result ≡ after_verb verb }
{
    match verb {
        Verb::Begin | Verb::Commit | Verb::Rollback | Verb::Work => Expected::End,
        Verb::Step | Verb::Finish => Expected::End,
        Verb::Insert => Expected::InsertTable,
        Verb::Select | Verb::Delete | Verb::Explain => Expected::QueryTable,
        Verb::Summarize => Expected::SummarizedIndex,
        Verb::Desummarize => Expected::DesummarizedIndex,
        Verb::Vacuum => Expected::VacuumedTable,
        Verb::Start => Expected::Statement,
    }
}

/// What may stand behind the verb of a statement that is started; none for a verb that isn't a statement's.
fn after_started(verb: Verb) -> Option<Expected>
    ensures { result ≡ after_started verb }
{
    match verb {
        Verb::Start | Verb::Step | Verb::Finish => None,
        _ => Some(after_verb(verb)),
    }
}

fn after_condition(left: u8, word: &[u8]) -> Option<Expected>
    ensures { result ≡ after_word [] (Expected.And left) word.now }
{
    if left == 0 {
        return None;
    }
    where_so(is_word(word, b"and"), Expected::Column(left - 1))
}

fn after_column(left: u8, word: &[u8]) -> Option<Expected>
    ensures { result ≡ after_column left word.now }
{
    if is_word(word, b"is") {
        return Some(Expected::Null(left));
    }
    where_so(read_op(word).is_some(), Expected::Value(left))
}

fn after_is(left: u8, word: &[u8]) -> Option<Expected>
    ensures { result ≡ after_is left word.now }
{
    if is_word(word, b"not") {
        return Some(Expected::NotNull(left));
    }
    where_so(is_word(word, b"null"), Expected::And(left))
}
