//! The verbs of lines.

ghost use Rattle.std.specs.Prelude.{◌≡◌};
ghost use Rattle.query_words.specs.Verbs.{statement_verb};
ghost use Rattle.query_words.specs.Verbs.{verb_text, verb_of};

use crate::written::{Written, first_written};
use store_layout::Statement;

/// What a line says: the word behind the session's name. A language is the verbs that it has.
#[derive(Clone, Copy, Debug, PartialEq, Eq)]
pub enum Verb {
    Begin,
    Commit,
    Rollback,
    Insert,
    Select,
    Delete,
    Explain,
    Summarize,
    Desummarize,
    Vacuum,
    Work,
    Start,
    Step,
    Finish,
}

/// The language of the engine: all verbs.
pub const ANSWERED: [Verb; 14] = [
    Verb::Begin,
    Verb::Commit,
    Verb::Rollback,
    Verb::Insert,
    Verb::Select,
    Verb::Delete,
    Verb::Explain,
    Verb::Summarize,
    Verb::Desummarize,
    Verb::Vacuum,
    Verb::Work,
    Verb::Start,
    Verb::Step,
    Verb::Finish,
];

/// How it is written.
pub fn verb_text(verb: Verb) -> &'static [u8]
    ensures { result.now ≡ verb_text verb }
{
    match verb {
        Verb::Begin => b"begin",
        Verb::Commit => b"commit",
        Verb::Rollback => b"rollback",
        Verb::Insert => b"insert",
        Verb::Select => b"select",
        Verb::Delete => b"delete",
        Verb::Explain => b"explain",
        Verb::Summarize => b"summarize",
        Verb::Desummarize => b"desummarize",
        Verb::Vacuum => b"vacuum",
        Verb::Work => b"work",
        Verb::Start => b"start",
        Verb::Step => b"step",
        Verb::Finish => b"finish",
    }
}

impl Written for Verb {
    ghost use Rattle.query_words.specs.Verbs.{verb_text};

    ghost text = { verb_text };

    fn text(self) -> &'static [u8] {
        verb_text(self)
    }
}

/// The verb of the language that is written so.
pub fn read_verb(language: &[Verb], word: &[u8]) -> Option<Verb>
    ensures { result ≡ verb_of language.now word.now }
{
    first_written(language, word)
}

/// The verb of a statement.
pub fn statement_verb(statement: &Statement) -> Verb
    ensures { result ≡ statement_verb statement.now }
{
    match statement {
        Statement::Begin => Verb::Begin,
        Statement::Commit => Verb::Commit,
        Statement::Rollback => Verb::Rollback,
        Statement::Insert { .. } => Verb::Insert,
        Statement::Select(_) => Verb::Select,
        Statement::Delete(_) => Verb::Delete,
        Statement::Explain(_) => Verb::Explain,
        Statement::Summarize { .. } => Verb::Summarize,
        Statement::Desummarize { .. } => Verb::Desummarize,
        Statement::Vacuum { .. } => Verb::Vacuum,
        Statement::Work => Verb::Work,
    }
}
