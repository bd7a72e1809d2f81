//! What the words of a query mean where its table's columns are declared.

ghost use Rattle.std.specs.Prelude.{◌≡◌, ◌-◌, ◌<◌, ◌≤◌, true, [], ◌∷◌, length, None, Some, ◌+◌, ◌++◌, IsTrue, MatchOption, IfOk, IfSome};
ghost use Rattle.block_model.specs.Names.{is_name};
ghost use Rattle.block_model.specs.declared.limits.TheConstants.{MAX_COLUMNS, MAX_CONDITIONS};
ghost use Rattle.query_words.specs.LineParts.{words_left, word_here};
ghost use Rattle.query_words.specs.CondParts.{cond_here};
ghost use Rattle.query_words.specs.Lines.{ReadsOnce};
ghost use Rattle.query_words.specs.Parsed.{conds_from, BeginsWith};
ghost use Rattle.query_words.specs.Grammar.{Compared, IsNameWord, IsOperatorWord, IsValueWord, IsSaidCond, cond_texts};
ghost use Rattle.query_words.specs.Statements.{column_from, column_said, op_said, value_said, test_said, cond_said, conds_said};
ghost use Rattle.query_words.specs.Syntax.{after_word, where_so, behind_conds, stop_after, BeginsNoCond};
ghost use Rattle.query_words.specs.declared.syntax.Expected.TheVariants as expected;

use crate::line::LineFault;
use crate::{Rest, Word, is_word, next_word, read_op, takes_operator, value_in};
use block_model::{Column, Cond, Conds, Kind, MAX_CONDITIONS, NoMemory, Op, Value};
use std::alloc::Global;
use value_text::value_of_is_denoted;

/// A condition as it is written.
#[derive(Clone, Copy)]
pub enum CondWords<'a> {
    Compared(Word<'a>, Word<'a>, Word<'a>),
    Null(Word<'a>),
    NotNull(Word<'a>),
}

/// The conditions that the words are, on a table of these columns, or a fault of the words. Takes memory for them, and
/// answers a fault before want of it.
pub fn read_conds(
    alloc: Global,
    rest: Rest<'_>,
    columns: &[Column],
    line_len: usize,
) -> Result<Conds, LineFault>
    requires { length columns.now ≤ MAX_COLUMNS }
    ensures { ReadsOnce result (stop_after line_len expected.Where (words_left rest.entry)) (conds_said columns.now [] (conds_from [] (words_left rest.entry))) }
{
    value_of_is_denoted();
    let mut conds = Conds::new(alloc);
    let mut has_memory = true;
    let mut count: usize = 0;
    let mut rest = rest;
    'conds: while let Some((word, behind)) = next_word(rest) {
        if !announces(count, word.text) {
            return Err(LineFault::Syntax { at: word.at });
        }
        let Some((words, behind)) = next_cond(behind) else {
            return Err(LineFault::Syntax { at: line_len });
        };
        // The toolchain can't carry the conditions through a `?` here.
        let cond = match read_cond(columns, &words) {
            Ok(cond) => cond,
            Err(fault) => return Err(fault),
        };
        has_memory = keep(&mut conds, cond, has_memory);
        count += 1;
        rest = behind;
    }
    if has_memory {
        Ok(conds)
    } else {
        Err(LineFault::Memory)
    }
}

/// Adds a condition where there is memory for it, and says whether there was for it and before.
fn keep(conds: &mut Conds, cond: Cond, has_memory: bool) -> bool
    requires { length conds.old < MAX_CONDITIONS }
    ensures kept { IsTrue result → (conds.new ≡ conds.old ++ cond ∷ []) × IsTrue has_memory }
    ensures few { length conds.new ≤ length conds.old + 1 }
{
    match conds.push(cond) {
        Ok(()) => has_memory,
        Err(NoMemory) => false,
    }
}

/// Whether the word stands in front of a further condition, behind so many of them.
fn announces(count: usize, word: &[u8]) -> bool
    requires { count ≤ MAX_CONDITIONS }
    ensures announces { after_word [] (behind_conds count) word.now ≡ where_so result (expected.Column (15 - count)) }
    ensures room { IsTrue result → count < MAX_CONDITIONS }
{
    if count == 0 {
        return is_word(word, b"where");
    }
    count < MAX_CONDITIONS && is_word(word, b"and")
}

/// The first condition, and what is left behind it; none where the words begin none.
fn next_cond(rest: Rest<'_>) -> Option<(CondWords<'_>, Rest<'_>)>
    ensures cond { MatchOption result (BeginsNoCond (words_left rest.entry)) (λ p. BeginsWith (words_left rest.entry) (cond_here p.0) (words_left p.1)) }
    ensures shorter { IfSome result (λ p. length p.1.bytes.now < length rest.entry.bytes.now) }
{
    let (column, rest) = next_word(rest)?;
    let (op, rest) = next_word(rest)?;
    let (value, rest) = next_word(rest)?;
    if !is_word(op.text, b"is") {
        return Some((CondWords::Compared(column, op, value), rest));
    }
    if is_word(value.text, b"null") {
        return Some((CondWords::Null(column), rest));
    }
    let (null, rest) = next_word(rest)?;
    if is_word(value.text, b"not") && is_word(null.text, b"null") {
        return Some((CondWords::NotNull(column), rest));
    }
    None
}

fn read_cond(columns: &[Column], words: &CondWords<'_>) -> Result<Cond, LineFault>
    requires { length columns.now ≤ MAX_COLUMNS }
    ensures cond { result ≡ cond_said columns.now (cond_here words.now) }
    ensures said { IfOk result (λ _. IsSaidCond (cond_texts (cond_here words.now))) }
{
    match words {
        CondWords::Compared(column, op, value) => read_comparison(columns, column, op, value),
        CondWords::Null(column) => read_test(columns, column, Op::IsNull),
        CondWords::NotNull(column) => read_test(columns, column, Op::NotNull),
    }
}

fn read_comparison(
    columns: &[Column],
    column: &Word<'_>,
    op: &Word<'_>,
    value: &Word<'_>,
) -> Result<Cond, LineFault>
    requires { length columns.now ≤ MAX_COLUMNS }
    ensures cond { result ≡ cond_said columns.now (Compared (word_here column.now) (word_here op.now) (word_here value.now)) }
    ensures said { IfOk result (λ _. IsSaidCond (cond_texts (Compared (word_here column.now) (word_here op.now) (word_here value.now)))) }
{
    let (column, kind) = read_column(columns, column)?;
    let op = read_op_of(kind, op)?;
    let key = read_key(kind, value)?;
    Ok(Cond { column, op, key })
}

fn read_test(columns: &[Column], column: &Word<'_>, op: Op) -> Result<Cond, LineFault>
    requires { length columns.now ≤ MAX_COLUMNS }
    ensures cond { result ≡ test_said columns.now (word_here column.now) op }
    ensures named { IfOk result (λ _. IsNameWord column.now.text.now) }
{
    let (column, _) = read_column(columns, column)?;
    let key = Value::Null;
    Ok(Cond { column, op, key })
}

/// The number and the kind of the declared column that the word names, or a fault at the word.
fn read_column(columns: &[Column], word: &Word<'_>) -> Result<(u8, Kind), LineFault>
    requires { length columns.now ≤ MAX_COLUMNS }
    ensures column { result ≡ column_said columns.now (word_here word.now) }
    ensures named { IfOk result (λ _. IsNameWord word.now.text.now) }
{
    match column_named(columns, word.text) {
        Some(column) => Ok(column),
        None => Err(LineFault::NoColumn { at: word.at }),
    }
}

fn column_named(columns: &[Column], name: &[u8]) -> Option<(u8, Kind)>
    requires { length columns.now ≤ MAX_COLUMNS }
    ensures column { result ≡ column_from 0 columns.now name.now }
    ensures named { IfSome result (λ _. is_name name.now ≡ true) }
{
    'columns: for (i, column) in columns.iter().enumerate() {
        if is_word(column.name.as_bytes(), name) {
            column.name.known();
            return Some((i as u8, column.kind));
        }
    }
    None
}

/// The operator that the word is, of that kind, or a fault at the word.
fn read_op_of(kind: Kind, word: &Word<'_>) -> Result<Op, LineFault>
    ensures op { result ≡ op_said kind (word_here word.now) }
    ensures said { IfOk result (λ _. IsOperatorWord word.now.text.now) }
{
    match read_op(word.text) {
        Some(op) if takes_operator(kind, op) => Ok(op),
        _ => Err(LineFault::Kind { at: word.at }),
    }
}

/// The value that the word is, of that kind, or a fault at the word.
pub fn read_key(kind: Kind, word: &Word<'_>) -> Result<Value, LineFault>
    ensures value { result ≡ value_said kind (word_here word.now) }
    ensures said { IfOk result (λ _. IsValueWord word.now.text.now) }
{
    value_of_is_denoted();
    match value_in(kind, word.text) {
        Some(value) => Ok(value),
        None => Err(LineFault::Kind { at: word.at }),
    }
}
