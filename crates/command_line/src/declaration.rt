//! A declaration, one word.

ghost use Rattle.std.specs.Prelude.{◌≡◌, ◌==◌, MatchResult};
ghost use Rattle.value_text.specs.TextReading.{begins, whole};
ghost use Rattle.value_text.specs.StopsAt.{StopsAt};
ghost use Rattle.command_line.specs.DeclarationTexts.{bytes_of, IsDeclaration};
ghost use Rattle.command_line.specs.DeclarationReading.{declaration_at};
ghost use Rattle.command_line.specs.Words.{GivesAs, IsRead, ReadsDeclaration};

use crate::index::{IndexWord, index};
use crate::table::{TableWord, table};
use block_model::Columns;
use value_text::{Reading, end};

/// A declaration as it is written.
#[derive(Drop)]
pub enum Declaration<'a> {
    Table(TableWord<'a>),
    Index(IndexWord<'a>),
}

/// The parts of a declaration, a table's columns read as `columns` reads them, or the first byte where no declaration goes on;
/// `autos` says whether ` autosummarize` is answered.
pub fn read_declaration<'a>(
    autos: bool,
    kept: Option<Columns>,
    wanted: &[u8],
    text: &'a [u8],
) -> Result<Declaration<'a>, usize>
    ensures { MatchResult result (ReadsDeclaration autos kept wanted.now text.now) (StopsAt bytes_of (IsDeclaration autos) text.now) }
{
    match all_of(autos, kept, wanted, text) {
        Ok((declaration, _)) => Ok(declaration),
        Err(left) => Err(text.len() - left.len()),
    }
}

fn all_of<'a>(
    autos: bool,
    kept: Option<Columns>,
    wanted: &[u8],
    text: &'a [u8],
) -> Reading<'a, Declaration<'a>>
    ensures { GivesAs (IsRead kept wanted.now) result (whole (declaration_at autos) text.now) }
{
    let (declaration, rest) = front(autos, kept, wanted, text)?;
    end(rest)?;
    Ok((declaration, rest))
}

fn front<'a>(
    autos: bool,
    kept: Option<Columns>,
    wanted: &[u8],
    text: &'a [u8],
) -> Reading<'a, Declaration<'a>>
    ensures { GivesAs (IsRead kept wanted.now) result (declaration_at autos text.now) }
{
    if begins_table(text) {
        let (table, rest) = table(kept, wanted, text)?;
        return Ok((Declaration::Table(table), rest));
    }
    let (index, rest) = index(text, autos)?;
    Ok((Declaration::Index(index), rest))
}

fn begins_table(text: &[u8]) -> bool
    ensures { result ≡ begins (λ c. c == 116) text.now }
{
    match text {
        [first, ..] => *first == b't',
        [] => false,
    }
}
