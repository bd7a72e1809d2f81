//! The declaration of a table.

ghost use Rattle.std.specs.Prelude.{◌≡◌, None, Some, MatchOption};
ghost use Rattle.value_text.specs.TextReading.{Gives};
ghost use Rattle.command_line.specs.DeclarationTexts.{IsNamed};
ghost use Rattle.command_line.specs.DeclarationReading.{table_head_at, table_at};
ghost use Rattle.command_line.specs.DeclaredSchema.{number_said, most_rows};
ghost use Rattle.command_line.specs.Words.{GivesAs, IsTableRead, table_with, said};

use crate::column::{ColumnsWord, columns};
use crate::name::{known_name, name};
use crate::setting::{ending, number_u16};
use block_model::{Column, Columns, Table, most_rows};
use value_text::{Reading, byte, word};

/// A table as it is written, with the digits of its rows per page.
#[derive(Drop)]
pub struct TableWord<'a> {
    pub name: &'a [u8],
    pub columns: ColumnsWord,
    pub rows: Option<&'a [u8]>,
}

/// A table, its columns read as `columns` reads them.
pub fn table<'a>(kept: Option<Columns>, wanted: &[u8], text: &'a [u8]) -> Reading<'a, TableWord<'a>>
    ensures { GivesAs (IsTableRead kept wanted.now) result (table_at text.now) }
{
    let (name, rest) = table_head(text)?;
    let (columns, rest) = columns(kept, wanted, rest)?;
    let (rows, rest) = ending(rest, b" rows_per_page ")?;
    let table = TableWord {
        name,
        columns,
        rows,
    };
    Ok((table, rest))
}

#[tactic(auto, unfolding(crate::specs::DeclarationReading::table_head_at))]
fn table_head(text: &[u8]) -> Reading<'_, &[u8]>
    ensures { Gives (λ x. (x.0.now, x.1.now)) result (table_head_at text.now) }
{
    let rest = word(text, b"table ")?;
    let (name, rest) = name(rest)?;
    let rest = byte(rest, b'(')?;
    Ok((name, rest))
}

impl TableWord<'_> {
    /// The table with the columns that were kept, None where they weren't.
    pub fn kept(self) -> Option<Table>
        requires { IsNamed self.name.now }
        ensures { MatchOption self.entry.columns.kept (result ≡ None) (λ columns. result ≡ Some (table_with self.entry columns)) }
    {
        let TableWord {
            name,
            columns,
            rows,
        } = self;
        let columns = columns.kept?;
        let rows_per_page = rows_per_page(rows, columns.as_slice());
        Some(Table {
            name: known_name(name),
            rows_per_page,
            columns,
        })
    }
}

/// The rows per page of a table: what the digits say, or as many as fit.
fn rows_per_page(rows: Option<&[u8]>, columns: &[Column]) -> u16
    ensures { result ≡ number_said 16 (most_rows columns.now) (said rows.entry) }
{
    match rows {
        Some(digits) => number_u16(digits),
        None => most_rows(columns),
    }
}
