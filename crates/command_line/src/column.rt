//! The columns of a table.

ghost use Rattle.std.specs.Prelude.{◌≡◌, ◌||◌, ◌∷◌, [], IfOk};
ghost use Rattle.std.specs.Str.{bytes_eq};
ghost use Rattle.value_text.specs.TextReading.{Gives};
ghost use Rattle.command_line.specs.DeclarationTexts.{IsNamed};
ghost use Rattle.command_line.specs.DeclarationReading.{number_kind_at, kind_at, column_at, columns_at};
ghost use Rattle.command_line.specs.Words.{GivesAs, KeepsMore, AreRead, column_of};

use crate::list::behind_comma;
use crate::name::{known_name, name};
use block_model::{Column, Columns, Kind};
use value_text::{Reading, byte, word};

/// What is known of columns that were read: their list, None where it isn't kept or memory was wanting, and whether one has
/// the name that was wanted.
#[derive(Drop)]
pub struct ColumnsWord {
    pub kept: Option<Columns>,
    pub found: bool,
}

/// A column as it is written.
#[derive(Clone, Copy)]
pub struct ColumnWord<'a> {
    pub name: &'a [u8],
    pub kind: Kind,
}

/// Columns with a comma between two. They are kept behind those of `kept`, where there are any and memory suffices; it is
/// told whether one has the wanted name.
#[tactic(auto, unfolding(crate::specs::DeclarationReading::listed_at))]
pub fn columns<'a>(kept: Option<Columns>, wanted: &[u8], text: &'a [u8]) -> Reading<'a, ColumnsWord>
    ensures { GivesAs (AreRead kept wanted.now) result (columns_at text.now) }
{
    let (first, behind) = column(text)?;
    let mut rest = behind;
    let mut columns = ColumnsWord { kept, found: false }.with(wanted, &first);
    'more: while let Some(behind) = behind_comma(rest) {
        let (next, behind) = column(behind)?;
        columns = columns.with(wanted, &next);
        rest = behind;
    }
    Ok((columns, rest))
}

impl ColumnsWord {
    /// With one column more.
    fn with(self, wanted: &[u8], column: &ColumnWord<'_>) -> ColumnsWord
        requires { IsNamed column.now.name.now }
        ensures kept { KeepsMore self.kept (column_of column.now ∷ []) result.kept }
        ensures found { result.found ≡ (self.found || bytes_eq wanted.now column.now.name.now) }
    {
        let ColumnsWord { kept, found } = self;
        ColumnsWord {
            kept: keep(kept, column),
            found: found || wanted == column.name,
        }
    }
}

fn keep(kept: Option<Columns>, column: &ColumnWord<'_>) -> Option<Columns>
    requires { IsNamed column.now.name.now }
    ensures { KeepsMore kept (column_of column.now ∷ []) result }
{
    let mut columns = kept?;
    let column = Column {
        name: known_name(column.name),
        kind: column.kind,
    };
    match columns.push(column) {
        Ok(()) => Some(columns),
        Err(_) => None,
    }
}

/// A name, a space and a kind.
#[tactic(auto, unfolding(crate::specs::DeclarationReading::column_at))]
fn column(text: &[u8]) -> Reading<'_, ColumnWord<'_>>
    ensures read { Gives (λ x. (column_of x.0, x.1.now)) result (column_at text.now) }
    ensures named { IfOk result (λ x. IsNamed x.0.name.now) }
{
    let (name, rest) = name(text)?;
    let rest = byte(rest, b' ')?;
    let (kind, rest) = kind(rest)?;
    Ok((ColumnWord { name, kind }, rest))
}

#[tactic(auto, unfolding(crate::specs::DeclarationReading::kind_at))]
fn kind(text: &[u8]) -> Reading<'_, Kind>
    ensures { Gives (λ x. (x.0, x.1.now)) result (kind_at text.now) }
{
    let rest = word(text, b"in")?;
    match rest {
        [b't', ..] => number_kind(rest),
        _ => {
            let rest = word(rest, b"et")?;
            Ok((Kind::Net, rest))
        }
    }
}

#[tactic(auto, unfolding(crate::specs::DeclarationReading::number_kind_at))]
fn number_kind(text: &[u8]) -> Reading<'_, Kind>
    ensures { Gives (λ x. (x.0, x.1.now)) result (number_kind_at text.now) }
{
    let rest = word(text, b"t8")?;
    match rest {
        [b'r', ..] => {
            let rest = word(rest, b"range")?;
            Ok((Kind::Span, rest))
        }
        _ => Ok((Kind::Int, rest)),
    }
}
