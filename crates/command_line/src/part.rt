//! The indexed columns of an index.

ghost use Rattle.std.specs.Prelude.{◌≡◌, ◌<◌, ◌≤◌, List, length, Ok, Err, IfOk, IfSome, MatchResult};
ghost use Rattle.std.specs.List.{AllByRecursion};
ghost use Rattle.value_text.specs.TextReading.{Gives};
ghost use Rattle.command_line.specs.DeclarationTexts.{PartText, parts_bytes, IsPart};
ghost use Rattle.command_line.specs.DeclarationReading.{part_at, parts_at};
ghost use Rattle.command_line.specs.Words.{part_text, parts_said, AreParts, IsFirstOf};

use crate::class::{ClassWord, class};
use crate::list::behind_comma;
use crate::name::name;
use value_text::{Reading, byte};

/// An indexed column as it is written, with its class.
#[derive(Clone, Copy)]
pub struct PartWord<'a> {
    pub column: &'a [u8],
    pub class: ClassWord<'a>,
}

/// Indexed columns with a comma between two: their bytes.
pub fn parts(text: &[u8]) -> Reading<'_, &[u8]>
    ensures read { Gives (λ x. (parts_said x.0.now, x.1.now)) result (parts_at text.now) }
    ensures parts { IfOk result (λ x. AreParts x.0.now) }
{
    let rest = behind_parts(text)?;
    Ok(text.split_at(text.len() - rest.len()))
}

/// What is behind indexed columns with a comma between two.
#[tactic(auto, unfolding(crate::specs::DeclarationReading::listed_at))]
fn behind_parts(text: &[u8]) -> Result<&[u8], &[u8]>
    ensures { MatchResult result (λ rest. (parts : List PartText) × (parts_at text.now ≡ Ok (parts, rest.now))) (λ rest. parts_at text.now ≡ Err rest.now) }
{
    let (_first, behind) = part(text)?;
    let mut rest = behind;
    'more: while let Some(behind) = behind_comma(rest) {
        let (_next, behind) = part(behind)?;
        rest = behind;
    }
    Ok(rest)
}

/// The first of indexed columns, and the bytes of the others; None where there are none.
pub fn first_part(parts: &[u8]) -> Option<(PartWord<'_>, &[u8])>
    ensures first { (texts : List PartText) → AllByRecursion IsPart texts → parts.now ≡ parts_bytes texts → IsFirstOf texts result }
    ensures shorter { IfSome result (λ x. length x.1.now < length parts.now) }
{
    let Ok((part, behind)) = part(parts) else {
        return None;
    };
    match behind_comma(behind) {
        Some(others) => Some((part, others)),
        None => Some((part, behind)),
    }
}

/// A name, a space and a class.
#[tactic(auto, unfolding(crate::specs::DeclarationReading::part_at))]
fn part(text: &[u8]) -> Reading<'_, PartWord<'_>>
    ensures { Gives (λ x. (part_text x.0, x.1.now)) result (part_at text.now) }
{
    let (column, rest) = name(text)?;
    let rest = byte(rest, b' ')?;
    let (class, rest) = class(rest)?;
    Ok((PartWord { column, class }, rest))
}
