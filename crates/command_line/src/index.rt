//! The declaration of an index.

ghost use Rattle.std.specs.Prelude.{◌≡◌, ◌+◌, ◌-◌, ◌≤◌, length, IfOk};
ghost use Rattle.value_text.specs.TextReading.{Gives};
ghost use Rattle.command_line.specs.DeclarationTexts.{before_table, before_parts};
ghost use Rattle.command_line.specs.DeclarationReading.{index_head_at, on_at, auto_at, pages_at, option_at, options_at, index_at};
ghost use Rattle.command_line.specs.DeclaredSchema.{number_said};
ghost use Rattle.command_line.specs.Words.{AreParts, index_text, IsIndexWord, said};

use crate::name::name;
use crate::part::parts;
use crate::setting::number_u32;
use value_text::{Reading, byte, digits, word};

/// An index as it is written, with the bytes of its indexed columns, the digits of its pages per range, and whether it is to be
/// summarised as it grows.
#[derive(Clone, Copy)]
pub struct IndexWord<'a> {
    pub name: &'a [u8],
    pub table: &'a [u8],
    pub parts: &'a [u8],
    pub pages: Option<&'a [u8]>,
    pub auto: bool,
}

/// How many pages a range has where it isn't said.
const USUAL_PAGES: u32 = 128;

/// An index; `autos` says whether ` autosummarize` is answered.
#[tactic(auto, unfolding(crate::specs::DeclarationReading::index_at))]
pub fn index(text: &[u8], autos: bool) -> Reading<'_, IndexWord<'_>>
    ensures read { Gives (λ x. (index_text x.0, x.1.now)) result (index_at autos text.now) }
    ensures parts { IfOk result (λ x. AreParts x.0.parts.now) }
{
    let (name, rest) = index_head(text)?;
    let (table, rest) = on(rest)?;
    let (parts, rest) = parts(rest)?;
    let rest = byte(rest, b')')?;
    let (options, rest) = options(rest, autos)?;
    let index = IndexWord {
        name,
        table,
        parts,
        pages: options.pages,
        auto: options.auto,
    };
    Ok((index, rest))
}

#[tactic(auto, unfolding(crate::specs::DeclarationReading::index_head_at))]
fn index_head(text: &[u8]) -> Reading<'_, &[u8]>
    ensures { Gives (λ x. (x.0.now, x.1.now)) result (index_head_at text.now) }
{
    let rest = word(text, b"index ")?;
    name(rest)
}

#[tactic(auto, unfolding(crate::specs::DeclarationReading::on_at))]
fn on(text: &[u8]) -> Reading<'_, &[u8]>
    ensures { Gives (λ x. (x.0.now, x.1.now)) result (on_at text.now) }
{
    let rest = word(text, b" on ")?;
    let (name, rest) = name(rest)?;
    let rest = byte(rest, b'(')?;
    Ok((name, rest))
}

/// What stands behind the columns of an index: the digits of its pages per range, and whether it has ` autosummarize`.
#[derive(Clone, Copy)]
struct IndexOptions<'a> {
    pages: Option<&'a [u8]>,
    auto: bool,
}

#[tactic(auto, unfolding(crate::specs::DeclarationReading::options_at))]
fn options(text: &[u8], autos: bool) -> Reading<'_, IndexOptions<'_>>
    ensures { Gives (λ x. ((said x.0.pages, x.0.auto), x.1.now)) result (options_at autos text.now) }
{
    match text {
        [b' ', rest @ ..] => option(rest, autos),
        _ => Ok((
            IndexOptions {
                pages: None,
                auto: false,
            },
            text,
        )),
    }
}

/// `autosummarize`, or pages per range, behind the space that both begin with.
#[tactic(auto, unfolding(crate::specs::DeclarationReading::option_at))]
fn option(text: &[u8], autos: bool) -> Reading<'_, IndexOptions<'_>>
    ensures { Gives (λ x. ((said x.0.pages, x.0.auto), x.1.now)) result (option_at autos text.now) }
{
    match text {
        [b'a', ..] if autos => {
            let rest = word(text, b"autosummarize")?;
            let options = IndexOptions {
                pages: None,
                auto: true,
            };
            Ok((options, rest))
        }
        _ => pages(text, autos),
    }
}

#[tactic(auto, unfolding(crate::specs::DeclarationReading::pages_at))]
fn pages(text: &[u8], autos: bool) -> Reading<'_, IndexOptions<'_>>
    ensures { Gives (λ x. ((said x.0.pages, x.0.auto), x.1.now)) result (pages_at autos text.now) }
{
    let rest = word(text, b"pages_per_range ")?;
    let (digits, rest) = digits(rest)?;
    let (auto, rest) = auto_word(rest, autos)?;
    let options = IndexOptions {
        pages: Some(digits),
        auto,
    };
    Ok((options, rest))
}

/// Whether ` autosummarize` stands there.
#[tactic(auto, unfolding(crate::specs::DeclarationReading::auto_at))]
fn auto_word(text: &[u8], autos: bool) -> Reading<'_, bool>
    ensures { Gives (λ x. (x.0, x.1.now)) result (auto_at autos text.now) }
{
    match text {
        [b' ', ..] if autos => {
            let rest = word(text, b" autosummarize")?;
            Ok((true, rest))
        }
        _ => Ok((false, text)),
    }
}

impl IndexWord<'_> {
    /// Where the name of its table begins.
    pub fn table_place(&self) -> usize
        requires { IsIndexWord self.now }
        ensures place { result ≡ length (before_table (index_text self.now)) }
        ensures small { result ≤ 26 }
    {
        b"index ".len() + self.name.len() + b" on ".len()
    }

    /// Where the last of its indexed columns begin, of which these are the bytes.
    pub fn place(&self, last: &[u8]) -> usize
        requires index { IsIndexWord self.now }
        requires within { length last.now ≤ length self.now.parts.now }
        ensures { result ≡ length (before_parts (index_text self.now)) + (length self.now.parts.now - length last.now) }
    {
        let before = self.table_place() + self.table.len() + b"(".len();
        before + (self.parts.len() - last.len())
    }

    /// Its pages per range: what the digits say, or the usual ones.
    pub fn pages_per_range(&self) -> u32
        ensures { result ≡ number_said 32 128 (said self.now.pages) }
    {
        match self.pages {
            Some(digits) => number_u32(digits),
            None => USUAL_PAGES,
        }
    }
}
