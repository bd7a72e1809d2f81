//! Names at the front of a text.

ghost use Rattle.std.specs.Prelude.{◌≡◌, ◌≤◌, length, IfOk};
ghost use Rattle.std.specs.List.{prefix_len};
ghost use Rattle.block_model.specs.Names.{is_lower, is_more};
ghost use Rattle.value_text.specs.TextReading.{Gives, begins};
ghost use Rattle.command_line.specs.DeclarationTexts.{IsNamed};
ghost use Rattle.command_line.specs.DeclarationReading.{name_at};

use block_model::{MAX_NAME, Name};
use value_text::Reading;

/// A lower-case letter and the letters, digits and `_` behind it, up to sixteen bytes.
pub fn name(text: &[u8]) -> Reading<'_, &[u8]>
    ensures read { Gives (λ x. (x.0.now, x.1.now)) result (name_at text.now) }
    ensures named { IfOk result (λ x. IsNamed x.0.now) }
{
    if !begins_name(text) {
        return Err(text);
    }
    Ok(text.split_at(more_count(text).min(MAX_NAME)))
}

fn begins_name(text: &[u8]) -> bool
    ensures { result ≡ begins is_lower text.now }
{
    match text {
        [first, ..] => first.is_ascii_lowercase(),
        [] => false,
    }
}

/// The name of bytes that are one.
pub fn known_name(bytes: &[u8]) -> Name
    requires { IsNamed bytes.now }
    ensures { result ≡ bytes.now }
{
    match Name::new(bytes) {
        Some(name) => name,
        None => unreachable!(),
    }
}

/// How many bytes at the front may stand in a name.
fn more_count(text: &[u8]) -> usize
    ensures count { result ≡ prefix_len is_more text.now }
    ensures within { result ≤ length text.now }
{
    text.iter().take_while(|c| is_more(**c)).count()
}

fn is_more(c: u8) -> bool
    ensures { result ≡ is_more c }
{
    c.is_ascii_lowercase() || c.is_ascii_digit() || c == b'_'
}
