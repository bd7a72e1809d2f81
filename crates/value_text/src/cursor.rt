//! The front of a text.

ghost use Rattle.std.specs.Prelude.{◌≡◌, []};
ghost use Rattle.value_text.specs.TextReading.{Gives, end_at, byte_at, word_at};

/// What was read and what is left behind it, or what is left where no text goes on.
pub type Reading<'a, T> = Result<(T, &'a [u8]), &'a [u8]>;

/// The end of the text.
pub fn end(text: &[u8]) -> Result<(), &[u8]>
    ensures { Gives (λ x. (tt, [])) result (end_at text.now) }
{
    if text.is_empty() { Ok(()) } else { Err(text) }
}

/// One byte; what is left behind it.
pub fn byte(text: &[u8], wanted: u8) -> Result<&[u8], &[u8]>
    ensures { Gives (λ rest. (tt, rest.now)) result (byte_at wanted text.now) }
{
    match text {
        [first, rest @ ..] if *first == wanted => Ok(rest),
        _ => Err(text),
    }
}

/// The bytes of a word; what is left behind them.
pub fn word<'a>(text: &'a [u8], word: &[u8]) -> Result<&'a [u8], &'a [u8]>
    ensures { Gives (λ rest. (tt, rest.now)) result (word_at word.now text.now) }
{
    let mut rest = text;
    'bytes: for wanted in word {
        rest = byte(rest, *wanted)?;
    }
    Ok(rest)
}
