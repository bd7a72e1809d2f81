//! The words of a line.

ghost use Rattle.std.specs.Prelude.{◌≡◌, ◌+◌, ◌<◌, ◌≤◌, length};
ghost use Rattle.std.specs.Str.{bytes_eq};
ghost use Rattle.query_words.specs.declared.line_length.TheConstants.{MAX_LINE};

/// A word, and the byte of the line at which it begins.
#[derive(Clone, Copy)]
pub struct Word<'a> {
    pub text: &'a [u8],
    pub at: usize,
}

/// What is left of a line, and the byte of the line at which it begins.
#[derive(Clone, Copy)]
pub struct Rest<'a> {
    pub bytes: &'a [u8],
    pub at: usize,
    ghost within: { at + length bytes.now ≤ MAX_LINE },
}

mod next;

pub use next::next_word;

/// Whether the word is that one.
pub fn is_word(word: &[u8], expected: &[u8]) -> bool
    ensures { result ≡ bytes_eq word.now expected.now }
{
    if word.len() != expected.len() {
        return false;
    }
    has_bytes(word, expected)
}

/// Whether the word has these bytes, of which there are as many.
fn has_bytes(word: &[u8], expected: &[u8]) -> bool
    requires { length word.now ≡ length expected.now }
    ensures { result ≡ bytes_eq word.now expected.now }
{
    'bytes: for (i, b) in word.iter().enumerate() {
        if *b != expected[i] {
            return false;
        }
    }
    true
}
