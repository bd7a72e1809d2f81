//! Words that stand for something.

ghost use Rattle.std.specs.Prelude.{◌≡◌, ℕ, List};
ghost use Rattle.query_words.specs.Written.{first_written};

use crate::word::is_word;

/// What a word stands for.
pub trait Written: Copy {
    /// The word.
    ghost text: { Self → List ℕ };

    /// How it is written.
    fn text(self) -> &'static [u8]
        ensures { result.now ≡ text self };
}

/// The first of them that is written so.
pub fn first_written<W: Written>(all: &[W], word: &[u8]) -> Option<W>
    ensures { result ≡ first_written W.text all.now word.now }
{
    'all: for one in all {
        if is_word(word, one.text()) {
            return Some(*one);
        }
    }
    None
}
