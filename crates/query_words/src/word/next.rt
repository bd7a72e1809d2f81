//! The first word of what is left of a line.

ghost use Rattle.std.specs.Prelude.{◌≡◌, ◌≢◌, ◌+◌, ◌<◌, ◌≤◌, ℕ, [], ◌∷◌, length, take, drop, slice_index, MatchOption, IfSome};
ghost use Rattle.query_words.specs.Words.{placed, words_from};
ghost use Rattle.query_words.specs.LineParts.{word_here, words_left};

use crate::word::{Rest, Word};

/// The first word, and what is left behind it; none where only spaces are left.
pub fn next_word(rest: Rest<'_>) -> Option<(Word<'_>, Rest<'_>)>
    ensures word { MatchOption result (words_left rest.entry ≡ []) (λ p. words_left rest.entry ≡ word_here p.0 ∷ words_left p.1) }
    ensures shorter { IfSome result (λ p. length p.1.bytes.now < length rest.entry.bytes.now) }
{
    let start = spaces_before(rest.bytes);
    if start == rest.bytes.len() {
        return None;
    }
    let from = &rest.bytes[start..];
    let end = word_len(from);
    let word = Word {
        text: &from[..end],
        at: rest.at + start,
    };
    let behind = Rest {
        bytes: &from[end..],
        at: rest.at + start + end,
    };
    Some((word, behind))
}

/// How many spaces stand first.
fn spaces_before(bytes: &[u8]) -> usize
    ensures within { result ≤ length bytes.now }
    ensures same { (at : ℕ) → words_from (at + result) [] (drop result bytes.now) ≡ words_from at [] bytes.now }
    ensures word { result < length bytes.now → slice_index bytes.now result ≢ 32 }
{
    'bytes: for (i, b) in bytes.iter().enumerate() {
        if *b != b' ' {
            return i;
        }
    }
    bytes.len()
}

/// How many bytes the word has that stands first.
fn word_len(bytes: &[u8]) -> usize
    requires some { 0 < length bytes.now }
    requires word { slice_index bytes.now 0 ≢ 32 }
    ensures within { result ≤ length bytes.now }
    ensures some { 0 < result }
    ensures first { (at : ℕ) → words_from at [] bytes.now ≡ placed (take result bytes.now) at ∷ words_from (at + result) [] (drop result bytes.now) }
{
    'bytes: for (i, b) in bytes.iter().enumerate() {
        if *b == b' ' {
            return i;
        }
    }
    bytes.len()
}
