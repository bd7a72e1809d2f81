//! The values that words are.

ghost use Rattle.std.specs.Prelude.{◌≡◌};
ghost use Rattle.value_text.specs.ValueOf.{value_of};
ghost use Rattle.query_words.specs.ValueWords.{is_value_word};

use block_model::{Kind, Value};
use value_text::{read_value, value_of_is_denoted};

/// The value of the kind that the word is.
pub fn value_in(kind: Kind, word: &[u8]) -> Option<Value>
    ensures { result ≡ value_of kind word.now }
{
    value_of_is_denoted();
    match read_value(kind, word) {
        Ok(value) => Some(value),
        Err(_) => None,
    }
}

/// Whether the word is a value of some kind.
pub fn is_value_word(word: &[u8]) -> bool
    ensures { result ≡ is_value_word word.now }
{
    value_in(Kind::Int, word).is_some()
        || value_in(Kind::Span, word).is_some()
        || value_in(Kind::Net, word).is_some()
}
