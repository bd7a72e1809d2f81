//! What texts and values are to one another.

ghost use Rattle.value_text.specs.Laws.{BytesAreOneText, CanonicalTextDenotes, CanonicalTextIsOwn, DenotedIsOfKind, TextHasNoSpace};
ghost use Rattle.value_text.specs.ValueTexts.{Denotes};
ghost use Rattle.value_text.specs.CanonicalTexts.{canonical_text};
ghost use Rattle.block_model.specs.ValuesOfKind.{has_kind};
ghost use Rattle.std.specs.Prelude.{◌≡◌, true, Ok};
ghost use Rattle.value_text.specs.ValueOf.{ValueOfIsDenoted};

use block_model::{Kind, Value};

/// No bytes are a text of a kind in two ways, so each text denotes one value.
pub fn bytes_are_one_text()
    ensures { BytesAreOneText }
{}

/// A value that a text denotes is one of the text's kind.
pub fn denoted_is_of_kind()
    ensures { DenotedIsOfKind }
{}

/// The canonical text of a value is a text of its kind and denotes it, so what is printed reads as the same value.
pub fn canonical_text_denotes()
    ensures { CanonicalTextDenotes }
{}

/// No two values of one kind are printed as the same text.
pub fn canonical_text_is_own()
    ensures { CanonicalTextIsOwn }
{}

/// The value of bytes, read from their front, is the one that they denote.
pub fn value_of_is_denoted()
    ensures { ValueOfIsDenoted }
{}

/// No text of a value has a space.
pub fn text_has_no_space()
    ensures { TextHasNoSpace }
{}

/// What `write_value` appends for a value that has the kind is a text of the kind that denotes it, so `read_value` reads it
/// back. Does nothing.
pub fn written_value_denotes(kind: Kind, value: &Value)
    requires { has_kind kind value.now ≡ true }
    ensures { Denotes kind (canonical_text value.now) (Ok value.now) }
{
    value.known();
}
