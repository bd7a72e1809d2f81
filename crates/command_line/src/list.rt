//! Lists with a comma between two items.

ghost use Rattle.std.specs.Prelude.{◌≡◌, ◌∷◌, ◌==◌, false, MatchOption};
ghost use Rattle.value_text.specs.TextReading.{begins};

/// What is behind a comma, where there is one.
pub fn behind_comma(text: &[u8]) -> Option<&[u8]>
    ensures { MatchOption result (begins (λ c. c == 44) text.now ≡ false) (λ behind. text.now ≡ 44 ∷ behind.now) }
{
    match text {
        [b',', behind @ ..] => Some(behind),
        _ => None,
    }
}
