//! Single words.

ghost use Rattle.std.specs.Prelude.{◌≡◌, IfOk, IfErr, map, true, false};
ghost use Rattle.std.specs.List.{list_all};
ghost use Rattle.std.specs.Str.{is_utf8};
ghost use Rattle.command_line.specs.ClapReading.{has_no_single_hyphen, has_single_hyphen};
ghost use Rattle.command_line.specs.declared.command.CommandFault.TheVariants.{Usage};

use crate::command::CommandFault;
use block_model::Words;
use std::alloc::Global;

/// The words as texts. Usage comes only where one of them isn't UTF-8.
pub fn texts_of(alloc: Global, words: &Words) -> Result<Vec<&str>, CommandFault>
    ensures ok { IfOk result (λ texts. (list_all is_utf8 words.now ≡ true) × (map (λ w. w.now) texts.items ≡ words.now)) }
    ensures usage { IfErr result (λ fault. fault ≡ Usage → list_all is_utf8 words.now ≡ false) }
{
    let mut texts = Vec::new(alloc);
    'words: for at in 0..words.len() {
        let text = match str::from_utf8(words.word(at)) {
            Ok(text) => text,
            Err(_) => return Err(CommandFault::Usage),
        };
        texts.push(text)?;
    }
    Ok(texts)
}

/// No word in front of the first `--` has one hyphen at its front and no second.
pub fn has_no_single_hyphen(words: &[&str]) -> bool
    ensures { result ≡ has_no_single_hyphen (map (λ w. w.now) words.now) }
{
    'words: for word in words {
        if *word == "--" {
            return true;
        }
        if has_single_hyphen(word) {
            return false;
        }
    }
    true
}

fn has_single_hyphen(word: &str) -> bool
    ensures { result ≡ has_single_hyphen word.now }
{
    match word.as_bytes() {
        [b'-', b'-', ..] => false,
        [b'-', ..] => true,
        _ => false,
    }
}
