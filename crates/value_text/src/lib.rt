//! Values as texts, both ways. `read_value` answers Ok exactly on the texts of a kind whose value is representable, with the value that the
//! text denotes, and else where the text goes wrong or which number doesn't fit. `write_value` appends the one canonical text, which reads
//! as the same value (`written_value_denotes`). Texts are read from their front, part by part, by `byte`, `word`, `end`, `digits` and
//! `written_number`, which the readers above use too. The texts are specs/ValueTexts.antt and specs/TextReading.antt, apart from reader and
//! printer. It stands on block_model, and on itoa for printed numbers. Reading takes no memory, and writing takes none but `out`'s.
#![tactic(auto)]

mod cursor;
mod laws;
mod literal;
mod net;
mod number;
mod numerals;
mod range;
mod read;
mod write;

pub use cursor::{Reading, byte, end, word};
pub use laws::{
    bytes_are_one_text, canonical_text_denotes, canonical_text_is_own, denoted_is_of_kind,
    text_has_no_space, value_of_is_denoted, written_value_denotes,
};
pub use numerals::{Numeral, digits, number_up_to, written_number};
pub use read::{TextFault, read_value};
pub use write::{append, write_value, write_values};
