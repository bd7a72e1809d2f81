//! The numbers of blocks.

ghost use Rattle.std.specs.Prelude.{◌≡◌, ◌^◌, nat_lt, ◌&&◌, None, Some, length, if◌then◌else◌};
ghost use Rattle.std.specs.List.{list_all};
ghost use Rattle.block_model.specs.Names.{is_digit};
ghost use Rattle.query_words.specs.Blocks.{is_block, block_of};

use value_text::number_up_to;

/// One more than the greatest number of a block.
const PAST_BLOCKS: u64 = 1 << 32;

/// The number of the block that the word is.
pub fn read_block(word: &[u8]) -> Option<u32>
    ensures { result ≡ (if is_block word.now then Some (block_of word.now) else None) }
{
    below_limit(are_digits(word), number_up_to(word, PAST_BLOCKS))
}

/// Whether the word is a block.
pub fn is_block(word: &[u8]) -> bool
    ensures { result ≡ is_block word.now }
{
    read_block(word).is_some()
}

/// The number, where it was spelt by digits and is one of a block.
fn below_limit(digits: bool, number: u64) -> Option<u32>
    ensures { result ≡ (if digits && nat_lt number (2 ^ 32) then Some number else None) }
{
    if digits && number < PAST_BLOCKS {
        Some(number as u32)
    } else {
        None
    }
}

fn are_digits(word: &[u8]) -> bool
    ensures { result ≡ (nat_lt 0 (length word.now) && list_all is_digit word.now) }
{
    !word.is_empty() && all_digits(word)
}

fn all_digits(word: &[u8]) -> bool
    ensures { result ≡ list_all is_digit word.now }
{
    word.iter().all(|c| is_digit(*c))
}

fn is_digit(c: u8) -> bool
    ensures { result ≡ is_digit c }
{
    c >= b'0' && c <= b'9'
}
