//! Numbers of options.

ghost use Rattle.std.specs.Prelude.{◌≡◌, MatchOption, true, false};
ghost use Rattle.command_line.specs.CommandWords.{is_number, number_of};

/// The number of the digits, or u32::MAX where it doesn't fit. None where a byte is no digit, and where there is none.
pub fn read_number(digits: &[u8]) -> Option<u32>
    ensures { MatchOption result (is_number digits.now ≡ false) (λ n. (is_number digits.now ≡ true) × (n ≡ number_of digits.now)) }
{
    if digits.is_empty() {
        return None;
    }
    let mut number: u32 = 0;
    'digits: for digit in digits {
        if *digit < b'0' || *digit > b'9' {
            return None;
        }
        number = number
            .saturating_mul(10)
            .saturating_add(u32::from(*digit - b'0'));
    }
    Some(number)
}
