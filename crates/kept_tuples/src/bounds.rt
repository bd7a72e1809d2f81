//! The bounds of a minmax column, as the bytes of a tuple have them.

ghost use Rattle.std.specs.Prelude.{Some};
ghost use Rattle.kept_tuples.specs.MinMaxTuples.{Tells};

use byte_fields::{get_i64, get_u32};

/// How many bytes the tuple of one minmax column with values has.
const SIZE: usize = 24;

/// Where its flags, its state and the length of its summary stand; and what they are in a final tuple with values alone, and with nulls too.
const HEAD_AT: usize = 4;

const VALUES: u32 = 0x0002_0010;

const BOTH: u32 = 0x0003_0010;

const LEAST_AT: usize = 8;

const GREATEST_AT: usize = 16;

/// What is known of a tuple: nothing; or that it is the final one of one minmax column, with nulls or without, and with this least and
/// this greatest value.
#[derive(Clone, Copy, Debug)]
pub enum Bounds {
    Unknown,
    MinMax {
        nulls: bool,
        least: i64,
        greatest: i64,
    },
}

impl Bounds {
    /// What the bytes of a tuple tell. Takes no memory.
    pub fn of(bytes: &[u8]) -> Bounds
        ensures { Tells result (Some bytes.now) }
    {
        if bytes.len() != SIZE {
            return Bounds::Unknown;
        }
        let head = get_u32(bytes, HEAD_AT);
        let least = get_i64(bytes, LEAST_AT);
        let greatest = get_i64(bytes, GREATEST_AT);
        if greatest < least {
            return Bounds::Unknown;
        }
        match head {
            VALUES => Bounds::MinMax {
                nulls: false,
                least,
                greatest,
            },
            BOTH => Bounds::MinMax {
                nulls: true,
                least,
                greatest,
            },
            _ => Bounds::Unknown,
        }
    }
}
