//! The hash of a value, and the positions that it gives.

ghost use Rattle.std.specs.Prelude.{◌≡◌, ◌<◌, Some};
ghost use Rattle.opclass_bloom.specs.Mixing.{mix};
ghost use Rattle.opclass_bloom.specs.Positions.{words_of, hash_of, position};

use block_model::{Net, Value};

/// Spreads the bits of a number of 64 bits over all of them, as the generator SplitMix64 does.
#[tactic(auto, unfolding(crate::specs::Mixing::mix))]
pub(crate) fn mix(z: u64) -> u64
    ensures { result ≡ mix z }
{
    let z = (z ^ (z >> 30)).wrapping_mul(0xBF58_476D_1CE4_E5B9);
    let z = (z ^ (z >> 27)).wrapping_mul(0x94D0_49BB_1331_11EB);
    z ^ (z >> 31)
}

/// The hash of a value's words; None where it has none, as nulls and ranges.
pub(crate) fn hash(value: &Value) -> Option<u64>
    ensures { result ≡ hash_of (words_of value.now) }
{
    match value {
        Value::Int(number) => Some(mix(number.cast_unsigned())),
        Value::Net(net) => Some(net_hash(net)),
        Value::Null | Value::Span(_) => None,
    }
}

fn net_hash(net: &Net) -> u64
    ensures { Some result ≡ hash_of (words_of (Value.Net net.now)) }
{
    let address = net.address();
    let words = [
        u64::from(net.family()) * 256 + u64::from(net.prefix()),
        (address >> 64) as u64,
        (address % (1 << 64)) as u64,
    ];
    mix(mix(mix(words[0]) ^ words[1]) ^ words[2])
}

/// Position number `i` of a hash among `bits`: two hashes serve for all positions, as in brin_bloom.c.
pub(crate) fn position(bits: u16, hash: u64, i: u8) -> usize
    requires { 0 < bits }
    ensures position { result ≡ position bits hash i }
    ensures within { result < bits }
{
    let first = hash % (1 << 32);
    let second = (hash >> 32) | 1;
    ((first + u64::from(i) * second) % u64::from(bits)) as usize
}
