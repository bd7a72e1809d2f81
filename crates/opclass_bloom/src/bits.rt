//! Bytes as bits, the lowest bit of each byte first.

ghost use Rattle.std.specs.Prelude.{◌≡◌, ◌≢◌, ◌<◌, ◌≤◌, ◌*◌, ◌++◌, true, false, length, drop};
ghost use Rattle.opclass_bloom.specs.Bits.{is_set, with_position, united};
ghost use Rattle.opclass_bloom.specs.Encoding.{bytes_of};
ghost use Rattle.opclass_bloom.specs.Kept.{bits_of};

/// Whether the bit is set.
#[tactic(auto, using(crate::proofs::Bytes::length_bits))]
pub(crate) fn bit_of(bytes: &[u8], at: usize) -> bool
    requires { at < length (bits_of bytes.now) }
    ensures { result ≡ is_set (bits_of bytes.now) at }
{
    (bytes[at / 8] >> (at % 8)) & 1 == 1
}

/// Sets the bit, and no other.
#[tactic(auto, using(crate::proofs::Bytes::length_bits))]
pub(crate) fn set_bit(bytes: &mut [u8], at: usize)
    requires { at < length (bits_of bytes.old) }
    ensures { bits_of bytes.new ≡ with_position (bits_of bytes.old) at }
{
    bytes[at / 8] |= 1 << (at % 8);
}

/// Sets each bit that is set in as many other bytes; answers whether one was not.
#[tactic(auto, using(crate::proofs::Bytes::length_bits))]
pub(crate) fn set_bits(bytes: &mut [u8], others: &[u8]) -> bool
    requires { length (bits_of others.now) ≡ length (bits_of bytes.old) }
    ensures united { bits_of bytes.new ≡ united (bits_of bytes.old) (bits_of others.now) }
    ensures same { result ≡ false → bytes.new ≡ bytes.old }
    ensures changed { result ≡ true → bits_of bytes.new ≢ bits_of bytes.old }
{
    let mut changed = false;
    'bytes: for (i, other) in others.iter().enumerate() {
        let both = bytes[i] | *other;
        changed |= both != bytes[i];
        bytes[i] = both;
    }
    changed
}

/// Writes the bytes to the front of `out`, and answers how many they are.
pub(crate) fn copy_to(bytes: &[u8], out: &mut [u8]) -> usize
    requires { length (bytes_of (bits_of bytes.now)) ≤ length out.old }
    ensures size { result ≡ length (bytes_of (bits_of bytes.now)) }
    ensures written { out.new ≡ bytes_of (bits_of bytes.now) ++ drop result out.old }
{
    out[..bytes.len()].copy_from_slice(bytes);
    bytes.len()
}

/// Makes the bytes as many others.
#[tactic(auto, using(crate::proofs::Bytes::length_bits))]
pub(crate) fn copy_from(bytes: &mut [u8], others: &[u8])
    requires { length (bits_of bytes.old) ≡ 8 * length others.now }
    ensures length { length (bits_of bytes.new) ≡ length (bits_of bytes.old) }
    ensures copied { others.now ≡ bytes_of (bits_of bytes.new) }
{
    bytes.copy_from_slice(others);
}
