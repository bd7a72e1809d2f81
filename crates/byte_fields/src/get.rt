//! Numbers read from bytes.

ghost use Rattle.std.specs.Int.{w64, cast_signed, cast_unsigned};
ghost use Rattle.std.specs.Prelude.{◌≡◌, ◌≤◌, ◌+◌, length};
ghost use Rattle.byte_fields.specs.Fields.{field_at, number_of, put_at};

use byteorder::{BigEndian, ByteOrder};

/// The number in the 2 bytes from place `at`, the highest byte first.
pub fn get_u16(bytes: &[u8], at: usize) -> u16
    requires within { at + 2 ≤ length bytes.now }
    ensures got { result ≡ number_of (field_at bytes.now at 2) }
    ensures again { put_at bytes.now at 2 result ≡ bytes.now }
{
    BigEndian::read_u16(&bytes[at..at + 2])
}

/// The number in the 4 bytes from place `at`, the highest byte first.
pub fn get_u32(bytes: &[u8], at: usize) -> u32
    requires within { at + 4 ≤ length bytes.now }
    ensures got { result ≡ number_of (field_at bytes.now at 4) }
    ensures again { put_at bytes.now at 4 result ≡ bytes.now }
{
    BigEndian::read_u32(&bytes[at..at + 4])
}

/// The number in the 8 bytes from place `at`, the highest byte first.
pub fn get_u64(bytes: &[u8], at: usize) -> u64
    requires within { at + 8 ≤ length bytes.now }
    ensures got { result ≡ number_of (field_at bytes.now at 8) }
    ensures again { put_at bytes.now at 8 result ≡ bytes.now }
{
    BigEndian::read_u64(&bytes[at..at + 8])
}

/// The number in the 8 bytes from place `at`, in two's complement, the highest byte first.
pub fn get_i64(bytes: &[u8], at: usize) -> i64
    requires within { at + 8 ≤ length bytes.now }
    ensures got { result ≡ cast_signed w64 (number_of (field_at bytes.now at 8)) }
    ensures again { put_at bytes.now at 8 (cast_unsigned w64 result) ≡ bytes.now }
{
    get_u64(bytes, at).cast_signed()
}
