//! Numbers put into bytes.

ghost use Rattle.std.specs.Int.{w64, cast_signed, cast_unsigned};
ghost use Rattle.std.specs.Prelude.{◌≡◌, ◌≤◌, ◌+◌, length};
ghost use Rattle.byte_fields.specs.Fields.{field_at, number_of, put_at};

use byteorder::{BigEndian, ByteOrder};

/// Puts the number into the 2 bytes from place `at`, the highest byte first. All other bytes stay.
pub fn put_u16(bytes: &mut [u8], at: usize, value: u16)
    requires within { at + 2 ≤ length bytes.old }
    ensures put { bytes.new ≡ put_at bytes.old at 2 value }
    ensures got { number_of (field_at bytes.new at 2) ≡ value }
{
    BigEndian::write_u16(&mut bytes[at..at + 2], value);
}

/// Puts the number into the 4 bytes from place `at`, the highest byte first. All other bytes stay.
pub fn put_u32(bytes: &mut [u8], at: usize, value: u32)
    requires within { at + 4 ≤ length bytes.old }
    ensures put { bytes.new ≡ put_at bytes.old at 4 value }
    ensures got { number_of (field_at bytes.new at 4) ≡ value }
{
    BigEndian::write_u32(&mut bytes[at..at + 4], value);
}

/// Puts the number into the 8 bytes from place `at`, the highest byte first. All other bytes stay.
pub fn put_u64(bytes: &mut [u8], at: usize, value: u64)
    requires within { at + 8 ≤ length bytes.old }
    ensures put { bytes.new ≡ put_at bytes.old at 8 value }
    ensures got { number_of (field_at bytes.new at 8) ≡ value }
{
    BigEndian::write_u64(&mut bytes[at..at + 8], value);
}

/// Puts the number into the 8 bytes from place `at`, in two's complement, the highest byte first. All other bytes stay.
pub fn put_i64(bytes: &mut [u8], at: usize, value: i64)
    requires within { at + 8 ≤ length bytes.old }
    ensures put { bytes.new ≡ put_at bytes.old at 8 (cast_unsigned w64 value) }
    ensures got { cast_signed w64 (number_of (field_at bytes.new at 8)) ≡ value }
{
    put_u64(bytes, at, value.cast_unsigned());
}
