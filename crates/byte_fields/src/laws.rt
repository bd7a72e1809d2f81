//! What a put leaves as it was, whatever the number of bytes of its field.

ghost use Rattle.std.specs.Prelude.{◌≡◌, ◌≤◌, ◌+◌, ◌⊎◌, length};
ghost use Rattle.byte_fields.specs.Fields.{field_at, put_at};

/// A put keeps the number of bytes, and each field that has no byte in common with its own.
pub fn a_put_keeps_the_rest(
    bytes: &[u8],
    at: usize,
    width: usize,
    value: u64,
    from: usize,
    long: usize,
)
    requires within { at + width ≤ length bytes.now }
    requires apart { (from + long ≤ at) ⊎ (at + width ≤ from) }
    ensures length { length (put_at bytes.now at width value) ≡ length bytes.now }
    ensures field { field_at (put_at bytes.now at width value) from long ≡ field_at bytes.now from long }
{}
