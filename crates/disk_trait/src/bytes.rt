//! Bytes put over others.

ghost use Rattle.std.specs.Prelude.{◌≡◌, ◌≤◌, ◌+◌, length, vec_len};
ghost use Rattle.disk_trait.specs.Spliced.{spliced};

/// Puts the bytes over those from `at` on.
pub fn overwrite(held: &mut Vec<u8>, at: usize, bytes: &[u8])
    requires { at + length bytes.now ≤ vec_len held.old }
    ensures { held.new.items ≡ spliced held.old.items at bytes.now }
{
    held[at..at + bytes.len()].copy_from_slice(bytes);
}
