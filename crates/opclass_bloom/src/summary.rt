//! The summary of the bloom class.

ghost use Rattle.std.specs.Prelude.{◌≡◌, ◌≢◌, ◌≤◌, ◌<◌, ◌*◌, ◌++◌, true, false, length, replicate, drop, IfOk};
ghost use Rattle.opclass_bloom.specs.Bits.{is_set, with_position, united};
ghost use Rattle.opclass_bloom.specs.Encoding.{bytes_of};

use crate::bits::{bit_of, copy_from, copy_to, set_bit, set_bits};
use block_model::NoMemory;
use std::alloc::Global;
use std::boxed::BoxedSlice;
use std::marker::Model;

/// A list of positions, each set or not. Kept as the bits of bytes, the lowest bit of each byte first, in a box that can't
/// grow: no call takes memory.
#[derive(Debug, Drop)]
pub struct Summary {
    bytes: BoxedSlice<u8>,
}

impl Model for Summary {
    ghost use Rattle.std.specs.Prelude.{Bool, List};

    ghost Value = { List Bool };

    ghost use Rattle.opclass_bloom.specs.Kept.{bits_of};
    ghost use Rattle.std.specs.Box.{boxed_slice_items};

    ghost view = { λ a. bits_of (boxed_slice_items a.bytes) };
}

impl Summary {
    /// Eight positions for each of so many bytes, none of them set. Takes these bytes.
    pub(crate) fn with_bytes(alloc: Global, bytes: usize) -> Result<Summary, NoMemory>
        ensures { IfOk result (λ s. s ≡ replicate (8 * bytes) false) }
    {
        let bytes = vec![in alloc; 0u8; bytes]?;
        Ok(Summary {
            bytes: bytes.into_boxed_slice(),
        })
    }

    /// Whether the position is set.
    pub(crate) fn is_set(&self, position: usize) -> bool
        requires { position < length self.now }
        ensures { result ≡ is_set self.now position }
    {
        bit_of(self.bytes.as_slice(), position)
    }

    /// Sets the position, and no other.
    pub(crate) fn set(&mut self, position: usize)
        requires { position < length self.old }
        ensures { self.new ≡ with_position self.old position }
    {
        set_bit(self.bytes.as_mut_slice(), position);
    }

    /// Sets each position that is set in the other, which has as many; answers whether one was not.
    pub(crate) fn unite(&mut self, other: &Summary) -> bool
        requires { length other.now ≡ length self.old }
        ensures united { self.new ≡ united self.old other.now }
        ensures same { result ≡ false → self.new ≡ self.old }
        ensures changed { result ≡ true → self.new ≢ self.old }
    {
        set_bits(self.bytes.as_mut_slice(), other.bytes.as_slice())
    }

    /// Writes the bytes to the front of `out`, and answers how many they are.
    pub(crate) fn write(&self, out: &mut [u8]) -> usize
        requires { length (bytes_of self.now) ≤ length out.old }
        ensures size { result ≡ length (bytes_of self.now) }
        ensures written { out.new ≡ bytes_of self.now ++ drop result out.old }
    {
        copy_to(self.bytes.as_slice(), out)
    }

    /// Makes the positions those that the bytes say, which are an eighth of them.
    pub(crate) fn read(&mut self, bytes: &[u8])
        requires { length self.old ≡ 8 * length bytes.now }
        ensures size { length self.new ≡ length self.old }
        ensures found { bytes.now ≡ bytes_of self.new }
    {
        copy_from(self.bytes.as_mut_slice(), bytes);
    }
}
