//! A page that is written from its first byte on.

ghost use Rattle.std.specs.Prelude.{◌≡◌, ◌+◌, ◌≤◌, true, [], ◌∷◌, ◌++◌, length, replicate};
ghost use Rattle.std.specs.Int.{bytes_high_first};
ghost use Rattle.block_model.specs.declared.limits.TheConstants.{PAGE_SIZE};
ghost use Rattle.block_model.specs.Names.{is_name};
ghost use Rattle.block_model.specs.Padded.{padded};
ghost use Rattle.store_format.specs.ControlBytes.{name_bytes};

use block_model::{MAX_NAME, Name, PAGE_SIZE};
use std::marker::Model;

/// The bytes of a page as far as they are written, behind which it is zeros. Seen as the bytes that are written.
#[derive(Debug, Drop)]
pub(crate) struct PageBytes {
    bytes: [u8; PAGE_SIZE],
    len: usize,
}

impl Model for PageBytes {
    ghost use Rattle.block_model.specs.declared.limits.TheConstants.{PAGE_SIZE};
    ghost use Rattle.std.specs.Prelude.{ℕ, List, take};
    ghost use Rattle.block_model.specs.Padded.{IsPadded};

    ghost Value = { List ℕ };

    ghost view = { λ a. take a.len a.bytes };

    ghost invariant = { λ a. IsPadded PAGE_SIZE 0 a.bytes a.len };
}

impl PageBytes {
    /// Nothing is written.
    pub(crate) fn new() -> PageBytes
        ensures { result ≡ [] }
    {
        PageBytes {
            bytes: [0; PAGE_SIZE],
            len: 0,
        }
    }

    /// Writes these bytes behind those that are written.
    pub(crate) fn put(&mut self, part: &[u8])
        requires { length self.old + length part.now ≤ PAGE_SIZE }
        ensures { self.new ≡ self.old ++ part.now }
    {
        let end = self.len + part.len();
        self.bytes[self.len..end].copy_from_slice(part);
        self.len = end;
    }

    /// That many zeros count as written, which stand there.
    fn skip(&mut self, count: usize)
        requires { length self.old + count ≤ PAGE_SIZE }
        ensures { self.new ≡ self.old ++ replicate count 0 }
    {
        self.len += count;
    }

    /// Writes one byte.
    pub(crate) fn put_byte(&mut self, byte: u8)
        requires { length self.old + 1 ≤ PAGE_SIZE }
        ensures { self.new ≡ self.old ++ byte ∷ [] }
    {
        self.put(&[byte]);
    }

    /// Writes the two bytes of a number.
    pub(crate) fn put_u16(&mut self, number: u16)
        requires { length self.old + 2 ≤ PAGE_SIZE }
        ensures { self.new ≡ self.old ++ bytes_high_first 2 number }
    {
        self.put(&number.to_be_bytes());
    }

    /// Writes the four bytes of a number.
    pub(crate) fn put_u32(&mut self, number: u32)
        requires { length self.old + 4 ≤ PAGE_SIZE }
        ensures { self.new ≡ self.old ++ bytes_high_first 4 number }
    {
        self.put(&number.to_be_bytes());
    }

    /// Writes a name into 16 bytes.
    #[tactic(auto, using(crate::proofs::Padding::name_length, crate::proofs::Padding::name_short))]
    pub(crate) fn put_name(&mut self, name: &Name)
        requires { length self.old + length (name_bytes name.now) ≤ PAGE_SIZE }
        ensures written { self.new ≡ self.old ++ name_bytes name.now }
        ensures name { is_name name.now ≡ true }
    {
        name.known();
        let bytes = name.as_bytes();
        self.put(bytes);
        self.skip(MAX_NAME - bytes.len());
    }

    /// The page: what is written, and zeros behind it.
    pub(crate) fn page(&self) -> &[u8]
        ensures page { result.now ≡ padded PAGE_SIZE 0 self.now }
        ensures whole { length result.now ≡ PAGE_SIZE }
    {
        &self.bytes
    }
}
