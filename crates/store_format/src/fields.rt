//! Fields read from the front of bytes.

ghost use Rattle.std.specs.Prelude.{◌≡◌, ◌≤◌, length, take};
ghost use Rattle.store_format.specs.ControlReading.{Gives, byte_at, name_at, number_at, skipped, until_zero};

use crate::control_fault::ControlFault;
use block_model::{MAX_NAME, Name};
use byte_fields::{get_u16, get_u32};
use std::marker::Model;

/// Bytes that are read from the front, seen as those that aren't read yet.
#[derive(Drop)]
pub(crate) struct Unread<'a> {
    bytes: &'a [u8],
}

impl<'a> Model for Unread<'a> {
    ghost use Rattle.std.specs.Prelude.{ℕ, List};

    ghost Value = { List ℕ };

    ghost view = { λ a. a.bytes.now };
}

impl<'a> Unread<'a> {
    /// None of the bytes is read.
    pub(crate) fn new(bytes: &'a [u8]) -> Unread<'a>
        ensures { result ≡ bytes.now }
    {
        Unread { bytes }
    }

    /// Passes over so many bytes.
    #[tactic(auto, unfolding(crate::specs::ControlReading::skipped))]
    pub(crate) fn skip(&mut self, count: usize) -> Result<(), ControlFault>
        ensures { Gives result self.new (skipped count self.old) }
    {
        if self.bytes.len() < count {
            return Err(ControlFault::NoStore);
        }
        self.bytes = &self.bytes[count..];
        Ok(())
    }

    /// The next byte.
    pub(crate) fn byte(&mut self) -> Result<u8, ControlFault>
        ensures { Gives result self.new (byte_at self.old) }
    {
        match self.bytes {
            [byte, rest @ ..] => {
                self.bytes = rest;
                Ok(*byte)
            }
            [] => Err(ControlFault::NoStore),
        }
    }

    /// The number of the next two bytes.
    #[tactic(auto, unfolding(crate::specs::ControlReading::number_at))]
    pub(crate) fn u16(&mut self) -> Result<u16, ControlFault>
        ensures { Gives result self.new (number_at 2 self.old) }
    {
        let bytes = self.bytes;
        if bytes.len() < 2 {
            return Err(ControlFault::NoStore);
        }
        self.bytes = &bytes[2..];
        Ok(get_u16(bytes, 0))
    }

    /// The number of the next four bytes.
    #[tactic(auto, unfolding(crate::specs::ControlReading::number_at))]
    pub(crate) fn u32(&mut self) -> Result<u32, ControlFault>
        ensures { Gives result self.new (number_at 4 self.old) }
    {
        let bytes = self.bytes;
        if bytes.len() < 4 {
            return Err(ControlFault::NoStore);
        }
        self.bytes = &bytes[4..];
        Ok(get_u32(bytes, 0))
    }

    /// The name that stands in the next 16 bytes in front of their first zero.
    #[tactic(auto, unfolding(crate::specs::ControlReading::name_at))]
    pub(crate) fn name(&mut self) -> Result<Name, ControlFault>
        ensures { Gives result self.new (name_at self.old) }
    {
        let bytes = self.bytes;
        if bytes.len() < MAX_NAME {
            return Err(ControlFault::NoStore);
        }
        let (field, rest) = bytes.split_at(MAX_NAME);
        self.bytes = rest;
        match Name::new(until_zero(field)) {
            Some(name) => Ok(name),
            None => Err(ControlFault::NoStore),
        }
    }
}

/// What stands in front of the first zero.
fn until_zero(bytes: &[u8]) -> &[u8]
    ensures { result.now ≡ until_zero bytes.now }
{
    &bytes[..zero_at(bytes)]
}

/// How many bytes stand in front of the first zero.
fn zero_at(bytes: &[u8]) -> usize
    ensures front { take result bytes.now ≡ until_zero bytes.now }
    ensures within { result ≤ length bytes.now }
{
    match bytes {
        [] | [0, ..] => 0,
        [_, rest @ ..] => 1 + zero_at(rest),
    }
}
