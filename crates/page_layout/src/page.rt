//! Pages and their forms.

ghost use Rattle.std.specs.Prelude.{◌≡◌, ◌+◌, ◌≤◌, length, replicate};
ghost use Rattle.block_model.specs.declared.limits.TheConstants.{PAGE_SIZE};
ghost use Rattle.index_layout.specs.Fields.{AreBytes};
ghost use borrow.Rule.Slice.PartMut.{put_mid};

use block_model::{Kinds, PAGE_SIZE};
use std::marker::Model;
use thiserror::Error;

/// How many bytes the header of a page has.
pub(crate) const HEADER: usize = 32;

/// A page, seen as its bytes.
#[derive(Debug, Drop)]
pub struct Page {
    pub(crate) bytes: [u8; PAGE_SIZE],
}

impl Model for Page {
    ghost use Rattle.std.specs.Prelude.{ℕ, List};

    ghost Value = { List ℕ };

    ghost view = { λ page. page.bytes };
}

impl Page {
    /// A page that isn't started.
    pub fn zeroed() -> Page
        ensures { result ≡ replicate PAGE_SIZE 0 }
    {
        Page {
            bytes: [0; PAGE_SIZE],
        }
    }

    /// The page of these bytes, whatever they are.
    pub fn from_bytes(bytes: &[u8; PAGE_SIZE]) -> Page
        ensures { result ≡ bytes.now }
    {
        Page { bytes: *bytes }
    }

    /// Its bytes.
    pub fn as_bytes(&self) -> &[u8]
        ensures bytes { result.now ≡ self.now }
        ensures whole { length result.now ≡ PAGE_SIZE }
    {
        &self.bytes
    }

    /// The page becomes these bytes.
    pub fn replace(&mut self, bytes: &[u8])
        requires whole { length bytes.now ≡ PAGE_SIZE }
        ensures { self.new ≡ bytes.now }
    {
        self.bytes.copy_from_slice(bytes);
    }

    /// The bytes stand from that place on.
    pub(crate) fn write(&mut self, at: usize, bytes: &[u8])
        requires within { at + length bytes.now ≤ PAGE_SIZE }
        ensures written { self.new ≡ put_mid at (length bytes.now) self.old bytes.now }
    {
        self.bytes[at..at + bytes.len()].copy_from_slice(bytes);
    }

    /// Zeros stand in that many bytes from that place on.
    pub(crate) fn clear(&mut self, at: usize, size: usize)
        requires within { at + size ≤ PAGE_SIZE }
        ensures cleared { self.new ≡ put_mid at size self.old (replicate size 0) }
    {
        self.bytes[at..at + size].fill(0);
    }

    /// Does nothing; tells its caller how many bytes every page has.
    pub fn known(&self)
        ensures whole { length self.now ≡ PAGE_SIZE }
        ensures small { AreBytes self.now }
    {
        bytes_known(self.as_bytes());
    }
}

/// A byte is below 256. Does nothing.
pub(crate) fn bytes_known(bytes: &[u8])
    ensures { AreBytes bytes.now }
{
    // Opens the bytes, so that what their type says of each is known.
    let _ = bytes;
}

/// What a page of a relation is: statuses; the heap of a table with the bytes of its rows, the slots of a page, the kinds
/// of its columns, and the format of the store; or a page of an index.
#[derive(Clone, Copy, Debug, PartialEq, Eq)]
pub enum Form {
    Status,
    Heap {
        row: u16,
        slots: u16,
        kinds: Kinds,
        format: u16,
    },
    Index,
}

/// The lowest place of a field whose rule is broken.
#[derive(Clone, Copy, Debug, Eq, Error, PartialEq)]
#[error("the page is damaged at byte {at}")]
pub struct PageFault {
    pub at: u16,
}
