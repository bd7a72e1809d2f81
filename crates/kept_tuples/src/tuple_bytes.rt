//! The bytes of a tuple.

ghost use Rattle.std.specs.Prelude.{◌≡◌, IfOk};

use std::alloc::AllocError;
use std::marker::Model;

/// The bytes of a tuple. Seen as their list.
#[derive(Debug, Drop)]
pub struct TupleBytes {
    bytes: Vec<u8>,
}

impl Model for TupleBytes {
    ghost use Rattle.std.specs.Prelude.{List, ℕ};

    ghost Value = { List ℕ };

    ghost view = { λ t. t.bytes.items };
}

impl TupleBytes {
    /// These bytes. Takes no memory.
    pub fn of(bytes: Vec<u8>) -> TupleBytes
        ensures { result ≡ bytes.items }
    {
        TupleBytes { bytes }
    }

    /// A copy of them.
    pub fn copy(&self) -> Result<TupleBytes, AllocError>
        ensures { IfOk result (λ t. t ≡ self.now) }
    {
        Ok(TupleBytes {
            bytes: self.bytes.clone()?,
        })
    }

    /// The bytes.
    pub fn as_slice(&self) -> &[u8]
        ensures { result.now ≡ self.now }
    {
        self.bytes.as_slice()
    }
}
