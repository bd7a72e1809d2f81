//! A sink of nothing.

ghost use Rattle.std.specs.Prelude.{None};

use io_traits::{Sink, SinkFault};

/// Takes what it is given and keeps none of it; it never fails. For a run that answers no line with a text.
#[derive(Drop)]
pub(crate) struct Nowhere;

impl Sink for Nowhere {
    ghost taken = { λ _. None };

    ghost faults = { λ _. 0 };

    fn write(&mut self, bytes: &[u8]) -> Result<usize, SinkFault> {
        Ok(bytes.len())
    }

    fn faults(&self) -> u64 {
        0
    }
}
