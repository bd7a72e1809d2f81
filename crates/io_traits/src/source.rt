//! Where bytes come from.

ghost use Rattle.std.specs.Prelude.{◌≡◌, ℕ, List};
ghost use Rattle.std.specs.declared.option.Option.{Option};
ghost use Rattle.std.specs.Io.{ReadsAtMost};
ghost use Rattle.std.specs.Io.KnownBytes.{ReadConsumes};
ghost use Rattle.block_model.specs.Causes.{HasCause};
ghost use Rattle.disk_trait.specs.Calls.{CountsFault};

use disk_trait::counted;
use std::io::Read;
use thiserror::Error;

/// A read failed.
#[derive(Clone, Copy, Debug, Eq, Error, PartialEq)]
#[error("a read failed")]
pub struct SourceFault;

/// Gives bytes in pieces.
pub trait Source {
    /// The bytes that are left, where it tells them.
    ghost left: { Self → Option (List ℕ) };
    /// How often a read has failed.
    ghost faults: { Self → ℕ };

    /// Fills a front of the piece. 0 comes exactly at the end, where the piece isn't empty.
    fn read(&mut self, into: &mut [u8]) -> Result<usize, SourceFault>
        ensures bound { ReadsAtMost result into.new }
        ensures bytes { ReadConsumes (left self.old) (left self.new) result into.new }
        ensures cause { HasCause (faults self.old) (faults self.new) result };

    /// How often a read has failed.
    fn faults(&self) -> u64
        ensures { result ≡ faults self.now };
}

/// A reader of std as a source.
#[derive(Drop)]
pub struct ReaderSource<R> {
    reader: R,
    faults: u64,
}

impl<R: Read> ReaderSource<R> {
    /// A source of what the reader has left, of which no read has failed so far.
    pub fn on(reader: R) -> ReaderSource<R>
        ensures left { ⟦<ReaderSource<R> as Source>⟧.left result ≡ R.remaining reader }
        ensures faults { ⟦<ReaderSource<R> as Source>⟧.faults result ≡ 0 }
    {
        ReaderSource { reader, faults: 0 }
    }
}

impl<R: Read> Source for ReaderSource<R> {
    ghost left = { λ s. R.remaining s.reader };

    ghost faults = { λ s. s.faults };

    fn read(&mut self, into: &mut [u8]) -> Result<usize, SourceFault>
        ensures bound { ReadsAtMost result into.new }
        ensures bytes { ReadConsumes (⟦<ReaderSource<R> as Source>⟧.left self.old) (⟦<ReaderSource<R> as Source>⟧.left self.new) result into.new }
        ensures cause { HasCause (⟦<ReaderSource<R> as Source>⟧.faults self.old) (⟦<ReaderSource<R> as Source>⟧.faults self.new) result }
        ensures counted { CountsFault (⟦<ReaderSource<R> as Source>⟧.faults self.old) (⟦<ReaderSource<R> as Source>⟧.faults self.new) result }
    {
        counted(self.reader.read(into).ok(), SourceFault, &mut self.faults)
    }

    fn faults(&self) -> u64 {
        self.faults
    }
}
