//! Where bytes go.

ghost use Rattle.std.specs.Prelude.{◌≡◌, ℕ, List, ◌<◌, ◌≤◌, length, take, IfOk, OnOk, OnErr};
ghost use Rattle.std.specs.declared.option.Option.{Option};
ghost use Rattle.std.specs.Io.KnownBytes.{WriteAppends, Appends};
ghost use Rattle.block_model.specs.Causes.{HasCause};
ghost use Rattle.disk_trait.specs.Calls.{CountsFault};
ghost use Rattle.io_traits.specs.Written.{AppendsPart};

use disk_trait::counted;
use std::io::Write;
use thiserror::Error;

/// A write failed.
#[derive(Clone, Copy, Debug, Eq, Error, PartialEq)]
#[error("a write failed")]
pub struct SinkFault;

/// Takes bytes in pieces.
pub trait Sink {
    /// The bytes that it took, where it tells them.
    ghost taken: { Self → Option (List ℕ) };
    /// How often a write has failed.
    ghost faults: { Self → ℕ };

    /// Takes a front of the bytes, at least one where there is one.
    fn write(&mut self, bytes: &[u8]) -> Result<usize, SinkFault>
        ensures bound { IfOk result (λ n. n ≤ length bytes.now) }
        ensures some { IfOk result (λ n. 0 < length bytes.now → 0 < n) }
        ensures bytes { WriteAppends (taken self.old) (taken self.new) result bytes.now }
        ensures cause { HasCause (faults self.old) (faults self.new) result };

    /// How often a write has failed.
    fn faults(&self) -> u64
        ensures { result ≡ faults self.now };
}

/// A writer of std as a sink.
#[derive(Drop)]
pub struct WriterSink<W> {
    writer: W,
    faults: u64,
}

impl<W: Write> WriterSink<W> {
    /// A sink into the writer, of which no write has failed so far.
    pub fn on(writer: W) -> WriterSink<W>
        ensures taken { ⟦<WriterSink<W> as Sink>⟧.taken result ≡ W.contents writer }
        ensures faults { ⟦<WriterSink<W> as Sink>⟧.faults result ≡ 0 }
    {
        WriterSink { writer, faults: 0 }
    }
}

impl<W: Write> Sink for WriterSink<W> {
    ghost taken = { λ s. W.contents s.writer };

    ghost faults = { λ s. s.faults };

    fn write(&mut self, bytes: &[u8]) -> Result<usize, SinkFault>
        ensures bound { IfOk result (λ n. n ≤ length bytes.now) }
        ensures some { IfOk result (λ n. 0 < length bytes.now → 0 < n) }
        ensures bytes { WriteAppends (⟦<WriterSink<W> as Sink>⟧.taken self.old) (⟦<WriterSink<W> as Sink>⟧.taken self.new) result bytes.now }
        ensures cause { HasCause (⟦<WriterSink<W> as Sink>⟧.faults self.old) (⟦<WriterSink<W> as Sink>⟧.faults self.new) result }
        ensures counted { CountsFault (⟦<WriterSink<W> as Sink>⟧.faults self.old) (⟦<WriterSink<W> as Sink>⟧.faults self.new) result }
    {
        let taken = self.writer.write(bytes).ok();
        let some = taken.filter(|count| *count > 0 || bytes.is_empty());
        counted(some, SinkFault, &mut self.faults)
    }

    fn faults(&self) -> u64 {
        self.faults
    }
}

/// The greatest number of bytes that one call of a sink is given.
const PIECE: usize = 65_536;

/// Writes all of the bytes, in pieces of up to 64 KiB, or a front of them and then a fault. Of no bytes it makes no call of the sink.
pub fn write_all<K: Sink>(sink: &mut K, bytes: &[u8]) -> Result<(), SinkFault>
    ensures all { OnOk result (Appends (K.taken sink.old) (K.taken sink.new) bytes.now) }
    ensures part { OnErr result (AppendsPart (K.taken sink.old) (K.taken sink.new) bytes.now) }
    ensures none { length bytes.now ≡ 0 → sink.new ≡ sink.old }
    ensures cause { HasCause (K.faults sink.old) (K.faults sink.new) result }
{
    let mut at = 0;
    while at < bytes.len() {
        at += sink.write(piece(&bytes[at..]))?;
    }
    Ok(())
}

/// The bytes, or their first 64 KiB.
fn piece(bytes: &[u8]) -> &[u8]
    ensures front { result.now ≡ take (length result.now) bytes.now }
    ensures within { length result.now ≤ length bytes.now }
    ensures some { 0 < length bytes.now → 0 < length result.now }
{
    &bytes[..bytes.len().min(PIECE)]
}
