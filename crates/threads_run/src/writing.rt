//! The writing of what was answered.

ghost use Rattle.std.specs.Prelude.{◌≡◌, ◌++◌, OnOk, OnErr};
ghost use Rattle.std.specs.Io.KnownBytes.{Appends};
ghost use Rattle.block_model.specs.Causes.{HasCause};
ghost use Rattle.io_traits.specs.Written.{AppendsPart};
ghost use Rattle.threads_run.specs.Output.{texts_of};

use io_traits::{Sink, SinkFault, write_all};
use session_stepper::Said;

/// Writes the texts of the lines that no worker has, and behind them those of the entries; or a front of them, where a write fails. Takes no memory.
pub(crate) fn write_output<K: Sink>(
    sink: &mut K,
    unread: &[u8],
    said: &[Said],
) -> Result<(), SinkFault>
    ensures all { OnOk result (Appends (K.taken sink.old) (K.taken sink.new) (unread.now ++ texts_of said.now)) }
    ensures part { OnErr result (AppendsPart (K.taken sink.old) (K.taken sink.new) (unread.now ++ texts_of said.now)) }
    ensures cause { HasCause (K.faults sink.old) (K.faults sink.new) result }
{
    write_all(sink, unread)?;
    write_said(sink, said)
}

/// Writes the texts of the entries, one after the other.
fn write_said<K: Sink>(sink: &mut K, said: &[Said]) -> Result<(), SinkFault>
    ensures all { OnOk result (Appends (K.taken sink.old) (K.taken sink.new) (texts_of said.now)) }
    ensures part { OnErr result (AppendsPart (K.taken sink.old) (K.taken sink.new) (texts_of said.now)) }
    ensures cause { HasCause (K.faults sink.old) (K.faults sink.new) result }
{
    'said: for entry in said {
        write_all(sink, entry.text())?;
    }
    Ok(())
}
