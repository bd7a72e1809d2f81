//! The loop over the lines of a script.

ghost use Rattle.std.specs.Prelude.{◌≡◌, ◌≤◌, IsErrOf};
ghost use Rattle.block_model.specs.Causes.{Rose};
ghost use Rattle.script_run.specs.Serving.{Serves};
ghost use Rattle.script_run.specs.Runs.{Ran};

use crate::Lines;
use crate::engine::Engine;
use crate::fault::RunFault;
use io_traits::{Sink, Source, write_all};
use std::alloc::Global;

/// Runs the script of the source, of up to `limit` bytes: each line is answered by the engine, and the answer written to
/// the sink before the next line is asked for. Ok comes where all lines were answered. An empty answer makes no call of
/// the sink. Memory is taken for the reader's buffer at first, and then by the engine and for the longest answer alone.
pub fn run<E: Engine, S: Source, K: Sink>(
    alloc: Global,
    limit: u64,
    engine: &mut E,
    source: &mut S,
    sink: &mut K,
) -> Result<(), RunFault>
    ensures ran { Ran E.answers E.stops engine.old engine.new limit result (S.left source.old) (S.left source.new) (K.taken sink.old) (K.taken sink.new) }

    // A fault is answered only where its count rose.
    ensures read { IsErrOf result RunFault.Read → Rose (S.faults source.old) (S.faults source.new) }
    ensures write { IsErrOf result RunFault.Write → Rose (K.faults sink.old) (K.faults sink.new) }
    ensures read_later { S.faults source.old ≤ S.faults source.new }
    ensures write_later { K.faults sink.old ≤ K.faults sink.new }
{
    let mut lines = Lines::new(alloc, limit)?;
    let mut reply = Vec::new(alloc);
    'lines: loop {
        let Some(line) = lines.next(source)? else {
            return Ok(());
        };
        serve(engine, line, &mut reply, sink)?;
    }
}

/// Answers a line, and writes the answer.
fn serve<E: Engine, K: Sink>(
    engine: &mut E,
    line: &[u8],
    reply: &mut Vec<u8>,
    sink: &mut K,
) -> Result<(), RunFault>
    ensures serves { Serves E.answers E.stops engine.old engine.new (K.taken sink.old) (K.taken sink.new) line.now result }
    ensures later { K.faults sink.old ≤ K.faults sink.new }
    ensures cause { IsErrOf result RunFault.Write → Rose (K.faults sink.old) (K.faults sink.new) }
{
    reply.clear();
    engine.answer(line, reply)?;
    write_all(sink, reply.as_slice())?;
    Ok(())
}
