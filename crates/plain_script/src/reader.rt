//! The reading of a script.

ghost use Rattle.std.specs.Prelude.{◌≡◌, ◌≤◌, IfOk, IfSome, IsErrOf, length};
ghost use Rattle.block_model.specs.Causes.{Rose};
ghost use Rattle.script_run.specs.Script.{script_lines};
ghost use Rattle.plain_script.specs.Gathering.{AreFor};
ghost use Rattle.plain_script.specs.PlainScripts.{HasItsSessions, plain_script};
ghost use Rattle.plain_script.specs.ScriptReads.{ReadsScript};

use crate::fault::{ScriptFault, script_fault};
use crate::gatherer::Gatherer;
use crate::nowhere::Nowhere;
use crate::script_lines::ScriptLines;
use io_traits::Source;
use script_run::run;
use std::alloc::Global;
use store_layout::Layout;

/// Reads a script of up to `limit` bytes, whole. Ok comes where the source was read to its end; `Read` only where a read has failed, and
/// `Spent` exactly where `limit` bytes were taken and another came. Memory is taken for a buffer of fixed size, and for what is kept.
pub fn read_script<S: Source>(
    alloc: Global,
    limit: u64,
    layout: &Layout,
    source: &mut S,
) -> Result<ScriptLines, ScriptFault>
    ensures reads { ReadsScript layout.now.schema limit (S.left source.old) (S.left source.new) result }

    // Where the source tells its bytes, all of them are the script.
    ensures whole { IfOk result (λ held. IfSome (S.left source.old) (λ script. held.script ≡ plain_script layout.now.schema (script_lines script))) }
    ensures fit { IfOk result (λ held. AreFor layout.now.schema held.script.lines) }
    ensures sessions { IfOk result (λ held. HasItsSessions held.script) }

    // A line takes a byte.
    ensures few { IfOk result (λ held. length held.script.lines ≤ limit) }
    ensures later { S.faults source.old ≤ S.faults source.new }
    ensures read { IsErrOf result ScriptFault.Read → Rose (S.faults source.old) (S.faults source.new) }
{
    let mut gatherer = Gatherer::new(alloc, layout);
    match run(alloc, limit, &mut gatherer, source, &mut Nowhere) {
        Ok(()) => Ok(gatherer.into_lines()),
        Err(fault) => Err(script_fault(fault)),
    }
}
