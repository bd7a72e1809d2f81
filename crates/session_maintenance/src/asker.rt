//! Who asked for a summary.

ghost use Rattle.std.specs.Prelude.{◌≡◌, ℕ, ◌<◌, Some, length, slice_get};
ghost use Rattle.summarise_core.specs.Summarises.{count_of};
ghost use Rattle.index_steps.specs.ShownTable.{indexes_of};
ghost use Rattle.script_semantics.specs.Names.{index_name};
ghost use Rattle.session_maintenance.specs.Askers.{reply_for};

use block_model::Reply;
use session_parts::index_named;
use store_layout::Layout;
use summarise_core::Summarise;

/// A summarise is asked for by a line, as a statement of its own; or by an insert, and work makes it for the range of the request.
#[derive(Clone, Copy)]
pub(crate) enum Asker {
    Line,
    Insert { range: u32 },
}

/// How many ranges the summarise gave a final tuple; work tells its index and its range too.
pub(crate) fn told(asker: Asker, layout: &Layout, summarise: &Summarise) -> Reply
    requires { summarise.now.index < length layout.now.schema.indexes }
    ensures { (table at : ℕ) → slice_get (indexes_of layout.now table) at ≡ Some summarise.now.index → result ≡ reply_for asker (index_name layout.now table at) (count_of summarise.now) }
{
    let count = summarise.count();
    match asker {
        Asker::Line => Reply::Summarized { count },
        Asker::Insert { range } => Reply::Worked {
            index: index_named(layout, summarise.index()),
            range,
            count,
        },
    }
}
