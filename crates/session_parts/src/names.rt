//! The names that replies of steps tell.

ghost use Rattle.std.specs.Prelude.{◌≡◌, ◌<◌, ℕ, length, slice_get, Some};
ghost use Rattle.block_model.specs.declared.reply.What.TheVariants as whats;
ghost use Rattle.script_semantics.specs.IndexTuples.{index_at};
ghost use Rattle.script_semantics.specs.ShownTable.{indexes_of};
ghost use Rattle.script_semantics.specs.Names.{index_name, table_name};

use crate::faults::StoreFault;
use crate::journal::Journal;
use block_model::{Name, What};
use page_locks::Held;
use store_layout::Layout;

/// The name of a table.
pub fn table_named(layout: &Layout, table: u8) -> Name
    requires { table < length layout.now.schema.tables }
    ensures { result ≡ table_name layout.now table }
{
    layout.schema().tables.as_slice()[table as usize].name
}

/// The name of an index, by its number among all.
pub fn index_named(layout: &Layout, index: u8) -> Name
    requires { index < length layout.now.schema.indexes }
    ensures name { result ≡ (index_at layout.now index).name }
    ensures among { (table at : ℕ) → slice_get (indexes_of layout.now table) at ≡ Some index → result ≡ index_name layout.now table at }
{
    layout.schema().indexes.as_slice()[index as usize].name
}

/// The page of an index that a statement waits for.
pub fn page_waited_for(layout: &Layout, index: u8, held: &Held) -> What
    requires { index < length layout.now.schema.indexes }
    ensures page { result ≡ whats.Page (index_at layout.now index).name held.now.page.block }
    ensures among { (table at : ℕ) → slice_get (indexes_of layout.now table) at ≡ Some index → result ≡ whats.Page (index_name layout.now table at) held.now.page.block }
{
    What::Page {
        relation: index_named(layout, index),
        block: held.page.block,
    }
}

/// The summarise lock that a statement waits for.
pub fn lock_waited_for(layout: &Layout, table: u8) -> What
    requires { table < length layout.now.schema.tables }
    ensures { result ≡ whats.Work (table_name layout.now table) }
{
    What::Work {
        table: table_named(layout, table),
    }
}

/// The requests of a step don't fit into the journal.
pub fn spent(journal: &Journal) -> StoreFault
    ensures { result ≡ StoreFault.Spent (length journal.now.entries) }
{
    StoreFault::Spent {
        entries: journal.len() as u64,
    }
}
