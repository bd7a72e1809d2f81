//! What the pages of a new store show. None does anything.

ghost use Rattle.std.specs.Prelude.{◌≡◌, ◌<◌, ℕ, Bool, List, [], None, length, replicate};
ghost use Rattle.block_model.specs.DatabaseState.{initial_state};
ghost use Rattle.block_model.specs.declared.place.Place.{Place as AnyPlace};
ghost use Rattle.recovery.specs.PageOrder.{IsIndexInOrder};
ghost use Rattle.page_locks.specs.LockHolders.{LockState, holder};
ghost use Rattle.heap_rows.specs.HeapBlocks.{HasBlocks};
ghost use Rattle.snapshot_core.specs.declared.statuses.Status.{Status};
ghost use Rattle.snapshot_core.specs.declared.statuses.Status.TheVariants.{Unused as UnusedStatus};
ghost use Rattle.tx_table.specs.LeavesRest.{AreStarted};
ghost use Rattle.tx_table.specs.Statuses.{HasStatuses, number_limit};
ghost use Rattle.tx_table.specs.TxState.{IsNext};
ghost use Rattle.transactions.specs.Laws.{IsOpened};
ghost use Rattle.transactions.specs.ShowsDatabase.{ShowsDatabase};
ghost use Rattle.transactions.specs.TransactionsState.{TransactionsState};
ghost use Rattle.index_contents.specs.IndexContents.{contents, index_page};
ghost use Rattle.coverage.specs.TableCovered.{IsNewTable};
ghost use Rattle.script_semantics.specs.Starts.{IsLaidOut};
ghost use Rattle.session_starts.specs.FreshPages.{fresh_pages};
ghost use Rattle.session_starts.specs.NewTables.{IsNewIndex, new_table};

use crate::a_new_store_opens_to_fresh_pages;
use index_contents::a_store_in_order_has_its_indexes_in_order;
use index_layout::an_index_page_has_one_list;
use index_steps::{every_index_of_a_table_is_listed, tuples_of_an_index_are_lawful};
use store_layout::Layout;
use transactions::a_new_store_shows_nothing;
use tx_table::{next_numbers_are_one, statuses_are_one_list};

/// No transaction has a status in the fresh pages, whose pages of statuses are all started, and no table has a block. So the next number is 1,
/// and the transactions that are started over them show a new database.
pub fn fresh_pages_show_a_new_database(layout: &Layout)
    ensures statuses { HasStatuses layout.now (fresh_pages layout.now) (replicate (number_limit layout.now) UnusedStatus) }
    ensures started { AreStarted layout.now (fresh_pages layout.now) }
    ensures blocks { (table : ℕ) → table < length layout.now.schema.tables → HasBlocks layout.now (fresh_pages layout.now) table [] }
    ensures database { (t : TransactionsState) (stored : List Status) → HasStatuses layout.now (fresh_pages layout.now) stored → IsNext stored t.tx.next → IsOpened t → ShowsDatabase layout.now (fresh_pages layout.now) t initial_state }
{
    a_new_store_opens_to_fresh_pages(layout);
    statuses_are_one_list();
    next_numbers_are_one();
    a_new_store_shows_nothing();
    layout.known();
}

/// Each index has no entry and no tuple in the fresh pages, its first two pages alone are started, and they stand in order. So each table that
/// they show while nobody has a lock is a new one, as its declaration says.
pub fn fresh_pages_show_new_tables(layout: &Layout)
    ensures indexes { (index : ℕ) → index < length layout.now.schema.indexes → IsNewIndex (contents layout.now (fresh_pages layout.now) index) }
    ensures order { (index : ℕ) → index < length layout.now.schema.indexes → IsIndexInOrder layout.now.sizes.index_blocks (index_page layout.now (fresh_pages layout.now) index) }
    ensures tables { (locks : LockState) (table : ℕ) (counts : ℕ → Bool) → ((page : AnyPlace) → holder locks page ≡ None) → IsNewTable (new_table layout.now (fresh_pages layout.now) locks table counts) }
    ensures laid_out { (locks : LockState) (table : ℕ) (counts : ℕ → Bool) → IsLaidOut layout.now table (new_table layout.now (fresh_pages layout.now) locks table counts) }
{
    layout.known();
    a_new_store_opens_to_fresh_pages(layout);
    an_index_page_has_one_list();
    a_store_in_order_has_its_indexes_in_order();
    every_index_of_a_table_is_listed();
    tuples_of_an_index_are_lawful();
}
