//! The statuses as the pages show them, and what a store that was opened has.

ghost use Rattle.std.specs.Prelude.{◌≡◌, ◌<◌, ℕ, List};
ghost use Rattle.page_store.specs.PageOrder.{AreInOrder};
ghost use Rattle.page_map.specs.Forms.{IsPageIn};
ghost use Rattle.page_map.specs.PageMap.{PageMap, block_at};
ghost use Rattle.snapshot_core.specs.declared.statuses.Status.{Status};
ghost use Rattle.store_layout.specs.DiskLayout.{DiskLayout};
ghost use Rattle.tx_table.specs.LeavesRest.{AreStarted};
ghost use Rattle.tx_table.specs.Statuses.{HasStatuses, status_relation};
ghost use Rattle.tx_table.specs.TxState.{IsNext};

/// Pages have one list of statuses.
pub fn statuses_are_one_list()
    ensures { (layout : DiskLayout) (pages : PageMap) (a b : List Status) → HasStatuses layout pages a → HasStatuses layout pages b → a ≡ b }
{}

/// A list of statuses has one next number.
pub fn next_numbers_are_one()
    ensures { (statuses : List Status) (a b : ℕ) → IsNext statuses a → IsNext statuses b → a ≡ b }
{}

/// In pages in order, of which each page of statuses passes its check, as in a store that was opened, each is started.
pub fn pages_in_order_are_started()
    ensures { (layout : DiskLayout) (pages : PageMap) → AreInOrder layout pages → ((block : ℕ) → block < layout.sizes.status_blocks → IsPageIn layout status_relation (block_at pages status_relation block)) → AreStarted layout pages }
{}
