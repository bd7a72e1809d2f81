//! What the steps of a vacuum are in its table, as laws.

ghost use Rattle.std.specs.Prelude.{◌≡◌, ◌≢◌, ℕ, ◌<◌, Bool, List, Option, Some};
ghost use Rattle.block_model.specs.declared.place.Spot.{Spot};
ghost use Rattle.block_model.specs.declared.reply.Point.{Point};
ghost use Rattle.page_layout.specs.PageContents.{Slot};
ghost use Rattle.page_locks.specs.declared.did.Did.{Did};
ghost use Rattle.page_locks.specs.LockHolders.{LockState};
ghost use Rattle.page_map.specs.PageMap.{PageMap};
ghost use Rattle.store_layout.specs.DiskLayout.{DiskLayout};
ghost use Rattle.coverage.specs.Accounts.{Account};
ghost use Rattle.coverage.specs.Machines.{IsFewer, MachineWaits, ShownTable, Unseen, table_state, task_turned};
ghost use Rattle.coverage.specs.StepsLeft.{IsCleaning, cleaning_steps};
ghost use Rattle.coverage.specs.Table.{Sweeps, Task};
ghost use Rattle.coverage.specs.TableCovered.{IsTableKept};
ghost use Rattle.coverage.specs.TablePoints.{WaitedFor};
ghost use Rattle.index_steps.specs.ShownRows.{ShowsKept, shown_by};
ghost use Rattle.vacuum_core.specs.declared.standing.Standing.TheVariants as standings;
ghost use Rattle.vacuum_core.specs.DeadRows.{DropsTheDead, Living};
ghost use Rattle.vacuum_core.specs.SparedRows.{AreWatched};
ghost use Rattle.vacuum_core.specs.TableSteps.{DoesInTable, HasCounted, IsSpared, VacuumGoesTo, VacuumWaitsFor, account_by, lock_turned, unnamed_turned};
ghost use Rattle.vacuum_core.specs.Vacuums.{HasHeap, IsVacuumOf, VacuumDoes, VacuumState, VacuumStep};

use coverage::{a_table_steps_with_its_index, statements_end, table_stays_covered};
use index_steps::every_index_of_a_table_is_listed;

/// A step of a vacuum is what its session does in the table, whatever the pages and locks don't show, if no scan of another session sees a
/// row that it drops, and no running insert has put one: it takes the summarise lock, or drops rows of its block, or tuples of its page, and
/// comes to the next block or page; behind the last one it is before the table's first index, or, where the table has none, replies. The
/// session's account gains what the step drops, and so tells its counts. Where it lacks the summarise lock or waits for a page, so it does in
/// the table. Where the rows stay, no other session has to spare one. Does nothing.
pub fn a_vacuum_steps_in_its_table()
    ensures steps { (step : VacuumStep) (a b : VacuumState) (answer : Did) → IsVacuumOf step.layout a → VacuumDoes step a b answer → DoesInTable step a b answer }
    ensures counted { (a b : VacuumState) (count : ℕ) (account : Account) → HasCounted a.standing a b count → (a.standing ≢ standings.Begins → (account.rows ≡ a.rows) × (account.unnamed ≡ a.unnamed))
        → ((account_by a.standing count account).rows ≡ b.rows) × ((account_by a.standing count account).unnamed ≡ b.unnamed) }
    ensures spared { (s : ℕ) (old new : ShownTable) (u : Unseen) → ((b k : ℕ) → new.row b k ≡ old.row b k) → IsSpared s old new u }
{
    a_table_steps_with_its_index();
    every_index_of_a_table_is_listed();
}

/// The table stays kept by a step of a vacuum, and where the summarise lock is given with the last one. Tuples that were unnamed at the opening
/// may be dropped by the step. A vacuum that waits at its page is a machine that waits. Does nothing.
pub fn a_vacuum_keeps_its_table()
    ensures keeps { (s : ℕ) (old new : ShownTable) (held held_then : Option ℕ) (before after : Task) (point : Point) (account : Account → Account) (u : Unseen) → VacuumGoesTo s old new held held_then before after point account → u.task s ≡ before
        → u.summarise_lock ≡ held → IsTableKept (table_state old u) → IsSpared s old new u
        → (unnamed : ℕ → Spot → Bool) × IsFewer u.unnamed unnamed × IsTableKept (table_state new (lock_turned held_then (task_turned s after (unnamed_turned unnamed u)))) }
    ensures waits { (s at page : ℕ) (shown : ShownTable) (what : WaitedFor) → VacuumWaitsFor s shown (Some s) (Sweeps at page) what → MachineWaits s shown (Sweeps at page) }
{
    table_stays_covered();
}

/// A table that is kept has the heap that a vacuum's step wants. The rows that are dead to all are spared by the statements of other sessions, if
/// the row of each running insert is one of a transaction that has not rolled back, which no commit deleted, and each row that a scan sees is
/// seen by a transaction that is still open: so the table takes a step that drops them. Does nothing.
pub fn a_kept_table_takes_a_vacuum()
    ensures heap { (layout : DiskLayout) (pages : PageMap) (locks : LockState) (s table : ℕ) (task : Task) → ShowsKept layout pages locks s table task → HasHeap layout pages table }
    ensures spared { (layout : DiskLayout) (pages paged : PageMap) (locks locked : LockState) (s table block : ℕ) (by : Living) (blocks blocked : List (List Slot)) (u : Unseen) → DropsTheDead by blocks blocked block → AreWatched by s blocks u
        → IsSpared s (shown_by layout pages locks table blocks) (shown_by layout paged locked table blocked) u }
{}

/// With each step of a vacuum fewer are left, up to its first index: at most one for each block of the heap below its extent, and one for each
/// page that each index may have. Does nothing.
pub fn a_vacuum_ends_alone()
    ensures { (s : ℕ) (old new : ShownTable) (held held_then : Option ℕ) (before after : Task) (point : Point) (account : Account → Account) (u : Unseen) → VacuumGoesTo s old new held held_then before after point account → u.task s ≡ before
        → u.summarise_lock ≡ held → IsTableKept (table_state old u) → IsSpared s old new u → IsCleaning before → IsCleaning after → cleaning_steps (table_state new u) after < cleaning_steps (table_state old u) before }
{
    statements_end();
}
