//! What the steps of a summarise are in the table of its index, as laws.

ghost use Rattle.std.specs.Prelude.{◌≡◌, ◌≢◌, ◌+◌, ◌<◌, ◌≤◌, ℕ, Bool, List, Option, Some, slice_get};
ghost use Rattle.block_model.specs.declared.place.Spot.{Spot};
ghost use Rattle.block_model.specs.declared.reply.Point.{Point};
ghost use Rattle.page_layout.specs.PageContents.{Slot};
ghost use Rattle.page_locks.specs.declared.did.Did.{Did};
ghost use Rattle.page_locks.specs.LockHolders.{LockState};
ghost use Rattle.page_map.specs.PageMap.{PageMap};
ghost use Rattle.store_layout.specs.DiskLayout.{DiskLayout};
ghost use Rattle.coverage.specs.Accounts.{Account};
ghost use Rattle.coverage.specs.Machines.{IsFewer, MachineWaits, ShownTable, Unseen, table_state, task_turned};
ghost use Rattle.coverage.specs.StepsLeft.{HasAtMostTuples, IsSummarise, summarise_steps, vacuum_steps};
ghost use Rattle.coverage.specs.Table.{Job, Maintains, Restarts, Task};
ghost use Rattle.coverage.specs.TableCovered.{IsTableKept};
ghost use Rattle.coverage.specs.TablePoints.{WaitedFor};
ghost use Rattle.index_contents.specs.PageOrder.{IsIndexInOrder};
ghost use Rattle.coverage.specs.Statements.{Phase};
ghost use Rattle.index_contents.specs.IndexContents.{index_page};
ghost use Rattle.index_steps.specs.ShownRows.{shown_by};
ghost use Rattle.index_steps.specs.ShownTable.{indexes_of};
ghost use Rattle.summarise_core.specs.declared.course.Standing.TheVariants as standings;
ghost use Rattle.summarise_core.specs.SummariseCalls.{SummariseCalls};
ghost use Rattle.summarise_core.specs.declared.wish.Wish.TheVariants as wishes;
ghost use Rattle.summarise_core.specs.SummariseHands.{table_of};
ghost use Rattle.summarise_core.specs.declared.range_stage.Stage.TheVariants as stages;
ghost use Rattle.summarise_core.specs.Summarises.{DamageIn, FullAt, IsSummariseOf, ReadyAt, StoreStep, SummariseDoes, SummariseState, count_of};
ghost use Rattle.summarise_core.specs.SummariseTable.{DoesInTable, HasCounted, IsSummariseFull, LeavesTheRest, SummariseGoesTo, SummariseWaitsFor, account_by, lock_turned, task_of, unnamed_turned};

use crate::a_kept_index_takes_a_summarise;
use coverage::{
    a_table_steps_with_its_index, machines_in_one_index, summarises_end, table_stays_covered,
};

/// A step of a summarise is what its session does in the table, with the other indexes and the heap as they were, whatever the pages and locks
/// don't show: it takes the summarise lock, and goes on at its range, or comes to the next one, or replies where none is left. The session's
/// account gains the ranges that the step counts, and so tells its count. One of the complete ranges is a vacuum's in its index: the vacuum
/// holds the summarise lock, the count is added to what its account tells, and behind the last range comes the next index, if there is one.
/// Where a step lacks the summarise lock or waits for a page, or no page of the index is left for a tuple, so it does in the table. Does
/// nothing.
pub fn a_summarise_steps_in_its_table()
    ensures steps { (step : StoreStep) (at : ℕ) (a b : SummariseState) (answer : Did) → slice_get (indexes_of step.layout (table_of step.layout a.index)) at ≡ Some a.index → IsSummariseOf step.layout a
        → LeavesTheRest step a.index → SummariseDoes step a b answer → DoesInTable step at a b answer }
    ensures counted { (a b : SummariseState) (count : ℕ) (account : Account) → a.wish ≢ wishes.Complete → HasCounted a.standing (count_of a) count (count_of b) → (a.standing ≢ standings.Begins → account.ranges ≡ count_of a) → (account_by a.wish a.standing count account).ranges ≡ count_of b }
    ensures added { (a b : SummariseState) (count before : ℕ) (account : Account) → a.wish ≡ wishes.Complete → HasCounted a.standing (count_of a) count (count_of b) → account.ranges ≡ before + count_of a → (account_by a.wish a.standing count account).ranges ≡ before + count_of b }
    ensures full { (layout : DiskLayout) (pages : PageMap) (locks : LockState) (blocks : List (List Slot)) (s at number : ℕ) (a : SummariseState) → slice_get (indexes_of layout (table_of layout a.index)) at ≡ Some a.index
        → FullAt layout pages locks s a number → IsSummariseFull s at (shown_by layout pages locks (table_of layout a.index) blocks) (task_of layout at a) number }
{
    machines_in_one_index();
    a_table_steps_with_its_index();
}

/// The table stays kept by a step of a summarise, and where the summarise lock is given with the last one. Where the map grows, tuples that
/// were unnamed may be dropped by the step. A summarise that waits at its range is a machine that waits. Does nothing.
pub fn a_summarise_keeps_its_table()
    ensures keeps { (s : ℕ) (old new : ShownTable) (held held_then : Option ℕ) (before after : Task) (point : Point) (account : Account → Account) (u : Unseen) → SummariseGoesTo s old new held held_then before after point account → u.task s ≡ before
        → u.summarise_lock ≡ held → IsTableKept (table_state old u)
        → (unnamed : ℕ → Spot → Bool) × IsFewer u.unnamed unnamed × IsTableKept (table_state new (lock_turned held_then (task_turned s after (unnamed_turned unnamed u)))) }
    ensures waits { (s at range : ℕ) (shown : ShownTable) (job : Job) (phase : Phase) (what : WaitedFor) → SummariseWaitsFor s shown (Some s) (Maintains job at range phase) what → MachineWaits s shown (Maintains job at range phase) }
{
    table_stays_covered();
}

/// In a table that is kept, a summarise at a range of it is ready for its next step; and nothing that the step reads is damaged, if the
/// index's pages stand in order where the map may have to grow. Does nothing.
pub fn a_kept_table_takes_a_summarise()
    ensures ready { (layout : DiskLayout) (pages : PageMap) (locks : LockState) (blocks : List (List Slot)) (s at : ℕ) (a : SummariseState) (u : Unseen) → slice_get (indexes_of layout (table_of layout a.index)) at ≡ Some a.index
        → u.task s ≡ task_of layout at a → IsTableKept (table_state (shown_by layout pages locks (table_of layout a.index) blocks) u) → ReadyAt layout pages a }
    ensures sound { (layout : DiskLayout) (pages : PageMap) (locks : LockState) (blocks : List (List Slot)) (s at : ℕ) (a : SummariseState) (u : Unseen) → slice_get (indexes_of layout (table_of layout a.index)) at ≡ Some a.index
        → u.task s ≡ task_of layout at a → IsTableKept (table_state (shown_by layout pages locks (table_of layout a.index) blocks) u)
        → (a.hand.stage ≡ stages.Place → IsIndexInOrder layout.sizes.index_blocks (index_page layout pages a.index)) → DamageIn layout pages a → ⊥ }
{
    a_kept_index_takes_a_summarise();
}

/// Calls of a summarise's `step` at a range, one right after the other while nothing else changes, of which none is blocked or refused, are at
/// most so many: for its range and each one behind it one for each block and ten, and what the growth of the map may take. So are those of a
/// vacuum from an index on. Does nothing.
pub fn a_summarise_ends_alone()
    ensures complete { (s calls at : ℕ) (tuples : ℕ → ℕ) (shown : ShownTable) (u : Unseen) → SummariseCalls s calls shown (Restarts at) → u.task s ≡ Restarts at → IsTableKept (table_state shown u)
        → ((i : ℕ) → i < shown.indexes → HasAtMostTuples (table_state shown u) i (tuples i)) → calls ≤ vacuum_steps (table_state shown u) at tuples }
    ensures summarise { (s calls at range tuples : ℕ) (shown : ShownTable) (job : Job) (phase : Phase) (u : Unseen) → SummariseCalls s calls shown (Maintains job at range phase) → IsSummarise job → u.task s ≡ Maintains job at range phase
        → IsTableKept (table_state shown u) → HasAtMostTuples (table_state shown u) at tuples → calls ≤ summarise_steps (table_state shown u) job at range phase tuples }
{
    summarises_end();
    table_stays_covered();
}
