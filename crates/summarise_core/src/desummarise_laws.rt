//! What the steps of a desummarise are in the table of its index, as laws.

ghost use Rattle.std.specs.Prelude.{◌≡◌, ◌≢◌, ◌≤◌, ℕ, List, Option, Some, slice_get};
ghost use Rattle.block_model.specs.declared.reply.Point.{Point};
ghost use Rattle.page_layout.specs.PageContents.{Slot};
ghost use Rattle.page_locks.specs.declared.did.Did.{Did};
ghost use Rattle.page_locks.specs.LockHolders.{LockState};
ghost use Rattle.page_map.specs.PageMap.{PageMap};
ghost use Rattle.store_layout.specs.DiskLayout.{DiskLayout};
ghost use Rattle.coverage.specs.Accounts.{Account};
ghost use Rattle.coverage.specs.Machines.{MachineWaits, ShownTable, Unseen, table_state, task_turned};
ghost use Rattle.coverage.specs.StepsLeft.{desummarise_steps};
ghost use Rattle.coverage.specs.Table.{Desummarising, Job, Maintains, Task};
ghost use Rattle.coverage.specs.TableCovered.{IsTableKept};
ghost use Rattle.coverage.specs.TablePoints.{WaitedFor};
ghost use Rattle.coverage.specs.Statements.{Phase};
ghost use Rattle.index_steps.specs.ShownRows.{shown_by};
ghost use Rattle.index_steps.specs.ShownTable.{indexes_of};
ghost use Rattle.summarise_core.specs.DesummariseCalls.{DesummariseCalls};
ghost use Rattle.summarise_core.specs.Desummarises.{DamageIn, DesummariseDoes, DesummariseState, StoreStep, count_at, table_of};
ghost use Rattle.summarise_core.specs.declared.desummarise_stage.Stage.{Stage as AnyStage};
ghost use Rattle.summarise_core.specs.declared.desummarise_stage.Stage.TheVariants as stages;
ghost use Rattle.summarise_core.specs.DesummariseTable.{DesummariseGoesTo, DesummariseWaitsFor, DoesInTable, HasCounted, LeavesTheRest, account_by, lock_turned};

use coverage::{
    a_table_steps_with_its_index, machines_in_one_index, statements_end, table_stays_covered,
};
use index_steps::a_sound_index_is_not_misread;

/// A step of a desummarise is what its session does in the table, with the other indexes and the heap as they were, whatever the pages and
/// locks don't show: it takes the summarise lock, and goes on at its range, or replies. The session's account gains the range with the step
/// that takes its entry out, and so tells the count. Where it lacks the summarise lock or waits for a page, so it does in the table. Does
/// nothing.
pub fn a_desummarise_steps_in_its_table()
    ensures steps { (step : StoreStep) (at : ℕ) (a b : DesummariseState) (answer : Did) → slice_get (indexes_of step.layout (table_of step.layout a.index)) at ≡ Some a.index
        → LeavesTheRest step a.index → DesummariseDoes step a b answer → DoesInTable step at a b answer }
    ensures counted { (before after : AnyStage) (count : ℕ) (account : Account) → HasCounted before after count → (before ≢ stages.Right → account.ranges ≡ count_at before) → (account_by before count account).ranges ≡ count_at after }
{
    machines_in_one_index();
    a_table_steps_with_its_index();
}

/// The table stays kept by a step of a desummarise, and where the summarise lock is given with the last one. A desummarise that waits at its
/// range is a machine that waits. Does nothing.
pub fn a_desummarise_keeps_its_table()
    ensures keeps { (s : ℕ) (old new : ShownTable) (held held_then : Option ℕ) (before after : Task) (point : Point) (account : Account → Account) (u : Unseen) → DesummariseGoesTo s old new held held_then before after point account
        → u.task s ≡ before → u.summarise_lock ≡ held → IsTableKept (table_state old u) → IsTableKept (table_state new (lock_turned held_then (task_turned s after u))) }
    ensures waits { (s at range : ℕ) (shown : ShownTable) (job : Job) (phase : Phase) (what : WaitedFor) → DesummariseWaitsFor s shown (Some s) (Maintains job at range phase) what → MachineWaits s shown (Maintains job at range phase) }
{
    table_stays_covered();
}

/// In a table that is kept, no step of a desummarise finds damage. Does nothing.
pub fn a_kept_table_takes_a_desummarise()
    ensures { (layout : DiskLayout) (pages : PageMap) (locks : LockState) (blocks : List (List Slot)) (at : ℕ) (a : DesummariseState) (u : Unseen) → slice_get (indexes_of layout (table_of layout a.index)) at ≡ Some a.index
        → IsTableKept (table_state (shown_by layout pages locks (table_of layout a.index) blocks) u) → DamageIn layout pages a → ⊥ }
{
    a_sound_index_is_not_misread();
}

/// Calls of a desummarise's `step` at its range, one right after the other while nothing else changes, of which none is blocked or refused,
/// are at most so many: three from where it reads the map, and one more where it came to a place that the map doesn't name any more. Does nothing.
pub fn a_desummarise_ends_alone()
    ensures { (s calls only at range : ℕ) (shown : ShownTable) (phase : Phase) (u : Unseen) → DesummariseCalls s calls shown (Maintains (Desummarising only) at range phase) → u.task s ≡ Maintains (Desummarising only) at range phase
        → IsTableKept (table_state shown u) → calls ≤ desummarise_steps phase }
{
    statements_end();
    table_stays_covered();
}
