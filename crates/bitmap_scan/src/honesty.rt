//! What a scan's judging of tuples may be relied on for, as a law.

ghost use Rattle.std.specs.Prelude.{◌≡◌, ℕ, List};
ghost use Rattle.store_layout.specs.DiskLayout.{DiskLayout};
ghost use Rattle.store_layout.specs.FirstBrokenRule.{KeepsLimits};
ghost use Rattle.page_layout.specs.PageContents.{Slot};
ghost use Rattle.page_map.specs.PageMap.{PageMap};
ghost use Rattle.page_locks.specs.LockHolders.{LockState};
ghost use Rattle.coverage.specs.GoingOn.{IsScanHonest};
ghost use Rattle.coverage.specs.Machines.{Unseen, table_state};
ghost use Rattle.coverage.specs.Table.{Scans};
ghost use Rattle.range_tuple.specs.OwnKinds.{HaveOwnKeys};
ghost use Rattle.index_steps.specs.ShownRows.{shown_by};
ghost use Rattle.bitmap_scan.specs.ScanHands.{ScanHand};
ghost use Rattle.bitmap_scan.specs.TableScans.{Beside, table_scan};

use index_steps::tuples_exclude_what_they_do_not_keep;

/// In a table of a layout within its limits, a tuple that doesn't keep the query of a scan includes none of the scan's matches,
/// whatever the pages show. So coverage's law of going on holds of scans. Does nothing.
pub fn scans_are_honest()
    ensures { (layout : DiskLayout) (pages : PageMap) (locks : LockState) (blocks : List (List Slot)) (u : Unseen) (hand : ScanHand) (beside : Beside) (s : ℕ) → KeepsLimits layout.schema layout.sizes
        → HaveOwnKeys hand.query.conds → u.task s ≡ Scans (table_scan layout hand beside) → IsScanHonest (table_state (shown_by layout pages locks hand.query.table blocks) u) s }
{
    tuples_exclude_what_they_do_not_keep();
}
