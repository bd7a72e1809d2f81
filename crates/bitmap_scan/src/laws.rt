//! What the steps of a scan are in its table, as laws.

ghost use Rattle.std.specs.Prelude.{◌≡◌, ℕ, List, false, IsTrue, Some};
ghost use Rattle.block_model.specs.declared.reply.Point.{Point};
ghost use Rattle.block_model.specs.declared.row.Row.{Row};
ghost use Rattle.block_model.specs.declared.row.RowId.{RowId};
ghost use Rattle.page_locks.specs.declared.did.Did.TheVariants as did;
ghost use Rattle.coverage.specs.Accounts.{Account};
ghost use Rattle.coverage.specs.Machines.{ShownTable, Unseen, table_state, task_turned};
ghost use Rattle.coverage.specs.RowOrder.{IsAmong};
ghost use Rattle.coverage.specs.Table.{Marks, Resting, Scans, TableScan, TableState, Task};
ghost use Rattle.coverage.specs.TableCovered.{IsTableKept};
ghost use Rattle.coverage.specs.TableSteps.{Does, HasNothingToMark, Onward, SeesPlace, TableRun, TableStep};
ghost use Rattle.store_layout.specs.DiskLayout.{DiskLayout};
ghost use Rattle.page_layout.specs.PageContents.{Slot};
ghost use Rattle.page_layout.specs.RowBytes.{StoredRow};
ghost use Rattle.page_locks.specs.LockHolders.{LockState};
ghost use Rattle.page_map.specs.PageMap.{PageMap};
ghost use Rattle.index_steps.specs.ShownRows.{shown_by};
ghost use Rattle.bitmap_scan.specs.Finds.{Sight, none_read, sees_stored};
ghost use Rattle.bitmap_scan.specs.LastStatuses.{Remembers};
ghost use Rattle.bitmap_scan.specs.ScanAnswers.{IsDamagedAt, ScanStepped};
ghost use Rattle.bitmap_scan.specs.ScanHands.{IsHand, IsScanOf, ScanHand};
ghost use Rattle.bitmap_scan.specs.ScanLaws.{ScanGoesTo};
ghost use Rattle.bitmap_scan.specs.SeenRows.{IsOthersSince, ScansOn, SeesLater, StaysInSlot};
ghost use Rattle.bitmap_scan.specs.TableScans.{Beside, task_of};
ghost use Rattle.bitmap_scan.specs.declared.sight.LastStatuses.{LastStatuses};

use coverage::{index_stays_covered, table_scans_miss_nothing, table_stays_covered};
use index_steps::a_sound_index_is_not_misread;

/// A step of a scan that goes on is one step of the table, under its point. So is the last one, wherever the statement comes from there: a
/// delete that found rows to their marks, each other statement to its reply. Does nothing.
pub fn a_scan_steps_in_its_table()
    ensures goes { (s : ℕ) (shown : ShownTable) (u : Unseen) (account : Account → Account) (after : TableScan) (point : Point) → ScanStepped s shown u account after (did.Moved point)
        → ScanGoesTo s shown u account (Scans after) point }
    ensures ends { (s : ℕ) (shown : ShownTable) (u : Unseen) (account : Account → Account) (after : TableScan) (point : Point) (next : Task) → ScanStepped s shown u account after (did.Finished point)
        → Onward (table_state shown u) (Scans after) next → ScanGoesTo s shown u account next point }
    ensures replies { (s : ℕ) (shown : ShownTable) (u : Unseen) (account : Account → Account) (after : TableScan) (point : Point) → ScanStepped s shown u account after (did.Finished point) → HasNothingToMark after
        → (last : TableScan) × (after ≡ record last { at = after.at; range = after.range }) × Does s (table_state shown u) (table_state shown (task_turned s (Scans last) u))
        × Onward (table_state shown (task_turned s (Scans last) u)) (Scans last) Resting }
    ensures steps { (s : ℕ) (shown : ShownTable) (u : Unseen) (account : Account → Account) (next : Task) (point : Point) → ScanGoesTo s shown u account next point
        → TableStep s (table_state shown u) (table_state shown (task_turned s next u)) }
{}

/// A scan of a select that has taken its last step has found exactly the matching rows that its session sees, and one of a delete that goes
/// to its marks has all of them to mark. Does nothing.
pub fn a_scan_finds_what_its_session_sees()
    ensures found { (s : ℕ) (shown : ShownTable) (u : Unseen) (account : Account → Account) (after : TableScan) (point : Point) (b k : ℕ) → IsTableKept (table_state shown u)
        → ScanStepped s shown u account after (did.Finished point) → HasNothingToMark after → after.explains ≡ false → IsTrue (after.sees b k)
        → (r : Row) × (shown.row b k ≡ Some r) × (IsTrue (after.matches r) → IsTrue (after.found b k)) }
    ensures only { (s : ℕ) (shown : ShownTable) (u : Unseen) (account : Account → Account) (after : TableScan) (point : Point) (b k : ℕ) → IsTableKept (table_state shown u)
        → ScanStepped s shown u account after (did.Finished point) → IsTrue (after.found b k)
        → (r : Row) × (shown.row b k ≡ Some r) × IsTrue (after.sees b k) × IsTrue (after.matches r) }
    ensures to_mark { (s : ℕ) (shown : ShownTable) (u : Unseen) (account : Account → Account) (after marking : TableScan) (ids : List RowId) (point : Point) (b k : ℕ) → IsTableKept (table_state shown u)
        → ScanStepped s shown u account after (did.Finished point) → Onward (table_state shown u) (Scans after) (Marks marking ids) → IsTrue (after.sees b k)
        → (r : Row) × (shown.row b k ≡ Some r) × (IsTrue (after.matches r) → IsAmong ids r.id) }
{
    table_scans_miss_nothing();
    table_stays_covered();
}

/// A row is seen later on exactly where it was, as long as nobody but transactions that hadn't ended at the snapshot marks it; and a row that
/// such a transaction put isn't seen. So at each page step a scan's transaction sees those rows that it saw at the begin. Does nothing.
pub fn what_is_seen_stays()
    ensures stays { (old new : Sight) (row now : StoredRow) → SeesLater old new → StaysInSlot old row now → sees_stored new now ≡ sees_stored old row }
    ensures put_since { (sight : Sight) (row : StoredRow) → IsOthersSince sight row.id.t → sees_stored sight row ≡ false }
{}

/// What a scan remembers of transactions stands later on too, and a new scan remembers none. So a caller has what `Scan::step` requires: at the
/// first page step for nothing, and at each later one from what the step before ensured, by `SeesLater` between the two. It has that from the
/// calls that change statuses, `begin`, `commit` and `rollback` of a TxTable: each changes the status of one that is unused or has begun, and
/// so hadn't ended at the snapshot; the snapshot and the own number are the transaction's for good. Does nothing.
pub fn what_is_remembered_stands()
    ensures stands { (old new : Sight) (last : LastStatuses) → SeesLater old new → Remembers old last → Remembers new last }
    ensures begins { (sight : Sight) → Remembers sight none_read }
{}

/// In a table that is kept, a scan or an explain finds no damage: the entry that it reads names a tuple of its range, and the tuple that it reads
/// is one of the index. What holds of a hand tells `known`. Does nothing.
pub fn a_kept_table_is_scanned()
    ensures { (layout : DiskLayout) (pages : PageMap) (locks : LockState) (blocks : List (List Slot)) (s : ℕ) (hand : ScanHand) (beside : Beside) (u : Unseen) → IsScanOf layout hand → IsHand hand
        → u.task s ≡ task_of layout hand.stage hand beside → IsTableKept (table_state (shown_by layout pages locks hand.query.table blocks) u) → IsDamagedAt layout pages hand.indexes hand.stage → ⊥ }
{
    a_sound_index_is_not_misread();
    index_stays_covered();
}

/// A row that a scan's session sees stays where it stands, whatever step any session takes, the scan's own too; and so it is until the scan's
/// reply, and for a delete while it marks. So what is found by its place is found of the very row. Does nothing.
pub fn a_seen_row_stays_in_its_place()
    ensures step { (s n b k : ℕ) (w v : TableState) (scan : TableScan) → IsTableKept w → w.task s ≡ Scans scan → IsTrue (scan.sees b k) → TableStep n w v → v.row b k ≡ w.row b k }
    ensures does { (s n b k : ℕ) (w v : TableState) (scan : TableScan) → IsTableKept w → w.task s ≡ Scans scan → IsTrue (scan.sees b k) → Does n w v → v.row b k ≡ w.row b k }
    ensures run { (s b k : ℕ) (steps : List ℕ) (w v : TableState) (scan : TableScan) → IsTableKept w → w.task s ≡ Scans scan → IsTrue (scan.sees b k) → (run : TableRun steps w v)
        → ScansOn s steps w v run → v.row b k ≡ w.row b k }
    ensures stands { (s n b k : ℕ) (r : Row) (w v : TableState) → w.row b k ≡ Some r → SeesPlace b k (w.task s) → TableStep n w v → v.row b k ≡ Some r }
{}
