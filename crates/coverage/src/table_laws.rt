//! A table with several indexes loses no row to a summary of any of them, whatever the order in which statements of any
//! sessions take their steps: what each statement is at and which step is its next one (specs/), and the laws of runs of such
//! steps. Each step is, as each index sees it, a step of crate coverage or none, so what an index rests on is kept in all.
//! It stands on coverage and block_model's rows: on no page's bytes, no operator class and no machine. The engine above shows
//! of each of its steps which one of specs/TableSteps it is, and has coverage and the completeness of scans from here.

ghost use Rattle.std.specs.Prelude.{◌≡◌, ◌≢◌, ◌⊎◌, ◌↔◌, ◌≤◌, ◌<◌, ℕ, suc, ◌+◌, ◌*◌, max, Bool, false, IsTrue, Option, None, Some, List, [], ◌∷◌, ◌++◌, length};
ghost use Rattle.block_model.specs.declared.reply.Point.{Point};
ghost use Rattle.block_model.specs.declared.reply.Point.TheVariants as points;
ghost use Rattle.block_model.specs.declared.row.Row.{Row};
ghost use Rattle.coverage.specs.IndexView.{IndexTuple};
ghost use Rattle.coverage.specs.Steps.{Excludes};
ghost use Rattle.coverage.specs.Table.{Job, EachRange, OneRange, WholeRanges, Desummarising, TableScan, Task, Resting, Reaches, Inserts, Considers, Maintains, Prunes, SweepsFrom, Sweeps, Restarts, Scans, Marks, TableState, index_view_at};
ghost use Rattle.coverage.specs.GoingOn.{CanGoOn, IsScanHonest, IsInserting, StepsAlone};
ghost use Rattle.coverage.specs.StepsLeft.{scan_steps, HasAtMostToMark, desummarise_steps, IsCleaning, cleaning_steps, HasAtMostTuples, IsSummarise, summarise_steps, vacuum_steps};
ghost use Rattle.coverage.specs.TableSteps.{range_in, AsksFor, HasRange, OnlyTurns, JudgeStep, ReadsPage, IsBlocked, Does, HasStep, Onward, IsMaintained, Settles, TableStep, TableRun, IsFirstPlace, IsHeapFull};
ghost use Rattle.coverage.specs.Changes.{IsFree};
ghost use Rattle.coverage.specs.NextTasks.{AtFirst, AfterRange, AfterBlock, AfterPage, AfterRestart};
ghost use Rattle.coverage.specs.TablePoints.{does_point, waits_for, IsHeldBy, IsTableStuck};
ghost use Rattle.coverage.specs.Accounts.{Asked, no_account, Accounts, AccountsStep, AccountsRun, AccountsNext, queue_limit};
ghost use Rattle.coverage.specs.RangesMade.{GivesFinals, IsInHand, AreMadeFinal};
ghost use Rattle.coverage.specs.Refusals.{Heap, IndexNumber, LacksMemory, IsFull, does_refusal, MayLackMemory, IsTaskFull};
ghost use Rattle.coverage.specs.RowOrder.{IsAmong};
ghost use Rattle.block_model.specs.declared.row.RowId.{RowId};
ghost use Rattle.block_model.specs.declared.place.Spot.{Spot};
ghost use Rattle.coverage.specs.Machines.{ShownTable, Unseen, table_state, task_turned, IsFewer, MachineSteps, MachineEnds, MachineWaits, ScanReplies, ScanSteps, ChangesIndex, InsertStepsIn};
ghost use Rattle.coverage.specs.Machines.{MaintainStepsIn};
ghost use Rattle.coverage.specs.Statements.{OnIndex, Empty, Phase, NotBuilding, Idle, Inserting, Maintaining, Holding};
ghost use Rattle.coverage.specs.IndexPart.{IndexPart, InsertMakes, SweepMakes};
ghost use Rattle.coverage.specs.Counts.{AreTuplesGone};
ghost use Rattle.coverage.specs.InOneIndex.{index_with, with_index, with_rows, RowComesTo, JobMakes, with_ranges, with_unnamed, DoesAt};
ghost use Rattle.coverage.specs.Knowing.{Knows};
ghost use Rattle.coverage.specs.PageOrder.{KnowsPages};
ghost use Rattle.coverage.specs.TableCovered.{IsTableCovered, IsTableKept, IsTableAtRest, IsNewTable, TableStops, IsGiven, IsUnjudged};

/// A blocked statement stays where it is and nothing changes, or it is refused; no step of it has a point. What it waits for is one
/// lock, which another session holds.
pub fn blocked_statements_wait()
    ensures waits { (s : ℕ) (w v : TableState) → IsBlocked w s (w.task s) → (w.task s ≡ Resting → ⊥) → Does s w v
        → ((v.task s ≡ w.task s) × OnlyTurns w v) ⊎ (v.task s ≡ Resting) }
    ensures no_point { (s : ℕ) (w v : TableState) → IsBlocked w s (w.task s) → (w.task s ≡ Resting → ⊥) → (does : Does s w v) → does_point s w v does ≡ None }
    ensures held { (s : ℕ) (w : TableState) (task : Task) (blocked : IsBlocked w s task)
        → (n : ℕ) × IsHeldBy w (waits_for w s task blocked) n × (n ≢ s) }
    ensures one { (s : ℕ) (w : TableState) (task : Task) (one two : IsBlocked w s task) → waits_for w s task one ≡ waits_for w s task two }
{}

/// Where a statement of a table comes by its step is one thing: its next step, or its reply. No step is left that does nothing; and
/// of the steps that a running statement could take at a moment, which have a point, there is one point alone, and one task that the
/// statement is at afterwards.
pub fn statements_go_on_in_one_way()
    ensures one_way { (w : TableState) (old p q : Task) → Onward w old p → Onward w old q → p ≡ q }
    ensures or_reply { (w : TableState) (old q : Task) → IsMaintained w old → Onward w old q → ⊥ }
    ensures at_a_step { (s : ℕ) (w v : TableState) → TableStep s w v → HasStep v (v.task s) }
    ensures one_point { (s : ℕ) (w v u : TableState) (p q : Point) → (w.task s ≡ Resting → ⊥) → (one : Does s w v) (two : Does s w u)
        → does_point s w v one ≡ Some p → does_point s w u two ≡ Some q → p ≡ q }
    ensures one_outcome { (s : ℕ) (w v u : TableState) (p q : Point) → (w.task s ≡ Resting → ⊥) → (one : Does s w v) (two : Does s w u)
        → does_point s w v one ≡ Some p → does_point s w u two ≡ Some q → v.task s ≡ u.task s }
{}

/// Whatever the statements of a table with several indexes do, in any interleaving, each of its indexes stays covered; the
/// summarise lock is held for maintenance alone. It holds between what a step does and where its statement comes, too. Which ranges
/// of an index have an entry is the matter of the session alone that holds the summarise lock; and the table's blocks only grow.
pub fn table_stays_covered()
    ensures kept { (steps : List ℕ) (w v : TableState) → IsTableKept w → TableRun steps w v → IsTableKept v }
    ensures between { (s : ℕ) (w v : TableState) → IsTableKept w → Does s w v → IsTableKept v }
    ensures entries { (s : ℕ) (w v : TableState) (i range : ℕ) → IsTableKept w → TableStep s w v → w.summarise_lock ≢ Some s
        → ((w.index i).entry range ≡ None) ↔ ((v.index i).entry range ≡ None) }
    ensures blocks { (steps : List ℕ) (w v : TableState) → TableRun steps w v → w.blocks ≤ v.blocks }
    ensures covered { (w : TableState) → IsTableKept w → IsTableCovered w }
    ensures opened { (w : TableState) → IsTableCovered w → IsTableAtRest w → IsTableKept w }
    ensures stopped { (w v : TableState) → IsTableKept w → TableStops w v → IsTableKept v }
    ensures new { (w : TableState) → IsNewTable w → IsTableKept w }
{}

/// A scan judges each range in one way, by the tuple that it reads there, and reads the next given block to one end; where the
/// tuples that don't keep its query are honest, it is never stuck.
pub fn scans_are_exact()
    ensures judged { (w : TableState) (old p q : TableScan) → JudgeStep (index_view_at old.at w) old p → JudgeStep (index_view_at old.at w) old q → p ≡ q }
    ensures read { (w : TableState) (scan : TableScan) (m n : ℕ) (f g : ℕ → ℕ → Bool) → ReadsPage w scan m f → ReadsPage w scan n g
        → (m ≡ n) × ((b k : ℕ) → f b k ≡ g b k) }
    ensures some_judged { (w : TableState) (scan : TableScan)
        → ((x : Spot) (t : IndexTuple) → (w.index scan.at).tuple x ≡ Some t → scan.keeps scan.at t ≡ false → Excludes t scan.matches)
        → (q : TableScan) × JudgeStep (index_view_at scan.at w) scan q }
    ensures some_read { (w : TableState) (scan : TableScan) (b : ℕ) → scan.explains ≡ false → scan.at ≡ w.indexes → IsTrue (scan.candidate b) → scan.read ≤ b
        → (next : ℕ) × (found : ℕ → ℕ → Bool) × ReadsPage w scan next found }
{}

/// Each matching row that a scan's session sees is found, or lies in a given block that isn't read yet, or in a range that
/// isn't judged yet; and when the scan replies, it is found: `replies` says it of the scan's last step, after which no step of it
/// is left. A block is given where every index of the table gives it, as each judged range was kept or not by what its step read;
/// the candidates of a scan or an explain that replies are exactly the given blocks. A scan finds nothing else; and a delete that has
/// found its rows has all of them to mark, and each stands there until then.
pub fn table_scans_miss_nothing()
    ensures found { (w : TableState) (s b k : ℕ) (scan : TableScan) → IsTableKept w → w.task s ≡ Scans scan → IsTrue (scan.sees b k)
        → (r : Row) × (w.row b k ≡ Some r) × (IsTrue (scan.matches r) → IsTrue (scan.found b k) ⊎ (IsGiven w scan b × (scan.read ≤ b)) ⊎ IsUnjudged w scan b) }
    ensures replied { (w : TableState) (s b k : ℕ) (scan : TableScan) → IsTableKept w → w.task s ≡ Scans scan → Onward w (Scans scan) Resting
        → scan.explains ≡ false → IsTrue (scan.sees b k) → (r : Row) × (w.row b k ≡ Some r) × (IsTrue (scan.matches r) → IsTrue (scan.found b k)) }
    ensures replies { (s b k : ℕ) (w v : TableState) (scan : TableScan) → IsTableKept w → Does s w v → v.task s ≡ Scans scan → Onward v (Scans scan) Resting
        → scan.explains ≡ false → IsTrue (scan.sees b k) → (r : Row) × (v.row b k ≡ Some r) × (IsTrue (scan.matches r) → IsTrue (scan.found b k)) }
    ensures finds_only { (w : TableState) (s b k : ℕ) (scan : TableScan) → IsTableKept w → w.task s ≡ Scans scan → IsTrue (scan.found b k)
        → (r : Row) × (w.row b k ≡ Some r) × IsTrue (scan.sees b k) × IsTrue (scan.matches r) }
    ensures to_mark { (s b k : ℕ) (w v : TableState) (scan marking : TableScan) (ids : List RowId) → IsTableKept w → Does s w v → v.task s ≡ Scans scan
        → Onward v (Scans scan) (Marks marking ids) → IsTrue (scan.sees b k)
        → (r : Row) × (v.row b k ≡ Some r) × (IsTrue (scan.matches r) → IsAmong ids r.id) }
    ensures marks { (w : TableState) (s : ℕ) (scan : TableScan) (ids : List RowId) (id : RowId) → IsTableKept w → w.task s ≡ Marks scan ids → IsAmong ids id
        → (b : ℕ) × (k : ℕ) × (r : Row) × (w.row b k ≡ Some r) × (r.id ≡ id) × IsTrue (scan.sees b k) × IsTrue (scan.matches r) }
    ensures given { (s : ℕ) (w v : TableState) (scan : TableScan) → IsTableKept w → Does s w v → v.task s ≡ Scans scan → Onward v (Scans scan) Resting
        → (b : ℕ) → IsTrue (scan.candidate b) ↔ IsGiven v scan b }
{}

/// What a step adds to the account of its session, and does to the queue of the summaries that are asked for, is one thing. In the queue
/// the order stays: a request joins at the end, or the first one is taken; and it never holds more than 64. While a summarise, work or a
/// vacuum is in hand, from its begin on, its count of ranges is at each moment the number of those to which it gave a final tuple in the run,
/// whatever other sessions do between its steps, and however rows come and go.
pub fn accounts_are_exact()
    ensures one { (s : ℕ) (w v : TableState) (does : Does s w v) (p : Point) (a b c : Accounts) → does_point s w v does ≡ Some p
        → AccountsStep s w v does a b → AccountsStep s w v does a c → (b.queue ≡ c.queue) × (b.of s ≡ c.of s) }
    ensures in_order { (s : ℕ) (w v : TableState) (does : Does s w v) (a b : Accounts) → AccountsStep s w v does a b
        → (b.queue ≡ a.queue) ⊎ ((asked : Asked) × (b.queue ≡ a.queue ++ (asked ∷ []))) ⊎ ((asked : Asked) × (a.queue ≡ asked ∷ b.queue)) }
    ensures within { (s : ℕ) (w v : TableState) (does : Does s w v) (a b : Accounts) → AccountsStep s w v does a b → length a.queue ≤ queue_limit
        → length b.queue ≤ queue_limit }
    ensures replies { (s : ℕ) (rest : List ℕ) (w u v : TableState) (a b c : Accounts) (step : TableStep s w u)
        (adds : AccountsStep s w step.between step.does a b) (run : AccountsRun rest u v b c) → IsTableKept w → w.task s ≡ Resting
        → GivesFinals (step.between.task s) → IsInHand s run
        → (made : List (ℕ × ℕ)) × AreMadeFinal s (AccountsNext s rest w u v a b c step adds run) made × (length made ≡ (c.of s).ranges) }
{}

/// A statement ends without its reply only for a cause. Want of memory ends an insert before it has a row, a scan, and a vacuum that is at
/// no range, and nothing else. A heap is told as full where no place is left below its limit, with the number of its slots; an index
/// where no page is left for what the statement has to put, with the number of its pages.
pub fn refusals_have_their_cause()
    ensures memory { (s : ℕ) (w v : TableState) (does : Does s w v) → does_refusal s w v does ≡ Some LacksMemory → MayLackMemory (w.task s) }
    ensures heap_full { (s : ℕ) (w v : TableState) (does : Does s w v) (number : ℕ) → does_refusal s w v does ≡ Some (IsFull Heap number)
        → IsHeapFull w × (number ≡ w.heap_limit * w.rows_per_page) }
    ensures index_full { (s : ℕ) (w v : TableState) (does : Does s w v) (at number : ℕ) → does_refusal s w v does ≡ Some (IsFull (IndexNumber at) number)
        → IsTaskFull w s (w.task s) at number × (number ≡ (w.index at).pages.limit) }
    ensures no_place { (w : TableState) → ((b k : ℕ) → IsFirstPlace w b k → ⊥) ↔ IsHeapFull w }
    ensures ends { (s : ℕ) (w v : TableState) (does : Does s w v) → (w.task s ≡ Resting → ⊥) → v.task s ≡ Resting → does_refusal s w v does ≢ None }
{}

/// A statement of a table is never stuck: before a step it has that step, with its point, or waits for a page that another session locks,
/// or no page is left for what it has to put. An insert whose session steps alone ends, or waits, within six steps an index, and so within
/// 1 + 6n steps with the one that puts its row.
pub fn statements_go_on()
    ensures goes_on { (w : TableState) (s : ℕ) → IsTableKept w → CanGoOn w → IsScanHonest w s → (w.task s ≡ Resting → ⊥) → HasStep w (w.task s)
        → IsTableStuck w s → (IsBlocked w s (w.task s) → ⊥) → ((at number : ℕ) → IsTaskFull w s (w.task s) at number → ⊥) → ⊥ }
    ensures inserts_end { (s n : ℕ) (w : TableState) → IsTableKept w → IsInserting (w.task s) → StepsAlone s n w → n ≤ 6 * w.indexes }
    ensures begun_insert_ends { (s n : ℕ) (w v : TableState) → TableStep s w v → IsTableKept w → IsInserting (v.task s) → StepsAlone s n v
        → suc n ≤ 1 + 6 * w.indexes }
{}

/// A statement whose session steps alone ends, or waits, within so many steps as the state tells. A scan takes two for each range that it
/// hasn't judged, of each index, one more where it holds a place, and one for each block below its extent that it hasn't read; an explain
/// reads no block, and a delete takes one more for each row that it has to mark. A desummarise takes three from where it reads the map,
/// and one more where it came to a place that its tuple has left. A vacuum comes to its first index after at most one step for each block of
/// the heap and one for each page that each index may have: every step there leaves fewer.
pub fn statements_end()
    ensures scans { (s n rows : ℕ) (w : TableState) (scan : TableScan) → IsTableKept w → w.task s ≡ Scans scan → HasAtMostToMark w scan rows
        → StepsAlone s n w → n ≤ scan_steps w scan + rows }
    ensures marks { (s n : ℕ) (w : TableState) (scan : TableScan) (ids : List RowId) → IsTableKept w → w.task s ≡ Marks scan ids → StepsAlone s n w
        → n ≤ length ids }
    ensures desummarises { (s n only at range : ℕ) (w : TableState) (phase : Phase) → IsTableKept w → w.task s ≡ Maintains (Desummarising only) at range phase
        → StepsAlone s n w → n ≤ desummarise_steps phase }
    ensures cleans { (s : ℕ) (w v : TableState) (step : TableStep s w v) (p : Point) → IsTableKept w → does_point s w step.between step.does ≡ Some p
        → IsCleaning (w.task s) → IsCleaning (v.task s) → cleaning_steps v (v.task s) < cleaning_steps w (w.task s) }
{}

/// A summarise, also one that work took from the queue, ends, waits or lacks a page within so many steps, while no other session steps: for
/// each range one for each block and ten, and for each page by which the map may grow three for each tuple and three more. The tuples are
/// those that stand in the index and one for each range. So does a vacuum that is before one of its indexes: within the sum, over this index
/// and those behind it, of one step to begin there and what its whole ranges and the growth of the map take.
pub fn summarises_end()
    ensures summarises { (s n at range tuples : ℕ) (w : TableState) (job : Job) (phase : Phase) → IsTableKept w → w.task s ≡ Maintains job at range phase
        → IsSummarise job → HasAtMostTuples w at tuples → StepsAlone s n w → n ≤ summarise_steps w job at range phase tuples }
    ensures vacuums { (s n at : ℕ) (tuples : ℕ → ℕ) (w : TableState) → IsTableKept w → w.task s ≡ Restarts at
        → ((i : ℕ) → i < w.indexes → HasAtMostTuples w i (tuples i)) → StepsAlone s n w → n ≤ vacuum_steps w at tuples }
{}

/// What a machine promises over the pages and page locks that it sees, the table takes up: a step of it, whatever it doesn't see,
/// keeps the table; so does its last step, with which the summarise lock is given; and after the last step of a scan each matching row
/// that its session sees is found. What a blocked machine waits for, another session holds; and a scan's machine needs no page locks.
pub fn machines_keep()
    ensures steps { (s : ℕ) (old new : ShownTable) (before after : Task) (u : Unseen) → MachineSteps s old new before after → u.task s ≡ before
        → IsTableKept (table_state old u)
        → (unnamed : ℕ → Spot → Bool) × IsFewer u.unnamed unnamed × IsTableKept (table_state new (task_turned s after (record u { unnamed = unnamed }))) }
    ensures ends { (s : ℕ) (old new : ShownTable) (before : Task) (u : Unseen) → MachineEnds s old new before → u.task s ≡ before
        → IsTableKept (table_state old u) → IsTableKept (table_state new (record (task_turned s Resting u) { summarise_lock = None })) }
    ensures replies { (s b k : ℕ) (old new : ShownTable) (before : Task) (scan : TableScan) (u : Unseen) → ScanReplies s old new before scan
        → u.task s ≡ before → IsTableKept (table_state old u) → scan.explains ≡ false → IsTrue (scan.sees b k)
        → (r : Row) × (new.row b k ≡ Some r) × (IsTrue (scan.matches r) → IsTrue (scan.found b k)) }
    ensures waits { (s : ℕ) (shown : ShownTable) (task : Task) (u : Unseen) → MachineWaits s shown task → u.task s ≡ task → IsTableKept (table_state shown u)
        → (n : ℕ) × (n ≢ s) × ((u.summarise_lock ≡ Some n) ⊎ ((at : ℕ) × (page : ℕ) × ((shown.index at).lock page ≡ Some n))) }
    ensures scans { (s : ℕ) (old new : ShownTable) (before after : Task) → ScanSteps old new before after
        → ((i : ℕ) → (new.index i).lock ≡ (old.index i).lock) → MachineSteps s old new before after }
{}

/// A machine's step in one index that is one of the definitions is a step of the table; and what its statement knows in that index
/// holds whenever the table is kept.
pub fn machines_in_one_index()
    ensures insert { (s b k : ℕ) (r : Row) (at : ℕ) (old new : ShownTable) (before after : OnIndex) → ChangesIndex at old new
        → InsertStepsIn s b k r at old new before after → MachineSteps s old new (Inserts b k r at before) (Inserts b k r at after) }
    ensures maintain { (s : ℕ) (job : Job) (at range : ℕ) (old new : ShownTable) (before after : Phase) → ChangesIndex at old new
        → MaintainStepsIn s job at range old new before after → MachineSteps s old new (Maintains job at range before) (Maintains job at range after) }
    ensures insert_knows { (s b k : ℕ) (r : Row) (at : ℕ) (w : TableState) (on_index : OnIndex) → IsTableKept w → at < w.indexes
        → w.task s ≡ Inserts b k r at on_index
        → Knows (index_view_at at w) s (Inserting b k r on_index) × KnowsPages (index_view_at at w) s (Inserting b k r on_index) }
    ensures maintain_knows { (s : ℕ) (job : Job) (at range : ℕ) (w : TableState) (phase : Phase) → IsTableKept w → at < w.indexes
        → w.task s ≡ Maintains job at range phase
        → Knows (index_view_at at w) s (Maintaining range phase) × KnowsPages (index_view_at at w) s (Maintaining range phase) }
{}

/// A step in one index, whatever the sessions have in hand after it, is what its statement does in the table, with the other indexes and
/// the heap as they were: an insert goes on in the index, or is done with it; maintenance goes on at its range, or is done with it; a vacuum
/// sweeps a page. It is printed under the step's point, and adds to the account what the step counts. Where the statement has a step then, it
/// stays at that.
pub fn a_table_steps_with_its_index()
    ensures here { (at s : ℕ) (p : IndexPart) (task : Task) (w : TableState) → (with_index at p s task w).index at ≡ index_with p (w.index at) }
    ensures others { (at s i : ℕ) (p : IndexPart) (task : Task) (w : TableState) → i ≢ at → (with_index at p s task w).index i ≡ w.index i }
    ensures turned { (at s : ℕ) (p : IndexPart) (task : Task) (w : TableState) → (with_index at p s task w).task s ≡ task }
    ensures other_tasks { (at s n : ℕ) (p : IndexPart) (task : Task) (w : TableState) → n ≢ s → (with_index at p s task w).task n ≡ w.task n }
    ensures insert_goes { (s b k : ℕ) (r : Row) (at : ℕ) (w : TableState) (p : IndexPart) (old new : OnIndex) (point : Point) → at < w.indexes
        → w.task s ≡ Inserts b k r at old → InsertMakes s b k r (index_view_at at w) p old (Inserting b k r new) point
        → DoesAt s w (with_index at p s (Inserts b k r at new) w) point (λ account. account) }
    ensures insert_completes { (s b k : ℕ) (r : Row) (at : ℕ) (w : TableState) (p : IndexPart) (old : OnIndex) (point : Point) → at < w.indexes
        → w.task s ≡ Inserts b k r at old → InsertMakes s b k r (index_view_at at w) p old Idle point
        → DoesAt s w (with_index at p s (Reaches b k r (suc at)) w) point (λ account. account) }
    ensures maintain_goes { (s : ℕ) (job : Job) (at range : ℕ) (w : TableState) (p : IndexPart) (old new : Phase) (point : Point) (count : ℕ) → at < w.indexes
        → w.task s ≡ Maintains job at range old → JobMakes job s range (index_view_at at w) p old (Maintaining range new) point count
        → DoesAt s w (with_index at p s (Maintains job at range new) w) point (with_ranges count) }
    ensures maintain_completes { (s : ℕ) (job : Job) (at range : ℕ) (w : TableState) (p : IndexPart) (old : Phase) (point : Point) (count : ℕ) → at < w.indexes
        → w.task s ≡ Maintains job at range old → JobMakes job s range (index_view_at at w) p old Holding point count
        → DoesAt s w (with_index at p s (Considers job at (suc range)) w) point (with_ranges count) }
    ensures sweeps { (s at page : ℕ) (w : TableState) (p : IndexPart) (count : ℕ) → at < w.indexes → w.task s ≡ Sweeps at page
        → SweepMakes s page (index_view_at at w) p → AreTuplesGone (w.index at).tuple p.tuple page count
        → DoesAt s w (with_index at p s (SweepsFrom at (suc page)) w) points.Sweep (with_unnamed count) }
    ensures stays { (s : ℕ) (w : TableState) (task : Task) → w.task s ≡ task → HasStep w task → Settles s w w }
{}

/// A row put at the heap's first free place begins its insert: the heap has it beside its other rows, the statement is before the first index, and
/// its account is empty.
pub fn a_row_begins_its_insert()
    ensures { (s b k : ℕ) (r : Row) (w : TableState) (row : ℕ → ℕ → Option Row) → w.task s ≡ Resting → IsFirstPlace w b k → RowComesTo w.row row b k r
        → DoesAt s w (with_rows row (max w.blocks (b + 1)) s (Reaches b k r 0) w) points.Row (λ account. no_account) }
{}

/// A vacuum summarises the ranges all of whose blocks lie below the extent, a summarise of the table those with a block below it; and an
/// insert asks for a summary where its row is at the first place of a range that isn't the first one.
pub fn ranges_are_exact()
    ensures whole { (w : TableState) (at range extent : ℕ) → 0 < (w.index at).pages_per_range
        → HasRange w (WholeRanges extent) at range ↔ ((b : ℕ) → range_in w at b ≡ range → b < extent) }
    ensures each { (w : TableState) (at range extent : ℕ) → 0 < (w.index at).pages_per_range
        → HasRange w (EachRange extent) at range ↔ ((b : ℕ) × (range_in w at b ≡ range) × (b < extent)) }
    ensures asks { (w : TableState) (at b k : ℕ) → 0 < (w.index at).pages_per_range → AsksFor w b k at
        ↔ (IsTrue (w.index at).autosummarize × (0 < range_in w at b) × ((c j : ℕ) → range_in w at c ≡ range_in w at b → (b < c) ⊎ ((b ≡ c) × (k ≤ j)))) }
{}

/// No maintenance statement skips a range; and no vacuum skips a block of the heap, or an index page with tuples. It begins at the first of
/// what it goes over, and so does a vacuum at each index.
pub fn nothing_is_skipped()
    ensures ranges { (s : ℕ) (w v : TableState) (job : Job) (at range : ℕ) (old : Phase) → TableStep s w v → w.task s ≡ Maintains job at range old
        → AfterRange job at range (v.task s) }
    ensures blocks { (s : ℕ) (w v : TableState) (step : TableStep s w v) (extent next : ℕ) → w.task s ≡ Prunes extent next
        → AfterBlock step.between extent next (v.task s) }
    ensures pages { (s : ℕ) (w v : TableState) (step : TableStep s w v) (at page : ℕ) → w.task s ≡ Sweeps at page → AfterPage step.between at page (v.task s) }
    ensures begins { (s : ℕ) (w v : TableState) (step : TableStep s w v) → w.task s ≡ Resting → AtFirst step.between (v.task s) }
    ensures restarts { (s : ℕ) (w v : TableState) (at : ℕ) → TableStep s w v → w.task s ≡ Restarts at
        → (v.task s ≡ Restarts at) ⊎ AfterRestart w.blocks at (v.task s) }
{}

/// A run of a vacuum over two indexes, from a table that is kept, with any row that doesn't count: the row goes, the tuple that
/// was left unnamed in each index goes, and then the session rests and the summarise lock is free. No range is whole in it.
pub fn a_vacuum_ends()
    ensures { (r : Row) → (w : TableState) × (v : TableState) × (steps : List ℕ) × IsTableKept w × TableRun steps w v × (w.indexes ≡ 2)
        × (w.row 0 0 ≡ Some r) × (v.row 0 0 ≡ None)
        × ((x : Spot) × ((i : ℕ) → i < 2 → ((w.index i).tuple x ≢ None) × ((v.index i).tuple x ≡ None)))
        × (v.task 0 ≡ Resting) × (v.summarise_lock ≡ None) }
{}

/// A run in which an insert asks for a summary and work takes it up, from a new table with any two rows: the second row is at the first
/// place of a range, and so its insert asks for the range before, which has no entry; the request stands in the queue until another
/// session begins its work, which is at that range then.
pub fn an_ask_is_taken_up()
    ensures { (q r : Row) → (w : TableState) × (u : TableState) × (v : TableState) × (a : Accounts) × (b : Accounts) × (c : Accounts) × IsTableKept w
        × AccountsRun (0 ∷ 0 ∷ 0 ∷ 0 ∷ 0 ∷ []) w u a b × AccountsRun (1 ∷ []) u v b c × (u.row 1 0 ≡ Some r) × (a.queue ≡ [])
        × (b.queue ≡ record { table = b.table; at = 0; range = 0 } ∷ []) × ((u.index 0).entry 0 ≡ None) × (c.queue ≡ [])
        × (v.task 1 ≡ Maintains (OneRange u.blocks 0) 0 0 (NotBuilding Empty)) }
{}
