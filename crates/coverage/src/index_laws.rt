//! No scan loses a row to a summary, whatever the order in which inserts, summarisers, vacuums and scans take their steps:
//! the definitions of a covered index (specs/) and the laws of its changes. Each kind of change keeps the view of rows,
//! tuples, range map and locks sound, and leaves to all other sessions what they know (`GoesOn`); so every list of steps
//! keeps the index covered. It stands on block_model's rows and on how much room slots take (index_layout), on no machine and no class.
//! The crate coverage puts several indexes of one table together. A layer above shows of each of its steps which one of
//! specs/Steps it is, and has the rest from here.

ghost use Rattle.std.specs.Prelude.{◌≡◌, ◌≢◌, ◌⊎◌, ◌↔◌, ◌≤◌, ◌<◌, ℕ, ◌+◌, ◌*◌, length, suc, Bool, false, IsTrue, Option, None, Some, List};
ghost use Rattle.block_model.specs.declared.row.Row.{Row};
ghost use Rattle.block_model.specs.declared.place.Spot.{Spot};
ghost use Rattle.coverage.specs.IndexView.{IndexView, Contents, Pages, IndexTuple, Progress, ExtentUnread, Unstarted, Mapping, Regular};
ghost use Rattle.coverage.specs.IndexView.{IsFormed, IsRangeOf, IsTupleOf, range_of_block, next_map_page, IsPastMap, NamesPlaceholder};
ghost use Rattle.coverage.specs.IsSettled.{IsSettled, IsAccounted};
ghost use Rattle.coverage.specs.IsSound.{IsSound};
ghost use Rattle.coverage.specs.GoesOn.{GoesOn, IsHeld};
ghost use Rattle.coverage.specs.Changes.{SameHeap, PutsRow, Places, Names, Turn, IsFree, Swaps, MovePuts, MoveSets, DropsLoose};
ghost use Rattle.coverage.specs.Changes.{Clears, Sweeps, Prunes, Takes, Ends, TurnsLocks};
ghost use Rattle.coverage.specs.Statements.{OnIndex, Empty, Held, Copied, Phase, NotBuilding, IsAt, Scan, Statement, Inserting, Maintaining, Scanning, AreLawful};
ghost use Rattle.coverage.specs.IsCovered.{IndexState, index_view, new_index, AreRowsBelow, IsFoundOrUnread, StatementHolds, IsCovered, IsAtRest, IsIndexKept};
ghost use Rattle.coverage.specs.Steps.{IsUnnamed, SweepsTuples, InsertStep, SummariseStep, DesummariseStep, IsRangeExcluded, Step, Run, Stops};
ghost use Rattle.coverage.specs.PageOrder.{AreOrdered, AreNewPages, KnowsPages};
ghost use Rattle.coverage.specs.Points.{insert_point, summarise_point, desummarise_point};
ghost use Rattle.coverage.specs.Counts.{HasGone, AreRowsGone, AreTuplesGone, NamesFinal, summarise_count, desummarise_count};
ghost use Rattle.coverage.specs.IndexPart.{part_of, InsertMakes, SummariseMakes, DesummariseMakes, SweepMakes};
ghost use Rattle.coverage.specs.ExactResults.{IsExact, IsExactAfter, NamesExactFinal};
ghost use Rattle.coverage.specs.Knowing.{LocksNone, Knows, Spares};
ghost use Rattle.index_layout.specs.IndexPages.{Slot};
ghost use Rattle.block_model.specs.declared.limits.TheConstants.{PAGE_ROOM};
ghost use Rattle.coverage.specs.Rooms.{HasTuplesWithin, bytes_of, page_room};
ghost use Rattle.coverage.specs.Verdicts.{Verdict, Waits, Differs, Puts, Full, IsLocked, HasFreeSlots, PageHasRoom, PutVerdict, SwapVerdict, ClearVerdict};
ghost use Rattle.coverage.specs.Waiting.{IsPhaseWaiting, IsPhaseFull};
ghost use Rattle.coverage.specs.Stuck.{IsSummariseStuck, IsPhaseFree, HasBlocksOfRows, InsertsAlone, AreNamed, IsInsertStuck, IsSwapFree, IsDesummariseStuck, IsClearFree};

/// Each kind of change leaves the index sound.
pub fn changes_are_sound()
    ensures puts_row { (s : ℕ) (w v : IndexView) (b k : ℕ) (r : Row) → IsSound w → PutsRow s w v b k r → IsSound v }
    ensures places { (s : ℕ) (w v : IndexView) (x : Spot) (t : IndexTuple) → IsSound w → Places s w v x t → IsSound v }
    ensures names { (s : ℕ) (w v : IndexView) (range : ℕ) (x : Spot) (t : IndexTuple) → IsSound w → Names s w v range x t → IsSound v }
    ensures turn { (s : ℕ) (w v : IndexView) (range : ℕ) (old new : Option Progress) → IsSound w → Turn s w v range old new → IsSound v }
    ensures swaps { (s : ℕ) (w v : IndexView) (range : ℕ) (x : Spot) (old new : IndexTuple) → IsSound w → Swaps s w v range x old new → IsSound v }
    ensures move_puts { (s : ℕ) (w v : IndexView) (range : ℕ) (x y : Spot) (old new : IndexTuple) → IsSound w
        → MovePuts s w v range x y old new → IsSound v }
    ensures move_sets { (s : ℕ) (w v : IndexView) (range : ℕ) (x y : Spot) (old new : IndexTuple) → IsSound w
        → MoveSets s w v range x y old new → IsSound v }
    ensures drops { (s : ℕ) (w v : IndexView) (x : Spot) (old : IndexTuple) → IsSound w → DropsLoose s w v x old → IsSound v }
    ensures clears { (s : ℕ) (w v : IndexView) (range : ℕ) (x : Spot) → IsSound w → Clears s w v range x → IsSound v }
    ensures sweeps { (s : ℕ) (w v : IndexView) (p : ℕ) → IsSound w → Sweeps s w v p → IsSound v }
    ensures prunes { (s : ℕ) (dropped : ℕ → ℕ → Bool) (w v : IndexView) → IsSound w → Prunes s dropped w v → IsSound v }
    ensures takes { (s : ℕ) (w v : IndexView) → IsSound w → Takes s w v → IsSound v }
    ensures ends { (s : ℕ) (w v : IndexView) → IsSound w → Ends s w v → IsSound v }
    ensures turns_locks { (s : ℕ) (w v : IndexView) → IsSound w → TurnsLocks s w v → IsSound v }
{}

/// Each kind of change lets all other sessions go on.
pub fn others_go_on()
    ensures puts_row { (s : ℕ) (d : ℕ → ℕ → Bool) (w v : IndexView) (b k : ℕ) (r : Row) → IsSound w → PutsRow s w v b k r → GoesOn s d w v }
    ensures places { (s : ℕ) (d : ℕ → ℕ → Bool) (w v : IndexView) (x : Spot) (t : IndexTuple) → IsSound w → Places s w v x t → GoesOn s d w v }
    ensures names { (s : ℕ) (d : ℕ → ℕ → Bool) (w v : IndexView) (range : ℕ) (x : Spot) (t : IndexTuple) → IsSound w → Names s w v range x t
        → GoesOn s d w v }
    ensures turn { (s : ℕ) (d : ℕ → ℕ → Bool) (w v : IndexView) (range : ℕ) (old new : Option Progress) → IsSound w → Turn s w v range old new
        → GoesOn s d w v }
    ensures swaps { (s : ℕ) (d : ℕ → ℕ → Bool) (w v : IndexView) (range : ℕ) (x : Spot) (old new : IndexTuple) → IsSound w → Swaps s w v range x old new
        → GoesOn s d w v }
    ensures move_puts { (s : ℕ) (d : ℕ → ℕ → Bool) (w v : IndexView) (range : ℕ) (x y : Spot) (old new : IndexTuple) → IsSound w
        → MovePuts s w v range x y old new → GoesOn s d w v }
    ensures move_sets { (s : ℕ) (d : ℕ → ℕ → Bool) (w v : IndexView) (range : ℕ) (x y : Spot) (old new : IndexTuple) → IsSound w
        → MoveSets s w v range x y old new → GoesOn s d w v }
    ensures drops { (s : ℕ) (d : ℕ → ℕ → Bool) (w v : IndexView) (x : Spot) (old : IndexTuple) → IsSound w → DropsLoose s w v x old → GoesOn s d w v }
    ensures clears { (s : ℕ) (d : ℕ → ℕ → Bool) (w v : IndexView) (range : ℕ) (x : Spot) → IsSound w → Clears s w v range x → GoesOn s d w v }
    ensures sweeps { (s : ℕ) (d : ℕ → ℕ → Bool) (w v : IndexView) (p : ℕ) → IsSound w → Sweeps s w v p → GoesOn s d w v }
    ensures prunes { (s : ℕ) (dropped : ℕ → ℕ → Bool) (w v : IndexView) → IsSound w → Prunes s dropped w v → GoesOn s dropped w v }
    ensures takes { (s : ℕ) (d : ℕ → ℕ → Bool) (w v : IndexView) → IsSound w → Takes s w v → GoesOn s d w v }
    ensures ends { (s : ℕ) (d : ℕ → ℕ → Bool) (w v : IndexView) → IsSound w → Ends s w v → GoesOn s d w v }
    ensures turns_locks { (s : ℕ) (d : ℕ → ℕ → Bool) (w v : IndexView) → IsSound w → TurnsLocks s w v → GoesOn s d w v }
{}

/// A row is settled exactly where the tuple that the map names includes it, or is a placeholder whose builder awaits it.
pub fn settled_is_accounted()
    ensures accounted { (w : IndexView) (b : ℕ) (r : Row) → IsSound w → IsSettled w b r → IsAccounted w b r }
    ensures settled { (w : IndexView) (b : ℕ) (r : Row) → IsSound w → IsAccounted w b r → IsSettled w b r }
{}

/// What a session's statement knows stays true while another session steps.
pub fn knowledge_is_stable()
    ensures kept { (a : ℕ) (d : ℕ → ℕ → Bool) (w v : IndexView) (s : ℕ) (statement : Statement) → IsSound w → GoesOn a d w v → s ≢ a → Spares d statement
        → Knows w s statement → Knows v s statement }
    ensures placeholder { (a : ℕ) (d : ℕ → ℕ → Bool) (w v : IndexView) (s range : ℕ) → IsSound w → GoesOn a d w v → s ≢ a → w.summarise_lock ≡ Some s
        → NamesPlaceholder w range → NamesPlaceholder v range }
    ensures compared { (w : IndexView) (s range : ℕ) (x : Spot) (t : IndexTuple) → IsSound w → IsHeld w range x → w.tuple x ≡ Some t → t.range ≡ range
        → IsFree w.lock s x.block → LocksNone w.lock s → w.entry range ≡ Some x }
{}

/// Whatever the sessions do, in any interleaving: what an index rests on is kept, with the order of its pages and what each
/// statement knows of pages and locks; the index is covered; a tuple is one of the index, or was unnamed at the opening, so what a
/// statement reads at a place that it holds is one; which ranges have an entry is the matter of the session alone that
/// holds the summarise lock; the tuples that the map names stand past its pages; and the table's blocks only grow.
pub fn index_stays_covered()
    ensures kept { (steps : List ℕ) (w v : IndexState) → IsIndexKept w → Run steps w v → IsIndexKept v }
    ensures covered { (w : IndexState) → IsIndexKept w → IsCovered w }
    ensures formed { (w : IndexState) (x : Spot) (t : IndexTuple) → IsIndexKept w → w.tuple x ≡ Some t → IsTupleOf (index_view w) t ⊎ IsTrue (w.unnamed x) }
    ensures read { (w : IndexState) (s range : ℕ) (x : Spot) (t : IndexTuple) → IsIndexKept w → StatementHolds (index_view w) (w.statement s) range x
        → w.tuple x ≡ Some t → t.range ≡ range → IsTupleOf (index_view w) t }
    ensures entries { (s : ℕ) (w v : IndexState) → IsIndexKept w → Step s w v → w.summarise_lock ≢ Some s → (range : ℕ)
        → (w.entry range ≡ None) ↔ (v.entry range ≡ None) }
    ensures past_map { (w : IndexState) (range : ℕ) (x : Spot) → IsIndexKept w → w.entry range ≡ Some x → w.pages.map_pages < x.block }
    ensures blocks { (steps : List ℕ) (w v : IndexState) → Run steps w v → w.blocks ≤ v.blocks }
{}

/// What an index rests on holds of one that is covered and has its pages in order while nobody is at work, of the one that a stop
/// at any moment leaves, and of the empty one of a new table.
pub fn opened_index_is_kept()
    ensures opened { (w : IndexState) → IsCovered w → IsAtRest w → 0 < w.pages_per_range → AreRowsBelow w → AreOrdered (index_view w)
        → AreLawful w.contents → IsIndexKept w }
    ensures stopped { (w v : IndexState) → IsIndexKept w → Stops w v → IsIndexKept v }
    ensures new { (contents : Contents) (per blocks : ℕ) (pages : Pages) (counts : ℕ → Bool) → AreLawful contents → 0 < per → AreNewPages pages
        → IsIndexKept (new_index contents per blocks pages counts) }
{}

/// Each matching row that a scan's session sees is found, or lies in a candidate block that isn't read yet; and a range
/// whose tuple excludes the matches has none of them.
pub fn scans_miss_nothing()
    ensures found { (w : IndexState) (s b k : ℕ) (scan : Scan) → IsIndexKept w → w.statement s ≡ Scanning scan → IsTrue (scan.sees b k)
        → IsFoundOrUnread w scan b k }
    ensures excluded { (w : IndexState) (s b k : ℕ) (r : Row) (scan : Scan) → IsIndexKept w → w.statement s ≡ Scanning scan → IsTrue (scan.sees b k)
        → w.row b k ≡ Some r → IsRangeExcluded w scan (range_of_block (index_view w) b) → IsTrue (scan.matches r) → ⊥ }
{}

/// A step that would change pages comes out in one way: it waits, finds a difference, goes on in place or elsewhere, or is
/// full. It waits only for a page that another session locks, and for one alone, and finds a difference only where there is one:
/// tuples of one index with the same bytes are one. Where it is full, it tells how many pages there may be. A tuple is put at a free place
/// of a page past the map that has room and isn't being emptied, or of the next page that isn't started, below the limit.
pub fn verdicts_are_exact()
    ensures one_put { (w : IndexView) (s range need : ℕ) (p q : Verdict) → PutVerdict w s range need p → PutVerdict w s range need q → p ≡ q }
    ensures one_swap { (w : IndexView) (s range : ℕ) (x : Spot) (old new : IndexTuple) (p q : Verdict) → SwapVerdict w s range x old new p
        → SwapVerdict w s range x old new q → p ≡ q }
    ensures one_clear { (w : IndexView) (s range : ℕ) (x : Spot) (p q : Verdict) → ClearVerdict w s range x p → ClearVerdict w s range x q → p ≡ q }
    ensures put_waits { (w : IndexView) (s range need p : ℕ) → PutVerdict w s range need (Waits p) → IsLocked w.lock s p }
    ensures swap_waits { (w : IndexView) (s range p : ℕ) (x : Spot) (old new : IndexTuple) → SwapVerdict w s range x old new (Waits p) → IsLocked w.lock s p }
    ensures swap_differs { (w : IndexView) (s range : ℕ) (x : Spot) (old new : IndexTuple) → SwapVerdict w s range x old new Differs
        → w.tuple x ≢ Some old }
    ensures clear_waits { (w : IndexView) (s range p : ℕ) (x : Spot) → ClearVerdict w s range x (Waits p) → IsLocked w.lock s p }
    ensures clear_differs { (w : IndexView) (s range : ℕ) (x : Spot) → ClearVerdict w s range x Differs → w.entry range ≢ Some x }
    ensures phase_waits { (w : IndexView) (s range p : ℕ) (phase : Phase) → IsPhaseWaiting w s range phase p → IsLocked w.lock s p }
    ensures one_phase_wait { (w : IndexView) (s range p q : ℕ) (phase : Phase) → IsPhaseWaiting w s range phase p → IsPhaseWaiting w s range phase q → p ≡ q }
    ensures same_bytes { (contents : Contents) (t u : IndexTuple) → IsFormed contents t → IsFormed contents u → t.bytes ≡ u.bytes → t ≡ u }
    ensures put_place { (w : IndexView) (s range need : ℕ) (y : Spot) → PutVerdict w s range need (Puts y) → (w.tuple y ≡ None)
        × (((w.pages.map_pages < y.block) × (w.pages.kind y.block ≡ Regular) × (need ≤ page_room (bytes_of w.tuple) y.block))
        ⊎ ((w.pages.kind y.block ≡ Unstarted) × (y.block < w.pages.limit))) }
    ensures put_past_map { (w : IndexView) (s range need : ℕ) (y : Spot) → AreOrdered w → PutVerdict w s range need (Puts y)
        → (w.pages.map_pages < y.block) × (y.block < w.pages.limit) }
    ensures full_put { (w : IndexView) (s range need number : ℕ) → PutVerdict w s range need (Full number) → number ≡ w.pages.limit }
    ensures full_swap { (w : IndexView) (s range number : ℕ) (x : Spot) (old new : IndexTuple) → SwapVerdict w s range x old new (Full number)
        → number ≡ w.pages.limit }
    ensures full_phase { (w : IndexView) (s range number : ℕ) (phase : Phase) → IsPhaseFull w s range phase number → number ≡ w.pages.limit }
    ensures some_put { (w : IndexView) → HasFreeSlots w.tuple → (s range need : ℕ) → ((p : Verdict) → PutVerdict w s range need p → ⊥) → ⊥ }
    ensures some_swap { (w : IndexView) → HasFreeSlots w.tuple → (s range : ℕ) (x : Spot) (old new : IndexTuple)
        → ((p : Verdict) → SwapVerdict w s range x old new p → ⊥) → ⊥ }
    ensures some_clear { (w : IndexView) (s range : ℕ) (x : Spot) → ((p : Verdict) → ClearVerdict w s range x p → ⊥) → ⊥ }
{}

/// An index of which one page has room for a tuple isn't told full, by a put or a swap of it. A page has room for one more tuple of so
/// many bytes where its tuples stand in its first slots and none is longer, and one slot more with such tuples fits on a page.
pub fn a_page_with_room_is_not_full()
    ensures put { (w : IndexView) (s range need number p : ℕ) → PageHasRoom w.pages (bytes_of w.tuple) need p → PutVerdict w s range need (Full number) → ⊥ }
    ensures swap { (w : IndexView) (s range number p : ℕ) (x : Spot) (old new : IndexTuple) → PageHasRoom w.pages (bytes_of w.tuple) (length new.bytes) p
        → SwapVerdict w s range x old new (Full number) → ⊥ }
    ensures room { (bytes : Spot → Slot) (page slots most : ℕ) → HasTuplesWithin bytes page slots most → (slots + 1) * (most + 4) ≤ PAGE_ROOM
        → most ≤ page_room bytes page }
{}

/// Of all steps that a statement could take on an index at a moment there is one point alone, and none where it is blocked or lacks a page; and what
/// its statement is at afterwards, with the very tuple that it has in hand, is one thing.
pub fn each_step_is_the_next_one()
    ensures insert { (s b k : ℕ) (r : Row) (w v u : IndexView) (on_index : OnIndex) (e f : Statement)
        (one : InsertStep s b k r w v on_index e) (two : InsertStep s b k r w u on_index f)
        → insert_point one ≡ insert_point two }
    ensures summarise { (s range : ℕ) (w v u : IndexView) (phase : Phase) (e f : Statement)
        (one : SummariseStep s range w v phase e) (two : SummariseStep s range w u phase f)
        → summarise_point one ≡ summarise_point two }
    ensures desummarise { (s range : ℕ) (w v u : IndexView) (phase : Phase) (e f : Statement)
        (one : DesummariseStep s range w v phase e) (two : DesummariseStep s range w u phase f)
        → desummarise_point one ≡ desummarise_point two }
    ensures insert_outcome { (s b k : ℕ) (r : Row) (w v u : IndexView) (on_index : OnIndex) (e f : Statement) → InsertStep s b k r w v on_index e
        → InsertStep s b k r w u on_index f → e ≡ f }
    ensures summarise_outcome { (s range : ℕ) (w v u : IndexView) (phase : Phase) (e f : Statement) → SummariseStep s range w v phase e
        → SummariseStep s range w u phase f → e ≡ f }
    ensures desummarise_outcome { (s range : ℕ) (w v u : IndexView) (phase : Phase) (e f : Statement) → DesummariseStep s range w v phase e
        → DesummariseStep s range w u phase f → e ≡ f }
    ensures insert_blocked { (s b k p : ℕ) (r : Row) (w v : IndexView) (x : Spot) (old new : IndexTuple) (e : Statement)
        → SwapVerdict w s (range_of_block w b) x old new (Waits p) → InsertStep s b k r w v (Copied x old new) e → ⊥ }
    ensures summarise_blocked { (s range p : ℕ) (w v : IndexView) (phase : Phase) (e : Statement) → IsPhaseWaiting w s range phase p
        → SummariseStep s range w v phase e → ⊥ }
    ensures insert_full { (w v : IndexView) (s b k number : ℕ) (r : Row) (x : Spot) (old new : IndexTuple) (e : Statement)
        → SwapVerdict w s (range_of_block w b) x old new (Full number) → InsertStep s b k r w v (Copied x old new) e → ⊥ }
    ensures summarise_full { (w v : IndexView) (s range number : ℕ) (phase : Phase) (e : Statement) → IsPhaseFull w s range phase number
        → SummariseStep s range w v phase e → ⊥ }
    ensures desummarise_blocked { (s range p : ℕ) (w v : IndexView) (x : Spot) (e : Statement) → ClearVerdict w s range x (Waits p)
        → DesummariseStep s range w v (NotBuilding (Held x)) e → ⊥ }
{}

/// A step hangs on nothing that the sessions build or have in hand: with the part of the index that it makes it is a step whatever that is
/// then, under its point and with its count.
pub fn steps_are_of_the_index()
    ensures insert { (s b k : ℕ) (r : Row) (w v : IndexView) (old : OnIndex) (new : Statement) (step : InsertStep s b k r w v old new)
        → InsertMakes s b k r w (part_of v) old new (insert_point step) }
    ensures summarise { (s range : ℕ) (w v : IndexView) (old : Phase) (new : Statement) (step : SummariseStep s range w v old new)
        → SummariseMakes s range w (part_of v) old new (summarise_point step) (summarise_count step) }
    ensures desummarise { (s range : ℕ) (w v : IndexView) (old : Phase) (new : Statement) (step : DesummariseStep s range w v old new)
        → DesummariseMakes s range w (part_of v) old new (desummarise_point step) (desummarise_count step) }
    ensures sweep { (s page : ℕ) (w v : IndexView) → SweepsTuples s w v page (λ x. (x.block ≡ page) × IsUnnamed w x) → SweepMakes s page w (part_of v) }
{}

/// A running insert, summariser or desummarise is never stuck: it has a step on the index, or waits for a page; or no page is left
/// for what the insert or the summariser has to put. While no other session steps an insert takes
/// at most six steps in an index, and five from its first one on. The steps are those with the very tuples that the index's contents give.
pub fn some_step_comes()
    ensures insert { (w : IndexView) → HasFreeSlots w.tuple → (s b k : ℕ) (r : Row) (on_index : OnIndex) → Knows w s (Inserting b k r on_index)
        → IsInsertStuck w s b k r on_index → IsSwapFree w s (range_of_block w b) on_index → ⊥ }
    ensures insert_ends_begun { (w : IndexView) (s b k steps : ℕ) (r : Row) → AreNamed w → InsertsAlone s b k r steps w Empty → steps ≤ 5 }
    ensures insert_ends { (w : IndexView) (s b k steps : ℕ) (r : Row) (on_index : OnIndex) → AreNamed w → InsertsAlone s b k r steps w on_index → steps ≤ 6 }
    ensures summarise { (w : IndexView) → HasFreeSlots w.tuple → HasBlocksOfRows w → (s range : ℕ) (phase : Phase) → IsRangeOf w range
        → Knows w s (Maintaining range phase) → KnowsPages w s (Maintaining range phase) → IsSummariseStuck w s range phase → IsPhaseFree w s range phase → ⊥ }
    ensures desummarise { (w : IndexView) (s range : ℕ) (on_index : OnIndex) → Knows w s (Maintaining range (NotBuilding on_index))
        → IsDesummariseStuck w s range on_index → IsClearFree w s range on_index → ⊥ }
{}

/// How many rows of a heap block, or tuples of an index page, went is one number; and of all steps that a statement could take on an index
/// at a moment, each adds the same to the count that its reply tells: one where the map comes to name a final tuple of a summariser's
/// range, or where a desummarise's range loses its entry. It gives no other range a final tuple. The tuples that a sweep drops are those that the map doesn't name.
pub fn counts_are_exact()
    ensures rows { (before after : ℕ → ℕ → Option Row) (block m n : ℕ) → AreRowsGone before after block m → AreRowsGone before after block n → m ≡ n }
    ensures tuples { (before after : Spot → Option IndexTuple) (page m n : ℕ) → AreTuplesGone before after page m
        → AreTuplesGone before after page n → m ≡ n }
    ensures summarise { (s range : ℕ) (w v u : IndexView) (phase : Phase) (e f : Statement)
        (one : SummariseStep s range w v phase e) (two : SummariseStep s range w u phase f) → summarise_count one ≡ summarise_count two }
    ensures desummarise { (s range : ℕ) (w v u : IndexView) (phase : Phase) (e f : Statement)
        (one : DesummariseStep s range w v phase e) (two : DesummariseStep s range w u phase f) → desummarise_count one ≡ desummarise_count two }
    ensures summarised { (w v : IndexState) (s range : ℕ) (old : Phase) (new : Statement) (step : SummariseStep s range (index_view w) (index_view v) old new)
        → IsIndexKept w → IsIndexKept v → w.statement s ≡ Maintaining range old → v.statement s ≡ new
        → (summarise_count step ≡ 1) ↔ (NamesFinal (index_view v) range × (NamesFinal (index_view w) range → ⊥)) }
    ensures elsewhere { (w v : IndexState) (s range m : ℕ) (old : Phase) (new : Statement) → SummariseStep s range (index_view w) (index_view v) old new
        → IsIndexKept w → w.statement s ≡ Maintaining range old → m ≢ range → NamesFinal (index_view v) m → NamesFinal (index_view w) m }
    ensures cleared { (w v : IndexState) (s range : ℕ) (old : Phase) (new : Statement) (step : DesummariseStep s range (index_view w) (index_view v) old new)
        → (desummarise_count step ≡ 1) ↔ ((w.entry range ≢ None) × (v.entry range ≡ None)) }
    ensures swept { (s page : ℕ) (w v : IndexView) → SweepsTuples s w v page (λ x. (x.block ≡ page) × IsUnnamed w x) → (x : Spot) → x.block ≡ page
        → HasGone (w.tuple x) (v.tuple x) ↔ IsUnnamed w x }
{}

/// While the rows of the table stay, what a summariser has made of a range is exact after each of its steps, and stays so at the steps of
/// others: its result is what the rows of the passed blocks make of the empty placeholder, in order of block and slot. So where it counts
/// the range, the map comes to name the placeholder that it named, united with what all rows of the range make.
pub fn results_are_exact()
    ensures steps { (s range : ℕ) (w v : IndexView) (old : Phase) (new : Statement) → SummariseStep s range w v old new → IsExact w range old
        → IsExactAfter v range new }
    ensures stays { (w v : IndexView) (range : ℕ) (phase : Phase) → SameHeap w v → v.contents ≡ w.contents → IsExact w range phase → IsExact v range phase }
    ensures named { (w v : IndexState) (s range : ℕ) (old : Phase) (new : Statement) (step : SummariseStep s range (index_view w) (index_view v) old new)
        → IsIndexKept w → w.statement s ≡ Maintaining range old → IsExact (index_view w) range old → summarise_count step ≡ 1
        → NamesExactFinal (index_view w) (index_view v) range }
{}

/// A run of these steps takes a range of a new index, with a lawful way to make tuples, from no entry to a final tuple: the
/// definitions aren't empty.
pub fn a_range_is_summarised()
    ensures { (w : IndexState) × (v : IndexState) × (steps : List ℕ) × IsIndexKept w × Run steps w v × (w.entry 0 ≡ None)
        × ((x : Spot) × (t : IndexTuple) × (v.entry 0 ≡ Some x) × (v.tuple x ≡ Some t) × (t.placeholder ≡ false)) }
{}

/// A run of these steps, from an index that is kept and an insert that has put its row, moves a tuple: the entry names another
/// place than before, whose tuple includes the row, which the old one doesn't, and nothing stands at the old place.
pub fn an_insert_moves_a_tuple()
    ensures { (r : Row) → (w : IndexState) × (v : IndexState) × (steps : List ℕ) × IsIndexKept w × (w.statement 0 ≡ Inserting 0 0 r Empty) × Run steps w v
        × ((x : Spot) × (y : Spot) × (t : IndexTuple) × (u : IndexTuple) × (x ≢ y) × (w.entry 0 ≡ Some x) × (v.entry 0 ≡ Some y)
        × (w.tuple x ≡ Some t) × (t.includes r ≡ false) × (v.tuple y ≡ Some u) × IsTrue (u.includes r) × (v.tuple x ≡ None)) }
{}

/// A run of these steps, from an index that is kept, makes the map grow by a page on which a tuple stood: the tuple stands on
/// another page unchanged, where its entry names it, and the page has become one of the map. The run goes on until the map names the
/// placeholder of the range for whose entry it was too short.
pub fn a_map_grows()
    ensures { (w : IndexState) × (v : IndexState) × (steps : List ℕ) × IsIndexKept w × Run steps w v × (v.pages.map_pages ≡ suc w.pages.map_pages)
        × ((x : Spot) × (y : Spot) × (t : IndexTuple) × (x.block ≡ next_map_page w.pages) × (v.pages.kind x.block ≡ Mapping)
        × (x.block ≢ y.block) × (w.entry t.range ≡ Some x) × (w.tuple x ≡ Some t) × (v.entry t.range ≡ Some y) × (v.tuple y ≡ Some t) × (v.tuple x ≡ None))
        × ((range : ℕ) × IsPastMap w.pages range × NamesPlaceholder (index_view v) range
        × (v.statement 0 ≡ Maintaining range (IsAt ExtentUnread Empty))) }
{}
