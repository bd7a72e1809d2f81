//! What a summarise has of an index that is kept, as laws on the definitions.

ghost use Rattle.std.specs.Prelude.{◌≡◌, ℕ, List, Option};
ghost use Rattle.store_layout.specs.DiskLayout.{DiskLayout};
ghost use Rattle.page_map.specs.PageMap.{PageMap};
ghost use Rattle.range_tuple.specs.ExactTuples.{IsExactTuple};
ghost use Rattle.range_tuple.specs.Tuples.{Tuple, parts_of};
ghost use Rattle.index_contents.specs.PageOrder.{IsIndexInOrder};
ghost use Rattle.coverage.specs.IsCovered.{IndexState, IsIndexKept, index_view};
ghost use Rattle.coverage.specs.Statements.{Maintaining};
ghost use Rattle.index_contents.specs.IndexContents.{IndexContents, contents, index_page};
ghost use Rattle.index_steps.specs.IndexTuples.{IndexShape, classes_of, shape_of};
ghost use Rattle.index_steps.specs.ShownIndex.{Shows};
ghost use Rattle.summarise_core.specs.ExactSummaries.{HasPassed, HasPassedAll, IsFinalOf, Unites, first_of_range, rows_of_blocks, rows_of_range};
ghost use Rattle.summarise_core.specs.ShownHeap.{Heap};
ghost use Rattle.summarise_core.specs.declared.range_stage.Stage.TheVariants as stages;
ghost use Rattle.summarise_core.specs.StepCauses.{DamageAt, IsReady};
ghost use Rattle.summarise_core.specs.SummariseHands.{SummariseHand};
ghost use Rattle.summarise_core.specs.SummariseSteps.{phase_of};

use index_steps::{a_kept_index_takes_a_growth, a_sound_index_is_not_misread};
use range_tuple::rows_leave_exact_summaries;

/// An index that is kept is ready for the step of a summarise at a range of it; and where its pages stand in order, no step finds damage
/// there. Does nothing.
pub fn a_kept_index_takes_a_summarise()
    ensures ready { (shape : IndexShape) (c : IndexContents) (lock : ℕ → Option ℕ) (w : IndexState) (s range : ℕ) (hand : SummariseHand) → Shows shape c lock (index_view w) → IsIndexKept w
        → w.statement s ≡ Maintaining range (phase_of shape hand) → IsReady shape c range hand.growth.stage hand.stage }
    ensures sound { (layout : DiskLayout) (pages : PageMap) (index : ℕ) (lock : ℕ → Option ℕ) (w : IndexState) (s range : ℕ) (hand : SummariseHand) → (hand.stage ≡ stages.Place → IsIndexInOrder layout.sizes.index_blocks (index_page layout pages index))
        → Shows (shape_of layout index) (contents layout pages index) lock (index_view w) → IsIndexKept w → w.statement s ≡ Maintaining range (phase_of (shape_of layout index) hand) → DamageAt layout pages index range hand hand.stage → ⊥ }
{
    a_kept_index_takes_a_growth();
    a_sound_index_is_not_misread();
}

/// What the passed blocks made is, column by column, the exact summary of all their rows in use, in order of block and slot: which of nulls
/// and values they had, and the summary of the values. Once no block is left it is that of all blocks of the range. Does nothing.
pub fn a_running_tuple_is_exact()
    ensures so_far { (shape : IndexShape) (heap : Heap) (range extent next : ℕ) (running : Tuple) (so_far : HasPassed shape heap range extent next running)
        → IsExactTuple (rows_of_blocks heap.blocks (first_of_range heap range) so_far.passed) running }
    ensures all { (shape : IndexShape) (heap : Heap) (range extent next : ℕ) (running : Tuple) → HasPassedAll shape heap range extent next running → IsExactTuple (rows_of_range heap range) running }
{
    rows_leave_exact_summaries();
}

/// The final tuple that unites a placeholder with what all blocks of the range made has, column by column, the exact summary of all rows in
/// use of these blocks, in order of block and slot, united with what the placeholder held. Does nothing.
pub fn a_final_tuple_is_exact()
    ensures { (shape : IndexShape) (heap : Heap) (range extent next : ℕ) (running united : Tuple) (copied : List ℕ) → parts_of running.columns ≡ classes_of shape
        → HasPassedAll shape heap range extent next running → Unites shape copied united running → IsFinalOf shape copied (rows_of_range heap range) united }
{
    a_running_tuple_is_exact();
}
