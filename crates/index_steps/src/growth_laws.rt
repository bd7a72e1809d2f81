//! What a growth has of an index that is kept, as laws on the definitions.

ghost use Rattle.std.specs.Prelude.{◌≡◌, ℕ, Option};
ghost use Rattle.store_layout.specs.DiskLayout.{DiskLayout};
ghost use Rattle.page_map.specs.PageMap.{PageMap};
ghost use Rattle.index_contents.specs.PageOrder.{IsIndexInOrder};
ghost use Rattle.coverage.specs.IsCovered.{IndexState, IsIndexKept, index_view};
ghost use Rattle.coverage.specs.Statements.{Maintaining};
ghost use Rattle.index_contents.specs.IndexContents.{IndexContents, contents, index_page};
ghost use Rattle.index_steps.specs.IndexTuples.{IndexShape};
ghost use Rattle.index_steps.specs.ShownIndex.{Shows};
ghost use Rattle.index_steps.specs.GrowthHands.{GrowthHand};
ghost use Rattle.index_steps.specs.GrowthSteps.{phase_of};
ghost use Rattle.index_steps.specs.StepCauses.{DamageAt, IsReady};

use crate::{a_page_in_order_is_not_damaged, an_uncounted_map_page_is_left_over};

/// An index that is kept is ready for the step of a growth in it; and where its pages stand in order, no step finds damage there. Does
/// nothing.
pub fn a_kept_index_takes_a_growth()
    ensures ready { (shape : IndexShape) (c : IndexContents) (lock : ℕ → Option ℕ) (w : IndexState) (s range : ℕ) (hand : GrowthHand) → Shows shape c lock (index_view w) → IsIndexKept w
        → w.statement s ≡ Maintaining range (phase_of shape hand) → IsReady shape c hand.stage }
    ensures sound { (layout : DiskLayout) (pages : PageMap) (shape : IndexShape) (lock : ℕ → Option ℕ) (w : IndexState) (s range : ℕ) (hand : GrowthHand)
        → IsIndexInOrder layout.sizes.index_blocks (index_page layout pages hand.index) → Shows shape (contents layout pages hand.index) lock (index_view w) → IsIndexKept w
        → w.statement s ≡ Maintaining range (phase_of shape hand) → DamageAt layout pages hand.index hand.stage → ⊥ }
{
    a_page_in_order_is_not_damaged();
    an_uncounted_map_page_is_left_over();
}
