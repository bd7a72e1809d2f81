//! How far a summarise has come over the ranges of its index.

ghost use Rattle.std.specs.Prelude.{◌≡◌, ◌<◌, ◌≤◌, List, ℕ, true, false};
ghost use Rattle.block_model.specs.declared.reply.Point.{Point as AnyPoint};
ghost use Rattle.page_layout.specs.PageContents.{Slot};
ghost use Rattle.page_locks.specs.declared.did.Did.TheVariants as dids;
ghost use Rattle.page_locks.specs.LockHolders.{LockState, holder};
ghost use Rattle.store_layout.specs.DiskLayout.{DiskLayout};
ghost use Rattle.index_steps.specs.SwapAnswers.{LeavesLocks, TakesAtMost};
ghost use Rattle.summarise_core.specs.SummariseSteps.{made_at};
ghost use Rattle.summarise_core.specs.Summarises.{ComesTo, GivesBy, GoesOver, IsExactNow, SummariseState, first_of, held_by, state_of, taken_by};

use crate::wish::Wish;
use crate::{RangeSummarise, Stage, first_block};

/// Where a summarise stands between its steps.
#[derive(Clone, Copy, Debug, PartialEq, Eq)]
pub enum Standing {
    /// Before its first step, which takes the summarise lock of the table.
    Begins,
    /// At a range.
    AtRange,
    /// No range is left.
    Done,
}

/// What is asked for; where it stands; the extent that was read, in blocks, and the range that it is at; and to how many ranges before that
/// one it gave a final tuple.
#[derive(Clone, Copy, Debug, PartialEq, Eq)]
pub(crate) struct Course {
    pub(crate) wish: Wish,
    pub(crate) standing: Standing,
    pub(crate) extent: u64,
    pub(crate) range: u32,
    pub(crate) made: u64,
}

/// Begins the work at the range, if it is one to go over; else no range is left. Answers whether it came to the range.
pub(crate) fn come_to(course: &mut Course, work: &mut RangeSummarise, in_range: u32) -> bool
    requires some { 0 < in_range }
    requires few { in_range ≤ 131072 }
    ensures next { result ≡ true → (index : ℕ) (point : AnyPoint) → ComesTo in_range (state_of index course.old work.old) point (state_of index course.new work.new) (dids.Moved point) }
    ensures last { result ≡ false → (index : ℕ) (point : AnyPoint) → ComesTo in_range (state_of index course.old work.old) point (state_of index course.new work.new) (dids.Finished point) }
    ensures there { result ≡ true → course.new.standing ≡ Standing.AtRange }
    ensures same_wish { course.new.wish ≡ course.old.wish }
    ensures done { result ≡ false → course.new.standing ≡ Standing.Done }
    ensures free { (index : ℕ) → held_by (state_of index course.new work.new) ≡ 0 }
    ensures exact { (layout : DiskLayout) (blocks : List (List Slot)) (index : ℕ) → IsExactNow layout blocks (state_of index course.new work.new) }
{
    if goes_over(course, in_range) {
        work.begin();
        course.standing = Standing::AtRange;
        return true;
    }
    course.standing = Standing::Done;
    false
}

/// Whether the range is one to go over.
fn goes_over(course: &Course, in_range: u32) -> bool
    requires some { 0 < in_range }
    requires few { in_range ≤ 131072 }
    ensures goes { result ≡ true → GoesOver course.now.wish in_range course.now.extent course.now.range }
    ensures lacks { result ≡ false → GoesOver course.now.wish in_range course.now.extent course.now.range → ⊥ }
{
    let first = first_block(course.range, in_range);
    match course.wish {
        Wish::New => first < course.extent,
        Wish::Block(block) => {
            if course.range != block / in_range {
                return false;
            }
            first < course.extent
        }
        Wish::Complete => {
            let behind = first + u64::from(in_range);
            behind <= course.extent
        }
    }
}

/// The first range that is looked at.
pub(crate) fn first_of(wish: Wish, in_range: u32) -> u32
    requires { 0 < in_range }
    ensures { result ≡ first_of wish in_range }
{
    match wish {
        Wish::New | Wish::Complete => 0,
        Wish::Block(block) => block / in_range,
    }
}

/// How many final tuples the map came to name by the work that is at the stage.
pub(crate) fn made_at(stage: Stage) -> u8
    ensures number { result ≡ made_at stage }
    ensures few { result ≤ 1 }
{
    match stage {
        Stage::Drop(_) => 1,
        Stage::Made => 1,
        Stage::Map => 0,
        Stage::Tuple(_) => 0,
        Stage::Place => 0,
        Stage::Name(_) => 0,
        Stage::Extent => 0,
        Stage::Pass => 0,
        Stage::Copy(_) => 0,
        Stage::Swap(_) => 0,
        Stage::Set(_, _) => 0,
        Stage::Had => 0,
    }
}

/// A summarise that begins has no page lock, and takes and gives none. Does nothing.
pub(crate) fn a_summarise_begins_without_locks()
    ensures counts { (a : SummariseState) (locks : LockState) (actor : ℕ) → TakesAtMost (taken_by a) locks locks actor }
    ensures leaves { (locks : LockState) (relation actor : ℕ) → LeavesLocks (holder locks) (holder locks) relation actor }
    ensures given { (a : SummariseState) (n : ℕ) → a.standing ≡ Standing.Begins → GivesBy a → n ≡ 0 }
    ensures own { (a b : SummariseState) (n : ℕ) → a.standing ≡ Standing.Begins → held_by b ≡ 0 → n ≤ held_by a → n ≤ held_by b }
{}
