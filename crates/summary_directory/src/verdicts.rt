//! Which ranges of an index are kept.

ghost use Rattle.std.specs.Prelude.{◌≡◌, ◌≤◌, length, map, IfOk};
ghost use Rattle.block_model.specs.declared.limits.TheConstants.{MAX_CONDITIONS};
ghost use Rattle.summary_directory.specs.JudgedBlocks.{keeps_cell};
ghost use Rattle.summary_directory.specs.Verdicts.{keeps_block, verdict_by};

use crate::judge::Judge;
use block_model::{Cond, NoMemory};
use kept_tuples::Ranges;
use range_tuple::ScanKeys;
use std::alloc::Global;
use std::marker::Model;

/// Of each range of an index that may have a tuple, whether it is kept; and the heap blocks of a range.
#[derive(Debug, Drop)]
pub struct Verdicts {
    pages_per_range: u32,
    kept: Vec<bool>,
}

impl Model for Verdicts {
    ghost use Rattle.std.specs.Prelude.{◌≤◌};
    ghost use Rattle.summary_directory.specs.Verdicts.{Verdict};

    ghost Value = { Verdict };

    ghost view = { λ a. record { pages_per_range = a.pages_per_range; kept = a.kept.items } };

    ghost invariant = { λ a. 1 ≤ a.pages_per_range };
}

impl Verdicts {
    /// Whether the range of the block is kept. Takes no memory.
    pub(crate) fn keeps(&self, block: u32) -> bool
        ensures { result ≡ keeps_block block self.now }
    {
        let range = (block / self.pages_per_range) as usize;
        let kept = &self.kept;
        if range < kept.len() {
            kept[range]
        } else {
            true
        }
    }
}

/// Judges the ranges of each index.
pub(crate) fn judge_all(
    alloc: Global,
    tuples: &[Ranges],
    judges: &mut [Judge],
    conds: &[Cond],
) -> Result<Vec<Verdicts>, NoMemory>
    requires { length conds.now ≤ MAX_CONDITIONS }
    ensures same { judges.new ≡ judges.old }
    ensures verdicts { IfOk result (λ v. v.items ≡ map (verdict_by tuples.now conds.now) judges.old) }
{
    let mut verdicts = Vec::new(alloc);
    'judges: for at in 0..judges.len() {
        let judge = &mut judges[at];
        let verdict = judge_index(alloc, tuples, judge, conds)?;
        verdicts.push(verdict)?;
    }
    Ok(verdicts)
}

/// Judges the ranges of the index.
fn judge_index(
    alloc: Global,
    tuples: &[Ranges],
    judge: &mut Judge,
    conds: &[Cond],
) -> Result<Verdicts, NoMemory>
    requires { length conds.now ≤ MAX_CONDITIONS }
    ensures same { judge.new ≡ judge.old }
    ensures verdict { IfOk result (λ v. v ≡ verdict_by tuples.now conds.now judge.old) }
{
    let pages_per_range = judge.pages_per_range();
    let kept = match tuples.get(usize::from(judge.number())) {
        Some(ranges) => judge_ranges(alloc, ranges, judge, conds)?,
        None => Vec::new(alloc),
    };
    Ok(Verdicts {
        pages_per_range,
        kept,
    })
}

/// Of each range whether it is kept.
fn judge_ranges(
    alloc: Global,
    ranges: &Ranges,
    judge: &mut Judge,
    conds: &[Cond],
) -> Result<Vec<bool>, NoMemory>
    requires { length conds.now ≤ MAX_CONDITIONS }
    ensures same { judge.new ≡ judge.old }
    ensures kept { IfOk result (λ v. v.items ≡ map (keeps_cell judge.old.classes conds.now) ranges.now) }
{
    let keys = ScanKeys::new(conds);
    let wanted = judge.wanted(conds);
    let tuples = ranges.as_slice();
    let bounds = ranges.bounds();
    let mut kept = Vec::with_capacity(alloc, tuples.len())?;
    'each: for range in 0..tuples.len() {
        kept.push(judge.keeps_range(bounds[range], &tuples[range], wanted, &keys))?;
    }
    Ok(kept)
}
