//! The given blocks of a shelf.

ghost use Rattle.std.specs.Prelude.{◌≡◌, ◌++◌, ◌∷◌, [], if◌then◌else◌, filter, slice_index, IfOk, OnOk};
ghost use Rattle.std.specs.List.{list_all, range_with_len};
ghost use Rattle.store_layout.specs.DiskLayout.{DiskLayout};
ghost use Rattle.bitmap_scan.specs.ScanHands.{scanned_indexes};
ghost use Rattle.summary_directory.specs.GivenBlocks.{given_blocks};
ghost use Rattle.summary_directory.specs.Rule.{kept};
ghost use Rattle.summary_directory.specs.ShelfFold.{shown_of};
ghost use Rattle.summary_directory.specs.Verdicts.{all_keep, keeps_block};

use crate::judge::Judge;
use crate::shelf::Shelf;
use crate::verdicts::{Verdicts, judge_all};
use block_model::{Blocks, NoMemory, Query};
use std::alloc::Global;

/// The blocks that are given for the query, by what the shelf shows.
pub(crate) fn given_in(
    alloc: Global,
    shelf: &Shelf,
    judges: &mut [Judge],
    query: &Query,
) -> Result<Blocks, NoMemory>
    ensures same { judges.new ≡ judges.old }
    ensures given { IfOk result (λ blocks. (layout : DiskLayout) → judges.old ≡ scanned_indexes layout query.now.table → blocks ≡ given_blocks layout (shown_of (kept shelf.now)) query.now) }
{
    let conds = query.conds.as_slice();
    let verdicts = judge_all(alloc, shelf.tuples.as_slice(), judges, conds)?;
    let extent = extent_of(shelf.extents.as_slice(), query.table);
    let blocks = list(alloc, verdicts.as_slice(), extent)?;
    Ok(blocks)
}

/// How many blocks the table has.
fn extent_of(extents: &[u32], table: u8) -> u32
    ensures { result ≡ slice_index extents.now table }
{
    match extents.get(usize::from(table)) {
        Some(blocks) => *blocks,
        None => 0,
    }
}

/// Lists the blocks whose ranges are kept in each index.
fn list(alloc: Global, verdicts: &[Verdicts], extent: u32) -> Result<Blocks, NoMemory>
    ensures { IfOk result (λ blocks. blocks ≡ filter (all_keep verdicts.now) (range_with_len 0 extent)) }
{
    let mut blocks = Blocks::new(alloc);
    'candidates: for block in 0..extent {
        list_if(are_kept(verdicts, block), block, &mut blocks)?;
    }
    Ok(blocks)
}

/// Whether each index keeps the range of the block.
fn are_kept(verdicts: &[Verdicts], block: u32) -> bool
    ensures { result ≡ list_all (keeps_block block) verdicts.now }
{
    verdicts.iter().all(|verdicts| verdicts.keeps(block))
}

/// Lists the block, if it is given.
fn list_if(given: bool, block: u32, blocks: &mut Blocks) -> Result<(), NoMemory>
    ensures { OnOk result (blocks.new ≡ blocks.old ++ (if given then block ∷ [] else [])) }
{
    if given {
        blocks.push(block)?;
    }
    Ok(())
}
