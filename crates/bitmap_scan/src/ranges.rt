//! Which range comes next, and which blocks a judged one leaves out.

ghost use Rattle.std.specs.Prelude.{◌≡◌, ◌+◌, ◌<◌, ◌≤◌, length};
ghost use Rattle.bitmap_scan.specs.IndexReaders.{all_scanned};
ghost use Rattle.bitmap_scan.specs.NextRanges.{AreBelow, LeavesOut, Marks, first_range, range_from};

use crate::readers::IndexReader;
use crate::stage::Stage;

/// The stage before the first range of the index at that place, if there are an index and a block.
pub(crate) fn first_range(readers: &[IndexReader], extent: u32, at: usize) -> Stage
    ensures { result ≡ first_range (all_scanned readers.now) extent at }
{
    if at < readers.len() && extent > 0 {
        Stage::Map { at, range: 0 }
    } else {
        Stage::Judged
    }
}

/// The stage behind a range of the index at that place: before its next range, if that has a block below the extent, else before
/// the next index.
pub(crate) fn next_range(readers: &[IndexReader], extent: u32, at: usize, range: u32) -> Stage
    requires at { at < length readers.now }
    requires range { range < extent }
    ensures { result ≡ range_from (all_scanned readers.now) extent at (range + 1) }
{
    let first = u64::from(range + 1) * u64::from(readers[at].pages_per_range);
    if first < u64::from(extent) {
        Stage::Map {
            at,
            range: range + 1,
        }
    } else {
        first_range(readers, extent, at + 1)
    }
}

/// The blocks below the extent become the candidates.
pub(crate) fn begin_with(candidates: &mut [bool], extent: u32)
    requires { extent ≤ length candidates.old }
    ensures { AreBelow extent candidates.old candidates.new }
{
    let count = candidates.len();
    mark(candidates, 0, extent as usize, true);
    mark(candidates, extent as usize, count, false);
}

/// The blocks of the range become candidates no more.
pub(crate) fn leave_out(candidates: &mut [bool], pages_per_range: u32, range: u32)
    requires { 1 ≤ pages_per_range }
    ensures { LeavesOut pages_per_range range candidates.old candidates.new }
{
    let count = candidates.len() as u64;
    let first = u64::from(range) * u64::from(pages_per_range);
    let from = first.min(count);
    let end = (first + u64::from(pages_per_range)).min(count);
    mark(candidates, from as usize, end as usize, false);
}

/// The blocks from one on, below another, become all candidates or all none.
fn mark(candidates: &mut [bool], from: usize, end: usize, value: bool)
    requires order { from ≤ end }
    requires within { end ≤ length candidates.old }
    ensures { Marks from end value candidates.old candidates.new }
{
    candidates[from..end].fill(value);
}
