//! The request for a summary that came first.

ghost use Rattle.std.specs.Prelude.{◌≡◌, ◌*◌, ◌<◌, None, length, IfSome};
ghost use Rattle.summarise_core.specs.Summarises.{in_range_of};
ghost use Rattle.session_maintenance.specs.FirstRequests.{HasNoRequest, IsFirstRequest};

use brin_insert::Queue;
use store_layout::Layout;
use summarise_core::{blocks_a_range, first_block};

/// A request for the summary of a range of an index, with the first block of the range.
#[derive(Clone, Copy)]
pub(crate) struct FirstRequest {
    pub(crate) index: u8,
    pub(crate) range: u32,
    pub(crate) block: u32,
}

/// The request that came first, if one is held. No store holds one of an index that isn't declared, or of a range beyond the blocks that a
/// heap may have: such a one is none.
pub(crate) fn first_request(queue: &Queue, layout: &Layout) -> Option<FirstRequest>
    ensures first { IfSome result (IsFirstRequest layout.now queue.now) }
    ensures none { result ≡ None → HasNoRequest layout.now queue.now }
{
    let (index, range) = match queue.first() {
        Some(request) => request,
        None => return None,
    };
    if usize::from(index) >= layout.schema().indexes.len() {
        return None;
    }
    let block = match block_of(layout, index, range) {
        Some(block) => block,
        None => return None,
    };
    Some(FirstRequest {
        index,
        range,
        block,
    })
}

/// The first block of a range, if a heap may have it.
fn block_of(layout: &Layout, index: u8, range: u32) -> Option<u32>
    requires { index < length layout.now.schema.indexes }
    ensures block { IfSome result (λ block. block ≡ range * in_range_of layout.now index) }
    ensures some { 0 < in_range_of layout.now index }
    ensures none { result ≡ None → range * in_range_of layout.now index < layout.now.sizes.heap_blocks → ⊥ }
{
    let block = first_block(range, blocks_a_range(layout, index));
    if block >= u64::from(layout.sizes().heap_blocks) {
        return None;
    }
    Some(block as u32)
}
