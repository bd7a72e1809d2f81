//! The frame of a page.

ghost use Rattle.std.specs.Prelude.{◌≡◌, ◌<◌, ◌≤◌, ℕ, Some, length, IfSome, IfNone};
ghost use Rattle.buffer_pool.specs.Slots.{IsAbsent, page_at};
ghost use Rattle.buffer_pool.specs.Table.{AreInBuckets, bucket_of_page};

use crate::buckets::Buckets;
use crate::held::{Held, holds};

/// The greatest number of buckets, less one.
const GREATEST_MASK: u32 = 0x7fff_ffff;

/// The frame that holds the page.
pub(crate) fn frame_of(
    buckets: &Buckets,
    slots: &[Option<Held>],
    mask: u32,
    page: u64,
) -> Option<u32>
    requires { AreInBuckets slots.now buckets.now mask }
    ensures within { IfSome result (λ frame. frame < length slots.now) }
    ensures found { IfSome result (λ frame. page_at slots.now frame ≡ Some page) }
    ensures absent { IfNone result (IsAbsent slots.now page) }
{
    let mut next = buckets.first(bucket(page, mask));
    'bucket: while next > 0 {
        let frame = next - 1;
        if holds(&slots[frame as usize], page) {
            return Some(frame);
        }
        next = buckets.next(frame);
    }
    None
}

/// The bucket of the page.
pub(crate) fn bucket(page: u64, mask: u32) -> u32
    ensures bucket { result ≡ bucket_of_page mask page }
    ensures within { result ≤ mask }
{
    (page & u64::from(mask)) as u32
}

/// One less than a number of buckets that serves so many frames.
pub(crate) fn mask_for(frames: u32) -> u32
    ensures { result ≤ GREATEST_MASK }
{
    let spare = frames.leading_zeros().min(31);
    (u32::MAX >> spare).min(GREATEST_MASK)
}
