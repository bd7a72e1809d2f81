//! Frames in buckets.

ghost use Rattle.std.specs.Prelude.{◌≡◌, ◌<◌, ◌≤◌, ◌+◌, ◌-◌, ℕ, List, length, set, slice_index, IfOk, replicate, ◌++◌};
ghost use Rattle.std.specs.List.{range_with_len};
ghost use Rattle.buffer_pool.specs.Linked.{AreLinkedAbove, IsLinked, IsNext};

use block_model::NoMemory;
use std::alloc::Global;
use std::boxed::BoxedSlice;
use std::marker::Model;

/// Frames, each in one bucket. A bucket is gone through from its highest frame down, so that a frame is put into it or taken
/// out of it at one place.
#[derive(Debug, Drop)]
pub(crate) struct Buckets {
    frames: u32,
    /// The bucket of each frame, and behind them that of each bucket's head.
    bucket_of: BoxedSlice<u32>,
    /// Of each of these, one past the highest frame of its bucket below it, or 0 where there is none.
    below: BoxedSlice<u32>,
}

impl Model for Buckets {
    ghost use Rattle.buffer_pool.specs.Linked.{IsLinked, Placed};
    ghost use Rattle.std.specs.Box.{boxed_slice_items};

    ghost Value = { Placed };

    ghost view = { λ a. record { frames = a.frames; bucket_of = boxed_slice_items a.bucket_of } };

    ghost invariant = { λ a. IsLinked a.frames (boxed_slice_items a.bucket_of) (boxed_slice_items a.below) };
}

impl Buckets {
    /// All frames stand in the last bucket. `Err` is want of memory.
    pub fn new(alloc: Global, frames: u32, last: u32) -> Result<Buckets, NoMemory>
        ensures frames { IfOk result (λ buckets. buckets.frames ≡ frames) }
        ensures heads { IfOk result (λ buckets. length buckets.bucket_of ≡ frames + last + 1) }
        ensures last { IfOk result (λ buckets. (k : ℕ) → k < frames → slice_index buckets.bucket_of k ≡ last) }
    {
        let nodes = frames as usize + last as usize + 1;
        let mut bucket_of = Vec::with_capacity(alloc, nodes)?;
        let mut below = Vec::with_capacity(alloc, nodes)?;
        'frames: for frame in 0..frames {
            bucket_of.push(last)?;
            below.push(frame)?;
        }
        'heads: for bucket in 0..last {
            bucket_of.push(bucket)?;
            below.push(0)?;
        }
        bucket_of.push(last)?;
        below.push(frames)?;
        Ok(Buckets {
            frames,
            bucket_of: bucket_of.into_boxed_slice(),
            below: below.into_boxed_slice(),
        })
    }

    /// One past the highest frame of the bucket, or 0 where there is none.
    pub fn first(&self, bucket: u32) -> u32
        requires { self.now.frames + bucket < length self.now.bucket_of }
        ensures { IsNext self.now.bucket_of bucket self.now.frames result }
    {
        self.below[self.frames as usize + bucket as usize]
    }

    /// One past the highest frame of the same bucket below this one, or 0 where there is none.
    pub fn next(&self, frame: u32) -> u32
        requires { frame < length self.now.bucket_of }
        ensures { IsNext self.now.bucket_of (slice_index self.now.bucket_of frame) frame result }
    {
        self.below[frame as usize]
    }

    /// Puts the frame into that bucket, and takes it out of its own where that is another.
    pub fn put(&mut self, frame: u32, bucket: u32)
        requires frame { frame < self.old.frames }
        requires bucket { self.old.frames + bucket < length self.old.bucket_of }
        ensures { self.new ≡ record self.old { bucket_of = set self.old.bucket_of frame bucket } }
    {
        if self.bucket_of[frame as usize] == bucket {
            return;
        }
        let bucket_of = self.bucket_of.as_mut_slice();
        let below = self.below.as_mut_slice();
        relink(self.frames, bucket_of, below, frame, bucket);
    }
}

/// Puts the frame into that bucket, and takes it out of its own.
#[inline(never)]
fn relink(frames: u32, bucket_of: &mut [u32], below: &mut [u32], frame: u32, bucket: u32)
    requires linked { IsLinked frames bucket_of.old below.old }
    requires frame { frame < frames }
    requires bucket { frames + bucket < length bucket_of.old }
    ensures moved { bucket_of.new ≡ set bucket_of.old frame bucket }
    ensures linked { IsLinked frames bucket_of.new below.new }
{
    let at = frame as usize;
    let own_head = frames as usize + bucket_of[at] as usize;
    let leaves = node_above(bucket_of, below, own_head, at);
    below[leaves] = below[at];
    let joins = node_above(bucket_of, below, frames as usize + bucket as usize, at);
    below[at] = below[joins];
    below[joins] = frame + 1;
    bucket_of[at] = bucket;
}

/// The lowest node above the frame in the bucket of that head.
fn node_above(bucket_of: &[u32], below: &[u32], head: usize, frame: usize) -> usize
    requires whole { length below.now ≡ length bucket_of.now }
    requires head { head < length bucket_of.now }
    requires above { frame < head }
    requires linked { AreLinkedAbove bucket_of.now below.now frame }
    ensures within { result < length bucket_of.now }
    ensures above { frame < result }
    ensures same { slice_index bucket_of.now result ≡ slice_index bucket_of.now head }
    ensures lowest { slice_index below.now result ≤ frame + 1 }
{
    // The buckets are for the contract alone.
    let _ = bucket_of;
    let mut node = head;
    'nodes: while below[node] as usize > frame + 1 {
        node = below[node] as usize - 1;
    }
    node
}
