//! Readers that were told.

ghost use Rattle.std.specs.Prelude.{◌≡◌, length, IfOk};
ghost use Rattle.std.specs.Box.{boxed_slice_items};
ghost use Rattle.left_right.specs.Sides.{view};
ghost use Rattle.store_layout.specs.DiskLayout.{DiskLayout};
ghost use Rattle.bitmap_scan.specs.ScanHands.{scanned_indexes};
ghost use Rattle.summary_directory.specs.GivenBlocks.{given_blocks};
ghost use Rattle.summary_directory.specs.PublishedState.{shown_after};
ghost use Rattle.summary_directory.specs.Rule.{StartsWith, kept};
ghost use Rattle.summary_directory.specs.ShelfFold.{shown_of};

use crate::judge::Judge;
use crate::kept::Learnt;
use crate::listing::given_in;
use crate::rule::{Folds, Looks};
use crate::shelf::Shelf;
use block_model::{Blocks, Query};
use core::mem::replace_with;
use left_right::reader::Reader;
use std::alloc::Global;
use std::boxed::BoxedSlice;
use std::marker::Model;
use thiserror::Error;

pub type ShelfReader = Reader<Shelf, Learnt, Folds>;

/// A seat at the shelf, and the indexes whose tuples it judges.
#[derive(Drop)]
pub(crate) struct Seat {
    pub(crate) reader: ShelfReader,
    pub(crate) judges: BoxedSlice<Judge>,
}

/// A reader that was told of posts, for queries of one table. Seen as the posts of which it has seen the fold, those that it was told of, and
/// the indexes of the table.
#[derive(Drop)]
pub struct Told {
    seat: Seat,
    posts: u64,
}

impl Model for Told {
    ghost use Rattle.std.specs.Prelude.{◌≡◌, length};
    ghost use Rattle.std.specs.Box.{boxed_slice_items};
    ghost use Rattle.left_right.specs.Sides.{view as knows};
    ghost use Rattle.summary_directory.specs.Posts.{Known};

    ghost Value = { Known };

    ghost view = { λ t. record { seen = (knows t.seat.reader.place).seen; told = (knows t.seat.reader.place).told; indexes = boxed_slice_items t.seat.judges } };

    ghost invariant = { λ t. t.posts ≡ length (knows t.seat.reader.place).told };
}

/// Why there are no blocks.
#[derive(Clone, Copy, Debug, Error, PartialEq, Eq)]
pub enum GivenFault {
    #[error("the directory is closed")]
    Closed,
    #[error("out of memory")]
    Memory,
}

impl Told {
    /// A reader that was told of so many posts.
    pub(crate) fn of(reader: ShelfReader, judges: BoxedSlice<Judge>, posts: u64) -> Told
        requires { posts ≡ length (view reader.place).told }
        ensures { (result.seen ≡ (view reader.place).seen) × (result.told ≡ (view reader.place).told) × (result.indexes ≡ boxed_slice_items judges) }
    {
        Told {
            seat: Seat { reader, judges },
            posts,
        }
    }

    /// The reader alone.
    #[cfg(test)]
    pub(crate) fn into_reader(self) -> ShelfReader {
        let Told { seat, posts: _ } = self;
        let Seat {
            reader,
            judges: _judges,
        } = seat;
        reader
    }

    /// How many posts it was told of.
    pub fn posts(&self) -> u64
        ensures { result ≡ length self.now.told }
    {
        self.posts
    }

    /// The blocks that are given for the query at the fold of the posts that it has seen then. These begin with all that it had seen, and with
    /// all that it was told of. `Closed` comes where the directory was closed before it looked, `Memory` where it has looked and finds no room for
    /// what it lists. What it had seen it has seen then too. It waits for nobody.
    pub fn given(&mut self, alloc: Global, query: &Query) -> Result<Blocks, GivenFault>
        ensures told { IfOk result (λ blocks. StartsWith self.new.seen self.old.told) }
        ensures seen { StartsWith self.new.seen self.old.seen }
        ensures given { IfOk result (λ blocks. (layout : DiskLayout) → self.old.indexes ≡ scanned_indexes layout query.now.table → blocks ≡ given_blocks layout (shown_after self.new.seen) query.now) }
        ensures same { (self.new.told ≡ self.old.told) × (self.new.indexes ≡ self.old.indexes) }
    {
        replace_with(&mut self.seat, (alloc, query), |seat, asked| {
            look(seat, asked.0, asked.1)
        })
    }
}

/// Takes the shelf that is shown now, and judges the ranges of its indexes.
fn look(seat: Seat, alloc: Global, query: &Query) -> (Seat, Result<Blocks, GivenFault>)
    ensures told { (view result.0.reader.place).told ≡ (view seat.reader.place).told }
    ensures indexes { boxed_slice_items result.0.judges ≡ boxed_slice_items seat.judges }
    ensures begins { IfOk result.1 (λ blocks. StartsWith (view result.0.reader.place).seen (view seat.reader.place).told) }
    ensures seen { StartsWith (view result.0.reader.place).seen (view seat.reader.place).seen }
    ensures given { IfOk result.1 (λ blocks. (layout : DiskLayout) → boxed_slice_items seat.judges ≡ scanned_indexes layout query.now.table → blocks ≡ given_blocks layout (shown_after (view result.0.reader.place).seen) query.now) }
{
    let Seat { reader, mut judges } = seat;
    match reader.enter_as::<Looks>() {
        Ok(reading) => {
            let answer = asked_in(alloc, reading.get(), &mut judges, query);
            let reader = reading.leave();
            (Seat { reader, judges }, answer)
        }
        Err(reader) => (Seat { reader, judges }, Err(GivenFault::Closed)),
    }
}

/// The blocks that are given by the shelf.
fn asked_in(
    alloc: Global,
    shelf: &Shelf,
    judges: &mut [Judge],
    query: &Query,
) -> Result<Blocks, GivenFault>
    ensures same { judges.new ≡ judges.old }
    ensures given { IfOk result (λ blocks. (layout : DiskLayout) → judges.old ≡ scanned_indexes layout query.now.table → blocks ≡ given_blocks layout (shown_of (kept shelf.now)) query.now) }
{
    match given_in(alloc, shelf, judges, query) {
        Ok(blocks) => Ok(blocks),
        Err(_) => Err(GivenFault::Memory),
    }
}
