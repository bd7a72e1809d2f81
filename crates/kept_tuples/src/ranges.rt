//! The tuples of an index by range.

ghost use Rattle.std.specs.Prelude.{◌≡◌, ◌<◌, [], None, length, slice_index_or, MatchResult};
ghost use Rattle.kept_tuples.specs.MinMaxTuples.{Tells};
ghost use Rattle.kept_tuples.specs.KnownTuples.{AreBounds};
ghost use Rattle.kept_tuples.specs.Places.{placed};

use crate::bounds::Bounds;
use crate::places::{Blank, make_room, put_at, put_within};
use crate::tuple_bytes::TupleBytes;
use std::alloc::{AllocError, Global};
use std::marker::Model;

/// The tuple of each range, if it has one, and what is known of it. Ranges behind the end have none. Seen as the list of the tuples.
#[derive(Debug, Drop)]
pub struct Ranges {
    cells: Vec<Option<TupleBytes>>,
    bounds: Vec<Bounds>,
}

impl Model for Ranges {
    ghost use Rattle.std.specs.Prelude.{List, Option, ℕ};
    ghost use Rattle.kept_tuples.specs.KnownTuples.{AreBounds};

    ghost Value = { List (Option (List ℕ)) };

    ghost view = { λ r. r.cells.items };

    ghost invariant = { λ r. AreBounds r.bounds.items r.cells.items };
}

impl Blank for Ranges {
    ghost use Rattle.std.specs.Prelude.{[]};

    ghost blank = { [] };

    fn blank(alloc: Global) -> Ranges {
        Ranges::new(alloc)
    }
}

impl Blank for Bounds {
    ghost use Rattle.kept_tuples.specs.declared.bounds.Bounds.TheVariants.{Unknown};

    ghost blank = { Unknown };

    fn blank(_alloc: Global) -> Bounds {
        Bounds::Unknown
    }
}

impl Blank for Option<TupleBytes> {
    ghost use Rattle.std.specs.Prelude.{None};

    ghost blank = { None };

    fn blank(_alloc: Global) -> Option<TupleBytes> {
        None
    }
}

impl Ranges {
    /// No range has a tuple. Takes no memory.
    pub fn new(alloc: Global) -> Ranges
        ensures { result ≡ [] }
    {
        Ranges {
            cells: Vec::new(alloc),
            bounds: Vec::new(alloc),
        }
    }

    /// The tuple of each range.
    pub fn as_slice(&self) -> &[Option<TupleBytes>]
        ensures { result.now ≡ self.now }
    {
        self.cells.as_slice()
    }

    /// What is known of each.
    pub fn bounds(&self) -> &[Bounds]
        ensures { AreBounds result.now self.now }
    {
        self.bounds.as_slice()
    }

    /// The range has this tuple, or none. After a refusal nothing is changed.
    pub(crate) fn put(
        &mut self,
        alloc: Global,
        range: u32,
        tuple: Option<TupleBytes>,
    ) -> Result<(), AllocError>
        ensures { MatchResult result (λ _. self.new ≡ placed None self.old range tuple) (λ _. self.new ≡ self.old) }
    {
        let at = range as usize;
        make_room(&mut self.cells, at)?;
        make_room(&mut self.bounds, at)?;
        let bounds = bounds_of(&tuple);
        put_within(alloc, &mut self.cells, at, tuple);
        put_within(alloc, &mut self.bounds, at, bounds);
        Ok(())
    }
}

/// What is known of the tuple. Takes no memory.
fn bounds_of(tuple: &Option<TupleBytes>) -> Bounds
    ensures { Tells result tuple.now }
{
    match tuple {
        None => Bounds::Unknown,
        Some(bytes) => Bounds::of(bytes.as_slice()),
    }
}

/// Puts the tuple of a range of an index at its place. After a refusal nothing is changed.
pub fn put_tuple(
    alloc: Global,
    tuples: &mut Vec<Ranges>,
    index: u8,
    range: u32,
    tuple: Option<TupleBytes>,
) -> Result<(), AllocError>
    ensures { MatchResult result (λ _. tuples.new.items ≡ placed [] tuples.old.items index (placed None (slice_index_or tuples.old.items index []) range tuple)) (λ _. tuples.new.items ≡ tuples.old.items) }
{
    let at = usize::from(index);
    if at < tuples.len() {
        return put_there(alloc, tuples, at, range, tuple);
    }
    let mut ranges = Ranges::new(alloc);
    ranges.put(alloc, range, tuple)?;
    match put_at(alloc, tuples, at, ranges) {
        Ok(()) => Ok(()),
        Err(error) => Err(error),
    }
}

/// The same where the index has a place.
#[tactic(auto, using(crate::proofs::Placed::placed_inside))]
fn put_there(
    alloc: Global,
    tuples: &mut Vec<Ranges>,
    at: usize,
    range: u32,
    tuple: Option<TupleBytes>,
) -> Result<(), AllocError>
    requires { at < length tuples.old.items }
    ensures { MatchResult result (λ _. tuples.new.items ≡ placed [] tuples.old.items at (placed None (slice_index_or tuples.old.items at []) range tuple)) (λ _. tuples.new.items ≡ tuples.old.items) }
{
    match tuples[at].put(alloc, range, tuple) {
        Ok(()) => Ok(()),
        Err(error) => Err(error),
    }
}
