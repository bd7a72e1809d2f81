//! Entries that are read.

ghost use Rattle.std.specs.Prelude.{◌≡◌, [], ◌∷◌, IfOk, OnErr, MatchOption};
ghost use Rattle.packed_requests.specs.Reading.{entries_in};

use crate::head::Head;
use crate::reading::{numbers_after, queries_after, request_in, shapes_after};
use crate::shape::Shape;
use block_model::{Entry, NoMemory, Query};
use std::alloc::Global;
use std::marker::Model;

/// Reads entries in their order, and is seen as those that are left.
#[derive(Drop)]
pub struct EntryReader<'a> {
    heads: &'a [Head],
    shapes: &'a [Shape],
    numbers: &'a [u64],
    queries: &'a [Query],
}

impl<'a> Model for EntryReader<'a> {
    ghost use Rattle.std.specs.Prelude.{List};
    ghost use Rattle.block_model.specs.declared.request.Entry.{Entry as OneEntry};
    ghost use Rattle.packed_requests.specs.Reading.{entries_in};

    ghost Value = { List OneEntry };

    ghost view = { λ a. entries_in a.heads.now a.shapes.now a.numbers.now a.queries.now };
}

impl<'a> EntryReader<'a> {
    pub(crate) fn new(
        heads: &'a [Head],
        shapes: &'a [Shape],
        numbers: &'a [u64],
        queries: &'a [Query],
    ) -> EntryReader<'a>
        ensures { result ≡ entries_in heads.now shapes.now numbers.now queries.now }
    {
        EntryReader {
            heads,
            shapes,
            numbers,
            queries,
        }
    }

    /// The next entry, a copy; None behind the last one. Only a look's query takes memory. After a refusal the same entry is next.
    pub fn next(&mut self, alloc: Global) -> Result<Option<Entry>, NoMemory>
        ensures next { IfOk result (λ next. MatchOption next (self.old ≡ []) (λ entry. self.old ≡ entry ∷ self.new)) }
        ensures err { OnErr result (self.new ≡ self.old) }
    {
        let [head, heads @ ..] = self.heads else {
            return Ok(None);
        };
        let request = request_in(alloc, head.asked, self.shapes, self.numbers, self.queries)?;
        self.heads = heads;
        self.numbers = numbers_after(head.asked, self.shapes, self.numbers);
        self.shapes = shapes_after(head.asked, self.shapes);
        self.queries = queries_after(head.asked, self.queries);
        Ok(Some(Entry {
            session: head.session,
            table: head.table,
            request,
            tag: head.tag,
        }))
    }
}
