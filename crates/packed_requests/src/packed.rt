//! Entries that are packed.

ghost use Rattle.std.specs.Prelude.{◌≡◌, ◌+◌, ◌<◌, ◌≤◌, [], ◌∷◌, ◌++◌, length, OnOk};

use crate::adding::{add_put, add_request};
use crate::head::Head;
use crate::limits::NUMBERS_AN_ENTRY;
use crate::reader::EntryReader;
use crate::shape::Shape;
use block_model::{MAX_COLUMNS, NoMemory, Query, Request, Tag, Values};
use std::alloc::Global;
use std::marker::Model;

/// Entries in their order, and how many more there is room for. An entry takes eight bytes, a byte for each value that is put and eight for
/// each of its numbers.
#[derive(Drop)]
pub struct PackedEntries {
    heads: Vec<Head>,
    shapes: Vec<Shape>,
    numbers: Vec<u64>,
    queries: Vec<Query>,
    room: usize,
}

impl Model for PackedEntries {
    ghost use Rattle.packed_requests.specs.Packed.{Packed, coded_packed};

    ghost Value = { Packed };

    ghost coded = { coded_packed };

    ghost use Rattle.packed_requests.specs.ArePacked.{IsPacked, entries_of};

    ghost view = { λ a. record { entries = entries_of a; room = a.room } };

    ghost invariant = { IsPacked };
}

impl PackedEntries {
    /// No entries, and no room. Takes no memory.
    pub fn new(alloc: Global) -> PackedEntries
        ensures entries { result.entries ≡ [] }
        ensures room { result.room ≡ 0 }
    {
        PackedEntries {
            heads: Vec::new(alloc),
            shapes: Vec::new(alloc),
            numbers: Vec::new(alloc),
            queries: Vec::new(alloc),
            room: 0,
        }
    }

    /// How many entries there are.
    pub fn len(&self) -> usize
        ensures { result ≡ length self.now.entries }
    {
        self.heads.len()
    }

    /// Reads the entries from the first on.
    pub fn reader(&self) -> EntryReader<'_>
        ensures { result ≡ self.now.entries }
    {
        EntryReader::new(
            self.heads.as_slice(),
            self.shapes.as_slice(),
            self.numbers.as_slice(),
            self.queries.as_slice(),
        )
    }

    /// Makes room for so many more, of whatever kind. After a refusal there is the room that there was.
    pub fn reserve(&mut self, entries: usize) -> Result<(), NoMemory>
        ensures entries { self.new.entries ≡ self.old.entries }
        ensures room { self.old.room ≤ self.new.room }
        ensures ok { OnOk result (entries ≤ self.new.room) }
    {
        if entries <= self.room {
            return Ok(());
        }
        let Some(numbers) = entries.checked_mul(NUMBERS_AN_ENTRY) else {
            return Err(NoMemory);
        };
        self.heads.reserve(entries)?;
        self.shapes.reserve(entries * MAX_COLUMNS)?;
        self.numbers.reserve(numbers)?;
        self.queries.reserve(entries)?;
        self.room = entries;
        Ok(())
    }

    /// Adds an entry, for which there is room. Takes no memory.
    pub fn enter(&mut self, session: u32, table: u8, request: Request, tag: Tag)
        requires { 0 < self.old.room }
        ensures entries { self.new.entries ≡ self.old.entries ++ record { session = session; table = table; request = request; tag = tag } ∷ [] }
        ensures room { self.new.room + 1 ≡ self.old.room }
    {
        let asked = add_request(
            &mut self.shapes,
            &mut self.numbers,
            &mut self.queries,
            request,
        );
        self.heads.push_reserved(Head {
            session,
            table,
            asked,
            tag,
        });
        self.room -= 1;
    }

    /// Adds a put of these values, for which there is room. Takes no memory.
    pub fn enter_put(&mut self, session: u32, table: u8, values: &Values, tag: Tag)
        requires { 0 < self.old.room }
        ensures entries { self.new.entries ≡ self.old.entries ++ record { session = session; table = table; request = Request.Put values.now; tag = tag } ∷ [] }
        ensures room { self.new.room + 1 ≡ self.old.room }
    {
        let asked = add_put(&mut self.shapes, &mut self.numbers, values.as_slice());
        self.heads.push_reserved(Head {
            session,
            table,
            asked,
            tag,
        });
        self.room -= 1;
    }
}
