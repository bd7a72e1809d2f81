//! The journal of all requests.

ghost use Rattle.std.specs.Prelude.{◌≡◌, ◌+◌, ◌<◌, ◌≤◌, ◌↔◌, IsTrue, [], ◌∷◌, ◌++◌, length, OnOk, OnErr};
ghost use Rattle.store_layout.specs.StatementRequests.{tagged_entry};
ghost use Rattle.store_layout.specs.declared.limits.TheConstants.{MAX_ENTRIES};

use block_model::{NoMemory, Request, Tag, Values};
use packed_requests::{EntryReader, PackedEntries};
use std::alloc::Global;
use std::marker::Model;
use store_layout::MAX_ENTRIES;

/// The requests so far, in their order, and how many more are promised: for each of these there is room.
#[derive(Drop)]
pub struct Journal {
    entries: PackedEntries,
    promised: usize,
}

impl Model for Journal {
    ghost use Rattle.std.specs.Prelude.{◌≤◌};
    ghost use Rattle.session_parts.specs.JournalState.{JournalState, coded_journal};

    ghost Value = { JournalState };

    ghost coded = { coded_journal };

    ghost view = { λ a. record { entries = a.entries.entries; promised = a.promised } };

    ghost invariant = { λ a. a.promised ≤ a.entries.room };
}

impl Journal {
    /// No requests, and none promised. Takes no memory.
    pub fn new(alloc: Global) -> Journal
        ensures entries { result.entries ≡ [] }
        ensures promised { result.promised ≡ 0 }
    {
        Journal {
            entries: PackedEntries::new(alloc),
            promised: 0,
        }
    }

    /// How many requests there are.
    pub fn len(&self) -> usize
        ensures { result ≡ length self.now.entries }
    {
        self.entries.len()
    }

    /// Reads the requests from the first on.
    pub fn reader(&self) -> EntryReader<'_>
        ensures { result ≡ self.now.entries }
    {
        self.entries.reader()
    }

    /// Whether so many more may be entered.
    pub fn fits(&self, requests: usize) -> bool
        ensures { IsTrue result ↔ (length self.now.entries + requests ≤ MAX_ENTRIES) }
    {
        self.entries.len().saturating_add(requests) <= MAX_ENTRIES
    }

    /// Promises so many more. After a refusal nothing is changed.
    pub fn promise(&mut self, requests: usize) -> Result<(), NoMemory>
        ensures entries { self.new.entries ≡ self.old.entries }
        ensures ok { OnOk result (self.new.promised ≡ self.old.promised + requests) }
        ensures same { OnErr result (self.new.promised ≡ self.old.promised) }
    {
        let Some(promised) = self.promised.checked_add(requests) else {
            return Err(NoMemory);
        };
        self.entries.reserve(promised)?;
        self.promised = promised;
        Ok(())
    }

    /// So many of those that are promised won't be entered. Takes no memory.
    pub fn release(&mut self, requests: usize)
        requires { requests ≤ self.old.promised }
        ensures entries { self.new.entries ≡ self.old.entries }
        ensures promised { self.new.promised + requests ≡ self.old.promised }
    {
        self.promised -= requests;
    }

    /// Enters a request of the session, one of those that are promised. Takes no memory.
    pub fn enter(&mut self, session: u32, table: u8, request: Request, tag: Tag)
        requires { 0 < self.old.promised }
        ensures entries { self.new.entries ≡ self.old.entries ++ tagged_entry session table request tag ∷ [] }
        ensures promised { self.new.promised + 1 ≡ self.old.promised }
    {
        self.entries.enter(session, table, request, tag);
        self.promised -= 1;
    }

    /// Enters a put of these values, one of those that are promised. Takes no memory.
    pub fn enter_put(&mut self, session: u32, table: u8, values: &Values, tag: Tag)
        requires { 0 < self.old.promised }
        ensures entries { self.new.entries ≡ self.old.entries ++ tagged_entry session table (Request.Put values.now) tag ∷ [] }
        ensures promised { self.new.promised + 1 ≡ self.old.promised }
    {
        self.entries.enter_put(session, table, values, tag);
        self.promised -= 1;
    }
}
