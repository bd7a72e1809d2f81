//! What each session's latest insert asked for in vain.

ghost use Rattle.std.specs.Prelude.{◌≡◌, ◌≢◌, ◌<◌, ◌≤◌, ℕ, All, [], length, IfOk};
ghost use Rattle.brin_insert.specs.Inserts.{IsOfIndexes};
ghost use Rattle.store_layout.specs.declared.limits.TheConstants.{MAX_SESSIONS};
ghost use Rattle.session_parts.specs.declared.limits.TheConstants.{DROPPED_A_SESSION};
ghost use Rattle.session_parts.specs.HandsAsk.{named_request, named_requests};
ghost use Rattle.session_parts.specs.StoreStates.{dropped_in};

use crate::limits::DROPPED_A_SESSION;
use crate::names::index_named;
use block_model::NoMemory;
use reply_texts::Dropped;
use std::alloc::Global;
use std::marker::Model;
use store_layout::{Layout, MAX_SESSIONS};

/// By the number of a session: the requests for summaries that its latest insert asked for in vain, with the names of their indexes.
#[derive(Debug, Drop)]
pub struct DroppedRequests {
    lists: Vec<DroppedList>,
}

/// Those of one session, with room for as many as an insert may have.
#[derive(Debug, Drop)]
struct DroppedList {
    requests: Vec<Dropped>,
}

impl Model for DroppedRequests {
    ghost use Rattle.std.specs.Prelude.{◌≡◌, List, length};
    ghost use Rattle.reply_texts.specs.declared.dropped.Dropped.{Dropped};

    ghost Value = { List (List Dropped) };

    ghost view = { λ a. a.lists.items };

    ghost invariant = { λ a. length a.lists.items ≡ 64 };
}

impl Model for DroppedList {
    ghost use Rattle.std.specs.Prelude.{◌≤◌, List, vec_capacity};
    ghost use Rattle.reply_texts.specs.declared.dropped.Dropped.{Dropped};

    ghost Value = { List Dropped };

    ghost view = { λ a. a.requests.items };

    ghost invariant = { λ a. 8 ≤ vec_capacity a.requests };
}

impl DroppedRequests {
    /// None of any session. All memory is taken here. `Err` is want of memory.
    pub fn new(alloc: Global) -> Result<DroppedRequests, NoMemory>
        ensures none { IfOk result (λ lists. (session : ℕ) → dropped_in lists session ≡ []) }
    {
        let mut lists = Vec::with_capacity(alloc, MAX_SESSIONS)?;
        'sessions: for _ in 0..MAX_SESSIONS {
            let list = DroppedList::new(alloc)?;
            lists.push_reserved(list);
        }
        Ok(DroppedRequests { lists })
    }

    /// What the session's latest insert asked for in vain.
    pub fn of(&self, session: u32) -> &[Dropped]
        requires { session < MAX_SESSIONS }
        ensures { result.now ≡ dropped_in self.now session }
    {
        let lists = &self.lists;
        lists[session as usize].as_slice()
    }

    /// The session has asked for nothing in vain.
    pub fn clear(&mut self, session: u32)
        requires { session < MAX_SESSIONS }
        ensures own { dropped_in self.new session ≡ [] }
        ensures others { (m : ℕ) → m ≢ session → dropped_in self.new m ≡ dropped_in self.old m }
    {
        self.lists[session as usize].clear();
    }

    /// The session has asked for these in vain, each by the number of its index and a range. Takes no memory.
    pub fn set(&mut self, session: u32, layout: &Layout, requests: &[(u8, u32)])
        requires session { session < MAX_SESSIONS }
        requires few { length requests.now ≤ length layout.now.schema.indexes }
        requires named { All (IsOfIndexes (length layout.now.schema.indexes)) requests.now }
        ensures own { dropped_in self.new session ≡ named_requests layout.now requests.now }
        ensures others { (m : ℕ) → m ≢ session → dropped_in self.new m ≡ dropped_in self.old m }
    {
        self.lists[session as usize].set(layout, requests);
    }
}

impl DroppedList {
    fn new(alloc: Global) -> Result<DroppedList, NoMemory>
        ensures { IfOk result (λ list. list ≡ []) }
    {
        let requests = Vec::with_capacity(alloc, DROPPED_A_SESSION)?;
        Ok(DroppedList { requests })
    }

    fn as_slice(&self) -> &[Dropped]
        ensures { result.now ≡ self.now }
    {
        self.requests.as_slice()
    }

    fn clear(&mut self)
        ensures { self.new ≡ [] }
    {
        self.requests.clear();
    }

    fn set(&mut self, layout: &Layout, requests: &[(u8, u32)])
        requires few { length requests.now ≤ length layout.now.schema.indexes }
        requires named { All (IsOfIndexes (length layout.now.schema.indexes)) requests.now }
        ensures { self.new ≡ named_requests layout.now requests.now }
    {
        few_indexes_are_declared(layout);
        self.requests.clear();
        'requests: for request in requests {
            self.requests.push_reserved(named(layout, request));
        }
    }
}

/// The request with the name of its index.
fn named(layout: &Layout, request: &(u8, u32)) -> Dropped
    requires { IsOfIndexes (length layout.now.schema.indexes) request.now }
    ensures { result ≡ named_request layout.now request.now }
{
    Dropped {
        index: index_named(layout, request.0),
        range: request.1,
    }
}

/// Does nothing; tells its caller that a session has room for a request of each index.
fn few_indexes_are_declared(layout: &Layout)
    ensures { length layout.now.schema.indexes ≤ DROPPED_A_SESSION }
{
    layout.known();
}
