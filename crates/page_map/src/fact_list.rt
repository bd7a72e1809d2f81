//! What memory keeps of the pages of one relation, in a list of its own.

ghost use Rattle.std.specs.Prelude.{◌≡◌, ◌+◌, ◌<◌, ◌≤◌, count_by, length, replicate, set, IfOk, if◌then◌else◌, vec_capacity};
ghost use Rattle.page_map.specs.FactLists.{IsFirstOf, IsFirstOfIndex, tells_started};
ghost use Rattle.page_map.specs.Filled.{filled};
ghost use Rattle.page_map.specs.PageFacts.{facts_in, no_facts};

use crate::facts::{NO_FACTS, PageFacts};
use crate::lowest::{Sought, lowest};
use crate::tuple_room::{bound, first_behind, no_room};
use block_model::NoMemory;
use page_redo::UNSTARTED;
use std::alloc::Global;
use std::marker::Model;

/// The facts of all pages that a relation may have, by their blocks.
#[derive(Drop)]
pub struct FactList {
    /// How many blocks it may have.
    limit: u32,
    /// The facts up to the last block that was changed.
    items: Vec<PageFacts>,
    /// How many pages are started.
    started: u32,
    /// The lowest block that has a free slot, or the limit where there is none.
    room: usize,
    /// The lowest block that isn't started, or the limit.
    unstarted: usize,
    /// Of each group of blocks, a number of bytes that no page's room for a tuple exceeds.
    most: Vec<u16>,
}

impl Model for FactList {
    ghost use Rattle.std.specs.Prelude.{List, vec_capacity};
    ghost use Rattle.page_map.specs.declared.facts.PageFacts.{PageFacts as Facts};
    ghost use Rattle.page_map.specs.FactLists.{IsFactList};
    ghost use Rattle.page_map.specs.Filled.{filled};
    ghost use Rattle.page_map.specs.PageFacts.{no_facts};

    ghost Value = { List Facts };

    ghost view = { λ a. filled no_facts a.limit a.items.items };

    ghost invariant = { λ a. IsFactList a.limit a.items.items (vec_capacity a.items) a.started a.room a.unstarted a.most.items };
}

impl FactList {
    /// No page is started. All memory is taken here.
    pub fn new(alloc: Global, limit: u32) -> Result<FactList, NoMemory>
        ensures { IfOk result (λ facts. facts ≡ replicate limit no_facts) }
    {
        let items = Vec::with_capacity(alloc, limit as usize)?;
        let most = no_room(alloc, limit)?;
        Ok(FactList {
            limit,
            items,
            started: 0,
            room: limit as usize,
            unstarted: 0,
            most,
        })
    }

    /// The facts of that block.
    pub fn get(&self, at: usize) -> PageFacts
        ensures { result ≡ facts_in self.now at }
    {
        match self.items.get(at) {
            Some(facts) => *facts,
            None => NO_FACTS,
        }
    }

    /// The block has these facts now.
    pub fn note(&mut self, at: usize, facts: PageFacts)
        requires { at < length self.old }
        ensures { self.new ≡ set self.old at facts }
    {
        let limit = self.limit as usize;
        reach(&mut self.items, at);
        let before = self.items[at];
        self.started = self.started - started(before) + started(facts);
        self.items[at] = facts;
        self.room = lowest(&self.items, limit, Sought::Room, self.room, at);
        self.unstarted = lowest(&self.items, limit, Sought::Unstarted, self.unstarted, at);
        bound(&mut self.most, &self.items, at, before.room);
    }

    /// How many pages are started.
    pub fn started(&self) -> u32
        ensures within { result ≤ length self.now }
        ensures count { result ≡ count_by tells_started self.now }
    {
        self.started
    }

    /// The lowest block that has room, else the lowest one that isn't started.
    pub fn first_room(&self) -> Option<u32>
        ensures { IsFirstOf self.now result }
    {
        let limit = self.limit as usize;
        if self.room < limit {
            return Some(self.room as u32);
        }
        if self.unstarted < limit {
            return Some(self.unstarted as u32);
        }
        None
    }

    /// The lowest block behind that one whose page takes a tuple of `need` bytes, else the lowest one that isn't started.
    pub fn first_behind(&self, need: u16, past: u32) -> Option<u32>
        ensures { IsFirstOfIndex self.now need past result }
    {
        let limit = self.limit as usize;
        match first_behind(&self.items, &self.most, need, past) {
            Some(block) => return Some(block as u32),
            None => {}
        }
        if self.unstarted < limit {
            return Some(self.unstarted as u32);
        }
        None
    }
}

/// Adds facts of unstarted pages up to that block. Takes no memory.
fn reach(items: &mut Vec<PageFacts>, at: usize)
    requires room { at < vec_capacity items.old }
    ensures items { items.new.items ≡ filled no_facts (at + 1) items.old.items }
    ensures there { at < length items.new.items }
    ensures room { vec_capacity items.old ≤ vec_capacity items.new }
{
    if at < items.len() {
        return;
    }
    'facts: for _ in items.len()..at + 1 {
        items.push_reserved(NO_FACTS);
    }
}

/// 1 where the page is started, else 0.
fn started(facts: PageFacts) -> u32
    ensures { result ≡ (if tells_started facts then 1 else 0) }
{
    if facts.kind == UNSTARTED { 0 } else { 1 }
}
