//! Locks of pages.

ghost use Rattle.std.specs.Prelude.{ℕ, ◌≡◌, ◌≢◌, ◌+◌, ◌<◌, ◌≤◌, ◌++◌, ◌∷◌, [], None, Some, length, drop, filter, vec_capacity, OnOk, OnErr, IfOk, IfErr, IfSome, IfNone};
ghost use Rattle.std.specs.Ordering.{eq_by_cmp};
ghost use Rattle.std.specs.FinMap as map;
ghost use Rattle.block_model.specs.declared.place.Place.{Place as AnyPlace};
ghost use Rattle.page_locks.specs.LockHolders.{place_cmp, holder, count_of, with_lock, without_lock};
ghost use Rattle.page_locks.specs.LockChanges.{page_of, IsOneOf, IsFreeFor, IsAnothers, TakesAll, IsFirstHeld, GivesAll};
ghost use Rattle.page_locks.specs.LockCounts.{locks_of, AddsAtMost};
ghost use Rattle.page_locks.specs.HeldLocks.{AreApart, found, holders_of, is_left, is_others, with_locks};

use crate::held::Held;
use block_model::{NoMemory, Place};
use std::alloc::Global;
use std::marker::Model;

/// Locks of pages. At most so many are held at once as `new` was told.
#[derive(Debug, Drop)]
pub struct Locks {
    held: Vec<Held>,
    limit: u32,
}

impl Model for Locks {
    ghost use Rattle.std.specs.Prelude.{vec_capacity};
    ghost use Rattle.page_locks.specs.LockHolders.{LockState, coded_locks};
    ghost use Rattle.page_locks.specs.HeldLocks.{shown, AreLocks};

    ghost Value = { LockState };

    ghost coded = { coded_locks };

    ghost view = { λ a. shown a.held.items a.limit };

    ghost invariant = { λ a. AreLocks a.held.items a.limit (vec_capacity a.held) };
}

impl Locks {
    /// Nobody holds a lock; at most n will be held at once. All memory is taken here. `Err` is want of memory.
    pub fn new(alloc: Global, n: u32) -> Result<Locks, NoMemory>
        ensures { IfOk result (λ locks. locks ≡ record { limit = n; holders = map.empty }) }
    {
        let held = Vec::with_capacity(alloc, n as usize)?;
        Ok(Locks { held, limit: n })
    }

    /// Does nothing; tells its caller that no more locks are held than may be, and that an actor has no locks by the count where
    /// it holds none, and the other way round.
    pub fn known(&self)
        ensures within { count_of self.now ≤ self.now.limit }
        ensures counted { (actor : ℕ) → ((page : AnyPlace) → holder self.now page ≢ Some actor) → locks_of self.now actor ≡ 0 }
        ensures none { (actor : ℕ) → locks_of self.now actor ≡ 0 → (page : AnyPlace) → holder self.now page ≢ Some actor }
    {
        // Reads a field, so that the locks are opened.
        let _ = &self.held;
    }

    /// How many locks are held.
    pub fn len(&self) -> usize
        ensures { result ≡ count_of self.now }
    {
        self.held.len()
    }

    /// How many locks may be held at once.
    pub fn limit(&self) -> u32
        ensures { result ≡ self.now.limit }
    {
        self.limit
    }

    /// Who holds the lock of the page; nothing where it is free.
    pub fn holder(&self, page: Place) -> Option<u32>
        ensures { result ≡ holder self.now page }
    {
        holder_in(self.held.as_slice(), page)
    }

    /// The actor takes the lock of the page, which it may hold already. `Err` comes exactly where another actor holds it; that
    /// lock is named, and nothing is changed. Takes no memory.
    pub fn take(&mut self, page: Place, actor: u32) -> Result<(), Held>
        requires { count_of self.old < self.old.limit }
        ensures taken { OnOk result (self.new ≡ with_lock self.old page actor) }
        ensures held { OnOk result (holder self.new page ≡ Some actor) }
        ensures free { OnOk result (IsFreeFor (holder self.old) actor page) }
        ensures refused { IfErr result (λ held. IsAnothers (holder self.old) actor page held.by) }
        ensures names { IfErr result (λ held. held.page ≡ page) }
        ensures same { OnErr result (self.new ≡ self.old) }
        ensures counts { AddsAtMost self.old self.new actor 1 }
    {
        match holder_in(self.held.as_slice(), page) {
            None => {
                self.held.push_reserved(Held { page, by: actor });
                Ok(())
            }
            Some(by) if by == actor => Ok(()),
            Some(by) => Err(Held { page, by }),
        }
    }

    /// The actor takes the locks of these blocks of the relation, all or none; it may hold some already. `Err` comes exactly
    /// where another actor holds one of them; the first such lock, in the order of the blocks, is named, and nothing is
    /// changed. Takes no memory.
    pub fn take_all(&mut self, relation: u8, blocks: &[u32], actor: u32) -> Result<(), Held>
        requires { count_of self.old + length blocks.now ≤ self.old.limit }
        ensures taken { OnOk result (TakesAll (holder self.old) (holder self.new) relation blocks.now actor) }
        ensures refused { IfErr result (λ held. IsFirstHeld (holder self.old) relation actor blocks.now held.page.block) }
        ensures by { IfErr result (λ held. IsAnothers (holder self.old) actor held.page held.by) }
        ensures names { IfErr result (λ held. held.page.relation ≡ relation) }
        ensures same { OnErr result (self.new ≡ self.old) }
        ensures limit { self.new.limit ≡ self.old.limit }
        ensures counts { AddsAtMost self.old self.new actor (length blocks.now) }
    {
        match first_held(self.held.as_slice(), relation, blocks, actor) {
            Some(held) => Err(held),
            None => {
                hold_all(&mut self.held, relation, blocks, actor);
                Ok(())
            }
        }
    }

    /// The actor gives the lock of the page. Where it doesn't hold it nothing is changed. Takes no memory.
    pub fn give(&mut self, page: Place, actor: u32)
        ensures given { holder self.old page ≡ Some actor → self.new ≡ without_lock self.old page }
        ensures same { holder self.old page ≢ Some actor → self.new ≡ self.old }
        ensures counts { AddsAtMost self.old self.new actor 0 }
    {
        keep_left(&mut self.held, page, actor);
    }

    /// The actor gives all locks that it holds. Takes no memory.
    pub fn drop_all(&mut self, actor: u32)
        ensures given { GivesAll (holder self.old) (holder self.new) actor }
        ensures none { locks_of self.new actor ≡ 0 }
        ensures limit { self.new.limit ≡ self.old.limit }
        ensures counts { AddsAtMost self.old self.new actor 0 }
    {
        keep_others(&mut self.held, actor);
    }
}

/// Who holds the page by the list.
fn holder_in(held: &[Held], page: Place) -> Option<u32>
    ensures { result ≡ found held.now page }
{
    'locks: for lock in held {
        if same_page(page, lock.page) {
            return Some(lock.by);
        }
    }
    None
}

/// Whether the pages are one.
fn same_page(a: Place, b: Place) -> bool
    ensures { result ≡ eq_by_cmp place_cmp a b }
{
    a == b
}

/// The first lock of these blocks that another actor holds.
fn first_held(held: &[Held], relation: u8, blocks: &[u32], actor: u32) -> Option<Held>
    ensures first { IfSome result (λ lock. IsFirstHeld (found held.now) relation actor blocks.now lock.page.block) }
    ensures by { IfSome result (λ lock. IsAnothers (found held.now) actor lock.page lock.by) }
    ensures names { IfSome result (λ lock. lock.page.relation ≡ relation) }
    ensures none { IfNone result ((p : ℕ) → IsOneOf blocks.now p → IsFreeFor (found held.now) actor (page_of relation p)) }
{
    'pages: for block in blocks {
        let page = Place {
            relation,
            block: *block,
        };
        match holder_of_another(held, page, actor) {
            Some(lock) => return Some(lock),
            None => {}
        }
    }
    None
}

/// The lock of the page, where another actor holds it.
fn holder_of_another(held: &[Held], page: Place, actor: u32) -> Option<Held>
    ensures another { IfSome result (λ lock. IsAnothers (found held.now) actor page lock.by) }
    ensures names { IfSome result (λ lock. lock.page ≡ page) }
    ensures free { IfNone result (IsFreeFor (found held.now) actor page) }
{
    match holder_in(held, page) {
        Some(by) if by != actor => Some(Held { page, by }),
        _ => None,
    }
}

/// The actor holds these blocks, of which no other holds one, as well.
fn hold_all(held: &mut Vec<Held>, relation: u8, blocks: &[u32], actor: u32)
    requires apart { AreApart held.old.items }
    requires room { length held.old.items + length blocks.now ≤ vec_capacity held.old }
    requires free { (p : ℕ) → IsOneOf blocks.now p → IsFreeFor (found held.old.items) actor (page_of relation p) }
    ensures holders { holders_of held.new.items ≡ with_locks (holders_of held.old.items) relation blocks.now actor }
    ensures apart { AreApart held.new.items }
    ensures few { length held.new.items ≤ length held.old.items + length blocks.now }
    ensures capacity { vec_capacity held.new ≡ vec_capacity held.old }
{
    'pages: for block in blocks {
        hold(
            held,
            Place {
                relation,
                block: *block,
            },
            actor,
        );
    }
}

/// The actor holds the page, of which no other has the lock, as well.
fn hold(held: &mut Vec<Held>, page: Place, actor: u32)
    requires apart { AreApart held.old.items }
    requires room { length held.old.items < vec_capacity held.old }
    requires free { IsFreeFor (found held.old.items) actor page }
    ensures holders { holders_of held.new.items ≡ map.insert (holders_of held.old.items) page actor }
    ensures apart { AreApart held.new.items }
    ensures few { length held.new.items ≤ length held.old.items + 1 }
    ensures capacity { vec_capacity held.new ≡ vec_capacity held.old }
{
    match holder_in(held.as_slice(), page) {
        None => held.push_reserved(Held { page, by: actor }),
        Some(_) => {}
    }
}

/// All locks but that of the page, where the actor holds it.
fn keep_left(held: &mut Vec<Held>, page: Place, actor: u32)
    ensures left { held.new.items ≡ filter (is_left page actor) held.old.items }
    ensures capacity { vec_capacity held.new ≡ vec_capacity held.old }
{
    held.retain(|lock| is_left(lock, page, actor));
}

fn is_left(lock: &Held, page: Place, actor: u32) -> bool
    ensures { result ≡ is_left page actor lock.now }
{
    !(same_page(page, lock.page) && lock.by == actor)
}

/// All locks but those of the actor.
fn keep_others(held: &mut Vec<Held>, actor: u32)
    ensures left { held.new.items ≡ filter (is_others actor) held.old.items }
    ensures capacity { vec_capacity held.new ≡ vec_capacity held.old }
{
    held.retain(|lock| lock.by != actor);
}
