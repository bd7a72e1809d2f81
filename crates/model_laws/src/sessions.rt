//! The sessions' transactions.

ghost use Rattle.std.specs.Prelude.{◌≡◌, ◌≢◌, ◌==◌, ◌&&◌, ◌++◌, ◌∷◌, ◌≤◌, ◌<◌, not, map, take, drop, length, slice_index_or, filter, OnOk, OnErr};
ghost use Rattle.std.specs.Option.{option_copied};
ghost use Rattle.std.specs.List.{list_any};
ghost use Rattle.std.specs.Ordering.{nat_cmp};
ghost use Rattle.std.specs.FinMap as open_ones;
ghost use Rattle.std.specs.FinMap.{put, find};
ghost use Rattle.std.specs.FinSet as set;
ghost use Rattle.block_model.specs.DatabaseState.{OpenTransaction};

use crate::transaction::Transaction;
use block_model::{NoMemory, RowId};
use std::alloc::Global;
use std::marker::Model;

/// The transaction of the session of that number.
#[derive(Debug, Drop)]
struct Session {
    number: u32,
    transaction: Transaction,
}

/// The sessions that have a transaction, in order of their numbers. Seen as the map from their numbers.
#[derive(Debug, Drop)]
pub struct Sessions {
    items: Vec<Session>,
}

impl Model for Sessions {
    ghost use Rattle.std.specs.Ordering.{nat_cmp};
    ghost use Rattle.std.specs.Coded.{coded_ℕ};
    ghost use Rattle.std.specs.FinMap as open_ones;
    ghost use Rattle.block_model.specs.DatabaseState.{OpenTransaction, coded_transaction};

    ghost Value = { open_ones.FinMap nat_cmp OpenTransaction };

    ghost coded = { open_ones.code coded_ℕ coded_transaction };

    ghost use Rattle.model_laws.specs.ListedSessions.{sessions_of, IsInOrder};

    ghost view = { λ a. sessions_of a.items.items };

    ghost invariant = { λ a. IsInOrder a.items.items };
}

impl Sessions {
    /// None. Takes no memory.
    pub fn new(alloc: Global) -> Sessions
        ensures { result ≡ open_ones.empty }
    {
        Sessions {
            items: Vec::new(alloc),
        }
    }

    /// The session's transaction, if it has one.
    pub fn get(&self, number: u32) -> Option<&Transaction>
        ensures { option_copied result ≡ open_ones.get self.now number }
    {
        find_transaction(self.items.as_slice(), number)
    }

    /// Gives the session this transaction. After a refusal nothing is changed.
    pub fn set(&mut self, number: u32, transaction: Transaction) -> Result<(), NoMemory>
        ensures ok { OnOk result (self.new ≡ open_ones.insert self.old number transaction) }
        ensures err { OnErr result (self.new ≡ self.old) }
    {
        put_session(
            &mut self.items,
            Session {
                number,
                transaction,
            },
        )?;
        Ok(())
    }

    /// Takes the session's transaction away, if it has one.
    pub fn remove(&mut self, number: u32)
        ensures { self.new ≡ open_ones.remove self.old number }
    {
        remove_session(&mut self.items, number);
    }

    /// Whether the transaction of another session has marked the row.
    pub fn marked_elsewhere(&self, number: u32, id: RowId) -> bool
        ensures { result ≡ list_any (λ e. not (e.0 == number) && set.contains e.1.marks id) (open_ones.entries self.now) }
    {
        marks_elsewhere(self.items.as_slice(), number, id)
    }
}

fn find_transaction(sessions: &[Session], number: u32) -> Option<&Transaction>
    ensures { option_copied result ≡ find nat_cmp number (map (λ s. (s.number, s.transaction)) sessions.now) }
{
    'sessions: for session in sessions {
        if number == session.number {
            return Some(&session.transaction);
        }
    }
    None
}

fn remove_session(sessions: &mut Vec<Session>, number: u32)
    ensures { sessions.new.items ≡ filter (λ s. not (number == s.number)) sessions.old.items }
{
    sessions.retain(|session| number != session.number);
}

fn marks_elsewhere(sessions: &[Session], number: u32, id: RowId) -> bool
    ensures { result ≡ list_any (λ s. not (s.number == number) && set.contains s.transaction.marks id) sessions.now }
{
    sessions.iter().any(|session| session.number != number && session.transaction.has_marked(id))
}

fn put_session(sessions: &mut Vec<Session>, session: Session) -> Result<(), NoMemory>
    ensures ok { OnOk result (map (λ s. (s.number, s.transaction)) sessions.new.items
        ≡ put nat_cmp session.number session.transaction (map (λ s. (s.number, s.transaction)) sessions.old.items)) }
    ensures err { OnErr result (sessions.new.items ≡ sessions.old.items) }
{
    let at = place_in(sessions.as_slice(), session.number);
    if at < sessions.len() && session.number == sessions[at].number {
        sessions[at] = session;
        return Ok(());
    }
    sessions.insert(at, session)?;
    Ok(())
}

/// Where the first session stands that isn't before the number.
fn place_in(sessions: &[Session], number: u32) -> usize
    ensures within { result ≤ length sessions.now }
    ensures before { (x : OpenTransaction) → put nat_cmp number x (map (λ s. (s.number, s.transaction)) sessions.now)
        ≡ map (λ s. (s.number, s.transaction)) (take result sessions.now)
        ++ put nat_cmp number x (map (λ s. (s.number, s.transaction)) (drop result sessions.now)) }
    ensures here { result < length sessions.now → (d : Session) → number ≤ (slice_index_or sessions.now result d).number }
{
    'sessions: for (i, session) in sessions.iter().enumerate() {
        if number <= session.number {
            return i;
        }
    }
    sessions.len()
}
