//! The database, and runs over journals.

ghost use Rattle.std.specs.Prelude.{◌≡◌, ◌<◌, ◌-◌, ◌^◌, IsTrue, ℕ, IfOk, OnOk, OnErr};
ghost use Rattle.block_model.specs.DatabaseState.{DatabaseState, initial_state};
ghost use Rattle.block_model.specs.RequestEffect.{after_request, reply_to, is_legal_request, is_legal_within, is_legal_outside, is_ok_tag, is_look_tag, effect_within, effect_outside, is_conflict, after_failure, without_transaction};
ghost use Rattle.model_laws.specs.Answers.{answer_of};
ghost use Rattle.model_laws.specs.Numbers.{has_number, has_number_within, has_number_outside, has_place_left, has_number_left};
ghost use Rattle.model_laws.specs.Runs.{HasRun, HasBegunRun};

use crate::sessions::Sessions;
use crate::table_copy::TableCopy;
use crate::transaction::Transaction;
use block_model::{Entry, NoMemory, Query, Request, RowId, Rows, Sequence, Tag, Values};
use std::alloc::Global;
use std::marker::Model;

/// What a request is answered. `Illegal`: a begin with a transaction under way, or another request with none.
#[derive(Debug, Drop)]
pub enum Answered {
    Begun(u64),
    Inserted(RowId),
    Found(Rows),
    Marked,
    Conflict(RowId),
    Committed,
    RolledBack,
    Full,
    NoMemory,
    Illegal,
}

/// Why a run ended: the journal was done, or its next request isn't legal, or takes a number that there isn't.
#[derive(Clone, Copy, Debug, PartialEq, Eq)]
pub enum End {
    Done,
    Illegal,
    OutOfNumbers,
}

/// The answers of a run, in order, and why it ended.
#[derive(Debug, Drop)]
pub struct Run {
    pub answers: Sequence<Answered>,
    pub end: End,
}

/// A database of private copies, seen as its state.
#[derive(Debug, Drop)]
pub struct SerialModel {
    alloc: Global,
    next: u64,
    table: TableCopy,
    sessions: Sessions,
}

impl Model for SerialModel {
    ghost use Rattle.block_model.specs.DatabaseState.{DatabaseState, coded_database};

    ghost Value = { DatabaseState };

    ghost coded = { coded_database };

    ghost view = { λ a. record { next = a.next; table = a.table; sessions = a.sessions } };
}

impl SerialModel {
    /// A new database. Takes no memory.
    pub fn new(alloc: Global) -> SerialModel
        ensures { result ≡ initial_state }
    {
        SerialModel {
            alloc,
            next: 1,
            table: TableCopy::new(alloc),
            sessions: Sessions::new(alloc),
        }
    }

    /// Whether the request is legal.
    pub fn is_legal(&self, entry: &Entry) -> bool
        ensures { result ≡ is_legal_request self.now entry.now }
    {
        match self.sessions.get(entry.session) {
            Some(transaction) => is_legal_within(transaction, &entry.request, entry.tag),
            None => is_legal_outside(&entry.request, entry.tag),
        }
    }

    /// Whether the number or place that the request takes is there: a transaction's number is below 2^64 - 1, a row's
    /// place below 2^32 - 1.
    pub fn has_number(&self, entry: &Entry) -> bool
        ensures { result ≡ has_number self.now entry.now }
    {
        match self.sessions.get(entry.session) {
            Some(transaction) => has_number_within(transaction, &entry.request),
            None => has_number_outside(self.next, &entry.request),
        }
    }

    /// Applies the request, for whose numbers `has_number` is the test; its answer. After want of memory nothing is
    /// changed.
    pub fn apply(&mut self, entry: &Entry) -> Result<Answered, NoMemory>
        requires { IsTrue (has_number self.old entry.now) }
        ensures state { OnOk result (self.new ≡ after_request self.old entry.now) }
        ensures reply { IfOk result (λ answer. answer_of answer ≡ reply_to self.old entry.now) }
        ensures err { OnErr result (self.new ≡ self.old) }
    {
        let Some(transaction) = self.sessions.get(entry.session) else {
            let answer = self.outside(entry.session, &entry.request)?;
            return Ok(answer);
        };
        let transaction = transaction.copied(self.alloc)?;
        let answer = self.within(entry.session, transaction, entry)?;
        Ok(answer)
    }

    /// Applies the requests of the journal in order, up to its end or to the first that isn't legal or takes a number that
    /// there isn't. At want of memory some of the first ones have been applied.
    pub fn run(&mut self, journal: &[Entry]) -> Result<Run, NoMemory>
        ensures ok { IfOk result (λ run. HasRun self.old self.new journal.now run.answers run.end) }
        ensures err { OnErr result (HasBegunRun self.old self.new journal.now) }
    {
        let mut answers = Sequence::new(self.alloc);
        'entries: for entry in journal {
            if !self.is_legal(entry) {
                let end = End::Illegal;
                return Ok(Run { answers, end });
            }
            if !self.has_number(entry) {
                let end = End::OutOfNumbers;
                return Ok(Run { answers, end });
            }
            let answer = self.apply(entry)?;
            answers.push(answer)?;
        }
        let end = End::Done;
        Ok(Run { answers, end })
    }

    /// A request of a session that has no transaction.
    fn outside(&mut self, number: u32, request: &Request) -> Result<Answered, NoMemory>
        requires { IsTrue (has_number_outside self.old request.now) }
        ensures ok { IfOk result (λ answer. (self.new, answer_of answer) ≡ effect_outside self.old number request.now) }
        ensures err { OnErr result (self.new ≡ self.old) }
    {
        match request {
            Request::Begin => self.begin(number),
            _ => Ok(Answered::Illegal),
        }
    }

    fn begin(&mut self, number: u32) -> Result<Answered, NoMemory>
        requires { self.old.next < 2 ^ 64 - 1 }
        ensures ok { IfOk result (λ answer. (self.new, answer_of answer)
            ≡ effect_outside self.old number Request.Begin) }
        ensures err { OnErr result (self.new ≡ self.old) }
    {
        let t = self.next;
        let view = self.table.copied(self.alloc)?;
        self.sessions
            .set(number, Transaction::begin(self.alloc, t, view))?;
        self.next += 1;
        Ok(Answered::Begun(t))
    }

    /// A request of a session with this transaction.
    fn within(
        &mut self,
        number: u32,
        transaction: Transaction,
        entry: &Entry,
    ) -> Result<Answered, NoMemory>
        requires { IsTrue (has_number_within transaction entry.now.request) }
        ensures ok { IfOk result (λ answer. (self.new, answer_of answer)
            ≡ effect_within self.old number transaction entry.now.table entry.now.request entry.now.tag) }
        ensures err { OnErr result (self.new ≡ self.old) }
    {
        match &entry.request {
            Request::Put(values) => self.put(number, transaction, entry.table, values, entry.tag),
            Request::Look(query) => self.look(number, transaction, query, entry.tag),
            Request::Mark(id) => self.mark(number, transaction, *id),
            Request::Commit => self.commit(number, &transaction),
            Request::Rollback => Ok(self.roll_back(number)),
            Request::Begin => Ok(Answered::Illegal),
        }
    }

    fn put(
        &mut self,
        number: u32,
        mut transaction: Transaction,
        table: u8,
        values: &Values,
        tag: Tag,
    ) -> Result<Answered, NoMemory>
        requires { IsTrue (has_place_left transaction) }
        ensures ok { IfOk result (λ answer. (self.new, answer_of answer)
            ≡ effect_within self.old number transaction table (Request.Put values.now) tag) }
        ensures err { OnErr result (self.new ≡ self.old) }
    {
        match tag {
            Tag::Ok => {
                let id = transaction.put(table, values)?;
                self.sessions.set(number, transaction)?;
                Ok(Answered::Inserted(id))
            }
            Tag::Full => {
                self.fail(number, transaction)?;
                Ok(Answered::Full)
            }
            Tag::NoMemory => {
                self.fail(number, transaction)?;
                Ok(Answered::NoMemory)
            }
        }
    }

    fn look(
        &mut self,
        number: u32,
        transaction: Transaction,
        query: &Query,
        tag: Tag,
    ) -> Result<Answered, NoMemory>
        ensures ok { (table : ℕ) → IfOk result (λ answer. (self.new, answer_of answer)
            ≡ effect_within self.old number transaction table (Request.Look query.now) tag) }
        ensures err { OnErr result (self.new ≡ self.old) }
    {
        match tag {
            Tag::NoMemory => {
                self.fail(number, transaction)?;
                Ok(Answered::NoMemory)
            }
            Tag::Ok | Tag::Full => {
                let found = transaction.found(self.alloc, query)?;
                Ok(Answered::Found(found))
            }
        }
    }

    fn mark(
        &mut self,
        number: u32,
        mut transaction: Transaction,
        id: RowId,
    ) -> Result<Answered, NoMemory>
        ensures ok { (table : ℕ) (tag : Tag) → IfOk result (λ answer. (self.new, answer_of answer)
            ≡ effect_within self.old number transaction table (Request.Mark id) tag) }
        ensures err { OnErr result (self.new ≡ self.old) }
    {
        if self.is_conflict(number, &transaction, id) {
            self.fail(number, transaction)?;
            return Ok(Answered::Conflict(id));
        }
        transaction.mark(id)?;
        self.sessions.set(number, transaction)?;
        Ok(Answered::Marked)
    }

    /// Whether the row is another's, and no longer in the tables or marked by another session.
    fn is_conflict(&self, number: u32, transaction: &Transaction, id: RowId) -> bool
        ensures { result ≡ is_conflict self.now number transaction.now id }
    {
        !transaction.is_own(id)
            && (!self.table.has(id) || self.sessions.marked_elsewhere(number, id))
    }

    fn fail(&mut self, number: u32, mut transaction: Transaction) -> Result<(), NoMemory>
        ensures ok { OnOk result (self.new ≡ after_failure self.old number transaction) }
        ensures err { OnErr result (self.new ≡ self.old) }
    {
        transaction.fail();
        self.sessions.set(number, transaction)?;
        Ok(())
    }

    fn commit(&mut self, number: u32, transaction: &Transaction) -> Result<Answered, NoMemory>
        ensures ok { (table : ℕ) (tag : Tag) → IfOk result (λ answer. (self.new, answer_of answer)
            ≡ effect_within self.old number transaction.now table Request.Commit tag) }
        ensures err { OnErr result (self.new ≡ self.old) }
    {
        if transaction.has_failed() {
            return Ok(self.roll_back(number));
        }
        self.table = transaction.merged_into(self.alloc, &self.table)?;
        self.sessions.remove(number);
        Ok(Answered::Committed)
    }

    fn roll_back(&mut self, number: u32) -> Answered
        ensures after { self.new ≡ without_transaction self.old number }
        ensures answer { result ≡ Answered.RolledBack }
    {
        self.sessions.remove(number);
        Answered::RolledBack
    }
}

fn is_legal_within(transaction: &Transaction, request: &Request, tag: Tag) -> bool
    ensures { result ≡ is_legal_within transaction.now request.now tag }
{
    match request {
        Request::Put(_) => !transaction.has_failed(),
        Request::Look(_) => !transaction.has_failed() && tag != Tag::Full,
        Request::Mark(id) => !transaction.has_failed() && transaction.sees(*id) && tag == Tag::Ok,
        Request::Commit | Request::Rollback => tag == Tag::Ok,
        Request::Begin => false,
    }
}

fn is_legal_outside(request: &Request, tag: Tag) -> bool
    ensures { result ≡ is_legal_outside request.now tag }
{
    match request {
        Request::Begin => tag == Tag::Ok,
        _ => false,
    }
}

fn has_number_within(transaction: &Transaction, request: &Request) -> bool
    ensures { result ≡ has_number_within transaction.now request.now }
{
    match request {
        Request::Put(_) => transaction.has_place_left(),
        _ => true,
    }
}

fn has_number_outside(next: u64, request: &Request) -> bool
    ensures { (s : DatabaseState) → s.next ≡ next → result ≡ has_number_outside s request.now }
{
    match request {
        Request::Begin => next < u64::MAX,
        _ => true,
    }
}
