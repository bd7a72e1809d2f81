//! Transactions that are under way.

ghost use Rattle.std.specs.Prelude.{◌≡◌, IsTrue, IfOk, OnOk, OnErr, false};
ghost use Rattle.std.specs.FinMap as tables;
ghost use Rattle.std.specs.FinSet as set;
ghost use Rattle.model_laws.specs.Numbers.{has_place_left};
ghost use Rattle.block_model.specs.RequestEffect.{after_put, next_row, failed_transaction, after_mark, is_own, rows_found, merged};

use crate::marks::Marks;
use crate::table_copy::TableCopy;
use block_model::{NoMemory, Query, Row, RowId, Rows, Values};
use std::alloc::Global;
use std::marker::Model;

/// A transaction: its number, the place of its next row, its own copy of the tables, the rows of others that it deleted
/// there, and whether it has failed.
#[derive(Debug, Drop)]
pub struct Transaction {
    t: u64,
    next_k: u32,
    view: TableCopy,
    marks: Marks,
    failed: bool,
}

impl Model for Transaction {
    ghost use Rattle.block_model.specs.DatabaseState.{OpenTransaction, coded_transaction};

    ghost Value = { OpenTransaction };

    ghost coded = { coded_transaction };

    ghost view = { λ a. record { t = a.t; next_k = a.next_k; view = a.view; marks = a.marks; failed = a.failed } };
}

impl Transaction {
    /// The transaction of that number, which begins with that copy of the tables. Takes no memory.
    pub fn begin(alloc: Global, t: u64, view: TableCopy) -> Transaction
        ensures { result ≡ record { t = t; next_k = 0; view = view; marks = set.empty; failed = false } }
    {
        Transaction {
            t,
            next_k: 0,
            view,
            marks: Marks::new(alloc),
            failed: false,
        }
    }

    /// A copy of the transaction.
    pub fn copied(&self, alloc: Global) -> Result<Transaction, NoMemory>
        ensures { IfOk result (λ copy. copy ≡ self.now) }
    {
        let view = self.view.copied(alloc)?;
        let marks = self.marks.copied(alloc)?;
        Ok(Transaction {
            t: self.t,
            next_k: self.next_k,
            view,
            marks,
            failed: self.failed,
        })
    }

    /// Whether it put the row.
    pub fn is_own(&self, id: RowId) -> bool
        ensures { result ≡ is_own self.now id }
    {
        id.t == self.t
    }

    /// Whether it has marked the row.
    pub fn has_marked(&self, id: RowId) -> bool
        ensures { result ≡ set.contains self.now.marks id }
    {
        self.marks.has(id)
    }

    /// Puts a row into its own copy; the row's id. After a refusal nothing is changed.
    pub fn put(&mut self, table: u8, values: &Values) -> Result<RowId, NoMemory>
        requires { IsTrue (has_place_left self.old) }
        ensures ok { OnOk result (self.new ≡ after_put self.old table values.now) }
        ensures id { IfOk result (λ id. id ≡ (next_row self.old table values.now).id) }
        ensures err { OnErr result (self.new ≡ self.old) }
    {
        let id = RowId {
            t: self.t,
            k: self.next_k,
        };
        self.view.put(Row {
            table,
            id,
            values: *values,
        })?;
        self.next_k += 1;
        Ok(id)
    }

    /// Takes a row out of its own copy, and marks it where it is another's. After a refusal nothing is changed.
    pub fn mark(&mut self, id: RowId) -> Result<(), NoMemory>
        ensures ok { OnOk result (self.new ≡ after_mark self.old id) }
        ensures err { OnErr result (self.new ≡ self.old) }
    {
        if !self.is_own(id) {
            self.marks.add(id)?;
        }
        self.view.remove(id);
        Ok(())
    }

    /// Fails it.
    pub fn fail(&mut self)
        ensures { self.new ≡ failed_transaction self.old }
    {
        self.failed = true;
    }

    /// Whether it has failed.
    pub fn has_failed(&self) -> bool
        ensures { result ≡ self.now.failed }
    {
        self.failed
    }

    /// Whether its own copy has a row at the id.
    pub fn sees(&self, id: RowId) -> bool
        ensures { result ≡ tables.contains_key self.now.view id }
    {
        self.view.has(id)
    }

    /// Whether it can put another row.
    pub fn has_place_left(&self) -> bool
        ensures { result ≡ has_place_left self.now }
    {
        self.next_k < u32::MAX
    }

    /// The rows of its own copy that match, in order.
    pub fn found(&self, alloc: Global, query: &Query) -> Result<Rows, NoMemory>
        ensures { IfOk result (λ found. found ≡ rows_found self.now query.now) }
    {
        let found = self.view.found(alloc, query)?;
        Ok(found)
    }

    /// The tables without the rows that it marked and with its own.
    pub fn merged_into(&self, alloc: Global, table: &TableCopy) -> Result<TableCopy, NoMemory>
        ensures { IfOk result (λ rows. rows ≡ merged table.now self.now) }
    {
        let mut rows = table.copied(alloc)?;
        rows.remove_marked(&self.marks);
        let view = self.view.rows();
        'rows: for at in (0..view.len()).rev() {
            let row = &view[at];
            if self.is_own(row.id) {
                rows.put(row.copied())?;
            }
        }
        Ok(rows)
    }
}
