//! Rows, conditions and queries.

ghost use Rattle.block_model.specs.declared.limits.TheConstants.{MAX_CONDITIONS};
ghost use Rattle.std.specs.Prelude.{◌≡◌, ◌<◌, ◌≤◌, ◌==◌, [], ◌∷◌, ◌++◌, length, OnOk, OnErr};
ghost use Rattle.block_model.specs.RowMatches.{row_matches, column_matches};
ghost use Rattle.std.specs.List.{list_all};

use crate::NoMemory;
use crate::sequence::Sequence;
use crate::value::{Op, Value, Values, matches};
use std::alloc::Global;
use std::marker::Model;

/// The number of the transaction that put a row, and the row's place among that transaction's, from 0.
#[derive(Clone, Copy, Debug, PartialEq, Eq, PartialOrd, Ord)]
pub struct RowId {
    pub t: u64,
    pub k: u32,
}

/// A row of the table of that number.
#[derive(Debug, PartialEq, Drop)]
pub struct Row {
    pub table: u8,
    pub id: RowId,
    pub values: Values,
}

impl Row {
    /// A copy of the row.
    pub fn copied(&self) -> Row
        ensures { result ≡ self.now }
    {
        Row {
            table: self.table,
            id: self.id,
            values: self.values,
        }
    }
}

/// Rows, seen as their list.
pub type Rows = Sequence<Row>;

/// A condition on the column of that number.
#[derive(Clone, Copy, Debug, PartialEq, Eq)]
pub struct Cond {
    pub column: u8,
    pub op: Op,
    pub key: Value,
}

/// Up to sixteen conditions, seen as their list.
#[derive(Debug, Drop)]
pub struct Conds {
    items: Sequence<Cond>,
}

impl Model for Conds {
    ghost use Rattle.block_model.specs.declared.limits.TheConstants.{MAX_CONDITIONS};
    ghost use Rattle.std.specs.Prelude.{List, length, ◌≤◌};
    ghost use Rattle.block_model.specs.declared.row.Cond.{Cond as OneCond};

    ghost Value = { List OneCond };

    ghost view = { λ a. a.items };

    ghost invariant = { λ a. length a.items ≤ MAX_CONDITIONS };
}

impl Conds {
    /// No condition. Takes no memory.
    pub fn new(alloc: Global) -> Conds
        ensures { result ≡ [] }
    {
        Conds {
            items: Sequence::new(alloc),
        }
    }

    /// Adds one at the end; there is place for sixteen. After a refusal nothing is changed.
    pub fn push(&mut self, cond: Cond) -> Result<(), NoMemory>
        requires { length self.old < MAX_CONDITIONS }
        ensures ok { OnOk result (self.new ≡ self.old ++ cond ∷ []) }
        ensures err { OnErr result (self.new ≡ self.old) }
    {
        // Passed on whole, `cond` is refused by a fault of the toolchain: it misses the module of `Value`.
        let key: Value = cond.key;
        self.items.push(Cond {
            column: cond.column,
            op: cond.op,
            key,
        })
    }

    /// How many there are, at most sixteen.
    pub fn len(&self) -> usize
        ensures count { result ≡ length self.now }
        ensures within { result ≤ MAX_CONDITIONS }
    {
        self.items.len()
    }

    /// Whether there is none.
    pub fn is_empty(&self) -> bool
        ensures { result ≡ (length self.now == 0) }
    {
        self.items.is_empty()
    }

    /// The conditions.
    pub fn as_slice(&self) -> &[Cond]
        ensures conds { result.now ≡ self.now }
        ensures within { length result.now ≤ MAX_CONDITIONS }
    {
        self.items.as_slice()
    }
}

/// What is asked of the table of that number.
#[derive(Debug, Drop)]
pub struct Query {
    pub table: u8,
    pub conds: Conds,
}

/// Whether the row is of the query's table and meets each condition. Takes no memory.
pub fn row_matches(row: &Row, query: &Query) -> bool
    ensures { result ≡ row_matches query.now row.now }
{
    row.table == query.table && values_match(row.values.as_slice(), query.conds.as_slice())
}

fn values_match(values: &[Value], conds: &[Cond]) -> bool
    ensures { result ≡ list_all (column_matches values.now) conds.now }
{
    conds.iter().all(|cond| column_matches(values, cond))
}

fn column_matches(values: &[Value], cond: &Cond) -> bool
    ensures { result ≡ column_matches values.now cond.now }
{
    match values.get(usize::from(cond.column)) {
        Some(value) => matches(value, cond.op, &cond.key),
        None => false,
    }
}
