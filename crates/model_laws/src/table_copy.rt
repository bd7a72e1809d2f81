//! Copies of the tables.

ghost use Rattle.std.specs.Prelude.{◌≡◌, ◌≢◌, ◌++◌, ◌≤◌, ◌<◌, ◌∷◌, not, map, take, drop, length, filter, slice_index_or, IfOk, OnOk, OnErr};
ghost use Rattle.std.specs.FinMap as tables;
ghost use Rattle.std.specs.FinMap.{put};
ghost use Rattle.std.specs.FinSet as set;
ghost use Rattle.std.specs.declared.cmp.Ordering.TheVariants.{Greater};
ghost use Rattle.std.specs.List.{list_any};
ghost use Rattle.std.specs.Ordering.{eq_by_cmp};
ghost use Rattle.block_model.specs.TableState.{id_cmp, rows_in};
ghost use Rattle.block_model.specs.RowMatches.{row_matches};

use crate::marks::{Marks, same_id};
use block_model::{NoMemory, Query, Row, RowId, Rows, row_matches};
use std::alloc::Global;
use std::marker::Model;

/// A whole copy of the tables: its rows in order of their ids. Seen as that state of the tables.
#[derive(Debug, Drop)]
pub struct TableCopy {
    rows: Vec<Row>,
}

impl Model for TableCopy {
    ghost use Rattle.block_model.specs.TableState.{TableState};
    ghost use Rattle.block_model.specs.DatabaseState.{coded_table};

    ghost Value = { TableState };

    ghost coded = { coded_table };

    ghost use Rattle.model_laws.specs.Listed.{table_of, IsInOrder};

    ghost view = { λ a. table_of a.rows.items };

    ghost invariant = { λ a. IsInOrder a.rows.items };
}

impl TableCopy {
    /// No rows. Takes no memory.
    pub fn new(alloc: Global) -> TableCopy
        ensures { result ≡ tables.empty }
    {
        TableCopy {
            rows: Vec::new(alloc),
        }
    }

    /// A copy of the copy.
    pub fn copied(&self, alloc: Global) -> Result<TableCopy, NoMemory>
        ensures { IfOk result (λ copy. copy ≡ self.now) }
    {
        let rows = copied_rows(alloc, self.rows.as_slice())?;
        Ok(TableCopy { rows })
    }

    /// The rows in order, each with the id that it stands at.
    pub fn rows(&self) -> &[Row]
        ensures { map (λ r. (r.id, r)) result.now ≡ tables.entries self.now }
    {
        self.rows.as_slice()
    }

    /// Whether a row stands at the id.
    pub fn has(&self, id: RowId) -> bool
        ensures { result ≡ tables.contains_key self.now id }
    {
        has_row(self.rows.as_slice(), id)
    }

    /// The rows that match, in order.
    pub fn found(&self, alloc: Global, query: &Query) -> Result<Rows, NoMemory>
        ensures { IfOk result (λ found. found ≡ filter (row_matches query.now) (rows_in self.now)) }
    {
        let found = matching_rows(alloc, self.rows.as_slice(), query)?;
        Ok(found)
    }

    /// Puts the row at its id. After a refusal nothing is changed.
    pub fn put(&mut self, row: Row) -> Result<(), NoMemory>
        ensures ok { OnOk result (self.new ≡ tables.insert self.old row.id row) }
        ensures err { OnErr result (self.new ≡ self.old) }
    {
        put_row(&mut self.rows, row)?;
        Ok(())
    }

    /// Takes away the row at the id, if there is one.
    pub fn remove(&mut self, id: RowId)
        ensures { self.new ≡ tables.remove self.old id }
    {
        remove_row(&mut self.rows, id);
    }

    /// Takes away the rows that are marked.
    pub fn remove_marked(&mut self, marks: &Marks)
        ensures { self.new ≡ tables.retain_keys self.old (λ id. not (set.contains marks.now id)) }
    {
        remove_marked_rows(&mut self.rows, marks);
    }
}

fn copied_rows(alloc: Global, rows: &[Row]) -> Result<Vec<Row>, NoMemory>
    ensures { IfOk result (λ copy. copy.items ≡ rows.now) }
{
    let mut copy = Rows::new(alloc);
    'rows: for row in rows {
        copy.push(row.copied())?;
    }
    Ok(copy.into_vec())
}

fn has_row(rows: &[Row], id: RowId) -> bool
    ensures { result ≡ list_any (λ r. eq_by_cmp id_cmp id r.id) rows.now }
{
    rows.iter().any(|row| same_id(id, row.id))
}

fn matching_rows(alloc: Global, rows: &[Row], query: &Query) -> Result<Rows, NoMemory>
    ensures { IfOk result (λ found. found ≡ filter (row_matches query.now) rows.now) }
{
    let mut found = Rows::new(alloc);
    'rows: for row in rows {
        if row_matches(row, query) {
            found.push(row.copied())?;
        }
    }
    Ok(found)
}

fn remove_row(rows: &mut Vec<Row>, id: RowId)
    ensures { rows.new.items ≡ filter (λ r. not (eq_by_cmp id_cmp id r.id)) rows.old.items }
{
    rows.retain(|row| !same_id(id, row.id));
}

fn remove_marked_rows(rows: &mut Vec<Row>, marks: &Marks)
    ensures { rows.new.items ≡ filter (λ r. not (set.contains marks.now r.id)) rows.old.items }
{
    rows.retain(|row| !marks.has(row.id));
}

fn put_row(rows: &mut Vec<Row>, row: Row) -> Result<(), NoMemory>
    ensures ok { OnOk result (map (λ r. (r.id, r)) rows.new.items ≡ put id_cmp row.id row (map (λ r. (r.id, r)) rows.old.items)) }
    ensures err { OnErr result (rows.new.items ≡ rows.old.items) }
{
    let at = place_in(rows.as_slice(), row.id);
    if at < rows.len() && same_id(row.id, rows[at].id) {
        rows[at] = row;
        return Ok(());
    }
    rows.insert(at, row)?;
    Ok(())
}

/// Where the first row stands that isn't before the id.
fn place_in(rows: &[Row], id: RowId) -> usize
    ensures within { result ≤ length rows.now }
    ensures before { (r : Row) → put id_cmp id r (map (λ r. (r.id, r)) rows.now)
        ≡ map (λ r. (r.id, r)) (take result rows.now) ++ put id_cmp id r (map (λ r. (r.id, r)) (drop result rows.now)) }
    ensures here { (d : Row) → result < length rows.now → id_cmp id (slice_index_or rows.now result d).id ≢ Greater }
{
    'rows: for (i, row) in rows.iter().enumerate() {
        if id <= row.id {
            return i;
        }
    }
    rows.len()
}
