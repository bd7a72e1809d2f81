//! The rows that are read of a page.

ghost use Rattle.std.specs.Prelude.{◌≡◌, ◌<◌, ◌++◌, ◌∷◌, [], length, IfOk};
ghost use Rattle.heap_rows.specs.StoredRows.{RowsInRoom};

use block_model::{NoMemory, RowId, Table, Values};
use std::alloc::Global;
use std::marker::Model;

/// A row in the slot of that number, with the transaction that deleted it, 0 for none.
#[derive(Clone, Copy, Debug, PartialEq, Eq)]
pub struct Stored {
    pub slot: u16,
    pub id: RowId,
    pub deleter: u64,
    pub values: Values,
}

/// The rows of a page, in order of slot, with room for all of a table's page. Seen as the rows and the room.
#[derive(Debug, Drop)]
pub struct PageRows {
    items: Vec<Stored>,
}

impl Model for PageRows {
    ghost use Rattle.std.specs.Prelude.{vec_capacity};
    ghost use Rattle.heap_rows.specs.StoredRows.{RowsInRoom};

    ghost Value = { RowsInRoom };

    ghost view = { λ a. record { rows = a.items.items; room = vec_capacity a.items } };
}

impl PageRows {
    /// No rows, with the room that a page of the table needs. All memory is taken here.
    pub fn new(alloc: Global, table: &Table) -> Result<PageRows, NoMemory>
        ensures { IfOk result (λ rows. rows ≡ record { rows = []; room = table.now.rows_per_page }) }
    {
        let items = Vec::with_capacity(alloc, usize::from(table.rows_per_page))?;
        Ok(PageRows { items })
    }

    /// The rows.
    pub fn as_slice(&self) -> &[Stored]
        ensures { result.now ≡ self.now.rows }
    {
        self.items.as_slice()
    }

    /// No rows any more.
    pub(crate) fn clear(&mut self)
        ensures { self.new ≡ record { rows = []; room = self.old.room } }
    {
        self.items.clear();
    }

    /// Adds a row at the end, for which there is room.
    pub(crate) fn push(&mut self, row: Stored)
        requires { length self.old.rows < self.old.room }
        ensures { self.new ≡ record { rows = self.old.rows ++ row ∷ []; room = self.old.room } }
    {
        self.items.push_reserved(row);
    }
}
