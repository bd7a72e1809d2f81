//! Marks of rows.

ghost use Rattle.std.specs.Prelude.{◌≡◌, IfOk, OnOk, OnErr};
ghost use Rattle.std.specs.List.{list_any};
ghost use Rattle.std.specs.Ordering.{eq_by_cmp};
ghost use Rattle.std.specs.FinSet as set;
ghost use Rattle.block_model.specs.TableState.{id_cmp};

use block_model::{NoMemory, RowId, Sequence};
use std::alloc::Global;
use std::marker::Model;

/// Ids of rows, seen as their set.
#[derive(Debug, Drop)]
pub struct Marks {
    ids: Sequence<RowId>,
}

impl Model for Marks {
    ghost use Rattle.block_model.specs.TableState.{RowIds};
    ghost use Rattle.block_model.specs.DatabaseState.{coded_ids};
    ghost use Rattle.std.specs.FinSet as set;

    ghost Value = { RowIds };

    ghost coded = { coded_ids };

    ghost view = { λ a. set.from_list a.ids };
}

impl Marks {
    /// No mark. Takes no memory.
    pub fn new(alloc: Global) -> Marks
        ensures { result ≡ set.empty }
    {
        Marks {
            ids: Sequence::new(alloc),
        }
    }

    /// A copy of the marks.
    pub fn copied(&self, alloc: Global) -> Result<Marks, NoMemory>
        ensures { IfOk result (λ copy. copy ≡ self.now) }
    {
        let ids = Vec::from_slice(alloc, self.ids.as_slice())?;
        Ok(Marks {
            ids: Sequence::from_vec(ids),
        })
    }

    /// Whether the row is marked.
    pub fn has(&self, id: RowId) -> bool
        ensures { result ≡ set.contains self.now id }
    {
        is_among(self.ids.as_slice(), id)
    }

    /// Marks a row. After a refusal nothing is changed.
    pub fn add(&mut self, id: RowId) -> Result<(), NoMemory>
        ensures ok { OnOk result (self.new ≡ set.insert self.old id) }
        ensures err { OnErr result (self.new ≡ self.old) }
    {
        self.ids.push(id)?;
        Ok(())
    }
}

fn is_among(ids: &[RowId], id: RowId) -> bool
    ensures { result ≡ list_any (eq_by_cmp id_cmp id) ids.now }
{
    ids.iter().any(|other| same_id(id, *other))
}

/// Whether the ids are one.
pub(crate) fn same_id(a: RowId, b: RowId) -> bool
    ensures { result ≡ eq_by_cmp id_cmp a b }
{
    a == b
}
