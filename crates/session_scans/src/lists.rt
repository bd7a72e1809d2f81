//! What a scan found, in lists.

ghost use Rattle.std.specs.Prelude.{◌≡◌, map, IfOk, IsPermutation, IsSorted};
ghost use Rattle.block_model.specs.declared.place.Spot.{Spot as AnySpot};
ghost use Rattle.block_model.specs.declared.row.Row.{Row as AnyRow};
ghost use Rattle.block_model.specs.TableState.{id_cmp};
ghost use Rattle.session_scans.specs.FoundLists.{hit_of, hits_of, rows_of};

use block_model::{Conds, NoMemory, Query, Row, Rows, Spot};
use session_parts::Hit;
use std::alloc::Global;

/// Brings them in order of the ids of the rows. Takes no memory.
pub(crate) fn sort_by_id(found: &mut Vec<(Row, Spot)>)
    ensures permutation { IsPermutation found.old.items found.new.items }
    ensures sorted { IsSorted (λ (a b : AnyRow × AnySpot). id_cmp a.0.id b.0.id) found.new.items }
{
    found.sort_unstable_by_key(|found| found.0.id);
}

/// Copies of the rows.
pub(crate) fn rows_of(alloc: Global, found: &[(Row, Spot)]) -> Result<Rows, NoMemory>
    ensures { IfOk result (λ rows. rows ≡ rows_of found.now) }
{
    let mut rows = Rows::new(alloc);
    'found: for found in found {
        rows.push(found.0.copied())?;
    }
    Ok(rows)
}

/// Their ids, and where they stand.
pub(crate) fn hits_of(alloc: Global, found: &[(Row, Spot)]) -> Result<Vec<Hit>, NoMemory>
    ensures { IfOk result (λ hits. hits.items ≡ hits_of found.now) }
{
    let mut hits = Vec::new(alloc);
    'found: for found in found {
        hits.push(hit_of(found))?;
    }
    Ok(hits)
}

/// The id of the row, and where it stands.
fn hit_of(found: &(Row, Spot)) -> Hit
    ensures { result ≡ hit_of found.now }
{
    Hit {
        id: found.0.id,
        spot: found.1,
    }
}

/// A copy of the query.
pub(crate) fn copy_of(alloc: Global, query: &Query) -> Result<Query, NoMemory>
    ensures { IfOk result (λ copy. copy ≡ query.now) }
{
    let mut conds = Conds::new(alloc);
    'conds: for cond in query.conds.as_slice() {
        conds.push(*cond)?;
    }
    Ok(Query {
        table: query.table,
        conds,
    })
}
