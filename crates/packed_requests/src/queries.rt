//! Copies of queries.

ghost use Rattle.std.specs.Prelude.{◌≡◌, IfOk};
ghost use Rattle.packed_requests.specs.Reading.{query_in};

use block_model::{Conds, NoMemory, Query};
use std::alloc::Global;

/// A copy of the query at the front.
pub(crate) fn query_in(alloc: Global, queries: &[Query]) -> Result<Query, NoMemory>
    ensures { IfOk result (λ query. query ≡ query_in queries.now) }
{
    match queries {
        [] => Ok(Query {
            table: 0,
            conds: Conds::new(alloc),
        }),
        [query, ..] => copy_of(alloc, query),
    }
}

fn copy_of(alloc: Global, query: &Query) -> Result<Query, NoMemory>
    ensures { IfOk result (λ copy. copy ≡ query.now) }
{
    let mut conds = Conds::new(alloc);
    'conds: for cond in query.conds.as_slice() {
        conds.push(*cond)?;
    }
    Ok(Query {
        table: query.table,
        conds,
    })
}
