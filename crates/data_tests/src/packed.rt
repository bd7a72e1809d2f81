//! Entries that are packed, and then read.

use block_model::{Cond, Conds, Entry, NoMemory, Op, Query, Request, RowId, Tag, Value, Values};
use packed_requests::PackedEntries;
use std::alloc::Global;

const ONE: RowId = RowId { t: 1 << 40, k: 7 };

/// A null and a number below 0.
fn two_values() -> Values {
    let mut values = Values::new();
    values.push(Value::Null);
    values.push(Value::Int(-5));
    values
}

fn query(alloc: Global) -> Result<Query, NoMemory> {
    let mut conds = Conds::new(alloc);
    conds.push(Cond {
        column: 3,
        op: Op::Lt,
        key: Value::Int(9),
    })?;
    Ok(Query { table: 2, conds })
}

/// A put, a look and a mark.
fn entered(alloc: Global) -> Result<PackedEntries, NoMemory> {
    let mut packed = PackedEntries::new(alloc);
    let query = query(alloc)?;
    packed.reserve(3)?;
    packed.enter_put(1, 2, &two_values(), Tag::Ok);
    packed.enter(9, 2, Request::Look(query), Tag::NoMemory);
    packed.enter(1, 2, Request::Mark(ONE), Tag::Full);
    Ok(packed)
}

fn is_put(entry: &Entry) -> bool {
    match &entry.request {
        Request::Put(values) => *values == two_values() && entry.session == 1,
        _ => false,
    }
}

fn is_look(entry: &Entry) -> bool {
    match &entry.request {
        Request::Look(query) => query.conds.len() == 1 && entry.tag == Tag::NoMemory,
        _ => false,
    }
}

fn is_mark(entry: &Entry) -> bool {
    match &entry.request {
        Request::Mark(id) => *id == ONE && entry.table == 2,
        _ => false,
    }
}

/// Whether the three are read, and nothing behind them.
fn are_read(alloc: Global) -> Result<bool, NoMemory> {
    let packed = entered(alloc)?;
    let mut reader = packed.reader();
    let put = reader.next(alloc)?;
    let look = reader.next(alloc)?;
    let mark = reader.next(alloc)?;
    let none = reader.next(alloc)?;
    let has_put = put.as_ref().is_some_and(is_put);
    let has_look = look.as_ref().is_some_and(is_look);
    let has_mark = mark.as_ref().is_some_and(is_mark);
    Ok(has_put && has_look && has_mark && none.is_none())
}

#[test]
fn entries_are_read(rt: HostRuntime) {
    assert_eq!(rt; are_read(rt.alloc()), Ok(true));
}
