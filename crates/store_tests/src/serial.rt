//! A run of the serial model, which no program makes.

use block_model::{Entry, Request, RowId, Tag, Value, Values};
use model_laws::{Answered, End, SerialModel};
use std::alloc::Global;

const ONE: RowId = RowId { t: 1, k: 0 };

fn entry(session: u32, request: Request) -> Entry {
    Entry {
        session,
        table: 0,
        request,
        tag: Tag::Ok,
    }
}

/// Whether of two deletes of one row the second conflicts, and its transaction is rolled back. `None` is want of memory.
fn conflicts(alloc: Global) -> Option<bool> {
    let mut values = Values::new();
    values.push(Value::Int(5));
    let journal = [
        entry(1, Request::Begin),
        entry(1, Request::Put(values)),
        entry(1, Request::Commit),
        entry(1, Request::Begin),
        entry(2, Request::Begin),
        entry(1, Request::Mark(ONE)),
        entry(2, Request::Mark(ONE)),
        entry(2, Request::Commit),
        entry(1, Request::Commit),
    ];
    let run = SerialModel::new(alloc).run(&journal).ok()?;
    let are_answered = matches!(
        run.answers.as_slice(),
        [
            ..,
            Answered::Marked,
            Answered::Conflict(RowId { t: 1, k: 0 }),
            Answered::RolledBack,
            Answered::Committed
        ]
    );
    Some(are_answered && run.end == End::Done)
}

#[test]
fn a_second_delete_conflicts(rt: HostRuntime) {
    assert_eq!(rt; conflicts(rt.alloc()), Some(true));
}
