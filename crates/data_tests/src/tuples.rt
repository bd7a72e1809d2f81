//! Each call of a range tuple but `new`: what it answers and the bytes that it writes, with memory and without.

ghost use Rattle.std.specs.Prelude.{◌≡◌, IfOk};
ghost use Rattle.data_tests.specs.FiveColumns.{five_parts};
ghost use Rattle.range_tuple.specs.Tuples.{parts_of};

use crate::all_memory::{AllMemory, Outcome};
use crate::five_columns::{add_nulls, add_values, placeholder};
use block_model::{Cond, Net, NoMemory, Op, Span8, Value};
use range_tuple::{RangeTuple, ScanKeys};
use std::alloc::Global;
use std::process::Abort;

/// The most bytes of a tuple of the index: 5, and 3 for each column beside 16, 74, 18, 7 and 8.
const ROOM: usize = 143;

/// Nine points, one more than the limit of multi, so that two are merged.
const NUMBERS: [i64; 9] = [0, 10, 30, 500, 1000, 1500, 2000, 2020, 3000];

/// What the rows hold beside numbers: a range, an address, and a network that the address isn't in.
#[derive(Clone, Copy)]
struct Held {
    range: Span8,
    address: Net,
    network: Net,
}

/// What the calls of a tuple answer.
#[derive(Clone, Copy, PartialEq, Eq)]
struct Answers {
    changes: [usize; 2],
    has_changed: [bool; 2],
    keeps: [bool; 2],
    size: usize,
    bytes: [u8; ROOM],
    is_read: bool,
    is_cut_refused: bool,
    empty: (usize, u8),
    range: u32,
    is_placeholder: bool,
}

/// The tuple of range 7: the range and no flag; the states of five columns with nulls and values; the lengths of their summaries.
/// Then least and greatest; the seven elements, of which the first is the interval from 0 to 30; the hull [2,5) with an empty range;
/// the network 10.0.0.0/15; and the positions of the nine numbers, two each. A last byte isn't written.
const BYTES: [u8; ROOM] = [
    0, 0, 0, 7, 0, 3, 3, 3, 3, 3, 0, 16, 0, 73, 0, 18, 0, 7, 0, 8, //
    0, 0, 0, 0, 0, 0, 0, 0, 0, 0, 0, 0, 0, 0, 11, 184, //
    0, 7, 1, 0, 0, 0, 0, 0, 0, 0, 0, 0, 0, 0, 0, 0, 0, 0, 30, 0, 0, 0, 0, 0, 0, 0, 1, 244, 0, 0, 0,
    0, 0, 0, 0, 3, 232, 0, 0, 0, 0, 0, 0, 0, 5, 220, 0, 0, 0, 0, 0, 0, 0, 7, 208, 0, 0, 0, 0, 0, 0,
    0, 7, 228, 0, 0, 0, 0, 0, 0, 0, 11, 184, //
    3, 0, 0, 0, 0, 0, 0, 0, 0, 2, 0, 0, 0, 0, 0, 0, 0, 5, //
    2, 4, 15, 10, 0, 0, 0, //
    35, 192, 132, 140, 129, 64, 13, 18, //
    0,
];

/// What the calls answer. An empty placeholder has 20 bytes here, and both flags.
const WANTED: Answers = Answers {
    changes: [9, 1],
    has_changed: [true, true],
    keeps: [true, true],
    size: 142,
    bytes: BYTES,
    is_read: true,
    is_cut_refused: true,
    empty: (20, 3),
    range: 7,
    is_placeholder: false,
};

/// Adds a row for each number; answers how many of them changed the tuple.
fn add_each(tuple: &mut RangeTuple, numbers: &[i64], span: Span8, net: Net) -> usize
    requires { parts_of tuple.old.columns ≡ five_parts }
    ensures { parts_of tuple.new.columns ≡ five_parts }
{
    let mut changes = 0usize;
    'numbers: for number in numbers {
        if add_values(tuple, *number, span, net) {
            changes = changes.saturating_add(1);
        }
    }
    changes
}

fn compared(column: u8, op: Op, key: Value) -> Cond {
    Cond { column, op, key }
}

/// Whether the tuple keeps a condition on each column, and none, as keys of a scan.
fn asked(tuple: &RangeTuple, span: Span8, net: Net) -> [bool; 2] {
    let conds = [
        compared(0, Op::Gt, Value::Int(30)),
        compared(1, Op::Gt, Value::Int(30)),
        compared(2, Op::Overlaps, Value::Span(span)),
        compared(3, Op::Eq, Value::Net(net)),
        compared(4, Op::Eq, Value::Int(30)),
    ];
    [
        tuple.keeps_by(&ScanKeys::new(&conds)),
        tuple.keeps_by(&ScanKeys::new(&conds[..0])),
    ]
}

/// How many bytes the tuple has, where there is room for it, and its flags.
fn size_and_flags(tuple: &RangeTuple) -> (usize, u8) {
    let mut bytes = [0; ROOM];
    if tuple.greatest_size() > ROOM {
        return (0, 0);
    }
    let size = tuple.encode(&mut bytes);
    (size, bytes[4])
}

/// Starts two tuples of other ranges, adds rows to each, unites and settles the first, asks and writes it, and reads its bytes
/// into the second: all of them, and all but the last. Copies the first at the end. None where tuples have more bytes than the
/// room.
fn call_each(tuple: &mut RangeTuple, other: &mut RangeTuple, held: &Held) -> Option<Answers>
    requires tuple { parts_of tuple.old.columns ≡ five_parts }
    requires other { parts_of other.old.columns ≡ five_parts }
{
    let mut bytes = [0; ROOM];
    tuple.restart(7);
    other.restart(8);
    let changes = [
        add_each(tuple, &NUMBERS, Span8::empty(), held.address),
        add_each(other, &NUMBERS[..1], held.range, held.network),
    ];
    let has_changed = [add_nulls(other), tuple.unite(other)];
    tuple.settle();
    let keeps = asked(tuple, held.range, held.address);
    if tuple.greatest_size() > ROOM {
        return None;
    }
    let size = tuple.encode(&mut bytes);
    let is_read = other.decode(&bytes[..size]).is_ok();
    let is_cut_refused = other.decode(&bytes[..size.saturating_sub(1)]).is_err();
    other.restart(9);
    let empty = size_and_flags(other);
    other.copy_from(tuple);
    Some(Answers {
        changes,
        has_changed,
        keeps,
        size,
        bytes,
        is_read,
        is_cut_refused,
        empty,
        range: other.range(),
        is_placeholder: other.is_placeholder(),
    })
}

/// Two placeholders of the index.
#[derive(Drop)]
struct Pair {
    tuple: RangeTuple,
    other: RangeTuple,
}

fn two_placeholders(rt: &impl Abort, alloc: Global) -> Result<Pair, NoMemory>
    ensures tuple { IfOk result (λ pair. parts_of pair.tuple.columns ≡ five_parts) }
    ensures other { IfOk result (λ pair. parts_of pair.other.columns ≡ five_parts) }
{
    let tuple = placeholder(rt, alloc)?;
    let other = placeholder(rt, alloc)?;
    Ok(Pair { tuple, other })
}

/// What the rows hold; `None` where a prefix or a bound is none.
fn values_held() -> Option<Held> {
    Some(Held {
        range: Span8::from_bounds(Some((2, true)), Some((5, false))).ok()?,
        address: Net::v4(10 << 24 | 1, 32)?,
        network: Net::v4(10 << 24 | 1 << 16, 16)?,
    })
}

/// How the calls get on without memory, and with room that was given back, each with a pair of its own.
fn outcome(
    alloc: Global,
    first: &mut Pair,
    second: &mut Pair,
    held: &Held,
) -> Result<Outcome, NoMemory>
    requires first { (parts_of first.old.tuple.columns ≡ five_parts) × (parts_of first.old.other.columns ≡ five_parts) }
    requires second { (parts_of second.old.tuple.columns ≡ five_parts) × (parts_of second.old.other.columns ≡ five_parts) }
{
    let mut memory = AllMemory::take(alloc)?;
    let was_left = memory.has_room(1);
    let without = call_each(&mut first.tuple, &mut first.other, held);
    let given_back = memory.give_back();
    let again = call_each(&mut second.tuple, &mut second.other, held);
    let are_same = without == Some(WANTED) && again == Some(WANTED);
    Ok(memory.outcome(was_left, are_same, given_back))
}

#[test]
fn range_tuples_have_their_bytes(rt: HostRuntime) -> Result<(), NoMemory> {
    let held = values_held().expect(&rt, "values");
    let mut pair = two_placeholders(&rt, rt.alloc())?;
    let found = call_each(&mut pair.tuple, &mut pair.other, &held);
    assert!(rt; found == Some(WANTED));
    Ok(())
}

#[test]
fn range_tuples_take_no_memory(rt: HostRuntime) -> Result<(), NoMemory> {
    let alloc = rt.alloc();
    let held = values_held().expect(&rt, "values");
    let mut first = two_placeholders(&rt, alloc)?;
    let mut second = two_placeholders(&rt, alloc)?;
    let found = outcome(alloc, &mut first, &mut second, &held)?;
    assert_eq!(rt; found, Outcome::NoMemoryIsTaken);
    Ok(())
}
