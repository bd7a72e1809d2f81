//! Pages of statuses, of a heap and of an index, by the bytes that they may have, and the bytes of a row.

ghost use Rattle.page_layout.specs.PageContents.{IsForm};

use crate::rows::{ROW, column, heap};
use block_model::{Kind, Kinds, RowId, Value};
use page_layout::{Form, Page, check, write_row};

/// Two slots of an int8, an int8range and an inet.
fn wide_heap() -> Form
    ensures { IsForm result }
{
    let columns = [column(Kind::Int), column(Kind::Span), column(Kind::Net)];
    Form::Heap {
        row: 53,
        slots: 2,
        kinds: Kinds::of(&columns),
        format: 1,
    }
}

/// The row 1.0 of 5, [1,3) and 10.0.0.0/8, which no transaction deleted.
const WIDE_ROW: [u8; 53] = [
    1, 0, 0, 0, 0, 0, 0, 0, 1, 0, 0, 0, 0, 0, 0, 0, 0, 0, 0, 0, 0, 0, 0, 0, 0, 0, 0, 0, 0, 5, 0, 0,
    0, 0, 0, 0, 0, 0, 1, 0, 0, 0, 0, 0, 0, 0, 3, 4, 8, 10, 0, 0, 0,
];

/// A byte of a page, what stands there, and the place of the fault.
type Fault = (usize, u8, Option<u16>);

/// Of a page whose first slot has the wide row.
const HEAP_FAULTS: [Fault; 23] = [
    (0, 2, None),
    (0, 0, Some(32)),
    (0, 1, Some(0)),
    (1, 1, Some(1)),
    (31, 9, Some(31)),
    (32, 2, Some(32)),
    (32, 0, Some(33)),
    (53, 8, Some(53)),
    (53, 1, Some(54)),
    (53, 4, Some(79)),
    (62, 8, Some(62)),
    (62, 1, Some(63)),
    (62, 2, Some(63)),
    (62, 4, Some(71)),
    (78, 1, Some(71)),
    (79, 6, Some(79)),
    (80, 33, Some(80)),
    (85, 2, Some(85)),
    (93, 1, Some(86)),
    (106, 1, Some(106)),
    (132, 4, Some(132)),
    (138, 1, Some(138)),
    (8191, 1, Some(8191)),
];

/// Of a page of statuses.
const STATUS_FAULTS: [Fault; 6] = [
    (32, 0xe4, None),
    (0, 0, Some(32)),
    (0, 2, Some(0)),
    (1, 1, Some(1)),
    (2, 4, Some(2)),
    (31, 1, Some(31)),
];

/// Of a page of tuples.
const TUPLE_FAULTS: [Fault; 21] = [
    (0, 5, None),
    (0, 6, None),
    (0, 0, Some(3)),
    (0, 1, Some(0)),
    (0, 2, Some(0)),
    (0, 4, Some(3)),
    (0, 7, Some(0)),
    (1, 1, Some(1)),
    (2, 8, Some(2)),
    (3, 1, Some(34)),
    (3, 2, Some(40)),
    (3, 4, Some(46)),
    (31, 9, Some(31)),
    (33, 1, Some(32)),
    (35, 1, Some(32)),
    (37, 252, Some(36)),
    (39, 0, Some(36)),
    (41, 250, Some(40)),
    (43, 1, Some(40)),
    (44, 1, Some(44)),
    (8186, 1, Some(8186)),
];

/// Of a metapage.
const META_FAULTS: [Fault; 5] = [
    (0, 3, None),
    (1, 1, Some(1)),
    (3, 1, Some(3)),
    (36, 1, Some(36)),
    (8191, 1, Some(8191)),
];

/// Of a page of the map.
const MAP_FAULTS: [Fault; 5] = [
    (37, 1, None),
    (31, 1, Some(31)),
    (3, 1, Some(3)),
    (38, 1, Some(38)),
    (8190, 1, Some(8190)),
];

/// Of a page of zeros that is read as one of an index, which has kinds of its own.
const INDEX_KINDS: [Fault; 9] = [
    (0, 0, None),
    (0, 1, Some(0)),
    (0, 2, Some(0)),
    (0, 3, None),
    (0, 4, None),
    (0, 5, None),
    (0, 6, None),
    (0, 7, Some(0)),
    (9, 1, Some(9)),
];

/// Of a page of zeros, which is of every form.
const NO_FAULT: [Fault; 1] = [(0, 0, None)];

/// The place of the fault of the bytes with one of them changed.
fn fault_with(bytes: &[u8; 8192], at: usize, byte: u8, form: &Form) -> Option<u16>
    requires { IsForm form.now }
{
    let mut changed = *bytes;
    if let Some(place) = changed.get_mut(at) {
        *place = byte;
    }
    match check(&Page::from_bytes(&changed), *form) {
        Ok(()) => None,
        Err(fault) => Some(fault.at),
    }
}

/// The place in the list of the first fault that the bytes don't have so.
fn first_other(bytes: &[u8; 8192], form: &Form, faults: &[Fault]) -> Option<usize>
    requires { IsForm form.now }
{
    for (number, (at, byte, fault)) in faults.iter().enumerate() {
        if fault_with(bytes, *at, *byte, form) != *fault {
            return Some(number);
        }
    }
    None
}

/// A page of the heap whose first slot has the wide row.
fn half_heap() -> [u8; 8192] {
    let mut bytes = [0; 8192];
    bytes[0] = 2;
    bytes[32..85].copy_from_slice(&WIDE_ROW);
    bytes
}

/// A page of statuses that are all rolled back.
fn statuses() -> [u8; 8192] {
    let mut bytes = [255; 8192];
    bytes[..32].fill(0);
    bytes[0] = 1;
    bytes
}

/// A page of tuples: a free slot, one with three bytes, which end the page, and one with two bytes in front of these.
fn tuples() -> [u8; 8192] {
    let mut bytes = [0; 8192];
    bytes[0] = 5;
    bytes[3] = 3;
    bytes[36..44].copy_from_slice(&[31, 253, 0, 3, 31, 251, 0, 2]);
    bytes[8187..].copy_from_slice(b"xyabc");
    bytes
}

/// A page of zeros but for its kind and the number in front of byte 36: how many pages the map has, or the block that its first entry names.
fn map_page(kind: u8) -> [u8; 8192] {
    let mut bytes = [0; 8192];
    bytes[0] = kind;
    bytes[35] = 2;
    bytes
}

#[test]
fn faults_of_pages_are_at_their_fields(rt: HostRuntime) {
    let zeros = [0; 8192];
    let found = [
        first_other(&half_heap(), &wide_heap(), &HEAP_FAULTS),
        first_other(&statuses(), &Form::Status, &STATUS_FAULTS),
        first_other(&tuples(), &Form::Index, &TUPLE_FAULTS),
        first_other(&zeros, &Form::Index, &INDEX_KINDS),
        first_other(&zeros, &Form::Status, &NO_FAULT),
        first_other(&zeros, &wide_heap(), &NO_FAULT),
    ];
    assert_eq!(rt; found, [None; 6]);
}

#[test]
fn faults_of_the_map_are_at_their_fields(rt: HostRuntime) {
    let found = [
        first_other(&map_page(3), &Form::Index, &META_FAULTS),
        first_other(&map_page(4), &Form::Index, &MAP_FAULTS),
    ];
    assert_eq!(rt; found, [None; 2]);
}

#[test]
fn a_row_of_one_number_has_thirty_bytes(rt: HostRuntime) {
    let mut out = [9; 30];
    write_row(heap(), RowId { t: 1, k: 0 }, 0, &[Value::Int(5)], &mut out);
    assert_eq!(rt; out, ROW);
}
