//! What changes, as their bytes in the log, do to pages, and that each is written as these bytes. Each is of the first block of relation 1.

ghost use Rattle.page_layout.specs.PageContents.{IsForm};

use crate::rows::heap;
use block_model::Place;
use page_layout::{Form, Page};
use page_redo::{Misfit, redo};
use wal_record::{Change, Malformed, decode, encode};

/// The row 1.0 of 5, which transaction 258 deleted.
const MARKED: [u8; 30] = [
    1, 0, 0, 0, 0, 0, 0, 0, 1, 0, 0, 0, 0, 0, 0, 0, 0, 0, 0, 1, 2, 0, 0, 0, 0, 0, 0, 0, 0, 5,
];

/// A change, and what is answered: 0 where it fits and is made, else its tag.
type Redo<'a> = (&'a [u8], u8);

/// What is answered. `None` where the bytes are no change.
fn answer_to(page: &mut Page, form: &Form, bytes: &[u8]) -> Option<u8>
    requires { IsForm form.now }
{
    match decode(bytes) {
        Ok((change, _)) => match redo(page, &change, *form) {
            Ok(()) => Some(0),
            Err(Misfit { tag }) => Some(tag),
        },
        Err(_) => None,
    }
}

/// Whether the change that the bytes are is written as these bytes.
fn is_written_so(bytes: &[u8], out: &mut [u8]) -> bool {
    match decode(bytes) {
        Ok((change, long)) => {
            if long > out.len() {
                return false;
            }
            let size = encode(&change, out);
            let written: &[u8] = out;
            size == long && &written[..size] == bytes
        }
        Err(_) => false,
    }
}

/// Makes the changes one after the other, each where it fits, and answers the place in the list of the first that isn't answered or
/// written so.
fn first_other(page: &mut Page, form: &Form, redos: &[Redo<'_>]) -> Option<usize>
    requires { IsForm form.now }
{
    for (at, (bytes, answer)) in redos.iter().enumerate() {
        if answer_to(page, form, bytes) != Some(*answer) {
            return Some(at);
        }
        if !is_written_so(bytes, &mut [9; 8198]) {
            return Some(at);
        }
    }
    None
}

/// The second slot takes the row.
const PUT: &[u8] = b"\x03\x01\0\0\0\0\0\x01\0\x1e\
\x01\0\0\0\0\0\0\0\x01\0\0\0\0\0\0\0\0\0\0\0\0\0\0\0\0\0\0\0\0\x05";

/// A row is put into the second of two slots and marked, and slots that aren't in use, or not there, are dropped beside it.
const MARKS: [Redo<'static>; 10] = [
    (PUT, 3),
    (b"\x02\x01\0\0\0\0\x02", 0),
    (PUT, 0),
    (PUT, 3),
    (b"\x04\x01\0\0\0\0\0\0\0\0\0\0\0\0\x01\x02", 4),
    (b"\x04\x01\0\0\0\0\0\x01\0\0\0\0\0\0\x01\x02", 0),
    (b"\x04\x01\0\0\0\0\0\x02\0\0\0\0\0\0\x01\x02", 4),
    (b"\x05\x01\0\0\0\0\0\x02\0\x01\0\0", 5),
    (b"\x05\x01\0\0\0\0\0\x02\0\x01\0\x01", 5),
    (b"\x05\x01\0\0\0\0\0\x02\0\x01\0\x02", 5),
];

/// The row is dropped.
const DROP_ROW: [Redo<'static>; 1] = [(b"\x05\x01\0\0\0\0\0\x01\0\x01", 0)];

/// A started page of the heap whose second slot has the marked row.
fn marked_heap() -> [u8; 8192] {
    let mut bytes = [0; 8192];
    bytes[0] = 2;
    bytes[62..92].copy_from_slice(&MARKED);
    bytes
}

/// A started page of that kind, and else zeros.
fn page_of(kind: u8) -> [u8; 8192] {
    let mut bytes = [0; 8192];
    bytes[0] = kind;
    bytes
}

/// Makes the changes on a page that has other bytes. Answers the first that isn't answered so, and whether the page has these bytes then.
fn made_on(
    page: &mut Page,
    form: &Form,
    redos: &[Redo<'_>],
    bytes: &[u8; 8192],
) -> (Option<usize>, bool)
    requires { IsForm form.now }
{
    let found = first_other(page, form, redos);
    (found, page.as_bytes() == bytes.as_slice())
}

#[test]
fn heap_pages_take_rows_marks_and_drops(rt: HostRuntime) {
    let mut page = Page::from_bytes(&[7; 8192]);
    let found = [
        made_on(&mut page, &heap(), &MARKS, &marked_heap()),
        made_on(&mut page, &heap(), &DROP_ROW, &page_of(2)),
    ];
    assert_eq!(rt; found, [(None, true); 2]);
}

/// The status of entry 5 becomes 2.
const SET: &[u8] = b"\x0d\x01\0\0\0\0\0\x05\x02";

const SETS: [Redo<'static>; 2] = [(SET, 0), (b"\x09\x01\0\0\0\0", 9)];

/// The change by which the page gets these bytes.
fn full_page(bytes: &[u8; 8192]) -> [u8; 8198] {
    let mut change = [0; 8198];
    change[..2].copy_from_slice(b"\x01\x01");
    change[6..].copy_from_slice(bytes);
    change
}

/// A page of statuses whose entry 5 is 2.
fn set_statuses() -> [u8; 8192] {
    let mut bytes = page_of(1);
    bytes[33] = 8;
    bytes
}

#[test]
fn whole_pages_and_statuses_are_set(rt: HostRuntime) {
    let mut page = Page::from_bytes(&[7; 8192]);
    let full = full_page(&page_of(1));
    let found = [
        made_on(&mut page, &Form::Status, &[(SET, 13)], &[7; 8192]),
        made_on(&mut page, &heap(), &[(&full, 1)], &[7; 8192]),
        made_on(&mut page, &Form::Status, &[(&full, 0)], &page_of(1)),
        made_on(&mut page, &Form::Status, &SETS, &set_statuses()),
    ];
    assert_eq!(rt; found, [(None, true); 4]);
}

/// A page of two slots, with offset and length of each, and the last three bytes of the page.
fn two_slots(directory: &[u8; 8], last: &[u8; 3]) -> [u8; 8192] {
    let mut bytes = page_of(5);
    bytes[3] = 2;
    bytes[8189] = last[0];
    bytes[8190] = last[1];
    bytes[8191] = last[2];
    bytes[32..40].copy_from_slice(directory);
    bytes
}

/// An empty page of tuples.
const START: &[u8] = b"\x02\x01\0\0\0\0\x05";

const PUT_FIRST: &[u8] = b"\x06\x01\0\0\0\0\0\0\0\x03abc";

const PUT_SECOND: &[u8] = b"\x06\x01\0\0\0\0\0\x01\0\x02xy";

const REPLACE_FIRST: &[u8] = b"\x07\x01\0\0\0\0\0\0\0\x01d";

const DROP_FIRST: &[u8] = b"\x08\x01\0\0\0\0\0\x01\0\0";

const PUTS: [Redo<'static>; 4] = [
    (START, 0),
    (PUT_FIRST, 0),
    (PUT_SECOND, 0),
    (REPLACE_FIRST, 0),
];

#[test]
fn pages_of_an_index_take_tuples(rt: HostRuntime) {
    let mut page = Page::from_bytes(&[7; 8192]);
    let put = two_slots(b"\x1f\xff\0\x01\x1f\xfd\0\x02", b"xyd");
    let dropped = two_slots(b"\0\0\0\0\x1f\xfe\0\x02", b"\0xy");
    let found = [
        made_on(&mut page, &Form::Index, &PUTS, &put),
        made_on(&mut page, &Form::Index, &[(DROP_FIRST, 0)], &dropped),
    ];
    assert_eq!(rt; found, [(None, true); 2]);
}

const TURN: &[u8] = b"\x0a\x01\0\0\0\0";

/// A page of tuples becomes one of the map, whose last entry names slot 2 of block 17.
const TURNS: [Redo<'static>; 6] = [
    (START, 0),
    (PUT_FIRST, 0),
    (b"\x09\x01\0\0\0\0", 0),
    (DROP_FIRST, 0),
    (TURN, 0),
    (b"\x0b\x01\0\0\0\0\x03\xfb\0\0\0\x11\0\x02", 0),
];

fn last_entry() -> [u8; 8192] {
    let mut bytes = page_of(4);
    bytes[8184..].copy_from_slice(b"\0\0\0\x11\0\x02\0\0");
    bytes
}

/// The number of pages of the map becomes 6.
const MAPS: &[u8] = b"\x0c\x01\0\0\0\0\0\0\0\x06";

fn six_maps() -> [u8; 8192] {
    let mut bytes = page_of(3);
    bytes[35] = 6;
    bytes
}

#[test]
fn pages_of_the_map_take_entries_and_their_number(rt: HostRuntime) {
    let mut page = Page::from_bytes(&[7; 8192]);
    let mut meta = Page::from_bytes(&page_of(3));
    let found = [
        made_on(&mut page, &Form::Index, &TURNS, &last_entry()),
        made_on(&mut meta, &Form::Index, &[(MAPS, 0)], &six_maps()),
    ];
    assert_eq!(rt; found, [(None, true); 2]);
}

/// The place of the change, if it is an evacuation.
fn evacuated(bytes: &[u8]) -> Option<Place> {
    match decode(bytes) {
        Ok((Change::Evacuate { place }, _)) => Some(place),
        _ => None,
    }
}

#[test]
fn a_change_begins_with_its_tag_and_its_place(rt: HostRuntime) {
    let place = Place {
        relation: 5,
        block: 0x0102_0304,
    };
    assert_eq!(rt; evacuated(b"\x09\x05\x01\x02\x03\x04"), Some(place));
}

/// Bytes that no change goes on past, and the place where none does: of each tag a change that lacks bytes, and tags that there aren't.
const MALFORMED: [(&[u8], usize); 18] = [
    (b"", 0),
    (b"\x01\x05\x01\x02\x03\x04\x07", 7),
    (b"\x02\x05\x01\x02\x03\x04", 6),
    (b"\x03\x05\x01\x02\x03\x04\0\x07\0\x02\x61", 11),
    (
        b"\x04\x05\x01\x02\x03\x04\0\x07\x01\x02\x03\x04\x05\x06\x07",
        15,
    ),
    (b"\x05\x05\x01\x02\x03\x04\0\x02\0\x01\x01", 11),
    (b"\x06\x05\x01\x02\x03\x04\0\x01\0", 9),
    (b"\x07\x05\x01\x02\x03\x04\0", 7),
    (b"\x08\x05\x01\x02\x03\x04\0\x01", 8),
    (b"\x09\x05\x01\x02\x03", 5),
    (b"\x0a", 1),
    (b"\x0b\x05\x01\x02\x03\x04\0\x03\0\0\0\x11\0", 13),
    (b"\x0c\x05\x01\x02\x03\x04\0\0\0", 9),
    (b"\x0d\x05\x01\x02\x03\x04\x0c\x0d", 8),
    (b"\x0d\x05", 2),
    (b"\0\x05\x01\x02\x03\x04\0\0\0\0", 0),
    (b"\x0e\x05\x01\x02\x03\x04\0\0\0\0", 0),
    (b"\xff\x05\x01\x02\x03\x04\0\0\0\0", 0),
];

#[test]
fn no_change_goes_on_past_missing_bytes_or_a_strange_tag(rt: HostRuntime) {
    for (bytes, at) in MALFORMED {
        assert_eq!(rt; decode(bytes), Err(Malformed { at }));
    }
}
