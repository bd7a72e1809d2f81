//! Elements as bytes.

ghost use Rattle.std.specs.Prelude.{◌≡◌, ◌≤◌, ◌<◌, ◌+◌, ◌*◌, ◌++◌, Ok, Err, length, take, drop, OnOk, OnErr, IfOk, IfErr, [], ◌∷◌, vec_len, vec_capacity, Option, ℤ};
ghost use Rattle.opclass_multi.specs.Elements.{count_of};
ghost use Rattle.opclass_multi.specs.Encoding.{element_bytes, elements_bytes, size_of, written_at};
ghost use Rattle.opclass_multi.specs.Reading.{number_at, is_above, point_in, interval_in, element_in, read_of, sized};

use crate::element::Element;
use byte_fields::{get_i64, get_u16, put_i64, put_u16};
use opclass_api::Malformed;

/// The size of the number of elements, and of each number.
const NUMBER_SIZE: usize = 2;

const INT8_SIZE: usize = 8;

/// The first byte of a point, and of an interval.
const POINT: u8 = 0;

const INTERVAL: u8 = 1;

const POINT_SIZE: usize = 9;

const INTERVAL_SIZE: usize = 17;

/// An element that was read, how many bytes it has, and how many intervals may follow it within the limit.
#[derive(Clone, Copy)]
pub(crate) struct ReadElement {
    pub(crate) element: Element,
    pub(crate) size: usize,
    pub(crate) intervals: usize,
}

/// Writes the bytes of elements within a limit to the front of `out`, and answers how many they are.
pub(crate) fn write(elements: &[Element], limit: usize, out: &mut [u8]) -> usize
    requires limit { limit ≤ 256 }
    requires within { count_of elements.now ≤ limit }
    requires room { 2 + 9 * limit ≤ length out.old }
    ensures size { result ≡ length (elements_bytes elements.now) }
    ensures within { result ≤ 2 + 9 * limit }
    ensures written { out.new ≡ elements_bytes elements.now ++ drop result out.old }
{
    put_u16(out, 0, elements.len() as u16);
    let mut at = NUMBER_SIZE;
    'elements: for element in elements {
        write_element(element, out, at);
        at += element.size();
    }
    at
}

fn write_element(element: &Element, out: &mut [u8], at: usize)
    requires { at + size_of element.now ≤ length out.old }
    ensures { out.new ≡ written_at at (element_bytes element.now) out.old }
{
    if element.least < element.greatest {
        out[at] = INTERVAL;
        put_i64(out, at + 1, element.least);
        put_i64(out, at + 1 + INT8_SIZE, element.greatest);
    } else {
        out[at] = POINT;
        put_i64(out, at + 1, element.least);
    }
}

/// Makes `elements` those that the bytes encode within a limit. `Err` exactly where they encode none: they are unchanged
/// then. The elements are read into the spare places first.
pub(crate) fn read(
    bytes: &[u8],
    limit: usize,
    spare: &mut [Element],
    elements: &mut Vec<Element>,
) -> Result<(), Malformed>
    requires limit { limit ≤ 256 }
    requires places { limit ≤ length spare.old }
    requires room { limit ≤ vec_capacity elements.old }
    ensures found { OnOk result (read_of limit bytes.now ≡ Ok elements.new.items) }
    ensures unchanged { OnErr result (elements.new.items ≡ elements.old.items) }
    ensures place { IfErr result (λ e. read_of limit bytes.now ≡ Err e.at) }
    ensures within { IfErr result (λ e. e.at ≤ length bytes.now) }
    ensures places { length spare.new ≡ length spare.old }
    ensures room { vec_capacity elements.new ≡ vec_capacity elements.old }
{
    match read_into(bytes, limit, spare) {
        Ok(number) => {
            replace(elements, &spare[..number]);
            Ok(())
        }
        Err(fault) => Err(fault),
    }
}

/// Makes the elements those others. Takes no memory.
fn replace(elements: &mut Vec<Element>, others: &[Element])
    requires { length others.now ≤ vec_capacity elements.old }
    ensures replaced { elements.new.items ≡ others.now }
    ensures room { vec_capacity elements.new ≡ vec_capacity elements.old }
{
    elements.truncate(others.len());
    let kept = elements.len();
    elements.as_mut_slice().copy_from_slice(&others[..kept]);
    'others: for at in kept..others.len() {
        elements.push_reserved(others[at]);
    }
}

/// Puts the elements that the bytes encode into the places from the first on, and answers how many they are.
fn read_into(bytes: &[u8], limit: usize, places: &mut [Element]) -> Result<usize, Malformed>
    requires limit { limit ≤ 256 }
    requires places { limit ≤ length places.old }
    ensures found { IfOk result (λ number. (number ≤ limit) × (read_of limit bytes.now ≡ Ok (take number places.new))) }
    ensures place { IfErr result (λ e. read_of limit bytes.now ≡ Err e.at) }
    ensures within { IfErr result (λ e. e.at ≤ length bytes.now) }
    ensures places { length places.new ≡ length places.old }
{
    if bytes.len() < NUMBER_SIZE {
        return Err(Malformed { at: bytes.len() });
    }
    let number = usize::from(get_u16(bytes, 0));
    if limit < number {
        return Err(Malformed { at: 0 });
    }
    let mut intervals = limit - number;
    let mut before = None;
    let mut at = NUMBER_SIZE;
    'elements: for place in 0..number {
        let read = match read_element(&bytes[at..], intervals, before) {
            Ok(read) => read,
            Err(fault) => return Err(Malformed { at: at + fault }),
        };
        intervals = read.intervals;
        before = Some(read.element.greatest);
        at += read.size;
        places[place] = read.element;
    }
    if at < bytes.len() {
        return Err(Malformed { at });
    }
    Ok(number)
}

/// The element at the front of the bytes, or the place of its first field that is out of form.
fn read_element(bytes: &[u8], intervals: usize, before: Option<i64>) -> Result<ReadElement, usize>
    ensures element { result ≡ sized intervals (element_in intervals before bytes.now) }
    ensures within { IfErr result (λ place. place ≤ length bytes.now) }
{
    if bytes.len() < POINT_SIZE {
        return Err(missing(bytes, intervals));
    }
    match bytes[0] {
        POINT => read_point(&bytes[1..], intervals, before),
        INTERVAL if 0 < intervals => read_interval(&bytes[1..], intervals, before),
        _ => Err(0),
    }
}

/// Where bytes go wrong that are too few for an element.
fn missing(bytes: &[u8], intervals: usize) -> usize
    requires few { length bytes.now < 9 }
    ensures place { (before : Option ℤ) → element_in intervals before bytes.now ≡ Err result }
    ensures within { result ≤ length bytes.now }
{
    if bytes.is_empty() {
        return 0;
    }
    match bytes[0] {
        POINT => bytes.len(),
        INTERVAL if 0 < intervals => bytes.len(),
        _ => 0,
    }
}

fn read_point(bytes: &[u8], intervals: usize, before: Option<i64>) -> Result<ReadElement, usize>
    requires whole { 8 ≤ length bytes.now }
    ensures point { result ≡ sized intervals (point_in before bytes.now) }
    ensures within { IfErr result (λ place. place ≤ 1 + length bytes.now) }
{
    let number = int8_at(bytes, 0);
    if !is_above(before, number) {
        return Err(1);
    }
    Ok(ReadElement {
        element: Element::point(number),
        size: POINT_SIZE,
        intervals,
    })
}

fn read_interval(bytes: &[u8], intervals: usize, before: Option<i64>) -> Result<ReadElement, usize>
    requires some { 0 < intervals }
    requires begun { 8 ≤ length bytes.now }
    ensures interval { result ≡ sized intervals (interval_in before bytes.now) }
    ensures within { IfErr result (λ place. place ≤ 1 + length bytes.now) }
{
    let least = int8_at(bytes, 0);
    if !is_above(before, least) {
        return Err(1);
    }
    if bytes.len() < 2 * INT8_SIZE {
        return Err(1 + bytes.len());
    }
    let greatest = int8_at(bytes, INT8_SIZE);
    if greatest <= least {
        return Err(1 + INT8_SIZE);
    }
    Ok(ReadElement {
        element: Element { least, greatest },
        size: INTERVAL_SIZE,
        intervals: intervals - 1,
    })
}

fn int8_at(bytes: &[u8], at: usize) -> i64
    requires { at + 8 ≤ length bytes.now }
    ensures { result ≡ number_at bytes.now at }
{
    get_i64(bytes, at)
}

fn is_above(before: Option<i64>, number: i64) -> bool
    ensures { result ≡ is_above before number }
{
    match before {
        None => true,
        Some(before) => before < number,
    }
}
