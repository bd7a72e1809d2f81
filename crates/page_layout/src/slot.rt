//! The first field of a slot whose rule is broken.

ghost use Rattle.std.specs.Prelude.{◌≡◌, ◌≤◌, ◌<◌, length, sum_by, IfSome};
ghost use Rattle.block_model.specs.RowSize.{row_size, value_size};
ghost use Rattle.page_layout.specs.RowFaults.{columns_fault, fault_unless, first_of, free_fault, row_fault, slot_fault};
ghost use Rattle.page_layout.specs.RowFaults.{absent_fault, column_fault, network_fault, null_fault, range_fault, value_fault};

use crate::column::{
    ADDRESS, BOUNDED, EMPTY, FAMILY_V4, LOWER, NO_BOUNDS, NO_LOWER, NO_UPPER, PREFIX, UPPER,
    value_size,
};
use crate::row::{COLUMNS, DELETER, FREE, ID_K, ID_T, IN_USE, NULL_BITS};
use block_model::Kind;
use index_layout::{get_i64, get_u32, get_u64};

/// The first field of a slot whose rule is broken.
#[tactic(auto, unfolding(crate::specs::RowFaults::slot_fault))]
pub(crate) fn slot_fault(kinds: &[Kind], bytes: &[u8]) -> Option<usize>
    requires columns { length kinds.now ≤ 8 }
    requires whole { length bytes.now ≡ row_size kinds.now }
    ensures fault { result ≡ slot_fault kinds.now bytes.now }
    ensures within { IfSome result (λ at. at < length bytes.now) }
{
    match bytes[0] {
        IN_USE => row_fault(kinds, bytes),
        FREE => free_fault(kinds, bytes),
        _ => Some(0),
    }
}

/// The first field of a row whose rule is broken.
#[tactic(auto, unfolding(crate::specs::RowFaults::row_fault))]
pub(crate) fn row_fault(kinds: &[Kind], bytes: &[u8]) -> Option<usize>
    requires columns { length kinds.now ≤ 8 }
    requires whole { length bytes.now ≡ row_size kinds.now }
    ensures fault { result ≡ row_fault kinds.now bytes.now }
    ensures within { IfSome result (λ at. at < length bytes.now) }
{
    let bits = bytes[NULL_BITS];
    if u16::from(bits) >= 1 << kinds.len() {
        return Some(NULL_BITS);
    }
    let at = columns_fault(kinds, bits, &bytes[COLUMNS..])?;
    Some(COLUMNS + at)
}

#[tactic(auto, unfolding(crate::specs::RowFaults::free_fault))]
fn free_fault(kinds: &[Kind], bytes: &[u8]) -> Option<usize>
    requires columns { length kinds.now ≤ 8 }
    requires whole { length bytes.now ≡ row_size kinds.now }
    ensures fault { result ≡ free_fault kinds.now bytes.now }
    ensures within { IfSome result (λ at. at < length bytes.now) }
{
    if get_u64(bytes, ID_T) != 0 {
        return Some(ID_T);
    }
    if get_u32(bytes, ID_K) != 0 {
        return Some(ID_K);
    }
    if get_u64(bytes, DELETER) != 0 {
        return Some(DELETER);
    }
    if bytes[NULL_BITS] != 0 {
        return Some(NULL_BITS);
    }
    let at = columns_fault(kinds, ALL_NULL, &bytes[COLUMNS..])?;
    Some(COLUMNS + at)
}

/// The null bits of a row of nulls.
const ALL_NULL: u8 = 255;

#[tactic(auto, unfolding(crate::specs::RowFaults::columns_fault))]
fn columns_fault(kinds: &[Kind], bits: u8, bytes: &[u8]) -> Option<usize>
    requires { length bytes.now ≡ sum_by value_size kinds.now }
    ensures fault { result ≡ columns_fault kinds.now bits bytes.now }
    ensures within { IfSome result (λ at. at < length bytes.now) }
{
    match kinds {
        [] => None,
        [kind, kinds @ ..] => {
            if let Some(at) = column_fault(bits % 2 == 1, *kind, bytes) {
                return Some(at);
            }
            let size = usize::from(value_size(*kind));
            let at = columns_fault(kinds, bits / 2, &bytes[size..])?;
            Some(size + at)
        }
    }
}

fn column_fault(null: bool, kind: Kind, bytes: &[u8]) -> Option<usize>
    requires { value_size kind ≤ length bytes.now }
    ensures fault { result ≡ column_fault null kind bytes.now }
    ensures within { IfSome result (λ at. at < value_size kind) }
{
    if null {
        return null_fault(kind, bytes);
    }
    value_fault(kind, bytes)
}

/// The first field of a null column that isn't zero.
fn null_fault(kind: Kind, bytes: &[u8]) -> Option<usize>
    requires { value_size kind ≤ length bytes.now }
    ensures fault { result ≡ null_fault kind bytes.now }
    ensures within { IfSome result (λ at. at < value_size kind) }
{
    match kind {
        Kind::Int => fault_unless(get_u64(bytes, 0) == 0, 0),
        Kind::Span => {
            let bounds = absent_fault(get_i64(bytes, LOWER), get_i64(bytes, UPPER));
            first_of(fault_unless(bytes[0] == 0, 0), bounds)
        }
        Kind::Net => {
            let address = fault_unless(get_u32(bytes, ADDRESS) == 0, ADDRESS);
            let behind = first_of(fault_unless(bytes[PREFIX] == 0, PREFIX), address);
            first_of(fault_unless(bytes[0] == 0, 0), behind)
        }
    }
}

/// The first field of a column that isn't one of a value.
fn value_fault(kind: Kind, bytes: &[u8]) -> Option<usize>
    requires { value_size kind ≤ length bytes.now }
    ensures fault { result ≡ value_fault kind bytes.now }
    ensures within { IfSome result (λ at. at < value_size kind) }
{
    match kind {
        Kind::Int => None,
        Kind::Span => range_fault(bytes[0], get_i64(bytes, LOWER), get_i64(bytes, UPPER)),
        Kind::Net => network_fault(bytes[0], bytes[PREFIX]),
    }
}

fn range_fault(flags: u8, lower: i64, upper: i64) -> Option<usize>
    ensures fault { result ≡ range_fault flags lower upper }
    ensures within { IfSome result (λ at. at < 17) }
{
    match flags {
        BOUNDED => fault_unless(lower < upper, UPPER),
        NO_LOWER => fault_unless(lower == 0, LOWER),
        NO_UPPER => fault_unless(upper == 0, UPPER),
        EMPTY | NO_BOUNDS => absent_fault(lower, upper),
        _ => Some(0),
    }
}

/// The first bound that isn't zero.
fn absent_fault(lower: i64, upper: i64) -> Option<usize>
    ensures fault { result ≡ absent_fault lower upper }
    ensures within { IfSome result (λ at. at < 17) }
{
    first_of(
        fault_unless(lower == 0, LOWER),
        fault_unless(upper == 0, UPPER),
    )
}

fn network_fault(family: u8, prefix: u8) -> Option<usize>
    ensures fault { result ≡ network_fault family prefix }
    ensures within { IfSome result (λ at. at < 6) }
{
    first_of(
        fault_unless(family == FAMILY_V4, 0),
        fault_unless(prefix < 33, PREFIX),
    )
}

/// The place of a field, unless its rule holds.
fn fault_unless(holds: bool, at: usize) -> Option<usize>
    ensures fault { result ≡ fault_unless holds at }
    ensures within { IfSome result (λ place. place ≡ at) }
{
    if holds { None } else { Some(at) }
}

/// The first fault, or the later one where there is none.
fn first_of(first: Option<usize>, later: Option<usize>) -> Option<usize>
    ensures { result ≡ first_of first later }
{
    first.or(later)
}
