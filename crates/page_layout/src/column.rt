//! Columns as bytes.

ghost use Rattle.std.specs.Prelude.{◌≡◌, ◌≤◌, ◌+◌, ◌++◌, ◌∷◌, [], drop, length, sum_by, None, true};
ghost use Rattle.block_model.specs.RowSize.{value_size};
ghost use Rattle.block_model.specs.ValuesOfKind.{has_kind};
ghost use Rattle.page_layout.specs.RowBytes.{HaveKinds, IsValue, IsBound, AreValues, bound_bytes, column_bytes, columns_bytes, network_bytes, range_bytes, range_flags};
ghost use Rattle.page_layout.specs.RowReading.{column_in, columns_in, value_in, stored_range};
ghost use Rattle.page_layout.specs.RowFaults.{columns_fault, column_fault, value_fault, range_fault};

use block_model::{Kind, Net, Span8, Value, Values};
use index_layout::{get_i64, get_u32, put_i64, put_u32};

/// The family of addresses of 32 bits.
pub(crate) const FAMILY_V4: u8 = 4;

/// Which bounds a range lacks, and whether it is empty.
pub(crate) const BOUNDED: u8 = 0;

pub(crate) const EMPTY: u8 = 1;

pub(crate) const NO_LOWER: u8 = 2;

pub(crate) const NO_UPPER: u8 = 4;

pub(crate) const NO_BOUNDS: u8 = 6;

/// Where the bounds of a range begin.
pub(crate) const LOWER: usize = 1;

pub(crate) const UPPER: usize = 9;

/// Where the prefix and the address of a network begin.
pub(crate) const PREFIX: usize = 1;

pub(crate) const ADDRESS: usize = 2;

/// The bytes of a value of the kind.
pub(crate) fn value_size(kind: Kind) -> u16
    ensures size { result ≡ value_size kind }
    ensures small { result ≤ 17 }
{
    match kind {
        Kind::Int => 8,
        Kind::Span => 17,
        Kind::Net => 6,
    }
}

/// The bytes of the columns of these kinds.
pub(crate) fn columns_size(kinds: &[Kind]) -> u16
    requires { length kinds.now ≤ 8 }
    ensures { result ≡ sum_by value_size kinds.now }
{
    kinds.iter().map(|kind| value_size(*kind)).sum()
}

/// Writes the values to their columns.
#[tactic(auto, unfolding(crate::specs::RowBytes::columns_bytes))]
pub(crate) fn write_columns(kinds: &[Kind], values: &[Value], out: &mut [u8])
    requires kinds { HaveKinds kinds.now values.now }
    requires room { length out.old ≡ sum_by value_size kinds.now }
    ensures written { out.new ≡ columns_bytes kinds.now values.now }
    ensures values { AreValues values.now }
{
    match values {
        [] => {}
        [value, values @ ..] => {
            let kind = kinds[0];
            write_column(kind, value, out);
            write_columns(
                &kinds[1..],
                values,
                &mut out[usize::from(value_size(kind))..],
            );
        }
    }
}

/// Writes a value to the column at the front.
fn write_column(kind: Kind, value: &Value, out: &mut [u8])
    requires kind { has_kind kind value.now ≡ true }
    requires room { value_size kind ≤ length out.old }
    ensures written { out.new ≡ column_bytes kind value.now ++ drop (value_size kind) out.old }
    ensures value { IsValue value.now }
{
    match value {
        Value::Null => out[..usize::from(value_size(kind))].fill(0),
        Value::Int(number) => put_i64(out, 0, *number),
        Value::Span(range) => write_range(range, out),
        Value::Net(net) => write_network(net, out),
    }
}

fn write_range(range: &Span8, out: &mut [u8])
    requires { 17 ≤ length out.old }
    ensures written { out.new ≡ range_bytes range.now ++ drop 17 out.old }
    ensures value { IsValue (Value.Span range.now) }
{
    range.known();
    out[0] = flags_of(range);
    write_bound(range.lower(), &mut out[LOWER..]);
    write_bound(range.upper(), &mut out[UPPER..]);
}

fn flags_of(range: &Span8) -> u8
    ensures { result ≡ range_flags range.now }
{
    if range.is_empty() {
        return EMPTY;
    }
    match (range.lower(), range.upper()) {
        (None, None) => NO_BOUNDS,
        (None, Some(_)) => NO_LOWER,
        (Some(_), None) => NO_UPPER,
        (Some(_), Some(_)) => BOUNDED,
    }
}

/// Writes a bound to the front, and zeros where it is absent.
fn write_bound(bound: Option<i64>, out: &mut [u8])
    requires { 8 ≤ length out.old }
    ensures written { out.new ≡ bound_bytes bound ++ drop 8 out.old }
    ensures value { IsBound bound }
{
    put_i64(out, 0, bound.unwrap_or(0));
}

fn write_network(net: &Net, out: &mut [u8])
    requires { 6 ≤ length out.old }
    ensures written { out.new ≡ network_bytes net.now ++ drop 6 out.old }
    ensures value { IsValue (Value.Net net.now) }
{
    net.known();
    out[0] = FAMILY_V4;
    out[PREFIX] = net.prefix();
    put_u32(out, ADDRESS, net.address() as u32);
}

/// Adds the values of the columns with these null bits. The bytes are those of values.
#[tactic(auto, unfolding(crate::specs::RowReading::columns_in, crate::specs::RowFaults::columns_fault))]
pub(crate) fn read_columns(kinds: &[Kind], bits: u8, bytes: &[u8], values: &mut Values)
    requires room { length values.old + length kinds.now ≤ 8 }
    requires whole { length bytes.now ≡ sum_by value_size kinds.now }
    requires sound { columns_fault kinds.now bits bytes.now ≡ None }
    ensures { values.new ≡ values.old ++ columns_in kinds.now bits bytes.now }
{
    match kinds {
        [] => {}
        [kind, kinds @ ..] => {
            values.push(read_column(bits % 2 == 1, *kind, bytes));
            let rest = &bytes[usize::from(value_size(*kind))..];
            read_columns(kinds, bits / 2, rest, values);
        }
    }
}

fn read_column(null: bool, kind: Kind, bytes: &[u8]) -> Value
    requires whole { value_size kind ≤ length bytes.now }
    requires sound { column_fault null kind bytes.now ≡ None }
    ensures { result ≡ column_in null kind bytes.now }
{
    if null {
        return Value::Null;
    }
    read_value(kind, bytes)
}

fn read_value(kind: Kind, bytes: &[u8]) -> Value
    requires whole { value_size kind ≤ length bytes.now }
    requires sound { value_fault kind bytes.now ≡ None }
    ensures { result ≡ value_in kind bytes.now }
{
    match kind {
        Kind::Int => Value::Int(get_i64(bytes, 0)),
        Kind::Span => {
            let lower = get_i64(bytes, LOWER);
            let upper = get_i64(bytes, UPPER);
            Value::Span(read_range(bytes[0], lower, upper))
        }
        Kind::Net => match Net::v4(get_u32(bytes, ADDRESS), bytes[PREFIX]) {
            Some(net) => Value::Net(net),
            None => unreachable!(),
        },
    }
}

fn read_range(flags: u8, lower: i64, upper: i64) -> Span8
    requires { range_fault flags lower upper ≡ None }
    ensures { result ≡ stored_range flags lower upper }
{
    let lower = Some((lower, true));
    let upper = Some((upper, false));
    let range = match flags {
        BOUNDED => Span8::from_bounds(lower, upper),
        NO_LOWER => Span8::from_bounds(None, upper),
        NO_UPPER => Span8::from_bounds(lower, None),
        NO_BOUNDS => Span8::from_bounds(None, None),
        _ => Ok(Span8::empty()),
    };
    match range {
        Ok(range) => range,
        Err(_) => unreachable!(),
    }
}
