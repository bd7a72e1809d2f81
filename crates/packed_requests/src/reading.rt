//! What a request brings, read from the fronts of the lists.

ghost use Rattle.std.specs.Prelude.{◌≡◌, ◌≤◌, length, slice_index, drop, min, IfOk, None, Some};
ghost use Rattle.block_model.specs.Ranges.{Between};
ghost use Rattle.packed_requests.specs.Reading.{network_in, numbers_after, numbers_behind, queries_after, range_between, request_in, row_id_in, shapes_after, shapes_in, signed_at, value_in, values_in};
ghost use Rattle.block_model.specs.declared.limits.TheConstants.{MAX_COLUMNS};

use crate::head::Asked;
use crate::queries::query_in;
use crate::shape::{Shape, width};
use block_model::{MAX_COLUMNS, Net, NoMemory, Query, Request, RowId, Span8, Value, Values};
use std::alloc::Global;

/// The request with what stands at the fronts.
pub(crate) fn request_in(
    alloc: Global,
    asked: Asked,
    shapes: &[Shape],
    numbers: &[u64],
    queries: &[Query],
) -> Result<Request, NoMemory>
    ensures { IfOk result (λ request. request ≡ request_in asked shapes.now numbers.now queries.now) }
{
    match asked {
        Asked::Begin => Ok(Request::Begin),
        Asked::Put(count) => Ok(Request::Put(values_in(shapes_in(count, shapes), numbers))),
        Asked::Look => {
            let query = query_in(alloc, queries)?;
            Ok(Request::Look(query))
        }
        Asked::Mark => Ok(Request::Mark(row_id_in(numbers))),
        Asked::Commit => Ok(Request::Commit),
        Asked::Rollback => Ok(Request::Rollback),
    }
}

/// The shapes behind the request.
pub(crate) fn shapes_after(asked: Asked, shapes: &[Shape]) -> &[Shape]
    ensures { result.now ≡ shapes_after asked shapes.now }
{
    match asked {
        Asked::Put(count) => &shapes[count_in(count, shapes)..],
        _ => shapes,
    }
}

/// The numbers behind the request.
pub(crate) fn numbers_after<'a>(asked: Asked, shapes: &[Shape], numbers: &'a [u64]) -> &'a [u64]
    ensures { result.now ≡ numbers_after asked shapes.now numbers.now }
{
    match asked {
        Asked::Put(count) => numbers_behind(shapes_in(count, shapes), numbers),
        Asked::Mark => numbers_from(numbers, 2),
        _ => numbers,
    }
}

/// The queries behind the request.
pub(crate) fn queries_after(asked: Asked, queries: &[Query]) -> &[Query]
    ensures { result.now ≡ queries_after asked queries.now }
{
    match (asked, queries) {
        (Asked::Look, [_, rest @ ..]) => rest,
        _ => queries,
    }
}

/// How many shapes a put of so many values has here.
fn count_in(count: u8, shapes: &[Shape]) -> usize
    ensures { result ≡ min (min count MAX_COLUMNS) (length shapes.now) }
{
    usize::from(count).min(MAX_COLUMNS).min(shapes.len())
}

fn shapes_in(count: u8, shapes: &[Shape]) -> &[Shape]
    ensures shapes { result.now ≡ shapes_in count shapes.now }
    ensures few { length result.now ≤ MAX_COLUMNS }
{
    &shapes[..count_in(count, shapes)]
}

/// The numbers without the first ones.
fn numbers_from(numbers: &[u64], count: usize) -> &[u64]
    ensures { result.now ≡ drop count numbers.now }
{
    &numbers[count.min(numbers.len())..]
}

fn numbers_behind<'a>(shapes: &[Shape], numbers: &'a [u64]) -> &'a [u64]
    ensures { result.now ≡ numbers_behind shapes.now numbers.now }
{
    let mut rest = numbers;
    'shapes: for shape in shapes {
        rest = numbers_from(rest, width(*shape));
    }
    rest
}

fn values_in(shapes: &[Shape], numbers: &[u64]) -> Values
    requires { length shapes.now ≤ MAX_COLUMNS }
    ensures { result ≡ values_in shapes.now numbers.now }
{
    let mut values = Values::new();
    let mut rest = numbers;
    'shapes: for shape in shapes {
        values.push(value_in(*shape, rest));
        rest = numbers_from(rest, width(*shape));
    }
    values
}

fn value_in(shape: Shape, numbers: &[u64]) -> Value
    ensures { result ≡ value_in shape numbers.now }
{
    match shape {
        Shape::Null => Value::Null,
        Shape::Number => Value::Int(signed_at(numbers, 0)),
        Shape::EmptyRange => Value::Span(Span8::empty()),
        Shape::WholeRange => Value::Span(whole_range()),
        Shape::RangeFrom => Value::Span(range_from(signed_at(numbers, 0))),
        Shape::RangeBelow => Value::Span(range_below(signed_at(numbers, 0))),
        Shape::RangeBetween => {
            let lower = signed_at(numbers, 0);
            let upper = signed_at(numbers, 1);
            Value::Span(range_between(lower, upper))
        }
        Shape::Network => network_in(number_at(numbers, 0)),
    }
}

fn whole_range() -> Span8
    ensures { result ≡ Between None None }
{
    match Span8::from_bounds(None, None) {
        Ok(range) => range,
        Err(_) => unreachable!(),
    }
}

fn range_from(lower: i64) -> Span8
    ensures { result ≡ Between (Some lower) None }
{
    match Span8::from_bounds(Some((lower, true)), None) {
        Ok(range) => range,
        Err(_) => unreachable!(),
    }
}

fn range_below(upper: i64) -> Span8
    ensures { result ≡ Between None (Some upper) }
{
    match Span8::from_bounds(None, Some((upper, false))) {
        Ok(range) => range,
        Err(_) => unreachable!(),
    }
}

fn range_between(lower: i64, upper: i64) -> Span8
    ensures { result ≡ range_between lower upper }
{
    if lower >= upper {
        return Span8::empty();
    }
    match Span8::from_bounds(Some((lower, true)), Some((upper, false))) {
        Ok(range) => range,
        Err(_) => unreachable!(),
    }
}

fn network_in(number: u64) -> Value
    ensures { result ≡ network_in number }
{
    let prefix = number >> 32;
    if prefix > 32 {
        return Value::Null;
    }
    let address = number % 0x1_0000_0000;
    match Net::v4(address as u32, prefix as u8) {
        Some(network) => Value::Net(network),
        None => unreachable!(),
    }
}

fn row_id_in(numbers: &[u64]) -> RowId
    ensures { result ≡ row_id_in numbers.now }
{
    RowId {
        t: number_at(numbers, 0),
        k: (number_at(numbers, 1) % 0x1_0000_0000) as u32,
    }
}

fn signed_at(numbers: &[u64], at: usize) -> i64
    ensures { result ≡ signed_at numbers.now at }
{
    number_at(numbers, at).cast_signed()
}

/// The number at that place; 0 where there is none.
fn number_at(numbers: &[u64], at: usize) -> u64
    ensures { result ≡ slice_index numbers.now at }
{
    match numbers.get(at) {
        Some(number) => *number,
        None => 0,
    }
}
