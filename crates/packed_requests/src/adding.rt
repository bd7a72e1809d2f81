//! What a request brings, added to the lists.

ghost use Rattle.std.specs.Prelude.{◌≡◌, ◌+◌, ◌*◌, ◌<◌, ◌≤◌, ◌++◌, length, map, vec_len, vec_capacity};
ghost use Rattle.std.specs.List.{flat_map};
ghost use Rattle.packed_requests.specs.Shapes.{shape_of};
ghost use Rattle.packed_requests.specs.Packing.{AreValues, IsBound, IsRequest, IsValue, asked_of, bound_numbers, numbers_of, request_numbers, request_queries, request_shapes};
ghost use Rattle.packed_requests.specs.declared.limits.TheConstants.{NUMBERS_A_VALUE, NUMBERS_AN_ENTRY};
ghost use Rattle.block_model.specs.declared.limits.TheConstants.{MAX_COLUMNS};

use crate::head::Asked;
use crate::shape::{Shape, shape_of};
use block_model::{Query, Request, RowId, Value};

/// Adds what the request brings. Takes no memory.
pub(crate) fn add_request(
    shapes: &mut Vec<Shape>,
    numbers: &mut Vec<u64>,
    queries: &mut Vec<Query>,
    request: Request,
) -> Asked
    requires shapes { vec_len shapes.old + MAX_COLUMNS ≤ vec_capacity shapes.old }
    requires numbers { vec_len numbers.old + NUMBERS_AN_ENTRY ≤ vec_capacity numbers.old }
    requires queries { vec_len queries.old < vec_capacity queries.old }
    ensures asked { result ≡ asked_of request }
    ensures shapes { shapes.new.items ≡ shapes.old.items ++ request_shapes request }
    ensures numbers { numbers.new.items ≡ numbers.old.items ++ request_numbers request }
    ensures queries { queries.new.items ≡ queries.old.items ++ request_queries request }
    ensures shapes_few { vec_len shapes.new ≤ vec_len shapes.old + MAX_COLUMNS }
    ensures numbers_few { vec_len numbers.new ≤ vec_len numbers.old + NUMBERS_AN_ENTRY }
    ensures queries_few { vec_len queries.new ≤ vec_len queries.old + 1 }
    ensures shapes_room { vec_capacity shapes.new ≡ vec_capacity shapes.old }
    ensures numbers_room { vec_capacity numbers.new ≡ vec_capacity numbers.old }
    ensures queries_room { vec_capacity queries.new ≡ vec_capacity queries.old }
    ensures is { IsRequest request }
{
    match request {
        Request::Begin => Asked::Begin,
        Request::Put(values) => add_put(shapes, numbers, values.as_slice()),
        Request::Look(query) => {
            queries.push_reserved(query);
            Asked::Look
        }
        Request::Mark(id) => add_row_id(numbers, id),
        Request::Commit => Asked::Commit,
        Request::Rollback => Asked::Rollback,
    }
}

/// Adds the values of a put. Takes no memory.
pub(crate) fn add_put(shapes: &mut Vec<Shape>, numbers: &mut Vec<u64>, values: &[Value]) -> Asked
    requires few { length values.now ≤ MAX_COLUMNS }
    requires shapes { vec_len shapes.old + MAX_COLUMNS ≤ vec_capacity shapes.old }
    requires numbers { vec_len numbers.old + NUMBERS_AN_ENTRY ≤ vec_capacity numbers.old }
    ensures asked { result ≡ asked_of (Request.Put values.now) }
    ensures shapes { shapes.new.items ≡ shapes.old.items ++ map shape_of values.now }
    ensures numbers { numbers.new.items ≡ numbers.old.items ++ flat_map numbers_of values.now }
    ensures shapes_few { vec_len shapes.new ≤ vec_len shapes.old + MAX_COLUMNS }
    ensures numbers_few { vec_len numbers.new ≤ vec_len numbers.old + NUMBERS_AN_ENTRY }
    ensures shapes_room { vec_capacity shapes.new ≡ vec_capacity shapes.old }
    ensures numbers_room { vec_capacity numbers.new ≡ vec_capacity numbers.old }
    ensures is { IsRequest (Request.Put values.now) }
{
    add_values(shapes, numbers, values);
    Asked::Put(values.len() as u8)
}

fn add_values(shapes: &mut Vec<Shape>, numbers: &mut Vec<u64>, values: &[Value])
    requires shapes { vec_len shapes.old + length values.now ≤ vec_capacity shapes.old }
    requires numbers { vec_len numbers.old + NUMBERS_A_VALUE * length values.now ≤ vec_capacity numbers.old }
    ensures shapes { shapes.new.items ≡ shapes.old.items ++ map shape_of values.now }
    ensures numbers { numbers.new.items ≡ numbers.old.items ++ flat_map numbers_of values.now }
    ensures shapes_few { vec_len shapes.new ≤ vec_len shapes.old + length values.now }
    ensures numbers_few { vec_len numbers.new ≤ vec_len numbers.old + NUMBERS_A_VALUE * length values.now }
    ensures shapes_room { vec_capacity shapes.new ≡ vec_capacity shapes.old }
    ensures numbers_room { vec_capacity numbers.new ≡ vec_capacity numbers.old }
    ensures values { AreValues values.now }
{
    match values {
        [] => {}
        [value, values @ ..] => {
            shapes.push_reserved(shape_of(value));
            add_numbers(numbers, value);
            add_values(shapes, numbers, values);
        }
    }
}

fn add_numbers(numbers: &mut Vec<u64>, value: &Value)
    requires { vec_len numbers.old + NUMBERS_A_VALUE ≤ vec_capacity numbers.old }
    ensures numbers { numbers.new.items ≡ numbers.old.items ++ numbers_of value.now }
    ensures few { vec_len numbers.new ≤ vec_len numbers.old + NUMBERS_A_VALUE }
    ensures room { vec_capacity numbers.new ≡ vec_capacity numbers.old }
    ensures value { IsValue value.now }
{
    match value {
        Value::Null => {}
        Value::Int(number) => numbers.push_reserved(number.cast_unsigned()),
        Value::Span(range) => {
            range.known();
            add_bound(numbers, range.lower());
            add_bound(numbers, range.upper());
        }
        Value::Net(network) => {
            network.known();
            let prefix = u64::from(network.prefix());
            numbers.push_reserved((prefix << 32) + network.address() as u64);
        }
    }
}

fn add_bound(numbers: &mut Vec<u64>, bound: Option<i64>)
    requires { vec_len numbers.old < vec_capacity numbers.old }
    ensures numbers { numbers.new.items ≡ numbers.old.items ++ bound_numbers bound }
    ensures few { vec_len numbers.new ≤ vec_len numbers.old + 1 }
    ensures room { vec_capacity numbers.new ≡ vec_capacity numbers.old }
    ensures bound { IsBound bound }
{
    if let Some(number) = bound {
        numbers.push_reserved(number.cast_unsigned());
    }
}

fn add_row_id(numbers: &mut Vec<u64>, id: RowId) -> Asked
    requires { vec_len numbers.old + 2 ≤ vec_capacity numbers.old }
    ensures asked { result ≡ asked_of (Request.Mark id) }
    ensures numbers { numbers.new.items ≡ numbers.old.items ++ request_numbers (Request.Mark id) }
    ensures few { vec_len numbers.new ≤ vec_len numbers.old + 2 }
    ensures room { vec_capacity numbers.new ≡ vec_capacity numbers.old }
    ensures is { IsRequest (Request.Mark id) }
{
    numbers.push_reserved(id.t);
    numbers.push_reserved(u64::from(id.k));
    Asked::Mark
}
