//! What a value is, without its numbers.

ghost use Rattle.std.specs.Prelude.{◌≡◌};
ghost use Rattle.packed_requests.specs.Shapes.{shape_of, range_shape, width};

use block_model::{Span8, Value};

/// A value without its numbers: of a range, which bounds it has.
#[derive(Clone, Copy, Debug, PartialEq, Eq)]
pub(crate) enum Shape {
    Null,
    Number,
    EmptyRange,
    WholeRange,
    RangeFrom,
    RangeBelow,
    RangeBetween,
    Network,
}

/// The shape of a value.
pub(crate) fn shape_of(value: &Value) -> Shape
    ensures { result ≡ shape_of value.now }
{
    match value {
        Value::Null => Shape::Null,
        Value::Int(_) => Shape::Number,
        Value::Span(range) => range_shape(range),
        Value::Net(_) => Shape::Network,
    }
}

fn range_shape(range: &Span8) -> Shape
    ensures { result ≡ range_shape range.now }
{
    if range.is_empty() {
        return Shape::EmptyRange;
    }
    match (range.lower(), range.upper()) {
        (None, None) => Shape::WholeRange,
        (Some(_), None) => Shape::RangeFrom,
        (None, Some(_)) => Shape::RangeBelow,
        (Some(_), Some(_)) => Shape::RangeBetween,
    }
}

/// How many numbers a value of this shape has.
pub(crate) fn width(shape: Shape) -> usize
    ensures { result ≡ width shape }
{
    match shape {
        Shape::Null | Shape::EmptyRange | Shape::WholeRange => 0,
        Shape::Number | Shape::RangeFrom | Shape::RangeBelow | Shape::Network => 1,
        Shape::RangeBetween => 2,
    }
}
