//! The texts of every kind.

ghost use Rattle.std.specs.Prelude.{◌≡◌};
ghost use Rattle.value_text.specs.ValueTexts.{IsTextOf, meaning};
ghost use Rattle.value_text.specs.Parts.{value_text};
ghost use Rattle.value_text.specs.TextReading.{Gives};
ghost use Rattle.value_text.specs.Reading.{bounds_at, range_at, kind_at, text_at, whole_at};

use crate::net::{Address, read_address};
use crate::number::{Number, read_number};
use crate::range::{Bound, lower, range_of, upper};
use crate::{Reading, byte, end, word};
use block_model::{Kind, Span8, Value};

/// A value as it is written.
#[derive(Clone, Copy)]
pub enum Literal<'a> {
    Null,
    Int(Number<'a>),
    Empty,
    Bounds(Bound<'a>, Bound<'a>),
    Net(Address),
}

/// All of a text of the kind, or what is left of it where no text goes on.
#[tactic(auto, unfolding(crate::specs::Reading::whole_at))]
pub fn read_literal(kind: Kind, text: &[u8]) -> Reading<'_, Literal<'_>>
    ensures { Gives (λ x. (value_text x.0, x.1.now)) result (whole_at kind text.now) }
{
    let (literal, rest) = front(kind, text)?;
    end(rest)?;
    Ok((literal, rest))
}

/// `null`, or a text of the kind.
fn front(kind: Kind, text: &[u8]) -> Reading<'_, Literal<'_>>
    ensures { Gives (λ x. (value_text x.0, x.1.now)) result (text_at kind text.now) }
{
    match text {
        [b'n', ..] => {
            let rest = word(text, b"null")?;
            Ok((Literal::Null, rest))
        }
        _ => of_kind(kind, text),
    }
}

fn of_kind(kind: Kind, text: &[u8]) -> Reading<'_, Literal<'_>>
    ensures { Gives (λ x. (value_text x.0, x.1.now)) result (kind_at kind text.now) }
{
    match kind {
        Kind::Int => {
            let (n, rest) = read_number(text)?;
            Ok((Literal::Int(n), rest))
        }
        Kind::Span => range(text),
        Kind::Net => {
            let (net, rest) = read_address(text)?;
            Ok((Literal::Net(net), rest))
        }
    }
}

/// `empty`, or bounds.
fn range(text: &[u8]) -> Reading<'_, Literal<'_>>
    ensures { Gives (λ x. (value_text x.0, x.1.now)) result (range_at text.now) }
{
    match text {
        [b'e', ..] => {
            let rest = word(text, b"empty")?;
            Ok((Literal::Empty, rest))
        }
        _ => bounds(text),
    }
}

#[tactic(auto, unfolding(crate::specs::Reading::bounds_at))]
fn bounds(text: &[u8]) -> Reading<'_, Literal<'_>>
    ensures { Gives (λ x. (value_text x.0, x.1.now)) result (bounds_at text.now) }
{
    let (l, rest) = lower(text)?;
    let rest = byte(rest, b',')?;
    let (h, rest) = upper(rest)?;
    Ok((Literal::Bounds(l, h), rest))
}

impl Literal<'_> {
    /// The value that it denotes, or where the first number begins that doesn't fit.
    pub fn value(&self, kind: Kind) -> Result<Value, usize>
        requires { IsTextOf kind (value_text self.now) }
        ensures { result ≡ meaning (value_text self.now) }
    {
        match self {
            Literal::Null => Ok(Value::Null),
            Literal::Int(number) => match number.value() {
                Some(n) => Ok(Value::Int(n)),
                None => Err(0),
            },
            Literal::Empty => Ok(Value::Span(Span8::empty())),
            Literal::Bounds(lower, upper) => Ok(Value::Span(range_of(lower, upper)?)),
            Literal::Net(address) => Ok(Value::Net(address.network())),
        }
    }
}
