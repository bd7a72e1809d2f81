//! Conditions, judged by a least and a greatest number.

ghost use Rattle.std.specs.Prelude.{◌≡◌};
ghost use Rattle.opclass_api.specs.NumberBounds.{number_holds, key_holds};

use block_model::{Op, Value};

/// Whether a number from the least to the greatest may meet a condition. Takes no memory.
pub fn key_holds(least: i64, greatest: i64, op: Op, key: &Value) -> bool
    ensures { result ≡ key_holds least greatest op key.now }
{
    match key {
        Value::Int(k) => number_holds(least, greatest, op, *k),
        Value::Null | Value::Span(_) | Value::Net(_) => false,
    }
}

fn number_holds(least: i64, greatest: i64, op: Op, k: i64) -> bool
    ensures { result ≡ number_holds least greatest op k }
{
    match op {
        Op::Lt => least < k,
        Op::Le => least <= k,
        Op::Eq => least <= k && k <= greatest,
        Op::Ge => k <= greatest,
        Op::Gt => k < greatest,
        _ => false,
    }
}
