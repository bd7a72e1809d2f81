//! What conditions want of a minmax column, prepared once for all ranges.

ghost use Rattle.std.specs.Prelude.{◌≡◌, int_lt};
ghost use Rattle.opclass_api.specs.NumberBounds.{key_holds, number_holds};
ghost use Rattle.kept_tuples.specs.Wanted.{IsWanted, WantedWhere, allows, allows_on, both, may_have};

use block_model::{Cond, Op, Value};

/// The values that meet each condition on a column alone: none, or those from one condition's least on, and up to another's greatest; and
/// whether nulls are asked for.
#[derive(Clone, Copy, Debug)]
pub struct Wanted {
    nulls: bool,
    none: bool,
    least: i64,
    greatest: i64,
}

/// No condition wants anything.
const ANY: Wanted = Wanted {
    nulls: false,
    none: false,
    least: i64::MIN,
    greatest: i64::MAX,
};

const NONE: Wanted = Wanted { none: true, ..ANY };

impl Wanted {
    /// What these conditions want of the column.
    pub fn of(place: u8, conds: &[Cond]) -> Wanted
        ensures { IsWanted place conds.now result }
    {
        let mut wanted = ANY;
        'conds: for cond in conds {
            wanted = wanted.and(Wanted::on(place, cond));
        }
        wanted
    }

    /// What one condition wants of the column.
    fn on(place: u8, cond: &Cond) -> Wanted
        ensures { WantedWhere result (λ nulls least greatest. allows_on place nulls least greatest cond.now) }
    {
        if cond.column != place {
            return ANY;
        }
        Wanted::by(cond.op, &cond.key)
    }

    /// What a condition on the column wants.
    fn by(op: Op, key: &Value) -> Wanted
        ensures { WantedWhere result (λ nulls least greatest. allows nulls least greatest op key.now) }
    {
        match op {
            Op::IsNull => Wanted { nulls: true, ..ANY },
            Op::NotNull => ANY,
            _ => Wanted::by_key(op, key),
        }
    }

    /// What one condition wants that compares.
    fn by_key(op: Op, key: &Value) -> Wanted
        ensures { WantedWhere result (λ nulls least greatest. key_holds least greatest op key.now) }
    {
        match key {
            Value::Int(key) => Wanted::by_number(op, *key),
            Value::Null | Value::Span(_) | Value::Net(_) => NONE,
        }
    }

    /// The same by its number.
    fn by_number(op: Op, key: i64) -> Wanted
        ensures { WantedWhere result (λ nulls least greatest. number_holds least greatest op key) }
    {
        match op {
            Op::Lt => Wanted::below(key),
            Op::Le => Wanted {
                greatest: key,
                ..ANY
            },
            Op::Eq => Wanted {
                least: key,
                greatest: key,
                ..ANY
            },
            Op::Ge => Wanted { least: key, ..ANY },
            Op::Gt => Wanted::above(key),
            _ => NONE,
        }
    }

    /// A value below the key.
    fn below(key: i64) -> Wanted
        ensures { WantedWhere result (λ nulls least greatest. int_lt least key) }
    {
        match key.checked_sub(1) {
            Some(greatest) => Wanted { greatest, ..ANY },
            None => NONE,
        }
    }

    /// A value above it.
    fn above(key: i64) -> Wanted
        ensures { WantedWhere result (λ nulls least greatest. int_lt key greatest) }
    {
        match key.checked_add(1) {
            Some(least) => Wanted { least, ..ANY },
            None => NONE,
        }
    }

    /// What both want.
    fn and(self, other: Wanted) -> Wanted
        ensures { result ≡ both self other }
    {
        Wanted {
            nulls: self.nulls | other.nulls,
            none: self.none | other.none,
            least: self.least.max(other.least),
            greatest: self.greatest.min(other.greatest),
        }
    }

    /// Whether values from the least to the greatest, with nulls or without, may have what is wanted.
    pub fn may_be_in(self, nulls: bool, least: i64, greatest: i64) -> bool
        ensures { result ≡ may_have self nulls least greatest }
    {
        least <= self.greatest && self.least <= greatest && !self.none && (nulls || !self.nulls)
    }
}
