//! Values, their kinds, the operators on them, and short lists of them.

ghost use Rattle.block_model.specs.declared.limits.TheConstants.{MAX_COLUMNS};
ghost use Rattle.std.specs.Prelude.{◌≡◌, ℤ, ◌+◌, ◌<◌, ◌≤◌, ◌==◌, [], ◌∷◌, ◌++◌, length, map, slice_index_or, slice_get, Some, true};
ghost use Rattle.block_model.specs.Matches.{matches, kind_matches, number_matches, range_matches, bounds_match, holds_bounds, network_matches, is_within};
ghost use Rattle.block_model.specs.Ranges.{leaves_room, starts_first, ends_last, same_bound, meets_before, touches, lower_of, upper_of};
ghost use Rattle.block_model.specs.Networks.{leading_bits};
ghost use Rattle.block_model.specs.ValuesOfKind.{has_kind, IsValueOf};
ghost use Rattle.block_model.specs.declared.value.Kind.{Kind as OneKind};

use crate::limits::MAX_COLUMNS;
use crate::net::Net;
use crate::schema::Column;
use crate::span::Span8;
use std::marker::Model;

/// The kind of a column: `int8`, `int8range` or `inet`.
#[derive(Clone, Copy, Debug, PartialEq, Eq)]
pub enum Kind {
    Int,
    Span,
    Net,
}

/// A value of a column; a null is of each kind.
#[derive(Clone, Copy, Debug, PartialEq, Eq)]
pub enum Value {
    Null,
    Int(i64),
    Span(Span8),
    Net(Net),
}

impl Value {
    /// Every value that has a kind is one of that kind: its numbers are of int8, its range has a number, its address 32
    /// bits. Does nothing.
    pub fn known(&self)
        ensures { (kind : OneKind) → has_kind kind self.now ≡ true → IsValueOf kind self.now }
    {
        match self {
            Value::Null => {}
            Value::Int(number) => {
                let _number = *number;
            }
            Value::Span(range) => range.known(),
            Value::Net(network) => network.known(),
        }
    }
}

/// An operator of a condition.
#[derive(Clone, Copy, Debug, PartialEq, Eq)]
pub enum Op {
    Lt,
    Le,
    Eq,
    Ge,
    Gt,
    Overlaps,
    Contains,
    Within,
    Before,
    After,
    WithinEq,
    ContainsEq,
    NotAfter,
    NotBefore,
    Adjacent,
    IsNull,
    NotNull,
}

/// Up to eight values, seen as their list.
#[derive(Clone, Copy, Debug, PartialEq, Eq)]
pub struct Values {
    slots: [Value; MAX_COLUMNS],
    len: usize,
}

impl Model for Values {
    ghost use Rattle.block_model.specs.declared.limits.TheConstants.{MAX_COLUMNS};
    ghost use Rattle.std.specs.Prelude.{List, take, length};
    ghost use Rattle.std.proofs.Common.{sym};
    ghost use Rattle.block_model.specs.Padded.{padded, IsPadded, length_padded};
    ghost use Rattle.block_model.specs.declared.value.Value.{Value as OneValue};
    ghost use Rattle.block_model.specs.declared.value.Value.TheVariants.{Null};

    ghost Value = { List OneValue };

    ghost view = { λ a. take a.len a.slots };

    ghost invariant = { λ a. IsPadded MAX_COLUMNS Null a.slots a.len };

    ghost inverse = { λ values. record { slots = padded MAX_COLUMNS Null values; len = length values } };

    ghost inverse_ok = { λ a h i. record { slots = sym h.fills i; len = length_padded MAX_COLUMNS Null a.slots a.len h i } };
}

impl Values {
    /// No value.
    pub fn new() -> Values
        ensures { result ≡ [] }
    {
        Values {
            slots: [Value::Null; MAX_COLUMNS],
            len: 0,
        }
    }

    /// Adds a value at the end; there is room for eight.
    pub fn push(&mut self, value: Value)
        requires { length self.old < MAX_COLUMNS }
        ensures { self.new ≡ self.old ++ value ∷ [] }
    {
        self.slots[self.len] = value;
        self.len += 1;
    }

    /// How many there are, at most eight.
    pub fn len(&self) -> usize
        ensures count { result ≡ length self.now }
        ensures within { result ≤ MAX_COLUMNS }
    {
        self.len
    }

    /// Whether there is none.
    pub fn is_empty(&self) -> bool
        ensures { result ≡ (length self.now == 0) }
    {
        self.len == 0
    }

    /// The values.
    pub fn as_slice(&self) -> &[Value]
        ensures values { result.now ≡ self.now }
        ensures within { length result.now ≤ MAX_COLUMNS }
    {
        &self.slots[..self.len]
    }
}

/// The kinds of up to eight columns, seen as their list. The toolchain takes no array of a type parameter in a struct,
/// so that this is no `Values` of another element.
#[derive(Clone, Copy, Debug, PartialEq, Eq)]
pub struct Kinds {
    slots: [Kind; MAX_COLUMNS],
    len: usize,
}

impl Kinds {
    /// The kinds of these columns, of which there are at most eight.
    pub fn of(columns: &[Column]) -> Kinds
        requires { length columns.now ≤ MAX_COLUMNS }
        ensures { result ≡ map (λ c. c.kind) columns.now }
    {
        let mut slots = [Kind::Int; MAX_COLUMNS];
        for (at, column) in columns.iter().enumerate() {
            slots[at] = column.kind;
        }
        Kinds {
            slots,
            len: columns.len(),
        }
    }

    /// The kinds.
    pub fn as_slice(&self) -> &[Kind]
        ensures kinds { result.now ≡ self.now }
        ensures within { length result.now ≤ MAX_COLUMNS }
    {
        &self.slots[..self.len]
    }
}

impl Model for Kinds {
    ghost use Rattle.block_model.specs.KindLists.{kinds_in, AreKinds, kinds_kept, kinds_kept_back};
    ghost use Rattle.block_model.specs.declared.value.Kind.{Kind as OneKind};
    ghost use Rattle.std.specs.Prelude.{List};

    ghost view = { kinds_in };

    ghost Value = { List OneKind };

    ghost invariant = { AreKinds };

    ghost inverse = { kinds_kept };

    ghost inverse_ok = { kinds_kept_back };
}

/// Whether a value meets a condition: its operator and key. A null key meets `is null` and `is not null` alone. By any
/// other operator than these two, values of different kinds meet nothing. Takes no memory.
pub fn matches(value: &Value, op: Op, key: &Value) -> bool
    ensures { result ≡ matches value.now op key.now }
{
    match value {
        Value::Null => op == Op::IsNull,
        Value::Int(v) => match op {
            Op::IsNull => false,
            Op::NotNull => true,
            _ => int_matches(*v, op, key),
        },
        Value::Span(v) => match op {
            Op::IsNull => false,
            Op::NotNull => true,
            _ => span_matches(v, op, key),
        },
        Value::Net(v) => match op {
            Op::IsNull => false,
            Op::NotNull => true,
            _ => net_matches(v, op, key),
        },
    }
}

fn int_matches(v: i64, op: Op, key: &Value) -> bool
    ensures { result ≡ kind_matches (Value.Int v) op key.now }
{
    match key {
        Value::Int(k) => number_matches(v, op, *k),
        Value::Null | Value::Span(_) | Value::Net(_) => false,
    }
}

fn number_matches(v: i64, op: Op, k: i64) -> bool
    ensures { result ≡ number_matches v op k }
{
    match op {
        Op::Lt => v < k,
        Op::Le => v <= k,
        Op::Eq => v == k,
        Op::Ge => v >= k,
        Op::Gt => v > k,
        _ => false,
    }
}

fn span_matches(v: &Span8, op: Op, key: &Value) -> bool
    ensures { result ≡ kind_matches (Value.Span v.now) op key.now }
{
    match key {
        Value::Span(k) => range_matches(v, op, k),
        Value::Null | Value::Int(_) | Value::Net(_) => false,
    }
}

fn range_matches(v: &Span8, op: Op, k: &Span8) -> bool
    ensures { result ≡ range_matches v.now op k.now }
{
    match (v.bounds(), k.bounds()) {
        (None, None) => matches!(op, Op::Eq | Op::Contains | Op::Within),
        (None, Some(_)) => op == Op::Within,
        (Some(_), None) => op == Op::Contains,
        (Some((vl, vh)), Some((kl, kh))) => bounds_match(vl, vh, op, kl, kh),
    }
}

fn bounds_match(vl: Option<i64>, vh: Option<i64>, op: Op, kl: Option<i64>, kh: Option<i64>) -> bool
    ensures { result ≡ bounds_match vl vh op kl kh }
{
    match op {
        Op::Eq => same_bound(vl, kl) && same_bound(vh, kh),
        Op::Overlaps => leaves_room(vl, kh) && leaves_room(kl, vh),
        Op::Contains => holds_bounds(vl, vh, kl, kh),
        Op::Within => holds_bounds(kl, kh, vl, vh),
        Op::Before => meets_before(vh, kl),
        Op::After => meets_before(kh, vl),
        Op::NotAfter => ends_last(kh, vh),
        Op::NotBefore => starts_first(kl, vl),
        Op::Adjacent => touches(vh, kl) || touches(kh, vl),
        _ => false,
    }
}

fn holds_bounds(vl: Option<i64>, vh: Option<i64>, kl: Option<i64>, kh: Option<i64>) -> bool
    ensures { result ≡ holds_bounds vl vh kl kh }
{
    starts_first(vl, kl) && ends_last(vh, kh)
}

fn leaves_room(lower: Option<i64>, upper: Option<i64>) -> bool
    ensures { result ≡ leaves_room lower upper }
{
    match (lower, upper) {
        (Some(l), Some(h)) => l < h,
        _ => true,
    }
}

fn starts_first(a: Option<i64>, b: Option<i64>) -> bool
    ensures { result ≡ starts_first a b }
{
    match (a, b) {
        (None, _) => true,
        (Some(_), None) => false,
        (Some(a), Some(b)) => a <= b,
    }
}

fn ends_last(a: Option<i64>, b: Option<i64>) -> bool
    ensures { result ≡ ends_last a b }
{
    match (a, b) {
        (None, _) => true,
        (Some(_), None) => false,
        (Some(a), Some(b)) => b <= a,
    }
}

fn same_bound(a: Option<i64>, b: Option<i64>) -> bool
    ensures { result ≡ same_bound a b }
{
    match (a, b) {
        (None, None) => true,
        (Some(a), Some(b)) => a == b,
        (None, Some(_)) | (Some(_), None) => false,
    }
}

fn meets_before(a: Option<i64>, b: Option<i64>) -> bool
    ensures { result ≡ meets_before a b }
{
    match (a, b) {
        (Some(a), Some(b)) => a <= b,
        _ => false,
    }
}

fn touches(a: Option<i64>, b: Option<i64>) -> bool
    ensures { result ≡ touches a b }
{
    match (a, b) {
        (Some(a), Some(b)) => a == b,
        _ => false,
    }
}

fn net_matches(v: &Net, op: Op, key: &Value) -> bool
    ensures { result ≡ kind_matches (Value.Net v.now) op key.now }
{
    match key {
        Value::Net(k) => network_matches(v, op, k),
        Value::Null | Value::Int(_) | Value::Span(_) => false,
    }
}

fn network_matches(v: &Net, op: Op, k: &Net) -> bool
    ensures { result ≡ network_matches v.now op k.now }
{
    match op {
        Op::Eq => v.family() == k.family()
            && v.prefix() == k.prefix()
            && v.address() == k.address(),
        Op::Overlaps => v.is_within(k) || k.is_within(v),
        Op::Before => v.is_within(k) && k.prefix() < v.prefix(),
        Op::After => k.is_within(v) && v.prefix() < k.prefix(),
        Op::WithinEq => v.is_within(k),
        Op::ContainsEq => k.is_within(v),
        _ => false,
    }
}
