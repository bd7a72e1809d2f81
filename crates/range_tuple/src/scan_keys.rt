//! The conditions of a scan, gathered by column once for all the tuples that are asked.

ghost use Rattle.std.specs.Prelude.{◌≡◌, ◌≤◌, ◌+◌, ◌++◌, ◌==◌, ◌&&◌, None, false, length, take, IfSome};
ghost use Rattle.block_model.specs.declared.limits.TheConstants.{MAX_CONDITIONS};
ghost use Rattle.std.specs.List.{Contains, list_all, list_any};
ghost use Rattle.opclass_api.specs.Conditions.{compares};
ghost use Rattle.range_tuple.specs.GatheredKeys.{AreGathered, IsAsked, IsGathered, asks_for_nulls, asks_for_values, is_not_null, is_null};
ghost use Rattle.range_tuple.specs.Keeps.{comparisons};

use block_model::{Cond, MAX_CONDITIONS, Op, Value};
use std::marker::Model;

/// What stands where no condition was gathered.
const NO_CONDITION: Cond = Cond {
    column: 0,
    op: Op::IsNull,
    key: Value::Null,
};

/// What is gathered of the conditions on one column: its comparisons, from the place `first` up to `end`, and whether it asks
/// for nulls and for values.
#[derive(Clone, Copy, Debug, PartialEq, Eq)]
pub(crate) struct ColumnKeys {
    pub(crate) column: u8,
    pub(crate) first: u8,
    pub(crate) end: u8,
    pub(crate) nulls: bool,
    pub(crate) values: bool,
}

/// What stands where no column's conditions were gathered.
const NO_KEYS: ColumnKeys = ColumnKeys {
    column: 0,
    first: 0,
    end: 0,
    nulls: false,
    values: false,
};

/// What a scan asks of one column: the comparisons on it, in their order, and whether an `is null` and an `is not null` are
/// among its conditions.
#[derive(Clone, Copy, Debug)]
pub(crate) struct Asked<'a> {
    pub(crate) comparisons: &'a [Cond],
    pub(crate) nulls: bool,
    pub(crate) values: bool,
}

/// The conditions of a scan, at most sixteen, seen as their list. They are gathered by column in fixed arrays when it is made, so
/// that no tuple gathers them again: `comparisons` has those of one column after the other, `columns` where each column's stand.
#[derive(Debug, Drop)]
pub struct ScanKeys<'a> {
    conds: &'a [Cond],
    comparisons: [Cond; MAX_CONDITIONS],
    columns: [ColumnKeys; MAX_CONDITIONS],
    count: usize,
}

impl<'a> Model for ScanKeys<'a> {
    ghost use Rattle.std.specs.Prelude.{List};
    ghost use Rattle.block_model.specs.declared.row.Cond.{Cond as OneCond};
    ghost use Rattle.range_tuple.specs.GatheredKeys.{AreGathered};

    ghost Value = { List OneCond };

    ghost view = { λ a. a.conds.now };

    ghost invariant = { λ a. AreGathered a.conds.now a.comparisons a.columns a.count };
}

impl<'a> ScanKeys<'a> {
    /// Those of these conditions, which are at most sixteen. Takes no memory.
    pub fn new(conds: &'a [Cond]) -> ScanKeys<'a>
        requires { length conds.now ≤ MAX_CONDITIONS }
        ensures { result ≡ conds.now }
    {
        let mut comparisons = [NO_CONDITION; MAX_CONDITIONS];
        let mut columns = [NO_KEYS; MAX_CONDITIONS];
        let count = gather(conds, &mut comparisons, &mut columns);
        ScanKeys {
            conds,
            comparisons,
            columns,
            count,
        }
    }

    /// What is asked of a column. None exactly where no condition is on it.
    pub(crate) fn of(&self, place: u8) -> Option<Asked<'_>>
        ensures asked { IfSome result (λ asked. IsAsked place self.now asked.comparisons.now asked.nulls asked.values) }
        ensures not_asked { result ≡ None → list_any (λ cond. cond.column == place) self.now ≡ false }
    {
        let Some(keys) = keys_of(place, &self.columns[..self.count]) else {
            return None;
        };
        let comparisons = &self.comparisons[..];
        Some(Asked {
            comparisons: &comparisons[usize::from(keys.first)..usize::from(keys.end)],
            nulls: keys.nulls,
            values: keys.values,
        })
    }
}

/// The keys of a column, if there are.
fn keys_of(place: u8, columns: &[ColumnKeys]) -> Option<ColumnKeys>
    ensures found { IfSome result (λ keys. (keys.column ≡ place) × Contains columns.now keys) }
    ensures none { result ≡ None → list_any (λ k. k.column == place) columns.now ≡ false }
{
    'columns: for keys in columns {
        if keys.column == place {
            return Some(*keys);
        }
    }
    None
}

/// Gathers the conditions of each column, in the order of its first one, and answers how many columns they are on.
fn gather(
    conds: &[Cond],
    comparisons: &mut [Cond; MAX_CONDITIONS],
    columns: &mut [ColumnKeys; MAX_CONDITIONS],
) -> usize
    requires { length conds.now ≤ MAX_CONDITIONS }
    ensures { AreGathered conds.now comparisons.new columns.new result }
{
    let mut count = 0;
    let mut end = 0;
    'conds: for at in 0..conds.len() {
        let column = conds[at].column;
        if !is_on_one(column, &conds[..at]) {
            let keys = gathered(column, conds, comparisons, end);
            end = usize::from(keys.end);
            columns[count] = keys;
            count += 1;
        }
    }
    count
}

/// What the conditions ask of a column, if all compare and are on it.
pub(crate) fn asked_alone(place: u8, conds: &[Cond]) -> Option<Asked<'_>>
    ensures { IfSome result (λ asked. IsAsked place conds.now asked.comparisons.now asked.nulls asked.values) }
{
    if !are_comparisons_on(place, conds) {
        return None;
    }
    Some(Asked {
        comparisons: conds,
        nulls: false,
        values: false,
    })
}

/// Whether all conditions compare, and are on the column.
fn are_comparisons_on(place: u8, conds: &[Cond]) -> bool
    ensures { result ≡ list_all (λ cond. (cond.column == place) && compares cond.op) conds.now }
{
    conds.iter().all(|cond| is_comparison_on(place, cond))
}

/// Whether one of the conditions is on the column.
pub(crate) fn is_on_one(place: u8, conds: &[Cond]) -> bool
    ensures { result ≡ list_any (λ cond. cond.column == place) conds.now }
{
    conds.iter().any(|cond| cond.column == place)
}

/// Gathers the conditions on a column: writes the comparisons to `out`, from the place `first` on.
fn gathered(
    column: u8,
    conds: &[Cond],
    out: &mut [Cond; MAX_CONDITIONS],
    first: usize,
) -> ColumnKeys
    requires room { first + length (comparisons column conds.now) ≤ MAX_CONDITIONS }
    ensures column { result.column ≡ column }
    ensures end { result.end ≡ first + length (comparisons column conds.now) }
    ensures keys { IsGathered conds.now out.new result }
    ensures before { take first out.new ≡ take first out.old }
{
    let end = write_comparisons(column, conds, out, first);
    ColumnKeys {
        column,
        first: first as u8,
        end: end as u8,
        nulls: asks_for_nulls(column, conds),
        values: asks_for_values(column, conds),
    }
}

/// Whether an `is null` is among the conditions on the column.
fn asks_for_nulls(place: u8, conds: &[Cond]) -> bool
    ensures { result ≡ asks_for_nulls place conds.now }
{
    conds
        .iter()
        .any(|cond| cond.column == place && is_null(cond.op))
}

/// Whether an `is not null` is.
fn asks_for_values(place: u8, conds: &[Cond]) -> bool
    ensures { result ≡ asks_for_values place conds.now }
{
    conds
        .iter()
        .any(|cond| cond.column == place && is_not_null(cond.op))
}

/// Writes the comparisons on a column to `out`, from the place `first` on, and answers the place behind the last.
fn write_comparisons(place: u8, conds: &[Cond], out: &mut [Cond], first: usize) -> usize
    requires room { first + length (comparisons place conds.now) ≤ length out.old }
    ensures end { result ≡ first + length (comparisons place conds.now) }
    ensures written { take result out.new ≡ take first out.old ++ comparisons place conds.now }
{
    let mut end = first;
    'conds: for cond in conds {
        if is_comparison_on(place, cond) {
            out[end] = *cond;
            end += 1;
        }
    }
    end
}

fn is_comparison_on(place: u8, cond: &Cond) -> bool
    ensures { result ≡ ((cond.now.column == place) && compares cond.now.op) }
{
    cond.column == place && compares(cond.op)
}

fn compares(op: Op) -> bool
    ensures { result ≡ compares op }
{
    !is_null(op) && !is_not_null(op)
}

fn is_null(op: Op) -> bool
    ensures { result ≡ is_null op }
{
    matches!(op, Op::IsNull)
}

fn is_not_null(op: Op) -> bool
    ensures { result ≡ is_not_null op }
{
    matches!(op, Op::NotNull)
}
