//! How many bytes a row and a range tuple take.

ghost use Rattle.block_model.specs.declared.limits.TheConstants.{MAX_COLUMNS, PAGE_ROOM};
ghost use Rattle.std.specs.Prelude.{◌≡◌, ◌≤◌, ◌/◌, length, map, sum_by};
ghost use Rattle.block_model.specs.IndexedColumns.{columns_of, kind_at};
ghost use Rattle.block_model.specs.RowSize.{row_size, value_size};
ghost use Rattle.block_model.specs.TupleSize.{summary_size, part_size, tuple_size};

use crate::limits::PAGE_ROOM;
use crate::schema::{Class, Column, Index, Part, Schema};
use crate::value::Kind;

/// The columns of the index's table, and none where that isn't declared.
pub fn columns_of<'a>(schema: &'a Schema, index: &Index) -> &'a [Column]
    ensures { result.now ≡ columns_of schema.now index.now }
{
    match schema.tables.as_slice().get(usize::from(index.table)) {
        Some(table) => table.columns.as_slice(),
        None => &[],
    }
}

/// The kind of the column of that number; a column that isn't there counts as `int8`.
pub fn kind_at(columns: &[Column], at: u8) -> Kind
    ensures { result ≡ kind_at columns.now at }
{
    match columns.get(usize::from(at)) {
        Some(column) => column.kind,
        None => Kind::Int,
    }
}

/// How many rows of these columns fit a page; none where there are too many columns.
pub fn most_rows(columns: &[Column]) -> u16
    ensures { result ≡ PAGE_ROOM / row_size (map (λ c. c.kind) columns.now) }
{
    if columns.len() > PAGE_ROOM {
        return 0;
    }
    (PAGE_ROOM as u64 / row_size(columns)) as u16
}

fn row_size(columns: &[Column]) -> u64
    requires { length columns.now ≤ PAGE_ROOM }
    ensures { result ≡ row_size (map (λ c. c.kind) columns.now) }
{
    22 + u64::from(values_size(columns))
}

fn values_size(columns: &[Column]) -> u32
    requires { length columns.now ≤ PAGE_ROOM }
    ensures { result ≡ sum_by value_size (map (λ c. c.kind) columns.now) }
{
    columns.iter().map(|column| value_size(column.kind)).sum()
}

fn value_size(kind: Kind) -> u32
    ensures size { result ≡ value_size kind }
    ensures small { result ≤ 17 }
{
    match kind {
        Kind::Int => 8,
        Kind::Span => 17,
        Kind::Net => 6,
    }
}

/// The greatest number of bytes of a range tuple.
pub fn tuple_size(columns: &[Column], parts: &[Part]) -> u64
    requires { length parts.now ≤ MAX_COLUMNS }
    ensures { result ≡ tuple_size columns.now parts.now }
{
    5 + u64::from(parts_size(columns, parts))
}

fn parts_size(columns: &[Column], parts: &[Part]) -> u32
    requires { length parts.now ≤ MAX_COLUMNS }
    ensures { result ≡ sum_by (part_size columns.now) parts.now }
{
    parts.iter().map(|part| part_size(columns, part)).sum()
}

fn part_size(columns: &[Column], part: &Part) -> u32
    ensures size { result ≡ part_size columns.now part.now }
    ensures small { result ≤ 589820 }
{
    3 + summary_size(part.class, kind_at(columns, part.column))
}

fn summary_size(class: Class, kind: Kind) -> u32
    ensures size { result ≡ summary_size class kind }
    ensures small { result ≤ 589817 }
{
    match class {
        Class::MinMax => 16,
        Class::Multi { limit } => 2 + 9 * u32::from(limit),
        Class::Inclusion if kind == Kind::Net => 7,
        Class::Inclusion => 18,
        Class::Bloom { bits, hashes: _ } => u32::from(bits) / 8,
    }
}
