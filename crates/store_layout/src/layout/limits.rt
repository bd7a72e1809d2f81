//! The limits of tables, indexes and sizes: a function for each rule, and which of them is broken first.

ghost use Rattle.std.specs.Prelude.{◌≡◌, ◌≤◌, nat_lt, nat_le, All, length};
ghost use Rattle.std.specs.List.{list_all};
ghost use Rattle.block_model.specs.declared.limits.TheConstants.{MAX_COLUMNS, MAX_TUPLE};
ghost use Rattle.block_model.specs.IndexedColumns.{columns_of};
ghost use Rattle.block_model.specs.TupleSize.{tuple_size};
ghost use Rattle.store_layout.specs.FirstBrokenRule.{first_broken_rule};
ghost use Rattle.store_layout.specs.Limits.{has_lawful_tables, has_lawful_columns, has_lawful_indexes, has_lawful_rows_per_page, has_lawful_pages_per_range, has_lawful_classes, has_lawful_tuples};
ghost use Rattle.store_layout.specs.Limits.{has_lawful_heap_blocks, has_lawful_index_blocks, has_lawful_status_blocks, has_lawful_log_pages, has_lawful_frames};
ghost use Rattle.block_model.specs.ClassLimits.{is_within, takes_kind, has_lawful_parameters, class_is_lawful};
ghost use Rattle.store_layout.specs.Limits.{columns_are_lawful, parts_are_lawful, is_on_a_table, rows_fit};

use super::names::{
    columns_are_distinct, has_relation, names_are_distinct, relations_are_distinct,
};
use block_model::{
    Class, Column, Index, Kind, MAX_TUPLE, Part, Schema, Sizes, Table, columns_of, kind_at,
    most_rows, tuple_size,
};

/// The number of the first rule that doesn't hold, where there is one.
#[tactic(auto, unfolding(crate::specs::FirstBrokenRule::first_broken_rule))]
pub(super) fn first_broken_rule(schema: &Schema, sizes: Sizes) -> Option<u8>
    ensures { result ≡ first_broken_rule schema.now sizes }
{
    if !has_lawful_tables(schema) {
        Some(1)
    } else if !has_lawful_columns(schema) {
        Some(2)
    } else if !has_lawful_indexes(schema) {
        Some(3)
    } else if !has_lawful_rows_per_page(schema) {
        Some(4)
    } else if !has_lawful_pages_per_range(schema) {
        Some(5)
    } else if !has_lawful_classes(schema) {
        Some(6)
    } else if !has_lawful_tuples(schema) {
        Some(7)
    } else if !has_lawful_heap_blocks(sizes) {
        Some(8)
    } else if !has_lawful_index_blocks(sizes) {
        Some(9)
    } else if !has_lawful_status_blocks(sizes) {
        Some(10)
    } else if !has_lawful_log_pages(sizes) {
        Some(11)
    } else if !has_lawful_frames(sizes) {
        Some(12)
    } else {
        None
    }
}

fn has_lawful_tables(schema: &Schema) -> bool
    ensures { result ≡ has_lawful_tables schema.now }
{
    is_within(1, 8, schema.tables.len() as u64)
        && relations_are_distinct(schema)
        && !has_relation(schema, b"status")
}

fn has_lawful_columns(schema: &Schema) -> bool
    ensures { result ≡ has_lawful_columns schema.now }
{
    let tables = schema.tables.as_slice();
    let indexes = schema.indexes.as_slice();
    have_lawful_columns(tables) && have_lawful_parts(indexes)
}

fn have_lawful_columns(tables: &[Table]) -> bool
    ensures { result ≡ list_all columns_are_lawful tables.now }
{
    tables.iter().all(|table| columns_are_lawful(table))
}

fn columns_are_lawful(table: &Table) -> bool
    ensures { result ≡ columns_are_lawful table.now }
{
    let columns = table.columns.as_slice();
    is_within(1, 8, columns.len() as u64) && names_are_distinct(columns)
}

fn have_lawful_parts(indexes: &[Index]) -> bool
    ensures { result ≡ list_all parts_are_lawful indexes.now }
{
    indexes.iter().all(|index| parts_are_lawful(index))
}

fn parts_are_lawful(index: &Index) -> bool
    ensures { result ≡ parts_are_lawful index.now }
{
    let parts = index.parts.as_slice();
    is_within(1, 8, parts.len() as u64) && columns_are_distinct(parts)
}

fn has_lawful_indexes(schema: &Schema) -> bool
    ensures { result ≡ has_lawful_indexes schema.now }
{
    let indexes = schema.indexes.as_slice();
    indexes.len() <= 8 && are_on_tables(schema, indexes)
}

fn are_on_tables(schema: &Schema, indexes: &[Index]) -> bool
    ensures { result ≡ list_all (is_on_a_table schema.now) indexes.now }
{
    indexes.iter().all(|index| is_on_a_table(schema, index))
}

fn is_on_a_table(schema: &Schema, index: &Index) -> bool
    ensures { result ≡ is_on_a_table schema.now index.now }
{
    let columns = columns_of(schema, index);
    usize::from(index.table) < schema.tables.len()
        && are_columns(index.parts.as_slice(), columns.len())
}

fn are_columns(parts: &[Part], count: usize) -> bool
    ensures { result ≡ list_all (λ p. nat_lt p.column count) parts.now }
{
    parts.iter().all(|part| usize::from(part.column) < count)
}

fn has_lawful_rows_per_page(schema: &Schema) -> bool
    ensures { result ≡ has_lawful_rows_per_page schema.now }
{
    let tables = schema.tables.as_slice();
    tables.iter().all(|table| rows_fit(table))
}

fn rows_fit(table: &Table) -> bool
    ensures { result ≡ rows_fit table.now }
{
    let columns = table.columns.as_slice();
    is_within(
        1,
        u64::from(most_rows(columns)),
        u64::from(table.rows_per_page),
    )
}

fn has_lawful_pages_per_range(schema: &Schema) -> bool
    ensures { result ≡ has_lawful_pages_per_range schema.now }
{
    let indexes = schema.indexes.as_slice();
    indexes.iter().all(|index| is_within(1, 131072, u64::from(index.pages_per_range)))
}

fn has_lawful_classes(schema: &Schema) -> bool
    ensures { result ≡ has_lawful_classes schema.now }
{
    let indexes = schema.indexes.as_slice();
    indexes.iter().all(|index| classes_are_lawful(
        columns_of(schema, index),
        index.parts.as_slice(),
    ))
}

fn classes_are_lawful(columns: &[Column], parts: &[Part]) -> bool
    ensures { result ≡ list_all (class_is_lawful columns.now) parts.now }
{
    parts.iter().all(|part| class_is_lawful(columns, part))
}

fn class_is_lawful(columns: &[Column], part: &Part) -> bool
    ensures { result ≡ class_is_lawful columns.now part.now }
{
    takes_kind(part.class, kind_at(columns, part.column)) && has_lawful_parameters(part.class)
}

fn takes_kind(class: Class, kind: Kind) -> bool
    ensures { result ≡ takes_kind class kind }
{
    match class {
        Class::MinMax | Class::Multi { limit: _ } => kind == Kind::Int,
        Class::Inclusion => kind != Kind::Int,
        Class::Bloom { bits: _, hashes: _ } => kind != Kind::Span,
    }
}

fn has_lawful_parameters(class: Class) -> bool
    ensures { result ≡ has_lawful_parameters class }
{
    match class {
        Class::MinMax | Class::Inclusion => true,
        Class::Multi { limit } => is_within(8, 256, u64::from(limit)),
        Class::Bloom { bits, hashes } => is_within(64, 16384, u64::from(bits))
            && bits % 8 == 0
            && is_within(1, 16, u64::from(hashes)),
    }
}

fn has_lawful_tuples(schema: &Schema) -> bool
    requires { All (λ i. length i.parts ≤ MAX_COLUMNS) schema.now.indexes }
    ensures { result ≡ has_lawful_tuples schema.now }
{
    let indexes = schema.indexes.as_slice();
    indexes.iter().all(|index| tuple_fits(columns_of(schema, index), index.parts.as_slice()))
}

fn tuple_fits(columns: &[Column], parts: &[Part]) -> bool
    requires { length parts.now ≤ MAX_COLUMNS }
    ensures { result ≡ nat_le (tuple_size columns.now parts.now) MAX_TUPLE }
{
    tuple_size(columns, parts) <= MAX_TUPLE
}

fn has_lawful_heap_blocks(sizes: Sizes) -> bool
    ensures { result ≡ has_lawful_heap_blocks sizes }
{
    is_within(1, 131072, u64::from(sizes.heap_blocks))
}

fn has_lawful_index_blocks(sizes: Sizes) -> bool
    ensures { result ≡ has_lawful_index_blocks sizes }
{
    is_within(3, 16384, u64::from(sizes.index_blocks))
}

fn has_lawful_status_blocks(sizes: Sizes) -> bool
    ensures { result ≡ has_lawful_status_blocks sizes }
{
    is_within(1, 64, u64::from(sizes.status_blocks))
}

fn has_lawful_log_pages(sizes: Sizes) -> bool
    ensures { result ≡ has_lawful_log_pages sizes }
{
    is_within(16, 4096, u64::from(sizes.log_pages))
}

fn has_lawful_frames(sizes: Sizes) -> bool
    ensures { result ≡ has_lawful_frames sizes }
{
    is_within(16, 65536, u64::from(sizes.frames))
}

fn is_within(low: u64, high: u64, n: u64) -> bool
    ensures { result ≡ is_within low high n }
{
    low <= n && n <= high
}
