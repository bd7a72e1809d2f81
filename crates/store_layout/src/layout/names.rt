//! The names of tables, indexes and columns: whether one is among them, and whether they are distinct.

ghost use Rattle.std.specs.Prelude.{◌≡◌, ◌==◌, ℕ, List, not};
ghost use Rattle.std.specs.List.{list_all, list_any};
ghost use Rattle.std.specs.Str.{bytes_eq};
ghost use Rattle.store_layout.specs.Limits.{are_distinct, has_name, relation_names};

use block_model::{Column, Index, Part, Schema, Table};

/// What has a name.
pub(super) trait Named {
    /// The bytes of its name.
    ghost name_of: { Self → List ℕ };

    /// The bytes of its name.
    fn name(&self) -> &[u8]
        ensures { result.now ≡ name_of self.now };
}

impl Named for Column {
    ghost name_of = { λ column. column.name };

    fn name(&self) -> &[u8] {
        self.name.as_bytes()
    }
}

impl Named for Table {
    ghost name_of = { λ table. table.name };

    fn name(&self) -> &[u8] {
        self.name.as_bytes()
    }
}

impl Named for Index {
    ghost name_of = { λ index. index.name };

    fn name(&self) -> &[u8] {
        self.name.as_bytes()
    }
}

/// Whether a table or an index has the name.
#[tactic(auto, using(crate::proofs::NameLists::any_of_both))]
pub(super) fn has_relation(schema: &Schema, name: &[u8]) -> bool
    ensures { result ≡ has_name name.now (relation_names schema.now) }
{
    has_name(schema.tables.as_slice(), name) || has_name(schema.indexes.as_slice(), name)
}

/// Whether no two tables or indexes have one name.
#[tactic(auto, using(crate::proofs::NameLists::distinct_in_both))]
pub(super) fn relations_are_distinct(schema: &Schema) -> bool
    ensures { result ≡ are_distinct bytes_eq (relation_names schema.now) }
{
    let tables = schema.tables.as_slice();
    let indexes = schema.indexes.as_slice();
    names_are_distinct(tables) && names_are_distinct(indexes) && share_no_name(tables, indexes)
}

fn share_no_name(tables: &[Table], indexes: &[Index]) -> bool
    ensures { result ≡ list_all (λ t. not (list_any (λ i. bytes_eq t.name i.name) indexes.now)) tables.now }
{
    tables.iter().all(|table| !has_name(indexes, table.name()))
}

fn has_name<T: Named>(items: &[T], name: &[u8]) -> bool
    ensures { result ≡ list_any (λ item. bytes_eq name.now (T.name_of item)) items.now }
{
    items.iter().any(|item| name == item.name())
}

/// Whether no two of them have one name.
pub(super) fn names_are_distinct<T: Named>(items: &[T]) -> bool
    ensures { result ≡ are_distinct (λ a b. bytes_eq (T.name_of a) (T.name_of b)) items.now }
{
    let mut rest = items;
    'items: while let [first, others @ ..] = rest {
        if has_name(others, first.name()) {
            return false;
        }
        rest = others;
    }
    true
}

fn has_column(parts: &[Part], column: u8) -> bool
    ensures { result ≡ list_any (λ p. column == p.column) parts.now }
{
    parts.iter().any(|part| column == part.column)
}

/// Whether no two of them are one column.
pub(super) fn columns_are_distinct(parts: &[Part]) -> bool
    ensures { result ≡ are_distinct (λ a b. a.column == b.column) parts.now }
{
    let mut rest = parts;
    'parts: while let [first, others @ ..] = rest {
        if has_column(others, first.column) {
            return false;
        }
        rest = others;
    }
    true
}
