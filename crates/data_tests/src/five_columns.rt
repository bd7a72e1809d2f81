//! Range tuples of an index with a column of each class.

ghost use Rattle.std.specs.Prelude.{◌≡◌, ◌<◌, ◌≤◌, true, length, IfOk};
ghost use Rattle.std.specs.List.{list_all};
ghost use Rattle.block_model.specs.declared.limits.TheConstants.{MAX_TUPLE};
ghost use Rattle.block_model.specs.ClassLimits.{class_is_lawful};
ghost use Rattle.block_model.specs.TupleSize.{tuple_size};
ghost use Rattle.data_tests.specs.FiveColumns.{five_parts};
ghost use Rattle.range_tuple.specs.Tuples.{empty_placeholder, parts_of};

use block_model::{
    Class, Column, Columns, Index, Indexes, Kind, Name, Net, NoMemory, Part, Parts, Schema, Span8,
    Table, Tables, Value,
};
use range_tuple::RangeTuple;
use std::alloc::Global;
use std::process::Abort;

const MINMAX: Part = Part {
    column: 0,
    class: Class::MinMax,
};

const MULTI: Part = Part {
    column: 1,
    class: Class::Multi { limit: 8 },
};

const RANGES: Part = Part {
    column: 2,
    class: Class::Inclusion,
};

const NETWORKS: Part = Part {
    column: 3,
    class: Class::Inclusion,
};

const BLOOM: Part = Part {
    column: 4,
    class: Class::Bloom {
        bits: 64,
        hashes: 2,
    },
};

/// The placeholder of range 0 of an index with these parts on a table with these columns.
fn of_index(
    rt: &impl Abort,
    alloc: Global,
    columns: Columns,
    parts: Parts,
) -> Result<RangeTuple, NoMemory>
    requires some { 0 < length parts }
    requires classes { list_all (class_is_lawful columns) parts ≡ true }
    requires size { tuple_size columns parts ≤ MAX_TUPLE }
    ensures { IfOk result (λ t. t ≡ empty_placeholder 0 columns parts) }
{
    let name = Name::new(b"n").expect(rt, "a name");
    let mut tables = Tables::new(alloc);
    tables.push(Table {
        name,
        rows_per_page: 1,
        columns,
    })?;
    let index = Index {
        name,
        table: 0,
        pages_per_range: 1,
        auto: false,
        parts,
    };
    let schema = Schema {
        tables,
        indexes: Indexes::new(alloc),
    };
    RangeTuple::new(alloc, &index, &schema, 0)
}

/// The placeholder of range 0 of the index.
pub(crate) fn placeholder(rt: &impl Abort, alloc: Global) -> Result<RangeTuple, NoMemory>
    ensures { IfOk result (λ t. parts_of t.columns ≡ five_parts) }
{
    let name = Name::new(b"n").expect(rt, "a name");
    let mut columns = Columns::new(alloc);
    columns.push(Column {
        name,
        kind: Kind::Int,
    })?;
    columns.push(Column {
        name,
        kind: Kind::Int,
    })?;
    columns.push(Column {
        name,
        kind: Kind::Span,
    })?;
    columns.push(Column {
        name,
        kind: Kind::Net,
    })?;
    columns.push(Column {
        name,
        kind: Kind::Int,
    })?;
    let mut parts = Parts::new(alloc);
    parts.push(MINMAX)?;
    parts.push(MULTI)?;
    parts.push(RANGES)?;
    parts.push(NETWORKS)?;
    parts.push(BLOOM)?;
    of_index(rt, alloc, columns, parts)
}

/// Adds a row of a number in three columns, a range and a network.
pub(crate) fn add_values(tuple: &mut RangeTuple, n: i64, span: Span8, net: Net) -> bool
    requires { parts_of tuple.old.columns ≡ five_parts }
    ensures { parts_of tuple.new.columns ≡ five_parts }
{
    tuple.add_row(&[
        Value::Int(n),
        Value::Int(n),
        Value::Span(span),
        Value::Net(net),
        Value::Int(n),
    ])
}

/// Adds a row of nulls.
pub(crate) fn add_nulls(tuple: &mut RangeTuple) -> bool
    requires { parts_of tuple.old.columns ≡ five_parts }
    ensures { parts_of tuple.new.columns ≡ five_parts }
{
    tuple.add_row(&[Value::Null; 5])
}
