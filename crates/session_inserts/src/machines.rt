//! The machine of an insert, and its memory.

ghost use Rattle.std.specs.Prelude.{◌≡◌, ◌+◌, ◌^◌, ◌<◌, None, Some, length, IsSome, IsSomeAnd, IfSome, OnOk, OnErr};
ghost use Rattle.heap_rows.specs.Heaps.{kinds_at};
ghost use Rattle.page_layout.specs.RowBytes.{HaveKinds};
ghost use Rattle.snapshot_core.specs.StoredVersions.{transaction_of};
ghost use Rattle.brin_insert.specs.Inserts.{IsInsertFor};
ghost use Rattle.transactions.specs.Sessions.{next_row_of};
ghost use Rattle.transactions.specs.TransactionsState.{OfOpen};

use block_model::{NoMemory, Row, Values};
use brin_insert::Insert;
use disk_trait::Disk;
use session_parts::Parts;
use std::alloc::Global;
use store_layout::Layout;

/// The machine becomes that of the session's next row, which it puts into the table, with one entry of the journal promised to it.
/// `Err` is want of memory, and leaves the parts as they were.
pub(crate) fn machine_for<D: Disk + Drop>(
    parts: &mut Parts<D>,
    session: u32,
    table: u8,
    values: &Values,
    machine: &mut Option<Insert>,
) -> Result<(), NoMemory>
    requires open { IsSome (transaction_of parts.old.transactions.opens session) }
    requires table { table < length parts.old.pages.layout.schema.tables }
    requires kinds { HaveKinds (kinds_at parts.old.pages.layout table) values.now }
    requires machine { IfSome machine.old (IsInsertFor parts.old.pages.layout) }
    ensures made { OnOk result (IsSomeAnd machine.new (IsInsertFor parts.old.pages.layout)) }
    ensures nowhere { OnOk result (IfSome machine.new (λ insert. insert.place ≡ None)) }
    ensures row { OnOk result (IfSome machine.new (λ insert. (insert.row.table ≡ table) × (insert.row.values ≡ values.now))) }
    ensures id { OnOk result (IfSome machine.new (λ insert. OfOpen parts.old.transactions session (λ o. next_row_of o ≡ Some insert.row.id))) }
    ensures number { OnOk result (IsSomeAnd (transaction_of parts.old.transactions.opens session) (λ o. o.next_k + 1 < 2 ^ 32)) }
    ensures entries { parts.new.journal.entries ≡ parts.old.journal.entries }
    ensures promised { OnOk result (parts.new.journal.promised ≡ parts.old.journal.promised + 1) }
    ensures same { OnErr result (parts.new.journal.promised ≡ parts.old.journal.promised) }
    ensures rest { parts.new ≡ record parts.old { journal = parts.new.journal } }
    ensures machine { IfSome machine.new (IsInsertFor parts.old.pages.layout) }
{
    let Some(id) = parts.transactions.next_row(session) else {
        return Err(NoMemory);
    };
    let row = Row {
        table,
        id,
        values: *values,
    };
    let Ok(()) = begun(parts.alloc, row, parts.pages.layout(), machine) else {
        return Err(NoMemory);
    };
    parts.journal.promise(1)?;
    Ok(())
}

/// The machine begins the row where it is of the row's table, and else a new one takes its place.
fn begun(
    alloc: Global,
    row: Row,
    layout: &Layout,
    machine: &mut Option<Insert>,
) -> Result<(), NoMemory>
    requires table { row.table < length layout.now.schema.tables }
    requires kinds { HaveKinds (kinds_at layout.now row.table) row.values }
    requires machine { IfSome machine.old (IsInsertFor layout.now) }
    ensures made { OnOk result (IsSomeAnd machine.new (IsInsertFor layout.now)) }
    ensures begins { OnOk result (IfSome machine.new (λ insert. (insert.row ≡ row) × (insert.place ≡ None))) }
    ensures machine { IfSome machine.new (IsInsertFor layout.now) }
{
    if let Some(insert) = machine {
        if insert.row().table == row.table {
            insert.begin(row, layout);
            return Ok(());
        }
    }
    match replaced(alloc, row, layout, machine) {
        Ok(()) => Ok(()),
        Err(refusal) => Err(refusal),
    }
}

/// A new machine begins the row, in place of the other.
fn replaced(
    alloc: Global,
    row: Row,
    layout: &Layout,
    machine: &mut Option<Insert>,
) -> Result<(), NoMemory>
    requires table { row.table < length layout.now.schema.tables }
    requires kinds { HaveKinds (kinds_at layout.now row.table) row.values }
    requires machine { IfSome machine.old (IsInsertFor layout.now) }
    ensures made { OnOk result (IsSomeAnd machine.new (IsInsertFor layout.now)) }
    ensures begins { OnOk result (IfSome machine.new (λ insert. (insert.row ≡ row) × (insert.place ≡ None))) }
    ensures machine { IfSome machine.new (IsInsertFor layout.now) }
{
    *machine = Some(Insert::new(alloc, row, layout)?);
    Ok(())
}
