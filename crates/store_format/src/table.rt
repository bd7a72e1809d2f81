//! Tables and their columns.

ghost use Rattle.std.specs.Prelude.{◌≡◌, ◌≤◌, length, option_map};
ghost use Rattle.store_format.specs.ShortSchema.{IsShortTable};
ghost use Rattle.store_format.specs.ControlBytes.{column_bytes, kind_code, table_bytes};
ghost use Rattle.store_format.specs.ControlPage.{ColumnIsNamed, TableIsNamed};
ghost use Rattle.store_format.specs.ControlReading.{column_at, kind_of, table_at};

use crate::bytes::PageBytes;
use crate::control_fault::ControlFault;
use crate::fields::Unread;
use crate::stored::{Stored, read_each, write_each};
use block_model::{Column, Kind, Table};
use std::alloc::Global;

impl Stored for Column {
    ghost bytes_of = { column_bytes };

    ghost read_of = { column_at };

    ghost IsShort = { λ _. Unit {0} };

    ghost IsNamed = { ColumnIsNamed };

    #[tactic(auto, unfolding(crate::specs::ControlBytes::column_bytes))]
    fn write(&self, page: &mut PageBytes) {
        page.put_name(&self.name);
        page.put_byte(kind_code(self.kind));
    }

    #[tactic(auto, unfolding(crate::specs::ControlReading::column_at))]
    fn read(_alloc: Global, unread: &mut Unread<'_>) -> Result<Column, ControlFault> {
        let name = unread.name()?;
        let code = unread.byte()?;
        match kind_of(code) {
            Some(kind) => Ok(Column { name, kind }),
            None => Err(ControlFault::NoStore),
        }
    }
}

impl Stored for Table {
    ghost bytes_of = { table_bytes };

    ghost read_of = { table_at };

    ghost IsShort = { IsShortTable };

    ghost IsNamed = { TableIsNamed };

    #[tactic(auto, unfolding(crate::specs::ControlBytes::table_bytes))]
    fn write(&self, page: &mut PageBytes) {
        page.put_name(&self.name);
        page.put_u16(self.rows_per_page);
        page.put_byte(self.columns.len() as u8);
        write_each(self.columns.as_slice(), page);
    }

    #[tactic(auto, unfolding(crate::specs::ControlReading::table_at))]
    fn read(alloc: Global, unread: &mut Unread<'_>) -> Result<Table, ControlFault> {
        let name = unread.name()?;
        let rows_per_page = unread.u16()?;
        let count = unread.byte()?;
        let columns = read_each(alloc, count, unread)?;
        Ok(Table {
            name,
            rows_per_page,
            columns,
        })
    }
}

fn kind_code(kind: Kind) -> u8
    ensures { result ≡ kind_code kind }
{
    match kind {
        Kind::Int => 1,
        Kind::Span => 2,
        Kind::Net => 3,
    }
}

fn kind_of(code: u8) -> Option<Kind>
    ensures { result ≡ kind_of code }
{
    match code {
        1 => Some(Kind::Int),
        2 => Some(Kind::Span),
        3 => Some(Kind::Net),
        _ => None,
    }
}
