//! Indexes and their columns.

ghost use Rattle.std.specs.Prelude.{◌≡◌, ◌≤◌, length};
ghost use Rattle.store_format.specs.ShortSchema.{IsShortIndex};
ghost use Rattle.store_format.specs.ControlBytes.{class_code, class_hashes, class_parameter, index_bytes, part_bytes};
ghost use Rattle.store_format.specs.ControlPage.{IndexIsNamed};
ghost use Rattle.store_format.specs.ControlReading.{class_of, index_at, part_at};

use crate::bytes::PageBytes;
use crate::control_fault::ControlFault;
use crate::fields::Unread;
use crate::stored::{Stored, read_each, write_each};
use block_model::{Class, Index, Part};
use std::alloc::Global;

impl Stored for Part {
    ghost bytes_of = { part_bytes };

    ghost read_of = { part_at };

    ghost IsShort = { λ _. Unit {0} };

    ghost IsNamed = { λ _. Unit {0} };

    #[tactic(auto, unfolding(crate::specs::ControlBytes::part_bytes))]
    fn write(&self, page: &mut PageBytes) {
        page.put_byte(self.column);
        page.put_byte(class_code(self.class));
        page.put_u16(class_parameter(self.class));
        page.put_byte(class_hashes(self.class));
    }

    #[tactic(auto, unfolding(crate::specs::ControlReading::part_at))]
    fn read(_alloc: Global, unread: &mut Unread<'_>) -> Result<Part, ControlFault> {
        let column = unread.byte()?;
        let code = unread.byte()?;
        let parameter = unread.u16()?;
        let hashes = unread.byte()?;
        match class_of(code, parameter, hashes) {
            Some(class) => Ok(Part { column, class }),
            None => Err(ControlFault::NoStore),
        }
    }
}

impl Stored for Index {
    ghost bytes_of = { index_bytes };

    ghost read_of = { index_at };

    ghost IsShort = { IsShortIndex };

    ghost IsNamed = { IndexIsNamed };

    #[tactic(auto, unfolding(crate::specs::ControlBytes::index_bytes))]
    fn write(&self, page: &mut PageBytes) {
        page.put_name(&self.name);
        page.put_byte(self.table);
        page.put_u32(self.pages_per_range);
        page.put_byte(u8::from(self.auto));
        page.put_byte(self.parts.len() as u8);
        write_each(self.parts.as_slice(), page);
    }

    #[tactic(auto, unfolding(crate::specs::ControlReading::index_at))]
    fn read(alloc: Global, unread: &mut Unread<'_>) -> Result<Index, ControlFault> {
        let name = unread.name()?;
        let table = unread.byte()?;
        let pages_per_range = unread.u32()?;
        let auto = unread.byte()?;
        let count = unread.byte()?;
        let parts = read_each(alloc, count, unread)?;
        Ok(Index {
            name,
            table,
            pages_per_range,
            auto: auto == 1,
            parts,
        })
    }
}

fn class_code(class: Class) -> u8
    ensures { result ≡ class_code class }
{
    match class {
        Class::MinMax => 1,
        Class::Multi { .. } => 2,
        Class::Inclusion => 3,
        Class::Bloom { .. } => 4,
    }
}

fn class_parameter(class: Class) -> u16
    ensures { result ≡ class_parameter class }
{
    match class {
        Class::MinMax | Class::Inclusion => 0,
        Class::Multi { limit } => limit,
        Class::Bloom { bits, .. } => bits,
    }
}

fn class_hashes(class: Class) -> u8
    ensures { result ≡ class_hashes class }
{
    match class {
        Class::MinMax | Class::Multi { .. } | Class::Inclusion => 0,
        Class::Bloom { hashes, .. } => hashes,
    }
}

/// The class of a code, with its parameter and hashes where it has them.
fn class_of(code: u8, parameter: u16, hashes: u8) -> Option<Class>
    ensures { result ≡ class_of code parameter hashes }
{
    match code {
        1 => Some(Class::MinMax),
        2 => Some(Class::Multi { limit: parameter }),
        3 => Some(Class::Inclusion),
        4 => Some(Class::Bloom {
            bits: parameter,
            hashes,
        }),
        _ => None,
    }
}
