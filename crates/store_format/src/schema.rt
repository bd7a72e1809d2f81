//! All that a control page says behind its head: the sizes, and the tables and indexes.

ghost use Rattle.std.specs.Prelude.{◌≡◌, ◌+◌, ◌≤◌, ◌++◌, length};
ghost use Rattle.block_model.specs.declared.limits.TheConstants.{PAGE_SIZE};
ghost use Rattle.store_format.specs.ControlBytes.{schema_bytes, sizes_bytes};
ghost use Rattle.store_format.specs.ControlPage.{HasNames};
ghost use Rattle.store_format.specs.ControlReading.{Gives, fields_at, schema_at, sizes_at};
ghost use Rattle.store_format.specs.ShortSchema.{IsShort};

use crate::bytes::PageBytes;
use crate::control_fault::ControlFault;
use crate::fields::Unread;
use crate::stored::{read_each, write_each};
use block_model::{Schema, Sizes};
use std::alloc::Global;

/// The bytes in front of the sizes: the gate, the area byte, `BRINSTOR` and the format.
const HEAD: usize = 12;

/// Writes the sizes.
#[tactic(auto, unfolding(crate::specs::ControlBytes::sizes_bytes))]
pub(crate) fn write_sizes(sizes: Sizes, page: &mut PageBytes)
    requires { length page.old + length (sizes_bytes sizes) ≤ PAGE_SIZE }
    ensures { page.new ≡ page.old ++ sizes_bytes sizes }
{
    page.put_u32(sizes.heap_blocks);
    page.put_u32(sizes.index_blocks);
    page.put_u32(sizes.status_blocks);
    page.put_u32(sizes.log_pages);
    page.put_u32(sizes.frames);
}

/// Writes the tables and the indexes.
#[tactic(auto, unfolding(crate::specs::ControlBytes::schema_bytes))]
pub(crate) fn write_schema(schema: &Schema, page: &mut PageBytes)
    requires short { IsShort schema.now }
    requires room { length page.old + length (schema_bytes schema.now) ≤ PAGE_SIZE }
    ensures written { page.new ≡ page.old ++ schema_bytes schema.now }
    ensures names { HasNames schema.now }
{
    page.put_byte(schema.tables.len() as u8);
    page.put_byte(schema.indexes.len() as u8);
    write_each(schema.tables.as_slice(), page);
    write_each(schema.indexes.as_slice(), page);
}

/// Reads the sizes and the schema behind the head, which may be any bytes. Takes the memory of the schema.
#[tactic(auto, unfolding(crate::specs::ControlReading::fields_at))]
pub(crate) fn read_fields(
    alloc: Global,
    unread: &mut Unread<'_>,
) -> Result<(Sizes, Schema), ControlFault>
    ensures { Gives result unread.new (fields_at unread.old) }
{
    unread.skip(HEAD)?;
    let sizes = read_sizes(unread)?;
    let schema = read_schema(alloc, unread)?;
    Ok((sizes, schema))
}

#[tactic(auto, unfolding(crate::specs::ControlReading::sizes_at))]
fn read_sizes(unread: &mut Unread<'_>) -> Result<Sizes, ControlFault>
    ensures { Gives result unread.new (sizes_at unread.old) }
{
    let heap_blocks = unread.u32()?;
    let index_blocks = unread.u32()?;
    let status_blocks = unread.u32()?;
    let log_pages = unread.u32()?;
    let frames = unread.u32()?;
    Ok(Sizes {
        heap_blocks,
        index_blocks,
        status_blocks,
        log_pages,
        frames,
    })
}

#[tactic(auto, unfolding(crate::specs::ControlReading::schema_at))]
fn read_schema(alloc: Global, unread: &mut Unread<'_>) -> Result<Schema, ControlFault>
    ensures { Gives result unread.new (schema_at unread.old) }
{
    let tables = unread.byte()?;
    let indexes = unread.byte()?;
    let tables = read_each(alloc, tables, unread)?;
    let indexes = read_each(alloc, indexes, unread)?;
    Ok(Schema { tables, indexes })
}
