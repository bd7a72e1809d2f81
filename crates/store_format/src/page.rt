//! The control page.

ghost use Rattle.std.specs.Prelude.{ℕ, List, ◌≡◌, ◌%◌, ◌==◌, true, false, [], ◌++◌, length, slice_index, IfOk, IfErr};
ghost use Rattle.block_model.specs.declared.limits.TheConstants.{PAGE_SIZE};
ghost use Rattle.store_layout.specs.DiskLayout.{DiskLayout, disk_size};
ghost use Rattle.store_layout.specs.FirstBrokenRule.{KeepsLimits};
ghost use Rattle.store_format.specs.ControlPage.{HasControl, HasNames, control_bytes, head_bytes, written_bytes};
ghost use Rattle.store_format.specs.ControlReading.{Answers};

use crate::bytes::PageBytes;
use crate::control_fault::ControlFault;
use crate::fields::Unread;
use crate::schema::{read_fields, write_schema, write_sizes};
use block_model::{Schema, Sizes};
use std::alloc::Global;
use store_layout::{FORMAT, Layout, the_first_broken_rule_is_the_least};

/// The gate of a store that is whole. Any other value is closed.
pub const OPEN: u8 = 1;

/// Writes the control page of the layout with this gate and this area byte. Takes no memory.
pub fn write(layout: &Layout, gate: u8, area: u8, out: &mut [u8])
    requires page { length out.old ≡ PAGE_SIZE }
    ensures written { out.new ≡ control_bytes layout.now gate area }
    // Where the gate is open, `read` answers the layout again.
    ensures control { gate ≡ OPEN → HasControl layout.now out.new }
{
    let mut page = PageBytes::new();
    write_layout(layout, gate, area, &mut page);
    layout.known();
    out.copy_from_slice(page.page());
}

/// The layout whose control page these bytes are, on a disk of that many bytes. The bytes may be any. `NoStore` where no
/// layout has them on a disk of that size, `Memory` where memory has run out.
pub fn read(alloc: Global, bytes: &[u8], size: u64) -> Result<Layout, ControlFault>
    ensures control { IfOk result (λ layout. HasControl layout bytes.now) }
    ensures size { IfOk result (λ layout. disk_size layout ≡ size) }
    ensures no_store { IfErr result (λ fault. fault ≡ ControlFault.NoStore → (layout : DiskLayout) → HasControl layout bytes.now → disk_size layout ≡ size → ⊥) }
{
    let layout = match layout_of(alloc, bytes) {
        Ok(layout) => layout,
        Err(fault) => return Err(fault),
    };
    if layout.disk_size() != size {
        return Err(ControlFault::NoStore);
    }
    if !is_control_of(&layout, bytes) {
        return Err(ControlFault::NoStore);
    }
    Ok(layout)
}

/// Whether the gate of a control page is open. Bytes without one count as closed.
pub fn is_open(bytes: &[u8]) -> bool
    ensures { result ≡ (slice_index bytes.now 0 == OPEN) }
{
    match bytes {
        [gate, ..] => *gate == OPEN,
        [] => false,
    }
}

/// The area of the log that a control page chooses: 0 where its area byte is even, and 1 where it is odd.
pub fn area_of(bytes: &[u8]) -> u8
    ensures { result ≡ slice_index bytes.now 1 % 2 }
{
    area_byte(bytes) % 2
}

/// No page is the control page of two layouts.
pub fn one_layout()
    ensures { (page : List ℕ) (a b : DiskLayout) → HasControl a page → HasControl b page → a ≡ b }
{}

/// The byte that chooses an area, and 0 where there is none.
fn area_byte(bytes: &[u8]) -> u8
    ensures { result ≡ slice_index bytes.now 1 }
{
    match bytes {
        [_, area, ..] => *area,
        _ => 0,
    }
}

/// The one layout of which this may be the control page.
fn layout_of(alloc: Global, bytes: &[u8]) -> Result<Layout, ControlFault>
    ensures { (layout : DiskLayout) → HasControl layout bytes.now → Answers layout result }
{
    let mut unread = Unread::new(bytes);
    match read_fields(alloc, &mut unread) {
        Ok((sizes, schema)) => lawful(schema, sizes),
        Err(fault) => Err(fault),
    }
}

/// The layout of these tables, indexes and sizes, where they keep the limits.
fn lawful(schema: Schema, sizes: Sizes) -> Result<Layout, ControlFault>
    ensures { KeepsLimits schema sizes → Answers (record { schema = schema; sizes = sizes }) result }
{
    the_first_broken_rule_is_the_least(&schema, sizes);
    match Layout::new(schema, sizes) {
        Ok(layout) => Ok(layout),
        Err(_) => Err(ControlFault::NoStore),
    }
}

/// Whether the bytes are the control page of the layout.
fn is_control_of(layout: &Layout, bytes: &[u8]) -> bool
    ensures same { result ≡ true → HasControl layout.now bytes.now }
    ensures other { result ≡ false → HasControl layout.now bytes.now → ⊥ }
{
    let mut page = PageBytes::new();
    write_layout(layout, OPEN, area_byte(bytes), &mut page);
    layout.known();
    page.page() == bytes
}

/// Writes all that stands in front of the zeros.
#[tactic(auto, unfolding(crate::specs::ControlPage::written_bytes))]
fn write_layout(layout: &Layout, gate: u8, area: u8, page: &mut PageBytes)
    requires { page.old ≡ [] }
    ensures written { page.new ≡ written_bytes layout.now gate area }
    ensures names { HasNames layout.now.schema }
{
    layout.known();
    write_head(gate, area, page);
    write_sizes(layout.sizes(), page);
    write_schema(layout.schema(), page);
}

fn write_head(gate: u8, area: u8, page: &mut PageBytes)
    requires { page.old ≡ [] }
    ensures { page.new ≡ head_bytes gate area }
{
    page.put(&[gate, area]);
    page.put(b"BRINSTOR");
    page.put_u16(FORMAT);
}
