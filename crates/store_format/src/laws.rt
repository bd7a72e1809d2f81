//! What is a store, and what is none.

ghost use Rattle.std.specs.Prelude.{List, ℕ, take};
ghost use Rattle.block_model.specs.declared.limits.TheConstants.{PAGE_SIZE};
ghost use Rattle.store_format.specs.ControlPage.{HasControl};
ghost use Rattle.store_layout.specs.DiskLayout.{DiskLayout};
ghost use Rattle.store_format.specs.FreshStore.{IsClosed, IsFormatted};

use crate::{OPEN, write};
use block_model::PAGE_SIZE;
use store_layout::Layout;

/// Bytes whose gate isn't open are no store, of whatever layout.
pub fn a_closed_gate_is_no_store()
    ensures { (layout : DiskLayout) (image : List ℕ) → IsClosed image → HasControl layout (take PAGE_SIZE image) → ⊥ }
{}

/// A new store has the control page of its layout.
pub fn a_new_store_has_its_control_page(layout: &Layout)
    ensures { (image : List ℕ) → IsFormatted layout.now image → HasControl layout.now (take PAGE_SIZE image) }
{
    let mut page = [0u8; PAGE_SIZE];
    write(layout, OPEN, 0, &mut page);
}
