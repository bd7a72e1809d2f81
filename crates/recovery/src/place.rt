//! Places of pages, and their forms.

ghost use Rattle.std.specs.Prelude.{◌≡◌, ◌<◌, length, true, false};
ghost use Rattle.page_layout.specs.PageContents.{IsForm};
ghost use Rattle.page_map.specs.Forms.{form_of};
ghost use Rattle.store_layout.specs.DiskLayout.{IsPlace, relation_blocks};

use block_model::Place;
use page_layout::{Form, heap_form};
use page_map::tables_have_forms;
use store_layout::{Layout, blocks_of, count_relations};

/// Whether the layout has the place.
pub fn is_place(layout: &Layout, place: Place) -> bool
    ensures is { result ≡ true → IsPlace layout.now place }
    ensures isnt { result ≡ false → IsPlace layout.now place → ⊥ }
{
    if place.relation >= count_relations(layout) {
        return false;
    }
    place.block < blocks_of(layout, place.relation)
}

/// The form of the pages of a relation.
pub fn form_of(layout: &Layout, relation: u8) -> Form
    requires { relation < length (relation_blocks layout.now) }
    ensures form { result ≡ form_of layout.now relation }
    ensures is { IsForm result }
{
    tables_have_forms(layout);
    let tables = layout.schema().tables.as_slice();
    let relation = usize::from(relation);
    if relation == 0 {
        return Form::Status;
    }
    if relation > tables.len() {
        return Form::Index;
    }
    heap_form(&tables[relation - 1])
}
