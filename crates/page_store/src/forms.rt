//! The forms of the pages of a layout.

ghost use Rattle.std.specs.Prelude.{◌≡◌, ◌<◌, length, IfOk};
ghost use Rattle.store_layout.specs.DiskLayout.{relation_blocks};
ghost use Rattle.page_layout.specs.PageContents.{IsForm};
ghost use Rattle.page_map.specs.Forms.{form_of, forms_of};

use block_model::NoMemory;
use page_layout::{Form, heap_form};
use page_map::tables_have_forms;
use std::alloc::Global;
use store_layout::Layout;

/// How many relations come before the tables.
const STATUSES: usize = 1;

/// The form of each relation: the statuses, the tables and the indexes, in order. `Err` is want of memory.
pub fn forms_of(alloc: Global, layout: &Layout) -> Result<Vec<Form>, NoMemory>
    ensures { IfOk result (λ forms. forms.items ≡ forms_of layout.now) }
{
    tables_have_forms(layout);
    let tables = layout.schema().tables.as_slice();
    let indexes = layout.schema().indexes.as_slice();
    let mut kinds = Vec::with_capacity(alloc, STATUSES + tables.len() + indexes.len())?;
    kinds.push_reserved(Form::Status);
    'tables: for table in tables {
        kinds.push_reserved(heap_form(table));
    }
    'indexes: for _index in indexes {
        kinds.push_reserved(Form::Index);
    }
    Ok(kinds)
}

/// The form of the pages of the relation, among those of the layout.
pub fn form_at<'a>(forms: &'a Vec<Form>, layout: &Layout, relation: u8) -> &'a Form
    requires relation { relation < length (relation_blocks layout.now) }
    requires forms { forms.now.items ≡ forms_of layout.now }
    ensures form { result.now ≡ form_of layout.now relation }
    ensures is { IsForm result.now }
{
    tables_have_forms(layout);
    &forms[usize::from(relation)]
}
