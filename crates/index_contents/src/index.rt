//! The relation of an index, and the form of its pages.

ghost use Rattle.std.specs.Prelude.{◌≡◌, ◌<◌, ◌≤◌, List, ℕ, length};
ghost use Rattle.store_layout.specs.DiskLayout.{DiskLayout, relation_blocks};
ghost use Rattle.recovery.specs.Form.TheVariants as forms;
ghost use Rattle.recovery.specs.Forms.{IsPageIn, form_of};
ghost use Rattle.recovery.specs.PageMap.{block_limit};
ghost use Rattle.index_layout.specs.IndexPages.{IsIndexPage};
ghost use Rattle.index_contents.specs.IndexContents.{relation_of};

use recovery::tables_have_forms;
use store_layout::Layout;

/// The relation of the index.
pub fn relation_of(layout: &Layout, index: u8) -> u8
    requires { index < length layout.now.schema.indexes }
    ensures number { result ≡ relation_of layout.now index }
    ensures there { result < length (relation_blocks layout.now) }
    ensures limit { block_limit layout.now result ≡ layout.now.sizes.index_blocks }
    ensures form { form_of layout.now result ≡ forms.Index }
{
    tables_have_forms(layout);
    let tables = table_count(layout);
    tables + index + 1
}

/// How many tables there are.
fn table_count(layout: &Layout) -> u8
    ensures count { result ≡ length layout.now.schema.tables }
    ensures few { result ≤ 8 }
{
    tables_have_forms(layout);
    layout.schema().tables.as_slice().len() as u8
}

/// A page that passes the check of an index's relation is a page of an index. Does nothing.
pub fn index_pages_are_known()
    ensures { (layout : DiskLayout) (relation : ℕ) (page : List ℕ) → form_of layout relation ≡ forms.Index → IsPageIn layout relation page → IsIndexPage page }
{}
