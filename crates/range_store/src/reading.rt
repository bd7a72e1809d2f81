//! Reading the tuple at a spot.

ghost use Rattle.std.specs.Prelude.{◌≡◌, ◌<◌, ◌≤◌, ℕ, List, Some, None, length, IfOk, IfErr, IfSome};
ghost use Rattle.std.specs.Borrow.{sem};
ghost use Rattle.std.specs.Io.BufRead.{Rests};
ghost use Rattle.block_model.specs.declared.limits.TheConstants.{PAGE_SIZE};
ghost use Rattle.page_layout.specs.declared.page.Form.TheVariants as forms;
ghost use Rattle.page_map.specs.Forms.{form_of};
ghost use Rattle.page_map.specs.Keeps.{Keeps, Tells, Untold};
ghost use Rattle.page_map.specs.Outcome.{IsReopen, NamesPage, Outcome};
ghost use Rattle.page_store.specs.Survives.{Survives};
ghost use Rattle.page_store.specs.contracts.store.PageStore.{the_row};
ghost use Rattle.std.specs.Option.{option_map};
ghost use Rattle.index_contents.specs.IndexPages.{IsIndexPage};
ghost use Rattle.index_contents.specs.IndexContents.{contents, relation_of, tuple_on};
ghost use Rattle.range_store.specs.Tuples.{IsOfRange};

use block_model::{PAGE_SIZE, Place, Spot};
use disk_trait::Disk;
use index_contents::{an_index_page_has_one_list, index_pages_are_known, relation_of, tuple_range};
use page_layout::Page;
use page_map::StoreError;
use page_store::PageStore;

/// How many bytes the number of a tuple's range has.
const RANGE_SIZE: usize = 4;

/// The tuple of that range at the spot, borrowed from its page. None exactly where none stands there. Damage is the page's; where
/// the index can't have the page, Reopen is the only error. Takes no memory.
pub fn tuple_at<D: Disk + Drop>(
    pages: &mut PageStore<D>,
    index: u8,
    spot: Spot,
    range: u32,
) -> Result<Option<&[u8]>, StoreError>
    requires index { index < length pages.old.layout.schema.indexes }
    ensures there { IfOk result (λ there. IfSome there (λ tuple. Tells D.told pages.old → (contents pages.old.layout pages.old.pages index).bytes spot ≡ Some tuple.now)) }
    ensures range { IfOk result (λ there. IfSome there (λ tuple. IsOfRange tuple.now range)) }
    ensures short { IfOk result (λ there. IfSome there (λ tuple. length tuple.now ≤ PAGE_SIZE)) }
    ensures within { IfOk result (λ there. IfSome there (λ tuple. spot.block < pages.old.layout.sizes.index_blocks)) }
    ensures gone { IfOk result (λ there. there ≡ None → Tells D.told pages.old → (bytes : List ℕ) → (contents pages.old.layout pages.old.pages index).bytes spot ≡ Some bytes → IsOfRange bytes range → ⊥) }
    ensures at { IfErr result (NamesPage pages.old.layout (record { relation = relation_of pages.old.layout index; block = spot.block })) }
    ensures reopen { IfErr result (λ error. pages.old.layout.sizes.index_blocks ≤ spot.block → IsReopen error) }
    ensures* rests { sem 𝓛 (Rests (the_row D.row D.Disk) pages.entry (λ s. Keeps D.told pages.old s × Outcome D.told (Untold D.told pages.old) pages.old s result × Survives D.told (λ passed. passed ≡ pages.old.pages) pages.old s)) }
{
    index_pages_are_known();
    pages.known();
    let relation = relation_of(pages.layout(), index);
    let block = spot.block;
    if block >= pages.layout().sizes().index_blocks {
        // A page that the index can't have isn't started.
        return match pages.ready() {
            Ok(()) => Ok(None),
            Err(error) => Err(error),
        };
    }
    match pages.read(Place { relation, block }) {
        Ok(page) => Ok(tuple_of(page, spot.slot, range)),
        Err(error) => Err(error),
    }
}

/// The tuple of that range in the slot of the page, if one stands there.
fn tuple_of(page: &Page, slot: u16, range: u32) -> Option<&[u8]>
    requires page { IsIndexPage page.now }
    ensures there { IfSome result (λ tuple. (tuple_on page.now slot ≡ Some tuple.now) × IsOfRange tuple.now range) }
    ensures short { IfSome result (λ tuple. length tuple.now ≤ PAGE_SIZE) }
    ensures gone { result ≡ None → (bytes : List ℕ) → tuple_on page.now slot ≡ Some bytes → IsOfRange bytes range → ⊥ }
{
    let tuple = tuple_in(page, slot)?;
    if tuple.len() < RANGE_SIZE {
        return None;
    }
    if tuple_range(tuple) != range {
        return None;
    }
    Some(tuple)
}

/// The tuple in the slot of the page, which has no more bytes than a page.
fn tuple_in(page: &Page, slot: u16) -> Option<&[u8]>
    requires page { IsIndexPage page.now }
    ensures tuple { (bytes : List ℕ) → tuple_on page.now slot ≡ Some bytes → length bytes ≤ PAGE_SIZE }
    ensures found { option_map (λ tuple. tuple.now) result ≡ tuple_on page.now slot }
{
    an_index_page_has_one_list();
    index_contents::tuple_at(page.as_bytes(), slot)
}
