//! Reading the map, and copying or judging the tuple of a range.

ghost use Rattle.std.specs.Prelude.{◌≡◌, ◌<◌, ◌≤◌, true, false, None, length, IfOk, IfErr, IfSome, OnOk};
ghost use Rattle.block_model.specs.declared.limits.TheConstants.{MAX_CONDITIONS};
ghost use Rattle.page_map.specs.Keeps.{Keeps, Tells};
ghost use Rattle.page_map.specs.declared.faults.StoreError.TheVariants as errors;
ghost use Rattle.page_map.specs.Outcome.{Outcome};
ghost use Rattle.heap_rows.specs.Survives.{Survives};
ghost use Rattle.range_tuple.specs.Tuples.{parts_of};
ghost use Rattle.index_contents.specs.IndexContents.{contents};
ghost use Rattle.index_steps.specs.IndexTuples.{classes_of, shape_of};
ghost use Rattle.index_steps.specs.Readings.{HasRangeAt, IsJudgedAt, IsMisnamed, IsMisread, IsReadAs, NamesPageOf, ShowsGone, ShowsTuple};

use block_model::{Cond, Place, Spot};
use disk_trait::Disk;
use heap_rows::PageStore;
use index_contents::relation_of;
use page_map::StoreError;
use range_store::{Scratch, tuple_at};
use range_tuple::RangeTuple;
use revmap::entry;

/// The entry of the range; none where the map names no spot for it. Damaged, beside a disk that doesn't tell its contents, exactly
/// where no tuple of the range stands at the spot that it names. Takes no memory.
pub fn read_map<D: Disk + Drop>(
    pages: &mut PageStore<D>,
    index: u8,
    range: u32,
) -> Result<Option<Spot>, StoreError>
    requires index { index < length pages.old.layout.schema.indexes }
    ensures entry { IfOk result (λ entry. Tells D.told pages.old → (contents pages.old.layout pages.old.pages index).entry range ≡ entry) }
    ensures undamaged { OnOk result (Tells D.told pages.old → IsMisnamed (contents pages.old.layout pages.old.pages index) range → ⊥) }
    ensures stands { IfOk result (λ entry. IfSome entry (λ spot. Tells D.told pages.old → HasRangeAt (contents pages.old.layout pages.old.pages index) range spot)) }
    ensures kept { Keeps D.told pages.old pages.new }
    ensures survives { Survives D.told (λ passed. passed ≡ pages.old.pages) pages.old pages.new }
    ensures at { IfErr result (NamesPageOf pages.old.layout index) }
    ensures outcome { Outcome D.told (Tells D.told pages.old → IsMisnamed (contents pages.old.layout pages.old.pages index) range) pages.old pages.new result }
{
    let spot = match entry(pages, index, range) {
        Ok(Some(spot)) => spot,
        Ok(None) => return Ok(None),
        Err(error) => return Err(error),
    };
    match tuple_at(pages, index, spot, range) {
        Ok(Some(_)) => Ok(Some(spot)),
        Ok(None) => Err(StoreError::Damaged {
            at: page_at(pages, index, spot.block),
        }),
        Err(error) => Err(error),
    }
}

/// Whether a tuple of the range stands at the spot; `copied` holds its bytes then, and `tuple` is the one that they are. False
/// exactly where none does. Damaged, beside a disk that doesn't tell its contents, exactly where bytes of the range stand there
/// that are no tuple of the index. Takes no memory.
pub fn copy_tuple<D: Disk + Drop>(
    pages: &mut PageStore<D>,
    index: u8,
    range: u32,
    spot: Spot,
    copied: &mut Scratch,
    tuple: &mut RangeTuple,
) -> Result<bool, StoreError>
    requires index { index < length pages.old.layout.schema.indexes }
    requires tuple { parts_of tuple.old.columns ≡ classes_of (shape_of pages.old.layout index) }
    ensures there { IfOk result (λ there. there ≡ true → Tells D.told pages.old → ShowsTuple (shape_of pages.old.layout index) (contents pages.old.layout pages.old.pages index) range spot copied.new) }
    ensures read { IfOk result (λ there. there ≡ true → IsReadAs (shape_of pages.old.layout index) copied.new tuple.new) }
    ensures gone { IfOk result (λ there. there ≡ false → Tells D.told pages.old → ShowsGone (shape_of pages.old.layout index) (contents pages.old.layout pages.old.pages index) range spot) }
    ensures undamaged { OnOk result (Tells D.told pages.old → IsMisread (shape_of pages.old.layout index) (contents pages.old.layout pages.old.pages index) range spot → ⊥) }
    ensures same_index { parts_of tuple.new.columns ≡ parts_of tuple.old.columns }
    ensures kept { Keeps D.told pages.old pages.new }
    ensures survives { Survives D.told (λ passed. passed ≡ pages.old.pages) pages.old pages.new }
    ensures at { IfErr result (NamesPageOf pages.old.layout index) }
    ensures outcome { Outcome D.told (Tells D.told pages.old → IsMisread (shape_of pages.old.layout index) (contents pages.old.layout pages.old.pages index) range spot) pages.old pages.new result }
{
    match tuple_at(pages, index, spot, range) {
        Ok(Some(bytes)) => copied.hold(bytes),
        Ok(None) => return Ok(false),
        Err(error) => return Err(error),
    }
    match tuple.decode(copied.bytes()) {
        Ok(()) => Ok(true),
        Err(_) => Err(StoreError::Damaged {
            at: page_at(pages, index, spot.block),
        }),
    }
}

/// Whether the tuple of the range at the spot keeps the conditions. None exactly where none stands there. Damaged, beside a disk that
/// doesn't tell its contents, exactly where bytes of the range stand there that are no tuple of the index. The bytes are read where
/// they stand, by `tuple`, which stays. Takes no memory.
pub fn judge_tuple<D: Disk + Drop>(
    pages: &mut PageStore<D>,
    index: u8,
    range: u32,
    spot: Spot,
    conds: &[Cond],
    tuple: &mut RangeTuple,
) -> Result<Option<bool>, StoreError>
    requires index { index < length pages.old.layout.schema.indexes }
    requires tuple { parts_of tuple.old.columns ≡ classes_of (shape_of pages.old.layout index) }
    requires few { length conds.now ≤ MAX_CONDITIONS }
    ensures judged { IfOk result (λ told. IfSome told (λ kept. Tells D.told pages.old → IsJudgedAt (shape_of pages.old.layout index) (contents pages.old.layout pages.old.pages index) range spot conds.now kept)) }
    ensures gone { IfOk result (λ told. told ≡ None → Tells D.told pages.old → ShowsGone (shape_of pages.old.layout index) (contents pages.old.layout pages.old.pages index) range spot) }
    ensures undamaged { OnOk result (Tells D.told pages.old → IsMisread (shape_of pages.old.layout index) (contents pages.old.layout pages.old.pages index) range spot → ⊥) }
    ensures same { tuple.new ≡ tuple.old }
    ensures kept { Keeps D.told pages.old pages.new }
    ensures survives { Survives D.told (λ passed. passed ≡ pages.old.pages) pages.old pages.new }
    ensures at { IfErr result (NamesPageOf pages.old.layout index) }
    ensures outcome { Outcome D.told (Tells D.told pages.old → IsMisread (shape_of pages.old.layout index) (contents pages.old.layout pages.old.pages index) range spot) pages.old pages.new result }
{
    let judged = match tuple_at(pages, index, spot, range) {
        Ok(Some(bytes)) => tuple.judge(bytes, conds),
        Ok(None) => return Ok(None),
        Err(error) => return Err(error),
    };
    match judged {
        Ok(kept) => Ok(Some(kept)),
        Err(_) => Err(StoreError::Damaged {
            at: page_at(pages, index, spot.block),
        }),
    }
}

/// The byte of the disk at which the page begins; that of the index's last page for one that it can't have.
pub fn page_at<D: Disk + Drop>(pages: &PageStore<D>, index: u8, block: u32) -> u64
    requires index { index < length pages.now.layout.schema.indexes }
    ensures { NamesPageOf pages.now.layout index (errors.Damaged result) }
{
    pages.layout().known();
    let relation = relation_of(pages.layout(), index);
    let last = pages.layout().sizes().index_blocks - 1;
    pages.layout().page_at(Place {
        relation,
        block: block.min(last),
    })
}
