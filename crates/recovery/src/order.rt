//! The order in which pages stand.

ghost use Rattle.std.specs.Prelude.{◌≡◌, ◌⊎◌, ◌+◌, ◌^◌, ◌<◌, ◌≤◌, ℕ, true, false, IsTrue, IfOk, IfSome, IfNone, OnOk, length, slice_index};
ghost use Rattle.block_model.specs.Causes.{HasCause};
ghost use Rattle.store_layout.specs.DiskLayout.{IsPlace, disk_size, relation_blocks};
ghost use Rattle.recovery.specs.PageOrder.{AreInOrder, IsIndexInOrder, empty_page};
ghost use Rattle.page_map.specs.PageMap.{block_at};
ghost use Rattle.recovery.specs.ShownPages.{shown_page, shown_pages};
ghost use Rattle.recovery.specs.Judged.{AreJudged, AreJudgedIn};
ghost use Rattle.page_map.specs.PageFacts.{facts_in};
ghost use Rattle.recovery.specs.Orders.{AreFirstStarted, HasIndexKinds, IsLate, MayStand, OrderCause, OrderedAt, StandsInOrder, kind_in};
ghost use Rattle.page_layout.specs.declared.format.TheConstants.{STATUS};
ghost use Rattle.page_layout.specs.TheConstants.{MAP};
ghost use Rattle.recovery.specs.PooledPages.{HoldsDurablePages};

use crate::fault::StartFault;
use crate::number::number_of;
use crate::page::read_page;
use block_model::Place;
use buffer_pool::Pool;
use disk_trait::{Disk, DiskFault};
use page_layout::{EVACUATED, MAP, META, Page, REGULAR, STATUS, UNSTARTED};
use page_map::FactList;
use store_layout::{Layout, blocks_of, count_relations, pages_fill_the_disk};

/// The relation of the statuses; the tables come next.
const STATUSES: u8 = 0;

/// The block of an index that is its metapage.
const META_BLOCK: u32 = 0;

/// Whether the pages of all relations stand in order, by the facts that were noted. Of an index a page of the map that is left over is
/// read once more. `Damaged` names a page that breaks the order.
pub fn judge_order<D: Disk>(
    disk: &mut D,
    layout: &Layout,
    pool: &mut Pool,
    facts: &[FactList],
) -> Result<(), StartFault>
    requires size { (D.told disk.old).size ≡ disk_size layout.now }
    requires held { HoldsDurablePages layout.now pool.old }
    requires judged { AreJudged layout.now pool.old facts.now (D.told disk.old) }
    ensures order { OnOk result (IsTrue (D.told disk.old).tells_contents → AreInOrder layout.now (shown_pages layout.now pool.old (D.told disk.old).contents)) }
    ensures pool { pool.new ≡ pool.old }
    ensures same { D.told disk.new ≡ record (D.told disk.old) { faults = (D.told disk.new).faults } }
    ensures cause { OrderCause layout.now pool.old (D.told disk.old) (D.told disk.new) result }
{
    let _size = disk.size();
    'relations: for relation in 0..count_relations(layout) {
        let kinds = &facts[usize::from(relation)];
        let Ok(broken) = broken_order(disk, layout, pool, kinds, relation) else {
            return Err(StartFault::Disk);
        };
        if let Some(block) = broken {
            let at = layout.page_at(Place { relation, block });
            return Err(StartFault::Damaged { at });
        }
    }
    Ok(())
}

/// A block of a relation whose page breaks the order.
fn broken_order<D: Disk>(
    disk: &mut D,
    layout: &Layout,
    pool: &mut Pool,
    kinds: &FactList,
    relation: u8,
) -> Result<Option<u32>, DiskFault>
    requires size { (D.told disk.old).size ≡ disk_size layout.now }
    requires held { HoldsDurablePages layout.now pool.old }
    requires relation { relation < length (relation_blocks layout.now) }
    requires kinds { AreJudgedIn layout.now pool.old (D.told disk.old) relation (slice_index (relation_blocks layout.now) relation) kinds.now }
    ensures none { IfOk result (λ broken. IfNone broken (IsTrue (D.told disk.old).tells_contents → OrderedAt layout.now (shown_pages layout.now pool.old (D.told disk.old).contents) relation)) }
    ensures some { IfOk result (λ broken. IfSome broken (λ block. (block < slice_index (relation_blocks layout.now) relation) × (IsTrue (D.told disk.old).tells_contents → StandsInOrder layout.now (shown_pages layout.now pool.old (D.told disk.old).contents) (record { relation = relation; block = block }) → ⊥))) }
    ensures pool { pool.new ≡ pool.old }
    ensures same { D.told disk.new ≡ record (D.told disk.old) { faults = (D.told disk.new).faults } }
    ensures cause { HasCause (D.told disk.old).faults (D.told disk.new).faults result }
{
    let limit = blocks_of(layout, relation);
    if relation == STATUSES {
        return Ok(unstarted_status(kinds, limit));
    }
    if usize::from(relation) <= layout.schema().tables.len() {
        return Ok(started_late(kinds, limit));
    }
    broken_index(disk, layout, pool, kinds, relation)
}

/// The first block of the statuses that isn't started.
fn unstarted_status(kinds: &FactList, limit: u32) -> Option<u32>
    ensures none { IfNone result ((block : ℕ) → block < limit → kind_in kinds.now block ≡ STATUS) }
    ensures some { IfSome result (λ block. (block < limit) × (kind_in kinds.now block ≡ STATUS → ⊥)) }
{
    'places: for block in 0..limit {
        if kinds.get(block as usize).kind != STATUS {
            return Some(block);
        }
    }
    None
}

/// The first block whose page is started, though one in front of it isn't.
fn started_late(kinds: &FactList, limit: u32) -> Option<u32>
    ensures none { IfNone result (AreFirstStarted limit kinds.now) }
    ensures some { IfSome result (λ block. (block < limit) × IsLate kinds.now block) }
{
    let mut ended = false;
    'places: for block in 0..limit {
        if kinds.get(block as usize).kind == UNSTARTED {
            ended = true;
        } else {
            if ended {
                return Some(block);
            }
        }
    }
    None
}

/// The block of a page of an index that breaks the order.
fn broken_index<D: Disk>(
    disk: &mut D,
    layout: &Layout,
    pool: &mut Pool,
    kinds: &FactList,
    relation: u8,
) -> Result<Option<u32>, DiskFault>
    requires size { (D.told disk.old).size ≡ disk_size layout.now }
    requires held { HoldsDurablePages layout.now pool.old }
    requires relation { relation < length (relation_blocks layout.now) }
    requires past { length layout.now.schema.tables < relation }
    requires kinds { AreJudgedIn layout.now pool.old (D.told disk.old) relation (slice_index (relation_blocks layout.now) relation) kinds.now }
    ensures none { IfOk result (λ broken. IfNone broken (IsTrue (D.told disk.old).tells_contents → IsIndexInOrder (slice_index (relation_blocks layout.now) relation) (block_at (shown_pages layout.now pool.old (D.told disk.old).contents) relation))) }
    ensures some { IfOk result (λ broken. IfSome broken (λ at. (at < slice_index (relation_blocks layout.now) relation) × (IsTrue (D.told disk.old).tells_contents → StandsInOrder layout.now (shown_pages layout.now pool.old (D.told disk.old).contents) (record { relation = relation; block = at }) → ⊥))) }
    ensures pool { pool.new ≡ pool.old }
    ensures same { D.told disk.new ≡ record (D.told disk.old) { faults = (D.told disk.new).faults } }
    ensures cause { HasCause (D.told disk.old).faults (D.told disk.new).faults result }
{
    layout.known();
    let _size = disk.size();
    let limit = blocks_of(layout, relation);
    let maps = counted_maps(kinds);
    if maps == 0 {
        return Ok(Some(META_BLOCK));
    }
    if maps >= limit {
        return Ok(Some(META_BLOCK));
    }
    if let Some(block) = broken_kind(kinds, limit, maps) {
        return Ok(Some(block));
    }
    let block = maps + 1;
    if block >= limit {
        return Ok(None);
    }
    if kinds.get(block as usize).kind != MAP {
        return Ok(None);
    }
    let left = shown(disk, layout, pool, Place { relation, block })?;
    if is_empty_map(&left) {
        return Ok(None);
    }
    Ok(Some(block))
}

/// How many pages of the map the metapage of an index counts: 0 where its block isn't a metapage.
fn counted_maps(kinds: &FactList) -> u32
    ensures { result ≡ (facts_in kinds.now 0).maps }
{
    kinds.get(META_BLOCK as usize).maps
}

/// A block of an index with so many pages of the map whose page is of no kind that may stand there, or is started behind one that
/// isn't.
fn broken_kind(kinds: &FactList, limit: u32, maps: u32) -> Option<u32>
    requires { maps < 2 ^ 31 }
    ensures none { IfNone result (HasIndexKinds limit maps kinds.now) }
    ensures some { IfSome result (λ block. (block < limit) × ((MayStand maps block (kind_in kinds.now block) → ⊥) ⊎ IsLate kinds.now block)) }
{
    'places: for block in 0..limit {
        if !may_stand(kinds.get(block as usize).kind, block, maps) {
            return Some(block);
        }
    }
    started_late(kinds, limit)
}

/// Whether a page of that kind may stand in that block of an index with so many pages of the map.
fn may_stand(kind: u8, block: u32, maps: u32) -> bool
    requires { maps < 2 ^ 31 }
    ensures may { result ≡ true → MayStand maps block kind }
    ensures other { result ≡ false → MayStand maps block kind → ⊥ }
{
    if block == META_BLOCK {
        return kind == META;
    }
    if block <= maps {
        return kind == MAP;
    }
    if kind == MAP {
        return block == maps + 1;
    }
    if kind == REGULAR {
        return true;
    }
    if kind == EVACUATED {
        return true;
    }
    kind == UNSTARTED
}

/// Whether the page is one of the map without entries.
fn is_empty_map(page: &Page) -> bool
    ensures empty { result ≡ true → page.now ≡ empty_page MAP }
    ensures other { result ≡ false → page.now ≡ empty_page MAP → ⊥ }
{
    let bytes = page.as_bytes();
    if bytes[0] != MAP {
        return false;
    }
    'rest: for at in 1..bytes.len() {
        let byte = bytes[at];
        if byte != 0 {
            return false;
        }
    }
    true
}

/// The page at a place, as the pool holds it, else as it stands on the disk.
fn shown<D: Disk>(
    disk: &mut D,
    layout: &Layout,
    pool: &mut Pool,
    place: Place,
) -> Result<Page, DiskFault>
    requires place { IsPlace layout.now place }
    requires size { (D.told disk.old).size ≡ disk_size layout.now }
    ensures page { IfOk result (λ page. IsTrue (D.told disk.old).tells_contents → page ≡ shown_page layout.now pool.old (D.told disk.old).contents place) }
    ensures pool { pool.new ≡ pool.old }
    ensures same { D.told disk.new ≡ record (D.told disk.old) { faults = (D.told disk.new).faults } }
    ensures cause { HasCause (D.told disk.old).faults (D.told disk.new).faults result }
{
    pages_fill_the_disk(layout);
    if let Some(page) = pool.get(number_of(layout, place)) {
        let mut copy = Page::zeroed();
        copy.replace(page.as_bytes());
        return Ok(copy);
    }
    read_page(disk, layout.page_at(place))
}
