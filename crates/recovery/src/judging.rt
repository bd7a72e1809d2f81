//! The pages of a disk, judged one after the other.

ghost use Rattle.std.specs.Prelude.{◌≡◌, ◌<◌, IsTrue, IfOk, OnOk, length, set, slice_index};
ghost use Rattle.page_layout.specs.TheConstants.{UNSTARTED};
ghost use Rattle.page_layout.specs.PageContents.{IsForm};
ghost use Rattle.page_map.specs.Forms.{form_of};
ghost use Rattle.page_map.specs.PageFacts.{facts_in, no_facts};
ghost use Rattle.store_layout.specs.DiskLayout.{IsPlace, disk_size, relation_blocks};
ghost use Rattle.recovery.specs.Judged.{AreJudged, AreJudgedIn, IsJudged};
ghost use Rattle.recovery.specs.PageCauses.{PageCause};
ghost use Rattle.recovery.specs.PooledPages.{HoldsDurablePages};
ghost use Rattle.recovery.specs.PageOrder.{AreInOrder};
ghost use Rattle.recovery.specs.ShownPages.{shown_pages};
ghost use Rattle.recovery.specs.StartCauses.{JudgeCause};

use crate::fault::StartFault;
use crate::number::number_of;
use crate::order::judge_order;
use crate::page::read_page;
use crate::place::form_of;
use block_model::Place;
use buffer_pool::Pool;
use disk_trait::Disk;
use page_layout::{Form, UNSTARTED, check};
use page_map::{FactList, PageFacts, facts_of};
use std::alloc::Global;
use store_layout::{Layout, blocks_of, count_relations, pages_fill_the_disk};

/// The facts of all pages, each of which passes its check and stands in order.
pub fn judge<D: Disk>(
    alloc: Global,
    disk: &mut D,
    layout: &Layout,
    pool: &mut Pool,
) -> Result<Vec<FactList>, StartFault>
    requires size { (D.told disk.old).size ≡ disk_size layout.now }
    requires held { HoldsDurablePages layout.now pool.old }
    ensures judged { IfOk result (λ facts. AreJudged layout.now pool.old facts.items (D.told disk.old)) }
    ensures order { OnOk result (IsTrue (D.told disk.old).tells_contents → AreInOrder layout.now (shown_pages layout.now pool.old (D.told disk.old).contents)) }
    ensures pool { pool.new ≡ pool.old }
    ensures same { D.told disk.new ≡ record (D.told disk.old) { faults = (D.told disk.new).faults } }
    ensures cause { JudgeCause layout.now pool.old (D.told disk.old) (D.told disk.new) result }
{
    let facts = match judge_pages(alloc, disk, layout, pool) {
        Ok(facts) => facts,
        Err(fault) => return Err(fault),
    };
    match judge_order(disk, layout, pool, &facts) {
        Ok(()) => Ok(facts),
        Err(fault) => Err(fault),
    }
}

/// The facts of all pages of the relations: each page is read once, where it isn't held, and checked. `Damaged` where a page doesn't
/// pass the check of its form.
fn judge_pages<D: Disk>(
    alloc: Global,
    disk: &mut D,
    layout: &Layout,
    pool: &mut Pool,
) -> Result<Vec<FactList>, StartFault>
    requires size { (D.told disk.old).size ≡ disk_size layout.now }
    requires held { HoldsDurablePages layout.now pool.old }
    ensures judged { IfOk result (λ facts. AreJudged layout.now pool.old facts.items (D.told disk.old)) }
    ensures pool { pool.new ≡ pool.old }
    ensures same { D.told disk.new ≡ record (D.told disk.old) { faults = (D.told disk.new).faults } }
    ensures cause { PageCause layout.now pool.old (D.told disk.old) (D.told disk.new) result }
{
    let count = count_relations(layout);
    let Ok(mut facts) = Vec::with_capacity(alloc, usize::from(count)) else {
        return Err(StartFault::Memory);
    };
    'relations: for relation in 0..count {
        match judge_relation(alloc, disk, layout, pool, relation) {
            Ok(list) => facts.push_reserved(list),
            Err(fault) => return Err(fault),
        }
    }
    Ok(facts)
}

/// The facts of the pages of one relation.
fn judge_relation<D: Disk>(
    alloc: Global,
    disk: &mut D,
    layout: &Layout,
    pool: &mut Pool,
    relation: u8,
) -> Result<FactList, StartFault>
    requires size { (D.told disk.old).size ≡ disk_size layout.now }
    requires held { HoldsDurablePages layout.now pool.old }
    requires relation { relation < length (relation_blocks layout.now) }
    ensures judged { IfOk result (λ facts. AreJudgedIn layout.now pool.old (D.told disk.old) relation (slice_index (relation_blocks layout.now) relation) facts) }
    ensures pool { pool.new ≡ pool.old }
    ensures same { D.told disk.new ≡ record (D.told disk.old) { faults = (D.told disk.new).faults } }
    ensures cause { PageCause layout.now pool.old (D.told disk.old) (D.told disk.new) result }
{
    let limit = blocks_of(layout, relation);
    let form = form_of(layout, relation);
    let Ok(mut facts) = FactList::new(alloc, limit) else {
        return Err(StartFault::Memory);
    };
    'places: for block in 0..limit {
        match judge_page(disk, layout, pool, Place { relation, block }, &form) {
            Ok(found) => note_started(&mut facts, block as usize, found),
            Err(fault) => return Err(fault),
        }
    }
    Ok(facts)
}

/// Notes the facts of a page that is started; the list has those of one that isn't already.
fn note_started(facts: &mut FactList, at: usize, found: PageFacts)
    requires within { at < length facts.old }
    requires fresh { facts_in facts.old at ≡ no_facts }
    requires unstarted { found.kind ≡ UNSTARTED → found ≡ no_facts }
    ensures { facts.new ≡ set facts.old at found }
{
    if found.kind == UNSTARTED {
        return;
    }
    facts.note(at, found);
}

/// The facts of one page, which is read where it isn't held, and then checked.
fn judge_page<D: Disk>(
    disk: &mut D,
    layout: &Layout,
    pool: &mut Pool,
    place: Place,
    form: &Form,
) -> Result<PageFacts, StartFault>
    requires place { IsPlace layout.now place }
    requires size { (D.told disk.old).size ≡ disk_size layout.now }
    requires held { HoldsDurablePages layout.now pool.old }
    requires form { form.now ≡ form_of layout.now place.relation }
    requires formed { IsForm form.now }
    ensures judged { IfOk result (IsJudged layout.now pool.old (D.told disk.old) place) }
    ensures pool { pool.new ≡ pool.old }
    ensures same { D.told disk.new ≡ record (D.told disk.old) { faults = (D.told disk.new).faults } }
    ensures cause { PageCause layout.now pool.old (D.told disk.old) (D.told disk.new) result }
{
    pages_fill_the_disk(layout);
    if let Some(page) = pool.get(number_of(layout, place)) {
        return Ok(facts_of(page, form));
    }
    let at = layout.page_at(place);
    let Ok(page) = read_page(disk, at) else {
        return Err(StartFault::Disk);
    };
    match check(&page, *form) {
        Ok(()) => Ok(facts_of(&page, form)),
        Err(_) => Err(StartFault::Damaged { at }),
    }
}
