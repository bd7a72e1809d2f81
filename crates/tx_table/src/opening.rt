//! The next number, as the pages of statuses show it.

ghost use Rattle.std.specs.Prelude.{◌≡◌, ◌+◌, ◌*◌, ◌<◌, ◌≤◌, ℕ, List, IfOk, IfErr, OnOk, if◌then◌else◌, ◌==◌};
ghost use Rattle.page_layout.specs.declared.format.TheConstants.{STATUS_ENTRIES};
ghost use Rattle.page_layout.specs.declared.page.Form.TheVariants as forms;
ghost use Rattle.page_layout.specs.PageContents.{IsPageOf};
ghost use Rattle.page_store.specs.Survives.{Survives};
ghost use Rattle.page_map.specs.Keeps.{Keeps, Tells, Untold};
ghost use Rattle.page_map.specs.Outcome.{Outcome};
ghost use Rattle.page_map.specs.PageMap.{block_at};
ghost use Rattle.snapshot_core.specs.declared.statuses.Status.{Status};
ghost use Rattle.tx_table.specs.Durable.{IsBefore};
ghost use Rattle.tx_table.specs.LeavesRest.{NamesStatuses};
ghost use Rattle.tx_table.specs.PageEntries.{HasUsed, next_after};
ghost use Rattle.tx_table.specs.Statuses.{HasStatuses, number_limit, status_relation};
ghost use Rattle.tx_table.specs.TxState.{IsNext};

use crate::status_pages::{ENTRIES, RELATION};
use block_model::Place;
use disk_trait::Disk;
use page_layout::{Page, STATUS_ENTRIES, status_at};
use page_map::StoreError;
use page_store::PageStore;

/// How a page names an unused number.
const UNUSED: u8 = 0;

/// One above the greatest number that isn't unused. Reads each page of statuses once.
pub(crate) fn next_number<D: Disk + Drop>(pages: &mut PageStore<D>) -> Result<u64, StoreError>
    ensures some { IfOk result (λ next. 1 ≤ next) }
    ensures within { IfOk result (λ next. next ≤ number_limit pages.old.layout) }
    ensures next { IfOk result (λ next. Tells D.told pages.old → (statuses : List Status) × HasStatuses pages.old.layout pages.old.pages statuses × IsNext statuses next) }
    ensures kept { Keeps D.told pages.old pages.new }
    ensures survives { Survives D.told (IsBefore pages.old) pages.old pages.new }
    ensures at { IfErr result (NamesStatuses pages.old.layout) }
    ensures outcome { Outcome D.told (Untold D.told pages.old) pages.old pages.new result }
{
    match pages.ready() {
        Ok(()) => {}
        Err(error) => return Err(error),
    }
    pages.layout().known();
    let blocks = pages.layout().sizes().status_blocks;
    let mut next = 1;
    'blocks: for block in 0..blocks {
        match used_in_block(pages, block) {
            Ok(used) => next = next_after(next, block, used),
            Err(error) => return Err(error),
        }
    }
    Ok(next)
}

/// The next number, with a block of so many entries up to the last used one, where it was this number without the block.
fn next_after(next: u64, block: u32, used: u16) -> u64
    ensures { result ≡ next_after next block used }
{
    if used == 0 {
        next
    } else {
        u64::from(block) * ENTRIES + u64::from(used)
    }
}

/// How many entries the block has up to the last one that isn't unused.
fn used_in_block<D: Disk + Drop>(pages: &mut PageStore<D>, block: u32) -> Result<u16, StoreError>
    requires block { block < pages.old.layout.sizes.status_blocks }
    ensures within { IfOk result (λ used. used ≤ STATUS_ENTRIES) }
    ensures used { IfOk result (λ used. Tells D.told pages.old → HasUsed (block_at pages.old.pages status_relation block) used) }
    ensures passes { OnOk result (Tells D.told pages.old → IsPageOf forms.Status (block_at pages.old.pages status_relation block)) }
    ensures kept { Keeps D.told pages.old pages.new }
    ensures survives { Survives D.told (IsBefore pages.old) pages.old pages.new }
    ensures at { IfErr result (NamesStatuses pages.old.layout) }
    ensures outcome { Outcome D.told (Untold D.told pages.old) pages.old pages.new result }
{
    let relation = RELATION;
    match pages.read(Place { relation, block }) {
        Ok(page) => Ok(used_on(page)),
        Err(error) => Err(error),
    }
}

/// How many entries the page has up to the last one that isn't unused.
fn used_on(page: &Page) -> u16
    requires { IsPageOf forms.Status page.now }
    ensures within { result ≤ STATUS_ENTRIES }
    ensures used { HasUsed page.now result }
{
    let mut used = STATUS_ENTRIES;
    'entries: while used > 0 {
        if status_at(page, used - 1) != UNUSED {
            return used;
        }
        used -= 1;
    }
    used
}
