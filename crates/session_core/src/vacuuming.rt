//! What a vacuum has in hand before its first step.

ghost use Rattle.std.specs.Prelude.{◌≡◌, ◌<◌, length, All, IfOk};
ghost use Rattle.summarise_core.specs.declared.course.Standing.TheVariants as standings;
ghost use Rattle.session_parts.specs.HandFits.{AreSummariesOf};
ghost use Rattle.session_core.specs.Submitting.{TakesHand};

use block_model::NoMemory;
use disk_trait::Disk;
use page_map::tables_have_forms;
use session_parts::{Cleaning, Hand, Parts, Vacuum};
use std::alloc::Global;
use store_layout::{Layout, Statement};
use summarise_core::{Summarise, Wish};

/// A vacuum, with all the memory that its cleaning and the summaries behind it need.
pub(crate) fn vacuum_hand<D: Disk + Drop>(parts: &Parts<D>, table: u8) -> Result<Hand, NoMemory>
    requires { table < length parts.now.pages.layout.schema.tables }
    ensures { IfOk result (TakesHand parts.now parts.now (Statement.Vacuum table)) }
{
    let layout = parts.pages.layout();
    let vacuum = Vacuum::new(parts.alloc, table, layout)?;
    let summaries = summaries_of(parts.alloc, layout, table)?;
    Ok(Hand::Cleans(Cleaning { vacuum, summaries }))
}

/// A summary of each index of the table, in their order, over its complete ranges.
fn summaries_of(alloc: Global, layout: &Layout, table: u8) -> Result<Vec<Summarise>, NoMemory>
    ensures of { IfOk result (λ summaries. AreSummariesOf layout.now table summaries.items) }
    ensures new { IfOk result (λ summaries. All (λ a. a.standing ≡ standings.Begins) summaries.items) }
{
    layout.known();
    tables_have_forms(layout);
    let mut summaries = Vec::new(alloc);
    let mut number = 0u8;
    'indexes: for index in layout.schema().indexes.as_slice() {
        if index.table == table {
            let summary = Summarise::new(alloc, number, Wish::Complete, layout)?;
            summaries.push(summary)?;
        }
        number += 1;
    }
    Ok(summaries)
}
