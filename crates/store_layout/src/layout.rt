//! The layout of a store: its tables, indexes and sizes, within their limits, and where its pages stand on the disk.

ghost use Rattle.std.specs.Prelude.{◌≡◌, ◌*◌, ◌^◌, ◌<◌, ◌≤◌, length, sum, take, None, Some, IfOk, IfErr};
ghost use Rattle.store_layout.specs.declared.layout.TheConstants.{FORMAT};
ghost use Rattle.store_layout.specs.FirstBrokenRule.{first_broken_rule, KeepsLimits, IsLeastBroken};
ghost use Rattle.store_layout.specs.DiskLayout.{disk_size, relation_blocks, page_offset, area_offset, area_size, IsPlace, HasBoundedSizes, HasSmallPlaces};
ghost use Rattle.store_layout.specs.PagesFillDisk.{PagesFillDisk};

mod limits;
mod names;

use block_model::{PAGE_SIZE, Place, Schema, Sizes};
use limits::first_broken_rule;
use std::marker::Model;
use thiserror::Error;

/// The format of a store, of which there is one.
pub const FORMAT: u16 = 1;

/// The number, from 1 to 12, of the first limit that is passed.
#[derive(Clone, Copy, Debug, Error, PartialEq, Eq)]
#[error("limit {rule} is passed")]
pub struct OverLimit {
    pub rule: u8,
}

/// Tables, indexes and sizes within their limits. Seen as those.
#[derive(Debug, Drop)]
pub struct Layout {
    schema: Schema,
    sizes: Sizes,
}

impl Model for Layout {
    ghost use Rattle.std.specs.Prelude.{◌≡◌, None};
    ghost use Rattle.store_layout.specs.DiskLayout.{DiskLayout};
    ghost use Rattle.store_layout.specs.FirstBrokenRule.{first_broken_rule};

    ghost Value = { DiskLayout };

    ghost view = { λ a. record { schema = a.schema; sizes = a.sizes } };

    ghost invariant = { λ a. first_broken_rule a.schema a.sizes ≡ None };
}

impl Layout {
    /// The layout of these tables, indexes and sizes, or the first limit that they pass. Takes no memory.
    pub fn new(schema: Schema, sizes: Sizes) -> Result<Layout, OverLimit>
        ensures kept { IfOk result (λ layout. (layout ≡ record { schema = schema; sizes = sizes }) × (first_broken_rule schema sizes ≡ None)) }
        ensures passed { IfErr result (λ over. first_broken_rule schema sizes ≡ Some over.rule) }
    {
        match first_broken_rule(&schema, sizes) {
            Some(rule) => Err(OverLimit { rule }),
            None => Ok(Layout { schema, sizes }),
        }
    }

    /// The tables and indexes.
    pub fn schema(&self) -> &Schema
        ensures { result.now ≡ self.now.schema }
    {
        &self.schema
    }

    /// The sizes.
    pub fn sizes(&self) -> Sizes
        ensures { result ≡ self.now.sizes }
    {
        self.sizes
    }

    /// The number of the format, which its control page names. It is 1.
    pub fn format(&self) -> u16
        ensures { result ≡ FORMAT }
    {
        FORMAT
    }

    /// Does nothing; tells its caller that every limit is kept.
    pub fn known(&self)
        ensures limits { KeepsLimits self.now.schema self.now.sizes }
        ensures sizes { HasBoundedSizes self.now }
        ensures places { HasSmallPlaces self.now }
    {
        let _ = &self.schema;
    }

    /// The bytes of the disk.
    #[tactic(auto, unfolding(crate::specs::DiskLayout::disk_size))]
    pub fn disk_size(&self) -> u64
        ensures { result ≡ disk_size self.now }
    {
        self.known();
        let schema = self.schema();
        let sizes = self.sizes();
        let heaps = blocks_of(schema.tables.len(), sizes.heap_blocks);
        let indexes = blocks_of(schema.indexes.len(), sizes.index_blocks);
        let log_pages = 2 * u64::from(sizes.log_pages);
        PAGE_SIZE as u64 * (1 + log_pages + u64::from(sizes.status_blocks) + heaps + indexes)
    }

    /// The bytes of each of the two areas of the log.
    pub fn area_size(&self) -> u64
        ensures exact { result ≡ area_size self.now }
        ensures small { result ≤ 2 ^ 25 }
    {
        self.known();
        PAGE_SIZE as u64 * u64::from(self.sizes().log_pages)
    }

    /// The byte of the disk at which an area of the log begins: area 0 behind the control page, and area 1 behind it.
    pub fn area_at(&self, area: u8) -> u64
        requires { area < 2 }
        ensures { result ≡ area_offset self.now area }
    {
        PAGE_SIZE as u64 + self.area_size() * u64::from(area)
    }

    /// The byte of the disk at which the page of a place begins. The place is of the layout: its relation is the
    /// statuses (0), a table or an index, in order of declaration, and its block is below that relation's limit.
    #[tactic(auto, unfolding(crate::specs::DiskLayout::page_offset))]
    pub fn page_at(&self, place: Place) -> u64
        requires { IsPlace self.now place }
        ensures { result ≡ page_offset self.now place }
    {
        let log_pages = 2 * u64::from(self.sizes().log_pages);
        let blocks = self.blocks_before(place.relation) + u64::from(place.block);
        PAGE_SIZE as u64 * (1 + log_pages) + PAGE_SIZE as u64 * blocks
    }

    /// The blocks of all relations in front of the one of that number.
    fn blocks_before(&self, relation: u8) -> u64
        requires { relation < length (relation_blocks self.now) }
        ensures exact { result ≡ sum (take relation (relation_blocks self.now)) }
        ensures small { result < 2 ^ 37 }
    {
        if relation == 0 {
            return 0;
        }
        self.known();
        let schema = self.schema();
        let sizes = self.sizes();
        let before = usize::from(relation) - 1;
        let heaps = before.min(schema.tables.len());
        let indexes = before - heaps;
        u64::from(sizes.status_blocks)
            + blocks_of(heaps, sizes.heap_blocks)
            + blocks_of(indexes, sizes.index_blocks)
    }
}

/// The blocks of so many relations.
fn blocks_of(relations: usize, blocks: u32) -> u64
    requires { relations ≤ 8 }
    ensures exact { result ≡ relations * blocks }
    ensures small { result ≤ 8 * blocks }
{
    relations as u64 * u64::from(blocks)
}

/// The first broken rule is the least one that doesn't hold; where there is none, each holds.
pub fn the_first_broken_rule_is_the_least(schema: &Schema, sizes: Sizes)
    ensures { IsLeastBroken schema.now sizes }
{}

/// The pages of a layout are disjoint, and fill the disk behind the control page and the log.
pub fn pages_fill_the_disk(layout: &Layout)
    ensures { PagesFillDisk layout.now }
{}
