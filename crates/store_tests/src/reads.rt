//! Which pages of statuses are read of the disk.

use crate::watched::{Reads, WatchedDisk};
use block_model::{Place, Sizes};
use disk_trait::{Disk, SteadyDisk};
use page_store::PageStore;
use std::alloc::Global;
use store_format::format;
use store_layout::{LEAST, table_layout};
use tx_table::TxTable;

/// More pages of statuses than the pool has frames, which are 16.
const MANY: u32 = 40;

/// What is done with a store that was opened, of which the pool holds the pages 3 and 5 of statuses.
#[derive(Clone, Copy)]
enum Script {
    Nothing,
    /// The table is opened.
    Table,
    /// The table is opened, and a hundred statuses of the first page are asked.
    Statuses,
}

/// A disk with a new store of so many pages of statuses.
fn watched(alloc: Global, status_blocks: u32) -> Option<WatchedDisk> {
    let sizes = Sizes {
        status_blocks,
        ..LEAST
    };
    let layout = table_layout(alloc, 1, sizes)?;
    let mut disk = SteadyDisk::new(alloc, layout.disk_size()).ok()?;
    format(&mut disk, &layout).ok()?;
    Some(WatchedDisk::on(disk))
}

/// Where the disk is read by the opening of the store and the script.
fn reads_of(alloc: Global, blocks: u32, script: Script) -> Option<Reads> {
    let disk = watched(alloc, blocks)?;
    match PageStore::start(alloc, disk) {
        Ok(store) => reads_after(store, script),
        Err(_) => None,
    }
}

fn reads_after(store: PageStore<WatchedDisk>, script: Script) -> Option<Reads> {
    let mut store = store;
    let done = is_done(&mut store, script);
    let reads = store.into_disk().reads();
    done.then_some(reads)
}

/// Does it, and says whether all of it was answered.
fn is_done<D: Disk + Drop>(store: &mut PageStore<D>, script: Script) -> bool {
    if !is_read(store, 3) || !is_read(store, 5) {
        return false;
    }
    match script {
        Script::Nothing => true,
        Script::Table => TxTable::start(store).is_ok(),
        Script::Statuses => match TxTable::start(store) {
            Ok(table) => are_told(&table, store),
            Err(_) => false,
        },
    }
}

#[tactic(auto, unfolding(store_layout::specs::DiskLayout::relation_blocks))]
fn is_read<D: Disk + Drop>(store: &mut PageStore<D>, block: u32) -> bool {
    if block >= store.layout().sizes().status_blocks {
        return false;
    }
    store.read(Place { relation: 0, block }).is_ok()
}

fn are_told<D: Disk + Drop>(table: &TxTable, store: &mut PageStore<D>) -> bool {
    for t in 0..100 {
        if table.status(store, t).is_err() {
            return false;
        }
    }
    true
}

/// The first byte of a page of statuses: the control page and two areas of the log of 16 pages are in front of them.
fn byte_of(block: u32) -> u64 {
    8192 * (33 + u64::from(block))
}

/// Whether the reads are of each of so many pages of statuses but 3 and 5, in order.
fn are_of_others(reads: &[u64], blocks: u32) -> bool {
    let mut left = reads;
    for block in 0..blocks {
        if block != 3 && block != 5 {
            if let [at, rest @ ..] = left {
                if *at != byte_of(block) {
                    return false;
                }
                left = rest;
            } else {
                return false;
            }
        }
    }
    left.is_empty()
}

/// The reads that come behind those of the first list, which they begin with.
fn behind<'a>(first: &Reads, reads: &'a Reads) -> Option<&'a [u64]> {
    reads.as_slice().strip_prefix(first.as_slice())
}

/// Whether the table is opened over so many pages of statuses by a read of each that the pool doesn't hold, and no other.
fn each_is_read_once(alloc: Global, blocks: u32) -> Option<bool> {
    let nothing = reads_of(alloc, blocks, Script::Nothing)?;
    let table = reads_of(alloc, blocks, Script::Table)?;
    Some(are_of_others(behind(&nothing, &table)?, blocks))
}

/// Whether a hundred statuses of the first page read it once, and no other.
fn first_is_read_once(alloc: Global) -> Option<bool> {
    let table = reads_of(alloc, MANY, Script::Table)?;
    let statuses = reads_of(alloc, MANY, Script::Statuses)?;
    let own = behind(&table, &statuses)?;
    Some(own == [byte_of(0)].as_slice())
}

#[test]
fn an_opening_reads_each_page_of_statuses_once_and_no_other(rt: HostRuntime) {
    let found = [
        each_is_read_once(rt.alloc(), 8),
        each_is_read_once(rt.alloc(), MANY),
        first_is_read_once(rt.alloc()),
    ];
    assert_eq!(rt; found, [Some(true); 3]);
}
