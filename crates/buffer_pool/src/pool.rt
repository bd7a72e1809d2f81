//! The pool.

ghost use Rattle.std.specs.Prelude.{◌≡◌, ◌<◌, ◌≤◌, ◌+◌, None, Some, IsTrue, length, set, option_map, option_copied, IfOk, IfSome, IfErr, OnOk, OnErr, IfNone};
ghost use Rattle.std.specs.Option.{option_copied_mut};
ghost use Rattle.std.specs.FinMap as map;
ghost use Rattle.block_model.specs.Causes.{HasCause};
ghost use Rattle.buffer_pool.specs.PoolState.{IsBounded, held_at};
ghost use Rattle.buffer_pool.specs.SetsPage.{IsAllDirty, SetsPage};
ghost use Rattle.buffer_pool.specs.Frames.{HasNoFrame, IsFrameFor};
ghost use Rattle.std.specs.Box.{boxed_slice_items};
ghost use Rattle.block_model.specs.declared.limits.TheConstants.{PAGE_SIZE};
ghost use Rattle.disk_trait.specs.Spliced.{spliced};
ghost use Rattle.buffer_pool.specs.WritesPage.{CleansOne, CleansPage, LieWithin, WritesAt, place_of};
ghost use Rattle.buffer_pool.specs.Slots.{slot_at};
ghost use Rattle.buffer_pool.specs.NextDirty.{IsNextDirty};

use crate::held::{Held, Wanted};
use crate::page_table::PageTable;
use crate::uses::Uses;
use block_model::{NoMemory, PAGE_SIZE};
use disk_trait::{Disk, DiskFault};
use page_layout::Page;
use std::alloc::Global;
use std::boxed::BoxedSlice;
use std::marker::Model;
use thiserror::Error;

/// Every frame holds a dirty page.
#[derive(Clone, Copy, Debug, Eq, Error, PartialEq)]
#[error("all {frames} frames are dirty")]
pub struct AllDirty {
    pub frames: u32,
}

/// Pages in frames, of which there is a fixed number.
#[derive(Debug, Drop)]
pub struct Pool {
    table: PageTable,
    pages: BoxedSlice<Page>,
    uses: Uses,
    /// The frame of the page that was last looked up.
    latest: u32,
}

impl Model for Pool {
    ghost use Rattle.std.specs.Prelude.{◌≡◌, length};
    ghost use Rattle.std.specs.Box.{boxed_slice_items};
    ghost use Rattle.buffer_pool.specs.PoolState.{PoolState, coded_pool};
    ghost use Rattle.buffer_pool.specs.Frames.{shown};

    ghost Value = { PoolState };

    ghost coded = { coded_pool };

    ghost view = { λ a. shown a.table (boxed_slice_items a.pages) };

    ghost invariant = { λ a. (length (boxed_slice_items a.pages) ≡ length a.table) × (a.uses ≡ length a.table) };
}

impl Pool {
    ghost use Rattle.buffer_pool.specs.contracts.pool.Pool.{the_row};
    ghost use Rattle.std.specs.Io.BufRead.{Rests};
    ghost use Rattle.std.specs.Borrow.{sem};
    ghost use Rattle.buffer_pool.specs.LendsPage.{LendsPage};

    /// So many frames, which hold nothing. All memory is taken here. `Err` is want of memory.
    pub fn new(alloc: Global, frames: u32) -> Result<Pool, NoMemory>
        ensures { IfOk result (λ pool. pool ≡ record { frames = frames; pages = map.empty }) }
    {
        let table = PageTable::new(alloc, frames)?;
        let pages = zeroed_pages(alloc, frames)?;
        let uses = Uses::new(alloc, frames)?;
        Ok(Pool {
            table,
            pages,
            uses,
            latest: 0,
        })
    }

    /// Does nothing; tells its caller that no more pages are held than there are frames.
    pub fn known(&self)
        ensures { IsBounded self.now }
    {
        // Reads a field, so that the pool is opened.
        let _ = &self.table;
    }

    /// The page of that number, or nothing where it isn't held.
    pub fn get(&mut self, page: u64) -> Option<&Page>
        ensures page { option_copied result ≡ option_map (λ held. held.content) (held_at self.old page) }
        ensures* rests { sem 𝓛 (Rests the_row self.entry (λ pool. pool ≡ self.old)) }
    {
        let Some(frame) = self.table.frame_near(self.latest, page) else {
            return None;
        };
        self.table.known();
        self.latest = frame;
        self.uses.touch(frame);
        Some(&self.pages[frame as usize])
    }

    /// The page of that number, to be changed in place, or nothing where it isn't held. It is dirty from then on, and waits for
    /// the log change of that number.
    pub fn change(&mut self, page: u64, log: u64) -> Option<&mut Page>
        ensures page { option_copied_mut result ≡ option_map (λ held. held.content) (held_at self.old page) }
        ensures* changes { sem 𝓛 (LendsPage self.entry page log result) }
    {
        let Some(frame) = self.table.frame_near(self.latest, page) else {
            return None;
        };
        self.table.known();
        self.latest = frame;
        self.uses.touch(frame);
        let log = Some(log);
        self.table.put(frame, Held { page, log });
        Some(&mut self.pages[frame as usize])
    }

    /// Holds the page with that content: as a dirty one that waits for the log change of that number, or without a number as
    /// a clean one. Where it isn't held and no frame is empty a clean page is let go. `Err` comes exactly where it isn't held
    /// and every frame holds a dirty page, and nothing is changed then.
    pub fn set(&mut self, page: u64, content: &Page, log: Option<u64>) -> Result<(), AllDirty>
        ensures set { OnOk result (SetsPage self.old page (record { content = content.now; log = log }) self.new) }
        ensures same { OnErr result (self.new ≡ self.old) }
        ensures frames { IfErr result (λ all. all.frames ≡ self.old.frames) }
        ensures refused { OnErr result (IsAllDirty self.old page) }
        ensures accepted { OnOk result (IsAllDirty self.old page → ⊥) }
    {
        self.table.known();
        let Some(frame) = frame_for(&mut self.table, &mut self.uses, page) else {
            return Err(AllDirty {
                frames: self.table.frames(),
            });
        };
        self.table.put(frame, Held { page, log });
        self.pages[frame as usize].replace(content.as_bytes());
        self.uses.touch(frame);
        Ok(())
    }

    /// Writes one dirty page whose log change's number is at most `durable`, page p to the byte `at` + 8192 · p, and holds it
    /// on as a clean one. `Ok(false)` comes exactly where there is none. After a fault the pool is as it was, and the bytes of
    /// the page's place are any.
    pub fn clean_one<D: Disk>(
        &mut self,
        disk: &mut D,
        at: u64,
        durable: u64,
    ) -> Result<bool, DiskFault>
        requires { LieWithin self.old at (D.told disk.old).size }
        ensures cleans { CleansOne self.old self.new at durable (D.told disk.old) (D.told disk.new) result }
        ensures cause { HasCause (D.told disk.old).faults (D.told disk.new).faults result }
    {
        self.table.known();
        let wanted = Wanted::Cleanable { durable };
        let Some(frame) = self.table.choose(&mut self.uses, wanted) else {
            return Ok(false);
        };
        let Some(held) = self.table.slot(frame) else {
            unreachable!()
        };
        let bytes = self.pages[frame as usize].as_bytes();
        clean_frame(&mut self.table, disk, at, frame, held, bytes)?;
        Ok(true)
    }

    /// Writes the page of that number like `clean_one`. `Ok(false)` comes exactly where it isn't held as a dirty page whose log
    /// change's number is at most `durable`.
    pub fn clean<D: Disk>(
        &mut self,
        disk: &mut D,
        at: u64,
        page: u64,
        durable: u64,
    ) -> Result<bool, DiskFault>
        requires { LieWithin self.old at (D.told disk.old).size }
        ensures cleans { CleansPage self.old self.new at page durable (D.told disk.old) (D.told disk.new) result }
        ensures cause { HasCause (D.told disk.old).faults (D.told disk.new).faults result }
    {
        self.table.known();
        let Some(frame) = self.table.cleanable(page, durable) else {
            return Ok(false);
        };
        let Some(held) = self.table.slot(frame) else {
            unreachable!()
        };
        let bytes = self.pages[frame as usize].as_bytes();
        clean_frame(&mut self.table, disk, at, frame, held, bytes)?;
        Ok(true)
    }

    /// The lowest dirty page from that number on, or nothing where there is none: for a checkpoint, which writes pages in order
    /// of their places. The dirty pages are put in order where the walk doesn't go up, or another page got dirty; else the next
    /// one is at hand.
    pub fn next_dirty(&mut self, from: u64) -> Option<u64>
        ensures same { self.new ≡ self.old }
        ensures next { IsNextDirty self.old from result }
    {
        self.table.known();
        self.table.next_dirty(from)
    }
}

/// Writes the bytes of the page in the frame to its place, and holds it on as a clean one.
fn clean_frame<D: Disk>(
    table: &mut PageTable,
    disk: &mut D,
    at: u64,
    frame: u32,
    held: Held,
    bytes: &[u8],
) -> Result<(), DiskFault>
    requires held { slot_at table.old frame ≡ Some held }
    requires frame { frame < length table.old }
    requires within { place_of at held.page + PAGE_SIZE ≤ (D.told disk.old).size }
    requires whole { length bytes.now ≡ PAGE_SIZE }
    ensures same { OnErr result (table.new ≡ table.old) }
    ensures clean { OnOk result (table.new ≡ set table.old frame (Some (record { page = held.page; log = None }))) }
    ensures written { OnOk result (IsTrue (D.told disk.old).tells_contents → (D.told disk.new).contents ≡ spliced (D.told disk.old).contents (place_of at held.page) bytes.now) }
    ensures writes { WritesAt (place_of at held.page) (D.told disk.old) (D.told disk.new) }
    ensures cause { HasCause (D.told disk.old).faults (D.told disk.new).faults result }
{
    table.known();
    write_page(disk, at, held.page, bytes)?;
    let page = held.page;
    table.put(frame, Held { page, log: None });
    Ok(())
}

/// Writes the page to its place, which lies within the disk. After a fault that place holds any bytes.
fn write_page<D: Disk>(disk: &mut D, at: u64, page: u64, bytes: &[u8]) -> Result<(), DiskFault>
    requires within { place_of at page + PAGE_SIZE ≤ (D.told disk.old).size }
    requires whole { length bytes.now ≡ PAGE_SIZE }
    ensures written { OnOk result (IsTrue (D.told disk.old).tells_contents → (D.told disk.new).contents ≡ spliced (D.told disk.old).contents (place_of at page) bytes.now) }
    ensures writes { WritesAt (place_of at page) (D.told disk.old) (D.told disk.new) }
    ensures cause { HasCause (D.told disk.old).faults (D.told disk.new).faults result }
{
    let place = place_on(disk.size(), at, page);
    disk.write(place, bytes)
}

/// The first byte of a page that lies within a disk of that size.
fn place_on(size: u64, at: u64, page: u64) -> u64
    requires { place_of at page + PAGE_SIZE ≤ size }
    ensures { result ≡ place_of at page }
{
    at + PAGE_SIZE as u64 * page
}

/// The frame for the page: its own, or an empty one, or one whose page is clean and goes.
fn frame_for(table: &mut PageTable, uses: &mut Uses, page: u64) -> Option<u32>
    requires { uses.old ≡ length table.old }
    ensures same { table.new ≡ table.old }
    ensures uses { uses.new ≡ uses.old }
    ensures within { IfSome result (λ frame. frame < length table.old) }
    ensures found { IfSome result (IsFrameFor table.old page) }
    ensures none { IfNone result (HasNoFrame table.old page) }
{
    if let Some(frame) = table.frame_of(page) {
        return Some(frame);
    }
    if let Some(frame) = table.empty() {
        return Some(frame);
    }
    table.choose(uses, Wanted::Clean)
}

/// Pages of zeros. `Err` is want of memory.
fn zeroed_pages(alloc: Global, frames: u32) -> Result<BoxedSlice<Page>, NoMemory>
    ensures { IfOk result (λ pages. length (boxed_slice_items pages) ≡ frames) }
{
    let mut pages = Vec::with_capacity(alloc, frames as usize)?;
    'pages: for _ in 0..frames {
        pages.push(Page::zeroed())?;
    }
    Ok(pages.into_boxed_slice())
}
