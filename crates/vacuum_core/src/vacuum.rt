//! A vacuum of a table, up to its summaries.

ghost use Rattle.std.specs.Prelude.{◌≡◌, ◌≢◌, ◌<◌, ◌≤◌, ℕ, List, None, Option, length, vec_capacity, IfOk, IfErr, OnErr, OnOk};
ghost use Rattle.std.specs.Box.{boxed_slice_items};
ghost use Rattle.block_model.specs.declared.limits.TheConstants.{PAGE_SIZE};
ghost use Rattle.page_map.specs.Keeps.{Keeps, Leaves, Tells, Untold};
ghost use Rattle.page_map.specs.Outcome.{Outcome};
ghost use Rattle.page_store.specs.Survives.{Survives};
ghost use Rattle.page_locks.specs.LockHolders.{LockState};
ghost use Rattle.heap_rows.specs.Heaps.{slots_a_page};
ghost use Rattle.heap_rows.specs.LeavesOthers.{LeavesOthers as LeavesOtherTables};
ghost use Rattle.index_contents.specs.KeepsOrder.{KeepsOrder};
ghost use Rattle.index_steps.specs.ShownTable.{indexes_of};
ghost use Rattle.index_steps.specs.StepAnswers.{NeverBlocked};
ghost use Rattle.index_steps.specs.SwapAnswers.{MachineOutcome};
ghost use Rattle.vacuum_core.specs.declared.judging.TheConstants.{MAX_SLOT_BYTES};
ghost use Rattle.vacuum_core.specs.NextPages.{NamesPageOfSome};
ghost use Rattle.vacuum_core.specs.Vacuums.{BlockedAt, ComesTo, DoesOver, FaultNamesPage, HasHeap, HasMoved, HasRight, IsNextPlace, IsVacuumOf, LeavesTheRest, PrunesAt, RightAnswers, StandsThen, answer_at, standing_at, state_of};

use crate::indexes::{indexes_are_declared, indexes_of};
use crate::judging::MAX_SLOT_BYTES;
use crate::next_page::next_page;
use crate::pruning::prune;
use crate::standing::{Course, Standing};
use crate::sweeping::sweep;
use block_model::{NoMemory, PAGE_SIZE, Place, Point};
use disk_trait::Disk;
use heap_rows::{PageRows, blocks};
use index_contents::relation_of;
use index_steps::lock_of_another;
use page_locks::{Did, Locks, Rights};
use page_map::{MachineFault, StoreError};
use page_store::PageStore;
use snapshot_core::Snapshot;
use std::alloc::Global;
use std::boxed::BoxedSlice;
use std::marker::Model;
use store_layout::Layout;
use tx_table::TxTable;

/// Room for what is read and listed of one page: the rows of a block and the slots of the dead ones; the bytes of an index's page, and the
/// slots of its unnamed tuples, two bytes each.
#[derive(Debug, Drop)]
struct Room {
    rows: PageRows,
    dead: Vec<u16>,
    page: BoxedSlice<u8>,
    unnamed: Vec<u8>,
}

/// A vacuum of a table: the table, the numbers of its indexes, how far it has come, and its room.
#[derive(Debug, Drop)]
pub struct Vacuum {
    table: u8,
    indexes: BoxedSlice<u8>,
    course: Course,
    room: Room,
}

impl Model for Vacuum {
    ghost use Rattle.std.specs.Prelude.{◌≡◌, ◌≤◌, length, vec_capacity};
    ghost use Rattle.std.specs.Box.{boxed_slice_items};
    ghost use Rattle.block_model.specs.declared.limits.TheConstants.{PAGE_SIZE};
    ghost use Rattle.vacuum_core.specs.declared.judging.TheConstants.{MAX_SLOT_BYTES};
    ghost use Rattle.vacuum_core.specs.Vacuums.{VacuumState, state_of};

    ghost Value = { VacuumState };

    ghost view = { λ a. state_of a.table (boxed_slice_items a.indexes) a.course a.room.rows.room (vec_capacity a.room.dead) };

    ghost invariant = { λ a. (length (boxed_slice_items a.room.page) ≡ PAGE_SIZE) × (MAX_SLOT_BYTES ≤ vec_capacity a.room.unnamed) };
}

impl Vacuum {
    /// Before the first step. Takes all the memory that the vacuum ever needs.
    pub fn new(alloc: Global, table: u8, layout: &Layout) -> Result<Vacuum, NoMemory>
        requires { table < length layout.now.schema.tables }
        ensures begins { IfOk result (λ vacuum. vacuum.standing ≡ Standing.Begins) }
        ensures table { IfOk result (λ vacuum. vacuum.table ≡ table) }
        ensures of { IfOk result (IsVacuumOf layout.now) }
    {
        let indexes = indexes_of(alloc, layout, table)?;
        let room = room_for(alloc, layout, table)?;
        Ok(Vacuum {
            table,
            indexes,
            course: Course {
                standing: Standing::Begins,
                extent: 0,
                rows: 0,
                unnamed: 0,
            },
            room,
        })
    }

    /// The number of its table.
    pub fn table(&self) -> u8
        ensures { result ≡ self.now.table }
    {
        self.table
    }

    /// How many rows it has dropped, and how many unnamed tuples; and 0: the ranges that get a final tuple are counted by the summaries behind
    /// it, and its caller adds their counts.
    pub fn counts(&self) -> (u64, u64, u64)
        ensures { result ≡ (self.now.rows, self.now.unnamed, 0) }
    {
        (self.course.rows, self.course.unnamed, 0)
    }

    /// The next step. The first one takes the summarise lock of the table, and reads the extent; the lock is the caller's to give, once the
    /// summaries are done that come behind the vacuum's last step. A step at a block of the heap drops the rows that are dead to all, by the
    /// snapshots `live`, of which the one with the oldest view is enough; one at a page of an index drops the tuples that the map doesn't
    /// name, where no other actor holds the page's lock, and takes no lock. Where a step is blocked, or lacks the summarise lock, nothing is
    /// changed; after an error no page is. Takes no memory.
    pub fn step<D: Disk + Drop>(
        &mut self,
        pages: &mut PageStore<D>,
        locks: &mut Locks,
        rights: &mut Rights,
        tx: &TxTable,
        live: &[Snapshot],
        actor: u32,
    ) -> Result<Did, MachineFault>
        requires of { IsVacuumOf pages.old.layout self.old }
        requires left { self.old.standing ≢ Standing.Done }
        requires rights { length pages.old.layout.schema.tables ≤ length rights.old }
        requires heap { Tells D.told pages.old → HasHeap pages.old.layout pages.old.pages self.old.table }
        ensures does { IfOk result (DoesOver D.told pages.old pages.new locks.old rights.old rights.new actor self.old self.new) }
        ensures pruned { OnOk result (PrunesAt D.told pages.old pages.new live.now tx.now.first self.old self.old.standing) }
        ensures stands { IfOk result (StandsThen self.old self.new) }
        ensures of { IsVacuumOf pages.old.layout self.new }
        ensures same_table { self.new.table ≡ self.old.table }
        ensures right { IfOk result (RightAnswers self.old.table actor rights.old rights.new self.old.standing) }
        ensures rights { OnErr result (rights.new ≡ rights.old) }
        ensures blocked { IfOk result (BlockedAt D.told self.old actor pages.old pages.new locks.old self.old.standing) }
        ensures others { LeavesTheRest D.told self.old self.old.standing pages.old pages.new }
        ensures leaves { Leaves D.told pages.old pages.new }
        ensures order { (index : ℕ) → index < length pages.old.layout.schema.indexes → KeepsOrder D.told index pages.old pages.new }
        ensures locks { locks.new ≡ locks.old }
        ensures stays { OnErr result (self.new ≡ self.old) }
        // The changes themselves aren't sure before the next flush.
        ensures survives { Survives D.told (λ passed. passed ≡ pages.old.pages) pages.old pages.new }
        ensures kept { OnErr result (Keeps D.told pages.old pages.new) }
        ensures at { IfErr result (FaultNamesPage pages.old.layout self.old.table) }
        ensures outcome { MachineOutcome D.told (Untold D.told pages.old) pages.old pages.new result }
    {
        match self.course.standing {
            Standing::Begins => self.begin(pages, rights, actor),
            Standing::Prunes(block) => self.prune_block(pages, tx, live, block),
            Standing::Sweeps { at, block } => self.sweep_page(pages, locks, at, block, actor),
            Standing::Done => unreachable!(),
        }
    }

    /// Takes the summarise lock of the table, and reads its extent: comes to the first block, or behind it to the first page with tuples, if
    /// there is one.
    fn begin<D: Disk + Drop>(
        &mut self,
        pages: &mut PageStore<D>,
        rights: &mut Rights,
        actor: u32,
    ) -> Result<Did, MachineFault>
        requires of { IsVacuumOf pages.old.layout self.old }
        requires begins { self.old.standing ≡ Standing.Begins }
        requires rights { length pages.old.layout.schema.tables ≤ length rights.old }
        ensures does { IfOk result (λ did. (locks : LockState) → DoesOver D.told pages.old pages.new locks rights.old rights.new actor self.old self.new did) }
        ensures stands { IfOk result (StandsThen self.old self.new) }
        ensures of { IsVacuumOf pages.old.layout self.new }
        ensures same_table { self.new.table ≡ self.old.table }
        ensures right { IfOk result (RightAnswers self.old.table actor rights.old rights.new Standing.Begins) }
        ensures rights { OnErr result (rights.new ≡ rights.old) }
        ensures never_blocked { IfOk result NeverBlocked }
        ensures stays { OnErr result (self.new ≡ self.old) }
        ensures kept { Keeps D.told pages.old pages.new }
        ensures survives { Survives D.told (λ passed. passed ≡ pages.old.pages) pages.old pages.new }
        ensures at { IfErr result (FaultNamesPage pages.old.layout self.old.table) }
        ensures outcome { MachineOutcome D.told (Untold D.told pages.old) pages.old pages.new result }
    {
        match pages.ready() {
            Ok(()) => {}
            Err(error) => return Err(MachineFault::Store(error)),
        }
        let extent = blocks(pages, self.table);
        let next = match stand_at(pages, &self.indexes, 0, extent) {
            Ok(next) => next,
            Err(error) => return Err(MachineFault::Store(error)),
        };
        match rights.take(self.table, actor) {
            Ok(()) => {}
            Err(by) => return Ok(Did::NoRight { by }),
        }
        self.course = Course {
            standing: next,
            extent,
            rows: 0,
            unnamed: 0,
        };
        Ok(answer_at(Point::Right, next))
    }

    /// Drops the dead rows of the block, and comes to the next one, or to the first page with tuples.
    fn prune_block<D: Disk + Drop>(
        &mut self,
        pages: &mut PageStore<D>,
        tx: &TxTable,
        live: &[Snapshot],
        block: u32,
    ) -> Result<Did, MachineFault>
        requires of { IsVacuumOf pages.old.layout self.old }
        requires at { self.old.standing ≡ Standing.Prunes block }
        requires heap { Tells D.told pages.old → HasHeap pages.old.layout pages.old.pages self.old.table }
        ensures does { IfOk result (λ did. (locks : LockState) (rights : List (Option ℕ)) (actor : ℕ) → DoesOver D.told pages.old pages.new locks rights rights actor self.old self.new did) }
        ensures pruned { OnOk result (PrunesAt D.told pages.old pages.new live.now tx.now.first self.old (Standing.Prunes block)) }
        ensures stands { IfOk result (StandsThen self.old self.new) }
        ensures of { IsVacuumOf pages.old.layout self.new }
        ensures same_table { self.new.table ≡ self.old.table }
        ensures never_refused { IfOk result HasMoved }
        ensures others { LeavesOtherTables D.told self.old.table pages.old pages.new }
        ensures stays { OnErr result (self.new ≡ self.old) }
        ensures survives { Survives D.told (λ passed. passed ≡ pages.old.pages) pages.old pages.new }
        ensures kept { OnErr result (Keeps D.told pages.old pages.new) }
        ensures at { IfErr result (FaultNamesPage pages.old.layout self.old.table) }
        ensures outcome { MachineOutcome D.told (Untold D.told pages.old) pages.old pages.new result }
    {
        match pages.ready() {
            Ok(()) => {}
            Err(error) => return Err(MachineFault::Store(error)),
        }
        pages.layout().known();
        let next = match stand_at(pages, &self.indexes, block + 1, self.course.extent) {
            Ok(next) => next,
            Err(error) => return Err(MachineFault::Store(error)),
        };
        let room = &mut self.room;
        let count = match prune(
            pages,
            tx,
            live,
            self.table,
            block,
            &mut room.rows,
            &mut room.dead,
        ) {
            Ok(count) => count,
            Err(error) => return Err(MachineFault::Store(error)),
        };
        self.course.rows += count;
        self.course.standing = next;
        Ok(answer_at(Point::Prune, next))
    }

    /// Drops the unnamed tuples of the page, and comes to the next one with tuples.
    fn sweep_page<D: Disk + Drop>(
        &mut self,
        pages: &mut PageStore<D>,
        locks: &Locks,
        at: u8,
        block: u32,
        actor: u32,
    ) -> Result<Did, MachineFault>
        requires of { IsVacuumOf pages.old.layout self.old }
        requires at { self.old.standing ≡ Standing.Sweeps at block }
        ensures does { IfOk result (λ did. (rights : List (Option ℕ)) → DoesOver D.told pages.old pages.new locks.now rights rights actor self.old self.new did) }
        ensures stands { IfOk result (StandsThen self.old self.new) }
        ensures of { IsVacuumOf pages.old.layout self.new }
        ensures same_table { self.new.table ≡ self.old.table }
        ensures blocked { IfOk result (BlockedAt D.told self.old actor pages.old pages.new locks.now (Standing.Sweeps at block)) }
        ensures has_right { IfOk result HasRight }
        ensures others { LeavesTheRest D.told self.old (Standing.Sweeps at block) pages.old pages.new }
        ensures order { (index : ℕ) → index < length pages.old.layout.schema.indexes → KeepsOrder D.told index pages.old pages.new }
        ensures stays { OnErr result (self.new ≡ self.old) }
        ensures survives { Survives D.told (λ passed. passed ≡ pages.old.pages) pages.old pages.new }
        ensures kept { OnErr result (Keeps D.told pages.old pages.new) }
        ensures at { IfErr result (FaultNamesPage pages.old.layout self.old.table) }
        ensures outcome { MachineOutcome D.told (Untold D.told pages.old) pages.old pages.new result }
    {
        indexes_are_declared();
        match pages.ready() {
            Ok(()) => {}
            Err(error) => return Err(MachineFault::Store(error)),
        }
        pages.layout().known();
        let index = self.indexes[usize::from(at)];
        let relation = relation_of(pages.layout(), index);
        match lock_of_another(locks, Place { relation, block }, actor) {
            Some(held) => return Ok(Did::Blocked(held)),
            None => {}
        }
        let next = match next_page(pages, &self.indexes, at, block + 1) {
            Ok(next) => standing_of(next),
            Err(error) => return Err(MachineFault::Store(error)),
        };
        let room = &mut self.room;
        let count = match sweep(pages, index, block, &mut room.page, &mut room.unnamed) {
            Ok(count) => count,
            Err(error) => return Err(MachineFault::Store(error)),
        };
        self.course.unnamed += count;
        self.course.standing = next;
        Ok(answer_at(Point::Sweep, next))
    }
}

/// Room for what is read and listed of a page of the table, and of one of its indexes.
fn room_for(alloc: Global, layout: &Layout, table: u8) -> Result<Room, NoMemory>
    requires { table < length layout.now.schema.tables }
    ensures rows { IfOk result (λ room. slots_a_page layout.now table ≤ room.rows.room) }
    ensures dead { IfOk result (λ room. slots_a_page layout.now table ≤ vec_capacity room.dead) }
    ensures page { IfOk result (λ room. length (boxed_slice_items room.page) ≡ PAGE_SIZE) }
    ensures unnamed { IfOk result (λ room. MAX_SLOT_BYTES ≤ vec_capacity room.unnamed) }
{
    let declared = &layout.schema().tables.as_slice()[usize::from(table)];
    let rows = PageRows::new(alloc, declared)?;
    let dead = Vec::with_capacity(alloc, usize::from(declared.rows_per_page))?;
    let page = vec![in alloc; 0u8; PAGE_SIZE]?;
    let unnamed = Vec::with_capacity(alloc, MAX_SLOT_BYTES)?;
    Ok(Room {
        rows,
        dead,
        page: page.into_boxed_slice(),
        unnamed,
    })
}

/// At the block of the heap, if it is below the extent; else at the first page of these indexes with tuples, if there is one.
fn stand_at<D: Disk + Drop>(
    pages: &mut PageStore<D>,
    indexes: &[u8],
    block: u32,
    extent: u32,
) -> Result<Standing, StoreError>
    requires ready { pages.old.failed ≡ None }
    requires table { (table : ℕ) × (indexes.now ≡ indexes_of pages.old.layout table) }
    requires few { length indexes.now ≤ 8 }
    ensures comes { IfOk result (λ next. Tells D.told pages.old → ComesTo pages.old.layout pages.old.pages indexes.now extent block next) }
    ensures place { IfOk result (IsNextPlace pages.old.layout (length indexes.now) extent block) }
    ensures kept { Keeps D.told pages.old pages.new }
    ensures survives { Survives D.told (λ passed. passed ≡ pages.old.pages) pages.old pages.new }
    ensures at { IfErr result (NamesPageOfSome pages.old.layout) }
    ensures outcome { Outcome D.told (Untold D.told pages.old) pages.old pages.new result }
{
    indexes_are_declared();
    pages.known();
    if block < extent {
        return Ok(Standing::Prunes(block));
    }
    match next_page(pages, indexes, 0, 0) {
        Ok(next) => Ok(standing_of(next)),
        Err(error) => Err(error),
    }
}

/// At the next page with tuples, the place of whose index comes first; done with none.
fn standing_of(next: Option<(u8, u32)>) -> Standing
    ensures { result ≡ standing_at next }
{
    match next {
        Some((at, block)) => Standing::Sweeps { at, block },
        None => Standing::Done,
    }
}

/// The step goes on, or was the last one.
fn answer_at(point: Point, standing: Standing) -> Did
    ensures { result ≡ answer_at point standing }
{
    match standing {
        Standing::Begins | Standing::Prunes(_) | Standing::Sweeps { .. } => Did::Moved(point),
        Standing::Done => Did::Finished(point),
    }
}
