//! The scan of a select or a delete.

ghost use Rattle.std.specs.Prelude.{◌≡◌, ◌≢◌, ◌⊎◌, ◌<◌, ◌≤◌, ◌^◌, ◌++◌, ◌∷◌, [], ℕ, All, None, Some, true, false, length, take, IfErr, IfOk, OnOk, OnErr};
ghost use Rattle.std.specs.List.{list_all};
ghost use Rattle.block_model.specs.declared.place.Spot.{Spot as AnySpot};
ghost use Rattle.block_model.specs.declared.row.Row.{Row as AnyRow};
ghost use Rattle.block_model.specs.RowMatches.{column_matches, row_matches};
ghost use Rattle.page_store.specs.Survives.{Survives};
ghost use Rattle.page_map.specs.Keeps.{Keeps, Tells, Untold};
ghost use Rattle.page_locks.specs.declared.did.Did.TheVariants as did;
ghost use Rattle.heap_rows.specs.Heaps.{slots_a_page};
ghost use Rattle.heap_rows.specs.HeapBlocks.{OfBlocks, slots_of};
ghost use Rattle.heap_rows.specs.StoredRows.{SlotsAscend, stored_rows};
ghost use Rattle.bitmap_scan.specs.Finds.{Ascend, FaultNamesNext, FaultNamesRead, FaultNamesStatuses, FindOutcome, FindSteps, FindsIn, FindsThere, IsFindOf, IsNext, IsPointIn, IsScanning, OfSight, Sight, did_at, first_find, found_at, visible_matches};
ghost use Rattle.bitmap_scan.specs.LastStatuses.{Remembers};
ghost use Rattle.bitmap_scan.specs.LooksAhead.{NextIs};
ghost use Rattle.bitmap_scan.specs.ScanAnswers.{IsDamagedAt, NamesPageAt, ReadOutcome};
ghost use Rattle.bitmap_scan.specs.ScanHands.{IsHand, IsJudging, first_hand};

use crate::explain::point_at;
use crate::judging::{Judging, no_candidates};
use crate::sight::{LastStatuses, is_visible};
use crate::stage::Stage;
use block_model::{Cond, Query, Row, Spot, Value, matches};
use disk_trait::Disk;
use heap_rows::{PageRows, Stored, rows_of};
use page_locks::{Did, Point};
use page_map::MachineFault;
use page_store::PageStore;
use snapshot_core::Snapshot;
use std::alloc::Global;
use std::boxed::BoxedSlice;
use std::marker::Model;
use store_layout::Layout;
use tx_table::TxTable;

/// The scan of a select or a delete: it judges the ranges of the table's indexes, and then reads the candidate blocks for the rows
/// that its transaction sees and its query finds.
#[derive(Debug, Drop)]
pub struct Scan {
    judging: Judging,
    rows: PageRows,
    /// The candidates below this block are read.
    read: u32,
    next: Option<u32>,
    found: Vec<(Row, Spot)>,
    /// What it remembers of transactions that had ended at its snapshot.
    last: LastStatuses,
    /// Room for the candidates that there are after a step which it only looks at.
    ahead: BoxedSlice<bool>,
}

impl Model for Scan {
    ghost use Rattle.std.specs.Prelude.{◌≡◌, [], None, length};
    ghost use Rattle.std.specs.Box.{boxed_slice_items};
    ghost use Rattle.bitmap_scan.specs.Finds.{FindHand, IsFinding};

    ghost Value = { FindHand };

    ghost view = { λ a. record { judging = a.judging; read = a.read; next = a.next; found = a.found.items; last = a.last; room = a.rows.room } };

    ghost invariant = { λ a. IsFinding (record { judging = a.judging; read = a.read; next = a.next; found = a.found.items; last = a.last; room = a.rows.room }) × (length (boxed_slice_items a.ahead) ≡ length a.judging.candidates) };
}

impl Scan {
    /// Before the first step of a scan for a query of a table of the layout. Takes all the memory that it needs but that of the rows which it
    /// finds; where there isn't as much the query comes back.
    pub fn new(alloc: Global, query: Query, layout: &Layout) -> Result<Scan, Query>
        requires table { query.table < length layout.now.schema.tables }
        ensures begins { IfOk result (λ scan. scan ≡ first_find (first_hand layout.now query) (slots_a_page layout.now query.table)) }
        ensures back { IfErr result (λ back. back ≡ query) }
    {
        let table = usize::from(query.table);
        let Ok(rows) = PageRows::new(alloc, &layout.schema().tables.as_slice()[table]) else {
            return Err(query);
        };
        let Ok(ahead) = no_candidates(alloc, layout.sizes().heap_blocks as usize) else {
            return Err(query);
        };
        let judging = Judging::new(alloc, query, layout)?;
        Ok(Scan {
            judging,
            rows,
            read: 0,
            next: None,
            found: Vec::new(alloc),
            last: LastStatuses::new(),
            ahead,
        })
    }

    /// Does nothing; tells its caller that each row is found once, in the order of the places, and in a block that the table may have; and what
    /// holds of the judging of its ranges.
    pub fn known(&self)
        ensures order { Ascend 0 0 self.now.found }
        ensures within { All (λ (f : AnyRow × AnySpot). f.1.block < length self.now.judging.candidates) self.now.found }
        ensures hand { IsHand self.now.judging }
    {
        self.judging.known();
        let _ = &self.read;
    }

    /// The stage that it is at; once it is Judged, the scan reads candidate blocks.
    pub fn stage(&self) -> Stage
        ensures { result ≡ self.now.judging.stage }
    {
        self.judging.stage()
    }

    /// The next step, over the pages of a store of the layout and its transactions, for the transaction numbered `own` with its
    /// snapshot. Each page step reads one block, and takes memory for the rows that it finds alone. What it remembers of transactions, so
    /// that it reads the status of one once for many rows, has to stand. After an error nothing is changed.
    pub fn step<D: Disk + Drop>(
        &mut self,
        pages: &mut PageStore<D>,
        tx: &TxTable,
        snapshot: &Snapshot,
        own: u64,
    ) -> Result<Did, MachineFault>
        requires scan { IsFindOf pages.old.layout self.old }
        requires work { IsScanning self.old.judging.stage self.old.next }
        requires remembers { Tells D.told pages.old → OfSight pages.old.layout pages.old.pages snapshot.now own tx.now.first (λ sight. Remembers sight self.old.last) }
        ensures stepped { IfOk result (λ did. Tells D.told pages.old → OfSight pages.old.layout pages.old.pages snapshot.now own tx.now.first (λ sight. FindSteps pages.old.layout pages.old.pages sight self.old self.new did)) }
        ensures rows { OnOk result (OfBlocks D.told pages.old self.old.judging.query.table (λ blocks. OfSight pages.old.layout pages.old.pages snapshot.now own tx.now.first (λ sight. FindsThere sight blocks self.old self.new self.old.next))) }
        ensures point { IfOk result (IsPointIn self.old self.new) }
        ensures begun { OnOk result (self.new.judging.stage ≢ Stage.Extent) }
        ensures scan { IsFindOf pages.old.layout self.new }
        ensures query { self.new.judging.query ≡ self.old.judging.query }
        ensures remembers { Tells D.told pages.old → OfSight pages.old.layout pages.old.pages snapshot.now own tx.now.first (λ sight. Remembers sight self.new.last) }
        ensures same { OnErr result (self.new ≡ self.old) }
        ensures kept { Keeps D.told pages.old pages.new }
        ensures survives { Survives D.told (λ passed. passed ≡ pages.old.pages) pages.old pages.new }
        ensures names { IfErr result (FaultNamesNext pages.old.layout self.old self.old.next) }
        ensures undamaged { OnOk result (Tells D.told pages.old → IsDamagedAt pages.old.layout pages.old.pages self.old.judging.indexes self.old.judging.stage → ⊥) }
        ensures outcome { FindOutcome D.told (Tells D.told pages.old → IsDamagedAt pages.old.layout pages.old.pages self.old.judging.indexes self.old.judging.stage) pages.old pages.new self.old.next result }
    {
        match self.next {
            Some(block) => self.read_block(pages, tx, snapshot, own, block),
            None => self.judge_range(pages),
        }
    }

    /// Whether the next step is the last one, over the pages of a store of the layout. Changes nothing, and takes no memory; it reads what the
    /// step reads of an index, and no block.
    pub fn peek<D: Disk + Drop>(&mut self, pages: &mut PageStore<D>) -> Result<bool, MachineFault>
        requires scan { IsFindOf pages.old.layout self.old }
        requires work { IsScanning self.old.judging.stage self.old.next }
        ensures same { self.new ≡ self.old }
        ensures ends { IfOk result (λ last. last ≡ true → Tells D.told pages.old → NextIs pages.old.layout pages.old.pages self.old did.Finished) }
        ensures goes { IfOk result (λ last. last ≡ false → Tells D.told pages.old → NextIs pages.old.layout pages.old.pages self.old did.Moved) }
        ensures kept { Keeps D.told pages.old pages.new }
        ensures survives { Survives D.told (λ passed. passed ≡ pages.old.pages) pages.old pages.new }
        ensures names { IfErr result (FaultNamesNext pages.old.layout self.old self.old.next) }
        ensures outcome { ReadOutcome D.told (Tells D.told pages.old → IsDamagedAt pages.old.layout pages.old.pages self.old.judging.indexes self.old.judging.stage) pages.old pages.new result }
    {
        match self.next {
            Some(block) => self.peek_block(pages, block),
            None => self.peek_range(pages),
        }
    }

    /// Whether no candidate stands behind the next one. Reads no page.
    fn peek_block<D: Disk + Drop>(
        &self,
        pages: &PageStore<D>,
        block: u32,
    ) -> Result<bool, MachineFault>
        requires scan { IsFindOf pages.now.layout self.now }
        requires next { self.now.next ≡ Some block }
        ensures ends { IfOk result (λ last. last ≡ true → NextIs pages.now.layout pages.now.pages self.now did.Finished) }
        ensures goes { IfOk result (λ last. last ≡ false → NextIs pages.now.layout pages.now.pages self.now did.Moved) }
        ensures survives { Survives D.told (λ passed. passed ≡ pages.now.pages) pages.now pages.now }
        ensures names { IfErr result (FaultNamesRead pages.now.layout self.now.judging.query.table block) }
        ensures outcome { ReadOutcome D.told ⊥ pages.now pages.now result }
    {
        match pages.ready() {
            Ok(()) => {}
            Err(error) => return Err(MachineFault::Store(error)),
        }
        self.judging.known();
        Ok(next_candidate(self.judging.candidates(), block + 1).is_none())
    }

    /// Whether no range and no candidate is left after the step that reads the block count, or judges a range.
    fn peek_range<D: Disk + Drop>(&mut self, pages: &mut PageStore<D>) -> Result<bool, MachineFault>
        requires scan { IsFindOf pages.old.layout self.old }
        requires work { IsJudging self.old.judging.stage }
        ensures same { self.new ≡ self.old }
        ensures ends { IfOk result (λ last. last ≡ true → Tells D.told pages.old → NextIs pages.old.layout pages.old.pages self.old did.Finished) }
        ensures goes { IfOk result (λ last. last ≡ false → Tells D.told pages.old → NextIs pages.old.layout pages.old.pages self.old did.Moved) }
        ensures kept { Keeps D.told pages.old pages.new }
        ensures survives { Survives D.told (λ passed. passed ≡ pages.old.pages) pages.old pages.new }
        ensures names { IfErr result (NamesPageAt pages.old.layout self.old.judging.indexes self.old.judging.stage) }
        ensures outcome { ReadOutcome D.told (Tells D.told pages.old → IsDamagedAt pages.old.layout pages.old.pages self.old.judging.indexes self.old.judging.stage) pages.old pages.new result }
    {
        self.judging.known();
        let all = self.judging.peek(pages, &mut self.ahead)?;
        if !all {
            return Ok(false);
        }
        Ok(next_candidate(&self.ahead, 0).is_none())
    }

    /// The step that reads the next candidate block.
    fn read_block<D: Disk + Drop>(
        &mut self,
        pages: &mut PageStore<D>,
        tx: &TxTable,
        snapshot: &Snapshot,
        own: u64,
        block: u32,
    ) -> Result<Did, MachineFault>
        requires scan { IsFindOf pages.old.layout self.old }
        requires next { self.old.next ≡ Some block }
        requires remembers { Tells D.told pages.old → OfSight pages.old.layout pages.old.pages snapshot.now own tx.now.first (λ sight. Remembers sight self.old.last) }
        ensures stepped { IfOk result (λ did. Tells D.told pages.old → OfSight pages.old.layout pages.old.pages snapshot.now own tx.now.first (λ sight. FindSteps pages.old.layout pages.old.pages sight self.old self.new did)) }
        ensures rows { OnOk result (OfBlocks D.told pages.old self.old.judging.query.table (λ blocks. OfSight pages.old.layout pages.old.pages snapshot.now own tx.now.first (λ sight. FindsThere sight blocks self.old self.new (Some block)))) }
        ensures point { IfOk result (IsPointIn self.old self.new) }
        ensures begun { OnOk result (self.new.judging.stage ≢ Stage.Extent) }
        ensures judged { self.old.judging.stage ≡ Stage.Judged }
        ensures scan { IsFindOf pages.old.layout self.new }
        ensures query { self.new.judging.query ≡ self.old.judging.query }
        ensures remembers { Tells D.told pages.old → OfSight pages.old.layout pages.old.pages snapshot.now own tx.now.first (λ sight. Remembers sight self.new.last) }
        ensures same { OnErr result (self.new ≡ self.old) }
        ensures kept { Keeps D.told pages.old pages.new }
        ensures survives { Survives D.told (λ passed. passed ≡ pages.old.pages) pages.old pages.new }
        ensures names { IfErr result (FaultNamesRead pages.old.layout self.old.judging.query.table block) }
        ensures outcome { FindOutcome D.told (Untold D.told pages.old) pages.old pages.new (Some block) result }
    {
        self.judging.known();
        let query = self.judging.query();
        let mut last = self.last;
        find_on(
            pages,
            tx,
            snapshot,
            own,
            query,
            block,
            &mut self.rows,
            &mut last,
            &mut self.found,
        )?;
        self.last = last;
        self.read = block + 1;
        self.next = next_candidate(self.judging.candidates(), block + 1);
        Ok(did_at(Point::Page, self.next))
    }

    /// The step that reads the block count, or judges a range.
    fn judge_range<D: Disk + Drop>(&mut self, pages: &mut PageStore<D>) -> Result<Did, MachineFault>
        requires scan { IsFindOf pages.old.layout self.old }
        requires work { IsJudging self.old.judging.stage }
        ensures stepped { IfOk result (λ did. Tells D.told pages.old → (sight : Sight) → FindSteps pages.old.layout pages.old.pages sight self.old self.new did) }
        ensures found { self.new.found ≡ self.old.found }
        ensures last { self.new.last ≡ self.old.last }
        ensures point { IfOk result (IsPointIn self.old self.new) }
        ensures begun { OnOk result (self.new.judging.stage ≢ Stage.Extent) }
        ensures scan { IsFindOf pages.old.layout self.new }
        ensures query { self.new.judging.query ≡ self.old.judging.query }
        ensures same { OnErr result (self.new ≡ self.old) }
        ensures kept { Keeps D.told pages.old pages.new }
        ensures survives { Survives D.told (λ passed. passed ≡ pages.old.pages) pages.old pages.new }
        ensures names { IfErr result (NamesPageAt pages.old.layout self.old.judging.indexes self.old.judging.stage) }
        ensures undamaged { OnOk result (Tells D.told pages.old → IsDamagedAt pages.old.layout pages.old.pages self.old.judging.indexes self.old.judging.stage → ⊥) }
        ensures outcome { ReadOutcome D.told (Tells D.told pages.old → IsDamagedAt pages.old.layout pages.old.pages self.old.judging.indexes self.old.judging.stage) pages.old pages.new result }
    {
        let point = point_at(self.judging.stage());
        self.judging.step(pages)?;
        if self.judging.is_judged() {
            self.judging.known();
            self.next = next_candidate(self.judging.candidates(), 0);
            Ok(did_at(point, self.next))
        } else {
            Ok(Did::Moved(point))
        }
    }

    /// The rows found, with their places, in the order of these.
    pub fn found(&self) -> &[(Row, Spot)]
        ensures { result.now ≡ self.now.found }
    {
        self.found.as_slice()
    }

    /// The query, and the rows found, with their places, in the order of these. Takes no memory.
    pub fn into_parts(self) -> (Query, Vec<(Row, Spot)>)
        ensures { (result.0 ≡ self.judging.query) × (result.1.items ≡ self.found) }
    {
        let Scan { judging, found, .. } = self;
        (judging.into_query(), found)
    }

    /// The query alone. Takes no memory.
    pub fn into_query(self) -> Query
        ensures { result ≡ self.judging.query }
    {
        let Scan { judging, .. } = self;
        judging.into_query()
    }
}

/// What a step at this point did, where that block is to be read next.
fn did_at(point: Point, next: Option<u32>) -> Did
    ensures { result ≡ did_at point next }
{
    match next {
        Some(_) => Did::Moved(point),
        None => Did::Finished(point),
    }
}

/// The first candidate from that block on.
fn next_candidate(candidates: &[bool], from: u32) -> Option<u32>
    requires small { length candidates.now < 2 ^ 32 }
    ensures { IsNext candidates.now from result }
{
    let end = candidates.len() as u32;
    let mut block = from;
    'candidates: while block < end {
        if candidates[block as usize] {
            return Some(block);
        }
        block += 1;
    }
    None
}

/// Appends the visible matches of the block to `found`. After an error `found` is as before.
fn find_on<D: Disk + Drop>(
    pages: &mut PageStore<D>,
    tx: &TxTable,
    snapshot: &Snapshot,
    own: u64,
    query: &Query,
    block: u32,
    rows: &mut PageRows,
    last: &mut LastStatuses,
    found: &mut Vec<(Row, Spot)>,
) -> Result<(), MachineFault>
    requires table { query.now.table < length pages.old.layout.schema.tables }
    requires block { block < pages.old.layout.sizes.heap_blocks }
    requires room { slots_a_page pages.old.layout query.now.table ≤ rows.old.room }
    requires remembers { Tells D.told pages.old → OfSight pages.old.layout pages.old.pages snapshot.now own tx.now.first (λ sight. Remembers sight last.old) }
    ensures found { OnOk result (OfBlocks D.told pages.old query.now.table (λ blocks. OfSight pages.old.layout pages.old.pages snapshot.now own tx.now.first (λ sight. found.new.items ≡ found.old.items ++ visible_matches sight query.now block (stored_rows (slots_of blocks block))))) }
    ensures order { OnOk result (FindsIn block found.old.items found.new.items) }
    ensures remembers { OnOk result (Tells D.told pages.old → OfSight pages.old.layout pages.old.pages snapshot.now own tx.now.first (λ sight. Remembers sight last.new)) }
    ensures same { OnErr result (found.new.items ≡ found.old.items) }
    ensures room { rows.new.room ≡ rows.old.room }
    ensures kept { Keeps D.told pages.old pages.new }
    ensures survives { Survives D.told (λ passed. passed ≡ pages.old.pages) pages.old pages.new }
    ensures names { IfErr result (FaultNamesRead pages.old.layout query.now.table block) }
    ensures outcome { FindOutcome D.told (Untold D.told pages.old) pages.old pages.new (Some block) result }
{
    match rows_of(pages, query.table, block, rows) {
        Ok(()) => {}
        Err(error) => return Err(MachineFault::Store(error)),
    }
    let before = found.len();
    match find_among(
        pages,
        tx,
        snapshot,
        own,
        query,
        block,
        rows.as_slice(),
        last,
        found,
    ) {
        Ok(()) => Ok(()),
        Err(fault) => {
            found.truncate(before);
            Err(fault)
        }
    }
}

/// Appends the visible matches among the rows of the block to `found`; after an error some of them.
fn find_among<D: Disk + Drop>(
    pages: &mut PageStore<D>,
    tx: &TxTable,
    snapshot: &Snapshot,
    own: u64,
    query: &Query,
    block: u32,
    rows: &[Stored],
    last: &mut LastStatuses,
    found: &mut Vec<(Row, Spot)>,
) -> Result<(), MachineFault>
    requires ready { pages.old.failed ≡ None }
    requires order { (count : ℕ) × SlotsAscend 0 count rows.now }
    requires remembers { Tells D.told pages.old → OfSight pages.old.layout pages.old.pages snapshot.now own tx.now.first (λ sight. Remembers sight last.old) }
    ensures found { OnOk result (Tells D.told pages.old → OfSight pages.old.layout pages.old.pages snapshot.now own tx.now.first (λ sight. found.new.items ≡ found.old.items ++ visible_matches sight query.now block rows.now)) }
    ensures order { OnOk result (FindsIn block found.old.items found.new.items) }
    ensures remembers { OnOk result (Tells D.told pages.old → OfSight pages.old.layout pages.old.pages snapshot.now own tx.now.first (λ sight. Remembers sight last.new)) }
    ensures front { take (length found.old.items) found.new.items ≡ found.old.items }
    ensures kept { Keeps D.told pages.old pages.new }
    ensures survives { Survives D.told (λ passed. passed ≡ pages.old.pages) pages.old pages.new }
    ensures names { IfErr result (FaultNamesStatuses pages.old.layout) }
    ensures outcome { FindOutcome D.told (Untold D.told pages.old) pages.old pages.new (Some block) result }
{
    pages.known();
    'rows: for row in rows {
        add_visible(pages, tx, snapshot, own, query, block, row, last, found)?;
    }
    Ok(())
}

/// Appends the row of the block to `found`, if the transaction sees it and the query finds it. After an error `found` is as before.
fn add_visible<D: Disk + Drop>(
    pages: &mut PageStore<D>,
    tx: &TxTable,
    snapshot: &Snapshot,
    own: u64,
    query: &Query,
    block: u32,
    row: &Stored,
    last: &mut LastStatuses,
    found: &mut Vec<(Row, Spot)>,
) -> Result<(), MachineFault>
    requires ready { pages.old.failed ≡ None }
    requires remembers { Tells D.told pages.old → OfSight pages.old.layout pages.old.pages snapshot.now own tx.now.first (λ sight. Remembers sight last.old) }
    ensures visible { OnOk result (Tells D.told pages.old → OfSight pages.old.layout pages.old.pages snapshot.now own tx.now.first (λ sight. found.new.items ≡ found.old.items ++ visible_matches sight query.now block (row.now ∷ []))) }
    ensures added { OnOk result ((found.new.items ≡ found.old.items) ⊎ (found.new.items ≡ found.old.items ++ found_at query.now.table block row.now ∷ [])) }
    ensures remembers { OnOk result (Tells D.told pages.old → OfSight pages.old.layout pages.old.pages snapshot.now own tx.now.first (λ sight. Remembers sight last.new)) }
    ensures same { OnErr result (found.new.items ≡ found.old.items) }
    ensures kept { Keeps D.told pages.old pages.new }
    ensures survives { Survives D.told (λ passed. passed ≡ pages.old.pages) pages.old pages.new }
    ensures names { IfErr result (FaultNamesStatuses pages.old.layout) }
    ensures outcome { FindOutcome D.told (Untold D.told pages.old) pages.old pages.new (Some block) result }
{
    pages.known();
    if !is_match(row, query) {
        return Ok(());
    }
    match is_visible(pages, tx, snapshot, own, row, last) {
        Ok(true) => match found.push(found_at(query.table, block, row)) {
            Ok(()) => Ok(()),
            Err(_) => Err(MachineFault::Memory),
        },
        Ok(false) => Ok(()),
        Err(error) => Err(MachineFault::Store(error)),
    }
}

/// Whether the query finds the row of its table. Copies no row.
fn is_match(row: &Stored, query: &Query) -> bool
    ensures { result ≡ row_matches query.now (found_at query.now.table 0 row.now).0 }
{
    values_match(row.values.as_slice(), query.conds.as_slice())
}

/// Whether the values meet each condition.
fn values_match(values: &[Value], conds: &[Cond]) -> bool
    ensures { result ≡ list_all (column_matches values.now) conds.now }
{
    conds.iter().all(|cond| column_matches(values, cond))
}

/// Whether the value of the condition's column meets it; one that isn't there doesn't.
fn column_matches(values: &[Value], cond: &Cond) -> bool
    ensures { result ≡ column_matches values.now cond.now }
{
    match values.get(usize::from(cond.column)) {
        Some(value) => matches(value, cond.op, &cond.key),
        None => false,
    }
}

/// The row of the table's block of that number, and where it stands.
fn found_at(table: u8, block: u32, row: &Stored) -> (Row, Spot)
    ensures { result ≡ found_at table block row.now }
{
    let found = Row {
        table,
        id: row.id,
        values: row.values,
    };
    let spot = Spot {
        block,
        slot: row.slot,
    };
    (found, spot)
}
