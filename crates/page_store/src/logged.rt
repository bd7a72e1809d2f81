//! Pages of a disk with their log and their pool.

ghost use Rattle.std.specs.Prelude.{◌≡◌, ◌⊎◌, ◌||◌, [], ◌∷◌, ◌+◌, ◌*◌, ◌^◌, ◌<◌, ◌≤◌, ℕ, List, IsTrue, Some, None, true, false, length, slice_index_or, IfOk, IfSome, IfErr, OnOk, OnErr, IsSome, option_copied};
ghost use Rattle.block_model.specs.declared.place.Place.{Place as AnyPlace};
ghost use Rattle.store_layout.specs.DiskLayout.{IsPlace, area_size};
ghost use Rattle.page_layout.specs.PageContents.{IsForm};
ghost use Rattle.wal_record.specs.Changes.{logged, place_of};
ghost use Rattle.page_map.specs.Forms.{FitsIn, IsPageIn, form_of};
ghost use Rattle.page_map.specs.PageMap.{page_at};
ghost use Rattle.page_map.specs.Changed.{Changed};
ghost use Rattle.page_map.specs.Keeps.{Tells, Untold};
ghost use Rattle.page_map.specs.Outcome.{IsReopen, NamesPage, Outcome};
ghost use Rattle.recovery.specs.Opens.{OpensAs};
ghost use Rattle.wal_record.specs.Waiting.{no_changes};
ghost use Rattle.recovery.specs.InPool.{HoldsPages};
ghost use Rattle.recovery.specs.PageNumbers.{page_number};
ghost use Rattle.recovery.specs.Safe.{is_marked};
ghost use Rattle.page_store.specs.Contents.{AddsOnly, HoldsAlike};
ghost use Rattle.recovery.specs.ShownPages.{content_at};
ghost use Rattle.page_store.specs.KeptPages.{KeptPages, LeftStore};
ghost use Rattle.page_store.specs.LoggedState.{store_of};
ghost use Rattle.page_store.specs.Standing.{IsStanding};
ghost use Rattle.page_store.specs.Room.{HasLogRoom, HasRoom, IsDurable, IsEmptied, IsLoggable, bytes_for, bytes_with};
ghost use Rattle.page_store.specs.Made.{IsOfDisk, MakesPage};
ghost use Rattle.page_store.specs.declared.logged.TheConstants.{MOST_BYTES};
ghost use Rattle.wal_record.specs.declared.buffer.TheConstants.{BUFFER_SIZE};
ghost use Rattle.buffer_pool.specs.PoolState.{IsClean, IsDirty, held_at};
ghost use Rattle.buffer_pool.specs.SetsPage.{IsAllDirty};
ghost use Rattle.buffer_pool.specs.NextDirty.{IsNextDirty};
ghost use Rattle.disk_trait.specs.IsStable.{IsStable};
ghost use Rattle.page_store.specs.Clean.{AreClean};

use crate::places::{HeldPlace, make_held, read_page};
use block_model::{PAGE_SIZE, Place};
use buffer_pool::Pool;
use disk_trait::{Disk, DiskFault};
use page_layout::{Form, Page, check};
use page_map::StoreError;
use recovery::{
    AppendFault, LogArea, Misfit, number_of, redo_forgets_a_page_begun_anew, redo_goes_on,
};
use std::marker::Model;
use store_layout::{Layout, pages_fill_the_disk};
use wal_record::{BUFFER_SIZE, Change, ChangeBuffer, no_change_begins_another};

/// The bytes of a whole page, as a change.
pub const FULL_PAGE_BYTES: usize = 8198;

/// The most bytes of one change.
pub const MOST_BYTES: usize = 16384;

/// The bytes of a frame that aren't changes, and the next gate.
const HEAD_AND_GATE: usize = 8;

/// The pages of a layout on a disk, with the changes that its log doesn't have yet.
#[derive(Drop)]
pub(crate) struct LoggedPages<D: Disk + Drop> {
    disk: D,
    layout: Layout,
    log: LogArea,
    pool: Pool,
    /// Of each page of the disk, by its number, whether changes of this log begin it anew.
    marks: Vec<bool>,
    waiting: ChangeBuffer,
    failed: Option<u64>,
}

impl<D: Disk + Drop> Model for LoggedPages<D> {
    ghost use Rattle.page_store.specs.LoggedState.{LoggedState, coded_logged};

    ghost Value = { LoggedState D };

    ghost coded = { coded_logged D.code };

    ghost use Rattle.page_store.specs.Standing.{IsStanding};

    ghost view = { λ s. record { disk = s.disk; layout = s.layout; log = s.log; pool = s.pool; marks = s.marks.items; waiting = s.waiting; failed = s.failed } };

    ghost invariant = { λ s. IsStanding (D.told s.disk) s.layout s.log s.pool s.marks.items s.waiting s.failed };
}

impl<D: Disk + Drop> LoggedPages<D> {
    /// The pages of these parts, as the opening leaves them.
    pub fn of_parts(
        disk: D,
        layout: Layout,
        log: LogArea,
        pool: Pool,
        marks: Vec<bool>,
        waiting: ChangeBuffer,
    ) -> LoggedPages<D>
        requires { IsStanding (D.told disk) layout log pool marks.items waiting None }
        ensures { result ≡ record { disk = disk; layout = layout; log = log; pool = pool; marks = marks.items; waiting = waiting; failed = None } }
    {
        LoggedPages {
            disk,
            layout,
            log,
            pool,
            marks,
            waiting,
            failed: None,
        }
    }

    /// The tables, indexes and sizes.
    pub fn layout(&self) -> &Layout
        ensures { result.now ≡ self.now.layout }
    {
        &self.layout
    }

    /// The disk, as it is.
    pub fn into_disk(self) -> D
        ensures { result ≡ self.disk }
    {
        self.disk
    }

    /// Does nothing; tells its caller that each page that is held passes the check of its form, and each page where the disk tells
    /// its contents, and how many frames there are.
    pub fn known(&self)
        ensures frames { self.now.pool.frames ≡ self.now.layout.sizes.frames }
        ensures area { self.now.log.room ≡ area_size self.now.layout }
        ensures checked { Tells D.told (store_of D.told self.now) → (place : AnyPlace) → IsPlace self.now.layout place → IsPageIn self.now.layout place.relation (page_at (store_of D.told self.now).pages place) }
        ensures passes { (place : AnyPlace) (bytes : List ℕ) → IsPlace self.now.layout place → content_at self.now.pool (page_number self.now.layout place) ≡ Some bytes → IsPageIn self.now.layout place.relation bytes }
    {
        pages_fill_the_disk(&self.layout);
    }

    /// Reopen where the disk failed in an earlier call. No device call.
    pub fn ready(&self) -> Result<(), StoreError>
        ensures reopen { IfErr result IsReopen }
        ensures outcome { Outcome D.told (Untold D.told (store_of D.told self.now)) (store_of D.told self.now) (store_of D.told self.now) result }
    {
        match self.failed {
            Some(faults) => Err(StoreError::Reopen { faults }),
            None => Ok(()),
        }
    }

    ghost use Rattle.page_store.specs.contracts.logged.LoggedPages.{the_row};
    ghost use Rattle.std.specs.Io.BufRead.{Rests};
    ghost use Rattle.std.specs.Borrow.{sem};

    /// The page at the place, where it is held.
    pub fn page(&mut self, place: Place) -> Option<&Page>
        requires place { IsPlace self.old.layout place }
        ensures page { option_copied result ≡ content_at self.old.pool (page_number self.old.layout place) }
        ensures* rests { sem 𝓛 (Rests (the_row D.row D.Disk) self.entry (λ pages. pages ≡ self.old)) }
    {
        let number = self.number_of(place);
        self.pool.get(number)
    }

    /// The page of that number, where it is held.
    pub fn numbered(&mut self, number: u64) -> Option<&Page>
        ensures page { option_copied result ≡ content_at self.old.pool number }
        ensures* rests { sem 𝓛 (Rests (the_row D.row D.Disk) self.entry (λ pages. pages ≡ self.old)) }
    {
        self.pool.get(number)
    }

    /// Makes every change so far durable. Where none waits no device call is made.
    #[cold]
    #[inline(never)]
    pub fn flush(&mut self) -> Result<(), StoreError>
        ensures undamaged { IfErr result IsOfDisk }
        ensures kept { KeptPages D.told (store_of D.told self.old) (store_of D.told self.new) }
        ensures outcome { Outcome D.told (Untold D.told (store_of D.told self.old)) (store_of D.told self.old) (store_of D.told self.new) result }
        ensures sure { OnOk result ((image : List ℕ) → IsTrue ((D.told self.new.disk).now image) → OpensAs self.new.layout image (store_of D.told self.new).pages) }
        ensures empty { OnOk result (self.new.waiting ≡ no_changes) }
        ensures pool { self.new.pool ≡ self.old.pool }
        ensures marks { self.new.marks ≡ self.old.marks }
    {
        self.ready()?;
        if self.waiting.is_empty() {
            return Ok(());
        }
        self.append()
    }

    /// Appends what waits to the log.
    fn append(&mut self) -> Result<(), StoreError>
        requires failed { self.old.failed ≡ None }
        requires some { 0 < length self.old.waiting.bytes }
        ensures undamaged { IfErr result IsOfDisk }
        ensures kept { KeptPages D.told (store_of D.told self.old) (store_of D.told self.new) }
        ensures outcome { Outcome D.told (Untold D.told (store_of D.told self.old)) (store_of D.told self.old) (store_of D.told self.new) result }
        ensures sure { OnOk result ((image : List ℕ) → IsTrue ((D.told self.new.disk).now image) → OpensAs self.new.layout image (store_of D.told self.new).pages) }
        ensures empty { OnOk result (self.new.waiting ≡ no_changes) }
        ensures pool { self.new.pool ≡ self.old.pool }
        ensures marks { self.new.marks ≡ self.old.marks }
    {
        no_change_begins_another();
        pages_fill_the_disk(&self.layout);
        let bytes = self.waiting.bytes();
        let count = self.waiting.count();
        match self.log.append(&mut self.disk, bytes, count) {
            Ok(()) => {
                self.waiting.clear();
                Ok(())
            }
            Err(AppendFault::Disk) => {
                self.failed = Some(self.disk.faults());
                Err(StoreError::Disk)
            }
            Err(AppendFault::NoRoom { .. }) => unreachable!(),
        }
    }

    /// Makes every change so far durable, writes each dirty page to its place, in order of the places, and begins the log anew.
    #[cold]
    #[inline(never)]
    pub fn checkpoint(&mut self) -> Result<(), StoreError>
        ensures undamaged { IfErr result IsOfDisk }
        ensures kept { KeptPages D.told (store_of D.told self.old) (store_of D.told self.new) }
        ensures outcome { Outcome D.told (Untold D.told (store_of D.told self.old)) (store_of D.told self.old) (store_of D.told self.new) result }
        ensures sure { OnOk result ((image : List ℕ) → IsTrue ((D.told self.new.disk).now image) → OpensAs self.new.layout image (store_of D.told self.new).pages) }
        ensures empty { OnOk result (self.new.waiting ≡ no_changes) }
        ensures emptied { OnOk result (self.new.log.used ≡ 0) }
        ensures alike { HoldsAlike self.old.pool self.new.pool }
    {
        self.flush()?;
        self.write_dirty()?;
        self.begin_log()
    }

    /// Writes each dirty page to its place, in order of the places, and makes them sure.
    fn write_dirty(&mut self) -> Result<(), StoreError>
        requires failed { self.old.failed ≡ None }
        requires empty { self.old.waiting ≡ no_changes }
        ensures undamaged { IfErr result IsOfDisk }
        ensures kept { KeptPages D.told (store_of D.told self.old) (store_of D.told self.new) }
        ensures outcome { Outcome D.told (Untold D.told (store_of D.told self.old)) (store_of D.told self.old) (store_of D.told self.new) result }
        ensures empty { self.new.waiting ≡ no_changes }
        ensures alike { HoldsAlike self.old.pool self.new.pool }
        ensures clean { OnOk result (AreClean self.new.pool) }
        ensures stable { OnOk result (IsStable (D.told self.new.disk)) }
    {
        let mut from = 0;
        'pages: while let Some(number) = self.next_dirty(from) {
            self.write(number)?;
            from = number + 1;
        }
        self.sync()
    }

    /// The lowest dirty page from that number on.
    fn next_dirty(&mut self, from: u64) -> Option<u64>
        ensures same { self.new ≡ self.old }
        ensures next { IsNextDirty self.old.pool from result }
        ensures within { IfSome result (λ number. number < length self.old.marks) }
        ensures small { IfSome result (λ number. number + 1 < 2 ^ 64) }
    {
        pages_fill_the_disk(&self.layout);
        let _size = self.disk.size();
        self.pool.next_dirty(from)
    }

    /// Writes the dirty page of that number to its place, where nothing waits for the log.
    fn write(&mut self, number: u64) -> Result<(), StoreError>
        requires failed { self.old.failed ≡ None }
        requires empty { self.old.waiting ≡ no_changes }
        requires dirty { (log : ℕ) × IsDirty self.old.pool number log }
        ensures undamaged { IfErr result IsOfDisk }
        ensures kept { KeptPages D.told (store_of D.told self.old) (store_of D.told self.new) }
        ensures outcome { Outcome D.told (Untold D.told (store_of D.told self.old)) (store_of D.told self.old) (store_of D.told self.new) result }
        ensures empty { self.new.waiting ≡ no_changes }
        ensures marks { self.new.marks ≡ self.old.marks }
        ensures alike { HoldsAlike self.old.pool self.new.pool }
        ensures clean { OnOk result (IsClean self.new.pool number) }
        ensures dirty { (other log : ℕ) → IsDirty self.new.pool other log → IsDirty self.old.pool other log }
    {
        no_change_begins_another();
        redo_forgets_a_page_begun_anew();
        pages_fill_the_disk(&self.layout);
        let durable = self.log.used() + 1;
        match self.pool.clean(&mut self.disk, 0, number, durable) {
            Ok(_) => Ok(()),
            Err(DiskFault) => {
                self.failed = Some(self.disk.faults());
                Err(StoreError::Disk)
            }
        }
    }

    /// Makes all writes so far sure.
    fn sync(&mut self) -> Result<(), StoreError>
        requires failed { self.old.failed ≡ None }
        ensures undamaged { IfErr result IsOfDisk }
        ensures kept { KeptPages D.told (store_of D.told self.old) (store_of D.told self.new) }
        ensures outcome { Outcome D.told (Untold D.told (store_of D.told self.old)) (store_of D.told self.old) (store_of D.told self.new) result }
        ensures same { self.new ≡ record self.old { disk = self.new.disk; failed = self.new.failed } }
        ensures stable { OnOk result (IsStable (D.told self.new.disk)) }
    {
        no_change_begins_another();
        pages_fill_the_disk(&self.layout);
        match self.disk.sync() {
            Ok(()) => Ok(()),
            Err(DiskFault) => {
                self.failed = Some(self.disk.faults());
                Err(StoreError::Disk)
            }
        }
    }

    /// Begins the log anew in its other area, once each page stands on the disk.
    fn begin_log(&mut self) -> Result<(), StoreError>
        requires failed { self.old.failed ≡ None }
        requires empty { self.old.waiting ≡ no_changes }
        requires clean { AreClean self.old.pool }
        requires stable { IsStable (D.told self.old.disk) }
        ensures undamaged { IfErr result IsOfDisk }
        ensures kept { KeptPages D.told (store_of D.told self.old) (store_of D.told self.new) }
        ensures outcome { Outcome D.told (Untold D.told (store_of D.told self.old)) (store_of D.told self.old) (store_of D.told self.new) result }
        ensures sure { OnOk result ((image : List ℕ) → IsTrue ((D.told self.new.disk).now image) → OpensAs self.new.layout image (store_of D.told self.new).pages) }
        ensures empty { self.new.waiting ≡ no_changes }
        ensures emptied { OnOk result (self.new.log.used ≡ 0) }
        ensures pool { self.new.pool ≡ self.old.pool }
    {
        no_change_begins_another();
        pages_fill_the_disk(&self.layout);
        match self.log.switch(&mut self.disk) {
            Ok(()) => {
                self.marks.fill(false);
                Ok(())
            }
            Err(DiskFault) => {
                self.failed = Some(self.disk.faults());
                Err(StoreError::Disk)
            }
        }
    }

    /// Holds the page at the place, and says whether it had to be read from the disk. Another page may go, and is written first
    /// where it is dirty.
    pub fn hold(&mut self, place: Place, number: u64, form: &Form) -> Result<bool, StoreError>
        requires place { IsPlace self.old.layout place }
        requires number { number ≡ page_number self.old.layout place }
        requires form { form.now ≡ form_of self.old.layout place.relation }
        requires is { IsForm form.now }
        ensures kept { KeptPages D.told (store_of D.told self.old) (store_of D.told self.new) }
        ensures outcome { Outcome D.told (Untold D.told (store_of D.told self.old)) (store_of D.told self.old) (store_of D.told self.new) result }
        ensures at { IfErr result (λ error. NamesPage self.old.layout place error) }
        ensures held { OnOk result (IsSome (held_at self.new.pool (page_number self.new.layout place))) }
        ensures alike { OnErr result (HoldsAlike self.old.pool self.new.pool) }
        ensures adds { AddsOnly (page_number self.old.layout place) self.old.pool self.new.pool }
        ensures there { IfOk result (λ read. read ≡ false → self.new ≡ self.old) }
    {
        self.ready()?;
        if self.is_held(number) {
            return Ok(false);
        }
        self.bring(place, form)?;
        Ok(true)
    }

    /// Whether the page of that number is held.
    fn is_held(&mut self, number: u64) -> bool
        ensures same { self.new ≡ self.old }
        ensures held { result ≡ true → IsSome (held_at self.old.pool number) }
        ensures absent { result ≡ false → held_at self.old.pool number ≡ None }
    {
        self.pool.get(number).is_some()
    }

    /// The number of the page at the place.
    pub fn number_of(&self, place: Place) -> u64
        requires place { IsPlace self.now.layout place }
        ensures number { result ≡ page_number self.now.layout place }
        ensures marks { result < length self.now.marks }
    {
        number_of(&self.layout, place)
    }

    /// Reads the page at the place, which isn't held, and holds it.
    #[cold]
    #[inline(never)]
    fn bring(&mut self, place: Place, form: &Form) -> Result<(), StoreError>
        requires place { IsPlace self.old.layout place }
        requires form { form.now ≡ form_of self.old.layout place.relation }
        requires is { IsForm form.now }
        requires failed { self.old.failed ≡ None }
        requires absent { held_at self.old.pool (page_number self.old.layout place) ≡ None }
        ensures kept { KeptPages D.told (store_of D.told self.old) (store_of D.told self.new) }
        ensures outcome { Outcome D.told (Untold D.told (store_of D.told self.old)) (store_of D.told self.old) (store_of D.told self.new) result }
        ensures at { IfErr result (λ error. NamesPage self.old.layout place error) }
        ensures held { OnOk result (IsSome (held_at self.new.pool (page_number self.new.layout place))) }
        ensures alike { OnErr result (HoldsAlike self.old.pool self.new.pool) }
        ensures adds { AddsOnly (page_number self.old.layout place) self.old.pool self.new.pool }
    {
        let page = self.fetch(place, form)?;
        if self.set(place, &page) {
            return Ok(());
        }
        self.clean_some()?;
        if self.set(place, &page) {
            return Ok(());
        }
        unreachable!()
    }

    /// Reads the page at the place, which isn't held, from the disk. It is damaged where it doesn't pass its check.
    fn fetch(&mut self, place: Place, form: &Form) -> Result<Page, StoreError>
        requires place { IsPlace self.old.layout place }
        requires form { form.now ≡ form_of self.old.layout place.relation }
        requires is { IsForm form.now }
        requires failed { self.old.failed ≡ None }
        requires absent { held_at self.old.pool (page_number self.old.layout place) ≡ None }
        ensures kept { KeptPages D.told (store_of D.told self.old) (store_of D.told self.new) }
        ensures outcome { Outcome D.told (Untold D.told (store_of D.told self.old)) (store_of D.told self.old) (store_of D.told self.new) result }
        ensures at { IfErr result (λ error. NamesPage self.old.layout place error) }
        ensures pool { self.new.pool ≡ self.old.pool }
        ensures page { IfOk result (λ page. Tells D.told (store_of D.told self.new) → page ≡ page_at (store_of D.told self.new).pages place) }
        ensures passes { IfOk result (λ page. IsPageIn self.new.layout place.relation page) }
    {
        pages_fill_the_disk(&self.layout);
        let at = self.layout.page_at(place);
        let mut bytes = [0u8; PAGE_SIZE];
        if let Err(DiskFault) = read_page(&mut self.disk, at, &mut bytes) {
            self.failed = Some(self.disk.faults());
            return Err(StoreError::Disk);
        }
        let page = Page::from_bytes(&bytes);
        match check(&page, *form) {
            Ok(()) => Ok(page),
            Err(_) => Err(StoreError::Damaged { at }),
        }
    }

    /// Holds the page at the place with the bytes that it has, as a clean one, and says whether there was a frame for it.
    fn set(&mut self, place: Place, page: &Page) -> bool
        requires place { IsPlace self.old.layout place }
        requires failed { self.old.failed ≡ None }
        requires absent { held_at self.old.pool (page_number self.old.layout place) ≡ None }
        requires page { Tells D.told (store_of D.told self.old) → page.now ≡ page_at (store_of D.told self.old).pages place }
        requires passes { IsPageIn self.old.layout place.relation page.now }
        ensures kept { KeptPages D.told (store_of D.told self.old) (store_of D.told self.new) }
        ensures failed { self.new.failed ≡ None }
        ensures held { result ≡ true → IsSome (held_at self.new.pool (page_number self.new.layout place)) }
        ensures adds { AddsOnly (page_number self.old.layout place) self.old.pool self.new.pool }
        ensures full { result ≡ false → (self.new ≡ self.old) × IsAllDirty self.old.pool (page_number self.old.layout place) }
        ensures refused { result ≡ false → (other : ℕ) → IsClean self.old.pool other → ⊥ }
    {
        pages_fill_the_disk(&self.layout);
        page.known();
        let number = number_of(&self.layout, place);
        if let Err(_) = self.pool.set(number, page, None) {
            return false;
        }
        true
    }

    /// Writes a dirty page to its place, so that one is clean, where each frame holds a dirty one. What waits is flushed first
    /// where no page can be written without.
    fn clean_some(&mut self) -> Result<(), StoreError>
        requires failed { self.old.failed ≡ None }
        requires full { (absent : ℕ) × IsAllDirty self.old.pool absent }
        ensures kept { KeptPages D.told (store_of D.told self.old) (store_of D.told self.new) }
        ensures outcome { Outcome D.told (Untold D.told (store_of D.told self.old)) (store_of D.told self.old) (store_of D.told self.new) result }
        ensures undamaged { IfErr result IsOfDisk }
        ensures alike { HoldsAlike self.old.pool self.new.pool }
        ensures clean { OnOk result ((other : ℕ) × IsClean self.new.pool other) }
    {
        self.known();
        self.layout().known();
        if self.clean_one()? {
            return Ok(());
        }
        self.flush()?;
        if self.clean_one()? {
            return Ok(());
        }
        unreachable!()
    }

    /// Writes a dirty page to its place whose log is durable, and says whether there is one.
    fn clean_one(&mut self) -> Result<bool, StoreError>
        requires failed { self.old.failed ≡ None }
        ensures kept { KeptPages D.told (store_of D.told self.old) (store_of D.told self.new) }
        ensures outcome { Outcome D.told (Untold D.told (store_of D.told self.old)) (store_of D.told self.old) (store_of D.told self.new) result }
        ensures undamaged { IfErr result IsOfDisk }
        ensures alike { HoldsAlike self.old.pool self.new.pool }
        ensures clean { IfOk result (λ written. written ≡ true → (other : ℕ) × IsClean self.new.pool other) }
        ensures none { IfOk result (λ written. written ≡ false → self.new.pool ≡ self.old.pool) }
        ensures dirty { IfOk result (λ written. written ≡ false → self.old.waiting ≡ no_changes → (page log : ℕ) → IsDirty self.old.pool page log → ⊥) }
    {
        no_change_begins_another();
        redo_forgets_a_page_begun_anew();
        pages_fill_the_disk(&self.layout);
        let durable = self.durable();
        match self.pool.clean_one(&mut self.disk, 0, durable) {
            Ok(written) => Ok(written),
            Err(DiskFault) => {
                self.failed = Some(self.disk.faults());
                Err(StoreError::Disk)
            }
        }
    }

    /// The number up to which pages wait for nothing that isn't durable.
    fn durable(&self) -> u64
        ensures { IsDurable self.now.log self.now.waiting result }
    {
        let used = self.log.used();
        if self.waiting.is_empty() {
            return used + 1;
        }
        used
    }

    /// Makes room for a change of so many bytes of the page at the place, and for the page where the log hasn't begun it and the
    /// change doesn't. What waits is flushed where the buffer is full, and a checkpoint is made where the log is.
    pub fn make_room(&mut self, place: Place, begins: bool, size: usize) -> Result<(), StoreError>
        requires place { IsPlace self.old.layout place }
        requires failed { self.old.failed ≡ None }
        requires few { size ≤ 2 * MOST_BYTES }
        ensures kept { KeptPages D.told (store_of D.told self.old) (store_of D.told self.new) }
        ensures outcome { Outcome D.told (Untold D.told (store_of D.told self.old)) (store_of D.told self.old) (store_of D.told self.new) result }
        ensures undamaged { IfErr result IsOfDisk }
        ensures alike { HoldsAlike self.old.pool self.new.pool }
        ensures room { OnOk result (HasRoom self.new.log self.new.waiting (bytes_with (is_marked self.new.marks self.new.layout place || begins) size)) }
    {
        self.known();
        self.layout().known();
        let need = self.need(place, begins, size);
        self.make_buffer_room(need)?;
        self.make_log_room(need)?;
        self.known();
        Ok(())
    }

    /// How many bytes a change of so many bytes of the page at the place takes.
    fn need(&self, place: Place, begins: bool, size: usize) -> usize
        requires place { IsPlace self.now.layout place }
        requires few { size ≤ 2 * MOST_BYTES }
        ensures { result ≡ bytes_with (is_marked self.now.marks self.now.layout place || begins) size }
    {
        if begins {
            return size;
        }
        if self.is_marked(place) {
            return size;
        }
        FULL_PAGE_BYTES + size
    }

    /// Whether changes of the log begin the page at the place anew.
    fn is_marked(&self, place: Place) -> bool
        requires place { IsPlace self.now.layout place }
        ensures { result ≡ is_marked self.now.marks self.now.layout place }
    {
        let number = number_of(&self.layout, place);
        let marks = &self.marks;
        marks[number as usize]
    }

    /// Makes room for so many bytes in the buffer.
    fn make_buffer_room(&mut self, need: usize) -> Result<(), StoreError>
        requires failed { self.old.failed ≡ None }
        requires few { need ≤ BUFFER_SIZE }
        ensures kept { KeptPages D.told (store_of D.told self.old) (store_of D.told self.new) }
        ensures outcome { Outcome D.told (Untold D.told (store_of D.told self.old)) (store_of D.told self.old) (store_of D.told self.new) result }
        ensures undamaged { IfErr result IsOfDisk }
        ensures pool { self.new.pool ≡ self.old.pool }
        ensures marks { self.new.marks ≡ self.old.marks }
        ensures room { OnOk result (length self.new.waiting.bytes + need ≤ BUFFER_SIZE) }
    {
        if self.waiting.len() + need <= BUFFER_SIZE {
            return self.ready();
        }
        self.flush()
    }

    /// Makes room for so many bytes more in the log, or empties it.
    fn make_log_room(&mut self, need: usize) -> Result<(), StoreError>
        requires failed { self.old.failed ≡ None }
        requires few { need ≤ BUFFER_SIZE }
        ensures kept { KeptPages D.told (store_of D.told self.old) (store_of D.told self.new) }
        ensures outcome { Outcome D.told (Untold D.told (store_of D.told self.old)) (store_of D.told self.old) (store_of D.told self.new) result }
        ensures undamaged { IfErr result IsOfDisk }
        ensures alike { HoldsAlike self.old.pool self.new.pool }
        ensures room { OnOk result (HasLogRoom need self.old self.new ⊎ IsEmptied self.new) }
    {
        if (HEAD_AND_GATE + self.waiting.len() + need) as u64 <= self.log.left() {
            return self.ready();
        }
        self.checkpoint()
    }

    /// Makes the change of the page at the place, which is held, and lets it wait for the log: behind the page as it was where
    /// the log hasn't begun it and the change doesn't. Where it doesn't fit nothing is changed.
    pub fn make(&mut self, place: Place, form: &Form, change: &Change<'_>) -> Result<(), Misfit>
        requires place { IsPlace self.old.layout place }
        requires own { place_of (logged change.now) ≡ place }
        requires form { form.now ≡ form_of self.old.layout place.relation }
        requires is { IsForm form.now }
        requires fits { Tells D.told (store_of D.told self.old) → FitsIn self.old.layout place.relation (page_at (store_of D.told self.old).pages place) (logged change.now) }
        requires failed { self.old.failed ≡ None }
        requires held { IsSome (held_at self.old.pool (page_number self.old.layout place)) }
        requires loggable { IsLoggable (logged change.now) }
        requires room { HasRoom self.old.log self.old.waiting (bytes_for (is_marked self.old.marks self.old.layout place) (logged change.now)) }
        ensures leaves { LeftStore D.told (store_of D.told self.old) (store_of D.told self.new) }
        ensures failed { self.new.failed ≡ None }
        ensures untold { OnErr result (Untold D.told (store_of D.told self.old)) }
        ensures changed { OnOk result (Tells D.told (store_of D.told self.old) → Changed self.old.layout place (logged change.now ∷ []) (store_of D.told self.old).pages (store_of D.told self.new).pages) }
        ensures made { OnOk result (MakesPage form.now (page_number self.old.layout place) (logged change.now) self.old.pool self.new.pool) }
        ensures alike { OnErr result (HoldsAlike self.old.pool self.new.pool) }
        ensures waiting { OnOk result (length self.new.waiting.bytes ≡ length self.old.waiting.bytes + bytes_for (is_marked self.old.marks self.old.layout place) (logged change.now)) }
        ensures log { self.new.log ≡ self.old.log }
        ensures disk { self.new.disk ≡ self.old.disk }
        ensures marked { OnOk result (is_marked self.new.marks self.new.layout place ≡ true) }
    {
        redo_goes_on();
        pages_fill_the_disk(&self.layout);
        let number = number_of(&self.layout, place);
        let waits = self.log.used() + 1;
        make_held(
            &mut self.waiting,
            &mut self.marks,
            &mut self.pool,
            HeldPlace {
                place,
                number,
                waits,
            },
            form,
            change,
        )?;
        Ok(())
    }
}
