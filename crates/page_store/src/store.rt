//! The store of pages.

ghost use Rattle.std.specs.Prelude.{◌≡◌, ◌<◌, ◌≤◌, ℕ, List, IsTrue, None, [], ◌∷◌, length, map, IfOk, IfSome, IfErr, OnOk, OnErr};
ghost use Rattle.block_model.specs.declared.place.Place.{Place as AnyPlace};
ghost use Rattle.store_layout.specs.DiskLayout.{IsPlace, relation_blocks};
ghost use Rattle.page_layout.specs.PageContents.{IsForm};
ghost use Rattle.wal_record.specs.Changes.{PageStart as LoggedStart, logged, place_of};
ghost use Rattle.page_map.specs.PageMap.{IsWhole, block_at, block_limit, page_at};
ghost use Rattle.page_map.specs.Forms.{FitInTurn, FitsIn, IsPageIn, form_of, forms_of};
ghost use Rattle.page_map.specs.Changed.{Changed};
ghost use Rattle.page_map.specs.Keeps.{Keeps, Leaves, Tells, Untold};
ghost use Rattle.page_map.specs.Outcome.{IsReopen, NamesPage, Outcome};
ghost use Rattle.page_map.specs.PageRoom.{IsRoom, NamesSlot};
ghost use Rattle.page_map.specs.Started.{AreFirst, started_count};
ghost use Rattle.page_map.specs.FirstRoom.{IsFirstRoomOf};
ghost use Rattle.index_layout.specs.IndexReading.{map_pages_of};
ghost use Rattle.recovery.specs.Opens.{OpensAs};
ghost use Rattle.page_store.specs.Survives.{Survives};
ghost use Rattle.page_store.specs.LoggedState.{store_of};
ghost use Rattle.page_store.specs.Made.{IsOfDisk};
ghost use Rattle.page_store.specs.StoreFacts.{AreKnown};

use crate::change::{change_page, start_page};
use crate::facts::{facts_of_place, first_room_in, hold};
use crate::logged::LoggedPages;
use block_model::Place;
use disk_trait::Disk;
use page_layout::{Form, Page, UNSTARTED, slots_are_read};
use page_map::{FactList, Room, StoreError, tables_have_forms};
use std::marker::Model;
use store_layout::Layout;
use wal_record::Change;

/// The pages of a layout on a disk, of which some are held in memory.
#[derive(Drop)]
pub struct PageStore<D: Disk + Drop> {
    pages: LoggedPages<D>,
    forms: Vec<Form>,
    facts: Vec<FactList>,
}

impl<D: Disk + Drop> Model for PageStore<D> {
    ghost use Rattle.std.specs.Prelude.{◌≡◌};
    ghost use Rattle.page_map.specs.Forms.{forms_of};
    ghost use Rattle.page_map.specs.PageMap.{View};
    ghost use Rattle.page_store.specs.LoggedState.{store_of};
    ghost use Rattle.page_store.specs.StoreFacts.{AreKnown};

    ghost Value = { View D };

    ghost view = { λ s. store_of D.told s.pages };

    ghost invariant = { λ s. (s.forms.items ≡ forms_of s.pages.layout) × AreKnown D.told s.pages s.facts.items };
}

impl<D: Disk + Drop> PageStore<D> {
    /// The store of these parts, as the opening leaves them.
    pub(crate) fn of_parts(
        pages: LoggedPages<D>,
        forms: Vec<Form>,
        facts: Vec<FactList>,
    ) -> PageStore<D>
        requires forms { forms.items ≡ forms_of pages.layout }
        requires facts { AreKnown D.told pages facts.items }
        ensures { result ≡ store_of D.told pages }
    {
        PageStore {
            pages,
            forms,
            facts,
        }
    }

    ghost use Rattle.page_store.specs.contracts.store.PageStore.{the_row};
    ghost use Rattle.std.specs.Io.BufRead.{Rests};
    ghost use Rattle.std.specs.Borrow.{sem};

    /// The page at the place, as the changes made it. A page that isn't held is read from the disk, and may take the place of
    /// another, which is written first where it is dirty.
    pub fn read(&mut self, place: Place) -> Result<&Page, StoreError>
        requires place { IsPlace self.old.layout place }
        ensures page { IfOk result (λ page. Tells D.told self.old → page.now ≡ page_at self.old.pages place) }
        ensures form { IfOk result (λ page. IsPageIn self.old.layout place.relation page.now) }
        ensures at { IfErr result (λ error. NamesPage self.old.layout place error) }
        ensures* rests { sem 𝓛 (Rests (the_row D.row D.Disk) self.entry (λ s. Keeps D.told self.old s × Outcome D.told (Untold D.told self.old) self.old s result × Survives D.told (λ pages. pages ≡ self.old.pages) self.old s)) }
    {
        let number = self.pages.number_of(place);
        match hold(&mut self.pages, &mut self.facts, &self.forms, place, number) {
            Ok(()) => {}
            Err(error) => return Err(error),
        }
        self.pages.known();
        Ok(self.pages.numbered(number).unwrap())
    }

    /// Makes the change, which is one of the page at the place. It waits for the log until the next flush, or until the buffer or
    /// the log is full, which a flush or a checkpoint mends first. After an error nothing is changed.
    pub fn change(&mut self, place: Place, change: &Change<'_>) -> Result<(), StoreError>
        requires place { IsPlace self.old.layout place }
        requires own { place_of (logged change.now) ≡ place }
        requires fits { Tells D.told self.old → FitsIn self.old.layout place.relation (page_at self.old.pages place) (logged change.now) }
        ensures changed { OnOk result (Tells D.told self.old → Changed self.old.layout place (logged change.now ∷ []) self.old.pages self.new.pages) }
        ensures kept { OnErr result (Keeps D.told self.old self.new) }
        ensures leaves { Leaves D.told self.old self.new }
        // The change itself isn't sure before the next flush.
        ensures survives { Survives D.told (λ pages. pages ≡ self.old.pages) self.old self.new }
        ensures at { IfErr result (λ error. NamesPage self.old.layout place error) }
        ensures outcome { Outcome D.told (Untold D.told self.old) self.old self.new result }
    {
        change_page(&mut self.pages, &mut self.facts, &self.forms, place, change)
    }

    /// Starts the page at the place as one of that kind, whatever stood there, and makes the change of it, in one step. After an
    /// error nothing is changed, and the page isn't started.
    pub fn start_with(
        &mut self,
        place: Place,
        kind: u8,
        change: &Change<'_>,
    ) -> Result<(), StoreError>
        requires place { IsPlace self.old.layout place }
        requires own { place_of (logged change.now) ≡ place }
        requires fits { Tells D.told self.old → FitInTurn (form_of self.old.layout place.relation) (page_at self.old.pages place) (LoggedStart place kind ∷ logged change.now ∷ []) }
        ensures changed { OnOk result (Tells D.told self.old → Changed self.old.layout place (LoggedStart place kind ∷ logged change.now ∷ []) self.old.pages self.new.pages) }
        ensures kept { OnErr result (Keeps D.told self.old self.new) }
        ensures leaves { Leaves D.told self.old self.new }
        // The change itself isn't sure before the next flush.
        ensures survives { Survives D.told (λ pages. pages ≡ self.old.pages) self.old self.new }
        ensures at { IfErr result (λ error. NamesPage self.old.layout place error) }
        ensures outcome { Outcome D.told (Untold D.told self.old) self.old self.new result }
    {
        start_page(
            &mut self.pages,
            &mut self.facts,
            &self.forms,
            place,
            kind,
            change,
        )
    }

    /// Makes every change so far durable. Where none waits no device call is made.
    pub fn flush(&mut self) -> Result<(), StoreError>
        ensures undamaged { IfErr result IsOfDisk }
        ensures kept { Keeps D.told self.old self.new }
        ensures survives { Survives D.told (λ pages. pages ≡ self.old.pages) self.old self.new }
        ensures outcome { Outcome D.told (Untold D.told self.old) self.old self.new result }
        ensures sure { OnOk result ((image : List ℕ) → IsTrue ((D.told self.new.disk).now image) → OpensAs self.new.layout image self.new.pages) }
    {
        self.pages.flush()
    }

    /// Makes every change so far durable, writes each dirty page to its place, in order of the places, and begins the log anew.
    pub fn checkpoint(&mut self) -> Result<(), StoreError>
        ensures undamaged { IfErr result IsOfDisk }
        ensures kept { Keeps D.told self.old self.new }
        ensures survives { Survives D.told (λ pages. pages ≡ self.old.pages) self.old self.new }
        ensures outcome { Outcome D.told (Untold D.told self.old) self.old self.new result }
        ensures sure { OnOk result ((image : List ℕ) → IsTrue ((D.told self.new.disk).now image) → OpensAs self.new.layout image self.new.pages) }
    {
        self.pages.checkpoint()
    }

    /// Reopen where the disk failed in an earlier call, so that a call that needs no page can answer it too. No device call.
    pub fn ready(&self) -> Result<(), StoreError>
        ensures reopen { IfErr result IsReopen }
        ensures outcome { Outcome D.told (Untold D.told self.now) self.now self.now result }
        ensures stays { Survives D.told (λ pages. ⊥) self.now self.now }
    {
        self.pages.ready()
    }

    /// Does nothing; tells its caller that the map has each page of the layout, that each page passes the check of its relation's
    /// form, and that no image changes where no call is made.
    pub fn known(&self)
        ensures whole { IsWhole self.now.layout self.now.pages }
        ensures checked { Tells D.told self.now → (place : AnyPlace) → IsPageIn self.now.layout place.relation (page_at self.now.pages place) }
        ensures stays { Survives D.told (λ pages. ⊥) self.now self.now }
    {
        self.pages.known();
    }

    /// The tables, indexes and sizes.
    pub fn layout(&self) -> &Layout
        ensures { result.now ≡ self.now.layout }
    {
        self.pages.layout()
    }

    /// How many pages of the relation are started.
    pub fn blocks(&self, relation: u8) -> u32
        requires relation { relation < length (relation_blocks self.now.layout) }
        ensures within { result ≤ block_limit self.now.layout relation }
        ensures count { Tells D.told self.now → result ≡ started_count self.now.pages relation }
        ensures first { Tells D.told self.now → (n : ℕ) → AreFirst (block_limit self.now.layout relation) (block_at self.now.pages relation) n → result ≡ n }
    {
        self.pages.known();
        tables_have_forms(self.pages.layout());
        let facts = &self.facts;
        facts[usize::from(relation)].started()
    }

    /// The lowest block of the relation that has room, else the lowest one that isn't started, else none. Of a table a block has
    /// room where a slot is free, and neither `need` nor `past` is looked at: a table passes 0 for both. Of an index a block has
    /// room that comes behind `past`, the number of map pages, and whose page takes a further tuple of `need` bytes. No page is
    /// read: a look at one number for each 128 blocks, and at what is kept of the pages of those that may have room.
    pub fn first_room(&self, relation: u8, need: u16, past: u32) -> Option<u32>
        requires relation { relation < length (relation_blocks self.now.layout) }
        ensures within { IfSome result (λ block. block < block_limit self.now.layout relation) }
        ensures room { Tells D.told self.now → IsFirstRoomOf self.now.layout self.now.pages relation need past result }
    {
        self.pages.known();
        slots_are_read();
        tables_have_forms(self.pages.layout());
        let at = usize::from(relation);
        let facts = &self.facts;
        let forms = &self.forms;
        first_room_in(&facts[at], &forms[at], need, past)
    }

    /// How many pages of the map the metapage of the index counts: 0 where block 0 is no metapage, as in a table. No page is read.
    pub fn map_pages(&self, relation: u8) -> u32
        requires relation { relation < length (relation_blocks self.now.layout) }
        ensures counted { Tells D.told self.now → result ≡ map_pages_of (block_at self.now.pages relation 0) }
    {
        self.pages.known();
        tables_have_forms(self.pages.layout());
        let facts = &self.facts;
        facts[usize::from(relation)].get(0).maps
    }

    /// What room the page at the place has for a row. No device call.
    pub fn room_at(&self, place: Place) -> Room
        requires place { IsPlace self.now.layout place }
        ensures room { Tells D.told self.now → IsRoom (form_of self.now.layout place.relation) (page_at self.now.pages place) result }
        ensures slot { NamesSlot (form_of self.now.layout place.relation) result }
    {
        self.pages.known();
        slots_are_read();
        let facts = facts_of_place(&self.facts, place);
        if facts.kind == UNSTARTED {
            return Room::NotStarted;
        }
        match facts.lowest {
            Some(slot) => Room::Free(slot),
            None => Room::Full,
        }
    }

    /// The form of the pages of the relation.
    pub fn form(&self, relation: u8) -> Form
        requires relation { relation < length (relation_blocks self.now.layout) }
        ensures form { result ≡ form_of self.now.layout relation }
        ensures is { IsForm result }
    {
        tables_have_forms(self.pages.layout());
        let forms = &self.forms;
        forms[usize::from(relation)]
    }

    /// The disk, as it is. No device call.
    pub fn into_disk(self) -> D
        ensures { result ≡ self.disk }
    {
        self.pages.into_disk()
    }
}
