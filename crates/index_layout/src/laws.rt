//! What a page of an index has, and what changes leave of its slots.

ghost use Rattle.std.specs.Prelude.{◌≡◌, ◌≢◌, ◌<◌, ◌≤◌, List, Option, None, Some, ℕ, length, slice_index, slice_index_or, true};
ghost use Rattle.block_model.specs.declared.place.Spot.{Spot};
ghost use Rattle.index_layout.specs.declared.format.TheConstants.{MAP, META};
ghost use Rattle.index_layout.specs.IndexPages.{HasSlots, IsIndexPage, IsMap, IsMeta, IsRegular, Slot};
ghost use Rattle.index_layout.specs.IndexWrites.{CanPut, put_in, room_on, trimmed};
ghost use Rattle.index_layout.specs.IndexReading.{entries_of, free_slot_of, is_regular, map_pages_of, slots_of};

/// A page has one list of slots or of entries, or one number of map pages: the one that is read from its bytes. Each page of
/// tuples has the slots that are read, each page of the map the entries, and each metapage the number.
pub fn an_index_page_has_one_list()
    ensures slots { (kind : ℕ) (list : List Slot) (page : List ℕ) → HasSlots kind list page → list ≡ slots_of page }
    ensures entries { (list : List (Option Spot)) (page : List ℕ) → IsMap list page → list ≡ entries_of page }
    ensures pages { (number : ℕ) (page : List ℕ) → IsMeta number page → number ≡ map_pages_of page }
    ensures kind { (kind : ℕ) (list : List Slot) (page : List ℕ) → HasSlots kind list page → slice_index page 0 ≡ kind }
    ensures regular { (page : List ℕ) → IsIndexPage page → is_regular (slice_index page 0) ≡ true → IsRegular (slice_index page 0) (slots_of page) page }
    ensures map { (page : List ℕ) → IsIndexPage page → slice_index page 0 ≡ MAP → IsMap (entries_of page) page }
    ensures meta { (page : List ℕ) → IsIndexPage page → slice_index page 0 ≡ META → IsMeta (map_pages_of page) page }
{}

/// A put changes its slot alone, and a list that ends with its last used slot has at each slot what it had.
pub fn a_put_changes_one_slot()
    ensures put { (list : List Slot) (n : ℕ) (tuple : List ℕ) → n ≤ length list → slice_index_or (put_in list n tuple) n None ≡ Some tuple }
    ensures others { (list : List Slot) (n m : ℕ) (tuple : List ℕ) → n ≤ length list → m ≢ n → slice_index_or (put_in list n tuple) m None ≡ slice_index_or list m None }
    ensures trimmed { (list : List Slot) (m : ℕ) → slice_index_or (trimmed list) m None ≡ slice_index_or list m None }
{}

/// The slot for a further tuple is the lowest that is free, or the next one. A page takes a tuple in some slot exactly if it
/// takes it in that one, and that is where the tuple has no more bytes than `room_for` answers.
pub fn the_lowest_free_slot_has_room()
    ensures free { (list : List Slot) → slice_index_or list (free_slot_of list) None ≡ None }
    ensures lowest { (list : List Slot) (n : ℕ) → n < free_slot_of list → slice_index_or list n None ≢ None }
    ensures within { (list : List Slot) → free_slot_of list ≤ length list }
    ensures room { (page : List ℕ) (size : ℕ) → 0 < size → size ≤ room_on page → CanPut page (free_slot_of (slots_of page)) size }
    ensures least { (page : List ℕ) (n size : ℕ) → CanPut page n size → size ≤ room_on page }
{}
