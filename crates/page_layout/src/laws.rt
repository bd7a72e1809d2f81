//! What a page has of slots.

ghost use Rattle.std.specs.Prelude.{◌≡◌, List, ℕ, None, replicate};
ghost use Rattle.page_layout.specs.declared.page.Form.{Form as PageForm};
ghost use Rattle.page_layout.specs.FreeSlots.{slot_count};
ghost use Rattle.page_layout.specs.PageContents.{HasSlots, IsStarted, IsUnstarted, Slot};
ghost use Rattle.page_layout.specs.PageWrites.{IsOfHeap};
ghost use Rattle.page_layout.specs.SlotsOnPage.{slots_on};

/// A page that has slots has exactly those that are read from its bytes, and each started heap page has them. Those of a page
/// that isn't started are read as free.
pub fn slots_are_read()
    ensures one { (form : PageForm) (page : List ℕ) (slots : List Slot) → HasSlots form page slots → slots ≡ slots_on form page }
    ensures started { (form : PageForm) (page : List ℕ) → IsOfHeap form → IsStarted form page → HasSlots form page (slots_on form page) }
    ensures unstarted { (form : PageForm) (page : List ℕ) → IsUnstarted page → slots_on form page ≡ replicate (slot_count form) None }
{}
