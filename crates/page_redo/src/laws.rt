//! What changes do one after the other.

ghost use Rattle.std.specs.Prelude.{◌≡◌, ◌∷◌, ◌++◌, List, ℕ};
ghost use Rattle.page_layout.specs.PageContents.{IsPageOf};
ghost use Rattle.page_layout.specs.declared.page.Form.{Form as PageForm};
ghost use Rattle.page_redo.specs.Redo.{Fits, ForgetPage, IsAnew, Means, Redone};
ghost use Rattle.wal_record.specs.Changes.{LoggedChange};

/// A change that fits makes a page that passes the check of its form.
pub fn a_changed_page_is_of_its_form()
    ensures { (form : PageForm) (old new : List ℕ) (change : LoggedChange) → Fits form old change → Means form old change new → IsPageOf form new }
{}

/// The page that a list of changes makes is a function of the first page and the list.
pub fn redo_is_a_function()
    ensures { (form : PageForm) (page a b : List ℕ) (changes : List LoggedChange) → Redone form page changes a → Redone form page changes b → a ≡ b }
{}

/// A change that makes the whole page forgets what stood there: a page that a stop tore is redone like any other.
pub fn redo_forgets_a_page_begun_anew()
    ensures { (form : PageForm) (change : LoggedChange) (changes : List LoggedChange) → IsAnew change → ForgetPage form (change ∷ changes) }
{}

/// Changes go on behind others.
pub fn redo_goes_on()
    ensures { (form : PageForm) (page mid new : List ℕ) (first more : List LoggedChange) → Redone form page first mid → Redone form mid more new → Redone form page (first ++ more) new }
{}
