//! What opened parts show, and what fits over them. None does anything.

ghost use Rattle.std.specs.Prelude.{◌≡◌, ◌<◌, ℕ, []};
ghost use Rattle.store_layout.specs.declared.limits.TheConstants.{MAX_SESSIONS};
ghost use Rattle.script_semantics.specs.Place.{Place as ScriptPlace};
ghost use Rattle.script_semantics.specs.Starts.{IsStart};
ghost use Rattle.session_parts.specs.HandFits.{FitsStore};
ghost use Rattle.session_parts.specs.ShowsPlace.{IsPlaceOf};
ghost use Rattle.session_parts.specs.StoreStates.{ShownStore, store_of};
ghost use Rattle.session_parts.specs.declared.parts.Parts.{Parts as AnyParts};
ghost use Rattle.session_starts.specs.OpenedParts.{AreOpened, IsNewStore};

use crate::{fresh_pages_show_a_new_database, fresh_pages_show_new_tables};
use coverage::table_stays_covered;
use disk_trait::Disk;
use session_parts::{Parts, an_opened_store_is_shown};
use store_layout::Layout;

/// A new store shows the place at which a script begins over its layout.
pub fn a_new_store_is_at_its_start(layout: &Layout)
    ensures { (s : ShownStore) → s.layout ≡ layout.now → IsNewStore s → (p : ScriptPlace) × IsStart layout.now p × IsPlaceOf s p }
{
    fresh_pages_show_a_new_database(layout);
    fresh_pages_show_new_tables(layout);
    table_stays_covered();
    an_opened_store_is_shown();
}

/// Over opened pages each session fits its next step: it has nothing in hand, and no transaction.
pub fn opened_parts_fit<D: Disk + Drop>(_parts: &Parts<D>)
    ensures { (parts : AnyParts D) (n : ℕ) → AreOpened D.told parts → n < MAX_SESSIONS → FitsStore D.told (store_of parts [] []) n }
{}
