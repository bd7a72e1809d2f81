//! The parts of a store that is opened from a disk.

ghost use Rattle.std.specs.Prelude.{◌≡◌, ◌≤◌, ◌<◌, ℕ, [], IsTrue, IfOk, IfErr, MatchResult, None};
ghost use Rattle.store_layout.specs.declared.limits.TheConstants.{MAX_SESSIONS};
ghost use Rattle.page_map.specs.Keeps.{Tells};
ghost use Rattle.recovery.specs.Opens.{OpensAs};
ghost use Rattle.recovery.specs.StartCauses.{HasStore};
ghost use Rattle.recovery.specs.Untouched.{IsUntouched, KeepsFront};
ghost use Rattle.page_store.specs.Refused.{IsRefused};
ghost use Rattle.session_starts.specs.FreshPages.{fresh_pages};
ghost use Rattle.session_parts.specs.HandFits.{FitsStore};
ghost use Rattle.session_parts.specs.StoreStates.{store_of};
ghost use Rattle.session_starts.specs.OpenedParts.{AreOpened, ShowsStart};
ghost use Rattle.session_starts.specs.Started.{ImagesStay, IsOfStart, OpensTable, start_fault};

use crate::image_laws::an_image_is_shown;
use crate::parts::open_parts;
use disk_trait::Disk;
use page_map::{MachineFault, StoreError};
use page_store::PageStore;
use recovery::{StartFault, an_image_opens_to_one_map};
use session_parts::Parts;
use std::alloc::Global;
use store_format::one_layout;

/// The parts of the store on the disk, whose log is replayed first: no transaction is open, nobody has a lock, and nothing was asked. A transaction that was
/// under way at a stop counts as rolled back. The refusals are those of the start of pages; the disk comes back with each.
pub fn start_parts<D: Disk + Drop>(alloc: Global, disk: D) -> Result<Parts<D>, (StartFault, D)>
    ensures opened { IfOk result (AreOpened D.told) }
    ensures fits { IfOk result (λ parts. (n : ℕ) → n < MAX_SESSIONS → FitsStore D.told (store_of parts [] []) n) }
    ensures there { IfOk result (λ parts. IsTrue (D.told disk).tells_contents → HasStore parts.pages.layout (D.told disk).size (D.told disk).contents) }
    ensures pages { IfOk result (λ parts. IsTrue (D.told disk).tells_contents → OpensAs parts.pages.layout (D.told disk).contents parts.pages.pages) }
    ensures tells { IfOk result (λ parts. (D.told parts.pages.disk).tells_contents ≡ (D.told disk).tells_contents) }
    ensures later { IfOk result (λ parts. (D.told disk).faults ≤ (D.told parts.pages.disk).faults) }
    ensures ready { IfOk result (λ parts. parts.pages.failed ≡ None) }
    // Of a new store, whose tables are new as well.
    ensures starts { IfOk result (λ parts. Tells D.told parts.pages → parts.pages.pages ≡ fresh_pages parts.pages.layout → ShowsStart parts.pages.layout (store_of parts [] [])) }
    ensures opens { IfOk result (λ parts. OpensTable D.told (store_of parts [] [])) }
    // At every moment, also of a call that refuses.
    ensures any_moment { MatchResult result (λ parts. ImagesStay (D.told disk) (D.told parts.pages.disk)) (λ e. ImagesStay (D.told disk) (D.told e.1)) }
    // Where no store is there, nothing was written.
    ensures untouched { IfErr result (λ e. e.0 ≡ StartFault.NoStore → IsUntouched (D.told disk) (D.told e.1)) }
    // Of a damaged store only pages were written back.
    ensures front { IfErr result (λ e. (at : ℕ) → e.0 ≡ StartFault.Damaged at → IsTrue (D.told disk).tells_contents → KeepsFront (D.told disk) (D.told e.1)) }
    ensures refused { IfErr result (λ e. IsRefused (D.told disk) (D.told e.1) e.0) }
{
    one_layout();
    let pages = PageStore::start(alloc, disk)?;
    an_image_opens_to_one_map(pages.layout());
    an_image_is_shown(pages.layout());
    match open_parts(alloc, pages) {
        Ok(parts) => Ok(parts),
        Err((fault, pages)) => Err((start_fault(fault), pages.into_disk())),
    }
}

/// The refusal of a start whose pages of statuses weren't read.
fn start_fault(fault: MachineFault) -> StartFault
    requires { IsOfStart fault }
    ensures { result ≡ start_fault fault }
{
    match fault {
        MachineFault::Memory => StartFault::Memory,
        MachineFault::Store(StoreError::Disk) => StartFault::Disk,
        MachineFault::Store(StoreError::Damaged { at }) => StartFault::Damaged { at },
        MachineFault::Store(StoreError::Reopen { .. }) | MachineFault::Full { .. } => {
            unreachable!()
        }
    }
}
