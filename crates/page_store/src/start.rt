//! A store that is opened.

ghost use Rattle.std.specs.Prelude.{◌≡◌, ◌≤◌, ℕ, List, IsTrue, None, IfErr, IfOk, MatchResult};
ghost use Rattle.disk_trait.specs.Throughout.{Throughout};
ghost use Rattle.page_map.specs.Keeps.{Tells};
ghost use Rattle.recovery.specs.Opens.{OpensAs};
ghost use Rattle.recovery.specs.PageOrder.{AreInOrder};
ghost use Rattle.recovery.specs.Reaches.{OpensAsBefore};
ghost use Rattle.recovery.specs.StartCauses.{HasStore};
ghost use Rattle.recovery.specs.Untouched.{IsUntouched, KeepsFront};
ghost use Rattle.page_store.specs.Refused.{IsRefused};

use crate::forms::forms_of;
use crate::logged::LoggedPages;
use crate::store::PageStore;
use disk_trait::Disk;
use page_layout::slots_are_read;
use page_map::tables_have_forms;
use recovery::{Opened, StartFault, open};
use std::alloc::Global;
use wal_record::ChangeBuffer;

impl<D: Disk + Drop> PageStore<D> {
    /// Opens the store on the disk: its pages are those after the changes of the opened frames of the area that it chooses, and
    /// nothing is pending but pages that the log begins anew. All memory that the store ever takes is taken here. `NoStore` exactly
    /// where the control page isn't a store's, or the disk hasn't its size; `Damaged` where a frame or a page that was read isn't of
    /// its form, or breaks the order of pages; `Disk` where the disk failed in this call; `Memory` is want of memory. The disk comes
    /// back with each refusal.
    pub fn start(alloc: Global, disk: D) -> Result<PageStore<D>, (StartFault, D)>
        ensures pages { IfOk result (λ store. IsTrue (D.told disk).tells_contents → OpensAs store.layout (D.told disk).contents store.pages) }
        // So the disk has a store of this layout, and a refusal comes exactly where it has none or a damaged one.
        ensures there { IfOk result (λ store. IsTrue (D.told disk).tells_contents → HasStore store.layout (D.told disk).size (D.told disk).contents) }
        ensures order { IfOk result (λ store. Tells D.told store → AreInOrder store.layout store.pages) }
        // Whatever a crash leaves now opens to these pages.
        ensures sure { IfOk result (λ store. (image : List ℕ) → IsTrue ((D.told store.disk).now image) → OpensAs store.layout image store.pages) }
        ensures fresh { IfOk result (λ store. store.failed ≡ None) }
        ensures faults { IfOk result (λ store. (D.told disk).faults ≤ (D.told store.disk).faults) }
        // At every moment, also of a call that refuses.
        ensures any_moment { MatchResult result (λ store. Throughout (D.told disk) (D.told store.disk) (OpensAsBefore (D.told disk))) (λ e. Throughout (D.told disk) (D.told e.1) (OpensAsBefore (D.told disk))) }
        // Where no store is there, nothing was written.
        ensures untouched { IfErr result (λ e. e.0 ≡ StartFault.NoStore → IsUntouched (D.told disk) (D.told e.1)) }
        // Whatever is answered, only pages were written back.
        ensures front { MatchResult result (λ store. KeepsFront (D.told disk) (D.told store.disk)) (λ e. KeepsFront (D.told disk) (D.told e.1)) }
        ensures refused { IfErr result (λ e. IsRefused (D.told disk) (D.told e.1) e.0) }
    {
        slots_are_read();
        let mut disk = disk;
        let opened = match open(alloc, &mut disk) {
            Ok(opened) => opened,
            Err(fault) => return Err((fault, disk)),
        };
        let Opened {
            layout,
            log,
            pool,
            marks,
            facts,
        } = opened;
        tables_have_forms(&layout);
        let Ok(forms) = forms_of(alloc, &layout) else {
            return Err((StartFault::Memory, disk));
        };
        let Ok(waiting) = ChangeBuffer::new(alloc) else {
            return Err((StartFault::Memory, disk));
        };
        let pages = LoggedPages::of_parts(disk, layout, log, pool, marks, waiting);
        Ok(PageStore::of_parts(pages, forms, facts))
    }
}
