//! A disk that is opened.

ghost use Rattle.std.specs.Prelude.{◌≡◌, IsTrue, IfErr, IfOk};
ghost use Rattle.disk_trait.specs.IsStable.{IsStable};
ghost use Rattle.disk_trait.specs.Throughout.{Throughout};
ghost use Rattle.recovery.specs.Opens.{OpensAs};
ghost use Rattle.recovery.specs.Reaches.{OpensAsBefore};
ghost use Rattle.recovery.specs.ShownPages.{shown_pages};
ghost use Rattle.recovery.specs.Begun.{IsBegun};
ghost use Rattle.recovery.specs.Opened.{IsOpened};
ghost use Rattle.recovery.specs.StartCauses.{StartCause};
ghost use Rattle.recovery.specs.Untouched.{HasFrontOf, IsUntouched, KeepsFront};

use crate::beginning::{Begun, begin};
use crate::fault::StartFault;
use crate::judging::judge;
use crate::redoing::redo_log;
use buffer_pool::Pool;
use disk_trait::Disk;
use log_area::LogArea;
use page_map::{FactList, redo_forgets_a_page_begun_anew};
use std::alloc::Global;
use store_format::one_layout;
use store_layout::Layout;

/// What a store is made of once its disk is opened.
#[derive(Drop)]
pub struct Opened {
    pub layout: Layout,
    pub log: LogArea,
    pub pool: Pool,
    /// Of each page of the disk, by its number, whether changes of the log begin it anew.
    pub marks: Vec<bool>,
    /// Of each relation, the facts of its pages.
    pub facts: Vec<FactList>,
}

/// Opens the disk: its pages are those after the changes of the opened frames of the area that it chooses. All memory that a store
/// ever takes for pages, marks and facts is taken here. `NoStore` exactly where the control page isn't a store's, or the disk
/// hasn't its size; `Damaged` where a frame or a page that was read isn't of its form, or breaks the order of pages; `Disk` where
/// the disk failed in this call; `Memory` is want of memory.
pub fn open<D: Disk>(alloc: Global, disk: &mut D) -> Result<Opened, StartFault>
    ensures opened { IfOk result (λ opened. IsOpened opened (D.told disk.new)) }
    ensures pages { IfOk result (λ opened. IsTrue (D.told disk.old).tells_contents → OpensAs opened.layout (D.told disk.old).contents (shown_pages opened.layout opened.pool (D.told disk.new).contents)) }
    // Also where it isn't opened.
    ensures any_moment { Throughout (D.told disk.old) (D.told disk.new) (OpensAsBefore (D.told disk.old)) }
    ensures cause { StartCause (D.told disk.old) (D.told disk.new) result }
    // Where no store is there, nothing is written.
    ensures untouched { IfErr result (λ fault. fault ≡ StartFault.NoStore → IsUntouched (D.told disk.old) (D.told disk.new)) }
    // Whatever is answered, only pages are written back.
    ensures front { KeepsFront (D.told disk.old) (D.told disk.new) }
{
    one_layout();
    let Ok(()) = disk.sync() else {
        return Err(StartFault::Disk);
    };
    match open_synced(alloc, disk) {
        Ok(opened) => Ok(opened),
        Err(fault) => Err(fault),
    }
}

/// Opens a disk on which no write is pending.
fn open_synced<D: Disk>(alloc: Global, disk: &mut D) -> Result<Opened, StartFault>
    requires { IsStable (D.told disk.old) }
    ensures opened { IfOk result (λ opened. IsOpened opened (D.told disk.new)) }
    ensures pages { IfOk result (λ opened. IsTrue (D.told disk.old).tells_contents → OpensAs opened.layout (D.told disk.old).contents (shown_pages opened.layout opened.pool (D.told disk.new).contents)) }
    ensures any_moment { Throughout (D.told disk.old) (D.told disk.new) (OpensAsBefore (D.told disk.old)) }
    ensures cause { StartCause (D.told disk.old) (D.told disk.new) result }
    ensures untouched { IfErr result (λ fault. fault ≡ StartFault.NoStore → IsUntouched (D.told disk.old) (D.told disk.new)) }
    ensures front { IsTrue (D.told disk.old).tells_contents → HasFrontOf (D.told disk.old).contents (D.told disk.new).contents }
{
    match begin(alloc, disk) {
        Ok(begun) => match finish(alloc, disk, begun) {
            Ok(opened) => Ok(opened),
            Err(fault) => Err(fault),
        },
        Err(fault) => Err(fault),
    }
}

/// Redoes the log of a disk of which all but the pages is read, and judges them.
fn finish<D: Disk>(alloc: Global, disk: &mut D, begun: Begun) -> Result<Opened, StartFault>
    requires stable { IsStable (D.told disk.old) }
    requires begun { IsBegun begun (D.told disk.old) }
    ensures opened { IfOk result (λ opened. IsOpened opened (D.told disk.new)) }
    ensures pages { IfOk result (λ opened. IsTrue (D.told disk.old).tells_contents → OpensAs opened.layout (D.told disk.old).contents (shown_pages opened.layout opened.pool (D.told disk.new).contents)) }
    ensures any_moment { Throughout (D.told disk.old) (D.told disk.new) (OpensAsBefore (D.told disk.old)) }
    ensures cause { StartCause (D.told disk.old) (D.told disk.new) result }
    ensures store { IfErr result (λ fault. fault ≡ StartFault.NoStore → ⊥) }
    ensures front { IsTrue (D.told disk.old).tells_contents → HasFrontOf (D.told disk.old).contents (D.told disk.new).contents }
{
    one_layout();
    redo_forgets_a_page_begun_anew();
    let Begun {
        layout,
        area,
        log,
        frames,
        mut pool,
        mut marks,
    } = begun;
    layout.known();
    match redo_log(disk, &layout, area, &frames, &mut pool, &mut marks) {
        Ok(()) => {}
        Err(fault) => return Err(fault),
    }
    let facts = match judge(alloc, disk, &layout, &mut pool) {
        Ok(facts) => facts,
        Err(fault) => return Err(fault),
    };
    Ok(Opened {
        layout,
        log,
        pool,
        marks,
        facts,
    })
}
