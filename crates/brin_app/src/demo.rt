//! The demo over a new store.

ghost use Rattle.std.specs.Prelude.{◌≡◌, ◌≢◌, ℕ, List, None, Option, IsErrOf};
ghost use Rattle.block_model.specs.Causes.{Rose};
ghost use Rattle.command_line.specs.Laws.{AreDemoNumbers};
ghost use Rattle.page_map.specs.Keeps.{Tells};
ghost use Rattle.session_core.specs.StopRule.{AllHaveTable};
ghost use Rattle.session_parts.specs.ShowsPlace.{ShowsPlace};
ghost use Rattle.session_core.specs.Started.{HoldsImage};
ghost use Rattle.script_semantics.specs.Place.{Place};
ghost use Rattle.brin_app.specs.declared.top.Task.TheVariants as tasks;
ghost use Rattle.brin_app.specs.DemoOutput.{IsDemoRun};
ghost use Rattle.brin_app.specs.DemoSums.{HasSummed, SumsFresh};
ghost use Rattle.brin_app.specs.Holding.{HoldsOnFor};
ghost use Rattle.brin_app.specs.StatusCauses.{IsDoneSo};
ghost use Rattle.brin_app.specs.Statuses.{IsStatus};

use crate::laws::{
    a_demo_fits_the_journal, a_stored_table_is_not_damaged, each_image_opens_to_one_map,
};
use crate::sessions::Sessions;
use crate::top::{make, refused, status};
use demo_script::{play, render_summary};
use disk_trait::Disk;
use io_traits::{Sink, write_all};
use script_run::RunFault;
use session_core::{Store, a_new_store_opens_to_fresh_pages};
use std::alloc::Global;
use store_format::one_layout;
use store_layout::Layout;

/// The number of the demo's table.
const DEMO_TABLE: u8 = 0;

/// The seed of a demo, and how many rows it has.
#[derive(Clone, Copy, Debug)]
pub(crate) struct DemoNumbers {
    pub seed: u32,
    pub rows: u32,
}

/// Makes an empty store of the disk, runs the demo over it, and writes what it sums up.
pub(crate) fn run_demo<D: Disk + Drop, K: Sink>(
    alloc: Global,
    layout: &Layout,
    numbers: DemoNumbers,
    mut disk: D,
    sink: &mut K,
) -> (u8, D)
    requires { AreDemoNumbers numbers.seed numbers.rows }
    // Whatever source there is, nothing is read of it, and no fault of it is met.
    ensures done { (left : Option (List ℕ)) → IsDoneSo (tasks.Demo layout.now numbers.seed numbers.rows) result.0 (D.told disk) (D.told result.1) left left (K.taken sink.old) (K.taken sink.new) ⊥ (Rose (K.faults sink.old) (K.faults sink.new)) }
    ensures holds_on { HoldsOnFor (tasks.Demo layout.now numbers.seed numbers.rows) result.0 (D.told disk) (D.told result.1) }
{
    one_layout();
    each_image_opens_to_one_map();
    a_stored_table_is_not_damaged();
    a_new_store_opens_to_fresh_pages(layout);
    a_demo_fits_the_journal();
    match make(layout, &mut disk) {
        Ok(()) => demo_on(alloc, disk, numbers, sink),
        Err(status) => (status, disk),
    }
}

/// Opens the new store on the disk, and runs the demo over it.
fn demo_on<D: Disk + Drop, K: Sink>(
    alloc: Global,
    disk: D,
    numbers: DemoNumbers,
    sink: &mut K,
) -> (u8, D)
    requires image { HoldsImage (D.told disk) }
    requires numbers { AreDemoNumbers numbers.seed numbers.rows }
    ensures sums { SumsFresh result.0 numbers.seed numbers.rows (D.told disk) (D.told result.1) (K.taken sink.old) (K.taken sink.new) (Rose (K.faults sink.old) (K.faults sink.new)) }
{
    one_layout();
    each_image_opens_to_one_map();
    a_stored_table_is_not_damaged();
    match Store::start(alloc, disk) {
        Ok(store) => demo_over(alloc, store, numbers, sink),
        Err(refusal) => refused(refusal),
    }
}

/// Runs the demo over the store that was opened, and answers its disk.
fn demo_over<D: Disk + Drop, K: Sink>(
    alloc: Global,
    store: Store<D>,
    numbers: DemoNumbers,
    sink: &mut K,
) -> (u8, D)
    requires { AreDemoNumbers numbers.seed numbers.rows }
    ensures known { IsStatus result.0 }
    ensures runs { (start : Place) → Tells D.told store.pages → store.pages.failed ≡ None → ShowsPlace store start → AllHaveTable D.told store.pages start
        → IsDemoRun result.0 store.pages.layout numbers.seed numbers.rows (D.told result.1) (K.taken sink.old) (K.taken sink.new) (record { place = start; disk = D.told store.pages.disk }) }
    ensures write_fault { result.0 ≡ 5 → Rose (K.faults sink.old) (K.faults sink.new) }
    ensures disk_fault { result.0 ≡ 6 → store.pages.failed ≡ None → Rose (D.told store.pages.disk).faults (D.told result.1).faults }
    ensures damaged { result.0 ≡ 11 → Tells D.told store.pages → store.pages.failed ≡ None → ⊥ }
    ensures others { (result.0 ≢ 2) × ((result.0 ≢ 4) × (result.0 ≢ 9)) }
{
    let mut sessions = Sessions { alloc, store };
    let end = sum_up(&mut sessions, numbers, sink);
    (status(end), sessions.store.into_disk())
}

/// Says the demo to the sessions, and writes what it sums up.
fn sum_up<D: Disk + Drop, K: Sink>(
    sessions: &mut Sessions<D>,
    numbers: DemoNumbers,
    sink: &mut K,
) -> Result<(), RunFault>
    requires { AreDemoNumbers numbers.seed numbers.rows }
    ensures sums { HasSummed D.told numbers.seed numbers.rows sessions.old sessions.new (K.taken sink.old) (K.taken sink.new) result }
    ensures cause { IsErrOf result RunFault.Write → Rose (K.faults sink.old) (K.faults sink.new) }
{
    let alloc = sessions.alloc;
    let counts = play(alloc, numbers.seed, numbers.rows, sessions)?;
    sessions.store.layout().known();
    let blocks = sessions.store.block_count(DEMO_TABLE);
    let mut summary = Vec::new(alloc);
    render_summary(&counts, blocks, &mut summary)?;
    write_all(sink, summary.as_slice())?;
    Ok(())
}
