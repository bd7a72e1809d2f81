//! A script that is run by one worker a session.

ghost use Rattle.std.specs.Prelude.{◌≡◌, ◌≢◌, ◌⊎◌, ◌≤◌, [], None, Some, IsTrue};
ghost use Rattle.block_model.specs.Causes.{Rose};
ghost use Rattle.session_core.specs.Started.{HoldsImage};
ghost use Rattle.threads_run.specs.Given.{IsOpenedFor};
ghost use Rattle.brin_app.specs.declared.top.Task.TheVariants as tasks;
ghost use Rattle.brin_app.specs.StatusCauses.{IsDoneSo};
ghost use Rattle.brin_app.specs.Statuses.{IsStatus};
ghost use Rattle.brin_app.specs.Threads.{HasRead, HasWorkers, IsGivenFor, IsWorkedFor};

use crate::laws::{a_stored_table_is_not_damaged, each_image_opens_to_one_map};
use crate::status::SCRIPT_LIMIT;
use crate::top::{make, refused, status};
use disk_trait::Disk;
use io_traits::{Gate, Sink, Source};
use session_core::{Store, a_new_store_opens_to_fresh_pages};
use session_parts::a_start_stands;
use session_stepper::{NamedDisk, Names};
use std::alloc::Global;
use std::sync::Wait;
use std::thread::Threads;
use store_format::one_layout;
use store_layout::Layout;
use threads_run::run_threads;

/// Makes an empty store of the disk, and runs the script of the source over it.
pub(crate) fn run_new_threads<
    N: Names + Send,
    R: Threads + Wait + Sync,
    D: Disk + Send + Drop,
    S: Source,
    K: Sink,
    G: Gate + Sync,
>(
    rt: &R,
    alloc: Global,
    layout: &Layout,
    mut disk: D,
    source: &mut S,
    sink: &mut K,
    gate: &G,
) -> (u8, D)
    requires faults { N.faults ≡ (D.told disk).faults }
    requires given { IsTrue N.honest → IsGivenFor (tasks.Threads layout.now) (D.told disk) (S.left source.old) N.opening N.layout N.script }
    ensures done { IsDoneSo (tasks.Threads layout.now) result.0 (D.told disk) (D.told result.1) (S.left source.old) (S.left source.new) (K.taken sink.old) (K.taken sink.new) (Rose (S.faults source.old) (S.faults source.new)) (Rose (K.faults sink.old) (K.faults sink.new)) }
    ensures threads { IsTrue N.honest → IsWorkedFor (tasks.Threads layout.now) result.0 (D.told disk) (D.told result.1) (S.left source.old) (S.left source.new) (K.taken sink.old) (K.taken sink.new) N.opening N.layout N.script }
{
    one_layout();
    each_image_opens_to_one_map();
    a_stored_table_is_not_damaged();
    a_new_store_opens_to_fresh_pages(layout);
    match make(layout, &mut disk) {
        Ok(()) => match Store::start(alloc, disk) {
            Ok(store) => work_on::<N, R, D, S, K, G>(rt, alloc, store, source, sink, gate),
            Err(refusal) => refused(refusal),
        },
        Err(status) => (status, disk),
    }
}

/// Opens the store on the disk behind the name, and runs the script of the source over it. So over a name that isn't honest any bytes may stand there.
pub(crate) fn run_stored_threads<
    N: Names + Send,
    R: Threads + Wait + Sync,
    D: Disk + Send + Drop,
    S: Source,
    K: Sink,
    G: Gate + Sync,
>(rt: &R, alloc: Global, disk: D, source: &mut S, sink: &mut K, gate: &G) -> (u8, D)
    requires faults { N.faults ≡ (D.told disk).faults }
    requires given { IsTrue N.honest → IsGivenFor tasks.ThreadsStored (D.told disk) (S.left source.old) N.opening N.layout N.script }
    ensures done { IsDoneSo tasks.ThreadsStored result.0 (D.told disk) (D.told result.1) (S.left source.old) (S.left source.new) (K.taken sink.old) (K.taken sink.new) (Rose (S.faults source.old) (S.faults source.new)) (Rose (K.faults sink.old) (K.faults sink.new)) }
    ensures threads { IsTrue N.honest → IsWorkedFor tasks.ThreadsStored result.0 (D.told disk) (D.told result.1) (S.left source.old) (S.left source.new) (K.taken sink.old) (K.taken sink.new) N.opening N.layout N.script }
{
    one_layout();
    each_image_opens_to_one_map();
    let disk = NamedDisk::<N, D>::new(disk);
    let (status, disk) = open_and_work::<N, R, NamedDisk<N, D>, S, K, G>(
        rt, alloc, disk, source, sink, gate,
    );
    (status, disk.into_inner())
}

/// Opens the store on the disk, and runs the script of the source over it.
fn open_and_work<
    N: Names + Send,
    R: Threads + Wait + Sync,
    D: Disk + Send + Drop,
    S: Source,
    K: Sink,
    G: Gate + Sync,
>(rt: &R, alloc: Global, disk: D, source: &mut S, sink: &mut K, gate: &G) -> (u8, D)
    requires image { HoldsImage (D.told disk) }
    requires faults { N.faults ≡ (D.told disk).faults }
    requires given { IsTrue N.honest → IsGivenFor tasks.ThreadsStored (D.told disk) (S.left source.old) N.opening N.layout N.script }
    ensures done { IsDoneSo tasks.ThreadsStored result.0 (D.told disk) (D.told result.1) (S.left source.old) (S.left source.new) (K.taken sink.old) (K.taken sink.new) (Rose (S.faults source.old) (S.faults source.new)) (Rose (K.faults sink.old) (K.faults sink.new)) }
    ensures threads { IsTrue N.honest → IsWorkedFor tasks.ThreadsStored result.0 (D.told disk) (D.told result.1) (S.left source.old) (S.left source.new) (K.taken sink.old) (K.taken sink.new) N.opening N.layout N.script }
{
    one_layout();
    each_image_opens_to_one_map();
    a_stored_table_is_not_damaged();
    a_start_stands();
    match Store::start(alloc, disk) {
        Ok(store) => work_on::<N, R, D, S, K, G>(rt, alloc, store, source, sink, gate),
        Err(refusal) => refused(refusal),
    }
}

/// Runs the script of the source over the store that was opened, and answers its disk.
fn work_on<
    N: Names + Send,
    R: Threads + Wait + Sync,
    D: Disk + Send + Drop,
    S: Source,
    K: Sink,
    G: Gate + Sync,
>(rt: &R, alloc: Global, store: Store<D>, source: &mut S, sink: &mut K, gate: &G) -> (u8, D)
    requires fresh { (store.names ≡ []) × (store.hands ≡ []) × (store.pages.failed ≡ None) }
    requires faults { N.faults ≤ (D.told store.pages.disk).faults }
    requires given { IsTrue N.honest → IsOpenedFor D.told N.opening N.layout store × (S.left source.old ≡ Some N.script) }
    ensures known { IsStatus result.0 }
    ensures read { HasRead result.0 (S.left source.old) (S.left source.new) }
    ensures works { IsTrue N.honest → HasWorkers result.0 N.opening N.layout N.script (D.told result.1) (K.taken sink.old) (K.taken sink.new) }
    ensures read_fault { result.0 ≡ 4 → Rose (S.faults source.old) (S.faults source.new) }
    ensures write_fault { result.0 ≡ 5 → Rose (K.faults sink.old) (K.faults sink.new) }
    ensures disk_fault { result.0 ≡ 6 → Rose N.faults (D.told result.1).faults }
    ensures damaged { result.0 ≡ 11 → IsTrue (D.told result.1).tells_contents → ⊥ }
    ensures others { (result.0 ≢ 2) × (result.0 ≢ 9) }
{
    let (end, disk) = run_threads::<N, R, D, S, K, G>(
        rt,
        alloc,
        SCRIPT_LIMIT,
        store,
        source,
        sink,
        gate,
    );
    (status(end), disk)
}
