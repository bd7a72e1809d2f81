//! The run of a script by one worker a session.

ghost use Rattle.std.specs.Prelude.{◌≡◌, ◌⊎◌, ◌≤◌, ◌+◌, ℕ, List, [], Some, Err, All, IfSome, IsNone, IsTrue, length, false};
ghost use Rattle.std.specs.List.{sum_by};
ghost use Rattle.block_model.specs.Causes.{Rose};
ghost use Rattle.script_run.specs.Script.{script_lines};
ghost use Rattle.plain_script.specs.PlainScripts.{plain_script};
ghost use Rattle.plain_script.specs.ReadingFaults.{run_fault_of};
ghost use Rattle.session_stepper.specs.Beginning.{IsFresh, IsGiven};
ghost use Rattle.session_stepper.specs.Locked.{HasEnded, IsKnown};
ghost use Rattle.threads_run.specs.Ends.{IsWrittenBehind, end_of};
ghost use Rattle.threads_run.specs.Given.{IsOpenedFor, TakesBytes};
ghost use Rattle.threads_run.specs.Output.{HasWorked, IsThreadsOutput, IsUnbegun, output_of};

use crate::workers::{idle_workers, joined};
use crate::writing::write_output;
use disk_trait::Disk;
use io_traits::{Gate, Sink, Source};
use plain_script::{ScriptFault, ScriptLines, read_script};
use script_run::{AnswerFault, RunFault};
use session_core::Store;
use session_stepper::{Ending, LockedStore, Names};
use session_threads::{WorkerEnd, run_all};
use std::alloc::Global;
use std::marker::Brand;
use std::sync::ledger::{Blank, Ledger, Share};
use std::sync::{Condvar, Mutex, Wait};
use std::thread::Threads;
use transcripts::entries_are_of_lines;

/// Reads the script of the source whole, of up to `limit` bytes; has the lines of each of its sessions answered by a worker of its own, in a thread where one can be made;
/// and writes the texts of all lines. `Read` comes where a read failed and `Spent` exactly where `limit` bytes were taken and another came; nothing is done then. Of what
/// isn't answered, `Disk` comes where the disk failed, `Full` where the journal had no room for a step, `Memory` for want of memory, also before a worker is begun, and
/// `Damaged` over a disk that doesn't tell its contents alone. `Write` comes in place of each where a write failed. The disk comes back with each.
pub fn run_threads<
    N: Names + Send,
    R: Threads + Wait + Sync,
    D: Disk + Send + Drop,
    S: Source,
    K: Sink,
    G: Gate + Sync,
>(
    rt: &R,
    alloc: Global,
    limit: u64,
    store: Store<D>,
    source: &mut S,
    sink: &mut K,
    gate: &G,
) -> (Result<(), RunFault>, D)
    // The store was just opened.
    requires fresh { (store.names ≡ []) × (store.hands ≡ []) × (store.pages.failed ≡ None) }
    requires faults { N.faults ≤ (D.told store.pages.disk).faults }
    // Where the name is honest, the store and the source are what it says.
    requires given { IsTrue N.honest → IsOpenedFor D.told N.opening N.layout store × (S.left source.old ≡ Some N.script) }
    // What was answered is a right transcript, which is written, and each image of the disk has its table.
    ensures output { IsTrue N.honest → IsThreadsOutput limit result.0 N.opening N.layout N.script (D.told result.1) (K.taken sink.old) (K.taken sink.new) }
    // Over any name.
    ensures takes { TakesBytes limit result.0 (S.left source.old) (S.left source.new) }
    ensures nothing { (result.0 ≡ Err RunFault.Read) ⊎ (result.0 ≡ Err RunFault.Spent) → sink.new ≡ sink.old }
    ensures read_fault { result.0 ≡ Err RunFault.Read → Rose (S.faults source.old) (S.faults source.new) }
    ensures write_fault { result.0 ≡ Err RunFault.Write → Rose (K.faults sink.old) (K.faults sink.new) }
    ensures disk_fault { result.0 ≡ Err (RunFault.Unanswered AnswerFault.Disk) → Rose N.faults (D.told result.1).faults }
    ensures damaged { result.0 ≡ Err (RunFault.Unanswered AnswerFault.Damaged) → IsTrue (D.told result.1).tells_contents → ⊥ }
{
    match read_script(alloc, limit, store.layout(), source) {
        Ok(script) => {
            let parts = script.sessions() as u64 + 1;
            with_books::<N, Brand, Brand, R, D, K, G>(
                rt,
                alloc,
                store,
                script,
                Blank::new(parts),
                Blank::new(parts),
                sink,
                gate,
            )
        }
        Err(fault) => (Err(run_fault(fault)), store.into_disk()),
    }
}

/// Begins the workers, each with its parts of both books.
fn with_books<
    N: Names + Send,
    L: Ledger + Send,
    E: Ledger + Send,
    R: Threads + Wait + Sync,
    D: Disk + Send + Drop,
    K: Sink,
    G: Gate + Sync,
>(
    rt: &R,
    alloc: Global,
    store: Store<D>,
    script: ScriptLines,
    answers: Blank,
    ends: Blank,
    sink: &mut K,
    gate: &G,
) -> (Result<(), RunFault>, D)
    requires fresh { IsFresh store script }
    requires faults { N.faults ≤ (D.told store.pages.disk).faults }
    requires given { IsTrue N.honest → IsGiven D.told N.opening N.layout (plain_script N.layout.schema (script_lines N.script)) store script.script }
    requires answers { (answers.name ≡ L.name) × (answers.parts ≡ L.parts) × (L.parts ≡ length script.script.names + 1) }
    requires ends { (ends.name ≡ E.name) × (ends.parts ≡ E.parts) × (E.parts ≡ length script.script.names + 1) }
    ensures output { IsTrue N.honest → (limit : ℕ) (bytes : List ℕ) → IsUnbegun limit result.0 N.opening N.layout bytes (D.told result.1) (K.taken sink.old) (K.taken sink.new)
        ⊎ HasWorked result.0 N.opening N.layout (plain_script N.layout.schema (script_lines N.script)) (D.told result.1) (K.taken sink.old) (K.taken sink.new) }
    ensures begun { (result.0 ≡ Err RunFault.Read) ⊎ (result.0 ≡ Err RunFault.Spent) → ⊥ }
    ensures write_fault { result.0 ≡ Err RunFault.Write → Rose (K.faults sink.old) (K.faults sink.new) }
    ensures disk_fault { result.0 ≡ Err (RunFault.Unanswered AnswerFault.Disk) → Rose N.faults (D.told result.1).faults }
    ensures damaged { result.0 ≡ Err (RunFault.Unanswered AnswerFault.Damaged) → IsTrue (D.told result.1).tells_contents → ⊥ }
{
    entries_are_of_lines();
    let (answers, mut share) = answers.open::<L>();
    let (ends, mut end) = ends.open::<E>();
    let Ok(workers) = idle_workers(alloc, &script, &mut share, &mut end) else {
        return (
            Err(RunFault::Unanswered(AnswerFault::Memory)),
            store.into_disk(),
        );
    };
    match LockedStore::<N, D, L, E>::new(alloc, store, script, answers, ends) {
        Ok(locked) => written(worked(rt, locked, workers, (share, end), gate), sink),
        Err(disk) => (Err(RunFault::Unanswered(AnswerFault::Memory)), disk),
    }
}

/// Has all lines answered over the locked store, by the workers. Where it hasn't ended, as many entries are kept as the workers have lines.
fn worked<
    N: Names + Send,
    L: Ledger + Send,
    E: Ledger + Send,
    R: Threads + Wait + Sync,
    D: Disk + Send + Drop,
    G: Gate + Sync,
>(
    rt: &R,
    locked: LockedStore<N, D, L, E>,
    workers: Vec<WorkerEnd<L, E>>,
    kept: (Share<L>, Share<E>),
    gate: &G,
) -> LockedStore<N, D, L, E>
    requires fresh { All (λ w. (w.done ≡ 0) × (w.ended ≡ false) × (w.share.amount ≡ 0) × (w.end.amount ≡ 0)) workers.items }
    requires parts { All (λ w. (w.share.parts ≡ 1) × (w.end.parts ≡ 1)) workers.items }
    requires kept { (kept.0.parts ≡ 1) × (kept.1.parts ≡ 1) × (kept.0.amount ≡ 0) × (kept.1.amount ≡ 0) }
    requires all { (L.parts ≡ length workers.items + 1) × (E.parts ≡ length workers.items + 1) }
    ensures { IsNone result.kept.ended → length result.kept.said ≡ sum_by (λ w. length w.lines) workers.items }
{
    let mut workers = workers;
    let store = Mutex::new(locked);
    run_all(rt, &store, &Condvar::new(), workers.as_mut_slice(), gate);
    let (mut share, mut end) = joined(workers, kept);
    let mut locked = store.into_inner();
    locked.audit(&mut share);
    locked.audit_ends(&mut end);
    locked.known();
    locked
}

/// Writes what was answered, and gives the disk back.
fn written<N: Names, L: Ledger, E: Ledger, D: Disk + Drop, K: Sink>(
    locked: LockedStore<N, D, L, E>,
    sink: &mut K,
) -> (Result<(), RunFault>, D)
    ensures disk { result.1 ≡ locked.kept.store.pages.disk }
    ensures watched { IsTrue N.honest → IsKnown D.told N.opening N.layout (plain_script N.layout.schema (script_lines N.script)) locked.kept }
    ensures cause { IfSome locked.kept.ended (HasEnded D.told N.faults locked.kept.store) }
    ensures bytes { IsWrittenBehind (output_of locked.kept.script.script locked.kept.said) (K.taken sink.old) (K.taken sink.new) (end_of locked.kept.ended) result.0 }
    ensures write_fault { result.0 ≡ Err RunFault.Write → Rose (K.faults sink.old) (K.faults sink.new) }
{
    locked.known();
    let (disk, script, said, ended) = locked.into_parts();
    match write_output(sink, script.unread(), said.as_slice()) {
        Ok(()) => (end_of(ended), disk),
        Err(_) => (Err(RunFault::Write), disk),
    }
}

/// How the run ends behind that end of the locked store.
fn end_of(ended: Option<Ending>) -> Result<(), RunFault>
    ensures { result ≡ end_of ended }
{
    match ended {
        None => Ok(()),
        Some(Ending::Disk) => Err(RunFault::Unanswered(AnswerFault::Disk)),
        Some(Ending::Memory | Ending::OutOfPlace) => Err(RunFault::Unanswered(AnswerFault::Memory)),
        Some(Ending::Spent) => Err(RunFault::Unanswered(AnswerFault::Full)),
        Some(Ending::Damaged) => Err(RunFault::Unanswered(AnswerFault::Damaged)),
    }
}

/// How it ends where the script isn't read.
fn run_fault(fault: ScriptFault) -> RunFault
    ensures { result ≡ run_fault_of fault }
{
    match fault {
        ScriptFault::Read => RunFault::Read,
        ScriptFault::Spent => RunFault::Spent,
        ScriptFault::Memory => RunFault::Unanswered(AnswerFault::Memory),
    }
}
