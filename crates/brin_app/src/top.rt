//! The top call.

ghost use Rattle.std.specs.Prelude.{◌≡◌, ◌≢◌, ◌⊎◌, ℕ, List, None, Ok, Err, IfOk, IfErr, OnOk, IsSome, IsTrue};
ghost use Rattle.block_model.specs.Causes.{Rose};
ghost use Rattle.block_model.specs.DatabaseState.{initial_state};
ghost use Rattle.block_model.specs.declared.schema.Schema.{Schema};
ghost use Rattle.disk_trait.specs.Throughout.{Throughout};
ghost use Rattle.store_layout.specs.FirstBrokenRule.{first_broken_rule};
ghost use Rattle.command_line.specs.DeclaredSchema.{Denotes};
ghost use Rattle.page_map.specs.Keeps.{Tells};
ghost use Rattle.script_semantics.specs.Place.{Place};
ghost use Rattle.session_parts.specs.ShowsPlace.{ShowsPlace};
ghost use Rattle.session_core.specs.StopRule.{AllHaveTable};
ghost use Rattle.session_core.specs.Started.{HoldsImage};
ghost use Rattle.session_core.specs.FreshPages.{IsOldOrFresh};
ghost use Rattle.brin_app.specs.Holding.{HasRun, HoldsOn, HoldsOnFor, ObeysLaws};
ghost use Rattle.brin_app.specs.ScriptOutput.{EachImageHas, EachImageIsFresh, HoldsFresh, IsFreshOutput, IsMade, IsOldOrEmpty, IsScriptRun, exit_status};
ghost use Rattle.brin_app.specs.StatusCauses.{HasDamage, IsCompleteOf, IsDoneSo, IsRefusedSo, IsSpentOf, LacksStore};
ghost use Rattle.brin_app.specs.Statuses.{IsFit, IsStatus, IsUnfit, format_status, start_status};
ghost use Rattle.command_line.specs.Laws.{AreDemoNumbers};
ghost use Rattle.brin_app.specs.Tasks.{Asks, AsksForThreads, AsksOnlyForThreads, HasDemoNumbers, HasNoLayout, HasNumbers, IsLayoutFor, IsTaskOf, IsThreaded, IsUsage, IsWrong};
ghost use Rattle.brin_app.specs.Threads.{IsCompleteFor, IsGivenFor, IsTooMuch, IsWorkedFor};
ghost use Rattle.command_line.specs.declared.command.Command.TheVariants as commands;
ghost use Rattle.brin_app.specs.declared.top.Task.{Task};
ghost use Rattle.brin_app.specs.declared.top.Task.TheVariants as tasks;
ghost use Rattle.brin_app.specs.TaskOutputs.{IsOutputOf};

use crate::demo::{DemoNumbers, run_demo};
use crate::laws::{a_stored_table_is_not_damaged, each_image_opens_to_one_map};
use crate::sessions::Sessions;
use crate::status::{
    DAMAGED, DISK_FAULT, DONE, LIMIT, MEMORY, NO_STORE, READ_FAULT, SCRIPT_LIMIT, USAGE,
    WRITE_FAULT,
};
use crate::threads::{run_new_threads, run_stored_threads};
use block_model::{NoMemory, Schema, Sizes, Words};
use command_line::{
    Command, CommandFault, DeclFault, demos_have_limits, read_command, read_declarations,
};
use demo_script::demo_layout;
use disk_trait::Disk;
use io_traits::{Gate, Sink, Source};
use recovery::StartFault;
use script_run::{AnswerFault, RunFault, run};
use session_core::{
    Store, a_format_leaves_old_or_none_or_new, a_new_store_is_an_image,
    a_new_store_opens_to_fresh_pages,
};
use session_stepper::Names;
use std::alloc::Global;
use std::sync::Wait;
use std::thread::Threads;
use store_format::{FormatFault, format, one_layout};
use store_layout::Layout;

/// Does what the words of a command line say. `init` with options and the declarations of tables and indexes makes an empty store of the disk; `run`
/// with them does so first, and then runs the script of the source over it, line after line, and writes the text of each line to the sink before the
/// next line is judged; `run` alone runs it over the store that stands on the disk. `demo` makes a store of its own, reads nothing of the source, and
/// writes what its script sums up. `threads` makes or opens a store as `run` does, reads the script of the source whole, and has the lines of each of its
/// sessions answered by a worker of its own, in a thread where `rt` makes one; the texts of all lines are written at the end. What its workers share is known by its type
/// alone: so a name carries into that type what the call was given. The status is 0 where all was done, 2 where the words are no command, or a limit is passed, 4 for a read fault, 5 for a write fault, 6 for a disk fault, 7 for want of memory, 8 where the requests of a line
/// don't fit into the journal of 1048576 entries, or 1073741824 bytes of script were taken and another came, 9 where no store stands on the disk, or
/// it hasn't the size for one, and 11 where the store is damaged. The disk comes back with each.
pub fn brin_main<
    N: Names + Send,
    R: Threads + Wait + Sync,
    D: Disk + Send + Drop,
    S: Source,
    K: Sink,
    G: Gate + Sync,
>(rt: &R, alloc: Global, words: &Words, disk: D, source: &mut S, sink: &mut K, gate: &G) -> (u8, D)
    // A run over the store that stands there needs one that a stop of a store left, or bytes that are none; other tasks need nothing of the disk. From call to
    // call `holds_on` gives it. `threads` may open any bytes: over a name that isn't honest the disk tells nothing of them.
    requires image { Asks words.now tasks.RunStored → HoldsImage (D.told disk) }
    // For the words of `threads` alone: the name knows the disk's count of faults; and where it is honest, what it says is so.
    requires faults { AsksForThreads words.now → N.faults ≡ (D.told disk).faults }
    requires given { IsTrue N.honest → (task : Task) → Asks words.now task → IsGivenFor task (D.told disk) (S.left source.old) N.opening N.layout N.script }
    // What is written, and which table a stop at any moment leaves.
    ensures script_output { (task : Task) → Asks words.now task → IsOutputOf task result.0 (D.told disk) (D.told result.1) (S.left source.old) (S.left source.new) (K.taken sink.old) (K.taken sink.new) }
    // What stands on the disk that comes back: where it tells its images, a further run may be called over it, if a store stood there for sure or was made.
    ensures holds_on { AsksOnlyForThreads words.now ⊎ HoldsOn words.now result.0 (D.told disk) (D.told result.1) }
    // What becomes of a script of `threads` over an honest name: it has a right transcript, which is written.
    ensures threads_output { IsTrue N.honest → (task : Task) → Asks words.now task → IsWorkedFor task result.0 (D.told disk) (D.told result.1) (S.left source.old) (S.left source.new) (K.taken sink.old) (K.taken sink.new) N.opening N.layout N.script }
    // A further run may be called over what stands on the disk then.
    ensures threads_holds_on { IsTrue N.honest → AsksForThreads words.now → HasRun result.0 → IsTrue (D.told result.1).tells_images → HoldsImage (D.told result.1) }

    // Which statuses there are, and when each comes. Want of memory, 7, is free.
    ensures known { IsStatus result.0 }
    ensures usage { result.0 ≡ 2 → IsUsage words.now }
    ensures refused { IsUsage words.now → (result.0 ≡ 2) ⊎ (result.0 ≡ 7) }
    ensures untouched { IsUsage words.now → (source.new ≡ source.old) × (sink.new ≡ sink.old) × (result.1 ≡ disk) }
    ensures read_fault { result.0 ≡ 4 → Rose (S.faults source.old) (S.faults source.new) }
    ensures write_fault { result.0 ≡ 5 → Rose (K.faults sink.old) (K.faults sink.new) }
    ensures disk_fault { result.0 ≡ 6 → Rose (D.told disk).faults (D.told result.1).faults }
    ensures no_store { result.0 ≡ 9 → (task : Task) → Asks words.now task → LacksStore task (D.told disk) }
    ensures damaged { result.0 ≡ 11 → (task : Task) → Asks words.now task → HasDamage task (D.told disk) (D.told result.1) }
    // What is done over a disk that hasn't the size, or holds no store.
    ensures refused_disk { (task : Task) → Asks words.now task → IsRefusedSo task result.0 (D.told disk) (D.told result.1) (S.left source.old) (S.left source.new) (K.taken sink.old) (K.taken sink.new) }
    ensures spent { (task : Task) → Asks words.now task → IsSpentOf task result.0 (D.told disk) (S.left source.old) (S.left source.new) }
    ensures complete { (task : Task) → Asks words.now task → ¬ (Rose (S.faults source.old) (S.faults source.new)) → ¬ (Rose (K.faults sink.old) (K.faults sink.new)) → ¬ (Rose (D.told disk).faults (D.told result.1).faults)
        → IsCompleteOf task result.0 (D.told disk) (S.left source.old) }
    // The same of `threads`, over an honest name.
    // A store stands there if none is to be made, and it isn't damaged.
    ensures threads_no_store { IsTrue N.honest → Asks words.now tasks.ThreadsStored → result.0 ≢ 9 }
    ensures threads_damaged { IsTrue N.honest → AsksForThreads words.now → result.0 ≢ 11 }
    ensures threads_spent { IsTrue N.honest → AsksForThreads words.now → result.0 ≡ 8 → IsTooMuch N.opening N.layout N.script }
    ensures threads_complete { IsTrue N.honest → (task : Task) → Asks words.now task → ¬ (Rose (S.faults source.old) (S.faults source.new)) → ¬ (Rose (K.faults sink.old) (K.faults sink.new)) → ¬ (Rose (D.told disk).faults (D.told result.1).faults)
        → IsCompleteFor task result.0 (D.told disk) N.opening N.layout N.script }
{
    one_layout();
    each_image_opens_to_one_map();
    disk_laws(&disk);
    match read_words(alloc, words) {
        Ok(task) => perform::<N, R, D, S, K, G>(rt, alloc, task, disk, source, sink, gate),
        Err(WordsFault::Usage) => (USAGE, disk),
        Err(WordsFault::Memory) => (MEMORY, disk),
    }
}

/// Does nothing; tells its caller the laws of the disk.
fn disk_laws<D: Disk>(disk: &D)
    ensures obeys { (d : D) → ObeysLaws (D.told d) }
    ensures only { (image : List ℕ) → IsTrue ((D.told disk.now).since (D.told disk.now).moment image) → IsTrue ((D.told disk.now).now image) }
{
    let _ = disk;
}

/// What words ask for: a new store of this layout; a script over one; a script over the store that stands there; both with one worker a session; or the demo
/// of this seed and of so many rows over a new store.
#[derive(Debug, Drop)]
pub enum Task {
    Init(Layout),
    Run(Layout),
    RunStored,
    Threads(Layout),
    ThreadsStored,
    Demo {
        layout: Layout,
        seed: u32,
        rows: u32,
    },
}

/// Why words ask for nothing, or can't be read.
#[derive(Clone, Copy, Debug, PartialEq, Eq)]
pub(crate) enum WordsFault {
    Usage,
    Memory,
}

impl From<CommandFault> for WordsFault {
    ghost use Rattle.brin_app.specs.WordsFaults.{of_command};

    ghost from_gives = { λ fault of. of ≡ of_command fault };

    fn from(fault: CommandFault) -> WordsFault {
        match fault {
            CommandFault::Usage => WordsFault::Usage,
            CommandFault::Memory => WordsFault::Memory,
        }
    }
}

impl From<DeclFault> for WordsFault {
    ghost use Rattle.brin_app.specs.WordsFaults.{of_declarations};

    ghost from_gives = { λ fault of. of ≡ of_declarations fault };

    fn from(fault: DeclFault) -> WordsFault {
        match fault {
            DeclFault::Form { .. } => WordsFault::Usage,
            DeclFault::Memory => WordsFault::Memory,
        }
    }
}

/// What the words ask for.
pub(crate) fn read_words(alloc: Global, words: &Words) -> Result<Task, WordsFault>
    ensures asked { IfOk result (Asks words.now) }
    ensures alone { IfOk result (λ task. (other : Task) → Asks words.now other → other ≡ task) }
    ensures right { IfOk result (λ task. ¬ (IsUsage words.now)) }
    ensures usage { result ≡ Err WordsFault.Usage → IsUsage words.now }
    ensures nothing { result ≡ Err WordsFault.Usage → (task : Task) → ¬ (Asks words.now task) }
    ensures numbers { IfOk result HasNumbers }
{
    demos_have_limits();
    let command = read_command(alloc, words)?;
    task_of(alloc, command)
}

/// What the command asks for.
fn task_of(alloc: Global, command: Command) -> Result<Task, WordsFault>
    requires { HasDemoNumbers command }
    ensures asked { IfOk result (IsTaskOf command) }
    ensures alone { IfOk result (λ task. (other : Task) → IsTaskOf command other → other ≡ task) }
    ensures numbers { IfOk result HasNumbers }
    ensures usage { result ≡ Err WordsFault.Usage → IsWrong command }
{
    match command {
        Command::Init {
            sizes,
            declarations,
        } => init_task(alloc, sizes, &declarations),
        Command::Run {
            sizes,
            declarations,
        } => run_task(alloc, sizes, &declarations),
        Command::RunStored => Ok(Task::RunStored),
        Command::Threads {
            sizes,
            declarations,
        } => threads_task(alloc, sizes, &declarations),
        Command::ThreadsStored => Ok(Task::ThreadsStored),
        Command::Demo { seed, rows } => demo_task(alloc, seed, rows),
    }
}

/// The demo of this seed and of so many rows.
fn demo_task(alloc: Global, seed: u32, rows: u32) -> Result<Task, WordsFault>
    requires { AreDemoNumbers seed rows }
    ensures asked { IfOk result (IsTaskOf (commands.Demo seed rows)) }
    ensures alone { IfOk result (λ task. (other : Task) → IsTaskOf (commands.Demo seed rows) other → other ≡ task) }
    ensures numbers { IfOk result HasNumbers }
    ensures memory { result ≡ Err WordsFault.Usage → ⊥ }
{
    match demo_layout(alloc, rows) {
        Ok(layout) => Ok(Task::Demo { layout, seed, rows }),
        Err(NoMemory) => Err(WordsFault::Memory),
    }
}

/// A new store of these sizes and of what the words declare.
fn init_task(alloc: Global, sizes: Sizes, declarations: &Words) -> Result<Task, WordsFault>
    ensures asked { IfOk result (IsTaskOf (commands.Init sizes declarations.now)) }
    ensures alone { IfOk result (λ task. (other : Task) → IsTaskOf (commands.Init sizes declarations.now) other → other ≡ task) }
    ensures numbers { IfOk result HasNumbers }
    ensures usage { result ≡ Err WordsFault.Usage → HasNoLayout sizes declarations.now }
{
    match layout_for(alloc, sizes, declarations) {
        Ok(layout) => Ok(Task::Init(layout)),
        Err(fault) => Err(fault),
    }
}

/// A script over one.
fn run_task(alloc: Global, sizes: Sizes, declarations: &Words) -> Result<Task, WordsFault>
    ensures asked { IfOk result (IsTaskOf (commands.Run sizes declarations.now)) }
    ensures alone { IfOk result (λ task. (other : Task) → IsTaskOf (commands.Run sizes declarations.now) other → other ≡ task) }
    ensures numbers { IfOk result HasNumbers }
    ensures usage { result ≡ Err WordsFault.Usage → HasNoLayout sizes declarations.now }
{
    match layout_for(alloc, sizes, declarations) {
        Ok(layout) => Ok(Task::Run(layout)),
        Err(fault) => Err(fault),
    }
}

/// A script over one, by one worker a session.
fn threads_task(alloc: Global, sizes: Sizes, declarations: &Words) -> Result<Task, WordsFault>
    ensures asked { IfOk result (IsTaskOf (commands.Threads sizes declarations.now)) }
    ensures alone { IfOk result (λ task. (other : Task) → IsTaskOf (commands.Threads sizes declarations.now) other → other ≡ task) }
    ensures numbers { IfOk result HasNumbers }
    ensures usage { result ≡ Err WordsFault.Usage → HasNoLayout sizes declarations.now }
{
    match layout_for(alloc, sizes, declarations) {
        Ok(layout) => Ok(Task::Threads(layout)),
        Err(fault) => Err(fault),
    }
}

/// The layout of these sizes and of what the words declare.
fn layout_for(alloc: Global, sizes: Sizes, declarations: &Words) -> Result<Layout, WordsFault>
    ensures made { IfOk result (IsLayoutFor sizes declarations.now) }
    ensures alone { IfOk result (λ layout. (schema : Schema) → Denotes declarations.now schema → schema ≡ layout.schema) }
    ensures usage { result ≡ Err WordsFault.Usage → HasNoLayout sizes declarations.now }
{
    let schema = read_declarations(alloc, declarations)?;
    layout_of(schema, sizes)
}

/// The layout of these tables, indexes and sizes, where no limit is passed.
fn layout_of(schema: Schema, sizes: Sizes) -> Result<Layout, WordsFault>
    ensures kept { IfOk result (λ layout. (layout ≡ record { schema = schema; sizes = sizes }) × (first_broken_rule schema sizes ≡ None)) }
    ensures passed { IfErr result (λ fault. (fault ≡ WordsFault.Usage) × IsSome (first_broken_rule schema sizes)) }
{
    match Layout::new(schema, sizes) {
        Ok(layout) => Ok(layout),
        Err(_) => Err(WordsFault::Usage),
    }
}

/// Does the task.
fn perform<
    N: Names + Send,
    R: Threads + Wait + Sync,
    D: Disk + Send + Drop,
    S: Source,
    K: Sink,
    G: Gate + Sync,
>(rt: &R, alloc: Global, task: Task, disk: D, source: &mut S, sink: &mut K, gate: &G) -> (u8, D)
    requires image { task ≡ tasks.RunStored → HoldsImage (D.told disk) }
    requires numbers { HasNumbers task }
    requires faults { IsThreaded task → N.faults ≡ (D.told disk).faults }
    requires given { IsTrue N.honest → IsGivenFor task (D.told disk) (S.left source.old) N.opening N.layout N.script }
    ensures done { IsDoneSo task result.0 (D.told disk) (D.told result.1) (S.left source.old) (S.left source.new) (K.taken sink.old) (K.taken sink.new) (Rose (S.faults source.old) (S.faults source.new)) (Rose (K.faults sink.old) (K.faults sink.new)) }
    ensures holds_on { IsThreaded task ⊎ HoldsOnFor task result.0 (D.told disk) (D.told result.1) }
    ensures threads { IsTrue N.honest → IsWorkedFor task result.0 (D.told disk) (D.told result.1) (S.left source.old) (S.left source.new) (K.taken sink.old) (K.taken sink.new) N.opening N.layout N.script }
{
    match task {
        Task::Init(layout) => init(&layout, disk),
        Task::Run(layout) => run_new(alloc, &layout, disk, source, sink),
        Task::RunStored => run_stored(alloc, disk, source, sink),
        Task::Threads(layout) => {
            run_new_threads::<N, R, D, S, K, G>(rt, alloc, &layout, disk, source, sink, gate)
        }
        Task::ThreadsStored => {
            run_stored_threads::<N, R, D, S, K, G>(rt, alloc, disk, source, sink, gate)
        }
        Task::Demo { layout, seed, rows } => {
            run_demo(alloc, &layout, DemoNumbers { seed, rows }, disk, sink)
        }
    }
}

/// Makes an empty store of the disk.
fn init<D: Disk + Drop>(layout: &Layout, mut disk: D) -> (u8, D)
    ensures made { IsMade result.0 layout.now (D.told disk) (D.told result.1) }
    ensures cause { ((result.0 ≡ 0) × IsFit layout.now (D.told disk) (D.told result.1)) ⊎ IsUnfit result.0 layout.now (D.told disk) (D.told result.1) }
    ensures holds_on { HoldsOnFor (tasks.Init layout.now) result.0 (D.told disk) (D.told result.1) }
{
    one_layout();
    each_image_opens_to_one_map();
    match make(layout, &mut disk) {
        Ok(()) => (DONE, disk),
        Err(status) => (status, disk),
    }
}

/// Makes an empty store of the disk, or says with which status the program ends.
pub(crate) fn make<D: Disk + Drop>(layout: &Layout, disk: &mut D) -> Result<(), u8>
    ensures any_moment { Throughout (D.told disk.old) (D.told disk.new) (IsOldOrEmpty layout.now (D.told disk.old)) }
    ensures made { OnOk result (EachImageHas (D.told disk.new) layout.now initial_state.table) }
    // As a new store, whose pages are those of one.
    ensures fresh_moment { Throughout (D.told disk.old) (D.told disk.new) (IsOldOrFresh layout.now (D.told disk.old)) }
    ensures fresh { OnOk result (EachImageIsFresh (D.told disk.new) layout.now) }
    ensures holds { OnOk result (IsTrue (D.told disk.old).tells_contents → HoldsFresh (D.told disk.new) layout.now) }
    ensures fit { OnOk result (IsFit layout.now (D.told disk.old) (D.told disk.new)) }
    ensures unfit { IfErr result (λ status. IsUnfit status layout.now (D.told disk.old) (D.told disk.new)) }
{
    a_format_leaves_old_or_none_or_new(layout);
    a_new_store_opens_to_fresh_pages(layout);
    a_new_store_is_an_image(layout);
    match format(disk, layout) {
        Ok(()) => Ok(()),
        Err(fault) => Err(format_status(fault)),
    }
}

/// Makes an empty store of the disk, and runs the script of the source over it.
fn run_new<D: Disk + Drop, S: Source, K: Sink>(
    alloc: Global,
    layout: &Layout,
    mut disk: D,
    source: &mut S,
    sink: &mut K,
) -> (u8, D)
    ensures done { IsDoneSo (tasks.Run layout.now) result.0 (D.told disk) (D.told result.1) (S.left source.old) (S.left source.new) (K.taken sink.old) (K.taken sink.new) (Rose (S.faults source.old) (S.faults source.new)) (Rose (K.faults sink.old) (K.faults sink.new)) }
    ensures holds_on { HoldsOnFor (tasks.Run layout.now) result.0 (D.told disk) (D.told result.1) }
{
    one_layout();
    each_image_opens_to_one_map();
    a_stored_table_is_not_damaged();
    a_new_store_opens_to_fresh_pages(layout);
    match make(layout, &mut disk) {
        Ok(()) => run_stored(alloc, disk, source, sink),
        Err(status) => (status, disk),
    }
}

/// Opens the store on the disk, and runs the script of the source over it.
fn run_stored<D: Disk + Drop, S: Source, K: Sink>(
    alloc: Global,
    disk: D,
    source: &mut S,
    sink: &mut K,
) -> (u8, D)
    requires { HoldsImage (D.told disk) }
    ensures done { IsDoneSo tasks.RunStored result.0 (D.told disk) (D.told result.1) (S.left source.old) (S.left source.new) (K.taken sink.old) (K.taken sink.new) (Rose (S.faults source.old) (S.faults source.new)) (Rose (K.faults sink.old) (K.faults sink.new)) }
    // Over a new store the tables are new as well.
    ensures fresh { IsFreshOutput result.0 (D.told disk) (D.told result.1) (S.left source.old) (S.left source.new) (K.taken sink.old) (K.taken sink.new) }
    ensures holds_on { HoldsOnFor tasks.RunStored result.0 (D.told disk) (D.told result.1) }
{
    one_layout();
    each_image_opens_to_one_map();
    a_stored_table_is_not_damaged();
    match Store::start(alloc, disk) {
        Ok(store) => run_opened(alloc, store, source, sink),
        Err(refusal) => refused(refusal),
    }
}

/// What is answered where no store is opened.
pub(crate) fn refused<D: Disk + Drop>(refusal: (StartFault, D)) -> (u8, D)
    ensures status { result.0 ≡ start_status refusal.0 }
    ensures disk { result.1 ≡ refusal.1 }
{
    let (fault, disk) = refusal;
    (start_status(fault), disk)
}

/// Runs the script of the source over the store that was opened, and answers its disk.
fn run_opened<D: Disk + Drop, S: Source, K: Sink>(
    alloc: Global,
    store: Store<D>,
    source: &mut S,
    sink: &mut K,
) -> (u8, D)
    ensures known { IsStatus result.0 }
    ensures runs { (start : Place) → Tells D.told store.pages → store.pages.failed ≡ None → ShowsPlace store start → AllHaveTable D.told store.pages start
        → IsScriptRun result.0 store.pages.layout (D.told result.1) (S.left source.old) (S.left source.new) (K.taken sink.old) (K.taken sink.new) (record { place = start; disk = D.told store.pages.disk }) }
    ensures read_fault { result.0 ≡ 4 → Rose (S.faults source.old) (S.faults source.new) }
    ensures write_fault { result.0 ≡ 5 → Rose (K.faults sink.old) (K.faults sink.new) }
    ensures disk_fault { result.0 ≡ 6 → store.pages.failed ≡ None → Rose (D.told store.pages.disk).faults (D.told result.1).faults }
    ensures damaged { result.0 ≡ 11 → Tells D.told store.pages → store.pages.failed ≡ None → ⊥ }
    ensures others { (result.0 ≢ 2) × (result.0 ≢ 9) }
{
    let mut sessions = Sessions { alloc, store };
    let end = run(alloc, SCRIPT_LIMIT, &mut sessions, source, sink);
    (status(end), sessions.store.into_disk())
}

/// The status of each way in which a run ends.
pub(crate) fn status(end: Result<(), RunFault>) -> u8
    ensures { result ≡ exit_status end }
{
    match end {
        Ok(()) => DONE,
        Err(RunFault::Read) => READ_FAULT,
        Err(RunFault::Write) => WRITE_FAULT,
        Err(RunFault::Unanswered(AnswerFault::Disk)) => DISK_FAULT,
        Err(RunFault::Unanswered(AnswerFault::Memory)) => MEMORY,
        Err(RunFault::Spent | RunFault::Unanswered(AnswerFault::Full)) => LIMIT,
        Err(RunFault::Unanswered(AnswerFault::Damaged)) => DAMAGED,
    }
}

/// The status where no store is made.
fn format_status(fault: FormatFault) -> u8
    ensures { result ≡ format_status fault }
{
    match fault {
        FormatFault::Size { .. } => NO_STORE,
        FormatFault::Disk => DISK_FAULT,
        FormatFault::Memory => MEMORY,
    }
}

/// The status where no store is opened.
fn start_status(fault: StartFault) -> u8
    ensures { result ≡ start_status fault }
{
    match fault {
        StartFault::NoStore => NO_STORE,
        StartFault::Damaged { .. } => DAMAGED,
        StartFault::Disk => DISK_FAULT,
        StartFault::Memory => MEMORY,
    }
}
