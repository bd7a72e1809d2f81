//! Steps behind a fault of the disk.

ghost use Rattle.std.specs.Prelude.{◌≡◌, ◌<◌, length};

use block_model::Name;
use disk_trait::{Disk, MemoryDisk, VeiledDisk};
use session_core::{Store, StoreFault};
use std::alloc::Global;
use store_format::format;
use store_layout::{LEAST, Statement, table_layout};

/// The bytes of a new store.
fn formatted(alloc: Global) -> Option<Vec<u8>> {
    let layout = table_layout(alloc, 1, LEAST)?;
    let mut disk = MemoryDisk::new(alloc, layout.disk_size()).ok()?;
    disk.room(100, 100_000).ok()?;
    format(&mut disk, &layout).ok()?;
    disk.image(1).ok()
}

/// A disk with a new store. It failed once, and makes so many writes and syncs more.
fn failing_disk(alloc: Global, calls: u64) -> Option<MemoryDisk> {
    let mut disk = MemoryDisk::from_image(formatted(alloc)?);
    disk.room(calls, 100_000).ok()?;
    disk.fail(1).ok()?;
    let _ = disk.sync();
    Some(disk)
}

/// The fault of a step of what the session has in hand. `None` where the step is made, or nothing is in hand.
fn fault_of<D: Disk + Drop>(store: &mut Store<D>, session: u32) -> Option<StoreFault>
    requires { session < length store.old.names }
    ensures { store.new.names ≡ store.old.names }
{
    if !store.in_hand(session) {
        return None;
    }
    store.step(session).err()
}

/// The faults of a begin, of a commit, and of two steps behind it.
type Faults = [Option<StoreFault>; 4];

fn faults_of<D: Disk + Drop>(store: &mut Store<D>, session: u32) -> Option<Faults>
    requires { session < length store.old.names }
{
    store.submit(session, Statement::Begin).ok()?;
    let begin = fault_of(store, session);
    store.submit(session, Statement::Commit).ok()?;
    let commit = fault_of(store, session);
    let first = fault_of(store, session);
    Some([begin, commit, first, fault_of(store, session)])
}

/// The faults of a session of that name, and how often the disk has failed then.
fn faults_in<D: Disk + Drop>(mut store: Store<D>, name: Name) -> (Option<Faults>, u64) {
    let faults = match store.session(name) {
        Ok(session) => faults_of(&mut store, session),
        Err(_) => None,
    };
    (faults, store.into_disk().faults())
}

/// The same over a new store. `None` is want of memory.
fn faults_with(alloc: Global, calls: u64) -> Option<(Option<Faults>, u64)> {
    let disk = failing_disk(alloc, calls)?;
    let name = Name::new(b"s")?;
    match Store::start(alloc, VeiledDisk::over(disk)) {
        Ok(store) => Some(faults_in(store, name)),
        Err((_, _disk)) => None,
    }
}

#[test]
fn steps_behind_a_fault_answer_the_count_that_was_kept(rt: HostRuntime) {
    // The disk failed once. The opening syncs, and a commit writes its frame, syncs, opens the gate and syncs. Where there is room for one to four of these
    // calls, the next one is the second fault, and no further call is tried. Where there is room for all five, there is no other fault.
    let kept = Some(StoreFault::Reopen { faults: 2 });
    let refused = Some((Some([None, Some(StoreFault::Disk), kept, kept]), 2));
    let found = [
        faults_with(rt.alloc(), 1),
        faults_with(rt.alloc(), 2),
        faults_with(rt.alloc(), 3),
        faults_with(rt.alloc(), 4),
        faults_with(rt.alloc(), 5),
    ];
    let made = Some((Some([None; 4]), 1));
    assert_eq!(rt; found, [refused, refused, refused, refused, made]);
}
