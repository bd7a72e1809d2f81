//! The steps of a vacuum's cleaning.

ghost use Rattle.std.specs.Prelude.{◌≡◌, ◌≢◌, ℕ, ◌<◌, [], Some, None, Ok, length, slice_set};
ghost use Rattle.index_contents.specs.IndexContents.{relation_of};
ghost use Rattle.page_store.specs.Survives.{Survives};
ghost use Rattle.page_locks.specs.RightHolders.{right_of};
ghost use Rattle.session_parts.specs.StepAnswers.{HasCause};
ghost use Rattle.session_parts.specs.StepIs.{stepped_in};
ghost use Rattle.session_parts.specs.Stepping.{IsFit, IsShown, LeavesTheOthers, MakesItsStep, StaysFit, StaysUndone};
ghost use Rattle.session_maintenance.specs.Cleaned.{EndsCleaning, behind};
ghost use Rattle.session_maintenance.specs.DeadToAll.{oldest_snapshots};
ghost use Rattle.session_maintenance.specs.InHand.{IsCleaning};

use crate::dead_rows::{a_table_is_watched, dead_to_all_is_dead, oldest_speaks_for_all};
use block_model::{Point, Reply};
use disk_trait::Disk;
use page_locks::{Did, Held, Rights};
use page_map::MachineFault;
use session_parts::{
    Cleaning, Completing, Hand, Parts, Step, StoreFault, fault_of, lock_waited_for, page_waited_for,
};
use snapshot_core::Snapshot;
use store_layout::Layout;
use transactions::Transactions;
use vacuum_core::a_vacuum_steps_in_its_table;

/// A step of a vacuum's cleaning: the first one takes the summarise lock of its table; the next ones drop the rows of a block that are
/// dead to all, and the tuples of a page of an index that the map doesn't name. Behind the last one come the summaries of the table's
/// indexes; where the table has no index it replies and gives the lock. It waits where another session has the summarise lock, or locks the
/// page. Enters nothing, and takes no memory.
#[tactic(none)]
pub fn clean_on<D: Disk + Drop>(
    parts: &mut Parts<D>,
    session: u32,
    hand: &mut Hand,
) -> Result<Step, StoreFault>
    requires which { IsCleaning hand.old }
    requires fit { IsFit D.told parts.old session hand.old }
    requires shown { IsShown D.told parts.old session hand.old }
    ensures steps { MakesItsStep D.told parts.old parts.new session hand.old (stepped_in hand.new result) }
    ensures fit { StaysFit D.told parts.old parts.new session hand.old (stepped_in hand.new result) }
    ensures others { LeavesTheOthers D.told parts.old parts.new session hand.old (stepped_in hand.new result) }
    ensures stays { StaysUndone D.told parts.old parts.new session hand.old (stepped_in hand.new result) }
    ensures cause { HasCause D.told parts.old.pages parts.new.pages (stepped_in hand.new result) }
    ensures survives { Survives D.told (λ passed. passed ≡ parts.old.pages.pages) parts.old.pages parts.new.pages }
{
    a_vacuum_steps_in_its_table();
    dead_to_all_is_dead();
    oldest_speaks_for_all();
    a_table_is_watched();
    let Hand::Cleans(cleaning) = hand else {
        unreachable!()
    };
    match parts.pages.ready() {
        Ok(()) => {}
        Err(error) => return Err(fault_of(error)),
    }
    let table = cleaning.vacuum.table();
    let live = oldest_snapshot(&parts.transactions);
    match cleaning.vacuum.step(
        &mut parts.pages,
        &mut parts.locks,
        &mut parts.rights,
        parts.transactions.tx(),
        live,
        session,
    ) {
        Ok(Did::Moved(point)) => Ok(Step::Moved(point)),
        Ok(Did::Finished(point)) => Ok(end_cleaning(&mut parts.rights, session, point, hand)),
        Ok(Did::Blocked(held)) => {
            let index = index_of(parts.pages.layout(), &held);
            let what = page_waited_for(parts.pages.layout(), index, &held);
            Ok(Step::Blocked {
                what,
                holder: held.by,
            })
        }
        Ok(Did::NoRight { by }) => {
            let what = lock_waited_for(parts.pages.layout(), table);
            Ok(Step::Blocked { what, holder: by })
        }
        Err(MachineFault::Store(error)) => Err(fault_of(error)),
        Err(MachineFault::Full { .. }) => unreachable!(),
        Err(MachineFault::Memory) => unreachable!(),
    }
}

/// The index that has the page.
fn index_of(layout: &Layout, held: &Held) -> u8
    requires { (index : ℕ) × (index < length layout.now.schema.indexes) × (held.now.page.relation ≡ relation_of layout.now index) }
    ensures { relation_of layout.now result ≡ held.now.page.relation }
{
    layout.known();
    let tables = layout.schema().tables.as_slice().len() as u8;
    held.page.relation - tables - 1
}

/// The oldest snapshot of the open transactions, if one is open. No row is dead to it that another one sees.
fn oldest_snapshot(transactions: &Transactions) -> &[Snapshot]
    ensures { result.now ≡ oldest_snapshots transactions.now.opens }
{
    match transactions.oldest() {
        Some(open) => std::slice::from_ref(&open.snapshot),
        None => &[],
    }
}

/// All is dropped: the summaries come next. Where the table has no index the vacuum replies, and gives the lock.
fn end_cleaning(rights: &mut Rights, session: u32, point: Point, hand: &mut Hand) -> Step
    requires which { IsCleaning hand.old }
    requires table { (cleaning : Cleaning) → hand.old ≡ Hand.Cleans cleaning → cleaning.vacuum.table < length rights.old }
    ensures { (cleaning : Cleaning) → hand.old ≡ Hand.Cleans cleaning → EndsCleaning session point cleaning rights.old rights.new (stepped_in hand.new (Ok result)) }
{
    let cleaning = taken(hand);
    cleaned(rights, session, point, cleaning, hand)
}

/// The cleaning, taken out of the hand.
fn taken(hand: &mut Hand) -> Cleaning
    requires { IsCleaning hand.old }
    ensures { hand.old ≡ Hand.Cleans result }
{
    match std::mem::replace(hand, Hand::Working) {
        Hand::Cleans(cleaning) => cleaning,
        _ => unreachable!(),
    }
}

/// What comes behind it is in hand then.
fn cleaned(
    rights: &mut Rights,
    session: u32,
    point: Point,
    cleaning: Cleaning,
    hand: &mut Hand,
) -> Step
    requires { cleaning.vacuum.table < length rights.old }
    ensures answer { stepped_in hand.new (Ok result) ≡ behind point cleaning cleaning.summaries.items }
    ensures given { cleaning.summaries.items ≡ [] → right_of rights.old cleaning.vacuum.table ≡ Some session → rights.new ≡ slice_set rights.old cleaning.vacuum.table None }
    ensures same { cleaning.summaries.items ≡ [] → right_of rights.old cleaning.vacuum.table ≢ Some session → rights.new ≡ rights.old }
    ensures held { cleaning.summaries.items ≢ [] → rights.new ≡ rights.old }
{
    let table = cleaning.vacuum.table();
    let (rows, unnamed, _) = cleaning.vacuum.counts();
    if cleaning.summaries.is_empty() {
        rights.give(table, session);
        return Step::Done(Reply::Vacuumed {
            rows,
            orphans: unnamed,
            ranges: 0,
        });
    }
    *hand = Hand::Completes(Completing {
        table,
        rows,
        unnamed,
        summaries: cleaning.summaries,
        next: 0,
        ranges: 0,
    });
    Step::Moved(point)
}
