//! What came of a step of a maintenance machine, for the statement that makes it.

ghost use Rattle.std.specs.Prelude.{◌≡◌, ◌<◌, ℕ, Err, length, IfOk, IfErr};
ghost use Rattle.index_contents.specs.IndexContents.{relation_of};
ghost use Rattle.session_maintenance.specs.Settled.{HoldsAPage, IsOfAnIndex, IsSettled, IsTold};

use block_model::{Point, Refusal, Reply};
use disk_trait::Disk;
use page_locks::Did;
use page_map::MachineFault;
use session_parts::{
    Parts, Step, StoreFault, fault_of, index_named, lock_waited_for, page_waited_for,
};
use store_layout::Layout;

/// The statement goes on, waits or is refused; or its machine is done, and the statement says what comes then.
pub(crate) enum Came {
    Goes(Step),
    Ends(Point),
}

/// What the step came to. Where the machine waits, or is refused by a full index, the statement does so; a refused one gives its page locks and the
/// summarise lock of its table. Where the pages refuse the step the session gives its page locks.
#[tactic(none)]
pub(crate) fn settle<D: Disk + Drop>(
    parts: &mut Parts<D>,
    session: u32,
    table: u8,
    came: Result<Did, MachineFault>,
) -> Result<Came, StoreFault>
    requires table { table < length parts.old.pages.layout.schema.tables }
    requires rights { table < length parts.old.rights }
    requires page { IfOk came (HoldsAPage parts.old.pages.layout) }
    requires full { IfErr came (IsOfAnIndex parts.old.pages.layout) }
    ensures settles { IsSettled parts.old parts.new session table came result }
    ensures pages { parts.new.pages ≡ parts.old.pages }
{
    match came {
        Ok(answer) => Ok(told(parts.pages.layout(), table, answer)),
        Err(fault) => fails(parts, session, table, fault),
    }
}

/// It goes on, is done, or waits.
#[tactic(none)]
fn told(layout: &Layout, table: u8, answer: Did) -> Came
    requires table { table < length layout.now.schema.tables }
    requires page { HoldsAPage layout.now answer }
    ensures { IsTold layout.now table answer result }
{
    match answer {
        Did::Moved(point) => Came::Goes(Step::Moved(point)),
        Did::Finished(point) => Came::Ends(point),
        Did::Blocked(held) => {
            let index = index_of(layout, held.page.relation);
            let what = page_waited_for(layout, index, &held);
            let holder = held.by;
            Came::Goes(Step::Blocked { what, holder })
        }
        Did::NoRight { by } => {
            let what = lock_waited_for(layout, table);
            Came::Goes(Step::Blocked { what, holder: by })
        }
    }
}

/// Its index is full, or the pages refuse it: the session gives its page locks, and a statement that is refused its table's summarise lock.
#[tactic(none)]
fn fails<D: Disk + Drop>(
    parts: &mut Parts<D>,
    session: u32,
    table: u8,
    fault: MachineFault,
) -> Result<Came, StoreFault>
    requires rights { table < length parts.old.rights }
    requires full { IsOfAnIndex parts.old.pages.layout fault }
    ensures settles { IsSettled parts.old parts.new session table (Err fault) result }
    ensures pages { parts.new.pages ≡ parts.old.pages }
{
    match fault {
        MachineFault::Full { relation, number } => {
            let index = index_of(parts.pages.layout(), relation);
            let relation = index_named(parts.pages.layout(), index);
            parts.locks.drop_all(session);
            parts.rights.give(table, session);
            let refusal = Refusal::Full { relation, number };
            Ok(Came::Goes(Step::Done(Reply::Refused(refusal))))
        }
        MachineFault::Store(error) => {
            parts.locks.drop_all(session);
            Err(fault_of(error))
        }
        MachineFault::Memory => unreachable!(),
    }
}

/// The index that has the relation.
fn index_of(layout: &Layout, relation: u8) -> u8
    requires { (index : ℕ) × (index < length layout.now.schema.indexes) × (relation ≡ relation_of layout.now index) }
    ensures { relation_of layout.now result ≡ relation }
{
    layout.known();
    let tables = layout.schema().tables.as_slice().len() as u8;
    relation - tables - 1
}
