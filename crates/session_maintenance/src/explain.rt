//! The steps of an explain.

ghost use Rattle.std.specs.Prelude.{◌≡◌, Ok};
ghost use Rattle.bitmap_scan.specs.Explains.{ExplainHand};
ghost use Rattle.page_store.specs.Survives.{Survives};
ghost use Rattle.session_parts.specs.StepAnswers.{HasCause};
ghost use Rattle.session_parts.specs.StepIs.{stepped_in};
ghost use Rattle.session_parts.specs.Stepping.{IsFit, IsShown, LeavesTheOthers, MakesItsStep, StaysFit, StaysUndone};
ghost use Rattle.session_maintenance.specs.InHand.{IsExplain};

use bitmap_scan::a_kept_table_is_scanned;
use block_model::{Blocks, Reply};
use disk_trait::Disk;
use page_locks::Did;
use page_map::MachineFault;
use session_parts::{Hand, Parts, Step, StoreFault, fault_of};

/// A step of an explain: it reads the extent of its table, or judges a range of an index. With the last one it replies with the blocks that no
/// index leaves out. Changes no page, enters nothing, and takes no memory.
#[tactic(none)]
pub fn explain_on<D: Disk + Drop>(
    parts: &mut Parts<D>,
    session: u32,
    hand: &mut Hand,
) -> Result<Step, StoreFault>
    requires which { IsExplain hand.old }
    requires fit { IsFit D.told parts.old session hand.old }
    requires shown { IsShown D.told parts.old session hand.old }
    ensures steps { MakesItsStep D.told parts.old parts.new session hand.old (stepped_in hand.new result) }
    ensures fit { StaysFit D.told parts.old parts.new session hand.old (stepped_in hand.new result) }
    ensures others { LeavesTheOthers D.told parts.old parts.new session hand.old (stepped_in hand.new result) }
    ensures stays { StaysUndone D.told parts.old parts.new session hand.old (stepped_in hand.new result) }
    ensures cause { HasCause D.told parts.old.pages parts.new.pages (stepped_in hand.new result) }
    ensures survives { Survives D.told (λ passed. passed ≡ parts.old.pages.pages) parts.old.pages parts.new.pages }
{
    a_kept_table_is_scanned();
    let Hand::Explains(explain) = hand else {
        unreachable!()
    };
    explain.known();
    match explain.step(&mut parts.pages) {
        Ok(Did::Moved(point)) => Ok(Step::Moved(point)),
        Ok(Did::Finished(_)) => {
            explain.known();
            told(hand)
        }
        Err(MachineFault::Store(error)) => Err(fault_of(error)),
        Ok(Did::Blocked(_)) => unreachable!(),
        Ok(Did::NoRight { .. }) => unreachable!(),
        Err(MachineFault::Full { .. }) => unreachable!(),
        Err(MachineFault::Memory) => unreachable!(),
    }
}

/// It is done: it tells its blocks, and is taken out of the hand.
fn told(hand: &mut Hand) -> Result<Step, StoreFault>
    requires { IsExplain hand.old }
    ensures { (explain : ExplainHand) → hand.old ≡ Hand.Explains explain → result ≡ Ok (Step.Done (Reply.Kept explain.blocks)) }
{
    match std::mem::replace(hand, Hand::Working) {
        Hand::Explains(explain) => {
            let blocks = Blocks::from_vec(explain.into_blocks());
            Ok(Step::Done(Reply::Kept(blocks)))
        }
        _ => unreachable!(),
    }
}
