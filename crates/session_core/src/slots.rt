//! What a session has in hand, and where it stands.

ghost use Rattle.std.specs.Prelude.{◌≡◌, Some, IfSome};
ghost use Rattle.std.specs.Option.{is_some};
ghost use Rattle.session_core.specs.Ending.{GoesWithin};
ghost use Rattle.session_core.specs.Slots.{empty_slot, hand_of, held_after};

use block_model::Values;
use brin_insert::Insert;
use session_parts::{Hand, Step, StoreFault};

/// Where the statement stands that is in hand.
#[derive(Clone, Copy, Debug, PartialEq, Eq)]
pub enum Held {
    Nothing,
    /// An insert before its first step.
    Put,
    /// An insert whose row is put.
    Insert,
    Other,
}

/// The table and the values of an insert before its first step.
#[derive(Clone, Copy, Debug)]
pub struct Put {
    pub table: u8,
    pub values: Values,
}

/// What a session has in hand: an insert's values, its machine, or another statement. An insert is never moved: each of its parts stays in a
/// place of its own, and the machine serves the next insert into its table.
#[derive(Debug, Drop)]
pub struct Slot {
    pub held: Held,
    pub put: Put,
    pub machine: Option<Insert>,
    pub other: Option<Hand>,
}

/// A slot with nothing in it.
pub(crate) fn empty() -> Slot
    ensures { result ≡ empty_slot }
{
    let values = Values::new();
    Slot {
        held: Held::Nothing,
        put: Put { table: 0, values },
        machine: None,
        other: None,
    }
}

/// Whether a statement is in hand.
pub(crate) fn is_held(slot: &Slot) -> bool
    ensures { result ≡ is_some (hand_of slot.now) }
{
    match slot.held {
        Held::Nothing => false,
        Held::Put => true,
        Held::Insert => slot.machine.is_some(),
        Held::Other => slot.other.is_some(),
    }
}

/// Does nothing; tells its caller how far the statement goes that is in hand.
pub(crate) fn known_in(slot: &Slot)
    ensures { IfSome (hand_of slot.now) GoesWithin }
{
    known_other(&slot.other);
}

/// Does nothing; tells its caller how far the statement goes, if there is one.
fn known_other(other: &Option<Hand>)
    ensures { IfSome other.now GoesWithin }
{
    if let Some(hand) = other {
        known_statement(hand);
    }
}

/// Does nothing; tells its caller how far the statement goes.
fn known_statement(hand: &Hand)
    ensures { GoesWithin hand.now }
{
    match hand {
        Hand::Selects(scan) => scan.known(),
        Hand::Deletes(scan) => scan.known(),
        Hand::Explains(explain) => explain.known(),
        _ => {}
    }
}

/// An insert is in hand, before its first step.
pub(crate) fn hold_put(slot: &mut Slot, table: u8, values: Values)
    ensures { slot.new ≡ record slot.old { held = Held.Put; put = record { table = table; values = values } } }
{
    slot.put.table = table;
    slot.put.values = values;
    slot.held = Held::Put;
}

/// A statement is in hand that is no insert.
pub(crate) fn hold_other(slot: &mut Slot, hand: Hand)
    ensures { slot.new ≡ record slot.old { held = Held.Other; other = Some hand } }
{
    slot.other = Some(hand);
    slot.held = Held::Other;
}

/// Where an insert stands behind its step.
pub(crate) fn held_after(stays: Held, answer: &Result<Step, StoreFault>) -> Held
    ensures { result ≡ held_after stays answer.now }
{
    match answer {
        Ok(Step::Moved(_)) => Held::Insert,
        Ok(Step::Done(_)) => Held::Nothing,
        Ok(Step::Blocked { .. }) => stays,
        Err(_) => stays,
    }
}
