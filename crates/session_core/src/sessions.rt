//! Sessions, in the order in which they were made.

ghost use Rattle.std.specs.Prelude.{◌≡◌, ◌<◌, ◌≤◌, [], ◌∷◌, ◌++◌, None, Some, IfSome, IsSome, OnOk, OnErr, length};
ghost use Rattle.std.specs.Option.{is_some};
ghost use Rattle.store_layout.specs.SessionNumbers.{session_number};
ghost use Rattle.session_parts.specs.StoreStates.{hand_in};
ghost use Rattle.session_core.specs.Ending.{GoesWithin};
ghost use Rattle.session_core.specs.SessionLists.{hands_of, names_of, slots_of};
ghost use Rattle.session_core.specs.Slots.{empty_slot};

use crate::slots::{Slot, empty, is_held, known_in};
use block_model::{Name, NoMemory};
use session_parts::Hand;

/// A session, and what it has in hand.
#[derive(Drop)]
pub struct Session {
    pub name: Name,
    pub slot: Slot,
}

/// The number of the session of that name, or the next number where it is new.
pub(crate) fn number_of(sessions: &[Session], name: &Name) -> usize
    ensures is { result ≡ session_number (names_of sessions.now) name.now }
    ensures within { result ≤ length sessions.now }
{
    'sessions: for (i, session) in sessions.iter().enumerate() {
        if session.name.as_bytes() == name.as_bytes() {
            return i;
        }
    }
    sessions.len()
}

/// Adds a session of that name, with nothing in hand. After a refusal nothing is changed.
pub(crate) fn add_session(sessions: &mut Vec<Session>, name: Name) -> Result<(), NoMemory>
    ensures names { OnOk result (names_of sessions.new.items ≡ names_of sessions.old.items ++ name ∷ []) }
    ensures hands { OnOk result (hands_of sessions.new.items ≡ hands_of sessions.old.items ++ None ∷ []) }
    ensures slots { OnOk result (slots_of sessions.new.items ≡ slots_of sessions.old.items ++ empty_slot ∷ []) }
    ensures err { OnErr result (sessions.new.items ≡ sessions.old.items) }
{
    let slot = empty();
    sessions.push(Session { name, slot })?;
    Ok(())
}

/// Whether the session has a statement in hand.
pub(crate) fn has_hand(sessions: &[Session], session: u32) -> bool
    requires { session < length sessions.now }
    ensures { result ≡ is_some (hand_in (hands_of sessions.now) session) }
{
    is_held(&sessions[session as usize].slot)
}

/// Does nothing; tells its caller how far the statement goes that the session has in hand.
pub(crate) fn known_hand(sessions: &[Session], session: u32)
    requires { session < length sessions.now }
    ensures { IfSome (hand_in (hands_of sessions.now) session) GoesWithin }
{
    known_in(&sessions[session as usize].slot);
}

/// Takes the statement out of a hand that has one.
pub(crate) fn taken(hand: &mut Option<Hand>) -> Hand
    requires { IsSome hand.old }
    ensures was { hand.old ≡ Some result }
    ensures empty { hand.new ≡ None }
{
    let Some(statement) = hand.take() else {
        unreachable!()
    };
    statement
}
