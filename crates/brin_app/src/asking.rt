//! What a line of a script is answered, as the demo counts it: without its text.

ghost use Rattle.std.specs.Prelude.{◌≡◌, ℕ, Ok, Some, IfOk, IfErr};
ghost use Rattle.query_words.specs.LineFits.{IsLineFor, IsOrderFor};
ghost use Rattle.query_words.specs.LineRefusals.{refusal_of};
ghost use Rattle.brin_app.specs.Asking.{AsksLine, IsAnswered};
ghost use Rattle.store_layout.specs.SessionNumbers.{session_number};
ghost use Rattle.session_orders.specs.CrashRule.{session_of};
ghost use Rattle.session_orders.specs.Leading.{PlacesLead, PlacesStop};
ghost use Rattle.session_orders.specs.Orders.{IsStoppedSaying};
ghost use Rattle.brin_app.specs.SessionPlaces.{StopsLine};

use crate::sessions::Sessions;
use block_model::{Name, Refusal};
use demo_script::Answer;
use disk_trait::Disk;
use query_words::{Line, LineFault, Order, read_line};
use script_run::AnswerFault;
use session_core::{SessionFault, Store};
use session_orders::act;

/// Does what a line says, and tells what it is answered. What is told of a line that says nothing says nothing.
pub(crate) fn ask_line<D: Disk + Drop>(
    sessions: &mut Sessions<D>,
    line: &[u8],
) -> Result<Answer, AnswerFault>
    ensures ok { IfOk result (λ answer. AsksLine D.told sessions.old line.now answer sessions.new) }
    ensures stops { IfErr result (λ fault. StopsLine D.told sessions.old line.now fault sessions.new) }
{
    match read_line(sessions.alloc, line, sessions.store.layout()) {
        Ok(line) => heed(&mut sessions.store, line),
        Err(fault) => unread(fault),
    }
}

/// What a line that isn't read is answered; want of memory is no fault of the line.
fn unread(fault: LineFault) -> Result<Answer, AnswerFault>
    ensures ok { IfOk result (λ answer. (refusal : Refusal) × (refusal_of fault ≡ Some refusal) × (answer ≡ Answer.Refused refusal)) }
    ensures read { IfOk result (λ answer. fault ≡ LineFault.Memory → ⊥) }
    ensures memory { IfErr result (λ why. why ≡ AnswerFault.Memory) }
{
    match fault.refusal() {
        Some(refusal) => Ok(Answer::Refused(refusal)),
        None => Err(AnswerFault::Memory),
    }
}

/// Does what a line says.
fn heed<D: Disk + Drop>(store: &mut Store<D>, line: Line) -> Result<Answer, AnswerFault>
    requires { IsLineFor store.old.pages.layout.schema line }
    ensures ok { IfOk result (λ answer. PlacesLead D.told store.old store.new (λ p q. IsAnswered p (Ok line) answer q)) }
    ensures stops { IfErr result (λ fault. PlacesStop D.told store.old store.new (session_of store.old.names (Ok line)) fault (IsStoppedSaying line fault)) }
{
    match line {
        Line::Nothing => Ok(Answer::Started),
        Line::Say { session, order } => ask(store, &session, order),
    }
}

/// Does what an order of the session of that name says. The session is made where it is new.
fn ask<D: Disk + Drop>(
    store: &mut Store<D>,
    session: &Name,
    order: Order,
) -> Result<Answer, AnswerFault>
    requires { IsOrderFor store.old.pages.layout.schema order }
    ensures ok { IfOk result (λ answer. PlacesLead D.told store.old store.new (λ p q. IsAnswered p (Ok (Line.Say session.now order)) answer q)) }
    ensures stops { IfErr result (λ fault. PlacesStop D.told store.old store.new (session_number store.old.names session.now) fault (IsStoppedSaying (Line.Say session.now order) fault)) }
{
    match store.session(*session) {
        Ok(number) => act(store, number, order),
        Err(fault) => past_sessions(fault),
    }
}

/// What an order is answered for which there is no session: there are as many as there may be.
fn past_sessions(fault: SessionFault) -> Result<Answer, AnswerFault>
    ensures ok { IfOk result (λ answer. (limit : ℕ) × (fault ≡ SessionFault.Limit limit) × (answer ≡ Answer.Refused (Refusal.Limit limit))) }
    ensures memory { IfErr result (λ why. why ≡ AnswerFault.Memory) }
{
    match fault {
        SessionFault::Limit { limit } => Ok(Answer::Refused(Refusal::Limit { limit })),
        SessionFault::Memory => Err(AnswerFault::Memory),
    }
}
