//! What a line of a script is answered.

ghost use Rattle.std.specs.Prelude.{◌≡◌, ◌≢◌, ◌<◌, ◌++◌, Ok, IfErr, OnOk, ℕ, List, length};
ghost use Rattle.query_words.specs.LineFits.{IsLineFor, IsOrderFor};
ghost use Rattle.script_semantics.specs.LineTexts.{Answers, Does, fault_text, refused_text};
ghost use Rattle.store_layout.specs.SessionNumbers.{session_number};
ghost use Rattle.session_orders.specs.CrashRule.{session_of};
ghost use Rattle.session_orders.specs.Leading.{PlacesLead, PlacesStop};
ghost use Rattle.session_orders.specs.Orders.{IsLost, IsStoppedSaying, answer_text};
ghost use Rattle.brin_app.specs.SessionPlaces.{AnswersLine, StopsLine};

use crate::sessions::Sessions;
use block_model::{Name, NoMemory, Refusal, Reply};
use demo_script::Answer;
use disk_trait::Disk;
use query_words::{Line, LineFault, Order, read_line};
use reply_texts::{Dropped, render, render_dropped, render_moved, render_refusal, render_started};
use script_run::AnswerFault;
use session_core::{SessionFault, Store};
use session_orders::act;

/// Appends the text of a line, and does what it says.
pub(crate) fn answer_line<D: Disk + Drop>(
    sessions: &mut Sessions<D>,
    line: &[u8],
    out: &mut Vec<u8>,
) -> Result<(), AnswerFault>
    ensures ok { OnOk result ((text : List ℕ) × (out.new.items ≡ out.old.items ++ text) × AnswersLine D.told sessions.old line.now text sessions.new) }
    ensures stops { IfErr result (λ fault. StopsLine D.told sessions.old line.now fault sessions.new) }
{
    match read_line(sessions.alloc, line, sessions.store.layout()) {
        Ok(line) => obey(&mut sessions.store, line, out),
        Err(fault) => refuse(fault, out),
    }
}

/// Appends the text of a line that isn't read; want of memory is no fault of the line.
fn refuse(fault: LineFault, out: &mut Vec<u8>) -> Result<(), AnswerFault>
    ensures ok { OnOk result (out.new.items ≡ out.old.items ++ fault_text fault) }
    ensures read { OnOk result (fault ≢ LineFault.Memory) }
    ensures memory { IfErr result (λ why. why ≡ AnswerFault.Memory) }
{
    let Some(refusal) = fault.refusal() else {
        return Err(AnswerFault::Memory);
    };
    render_refusal(&refusal, out)?;
    Ok(())
}

/// Does what a line says, and appends its text.
fn obey<D: Disk + Drop>(
    store: &mut Store<D>,
    line: Line,
    out: &mut Vec<u8>,
) -> Result<(), AnswerFault>
    requires { IsLineFor store.old.pages.layout.schema line }
    ensures ok { OnOk result ((text : List ℕ) × (out.new.items ≡ out.old.items ++ text) × PlacesLead D.told store.old store.new (λ p q. Answers p (Ok line) text q)) }
    ensures stops { IfErr result (λ fault. PlacesStop D.told store.old store.new (session_of store.old.names (Ok line)) fault (IsStoppedSaying line fault)) }
{
    match line {
        Line::Nothing => Ok(()),
        Line::Say { session, order } => say(store, &session, order, out),
    }
}

/// Does what an order of the session of that name says, and appends its text. The session is made where it is new.
fn say<D: Disk + Drop>(
    store: &mut Store<D>,
    session: &Name,
    order: Order,
    out: &mut Vec<u8>,
) -> Result<(), AnswerFault>
    requires { IsOrderFor store.old.pages.layout.schema order }
    ensures ok { OnOk result ((text : List ℕ) × (out.new.items ≡ out.old.items ++ text) × PlacesLead D.told store.old store.new (λ p q. Answers p (Ok (Line.Say session.now order)) text q)) }
    ensures stops { IfErr result (λ fault. PlacesStop D.told store.old store.new (session_number store.old.names session.now) fault (IsStoppedSaying (Line.Say session.now order) fault)) }
{
    match store.session(*session) {
        Ok(number) => answer_order(store, number, session, order, out),
        Err(fault) => refuse_session(fault, session, out),
    }
}

/// Does what an order of the session of that number and name says, and appends its text.
fn answer_order<D: Disk + Drop>(
    store: &mut Store<D>,
    number: u32,
    session: &Name,
    order: Order,
    out: &mut Vec<u8>,
) -> Result<(), AnswerFault>
    requires session { number < length store.old.names }
    requires order { IsOrderFor store.old.pages.layout.schema order }
    ensures ok { OnOk result ((text : List ℕ) × (out.new.items ≡ out.old.items ++ text) × PlacesLead D.told store.old store.new (λ p q. Does p number session.now order text q)) }
    ensures stops { IfErr result (λ fault. PlacesStop D.told store.old store.new number fault (IsLost number session.now order fault)) }
{
    let answer = act(store, number, order)?;
    tell(session, &answer, store.dropped(number), out)?;
    Ok(())
}

/// Appends the text of an order for which there is no session: there are as many as there may be. Want of memory has no text.
fn refuse_session(fault: SessionFault, session: &Name, out: &mut Vec<u8>) -> Result<(), AnswerFault>
    ensures ok { OnOk result ((limit : ℕ) × (fault ≡ SessionFault.Limit limit) × (out.new.items ≡ out.old.items ++ refused_text session.now (Refusal.Limit limit))) }
    ensures memory { IfErr result (λ why. why ≡ AnswerFault.Memory) }
{
    match fault {
        SessionFault::Limit { limit } => {
            render(session, &Reply::Refused(Refusal::Limit { limit }), out)?;
            Ok(())
        }
        SessionFault::Memory => Err(AnswerFault::Memory),
    }
}

/// Appends the text of an answer to the session of that name, whose statement has asked in vain for these summaries.
fn tell(
    session: &Name,
    answer: &Answer,
    dropped: &[Dropped],
    out: &mut Vec<u8>,
) -> Result<(), NoMemory>
    ensures { OnOk result (out.new.items ≡ out.old.items ++ answer_text session.now dropped.now answer.now) }
{
    match answer {
        Answer::Started => render_started(session, out),
        Answer::Moved(point) => render_moved(session, *point, out),
        Answer::Ended(reply) => {
            render_dropped(dropped, out)?;
            render(session, reply, out)
        }
        Answer::Refused(refusal) => render(session, &Reply::Refused(*refusal), out),
    }
}
