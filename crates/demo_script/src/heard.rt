//! What matters of an answer.

ghost use Rattle.std.specs.Prelude.{◌≡◌, ◌≤◌, IfOk, IfErr};
ghost use Rattle.demo_script.specs.Conversation.{has_hand, is_blocked};
ghost use Rattle.demo_script.specs.Saying.{Hears, TellsOf};
ghost use Rattle.demo_script.specs.Summary.{found_rows, inserted, named_blocks};

use crate::answer::{Answer, Answerer};
use block_model::{Refusal, Reply};
use script_run::AnswerFault;

/// Whether the session has a statement in hand, whether another one holds what it needs, how many rows were inserted, how many were found,
/// and how many blocks were named.
#[derive(Clone, Copy)]
pub struct Heard {
    pub busy: bool,
    pub blocked: bool,
    pub rows: u64,
    pub found: u64,
    pub read: u64,
}

/// Says a line, and tells what matters of its answer.
pub fn say<A: Answerer>(answerer: &mut A, line: &[u8]) -> Result<Heard, AnswerFault>
    ensures heard { IfOk result (λ heard. Hears A.answers answerer.old line.now heard answerer.new) }
    ensures few { IfOk result (λ heard. heard.rows ≤ 1) }
    ensures stops { IfErr result (λ fault. A.stops answerer.old line.now fault answerer.new) }
{
    let answer = answerer.ask(line)?;
    Ok(what_matters(&answer))
}

fn what_matters(answer: &Answer) -> Heard
    ensures tells { TellsOf answer.now result }
    ensures few { result.rows ≤ 1 }
{
    Heard {
        busy: has_hand(answer),
        blocked: is_blocked(answer),
        rows: inserted(answer),
        found: found_rows(answer),
        read: named_blocks(answer),
    }
}

fn has_hand(answer: &Answer) -> bool
    ensures { result ≡ has_hand answer.now }
{
    matches!(
        answer,
        Answer::Started
            | Answer::Moved(_)
            | Answer::Refused(Refusal::Blocked { .. } | Refusal::InHand)
    )
}

fn is_blocked(answer: &Answer) -> bool
    ensures { result ≡ is_blocked answer.now }
{
    matches!(answer, Answer::Refused(Refusal::Blocked { .. }))
}

fn inserted(answer: &Answer) -> u64
    ensures rows { result ≡ inserted answer.now }
    ensures few { result ≤ 1 }
{
    match answer {
        Answer::Ended(Reply::Inserted { .. }) => 1,
        _ => 0,
    }
}

fn found_rows(answer: &Answer) -> u64
    ensures { result ≡ found_rows answer.now }
{
    match answer {
        Answer::Ended(Reply::Found(rows)) => rows.len() as u64,
        _ => 0,
    }
}

fn named_blocks(answer: &Answer) -> u64
    ensures { result ≡ named_blocks answer.now }
{
    match answer {
        Answer::Ended(Reply::Kept(blocks)) => blocks.len() as u64,
        _ => 0,
    }
}
