//! The texts of refusals.
#![tactic(auto, using(value_text::specs::Appended::longer_before))]

ghost use Rattle.std.specs.Prelude.{◌≡◌, ◌++◌, [], OnOk, OnErr};
ghost use Rattle.value_text.specs.Appended.{IsLonger};
ghost use Rattle.reply_texts.specs.Texts.{refusal_text, held_text};

use crate::text::{add_count, add_number, add_row_id, add_words};
use block_model::{Name, NoMemory, Refusal, What};
use value_text::append;

/// Appends the line of a refusal of a line that isn't read, which names no session. After a refusal nothing is changed.
pub fn render_refusal(refusal: &Refusal, out: &mut Vec<u8>) -> Result<(), NoMemory>
    ensures ok { OnOk result (out.new.items ≡ out.old.items ++ refusal_text [] refusal.now) }
    ensures err { OnErr result (out.new.items ≡ out.old.items) }
{
    let before = out.len();
    if let Err(fault) = add_refusal(out, b"", refusal) {
        out.truncate(before);
        return Err(fault);
    }
    Ok(())
}

/// Appends the line of a refusal to the session of that name.
pub fn add_refusal(out: &mut Vec<u8>, name: &[u8], refusal: &Refusal) -> Result<(), NoMemory>
    ensures ok { OnOk result (out.new.items ≡ out.old.items ++ refusal_text name.now refusal.now) }
    ensures longer { IsLonger out.old.items out.new.items }
{
    match refusal {
        Refusal::Syntax { at } => add_count(out, b"-", b" error 1 ", *at as u64),
        Refusal::NoTable { at } => add_count(out, b"-", b" error 2 ", *at as u64),
        Refusal::NoColumn { at } => add_count(out, b"-", b" error 3 ", *at as u64),
        Refusal::NoTransaction => add_words(out, name, b" error 4\n"),
        Refusal::UnderWay => add_words(out, name, b" error 5\n"),
        Refusal::Doomed => add_words(out, name, b" error 6\n"),
        Refusal::Conflict { id } => add_row_id(out, name, b" error 7 ", id),
        Refusal::Full { relation, number } => add_full(out, name, relation, *number),
        Refusal::NoIndex { at } => add_count(out, b"-", b" error 9 ", *at as u64),
        Refusal::Limit { limit } => add_count(out, name, b" error 10 ", *limit),
        Refusal::Blocked { what, holder } => add_blocked(out, name, what, holder),
        Refusal::InHand => add_words(out, name, b" error 12\n"),
        Refusal::Memory => add_words(out, name, b" error 13\n"),
        Refusal::NothingStarted => add_words(out, name, b" error 14\n"),
    }
}

fn add_full(out: &mut Vec<u8>, name: &[u8], relation: &Name, number: u64) -> Result<(), NoMemory>
    ensures ok { OnOk result (out.new.items ≡ out.old.items ++ refusal_text name.now (Refusal.Full relation.now number)) }
    ensures longer { IsLonger out.old.items out.new.items }
{
    add_words(out, name, b" error 8 ")?;
    add_count(out, relation.as_bytes(), b" ", number)
}

fn add_blocked(out: &mut Vec<u8>, name: &[u8], what: &What, holder: &Name) -> Result<(), NoMemory>
    ensures ok { OnOk result (out.new.items ≡ out.old.items ++ refusal_text name.now (Refusal.Blocked what.now holder.now)) }
    ensures longer { IsLonger out.old.items out.new.items }
{
    add_words(out, name, b" error 11 ")?;
    add_held(out, what)?;
    add_words(out, b" ", holder.as_bytes())?;
    append(out, b"\n")?;
    Ok(())
}

fn add_held(out: &mut Vec<u8>, what: &What) -> Result<(), NoMemory>
    ensures ok { OnOk result (out.new.items ≡ out.old.items ++ held_text what.now) }
    ensures longer { IsLonger out.old.items out.new.items }
{
    match what {
        What::Page { relation, block } => {
            add_words(out, b"page ", relation.as_bytes())?;
            append(out, b" ")?;
            add_number(out, u64::from(*block))
        }
        What::Work { table } => add_words(out, b"work ", table.as_bytes()),
    }
}
