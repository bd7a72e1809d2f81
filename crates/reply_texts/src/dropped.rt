//! Requests that a full queue dropped.
#![tactic(auto, using(value_text::specs::Appended::longer_before))]

ghost use Rattle.std.specs.Prelude.{◌≡◌, ◌++◌, OnOk, OnErr};
ghost use Rattle.value_text.specs.Appended.{IsLonger};
ghost use Rattle.reply_texts.specs.DroppedTexts.{dropped_text, dropped_line};

use crate::text::add_number;
use block_model::{Name, NoMemory};
use value_text::append;

/// A request to summarise that range of the index, which was dropped.
#[derive(Clone, Copy, Debug, PartialEq, Eq)]
pub struct Dropped {
    pub index: Name,
    pub range: u32,
}

/// Appends a line for each, in order. After a refusal nothing is changed.
pub fn render_dropped(dropped: &[Dropped], out: &mut Vec<u8>) -> Result<(), NoMemory>
    ensures ok { OnOk result (out.new.items ≡ out.old.items ++ dropped_text dropped.now) }
    ensures err { OnErr result (out.new.items ≡ out.old.items) }
{
    let before = out.len();
    if let Err(refusal) = add_dropped(out, dropped) {
        out.truncate(before);
        return Err(refusal);
    }
    Ok(())
}

fn add_dropped(out: &mut Vec<u8>, dropped: &[Dropped]) -> Result<(), NoMemory>
    ensures ok { OnOk result (out.new.items ≡ out.old.items ++ dropped_text dropped.now) }
    ensures longer { IsLonger out.old.items out.new.items }
{
    'dropped: for one in dropped {
        add_one(out, one)?;
    }
    Ok(())
}

fn add_one(out: &mut Vec<u8>, dropped: &Dropped) -> Result<(), NoMemory>
    ensures ok { OnOk result (out.new.items ≡ out.old.items ++ dropped_line dropped.now) }
    ensures longer { IsLonger out.old.items out.new.items }
{
    append(out, b"- dropped ")?;
    append(out, dropped.index.as_bytes())?;
    append(out, b" ")?;
    add_number(out, u64::from(dropped.range))?;
    append(out, b"\n")
}
