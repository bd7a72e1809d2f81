//! The texts of a statement that goes on.
#![tactic(auto, using(value_text::specs::Appended::longer_before))]

ghost use Rattle.std.specs.Prelude.{◌≡◌, ◌++◌, OnOk, OnErr};
ghost use Rattle.value_text.specs.Appended.{IsLonger};
ghost use Rattle.reply_texts.specs.StepTexts.{point_word, started_text, moved_text};

use crate::text::add_words;
use block_model::{Name, NoMemory, Point};
use value_text::append;

/// Appends the line of a statement that is started, to that session. After a refusal nothing is changed.
pub fn render_started(session: &Name, out: &mut Vec<u8>) -> Result<(), NoMemory>
    ensures ok { OnOk result (out.new.items ≡ out.old.items ++ started_text session.now) }
    ensures err { OnErr result (out.new.items ≡ out.old.items) }
{
    let before = out.len();
    if let Err(refusal) = add_words(out, session.as_bytes(), b" started\n") {
        out.truncate(before);
        return Err(refusal);
    }
    Ok(())
}

/// Appends the line of a step before a statement's last, which did what the point says, to that session. After a refusal
/// nothing is changed.
pub fn render_moved(session: &Name, point: Point, out: &mut Vec<u8>) -> Result<(), NoMemory>
    ensures ok { OnOk result (out.new.items ≡ out.old.items ++ moved_text session.now point) }
    ensures err { OnErr result (out.new.items ≡ out.old.items) }
{
    let before = out.len();
    if let Err(refusal) = add_moved(out, session.as_bytes(), point) {
        out.truncate(before);
        return Err(refusal);
    }
    Ok(())
}

fn add_moved(out: &mut Vec<u8>, name: &[u8], point: Point) -> Result<(), NoMemory>
    ensures ok { OnOk result (out.new.items ≡ out.old.items ++ moved_text name.now point) }
    ensures longer { IsLonger out.old.items out.new.items }
{
    add_words(out, name, b" moved ")?;
    append(out, point_word(point))?;
    append(out, b"\n")
}

/// The word of a point.
fn point_word(point: Point) -> &'static [u8]
    ensures { result.now ≡ point_word point }
{
    match point {
        Point::Row => b"row",
        Point::Ask => b"ask",
        Point::Map => b"map",
        Point::Copy => b"copy",
        Point::Again => b"again",
        Point::Swap => b"swap",
        Point::Put => b"put",
        Point::Set => b"set",
        Point::Drop => b"drop",
        Point::Extent => b"extent",
        Point::Tuple => b"tuple",
        Point::Page => b"page",
        Point::Mark => b"mark",
        Point::Right => b"right",
        Point::Pass => b"pass",
        Point::Clear => b"clear",
        Point::Prune => b"prune",
        Point::Sweep => b"sweep",
        Point::Grow => b"grow",
        Point::Meta => b"meta",
        Point::Flag => b"flag",
        Point::Turn => b"turn",
    }
}
