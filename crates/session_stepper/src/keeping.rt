//! What is kept of the sessions' lines and of their answers.

ghost use Rattle.std.specs.Prelude.{◌≡◌, ◌<◌, ◌+◌, ◌++◌, ◌∷◌, [], length, IfSome, IfNone, IsSome, IfOk, OnOk, OnErr, None, slice_index_or, slice_set};
ghost use Rattle.reply_texts.specs.DroppedTexts.{dropped_text};
ghost use Rattle.reply_texts.specs.Texts.{reply_text};
ghost use Rattle.transcript_laws.specs.Schedule.{entry_of};
ghost use Rattle.session_stepper.specs.TranscribedState.{line_at};

use crate::said::Said;
use block_model::{Name, NoMemory, Reply, Text};
use reply_texts::{Dropped, render, render_dropped};
use std::alloc::Global;

/// How many lines of the session were told, where there is such a session and it has no line in hand.
pub(crate) fn told_by_idle(counts: &[u64], in_hand: &[Option<u32>], session: u32) -> Option<u64>
    requires { length in_hand.now ≡ length counts.now }
    ensures some { IfSome result (λ count. (session < length counts.now) × (count ≡ slice_index_or counts.now session 0) × (line_at in_hand.now session ≡ None)) }
    ensures none { IfNone result (session < length counts.now → IsSome (line_at in_hand.now session)) }
{
    let at = session as usize;
    if at >= counts.len() {
        return None;
    }
    if in_hand[at].is_some() {
        return None;
    }
    Some(counts[at])
}

/// The number of the line that the session has in hand.
pub(crate) fn line_in_hand(in_hand: &[Option<u32>], session: u32) -> Option<u32>
    ensures { result ≡ line_at in_hand.now session }
{
    let at = session as usize;
    if at >= in_hand.len() {
        return None;
    }
    in_hand[at]
}

/// Keeps the text of a reply to the session of that name as its next entry, behind the requests for which its statement has asked in vain. After a refusal nothing is
/// changed.
pub(crate) fn keep_reply(
    alloc: Global,
    said: &mut Vec<Said>,
    counts: &mut Vec<u64>,
    session: u32,
    line: u32,
    name: &Name,
    dropped: &[Dropped],
    reply: &Reply,
) -> Result<(), NoMemory>
    requires { session < length counts.old.items }
    ensures kept { OnOk result (said.new.items ≡ said.old.items ++ entry_of session line (dropped_text dropped.now ++ reply_text name.now reply.now) ∷ []) }
    ensures counted { OnOk result (counts.new.items ≡ slice_set counts.old.items session (slice_index_or counts.old.items session 0 + 1)) }
    ensures err { OnErr result ((said.new.items ≡ said.old.items) × (counts.new.items ≡ counts.old.items)) }
{
    let Some(count) = counts[session as usize].checked_add(1) else {
        return Err(NoMemory);
    };
    let text = text_of(alloc, name, dropped, reply)?;
    said.push(Said::new(session, line, text))?;
    counts[session as usize] = count;
    Ok(())
}

/// The text of a reply to the session of that name, behind these requests.
fn text_of(alloc: Global, name: &Name, dropped: &[Dropped], reply: &Reply) -> Result<Text, NoMemory>
    ensures { IfOk result (λ text. text ≡ dropped_text dropped.now ++ reply_text name.now reply.now) }
{
    let mut text = Vec::new(alloc);
    render_dropped(dropped, &mut text)?;
    render(name, reply, &mut text)?;
    Ok(Text::from_vec(text))
}
