//! The texts of the replies.
#![tactic(auto, using(value_text::specs::Appended::longer_before))]

ghost use Rattle.std.specs.Prelude.{◌≡◌, ◌+◌, ◌==◌, ◌++◌, OnOk, OnErr, codes};
ghost use Rattle.std.specs.List.{flat_map};
ghost use Rattle.value_text.specs.Appended.{IsLonger};
ghost use Rattle.reply_texts.specs.Texts.{reply_text, rows_text, row_text, blocks_text, runs_from, run_text, vacuum_text, worked_text};

use crate::refusal::add_refusal;
use crate::text::{add_count, add_id, add_number, add_row_id, add_words};
use block_model::{Name, NoMemory, Reply, Row};
use value_text::{append, write_values};

/// Appends the lines of a reply to that session. After a refusal nothing is changed.
pub fn render(session: &Name, reply: &Reply, out: &mut Vec<u8>) -> Result<(), NoMemory>
    ensures ok { OnOk result (out.new.items ≡ out.old.items ++ reply_text session.now reply.now) }
    ensures err { OnErr result (out.new.items ≡ out.old.items) }
{
    let before = out.len();
    if let Err(refusal) = add_reply(out, session.as_bytes(), reply) {
        out.truncate(before);
        return Err(refusal);
    }
    Ok(())
}

#[tactic(auto, using(value_text::specs::Appended::longer_before), unfolding(crate::specs::Texts::reply_text))]
fn add_reply(out: &mut Vec<u8>, name: &[u8], reply: &Reply) -> Result<(), NoMemory>
    ensures ok { OnOk result (out.new.items ≡ out.old.items ++ reply_text name.now reply.now) }
    ensures longer { IsLonger out.old.items out.new.items }
{
    match reply {
        Reply::Begun { t } => add_count(out, name, b" begun ", *t),
        Reply::Inserted { id } => add_row_id(out, name, b" inserted ", id),
        Reply::Found(rows) => add_rows(out, name, rows.as_slice()),
        Reply::Deleted { count } => add_count(out, name, b" deleted ", *count),
        Reply::Committed => add_words(out, name, b" committed\n"),
        Reply::RolledBack => add_words(out, name, b" rolled back\n"),
        Reply::Kept(blocks) => add_kept(out, name, blocks.as_slice()),
        Reply::Summarized { count } => add_count(out, name, b" summarized ", *count),
        Reply::Desummarized { count } => add_count(out, name, b" desummarized ", *count),
        Reply::Vacuumed {
            rows,
            orphans,
            ranges,
        } => add_vacuumed(out, name, *rows, *orphans, *ranges),
        Reply::Worked {
            index,
            range,
            count,
        } => add_worked(out, name, index, *range, *count),
        Reply::Idle => add_words(out, name, b" worked none\n"),
        Reply::Refused(refusal) => add_refusal(out, name, refusal),
    }
}

fn add_rows(out: &mut Vec<u8>, name: &[u8], rows: &[Row]) -> Result<(), NoMemory>
    ensures ok { OnOk result (out.new.items ≡ out.old.items ++ rows_text name.now rows.now) }
    ensures longer { IsLonger out.old.items out.new.items }
{
    'rows: for row in rows {
        add_row(out, name, row)?;
    }
    add_count(out, name, b" rows ", rows.len() as u64)?;
    Ok(())
}

fn add_row(out: &mut Vec<u8>, name: &[u8], row: &Row) -> Result<(), NoMemory>
    ensures ok { OnOk result (out.new.items ≡ out.old.items ++ row_text name.now row.now) }
    ensures longer { IsLonger out.old.items out.new.items }
{
    add_words(out, name, b" row ")?;
    add_id(out, &row.id)?;
    write_values(row.values.as_slice(), out)?;
    append(out, b"\n")
}

fn add_kept(out: &mut Vec<u8>, name: &[u8], blocks: &[u32]) -> Result<(), NoMemory>
    ensures ok { OnOk result (out.new.items ≡ out.old.items ++ (name.now ++ codes " blocks" ++ blocks_text blocks.now ++ codes "\n")) }
    ensures longer { IsLonger out.old.items out.new.items }
{
    add_words(out, name, b" blocks")?;
    add_blocks(out, blocks)?;
    append(out, b"\n")?;
    Ok(())
}

fn add_blocks(out: &mut Vec<u8>, blocks: &[u32]) -> Result<(), NoMemory>
    ensures ok { OnOk result (out.new.items ≡ out.old.items ++ blocks_text blocks.now) }
    ensures longer { IsLonger out.old.items out.new.items }
{
    match blocks {
        [] => append(out, b" none"),
        [first, rest @ ..] => add_runs(out, *first, rest),
    }
}

fn add_runs(out: &mut Vec<u8>, start: u32, blocks: &[u32]) -> Result<(), NoMemory>
    ensures ok { OnOk result (out.new.items ≡ out.old.items ++ flat_map run_text (runs_from start start blocks.now)) }
    ensures longer { IsLonger out.old.items out.new.items }
{
    let mut first = start;
    let mut last = start;
    'numbers: for block in blocks {
        if follows(last, *block) {
            last = *block;
        } else {
            add_run(out, first, last)?;
            first = *block;
            last = *block;
        }
    }
    add_run(out, first, last)
}

/// Whether the block is the one behind the last.
fn follows(last: u32, block: u32) -> bool
    ensures { result ≡ (block == last + 1) }
{
    u64::from(block) == u64::from(last) + 1
}

fn add_run(out: &mut Vec<u8>, first: u32, last: u32) -> Result<(), NoMemory>
    ensures ok { OnOk result (out.new.items ≡ out.old.items ++ run_text (first, last)) }
    ensures longer { IsLonger out.old.items out.new.items }
{
    append(out, b" ")?;
    add_number(out, u64::from(first))?;
    if first == last {
        return Ok(());
    }
    append(out, b"-")?;
    add_number(out, u64::from(last))?;
    Ok(())
}

fn add_vacuumed(
    out: &mut Vec<u8>,
    name: &[u8],
    rows: u64,
    orphans: u64,
    ranges: u64,
) -> Result<(), NoMemory>
    ensures ok { OnOk result (out.new.items ≡ out.old.items ++ vacuum_text name.now rows orphans ranges) }
    ensures longer { IsLonger out.old.items out.new.items }
{
    add_words(out, name, b" vacuumed rows ")?;
    add_number(out, rows)?;
    append(out, b" orphans ")?;
    add_number(out, orphans)?;
    add_count(out, b"", b" ranges ", ranges)?;
    Ok(())
}

fn add_worked(
    out: &mut Vec<u8>,
    name: &[u8],
    index: &Name,
    range: u32,
    count: u64,
) -> Result<(), NoMemory>
    ensures ok { OnOk result (out.new.items ≡ out.old.items ++ worked_text name.now index.now range count) }
    ensures longer { IsLonger out.old.items out.new.items }
{
    add_words(out, name, b" worked ")?;
    add_words(out, index.as_bytes(), b" ")?;
    add_number(out, u64::from(range))?;
    add_count(out, b"", b" ", count)?;
    Ok(())
}
