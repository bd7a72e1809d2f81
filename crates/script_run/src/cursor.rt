//! Where the lines stand in a reader's buffer.

ghost use Rattle.std.specs.Prelude.{◌≡◌, ◌≢◌, ◌≤◌, ◌<◌, ◌+◌, ◌-◌, [], length, take, drop, min, slice_range, IfOk, IfSome, MatchOption, MatchResult, IsErrOf, IsOk, OnErr};
ghost use Rattle.std.specs.Io.KnownBytes.{Consumes, IsAtEnd, Keeps};
ghost use Rattle.block_model.specs.Causes.{HasCause, Rose};
ghost use Rattle.script_run.specs.declared.cursor.TheConstants.{KEPT};
ghost use Rattle.script_run.specs.Script.{clip};
ghost use Rattle.script_run.specs.Reading.{Answers, SeesEnd};
ghost use Rattle.script_run.specs.Buffered.{reading, spanned, held, IsCursor, IsFilling, HandsLast, HasNoFeed, FeedAt, Fills, IsLineSpan, AsksPast, came_of};

use crate::end::{LinesEnd, Stage};
use io_traits::{Source, SourceFault};
use memchr::memchr;

/// How many bytes of a line are kept.
pub const KEPT: usize = 65536;

/// How many bytes are buffered: the line under way up to `KEPT`, and a piece of at least as many.
pub const SIZE: usize = 131072;

/// The bytes that weren't handed out, from `start` up to `end`, and how far the source was read.
#[derive(Clone, Copy)]
pub struct Cursor {
    pub start: usize,
    pub end: usize,
    /// How many bytes were taken from the source.
    pub taken: u64,
    /// How many may be.
    pub limit: u64,
    pub stage: Stage,
}

/// A line in the buffer.
#[derive(Clone, Copy)]
pub struct Span {
    pub from: usize,
    pub to: usize,
}

/// What a read of a piece has brought.
#[derive(Clone, Copy)]
pub enum Came {
    /// A part of the line under way.
    Part,
    /// The line feed that ends it, at this place.
    Line(usize),
    /// The end of the source.
    End,
}

/// The next line, where it is known or comes.
pub fn advance<S: Source>(
    buffer: &mut [u8],
    cursor: &mut Cursor,
    source: &mut S,
) -> Result<Option<Span>, LinesEnd>
    requires { IsCursor buffer.old cursor.old }
    ensures cursor { IsCursor buffer.new cursor.new }
    ensures span { IfOk result (λ line. IfSome line IsLineSpan) }
    ensures answers { Answers (spanned buffer.new) (reading buffer.old cursor.old) (reading buffer.new cursor.new) (S.left source.old) (S.left source.new) result }
    ensures end { SeesEnd (reading buffer.old cursor.old) (S.left source.old) → SeesEnd (reading buffer.new cursor.new) (S.left source.new) }
    ensures waiting { (reading buffer.old cursor.old).ready ≢ [] → source.new ≡ source.old }
    ensures stopped { cursor.old.stage ≢ Stage.Open → source.new ≡ source.old }
    ensures stays { cursor.old.stage ≢ Stage.Open → cursor.new.stage ≡ cursor.old.stage }
    ensures ended { cursor.old.stage ≡ Stage.Ended → IsOk result }
    ensures later { S.faults source.old ≤ S.faults source.new }
    ensures cause { IsErrOf result LinesEnd.Read → Rose (S.faults source.old) (S.faults source.new) }
{
    if let Some(at) = line_feed(buffer, cursor.start, cursor.end) {
        return Ok(Some(hand_out(cursor, at)));
    }
    match cursor.stage {
        Stage::Open => refill(buffer, cursor, source),
        Stage::Ended => Ok(last_line(cursor)),
        Stage::Spent => Err(LinesEnd::Spent {
            taken: cursor.limit,
        }),
    }
}

/// The next line, where none is ready.
fn refill<S: Source>(
    buffer: &mut [u8],
    cursor: &mut Cursor,
    source: &mut S,
) -> Result<Option<Span>, LinesEnd>
    requires cursor { IsCursor buffer.old cursor.old }
    requires going { cursor.old.stage ≡ Stage.Open }
    requires unended { HasNoFeed (held buffer.old cursor.old) }
    ensures cursor { IsCursor buffer.new cursor.new }
    ensures span { IfOk result (λ line. IfSome line IsLineSpan) }
    ensures answers { Answers (spanned buffer.new) (reading buffer.old cursor.old) (reading buffer.new cursor.new) (S.left source.old) (S.left source.new) result }
    ensures end { SeesEnd (reading buffer.new cursor.new) (S.left source.new) }
    ensures later { S.faults source.old ≤ S.faults source.new }
    ensures cause { IsErrOf result LinesEnd.Read → Rose (S.faults source.old) (S.faults source.new) }
{
    cursor.end = keep_front(buffer, cursor.start, cursor.end);
    cursor.start = 0;
    match fill(buffer, cursor, source)? {
        Some(at) => Ok(Some(hand_out(cursor, at))),
        None => Ok(last_line(cursor)),
    }
}

/// Reads pieces up to the end of the line under way, and answers where its line feed stands, if it isn't the source's end.
fn fill<S: Source>(
    buffer: &mut [u8],
    cursor: &mut Cursor,
    source: &mut S,
) -> Result<Option<usize>, LinesEnd>
    requires { IsFilling buffer.old cursor.old }
    ensures fills { Fills buffer.old buffer.new cursor.old cursor.new (S.left source.old) (S.left source.new) (came_of result) }
    ensures later { S.faults source.old ≤ S.faults source.new }
    ensures cause { IsErrOf result LinesEnd.Read → Rose (S.faults source.old) (S.faults source.new) }
{
    'pieces: while cursor.taken < cursor.limit {
        match take_piece(buffer, cursor, source)? {
            Came::Part => (),
            Came::Line(at) => return Ok(Some(at)),
            Came::End => return Ok(None),
        }
    }
    if ask_past(source)? {
        cursor.stage = Stage::Spent;
        return Err(LinesEnd::Spent {
            taken: cursor.limit,
        });
    }
    cursor.stage = Stage::Ended;
    Ok(None)
}

/// Reads a piece.
fn take_piece<S: Source>(
    buffer: &mut [u8],
    cursor: &mut Cursor,
    source: &mut S,
) -> Result<Came, LinesEnd>
    requires filling { IsFilling buffer.old cursor.old }
    requires more { cursor.old.taken < cursor.old.limit }
    ensures fills { Fills buffer.old buffer.new cursor.old cursor.new (S.left source.old) (S.left source.new) result }
    ensures grows { IfOk result (λ found. found ≡ Came.Part → cursor.old.taken < cursor.new.taken) }
    ensures unspent { IfOk result (λ _. cursor.new.limit ≡ cursor.old.limit) }
    ensures later { S.faults source.old ≤ S.faults source.new }
    ensures cause { IsErrOf result LinesEnd.Read → Rose (S.faults source.old) (S.faults source.new) }
{
    let end = cursor.end;
    let left = cursor.limit - cursor.taken;
    let count = read_behind(buffer, end, left, source)?;
    if count == 0 {
        cursor.stage = Stage::Ended;
        return Ok(Came::End);
    }
    cursor.taken += count as u64;
    match line_feed(buffer, end, end + count) {
        Some(at) => {
            cursor.end = end + count;
            Ok(Came::Line(end + at))
        }
        None => {
            cursor.end = (end + count).min(KEPT);
            Ok(Came::Part)
        }
    }
}

/// Reads a piece of up to `most` bytes behind those that are buffered.
fn read_behind<S: Source>(
    buffer: &mut [u8],
    end: usize,
    most: u64,
    source: &mut S,
) -> Result<usize, SourceFault>
    requires room { end < length buffer.old }
    requires some { 0 < most }
    ensures within { IfOk result (λ count. (end + count ≤ length buffer.new) × (count ≤ most)) }
    ensures front { take end buffer.new ≡ take end buffer.old }
    ensures bytes { IfOk result (λ count. Consumes (S.left source.old) (S.left source.new) (take count (drop end buffer.new)) × (count ≡ 0 → IsAtEnd (S.left source.new))) }
    ensures same { OnErr result (Keeps (S.left source.old) (S.left source.new)) }
    ensures cause { HasCause (S.faults source.old) (S.faults source.new) result }
{
    let room = buffer.len() - end;
    let size = if (room as u64) < most {
        room
    } else {
        most as usize
    };
    source.read(&mut buffer[end..end + size])
}

/// Whether there is one more byte.
fn ask_past<S: Source>(source: &mut S) -> Result<bool, SourceFault>
    ensures answers { MatchResult result (λ more. AsksPast more (S.left source.old) (S.left source.new)) (λ _. Keeps (S.left source.old) (S.left source.new)) }
    ensures cause { HasCause (S.faults source.old) (S.faults source.new) result }
{
    let mut byte = [0; 1];
    let count = source.read(&mut byte)?;
    Ok(count > 0)
}

/// Brings the front of the line under way to the front of the buffer, and answers how long it is.
fn keep_front(buffer: &mut [u8], start: usize, end: usize) -> usize
    requires ordered { start ≤ end }
    requires inside { end ≤ length buffer.old }
    ensures count { result ≡ min (end - start) KEPT }
    ensures front { take result buffer.new ≡ clip (take (end - start) (drop start buffer.old)) }
{
    let count = (end - start).min(KEPT);
    if start > 0 {
        buffer.copy_within(start..start + count, 0);
    }
    count
}

/// Where the first line feed between two places stands, counted from the first.
fn line_feed(buffer: &[u8], from: usize, to: usize) -> Option<usize>
    requires ordered { from ≤ to }
    requires inside { to ≤ length buffer.now }
    ensures { MatchOption result (HasNoFeed (take (to - from) (drop from buffer.now))) (λ at. FeedAt (take (to - from) (drop from buffer.now)) at) }
{
    memchr(b'\n', &buffer[from..to])
}

/// The line that ends at a line feed, counted from its start.
fn hand_out(cursor: &mut Cursor, at: usize) -> Span
    requires { cursor.old.start + at < cursor.old.end }
    ensures span { result ≡ record { from = cursor.old.start; to = cursor.old.start + min at KEPT } }
    ensures rest { cursor.new ≡ record cursor.old { start = cursor.old.start + at + 1 } }
{
    let from = cursor.start;
    cursor.start = from + at + 1;
    Span {
        from,
        to: from + at.min(KEPT),
    }
}

/// The last line, which lacks its line feed, where there is one.
fn last_line(cursor: &mut Cursor) -> Option<Span>
    requires { cursor.old.start ≤ cursor.old.end }
    ensures { HandsLast cursor.old cursor.new result }
{
    let from = cursor.start;
    let end = cursor.end;
    if from == end {
        return None;
    }
    cursor.start = end;
    Some(Span {
        from,
        to: from + (end - from).min(KEPT),
    })
}
