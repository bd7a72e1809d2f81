//! What the lines of a file say that aren't indented.

use crate::row::{Change, Side, Start, Way};

/// A line that isn't of a script.
#[derive(Clone, Copy, Debug)]
pub enum Directive<'a> {
    /// A row begins.
    Row(&'a str),
    /// A further run of the row begins.
    Next(Start),
    /// Lines that come so many times begin, or end.
    Repeat(u64),
    EndRepeat,
    /// Something of the run.
    Setting(Setting<'a>),
}

/// What is said of a run.
#[derive(Clone, Copy, Debug)]
pub enum Setting<'a> {
    Words(&'a str),
    Status(u8),
    Either(u8, u8),
    NoLastLineFeed,
    Way(Way),
    Image(u64),
    Calls(u64),
    Found(&'a str),
    /// As many rows as there were commits, up to so many.
    FoundUpTo(u64, &'a str),
    Told(&'a str),
    Sides(Side<'a>, Side<'a>),
    Change(Change),
}
