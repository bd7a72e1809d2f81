//! What a file of rows says.

use block_model::Words;
use std::alloc::Global;

/// A row: its name, and its runs, one after another.
#[derive(Drop)]
pub struct Row<'a> {
    pub name: &'a str,
    pub runs: Vec<Run<'a>>,
}

/// The words of a command line, as they are written and as they are read.
#[derive(Drop)]
pub struct Command<'a> {
    pub text: &'a str,
    pub words: Words,
}

/// Bytes of a script, and of its replies.
#[derive(Drop)]
pub struct Lines {
    pub script: Vec<u8>,
    pub replies: Vec<u8>,
}

impl Lines {
    pub fn new(alloc: Global) -> Lines {
        Lines {
            script: Vec::new(alloc),
            replies: Vec::new(alloc),
        }
    }
}

/// Over which disk a run is made: a new one; the one that the run before left; or that one as it was before that run.
#[derive(Clone, Copy, Debug, PartialEq, Eq)]
pub enum Start {
    New,
    Left,
    Before,
}

/// What is done to the disk before a run, or asked of it.
#[derive(Clone, Copy, Debug)]
pub enum Change {
    Size(u64),
    Cut(u64),
    Becomes { at: u64, value: u8 },
    Is { at: u64, value: u8 },
}

/// Which calls of the disk fail: from one on all, or one alone.
#[derive(Clone, Copy, Debug)]
pub enum Trouble {
    Stop,
    Fault,
}

/// What befalls a run. Where it isn't plain it may be made more than once.
#[derive(Clone, Copy, Debug)]
pub enum Way {
    Plain,
    /// As a plain one, but in large pieces alone.
    Large,
    /// A read of the script fails, or a write of the replies.
    Read(u64),
    Write(u64),
    /// Calls of the disk fail from one on, or one alone.
    Call(Trouble, u64),
    /// A run for each of these calls of the disk, and each trouble.
    EachCall(Choice),
    /// A run for each order of the steps of two statements.
    EachOrder,
    /// A run for each byte of a stretch, which is turned or gets a value.
    EachByte(Stretch),
    /// No run: the size that the words want of a disk.
    Wants(Option<u64>),
}

/// The calls of a run that are tried: the multiples of a number. Of what each leaves so many images are looked at.
#[derive(Clone, Copy, Debug)]
pub struct Choice {
    pub every: u64,
    pub picks: u64,
}

/// A stretch of bytes of a disk, and the value that each of them gets in a run of its own; without one it is turned.
#[derive(Clone, Copy, Debug)]
pub struct Stretch {
    pub from: u64,
    pub to: u64,
    pub value: Option<u8>,
}

/// A session whose statement is stepped, and how many steps it is given.
#[derive(Clone, Copy, Debug)]
pub struct Side<'a> {
    pub session: &'a str,
    pub steps: u32,
}

/// A run, and what it has to answer.
#[derive(Drop)]
pub struct Run<'a> {
    pub start: Start,
    pub changes: Vec<Change>,
    /// It is made once for each.
    pub commands: Vec<Command<'a>>,
    pub lines: Lines,
    pub status: u8,
    /// The two statuses that there may be, whichever byte of a stretch is another one.
    pub either: Option<(u8, u8)>,
    pub way: Way,
    /// Which image of the disk a stop leaves.
    pub image: u64,
    /// How many calls of the disk it makes at least.
    pub calls: u64,
    /// What a select tells after so many commits.
    pub found: Vec<Vec<u8>>,
    /// The two statements of each order, what is told amid them, and the lines behind them.
    pub sides: Option<(Side<'a>, Side<'a>)>,
    pub told: Vec<&'a str>,
    pub behind: Lines,
}

impl<'a> Run<'a> {
    pub fn new(alloc: Global, start: Start) -> Run<'a> {
        Run {
            start,
            changes: Vec::new(alloc),
            commands: Vec::new(alloc),
            lines: Lines::new(alloc),
            status: 0,
            either: None,
            way: Way::Plain,
            image: 1,
            calls: 0,
            found: Vec::new(alloc),
            sides: None,
            told: Vec::new(alloc),
            behind: Lines::new(alloc),
        }
    }
}
