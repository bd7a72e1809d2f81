//! The rows of a file.

use crate::directive::{Directive, Setting};
use crate::phrases::read_directive;
use crate::row::{Command, Row, Run, Start, Way};
use crate::text::{add_line, add_replies, add_text};
use block_model::{NoMemory, Words};
use std::alloc::{AllocError, AllocFailed, Global};
use std::mem;
use thiserror::Error;

/// Why a line isn't read.
#[derive(Clone, Copy, Debug, Error, PartialEq, Eq)]
pub enum FormFault {
    #[error("this isn't of the form")]
    Form,
    #[error("out of memory")]
    Memory,
}

impl From<NoMemory> for FormFault {
    fn from(_fault: NoMemory) -> FormFault {
        FormFault::Memory
    }
}

impl From<AllocError> for FormFault {
    fn from(_error: AllocError) -> FormFault {
        FormFault::Memory
    }
}

impl<T: Drop> From<AllocFailed<T>> for FormFault {
    fn from(_error: AllocFailed<T>) -> FormFault {
        FormFault::Memory
    }
}

/// A line that isn't read, by its number from 1.
#[derive(Clone, Copy, Debug, Error)]
#[error("line {line}: {fault}")]
pub struct FileFault {
    line: u64,
    fault: FormFault,
}

/// The rows of a file of this text.
pub fn read_rows(alloc: Global, text: &str) -> Result<Vec<Row<'_>>, FileFault> {
    let mut reader = Reader::new(alloc);
    let mut line = 0u64;
    for said in text.split('\n') {
        line = line.saturating_add(1);
        if let Err(fault) = reader.read_line(said) {
            return Err(FileFault { line, fault });
        }
    }
    match reader.end_row() {
        Ok(()) => Ok(reader.rows),
        Err(fault) => Err(FileFault { line, fault }),
    }
}

/// Lines that come so many times.
#[derive(Drop)]
struct Repeat<'a> {
    times: u64,
    lines: Vec<&'a str>,
}

/// What was read so far: names of words, the rows, and of the row that goes on its name, its runs, the run that goes on, and its repeated lines.
#[derive(Drop)]
struct Reader<'a> {
    alloc: Global,
    names: Vec<(&'a str, &'a str)>,
    rows: Vec<Row<'a>>,
    name: Option<&'a str>,
    runs: Vec<Run<'a>>,
    run: Run<'a>,
    repeat: Option<Repeat<'a>>,
}

impl<'a> Reader<'a> {
    fn new(alloc: Global) -> Reader<'a> {
        Reader {
            alloc,
            names: Vec::new(alloc),
            rows: Vec::new(alloc),
            name: None,
            runs: Vec::new(alloc),
            run: Run::new(alloc, Start::New),
            repeat: None,
        }
    }

    fn read_line(&mut self, line: &'a str) -> Result<(), FormFault> {
        if let Some(said) = line.strip_prefix("    ") {
            return self.say(said);
        }
        if line.is_empty() || line.starts_with('#') {
            return Ok(());
        }
        if let Some(named) = line.strip_prefix('$') {
            return self.name_words(named);
        }
        let directive = read_directive(line)?;
        self.obey(directive)
    }

    /// `NAME = WORDS`.
    fn name_words(&mut self, named: &'a str) -> Result<(), FormFault> {
        let Some(pair) = named.split_once(" = ") else {
            return Err(FormFault::Form);
        };
        self.names.push(pair)?;
        Ok(())
    }

    fn obey(&mut self, directive: Directive<'a>) -> Result<(), FormFault> {
        if let Directive::Row(name) = directive {
            return self.begin_row(name);
        }
        if self.name.is_none() {
            return Err(FormFault::Form);
        }
        self.obey_in_row(directive)
    }

    fn obey_in_row(&mut self, directive: Directive<'a>) -> Result<(), FormFault> {
        match directive {
            Directive::Row(_) => Err(FormFault::Form),
            Directive::Next(start) => self.end_run(start),
            Directive::Repeat(times) => self.begin_repeat(times),
            Directive::EndRepeat => self.end_repeat(),
            Directive::Setting(Setting::Words(text)) => self.add_command(text),
            Directive::Setting(setting) => self.run.set(self.alloc, setting),
        }
    }

    fn begin_row(&mut self, name: &'a str) -> Result<(), FormFault> {
        self.end_row()?;
        self.name = Some(name);
        Ok(())
    }

    /// Ends the row that goes on, if there is one.
    fn end_row(&mut self) -> Result<(), FormFault> {
        let Some(name) = self.name else {
            return Ok(());
        };
        self.end_run(Start::New)?;
        let runs = mem::replace(&mut self.runs, Vec::new(self.alloc));
        self.rows.push(Row { name, runs })?;
        Ok(())
    }

    /// Ends the run that goes on, and begins another one.
    fn end_run(&mut self, next: Start) -> Result<(), FormFault> {
        if !self.run.is_whole() || self.repeat.is_some() {
            return Err(FormFault::Form);
        }
        let run = mem::replace(&mut self.run, Run::new(self.alloc, next));
        self.runs.push(run)?;
        Ok(())
    }

    /// Takes a line of a script.
    fn say(&mut self, line: &'a str) -> Result<(), FormFault> {
        match &mut self.repeat {
            Some(repeat) => {
                repeat.lines.push(line)?;
                Ok(())
            }
            None => self.run.say(line, 0),
        }
    }

    fn begin_repeat(&mut self, times: u64) -> Result<(), FormFault> {
        if self.repeat.is_some() {
            return Err(FormFault::Form);
        }
        self.repeat = Some(Repeat {
            times,
            lines: Vec::new(self.alloc),
        });
        Ok(())
    }

    fn end_repeat(&mut self) -> Result<(), FormFault> {
        let Some(repeat) = self.repeat.take() else {
            return Err(FormFault::Form);
        };
        for turn in 0..repeat.times {
            for line in repeat.lines.iter() {
                self.run.say(line, turn)?;
            }
        }
        Ok(())
    }

    fn add_command(&mut self, text: &'a str) -> Result<(), FormFault> {
        let words = words_of(self.alloc, self.names.as_slice(), text)?;
        self.run.commands.push(Command { text, words })?;
        Ok(())
    }
}

/// The words between bars. One that begins with `$` stands for the words of that name.
fn words_of(alloc: Global, names: &[(&str, &str)], text: &str) -> Result<Words, FormFault> {
    let mut words = Words::new(alloc);
    for word in text.split('|') {
        match word.strip_prefix('$') {
            Some(name) => add_words(alloc, &mut words, named(names, name)?)?,
            None => add_word(alloc, &mut words, word)?,
        }
    }
    Ok(words)
}

/// The words of that name.
fn named<'a>(names: &[(&'a str, &'a str)], wanted: &str) -> Result<&'a str, FormFault> {
    for (name, words) in names {
        if *name == wanted {
            return Ok(words);
        }
    }
    Err(FormFault::Form)
}

fn add_words(alloc: Global, words: &mut Words, text: &str) -> Result<(), FormFault> {
    for word in text.split('|') {
        add_word(alloc, words, word)?;
    }
    Ok(())
}

fn add_word(alloc: Global, words: &mut Words, word: &str) -> Result<(), FormFault> {
    let mut bytes = Vec::new(alloc);
    add_text(&mut bytes, word, 0)?;
    words.push(bytes.as_slice())?;
    Ok(())
}

impl<'a> Run<'a> {
    /// Whether it has words, and all that its way wants, and nothing that its way doesn't ask for.
    fn is_whole(&self) -> bool {
        let fits = match self.way {
            Way::EachCall(_) => !self.found.is_empty() && self.told.is_empty(),
            Way::EachOrder => self.found.is_empty() && self.sides.is_some(),
            _ => self.found.is_empty() && self.told.is_empty(),
        };
        let may_vary = matches!(self.way, Way::EachByte(_));
        fits && (may_vary || self.either.is_none()) && !self.commands.is_empty()
    }

    /// Takes a line of the script: behind the steps, where these come in each order.
    fn say(&mut self, line: &str, turn: u64) -> Result<(), FormFault> {
        match self.way {
            Way::EachOrder => add_line(&mut self.behind, line, turn),
            _ => add_line(&mut self.lines, line, turn),
        }
    }

    fn set(&mut self, alloc: Global, setting: Setting<'a>) -> Result<(), FormFault> {
        match setting {
            Setting::Words(_) => return Err(FormFault::Form),
            Setting::Status(status) => self.status = status,
            Setting::Either(first, second) => self.either = Some((first, second)),
            Setting::NoLastLineFeed => self.cut_line_feed(),
            Setting::Way(way) => self.way = way,
            Setting::Image(pick) => self.image = pick,
            Setting::Calls(count) => self.calls = count,
            Setting::Found(replies) => return self.add_found(alloc, replies),
            Setting::FoundUpTo(rows, reply) => return self.add_found_up_to(alloc, rows, reply),
            Setting::Told(reply) => self.told.push(reply)?,
            Setting::Sides(first, second) => {
                self.way = Way::EachOrder;
                self.sides = Some((first, second));
            }
            Setting::Change(change) => self.changes.push(change)?,
        }
        Ok(())
    }

    /// Takes the line feed from the last line.
    fn cut_line_feed(&mut self) {
        let _ = self.lines.script.pop();
    }

    fn add_found(&mut self, alloc: Global, replies: &str) -> Result<(), FormFault> {
        let mut found = Vec::new(alloc);
        add_replies(&mut found, replies, 0)?;
        self.found.push(found)?;
        Ok(())
    }

    /// What is found after no commit and after each of so many, which put a row each.
    fn add_found_up_to(&mut self, alloc: Global, rows: u64, reply: &str) -> Result<(), FormFault> {
        for count in 0..=rows {
            let mut found = Vec::new(alloc);
            for turn in 0..count {
                add_replies(&mut found, reply, turn)?;
            }
            add_replies(&mut found, "rows {n}", count)?;
            self.found.push(found)?;
        }
        Ok(())
    }
}
