//! How the lines of a file are read that aren't indented.

use crate::directive::{Directive, Setting};
use crate::reading::FormFault;
use crate::row::{Change, Choice, Side, Start, Stretch, Trouble, Way};
use crate::text::{byte_of, number_of};

/// Each call of a run, and each image; or a part of them, where there are many.
const ALL: Choice = Choice { every: 1, picks: 8 };

const SOME: Choice = Choice { every: 5, picks: 4 };

/// What the line says.
pub fn read_directive(line: &str) -> Result<Directive<'_>, FormFault> {
    if let Some(found) = whole_phrase(line) {
        return Ok(found);
    }
    if let Some(rest) = line.strip_prefix("found up to ") {
        return found_up_to(rest);
    }
    if let Some(found) = text_phrase(line) {
        return Ok(found);
    }
    if let Some(rest) = line.strip_prefix("status ") {
        return statuses(rest);
    }
    if let Some(rest) = line.strip_prefix("byte ") {
        return Ok(change(one_byte(rest)?));
    }
    if let Some(rest) = line.strip_prefix("each byte from ") {
        return Ok(way(each_byte(rest)?));
    }
    if let Some(rest) = line.strip_prefix("every order of ") {
        return order(rest);
    }
    let Some((phrase, number)) = line.rsplit_once(' ') else {
        return Err(FormFault::Form);
    };
    number_phrase(phrase, number_of(number)?)
}

fn way<'a>(way: Way) -> Directive<'a> {
    Directive::Setting(Setting::Way(way))
}

fn change<'a>(change: Change) -> Directive<'a> {
    Directive::Setting(Setting::Change(change))
}

/// A phrase without a number.
fn whole_phrase<'a>(line: &str) -> Option<Directive<'a>> {
    match line {
        "then" => Some(Directive::Next(Start::Left)),
        "also" => Some(Directive::Next(Start::Before)),
        "end" => Some(Directive::EndRepeat),
        "no last line feed" => Some(Directive::Setting(Setting::NoLastLineFeed)),
        "in large pieces alone" => Some(way(Way::Large)),
        "every stop and fault" => Some(way(Way::EachCall(ALL))),
        "every fifth stop and fault" => Some(way(Way::EachCall(SOME))),
        "wants no disk" => Some(way(Way::Wants(None))),
        _ => None,
    }
}

/// A word with a text behind it.
fn text_phrase(line: &str) -> Option<Directive<'_>> {
    let (word, rest) = line.split_once(' ')?;
    match word {
        "row" => Some(Directive::Row(rest)),
        "words" => Some(Directive::Setting(Setting::Words(rest))),
        "found" => Some(Directive::Setting(Setting::Found(rest))),
        "told" => Some(Directive::Setting(Setting::Told(rest))),
        _ => None,
    }
}

/// A phrase with a number at its end.
fn number_phrase<'a>(phrase: &str, number: u64) -> Result<Directive<'a>, FormFault> {
    match phrase {
        "repeat" => Ok(Directive::Repeat(number)),
        "read fault at" => Ok(way(Way::Read(number))),
        "write fault at" => Ok(way(Way::Write(number))),
        "stop at call" => Ok(way(Way::Call(Trouble::Stop, number))),
        "fault at call" => Ok(way(Way::Call(Trouble::Fault, number))),
        _ => disk_phrase(phrase, number),
    }
}

fn disk_phrase<'a>(phrase: &str, number: u64) -> Result<Directive<'a>, FormFault> {
    match phrase {
        "image by pick" => Ok(Directive::Setting(Setting::Image(number))),
        "calls at least" => Ok(Directive::Setting(Setting::Calls(number))),
        "disk of" => Ok(change(Change::Size(number))),
        "disk cut to" => Ok(change(Change::Cut(number))),
        "wants" => Ok(way(Way::Wants(Some(number)))),
        _ => Err(FormFault::Form),
    }
}

/// `N of REPLY`.
fn found_up_to(rest: &str) -> Result<Directive<'_>, FormFault> {
    let Some((rows, reply)) = rest.split_once(" of ") else {
        return Err(FormFault::Form);
    };
    Ok(Directive::Setting(Setting::FoundUpTo(number_of(rows)?, reply)))
}

/// `N`, or `N or N`.
fn statuses<'a>(rest: &str) -> Result<Directive<'a>, FormFault> {
    let Some((first, second)) = rest.split_once(" or ") else {
        return Ok(Directive::Setting(Setting::Status(byte_of(rest)?)));
    };
    Ok(Directive::Setting(Setting::Either(byte_of(first)?, byte_of(second)?)))
}

/// `AT becomes VALUE`, or `AT is VALUE`.
fn one_byte(rest: &str) -> Result<Change, FormFault> {
    if let Some((at, value)) = rest.split_once(" becomes ") {
        return Ok(Change::Becomes {
            at: number_of(at)?,
            value: byte_of(value)?,
        });
    }
    let Some((at, value)) = rest.split_once(" is ") else {
        return Err(FormFault::Form);
    };
    Ok(Change::Is {
        at: number_of(at)?,
        value: byte_of(value)?,
    })
}

/// `FROM to TO turned`, or `FROM to TO becomes VALUE`.
fn each_byte(rest: &str) -> Result<Way, FormFault> {
    if let Some(stretch) = rest.strip_suffix(" turned") {
        return byte_way(stretch, None);
    }
    let Some((stretch, value)) = rest.split_once(" becomes ") else {
        return Err(FormFault::Form);
    };
    byte_way(stretch, Some(byte_of(value)?))
}

fn byte_way(stretch: &str, value: Option<u8>) -> Result<Way, FormFault> {
    let Some((from, to)) = stretch.split_once(" to ") else {
        return Err(FormFault::Form);
    };
    Ok(Way::EachByte(Stretch {
        from: number_of(from)?,
        to: number_of(to)?,
        value,
    }))
}

/// `N steps of SESSION and N steps of SESSION`.
fn order(rest: &str) -> Result<Directive<'_>, FormFault> {
    let Some((first, second)) = rest.split_once(" and ") else {
        return Err(FormFault::Form);
    };
    Ok(Directive::Setting(Setting::Sides(side(first)?, side(second)?)))
}

fn side(text: &str) -> Result<Side<'_>, FormFault> {
    let Some((steps, session)) = text.split_once(" steps of ") else {
        return Err(FormFault::Form);
    };
    let steps = u32::from(byte_of(steps)?);
    Ok(Side { session, steps })
}
