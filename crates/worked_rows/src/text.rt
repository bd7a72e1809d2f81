//! Texts of a row: what stands in braces, and what stands around ` -> `.

use crate::reading::FormFault;
use crate::row::Lines;
use itoa::Buffer;

/// Appends a line to the script, and what it is answered to the replies.
pub fn add_line(lines: &mut Lines, line: &str, turn: u64) -> Result<(), FormFault> {
    let Some((said, replies)) = line.split_once(" -> ") else {
        return add_ended(&mut lines.script, line, turn);
    };
    add_ended(&mut lines.script, said, turn)?;
    add_replies(&mut lines.replies, replies, turn)
}

/// Appends each reply as a line.
pub fn add_replies(out: &mut Vec<u8>, replies: &str, turn: u64) -> Result<(), FormFault> {
    for reply in replies.split(" | ") {
        add_ended(out, reply, turn)?;
    }
    Ok(())
}

fn add_ended(out: &mut Vec<u8>, text: &str, turn: u64) -> Result<(), FormFault> {
    add_text(out, text, turn)?;
    out.push(b'\n')?;
    Ok(())
}

/// Appends the text. What stands in braces is replaced.
pub fn add_text(out: &mut Vec<u8>, text: &str, turn: u64) -> Result<(), FormFault> {
    let Some((front, forms)) = text.split_once('{') else {
        out.extend_from_slice(text.as_bytes())?;
        return Ok(());
    };
    out.extend_from_slice(front.as_bytes())?;
    for piece in forms.split('{') {
        add_piece(out, piece, turn)?;
    }
    Ok(())
}

/// Appends what a form says, and the text behind its brace.
fn add_piece(out: &mut Vec<u8>, piece: &str, turn: u64) -> Result<(), FormFault> {
    let Some((form, rest)) = piece.split_once('}') else {
        return Err(FormFault::Form);
    };
    add_form(out, form, turn)?;
    out.extend_from_slice(rest.as_bytes())?;
    Ok(())
}

fn add_form(out: &mut Vec<u8>, form: &str, turn: u64) -> Result<(), FormFault> {
    if form.is_empty() {
        return Ok(());
    }
    if let Some(byte) = form.strip_prefix("byte ") {
        return add_bytes(out, "1", byte);
    }
    if let Some((times, byte)) = form.split_once(" bytes ") {
        return add_bytes(out, times, byte);
    }
    add_turn(out, form, turn)
}

/// Appends a byte so many times.
fn add_bytes(out: &mut Vec<u8>, times: &str, byte: &str) -> Result<(), FormFault> {
    let byte = byte_of(byte)?;
    for _ in 0..number_of(times)? {
        out.push(byte)?;
    }
    Ok(())
}

/// Appends the number of the turn or twice it, or one beyond.
fn add_turn(out: &mut Vec<u8>, form: &str, turn: u64) -> Result<(), FormFault> {
    let (name, beyond) = form.split_once('+').unwrap_or((form, "0"));
    let times = match name {
        "n" => 1,
        "2n" => 2,
        _ => return Err(FormFault::Form),
    };
    let Some(shown) = turn.saturating_mul(times).checked_add(number_of(beyond)?) else {
        return Err(FormFault::Form);
    };
    let mut buffer = Buffer::new();
    out.extend_from_slice(buffer.format(shown).as_bytes())?;
    Ok(())
}

/// The number that the digits write.
pub fn number_of(digits: &str) -> Result<u64, FormFault> {
    digits.parse::<u64>().map_err(|_| FormFault::Form)
}

/// The same of a byte.
pub fn byte_of(digits: &str) -> Result<u8, FormFault> {
    digits.parse::<u8>().map_err(|_| FormFault::Form)
}
