//! Texts of numbers, and lines that end in them.
#![tactic(auto, using(value_text::specs::Appended::longer_before))]

ghost use Rattle.std.specs.Prelude.{◌≡◌, ◌+◌, ◌<◌, ◌≤◌, ◌++◌, ◌∷◌, OnOk, decimal, codes, drop, length};
ghost use Rattle.value_text.specs.Appended.{IsLonger};
ghost use Rattle.reply_texts.specs.declared.text.TheConstants.{ID_LINE};
ghost use Rattle.reply_texts.specs.Texts.{id_text, count_text};

use block_model::{NoMemory, RowId};
use itoa::{Buffer, write_digits};
use value_text::append;

/// How long the numbers of a row, the point between them and a line feed may be.
pub const ID_LINE: usize = 42;

/// Appends the numbers of a row.
pub fn add_id(out: &mut Vec<u8>, id: &RowId) -> Result<(), NoMemory>
    ensures ok { OnOk result (out.new.items ≡ out.old.items ++ id_text id.now) }
    ensures longer { IsLonger out.old.items out.new.items }
{
    add_number(out, id.t)?;
    append(out, b".")?;
    add_number(out, u64::from(id.k))
}

/// Appends a number in decimal digits.
pub fn add_number(out: &mut Vec<u8>, n: u64) -> Result<(), NoMemory>
    ensures ok { OnOk result (out.new.items ≡ out.old.items ++ decimal n) }
    ensures longer { IsLonger out.old.items out.new.items }
{
    let mut buffer = Buffer::new();
    append(out, buffer.format(n).as_bytes())
}

/// Appends a line that ends in the numbers of a row.
pub fn add_row_id(out: &mut Vec<u8>, name: &[u8], words: &[u8], id: &RowId) -> Result<(), NoMemory>
    ensures ok { OnOk result (out.new.items ≡ out.old.items ++ (name.now ++ words.now ++ id_text id.now ++ codes "\n")) }
    ensures longer { IsLonger out.old.items out.new.items }
{
    add_words(out, name, words)?;
    add_id_line(out, id)?;
    Ok(())
}

/// Appends the numbers of a row and a line feed, in one piece.
fn add_id_line(out: &mut Vec<u8>, id: &RowId) -> Result<(), NoMemory>
    ensures ok { OnOk result (out.new.items ≡ out.old.items ++ (id_text id.now ++ codes "\n")) }
    ensures longer { IsLonger out.old.items out.new.items }
{
    let mut line = [0; ID_LINE];
    let from = write_id_line(&mut line, id);
    append(out, &line[from..])
}

/// Writes the numbers of a row and a line feed at the end of the bytes, and answers where they begin.
fn write_id_line(line: &mut [u8], id: &RowId) -> usize
    requires { length line.old ≡ ID_LINE }
    ensures within { result ≤ length line.new }
    ensures text { drop result line.new ≡ id_text id.now ++ codes "\n" }
{
    let feed = put_before(line, ID_LINE, b'\n');
    let k = write_digits(u64::from(id.k), line, feed);
    let point = put_before(line, k, b'.');
    write_digits(id.t, line, point)
}

/// Puts a byte in front of those from `end` on, and answers where it stands.
fn put_before(line: &mut [u8], end: usize, byte: u8) -> usize
    requires some { 0 < end }
    requires within { end ≤ length line.old }
    ensures start { result + 1 ≡ end }
    ensures text { drop result line.new ≡ byte ∷ drop end line.old }
{
    line[end - 1] = byte;
    end - 1
}

/// Appends a line that ends in a number.
pub fn add_count(out: &mut Vec<u8>, name: &[u8], words: &[u8], count: u64) -> Result<(), NoMemory>
    ensures ok { OnOk result (out.new.items ≡ out.old.items ++ count_text name.now words.now count) }
    ensures longer { IsLonger out.old.items out.new.items }
{
    add_words(out, name, words)?;
    add_number(out, count)?;
    append(out, b"\n")
}

/// Appends a name, and words behind it.
pub fn add_words(out: &mut Vec<u8>, name: &[u8], words: &[u8]) -> Result<(), NoMemory>
    ensures ok { OnOk result (out.new.items ≡ out.old.items ++ (name.now ++ words.now)) }
    ensures longer { IsLonger out.old.items out.new.items }
{
    append(out, name)?;
    append(out, words)
}
