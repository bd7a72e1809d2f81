//! Values printed as texts.
#![tactic(auto, using(crate::specs::Appended::longer_before))]

ghost use Rattle.std.specs.Prelude.{◌≡◌, ◌<◌, ◌++◌, OnOk, OnErr, decimal};
ghost use Rattle.std.specs.Fmt.{signed_decimal};
ghost use Rattle.value_text.specs.Appended.{IsLonger};
ghost use Rattle.value_text.specs.CanonicalTexts.{canonical_text, values_text, range_text, lower_text, upper_text, network_text, address_text, byte_of, prefix_text};

use block_model::{Net, NoMemory, Span8, Value};
use itoa::Buffer;

/// Appends the one canonical text of a value, which reads as the same value. After a refusal nothing is changed.
pub fn write_value(value: &Value, out: &mut Vec<u8>) -> Result<(), NoMemory>
    ensures ok { OnOk result (out.new.items ≡ out.old.items ++ canonical_text value.now) }
    ensures err { OnErr result (out.new.items ≡ out.old.items) }
    ensures longer { IsLonger out.old.items out.new.items }
{
    let before = out.len();
    if let Err(refusal) = add_value(out, value) {
        out.truncate(before);
        return Err(refusal);
    }
    Ok(())
}

/// Appends values, each behind a space.
pub fn write_values(values: &[Value], out: &mut Vec<u8>) -> Result<(), NoMemory>
    ensures ok { OnOk result (out.new.items ≡ out.old.items ++ values_text values.now) }
    ensures longer { IsLonger out.old.items out.new.items }
{
    'values: for value in values {
        append(out, b" ")?;
        write_value(value, out)?;
    }
    Ok(())
}

fn add_value(out: &mut Vec<u8>, value: &Value) -> Result<(), NoMemory>
    ensures ok { OnOk result (out.new.items ≡ out.old.items ++ canonical_text value.now) }
    ensures longer { IsLonger out.old.items out.new.items }
{
    match value {
        Value::Null => append(out, b"null"),
        Value::Int(n) => add_int(out, *n),
        Value::Span(span) => add_span(out, span),
        Value::Net(net) => add_net(out, net),
    }
}

#[tactic(auto, using(crate::specs::Appended::longer_before, crate::proofs::PrintedLemmas::printed_by_sides))]
fn add_span(out: &mut Vec<u8>, span: &Span8) -> Result<(), NoMemory>
    ensures ok { OnOk result (out.new.items ≡ out.old.items ++ range_text span.now) }
    ensures longer { IsLonger out.old.items out.new.items }
{
    if span.is_empty() {
        return append(out, b"empty");
    }
    add_lower(out, span.lower())?;
    append(out, b",")?;
    add_upper(out, span.upper())?;
    Ok(())
}

fn add_lower(out: &mut Vec<u8>, lower: Option<i64>) -> Result<(), NoMemory>
    ensures ok { OnOk result (out.new.items ≡ out.old.items ++ lower_text lower) }
    ensures longer { IsLonger out.old.items out.new.items }
{
    match lower {
        None => append(out, b"("),
        Some(n) => {
            append(out, b"[")?;
            add_int(out, n)
        }
    }
}

fn add_upper(out: &mut Vec<u8>, upper: Option<i64>) -> Result<(), NoMemory>
    ensures ok { OnOk result (out.new.items ≡ out.old.items ++ upper_text upper) }
    ensures longer { IsLonger out.old.items out.new.items }
{
    match upper {
        None => append(out, b")"),
        Some(n) => {
            add_int(out, n)?;
            append(out, b")")
        }
    }
}

fn add_net(out: &mut Vec<u8>, net: &Net) -> Result<(), NoMemory>
    ensures ok { OnOk result (out.new.items ≡ out.old.items ++ network_text net.now) }
    ensures longer { IsLonger out.old.items out.new.items }
{
    add_address(out, net.address())?;
    add_prefix(out, net.prefix())?;
    Ok(())
}

fn add_address(out: &mut Vec<u8>, address: u128) -> Result<(), NoMemory>
    ensures ok { OnOk result (out.new.items ≡ out.old.items ++ address_text address) }
    ensures longer { IsLonger out.old.items out.new.items }
{
    add_number(out, byte_of(address, 24))?;
    append(out, b".")?;
    add_number(out, byte_of(address, 16))?;
    append(out, b".")?;
    add_number(out, byte_of(address, 8))?;
    append(out, b".")?;
    add_number(out, byte_of(address, 0))?;
    Ok(())
}

fn byte_of(address: u128, bits: u32) -> u8
    requires { bits < 128 }
    ensures { result ≡ byte_of address bits }
{
    ((address >> bits) % 256) as u8
}

fn add_prefix(out: &mut Vec<u8>, bits: u8) -> Result<(), NoMemory>
    ensures ok { OnOk result (out.new.items ≡ out.old.items ++ prefix_text bits) }
    ensures longer { IsLonger out.old.items out.new.items }
{
    if bits == 32 {
        return Ok(());
    }
    append(out, b"/")?;
    add_number(out, bits)
}

fn add_int(out: &mut Vec<u8>, n: i64) -> Result<(), NoMemory>
    ensures ok { OnOk result (out.new.items ≡ out.old.items ++ signed_decimal n) }
    ensures longer { IsLonger out.old.items out.new.items }
{
    let mut buffer = Buffer::new();
    append(out, buffer.format(n).as_bytes())
}

fn add_number(out: &mut Vec<u8>, n: u8) -> Result<(), NoMemory>
    ensures ok { OnOk result (out.new.items ≡ out.old.items ++ decimal n) }
    ensures longer { IsLonger out.old.items out.new.items }
{
    let mut buffer = Buffer::new();
    append(out, buffer.format(n).as_bytes())
}

/// Appends bytes.
pub fn append(out: &mut Vec<u8>, bytes: &[u8]) -> Result<(), NoMemory>
    ensures ok { OnOk result (out.new.items ≡ out.old.items ++ bytes.now) }
    ensures longer { IsLonger out.old.items out.new.items }
{
    out.extend_from_slice(bytes)?;
    Ok(())
}
