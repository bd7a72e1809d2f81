//! Summaries of ranges as bytes.

ghost use Rattle.std.specs.Prelude.{◌≡◌, ◌<◌, ◌≤◌, ◌+◌, ◌++◌, if◌then◌else◌, nat_lt, pos, Ok, Err, IfErr, IfOk, MatchResult, length, drop};
ghost use Rattle.std.specs.Int.{w64, cast_unsigned};
ghost use Rattle.byte_fields.specs.Fields.{put_at};
ghost use Rattle.byte_fields.specs.Int8.{int8_at};
ghost use Rattle.opclass_inclusion.specs.SpanEncoding.{bit, bytes_of, field_bytes, fields_of, shape_of};
ghost use Rattle.opclass_inclusion.specs.Faults.{IsFirstFault};
ghost use Rattle.opclass_inclusion.specs.SpanFaults.{IsHullIn, field_end, field_fault, fields_in};
ghost use Rattle.opclass_inclusion.specs.SpanHulls.{IsSummary};
ghost use Rattle.opclass_inclusion.specs.SpanReading.{read_of};

use crate::fields::{Field, byte_at, refuse_unless, whole};
use crate::span_summary::{SpanSummary, between};
use block_model::Span8;
use byte_fields::{get_i64, put_i64};
use opclass_api::Malformed;

/// How many bytes a summary has: one of flags, one of the hull's shape, and its two bounds.
pub(crate) const SIZE: usize = 18;

const BOTH_FINITE: u8 = 0;

const LOWER_INFINITE: u8 = 2;

const UPPER_INFINITE: u8 = 4;

const BOTH_INFINITE: u8 = 6;

const FLAGS: Field = Field { at: 0, end: 1 };

const SHAPE: Field = Field { at: 1, end: 2 };

const LOWER: Field = Field { at: 2, end: 10 };

const UPPER: Field = Field { at: 10, end: SIZE };

const INT8_SIZE: usize = 8;

/// The fields of the bytes. `shape` says which bounds of the hull are infinite; a bound that is absent is 0.
#[derive(Clone, Copy, Debug, PartialEq, Eq)]
pub(crate) struct SpanFields {
    pub(crate) flags: u8,
    pub(crate) shape: u8,
    pub(crate) lower: i64,
    pub(crate) upper: i64,
}

/// Writes the bytes of a summary to the front of `out`.
pub(crate) fn write(s: &SpanSummary, out: &mut [u8])
    requires room { 18 ≤ length out.old }
    ensures size { length (bytes_of s.now) ≡ 18 }
    ensures written { out.new ≡ bytes_of s.now ++ drop 18 out.old }
{
    let fields = fields_of(s);
    out[FLAGS.at] = fields.flags;
    out[SHAPE.at] = fields.shape;
    put_i64(out, LOWER.at, fields.lower);
    put_i64(out, UPPER.at, fields.upper);
}

fn fields_of(s: &SpanSummary) -> SpanFields
    ensures { result ≡ fields_of s.now }
{
    SpanFields {
        flags: flags_of(s.empty_added, !s.hull.is_empty()),
        shape: shape_of(&s.hull),
        lower: s.hull.lower().unwrap_or(0),
        upper: s.hull.upper().unwrap_or(0),
    }
}

fn flags_of(empty_added: bool, has_hull: bool) -> u8
    ensures { result ≡ bit empty_added 1 + bit has_hull 2 }
{
    match (empty_added, has_hull) {
        (false, false) => 0,
        (true, false) => 1,
        (false, true) => 2,
        (true, true) => 3,
    }
}

fn shape_of(hull: &Span8) -> u8
    ensures { result ≡ shape_of hull.now }
{
    if hull.is_empty() {
        return 0;
    }
    match (hull.lower(), hull.upper()) {
        (Some(_), Some(_)) => BOTH_FINITE,
        (None, Some(_)) => LOWER_INFINITE,
        (Some(_), None) => UPPER_INFINITE,
        (None, None) => BOTH_INFINITE,
    }
}

/// The summary that the bytes encode. `Err` exactly where they encode none.
pub(crate) fn read(bytes: &[u8]) -> Result<SpanSummary, Malformed>
    ensures found { IfOk result (λ s. IsSummary s × (bytes.now ≡ bytes_of s)) }
    ensures read { MatchResult result (λ s. read_of bytes.now ≡ Ok s) (λ e. read_of bytes.now ≡ Err e.at) }
    ensures within { IfErr result (λ e. e.at ≤ length bytes.now) }
{
    whole(summary_in(&fields_in(bytes)), bytes.len(), SIZE)
}

/// The fields; one that isn't whole counts as 0.
fn fields_in(bytes: &[u8]) -> SpanFields
    ensures fields { result ≡ fields_in bytes.now }
    ensures whole { length bytes.now ≡ 18 → bytes.now ≡ field_bytes result }
{
    SpanFields {
        flags: byte_at(bytes, FLAGS.at),
        shape: byte_at(bytes, SHAPE.at),
        lower: number_at(bytes, LOWER.at),
        upper: number_at(bytes, UPPER.at),
    }
}

fn number_at(bytes: &[u8], at: usize) -> i64
    requires { at ≤ 10 }
    ensures number { result ≡ (if nat_lt (length bytes.now) (at + 8) then pos 0 else int8_at bytes.now at) }
    ensures again { at + 8 ≤ length bytes.now → put_at bytes.now at 8 (cast_unsigned w64 result) ≡ bytes.now }
{
    if bytes.len() < at + INT8_SIZE {
        0
    } else {
        get_i64(bytes, at)
    }
}

fn summary_in(fields: &SpanFields) -> Result<SpanSummary, Field>
    ensures found { IfOk result (λ s. IsSummary s × (fields_of s ≡ fields.now)) }
    ensures fault { IsFirstFault (field_fault fields.now) field_end result }
{
    match fields.flags {
        0 => without_hull(fields, false),
        1 => without_hull(fields, true),
        2 => with_hull(fields, false),
        3 => with_hull(fields, true),
        _ => Err(FLAGS),
    }
}

fn without_hull(fields: &SpanFields, empty_added: bool) -> Result<SpanSummary, Field>
    requires { fields.now.flags ≡ bit empty_added 1 }
    ensures found { IfOk result (λ s. IsSummary s × (fields_of s ≡ fields.now)) }
    ensures fault { IsFirstFault (field_fault fields.now) field_end result }
{
    refuse_unless(fields.shape == 0, SHAPE)?;
    refuse_unless(fields.lower == 0, LOWER)?;
    refuse_unless(fields.upper == 0, UPPER)?;
    Ok(SpanSummary {
        empty_added,
        hull: Span8::empty(),
    })
}

fn with_hull(fields: &SpanFields, empty_added: bool) -> Result<SpanSummary, Field>
    requires { fields.now.flags ≡ bit empty_added 1 + 2 }
    ensures found { IfOk result (λ s. IsSummary s × (fields_of s ≡ fields.now)) }
    ensures fault { IsFirstFault (field_fault fields.now) field_end result }
{
    let hull = hull_in(fields)?;
    let summary = SpanSummary::of(&hull);
    Ok(SpanSummary {
        empty_added,
        hull: summary.hull,
    })
}

fn hull_in(fields: &SpanFields) -> Result<Span8, Field>
    requires at_least { 2 ≤ fields.now.flags }
    requires at_most { fields.now.flags ≤ 3 }
    ensures found { IfOk result (IsHullIn fields.now) }
    ensures fault { IsFirstFault (field_fault fields.now) field_end result }
{
    match fields.shape {
        BOTH_FINITE => {
            refuse_unless(fields.lower < fields.upper, UPPER)?;
            Ok(between(Some(fields.lower), Some(fields.upper)))
        }
        LOWER_INFINITE => {
            refuse_unless(fields.lower == 0, LOWER)?;
            Ok(between(None, Some(fields.upper)))
        }
        UPPER_INFINITE => {
            refuse_unless(fields.upper == 0, UPPER)?;
            Ok(between(Some(fields.lower), None))
        }
        BOTH_INFINITE => {
            refuse_unless(fields.lower == 0, LOWER)?;
            refuse_unless(fields.upper == 0, UPPER)?;
            Ok(between(None, None))
        }
        _ => Err(SHAPE),
    }
}
