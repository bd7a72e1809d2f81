//! Summaries as bytes.

ghost use Rattle.std.specs.Prelude.{◌≡◌, ◌≤◌, ◌++◌, length, drop, Ok, Err, IfErr, IfOk, IsErr, MatchResult};
ghost use Rattle.opclass_minmax.specs.Bounds.{Bounds, IsSummary};
ghost use Rattle.opclass_minmax.specs.Encoding.{bytes_of};
ghost use Rattle.opclass_minmax.specs.Reading.{read_of};

use crate::summary::{Extremes, Summary};
use byte_fields::{get_i64, put_i64};
use opclass_api::Malformed;

/// How many bytes a summary has at most: those of two numbers.
pub(crate) const GREATEST_SIZE: usize = 16;

const LEAST_AT: usize = 0;

const GREATEST_AT: usize = 8;

/// Writes the bytes of a summary to the front of `out`, and answers how many they are.
pub(crate) fn write(s: &Summary, out: &mut [u8]) -> usize
    requires { 16 ≤ length out.old }
    ensures size { result ≡ length (bytes_of s.now) }
    ensures within { result ≤ 16 }
    ensures written { out.new ≡ bytes_of s.now ++ drop result out.old }
{
    match s.extremes() {
        None => 0,
        Some(extremes) => {
            put_i64(out, LEAST_AT, extremes.least);
            put_i64(out, GREATEST_AT, extremes.greatest);
            GREATEST_SIZE
        }
    }
}

/// The summary that the bytes encode. `Err` exactly where they encode none.
pub(crate) fn read(bytes: &[u8]) -> Result<Summary, Malformed>
    ensures found { IfOk result (λ s. IsSummary s × (bytes.now ≡ bytes_of s)) }
    ensures refused { IsErr result → (s : Bounds) → IsSummary s → bytes.now ≡ bytes_of s → ⊥ }
    ensures read { MatchResult result (λ s. read_of bytes.now ≡ Ok s) (λ e. read_of bytes.now ≡ Err e.at) }
    ensures within { IfErr result (λ e. e.at ≤ length bytes.now) }
{
    if bytes.is_empty() {
        return Ok(Summary::new());
    }
    if bytes.len() < GREATEST_SIZE {
        return Err(Malformed { at: bytes.len() });
    }
    let least = get_i64(bytes, LEAST_AT);
    let greatest = get_i64(bytes, GREATEST_AT);
    if greatest < least {
        return Err(Malformed { at: GREATEST_AT });
    }
    if GREATEST_SIZE < bytes.len() {
        return Err(Malformed { at: GREATEST_SIZE });
    }
    Ok(Summary::of(least, greatest))
}
