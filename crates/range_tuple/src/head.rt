//! The fields of a tuple's bytes before its summaries: the range's number, the flags, the states and the lengths.

ghost use Rattle.std.specs.Prelude.{◌≡◌, ◌<◌, ◌≤◌, ◌+◌, length, IfSome};
ghost use Rattle.range_tuple.specs.TupleFaults.{head_fault, wrong_state, wrong_length, is_wrong, is_wrong_length};

use byte_fields::get_u16;

/// How many bytes stand before the states: the range's number, and the flags.
pub(crate) const HEADER: usize = 5;

/// The place of the first field before the summaries that can't stand behind the fields before it, in the bytes of a tuple
/// with so many columns; their length where they end before.
pub(crate) fn head_fault(bytes: &[u8], count: usize) -> Option<usize>
    requires { count < 65536 }
    ensures fault { result ≡ head_fault count bytes.now }
    ensures within { IfSome result (λ at. at ≤ length bytes.now) }
{
    let len = bytes.len();
    if len < HEADER {
        return Some(len);
    }
    if bytes[4] > 3 {
        return Some(4);
    }
    if let Some(at) = wrong_state(bytes, count) {
        return Some(at);
    }
    if len < HEADER + count {
        return Some(len);
    }
    if let Some(at) = wrong_length(bytes, count) {
        return Some(at);
    }
    if len < HEADER + 3 * count {
        return Some(len);
    }
    None
}

/// The place of the first state that is wrong.
fn wrong_state(bytes: &[u8], count: usize) -> Option<usize>
    requires there { 5 ≤ length bytes.now }
    requires few { count < 65536 }
    ensures fault { result ≡ wrong_state count bytes.now }
    ensures within { IfSome result (λ at. at ≤ length bytes.now) }
{
    let says_empty = bytes[4] > 1;
    let mut nothing = true;
    'states: for k in 0..count.min(bytes.len() - HEADER) {
        let state = bytes[HEADER + k];
        nothing &= state == 0;
        if is_wrong(state, says_empty, nothing & (k + 1 == count)) {
            return Some(HEADER + k);
        }
    }
    None
}

/// Whether no state has the number, or it isn't 0 with the empty flag, or all are 0 without it.
fn is_wrong(state: u8, says_empty: bool, all_nothing: bool) -> bool
    ensures { result ≡ is_wrong state says_empty all_nothing }
{
    state > 3 || (if says_empty { state > 0 } else { all_nothing })
}

/// The place of the first length that is wrong.
fn wrong_length(bytes: &[u8], count: usize) -> Option<usize>
    requires there { 5 + count ≤ length bytes.now }
    requires few { count < 65536 }
    ensures fault { result ≡ wrong_length count bytes.now }
    ensures within { IfSome result (λ at. at ≤ length bytes.now) }
{
    let lengths = HEADER + count;
    'lengths: for k in 0..count.min((bytes.len() - lengths) / 2) {
        let at = lengths + 2 * k;
        if length_is_wrong(bytes[HEADER + k], get_u16(bytes, at)) {
            return Some(at);
        }
    }
    None
}

/// Whether the length is 0 in a state with values, or isn't in another.
fn length_is_wrong(state: u8, size: u16) -> bool
    ensures { result ≡ is_wrong_length state size }
{
    if state > 1 { size == 0 } else { size != 0 }
}
