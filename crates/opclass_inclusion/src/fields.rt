//! Fields of bytes that may end within one, and the place of the first fault among them.

ghost use Rattle.std.specs.Prelude.{◌≡◌, ◌<◌, ◌≤◌, ℕ, true, false, Option, Some, Ok, IfOk, IfErr, MatchResult, slice_index, length};
ghost use Rattle.opclass_inclusion.specs.Faults.{IsFirstFault, placed};

use opclass_api::Malformed;

/// A field: the places where it begins and where it ends.
#[derive(Clone, Copy, Debug, PartialEq, Eq)]
pub(crate) struct Field {
    pub(crate) at: usize,
    pub(crate) end: usize,
}

/// The byte at a place; 0 where the bytes end before it.
pub(crate) fn byte_at(bytes: &[u8], at: usize) -> u8
    ensures { result ≡ slice_index bytes.now at }
{
    if at < bytes.len() { bytes[at] } else { 0 }
}

/// Refuses a field that is out of form.
pub(crate) fn refuse_unless(in_form: bool, field: Field) -> Result<(), Field>
    ensures { MatchResult result (λ ok. in_form ≡ true) (λ fault. (in_form ≡ false) × (fault ≡ field)) }
{
    if in_form { Ok(()) } else { Err(field) }
}

/// What was found in the fields of so many bytes, where the form has as many. A field that is out of form is at fault where
/// it begins; where the bytes end within it, or all fields are in form, the fault is at the end of the bytes or of the form.
pub(crate) fn whole<S: Drop>(
    found: Result<S, Field>,
    len: usize,
    size: usize,
) -> Result<S, Malformed>
    requires { IfErr found (λ field. field.at < field.end) }
    ensures found { IfOk result (λ s. found ≡ Ok s) }
    ensures size { IfOk result (λ s. len ≡ size) }
    ensures place { IfErr result (λ e. (fault : Option ℕ) (end : ℕ → ℕ) → IsFirstFault fault end found → placed len size end fault ≡ Some e.at) }
    ensures within { IfErr result (λ e. e.at ≤ len) }
{
    match found {
        Err(field) => Err(Malformed {
            at: if len < field.end { len } else { field.at },
        }),
        Ok(_) if len != size => Err(Malformed { at: len.min(size) }),
        Ok(found) => Ok(found),
    }
}
