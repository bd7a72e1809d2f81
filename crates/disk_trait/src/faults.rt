//! A count of the calls that failed.

ghost use Rattle.std.specs.Prelude.{◌≡◌};
ghost use Rattle.std.specs.Option.{ok_or};
ghost use Rattle.block_model.specs.Causes.{HasCause};
ghost use Rattle.disk_trait.specs.Calls.{CountsFault};

/// What a call gave, or its fault where it gave nothing, which is then counted.
pub fn counted<T, E: Copy>(given: Option<T>, fault: E, faults: &mut u64) -> Result<T, E>
    ensures same { result ≡ ok_or given fault }
    ensures counted { CountsFault faults.old faults.new result }
    ensures cause { HasCause faults.old faults.new result }
{
    match given {
        Some(value) => Ok(value),
        None => {
            *faults = faults.saturating_add(1);
            Err(fault)
        }
    }
}
