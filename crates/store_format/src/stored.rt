//! What stands in a control page several times, one behind the other.

ghost use Rattle.std.specs.Prelude.{◌≡◌, ℕ, ◌+◌, ◌≤◌, ◌++◌, List, [], length, Option};
ghost use Rattle.block_model.specs.declared.limits.TheConstants.{PAGE_SIZE};
ghost use Rattle.std.specs.List.{AllByRecursion, flat_map};
ghost use Rattle.store_format.specs.ControlReading.{Gives, list_from};

use crate::bytes::PageBytes;
use crate::control_fault::ControlFault;
use crate::fields::Unread;
use block_model::Sequence;
use std::alloc::Global;

/// A column, a table, an indexed column or an index.
pub(crate) trait Stored: Drop + Sized {
    /// Its bytes.
    ghost bytes_of: { Self → List ℕ };

    /// What is read from the front of bytes, and the bytes behind it.
    ghost read_of: { List ℕ → Option (Self × List ℕ) };

    /// It has few columns.
    ghost IsShort: { Self → Type 0 };

    /// Its names are names.
    ghost IsNamed: { Self → Type 0 };

    /// Writes its bytes.
    fn write(&self, page: &mut PageBytes)
        requires short { IsShort self.now }
        requires room { length page.old + length (bytes_of self.now) ≤ PAGE_SIZE }
        ensures written { page.new ≡ page.old ++ bytes_of self.now }
        ensures named { IsNamed self.now };

    /// Reads it from the front of bytes. Takes the memory of its columns.
    fn read(alloc: Global, unread: &mut Unread<'_>) -> Result<Self, ControlFault>
        ensures { Gives result unread.new (read_of unread.old) };
}

/// Writes the bytes of each, one behind the other.
pub(crate) fn write_each<T: Stored>(items: &[T], page: &mut PageBytes)
    requires short { AllByRecursion T.IsShort items.now }
    requires room { length page.old + length (flat_map T.bytes_of items.now) ≤ PAGE_SIZE }
    ensures written { page.new ≡ page.old ++ flat_map T.bytes_of items.now }
    ensures named { AllByRecursion T.IsNamed items.now }
{
    match items {
        [] => {}
        [first, rest @ ..] => {
            first.write(page);
            write_each(rest, page);
        }
    }
}

/// Reads so many, one behind the other. Takes the memory of the list.
pub(crate) fn read_each<T: Stored>(
    alloc: Global,
    count: u8,
    unread: &mut Unread<'_>,
) -> Result<Sequence<T>, ControlFault>
    ensures { Gives result unread.new (list_from T.read_of [] count unread.old) }
{
    let mut items = Sequence::new(alloc);
    'items: for _ in 0..count {
        let item = match T::read(alloc, unread) {
            Ok(item) => item,
            Err(fault) => return Err(fault),
        };
        let Ok(()) = items.push(item) else {
            return Err(ControlFault::Memory);
        };
    }
    Ok(items)
}
