//! Rows of an int8 on pages of two slots.

ghost use Rattle.std.specs.Prelude.{◌≡◌, [], ◌∷◌};
ghost use Rattle.block_model.specs.declared.value.Kind.TheVariants as kinds;
ghost use Rattle.page_layout.specs.PageContents.{IsForm};

use block_model::{Column, Kind, Kinds, Name};
use page_layout::Form;

/// The row 1.0 of 5, which no transaction deleted.
pub const ROW: [u8; 30] = [
    1, 0, 0, 0, 0, 0, 0, 0, 1, 0, 0, 0, 0, 0, 0, 0, 0, 0, 0, 0, 0, 0, 0, 0, 0, 0, 0, 0, 0, 5,
];

/// A column of that kind.
pub fn column(kind: Kind) -> Column
    ensures { result.kind ≡ kind }
{
    let Some(name) = Name::new(b"c") else {
        unreachable!()
    };
    Column { name, kind }
}

/// Two slots of an int8.
pub fn heap() -> Form
    ensures form { IsForm result }
    ensures is { result ≡ Form.Heap 30 2 (kinds.Int ∷ []) 1 }
{
    Form::Heap {
        row: 30,
        slots: 2,
        kinds: Kinds::of(&[column(Kind::Int)]),
        format: 1,
    }
}
