//! Which of nulls and values rows had in a column.

ghost use Rattle.std.specs.Prelude.{◌≡◌, ◌≤◌};
ghost use Rattle.range_tuple.specs.NullStates.{number_of, state_of, has_nulls, has_values};

/// What was added in a column: nothing, nulls alone, values without nulls, or both.
#[derive(Clone, Copy, Debug, PartialEq, Eq)]
pub enum NullState {
    Nothing,
    Nulls,
    Values,
    Both,
}

impl NullState {
    /// The state in which nulls were added or not, and values were or not.
    pub(crate) fn of(nulls: bool, values: bool) -> NullState
        ensures { result ≡ state_of nulls values }
    {
        match (nulls, values) {
            (false, false) => NullState::Nothing,
            (true, false) => NullState::Nulls,
            (false, true) => NullState::Values,
            (true, true) => NullState::Both,
        }
    }

    /// Whether nulls were added.
    pub(crate) fn has_nulls(self) -> bool
        ensures { result ≡ has_nulls self }
    {
        matches!(self, NullState::Nulls | NullState::Both)
    }

    /// Whether values were added.
    pub(crate) fn has_values(self) -> bool
        ensures { result ≡ has_values self }
    {
        matches!(self, NullState::Values | NullState::Both)
    }

    /// Its number in a tuple's bytes.
    pub(crate) fn number(self) -> u8
        ensures { result ≡ number_of self }
    {
        match self {
            NullState::Nothing => 0,
            NullState::Nulls => 1,
            NullState::Values => 2,
            NullState::Both => 3,
        }
    }

    /// The state of a number from 0 to 3.
    pub(crate) fn of_number(number: u8) -> NullState
        requires { number ≤ 3 }
        ensures { number_of result ≡ number }
    {
        match number {
            0 => NullState::Nothing,
            1 => NullState::Nulls,
            2 => NullState::Values,
            _ => NullState::Both,
        }
    }
}
