//! The room of a page.

/// What room a page has for a row.
#[derive(Clone, Copy, Debug, PartialEq, Eq)]
pub enum Room {
    /// The page isn't started.
    NotStarted,
    /// The lowest free slot.
    Free(u16),
    /// The page is started, and no slot of it is free.
    Full,
}
