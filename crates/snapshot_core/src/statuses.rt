//! How transactions stand.

/// How a transaction stands: its number isn't used yet, it is under way, or it has ended in one of two ways.
#[derive(Clone, Copy, Debug, PartialEq, Eq)]
pub enum Status {
    Unused,
    Begun,
    Committed,
    RolledBack,
}
