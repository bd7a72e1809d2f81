//! How sessions stand.

/// A session has no transaction under way, or one, or one that has failed and can only end.
#[derive(Clone, Copy, Debug, PartialEq, Eq)]
pub enum Standing {
    Idle,
    UnderWay,
    Failed,
}
