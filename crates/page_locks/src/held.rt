//! A lock that is held.

use block_model::Place;

/// The actor of that number holds the lock of this page.
#[derive(Clone, Copy, Debug, PartialEq, Eq)]
pub struct Held {
    pub page: Place,
    pub by: u32,
}
