//! What a step of a statement did.

use crate::held::Held;
use block_model::Point;

/// What came of a step. `Finished` carries the point of the step that ends the work.
#[derive(Clone, Copy, Debug, PartialEq, Eq)]
pub enum Did {
    /// The step was made, and the work goes on.
    Moved(Point),
    /// The step was made, and was the last one.
    Finished(Point),
    /// Nothing was changed: another actor holds the lock of a page that the step changes.
    Blocked(Held),
    /// Nothing was changed: that actor holds the summarise lock of the table.
    NoRight { by: u32 },
}
