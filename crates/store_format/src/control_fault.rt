//! Why no layout is read.

use thiserror::Error;

/// Why a control page gives no layout.
#[derive(Clone, Copy, Debug, Error, PartialEq, Eq)]
pub enum ControlFault {
    /// No layout has this control page on a disk of this size.
    #[error("no store")]
    NoStore,
    /// Memory has run out.
    #[error("out of memory")]
    Memory,
}
