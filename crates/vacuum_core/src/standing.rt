//! Where a vacuum stands.

/// Where a vacuum stands between its steps. Its indexes are those of the table in order, counted from 0.
#[derive(Clone, Copy, Debug, PartialEq, Eq)]
pub enum Standing {
    /// Before its first step, which takes the summarise lock of the table.
    Begins,
    /// At this block of the heap.
    Prunes(u32),
    /// At this page of an index.
    Sweeps { at: u8, block: u32 },
    /// Nothing is left to be dropped.
    Done,
}

/// Where it stands; the extent that was read, in blocks; and how many rows and unnamed tuples it dropped.
#[derive(Clone, Copy, Debug, PartialEq, Eq)]
pub(crate) struct Course {
    pub(crate) standing: Standing,
    pub(crate) extent: u32,
    pub(crate) rows: u64,
    pub(crate) unnamed: u64,
}
