//! Numbers of the format of an index's pages.

/// The kind of a page that isn't started.
pub const UNSTARTED: u8 = 0;

/// The kind of a metapage.
pub const META: u8 = 3;

/// The kind of a page of the map.
pub const MAP: u8 = 4;

/// The kind of a page of tuples.
pub const REGULAR: u8 = 5;

/// The kind of a page of tuples that is being evacuated.
pub const EVACUATED: u8 = 6;

/// How many entries a page of the map has.
pub const MAP_ENTRIES: u16 = 1020;

/// How many bytes the header of a page has.
pub(crate) const HEADER: usize = 32;

/// Where the number of slots stands on a page.
pub(crate) const COUNT: usize = 2;

/// How many bytes the offset and the length of a slot have.
pub(crate) const SLOT_SIZE: usize = 4;

/// Where the length of a tuple stands behind its offset.
pub(crate) const LENGTH: usize = 2;

/// How many bytes an entry of the map has.
pub(crate) const ENTRY_SIZE: usize = 8;

/// Where the slot stands in an entry of the map.
pub(crate) const ENTRY_SLOT: usize = 4;

/// Where the zeros stand in an entry of the map.
pub(crate) const ENTRY_ZEROS: usize = 6;

/// How many bytes of a page without slots are free.
pub(crate) const ROOM: u16 = 8160;
